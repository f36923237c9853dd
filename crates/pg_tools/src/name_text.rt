//! Names of stations and channels as text, as each format asks. A name is 16 bytes that the standard has as ASCII; some PMUs send others.

use crate::reading::Name;
use std::alloc::{AllocError, Global};

/// What stands for a character that a format can't have.
const STAND_IN: char = '_';

/// The text of a name: its bytes are UTF-8, or else each is a character of ISO 8859-1.
pub fn text_of(alloc: Global, name: &Name) -> Result<String, AllocError> {
    let bytes = name.bytes();
    match str::from_utf8(bytes) {
        Ok(text) => String::from_str(alloc, text),
        Err(_) => {
            let mut text = String::new(alloc);
            for byte in bytes {
                text.push(char::from(*byte))?;
            }
            Ok(text)
        }
    }
}

/// Whether a name stands as it is in the key of a field: UTF-8 without control characters, backslashes and number signs, and not empty.
pub fn is_plain(name: &Name) -> bool {
    let Ok(text) = str::from_utf8(name.bytes()) else {
        return false;
    };
    !text.is_empty()
        && !text.chars().any(|letter| letter.is_control() || letter == '\\' || letter == '#')
}

/// Adds a text as JSON, in quotes.
pub fn put_json(alloc: Global, out: &mut String, text: &str) -> Result<(), AllocError> {
    match serde_json::to_string(alloc, &text) {
        Ok(json) => out.push_str(&json),
        // A text is always JSON, so that memory alone can be missing.
        Err(_) => Err(AllocError),
    }
}

/// Adds a text as a tag's value, or the key of a tag or field, of line protocol: comma, equals sign and space are escaped. There is no escape
/// for control characters and for a backslash at the end, so `_` stands for these and for each backslash.
pub fn put_tag(out: &mut String, text: &str) -> Result<(), AllocError> {
    for letter in text.chars() {
        match letter {
            ',' | '=' | ' ' => {
                out.push('\\')?;
                out.push(letter)?;
            }
            '\\' => out.push(STAND_IN)?,
            _ if letter.is_control() => out.push(STAND_IN)?,
            _ => out.push(letter)?,
        }
    }
    Ok(())
}

/// Adds a text as a string field of line protocol, in quotes.
pub fn put_field(out: &mut String, text: &str) -> Result<(), AllocError> {
    out.push('"')?;
    for letter in text.chars() {
        match letter {
            '"' | '\\' => {
                out.push('\\')?;
                out.push(letter)?;
            }
            _ if letter.is_control() => out.push(STAND_IN)?,
            _ => out.push(letter)?,
        }
    }
    out.push('"')
}

/// Adds a text as a cell of comma separated values, in quotes. A line is one row, so `_` stands for control characters.
pub fn put_cell(out: &mut String, text: &str) -> Result<(), AllocError> {
    out.push('"')?;
    for letter in text.chars() {
        match letter {
            '"' => out.push_str("\"\"")?,
            _ if letter.is_control() => out.push(STAND_IN)?,
            _ => out.push(letter)?,
        }
    }
    out.push('"')
}

//! Lines of bounded length.

ghost use Rattle.std.specs.Prelude.{◌≡◌, ◌<◌, ◌≤◌, ◌↔◌, if◌then◌else◌, is_ok, IfSome, IsTrue, length, true};
ghost use Rattle.pg_status.specs.Lines.{fresh, is_quit, kind_in, lengthened, past_spaces, word_in};

use std::alloc::{AllocError, Global};
use std::marker::Model;

/// The bytes of a line at most, without its LF.
pub const LINE_BYTES: usize = 4096;

/// The line by which a client asks whether all before it were answered. The answer is the same.
pub const END: &[u8] = b"end";

/// What a line is for the connection that it came by.
#[derive(Clone, Copy, PartialEq, Eq)]
pub enum LineKind {
    /// It is answered where lines are.
    Other,
    /// `end`: it is answered by `end`, once all lines before it were.
    End,
    /// `quit`, with spaces around it or none: it is the last line of its connection.
    Quit,
}

/// What a line is, which stands there without its end.
pub fn kind_of(line: &[u8]) -> LineKind
    ensures { result ≡ kind_in line.now }
{
    if line == END {
        LineKind::End
    } else if has_quit(line) {
        LineKind::Quit
    } else {
        LineKind::Other
    }
}

/// Where the first byte is that is no space.
fn word_at(line: &[u8]) -> Option<usize>
    ensures value { result ≡ word_in line.now }
    ensures within { IfSome result (λ place. place < length line.now) }
{
    line.iter().position(|byte| *byte != b' ')
}

/// A line without the spaces before it.
fn without_spaces(line: &[u8]) -> &[u8]
    ensures { result.now ≡ past_spaces line.now }
{
    match word_at(line) {
        Some(place) => &line[place..],
        None => &[],
    }
}

/// Whether it is `quit`, with spaces around it or none.
fn has_quit(line: &[u8]) -> bool
    ensures { result ≡ is_quit line.now }
{
    let word = without_spaces(line);
    word.starts_with(b"quit") && without_spaces(&word[4..]).is_empty()
}

/// A line that comes byte by byte. It keeps 4,096 bytes at most; of a longer one it knows that it is too long.
#[derive(Drop)]
pub struct Lines {
    bytes: Vec<u8>,
    is_long: bool,
}

impl Model for Lines {
    ghost use Rattle.std.specs.Prelude.{◌≤◌, length};
    ghost use Rattle.pg_status.specs.Lines.{Begun};

    ghost Value = { Begun };

    ghost view = { λ l. record { bytes = l.bytes.items; is_long = l.is_long } };

    ghost invariant = { λ l. length l.bytes.items ≤ 4096 };
}

impl Lines {
    /// No byte has come.
    pub fn new(alloc: Global) -> Lines
        ensures { result ≡ fresh }
    {
        Lines {
            bytes: Vec::new(alloc),
            is_long: false,
        }
    }

    /// A byte has come that ends no line.
    ///
    /// # Errors
    ///
    /// There is no memory, and nothing changes.
    pub fn push(&mut self, byte: u8) -> Result<(), AllocError>
        ensures { self.new ≡ (if is_ok result then lengthened byte self.old else self.old) }
    {
        if self.bytes.len() < LINE_BYTES {
            self.bytes.push(byte)?;
        } else {
            self.is_long = true;
        }
        Ok(())
    }

    /// The line so far.
    pub fn bytes(&self) -> &[u8]
        ensures value { result.now ≡ self.now.bytes }
        ensures most { length result.now ≤ 4096 }
    {
        self.bytes.as_slice()
    }

    /// Whether it is longer than it may be.
    pub fn is_long(&self) -> bool
        ensures { result ≡ self.now.is_long }
    {
        self.is_long
    }

    /// The next line begins.
    pub fn clear(&mut self)
        ensures { self.new ≡ fresh }
    {
        self.bytes.clear();
        self.is_long = false;
    }
}

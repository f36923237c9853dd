//! Where a tool connects to.

use crate::settings::{BadOption, number};
use pg_wire::PmuId;
use std::fmt;
use std::net::{SocketAddr, SocketAddrV4};

/// The most bytes of a host's name.
const LONGEST: usize = 253;

/// Where a connection is made to.
#[derive(Clone, Copy)]
pub enum Target<'a> {
    /// An address.
    Address(SocketAddr),
    /// A host's name, which is looked up, and a port.
    Name(&'a str, u16),
}

impl fmt::Display for Target<'_> {
    fn fmt<W: fmt::Write>(&self, f: &mut fmt::Formatter<W>) -> fmt::Result {
        match self {
            Target::Address(address) => write!(f, "{address}"),
            Target::Name(name, port) => write!(f, "{name}:{port}"),
        }
    }
}

/// A target as `A.B.C.D:PORT` or `NAME:PORT`. A name has 1 to 253 letters, digits, dots and hyphens; behind its last dot stands no digit first, so
/// that no mistyped address is taken for a name.
///
/// # Errors
///
/// The word is neither.
pub fn read_target<'a>(word: &'a str, option: &'static str) -> Result<Target<'a>, BadOption> {
    if let Ok(address) = word.parse::<SocketAddrV4>() {
        return Ok(Target::Address(SocketAddr::V4(address)));
    }
    let wrong = BadOption {
        option,
        takes: "an address A.B.C.D:PORT or NAME:PORT, as 127.0.0.1:4712 or localhost:4712",
    };
    let Some((name, port)) = word.rsplit_once(':') else {
        return Err(wrong);
    };
    match number(port, 1, 65_535) {
        Some(port) if is_name(name) => Ok(Target::Name(name, port as u16)),
        _ => Err(wrong),
    }
}

/// What `--stream` takes.
pub const WRONG_STREAM: BadOption = BadOption {
    option: "--stream",
    takes: "a number of 1 to 65534",
};

/// The IDCODE of a stream, 1 to 65534, where the word is that.
pub fn read_stream(word: &str) -> Option<PmuId> {
    PmuId::new(number(word, 1, 65_534)? as u16)
}

/// Whether this may be a host's name.
fn is_name(word: &str) -> bool {
    let last = match word.rsplit_once('.') {
        Some((_, last)) => last,
        None => word,
    };
    let begins = match last.as_bytes().first() {
        Some(first) => !first.is_ascii_digit(),
        None => false,
    };
    begins
        && word.len() <= LONGEST
        && word.as_bytes().iter().all(|byte| byte.is_ascii_alphanumeric()
            || *byte == b'.'
            || *byte == b'-')
}

//! Names of stations, as they are shown.

ghost use Rattle.std.specs.Prelude.{◌≡◌, map};
ghost use Rattle.pg_status.specs.Stations.{shown};

use std::io;
use std::io::Write;

/// A byte of a station's name, as it is shown: `?` where it is not printable ASCII. NUL, by which some sources fill a name up, is a space.
#[tactic(auto, unfolding(crate::specs::Stations::shown))]
fn shown(byte: u8) -> u8
    ensures { result ≡ shown byte }
{
    match byte {
        0 => b' ',
        b' '..=b'~' => byte,
        _ => b'?',
    }
}

/// The name of a station (STN of C37.118.2, 6.4), as it is shown, with the spaces behind it.
pub fn shown_name(station: &[u8; 16]) -> [u8; 16]
    ensures { result ≡ map shown station.now }
{
    let mut name = *station;
    for byte in name.iter_mut() {
        *byte = shown(*byte);
    }
    name
}

/// Writes the name of a station between quotation marks, without the spaces behind it. A quotation mark and a backslash stand behind a backslash.
pub fn print_station<W: Write>(out: &mut W, station: &[u8; 16]) -> io::Result<()> {
    out.write_all(b"\"")?;
    print_escaped(out, shown_name(station).trim_ascii_end())?;
    out.write_all(b"\"")
}

/// Writes bytes, with a backslash before each quotation mark and backslash.
pub(crate) fn print_escaped<W: Write>(out: &mut W, bytes: &[u8]) -> io::Result<()> {
    for byte in bytes {
        if matches!(*byte, b'"' | b'\\') {
            out.write_all(b"\\")?;
        }
        out.write_all(&[*byte])?;
    }
    Ok(())
}

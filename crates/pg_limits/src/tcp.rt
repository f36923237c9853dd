//! The system's table of TCP connections.
ghost use Rattle.std.specs.Prelude.{◌≡◌, ◌<◌, option_map};
ghost use Rattle.std.specs.Char.{is_ascii_digit};
ghost use Rattle.std.specs.List.{list_all};
ghost use Rattle.std.specs.Net.Addr.{ipv4_bits};
ghost use Rattle.pg_limits.specs.Tcp.{address_in, both_in, bytes_in, count_in, field_in, halves, is_label, port_in, row_in, row_of, state_in};

use hex::FromHex;
use std::net::Ipv4Addr;

/// A connection, as a line of /proc/net/tcp of Linux has it.
#[derive(Clone, Copy, PartialEq, Eq)]
pub struct TcpRow {
    /// The address and the port of this machine's end.
    pub local: (Ipv4Addr, u16),
    /// The address and the port of the other end.
    pub remote: (Ipv4Addr, u16),
    /// Its state: 1 where it is established.
    pub state: u8,
    /// How many bytes were written to it and not acknowledged by the other end.
    pub unacknowledged: u32,
}

impl TcpRow {
    /// The connection of a line. Its fields stand between blanks: `N:`, a number; the local end `AABBCCDD:PPPP`, where the address
    /// is in the order of its bytes on a little-endian machine, so that `0100007F` is 127.0.0.1; the remote end; the state `SS`; and
    /// `TTTTTTTT:RRRRRRRR`, of which the first is how many bytes are not acknowledged. All but N is hexadecimal, of either case. What
    /// follows is not looked at. `None` for any other line, and so for the first of the table.
    pub fn read(line: &str) -> Option<TcpRow>
        ensures { option_map (λ row. record { local = (ipv4_bits row.local.0, row.local.1); remote = (ipv4_bits row.remote.0, row.remote.1); state = row.state; unacknowledged = row.unacknowledged }) result ≡ row_in line.now }
    {
        let (label, rest) = field(line);
        let (local, rest) = field(rest);
        let (remote, rest) = field(rest);
        let (state, rest) = field(rest);
        let (queues, _) = field(rest);
        if !is_label(label) {
            return None;
        }
        row_of(local, remote, state, queues)
    }
}

/// What stands before the first such character of the text, and what after it.
fn halves(text: &str, at: char) -> Option<(&str, &str)>
    requires { at < 128 }
    ensures { option_map (λ p. (p.0.now, p.1.now)) result ≡ halves at text.now }
{
    text.split_once(at)
}

/// The first field of the text, and what follows it.
fn field(text: &str) -> (&str, &str)
    ensures { (result.0.now, result.1.now) ≡ field_in text.now }
{
    let text = text.trim_start();
    match halves(text, ' ') {
        Some(parts) => parts,
        None => (text, ""),
    }
}

fn all_digits(digits: &[u8]) -> bool
    ensures { result ≡ list_all is_ascii_digit digits.now }
{
    digits.iter().all(|byte| byte.is_ascii_digit())
}

/// Whether the field is a number and a colon.
fn is_label(word: &str) -> bool
    ensures { result ≡ is_label (halves 58 word.now) }
{
    match halves(word, ':') {
        Some((digits, rest)) => {
            rest.is_empty() && !digits.is_empty() && all_digits(digits.as_bytes())
        }
        None => false,
    }
}

fn state(word: &str) -> Option<u8>
    ensures { result ≡ state_in word.now }
{
    let bytes = <[u8; 1]>::from_hex(word).ok()?;
    Some(u8::from_be_bytes(bytes))
}

fn port(word: &str) -> Option<u16>
    ensures { result ≡ port_in word.now }
{
    let bytes = <[u8; 2]>::from_hex(word).ok()?;
    Some(u16::from_be_bytes(bytes))
}

fn count(word: &str) -> Option<u32>
    ensures { result ≡ count_in word.now }
{
    let bytes = <[u8; 4]>::from_hex(word).ok()?;
    Some(u32::from_be_bytes(bytes))
}

fn address(word: &str) -> Option<Ipv4Addr>
    ensures { option_map (λ a. ipv4_bits a) result ≡ address_in word.now }
{
    let bytes = <[u8; 4]>::from_hex(word).ok()?;
    Some(Ipv4Addr::from_bits(u32::from_le_bytes(bytes)))
}

/// One end of a connection.
fn end(word: &str) -> Option<(Ipv4Addr, u16)>
    ensures { option_map (λ p. (ipv4_bits p.0, p.1)) result ≡ both_in address_in port_in word.now }
{
    let (left, right) = halves(word, ':')?;
    Some((address(left)?, port(right)?))
}

/// How many bytes wait to be acknowledged, and how many to be read.
fn queues(word: &str) -> Option<(u32, u32)>
    ensures { option_map (λ p. (p.0, p.1)) result ≡ both_in count_in count_in word.now }
{
    let (left, right) = halves(word, ':')?;
    Some((count(left)?, count(right)?))
}

/// The connection of its four fields.
fn row_of(local_end: &str, remote_end: &str, state_word: &str, queue_words: &str) -> Option<TcpRow>
    ensures { option_map (λ row. record { local = (ipv4_bits row.local.0, row.local.1); remote = (ipv4_bits row.remote.0, row.remote.1); state = row.state; unacknowledged = row.unacknowledged }) result ≡ row_of local_end.now remote_end.now state_word.now queue_words.now }
{
    let local = end(local_end)?;
    let remote = end(remote_end)?;
    let state = state(state_word)?;
    let (unacknowledged, _) = queues(queue_words)?;
    Some(TcpRow {
        local,
        remote,
        state,
        unacknowledged,
    })
}

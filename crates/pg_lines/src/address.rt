//! Addresses, as lines and the setup file write them.
ghost use Rattle.std.specs.Prelude.{◌≡◌, option_map};
ghost use Rattle.std.specs.Net.Addr.{ipv4_bits};
ghost use Rattle.pg_lines.specs.Addresses.{endpoint, endpoint_in, host_in, part_in, parts_in, port_in};

use crate::words;
use std::net::{Ipv4Addr, SocketAddrV4};

/// One of the four numbers of an address.
fn part(word: &str) -> Option<u8>
    ensures { result ≡ part_in word.now }
{
    match words::number(word, 0, 255) {
        Some(number) => Some(number as u8),
        None => None,
    }
}

/// The address of four numbers.
fn of_parts(a: &str, b: &str, c: &str, d: &str) -> Option<Ipv4Addr>
    ensures { option_map (λ h. ipv4_bits h) result ≡ parts_in a.now b.now c.now d.now }
{
    let a = part(a)?;
    let b = part(b)?;
    let c = part(c)?;
    let d = part(d)?;
    Some(Ipv4Addr::new(a, b, c, d))
}

/// `A.B.C.D`: four numbers, each 0 to 255.
pub fn host(word: &str) -> Option<Ipv4Addr>
    ensures { option_map (λ h. ipv4_bits h) result ≡ host_in word.now }
{
    let (a, rest) = words::halves(word, '.')?;
    let (b, rest) = words::halves(rest, '.')?;
    let (c, d) = words::halves(rest, '.')?;
    of_parts(a, b, c, d)
}

/// A port: 1 to 65535.
pub fn port(word: &str) -> Option<u16>
    ensures { result ≡ port_in word.now }
{
    match words::number(word, 1, 65535) {
        Some(number) => Some(number as u16),
        None => None,
    }
}

/// `A.B.C.D:PORT`, as `host` and `port` read them.
pub fn endpoint(word: &str) -> Option<SocketAddrV4>
    ensures { option_map (λ a. endpoint a) result ≡ endpoint_in word.now }
{
    let (name, number) = words::halves(word, ':')?;
    let host = host(name)?;
    let port = port(number)?;
    Some(SocketAddrV4::new(host, port))
}

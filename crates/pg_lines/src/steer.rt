//! Lines by which an operator steers the sources and ports of the running service.
ghost use Rattle.std.specs.Prelude.{◌≡◌, IfOk, IfErr, map, option_map};
ghost use Rattle.std.specs.Net.Addr.{ipv4_bits};
ghost use Rattle.pg_lines.specs.Words.{pmu_id_in};
ghost use Rattle.pg_lines.specs.Lines.{one, two};
ghost use Rattle.pg_lines.specs.Addresses.{endpoint, endpoint_in, port_in};
ghost use Rattle.pg_lines.specs.Steers.{bound_in, listen, steer_by, steer_of, steer_of_words, steering, way_of};

use crate::line::{subscriber, words_of};
use crate::{address, words};
use pg_wire::{PmuId, Refusal, SubId};
use std::alloc::Global;
use std::net::{Ipv4Addr, SocketAddrV4};

/// What a line asks of the running service.
#[derive(Clone, Copy, PartialEq, Eq)]
pub enum Steer {
    /// The source is called at this address from now on.
    Dial(PmuId, SocketAddrV4),
    /// The source is called no longer.
    Undial(PmuId),
    /// The port is opened for the subscriber, on this address of the machine; 0.0.0.0 for all of them.
    Listen(SubId, u16, Ipv4Addr),
    /// The subscriber's port is closed, and the subscriber that is connected is hung up.
    Unlisten(SubId),
    /// The connection of the subscriber is hung up.
    Disconnect(SubId),
}

/// The first word of such a line.
#[derive(Clone, Copy, PartialEq, Eq)]
pub(crate) enum Way {
    Dial,
    Undial,
    Listen,
    Unlisten,
    Disconnect,
}

impl Way {
    /// The way that is written so.
    fn of(word: &str) -> Option<Way>
        ensures value { result ≡ way_of word.now }
    {
        let way = match word {
            "dial" => Way::Dial,
            "undial" => Way::Undial,
            "listen" => Way::Listen,
            "unlisten" => Way::Unlisten,
            "disconnect" => Way::Disconnect,
            _ => return None,
        };
        Some(way)
    }
}

/// What a line asks of the running service, or `None` for a line that is none of these:
///
/// | Line | Steers |
/// |---|---|
/// | `dial S A.B.C.D:PORT`, `undial S` | `Dial`, `Undial` |
/// | `listen U PORT`, `listen U PORT A.B.C.D` | `Listen`; without an address on 0.0.0.0 |
/// | `unlisten U`, `disconnect U` | `Unlisten`, `Disconnect` |
///
/// Words are separated by one or more spaces; spaces at either end are ignored. A number is `0`, or one to ten digits
/// without a leading zero. `S` is 1 to 65534, `U` and PORT are 1 to 65535, and the four numbers of an address 0 to 255.
///
/// # Errors
///
/// `NoMemory`.
pub fn parse_steer(alloc: Global, line: &str) -> Result<Option<Steer>, Refusal>
    ensures value { IfOk result (λ o. option_map steering o ≡ steer_of line.now) }
    ensures memory { IfErr result (λ r. r ≡ Refusal.NoMemory) }
{
    let words = words_of(alloc, line)?;
    Ok(steer_of_words(words.as_slice()))
}

/// What words ask for.
fn steer_of_words(words: &[&str]) -> Option<Steer>
    ensures { option_map steering result ≡ steer_of_words (map (λ w. w.now) words.now) }
{
    let [word, args @ ..] = words else {
        return None;
    };
    steer_by(Way::of(word)?, args)
}

/// What a first word makes of the words after it.
fn steer_by(way: Way, args: &[&str]) -> Option<Steer>
    ensures { option_map steering result ≡ steer_by way (map (λ w. w.now) args.now) }
{
    let steer = match way {
        Way::Dial => {
            let (source, address) = source_and_address(args)?;
            Steer::Dial(source, address)
        }
        Way::Undial => Steer::Undial(source(args)?),
        Way::Listen => return listen(args),
        Way::Unlisten => Steer::Unlisten(subscriber(args)?),
        Way::Disconnect => Steer::Disconnect(subscriber(args)?),
    };
    Some(steer)
}

/// The words `S`.
fn source(args: &[&str]) -> Option<PmuId>
    ensures { result ≡ one pmu_id_in (map (λ w. w.now) args.now) }
{
    let [source] = args else {
        return None;
    };
    words::pmu_id(source)
}

/// The words `S A.B.C.D:PORT`.
fn source_and_address(args: &[&str]) -> Option<(PmuId, SocketAddrV4)>
    ensures { option_map (λ p. (p.0, endpoint p.1)) result ≡ two pmu_id_in endpoint_in (map (λ w. w.now) args.now) }
{
    let [source, address] = args else {
        return None;
    };
    Some((words::pmu_id(source)?, address::endpoint(address)?))
}

/// The words `U PORT` or `U PORT A.B.C.D`.
fn listen(args: &[&str]) -> Option<Steer>
    ensures { option_map steering result ≡ listen (map (λ w. w.now) args.now) }
{
    let [subscriber, port, host @ ..] = args else {
        return None;
    };
    let subscriber = words::subscriber(subscriber)?;
    let port = address::port(port)?;
    Some(Steer::Listen(subscriber, port, bound_in(host)?))
}

/// The address that a port is opened on, where it is given or not.
fn bound_in(args: &[&str]) -> Option<Ipv4Addr>
    ensures { option_map (λ h. ipv4_bits h) result ≡ bound_in (map (λ w. w.now) args.now) }
{
    match args {
        [] => Some(Ipv4Addr::new(0, 0, 0, 0)),
        [host] => address::host(host),
        _ => None,
    }
}

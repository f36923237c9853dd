//! Keys of a setup that need a new start.
ghost use Rattle.std.specs.Prelude.{◌≡◌, ◌++◌, IfErr, OnOk, IfOk, option_map, string_bytes};
ghost use Rattle.std.specs.Option.{option_eq};
ghost use Rattle.std.specs.Str.{bytes_eq};
ghost use Rattle.pg_lines.specs.Addresses.{endpoint};
ghost use Rattle.pg_setup.specs.Restarts.{endpoint_eq, keys_of, restarts_between, told_unless};

use pg_operator::Setup;
use pg_wire::Refusal;
use std::alloc::Global;
use std::net::SocketAddrV4;

/// A key of the setup whose change needs a new start.
#[derive(Clone, Copy, Debug, PartialEq, Eq)]
pub enum Restart {
    /// `tick_ms`.
    TickMs,
    /// `ingest`.
    Ingest,
    /// `serve`.
    Serve,
    /// `control`.
    Control,
    /// `status`.
    Status,
    /// `name`.
    Name,
    /// `record`.
    Record,
    /// `record_mb`.
    RecordMb,
    /// `record_hours`.
    RecordHours,
}

/// Names a key, unless its values are the same.
fn tell(keys: &mut Vec<Restart>, key: Restart, is_same: bool) -> Result<(), Refusal>
    ensures ok { OnOk result (keys.new.items ≡ keys.old.items ++ told_unless is_same key) }
    ensures err { IfErr result (λ r. r ≡ Refusal.NoMemory) }
{
    if !is_same {
        keys.push(key)?;
    }
    Ok(())
}

/// Whether both are one text, or both none.
fn is_same_text(one: &Option<String>, other: &Option<String>) -> bool
    ensures { result ≡ option_eq bytes_eq (option_map (λ s. string_bytes s) one.now) (option_map (λ s. string_bytes s) other.now) }
{
    match (one, other) {
        (None, None) => true,
        (Some(one), Some(other)) => one.as_str() == other.as_str(),
        _ => false,
    }
}

/// Whether both are one address with one port.
pub(crate) fn is_same_endpoint(one: SocketAddrV4, other: SocketAddrV4) -> bool
    ensures { result ≡ endpoint_eq (endpoint one) (endpoint other) }
{
    one.ip().to_bits() == other.ip().to_bits() && one.port() == other.port()
}

/// Whether both are one address, or both none.
fn is_same_address(one: Option<SocketAddrV4>, other: Option<SocketAddrV4>) -> bool
    ensures { result ≡ option_eq endpoint_eq (option_map endpoint one) (option_map endpoint other) }
{
    match (one, other) {
        (None, None) => true,
        (Some(one), Some(other)) => is_same_endpoint(one, other),
        _ => false,
    }
}

/// The keys that differ.
pub(crate) fn restarts_between(
    alloc: Global,
    old: &Setup,
    new: &Setup,
) -> Result<Vec<Restart>, Refusal>
    ensures ok { IfOk result (λ v. v.items ≡ restarts_between (keys_of old.now) (keys_of new.now)) }
    ensures err { IfErr result (λ r. r ≡ Refusal.NoMemory) }
{
    let mut keys = Vec::new(alloc);
    tell(&mut keys, Restart::TickMs, old.tick_ms == new.tick_ms)?;
    tell(&mut keys, Restart::Ingest, old.ingest == new.ingest)?;
    tell(&mut keys, Restart::Serve, old.serve == new.serve)?;
    let is_same = is_same_text(&old.control, &new.control);
    tell(&mut keys, Restart::Control, is_same)?;
    let is_same = is_same_address(old.status, new.status);
    tell(&mut keys, Restart::Status, is_same)?;
    let is_same = is_same_text(&old.name, &new.name);
    tell(&mut keys, Restart::Name, is_same)?;
    let is_same = is_same_text(&old.record_folder, &new.record_folder);
    tell(&mut keys, Restart::Record, is_same)?;
    tell(&mut keys, Restart::RecordMb, old.record_mb == new.record_mb)?;
    let is_same = old.record_hours == new.record_hours;
    tell(&mut keys, Restart::RecordHours, is_same)?;
    Ok(keys)
}

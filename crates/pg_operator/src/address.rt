//! Names of hosts, addresses and networks, as the setup file writes them.
ghost use Rattle.std.specs.Prelude.{◌≡◌, Some, None, IfOk, IfErr, is_some, map, option_map};
ghost use Rattle.std.specs.Char.{is_ascii_digit};
ghost use Rattle.std.specs.List.{list_all};
ghost use Rattle.std.specs.Net.Addr.{ipv4_bits};
ghost use Rattle.toml.specs.View.{items_view, view};
ghost use Rattle.pg_lines.specs.Addresses.{endpoint};
ghost use Rattle.pg_operator.specs.Addresses.{address_of, address_value, called_value, is_label, is_label_byte, is_name, labels_of, last_of, named_in, network_by, network_in};
ghost use Rattle.pg_operator.specs.Setups.{address_in, addresses_in, called_values, endpoint_text_in, few_in, host_text_in, network_text_in};

use crate::kind::CONNECT_LIMIT;
use pg_limits::Network;
use pg_lines::address::{endpoint, host, port};
use pg_lines::words;
use pg_wire::Refusal;
use std::alloc::Global;
use std::fmt;
use std::net::{Ipv4Addr, SocketAddrV4};
use toml::Value;

/// The most bytes of a host's name, and of a label in it.
const NAME_LIMIT: usize = 253;

const LABEL_LIMIT: usize = 63;

/// A letter, a digit or a hyphen.
fn is_label_byte(byte: u8) -> bool
    ensures { result ≡ is_label_byte byte }
{
    byte.is_ascii_alphanumeric() || byte == b'-'
}

fn all_label_bytes(label: &[u8]) -> bool
    ensures { result ≡ list_all is_label_byte label.now }
{
    label.iter().all(|byte| is_label_byte(*byte))
}

/// One to 63 letters, digits and hyphens, with no hyphen at either end.
fn is_label(label: &str) -> bool
    ensures { result ≡ is_label label.now }
{
    let bytes = label.as_bytes();
    if bytes.is_empty() || bytes.len() > LABEL_LIMIT {
        return false;
    }
    if bytes[0] == b'-' || bytes[bytes.len() - 1] == b'-' {
        return false;
    }
    all_label_bytes(bytes)
}

/// Whether labels stand between the dots.
fn all_labels(word: &str) -> bool
    ensures { result ≡ list_all is_label (labels_of word.now) }
{
    word.split('.').all(|label| is_label(label))
}

/// Whether nothing but digits stands behind the last dot, or in the whole text where there is none.
fn ends_in_digits(bytes: &[u8]) -> bool
    ensures { result ≡ list_all is_ascii_digit (last_of (labels_of bytes.now)) }
{
    let mut digits = true;
    'bytes: for byte in bytes {
        digits = *byte == b'.' || (digits && byte.is_ascii_digit());
    }
    digits
}

/// The name of a host: labels joined by dots, of which the last is not digits alone.
fn is_name(word: &str) -> bool
    ensures { result ≡ is_name word.now }
{
    word.len() <= NAME_LIMIT && all_labels(word) && !ends_in_digits(word.as_bytes())
}

/// `NAME:PORT`.
fn is_named(word: &str) -> bool
    ensures { result ≡ named_in word.now }
{
    match words::halves(word, ':') {
        Some((name, number)) => is_name(name) && port(number).is_some(),
        None => false,
    }
}

/// Where a source is connected to, as the setup file writes it.
#[derive(Clone, Copy)]
pub(crate) enum CalledAddress<'a> {
    /// `A.B.C.D:PORT`.
    Endpoint(SocketAddrV4),
    /// `NAME:PORT`.
    Name(&'a str),
}

/// The addresses of a source, as the setup file writes them.
#[derive(Clone, Copy)]
pub(crate) enum CalledAddresses<'a> {
    /// One.
    One(CalledAddress<'a>),
    /// A list of 1 to 4.
    List(&'a [Value]),
}

/// Where a source is connected to.
#[derive(Drop, PartialEq, Eq)]
pub enum SourceAddress {
    /// The address of a host, and a port.
    Endpoint(SocketAddrV4),
    /// The name of a host, and a port: `NAME:PORT`.
    Name(String),
}

impl fmt::Display for SourceAddress {
    fn fmt<W: fmt::Write>(&self, f: &mut fmt::Formatter<W>) -> fmt::Result {
        match self {
            SourceAddress::Endpoint(address) => write!(f, "{address}"),
            SourceAddress::Name(name) => f.write_str(name.as_str()),
        }
    }
}

impl SourceAddress {
    /// The same address.
    ///
    /// # Errors
    ///
    /// `NoMemory`.
    pub fn try_clone(&self, alloc: Global) -> Result<SourceAddress, Refusal>
        ensures ok { IfOk result (λ copy. address_value copy ≡ address_value self.now) }
        ensures err { IfErr result (λ r. r ≡ Refusal.NoMemory) }
    {
        match self {
            SourceAddress::Endpoint(address) => Ok(SourceAddress::Endpoint(*address)),
            SourceAddress::Name(name) => Ok(SourceAddress::Name(String::from_str(
                alloc,
                name.as_str(),
            )?)),
        }
    }
}

/// An address of its own.
pub(crate) fn owned(alloc: Global, address: CalledAddress<'_>) -> Result<SourceAddress, Refusal>
    ensures ok { IfOk result (λ own. address_value own ≡ called_value address.entry) }
    ensures err { IfErr result (λ r. r ≡ Refusal.NoMemory) }
{
    match address {
        CalledAddress::Endpoint(address) => Ok(SourceAddress::Endpoint(address)),
        CalledAddress::Name(name) => Ok(SourceAddress::Name(String::from_str(alloc, name)?)),
    }
}

/// `A.B.C.D:PORT` or `NAME:PORT`.
fn address_of(word: &str) -> Option<CalledAddress<'_>>
    ensures { option_map called_value result ≡ address_of word.now }
{
    match endpoint(word) {
        Some(address) => Some(CalledAddress::Endpoint(address)),
        None if is_named(word) => Some(CalledAddress::Name(word)),
        None => None,
    }
}

/// The address of a source.
pub(crate) fn called(value: &Value) -> Option<CalledAddress<'_>>
    ensures { option_map called_value result ≡ address_in (view value.now) }
{
    match value {
        Value::String(text) => address_of(text.as_str()),
        _ => None,
    }
}

/// Whether this is an address.
fn is_called(value: &Value) -> bool
    ensures { result ≡ is_some (address_in (view value.now)) }
{
    called(value).is_some()
}

/// Whether each of these is an address.
fn all_called(values: &[Value]) -> bool
    ensures { result ≡ list_all (λ v. is_some (address_in (view v))) values.now }
{
    values.iter().all(|value| is_called(value))
}

/// A list of 1 to 4 addresses.
fn called_list(values: &[Value]) -> Option<CalledAddresses<'_>>
    ensures { option_map called_values result ≡ few_in (items_view values.now) }
{
    let count = values.len();
    if count == 0 || count > CONNECT_LIMIT {
        return None;
    }
    if !all_called(values) {
        return None;
    }
    Some(CalledAddresses::List(values))
}

/// The addresses of a source: one, or a list of 1 to 4.
pub(crate) fn called_all(value: &Value) -> Option<CalledAddresses<'_>>
    ensures { option_map called_values result ≡ addresses_in (view value.now) }
{
    match value {
        Value::Array(values) => called_list(values.as_slice()),
        _ => Some(CalledAddresses::One(called(value)?)),
    }
}

/// Addresses of its own.
pub(crate) fn owned_all(
    alloc: Global,
    addresses: CalledAddresses<'_>,
) -> Result<Vec<SourceAddress>, Refusal>
    ensures ok { IfOk result (λ own. map address_value own.items ≡ called_values addresses.entry) }
    ensures err { IfErr result (λ r. r ≡ Refusal.NoMemory) }
{
    let mut own = Vec::new(alloc);
    match addresses {
        CalledAddresses::One(address) => own.push(owned(alloc, address)?)?,
        CalledAddresses::List(values) => {
            'values: for value in values {
                if let Some(address) = called(value) {
                    own.push(owned(alloc, address)?)?;
                }
            }
        }
    }
    Ok(own)
}

/// The address of this machine that a port is bound on.
pub(crate) fn bound(value: &Value) -> Option<Ipv4Addr>
    ensures { option_map (λ h. ipv4_bits h) result ≡ host_text_in (view value.now) }
{
    match value {
        Value::String(text) => host(text.as_str()),
        _ => None,
    }
}

/// The address of this machine that a page is served on.
pub(crate) fn served(value: &Value) -> Option<SocketAddrV4>
    ensures { option_map (λ a. endpoint a) result ≡ endpoint_text_in (view value.now) }
{
    match value {
        Value::String(text) => endpoint(text.as_str()),
        _ => None,
    }
}

/// `A.B.C.D/BITS`, or `A.B.C.D` alone.
fn network_of(word: &str) -> Option<Network>
    ensures { result ≡ network_in word.now }
{
    let Some((address, bits)) = words::halves(word, '/') else {
        let address = host(word)?;
        return Some(Network::new(address, 32));
    };
    let address = host(address)?;
    let bits = words::number(bits, 0, 32)?;
    Some(Network::new(address, bits as u8))
}

/// A network of hosts that may connect.
pub(crate) fn network(value: &Value) -> Option<Network>
    ensures { result ≡ network_text_in (view value.now) }
{
    match value {
        Value::String(text) => network_of(text.as_str()),
        _ => None,
    }
}

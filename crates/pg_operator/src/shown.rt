//! What a subscriber has, written as the tables of a setup file, with its state beside it as comments.

ghost use Rattle.std.specs.Prelude.{◌≡◌, IfOk, IfErr, option_map};
ghost use Rattle.std.specs.List.{list_any};
ghost use Rattle.pg_operator.specs.Setups.{subscriber_value};
ghost use Rattle.pg_wire.specs.Keys.{key_eq};
ghost use Rattle.pg_operator.specs.Made.{absence_of, added_in, are_carried, defined_in, granted_in, subscriber_of};

use crate::port_rules::{PortRules, PortSetup};
use crate::setup::{SubscriberSetup, copied};
use pg_gateway::Edit;
use pg_limits::{Network, OnChange};
use pg_ring::{RingBytes, RingSize};
use pg_stream::Definition;
use pg_wire::{PmuKey, Refusal, StreamId, SubId};
use std::alloc::Global;
use std::io;
use std::io::Write;
use std::net::SocketAddr;

/// How a subscriber's port stands.
#[derive(Clone, Copy, PartialEq, Eq)]
pub enum PortState {
    /// None is open.
    Closed,
    /// It can't be bound now, and is tried again.
    Unbound,
    /// It is open, and nobody is connected.
    Waiting,
    /// The subscriber is connected from this address.
    Connected(SocketAddr),
}

/// How a stream stands.
#[derive(Clone, Copy, PartialEq, Eq)]
pub struct StreamState {
    /// Its number.
    pub stream: StreamId,
    /// Whether it is on.
    pub is_on: bool,
    /// The members that its frames carry.
    pub effective: u16,
}

/// A subscriber, with its state.
#[derive(Clone, Copy)]
pub struct Shown<'a> {
    /// What it has.
    pub setup: &'a SubscriberSetup,
    /// The rules of its port by the setup file, where none is open.
    pub closed: Option<&'a PortRules>,
    /// How its port stands.
    pub port: PortState,
    /// How its streams stand.
    pub streams: &'a [StreamState],
    /// The PMUs that are registered.
    pub registered: &'a [PmuKey],
    /// The PMUs of the last configuration of each source.
    pub announced: &'a [PmuKey],
}

/// Why a member is not in the frames of its stream.
#[derive(Clone, Copy, PartialEq, Eq)]
pub(crate) enum Absence {
    NotRegistered,
    NotGranted,
    NotAnnounced,
}

impl Absence {
    /// In words.
    fn words(self) -> &'static str {
        match self {
            Absence::NotRegistered => "not registered",
            Absence::NotGranted => "not granted",
            Absence::NotAnnounced => "not announced",
        }
    }
}

impl SubscriberSetup {
    /// The subscriber that these edits make, without a port: with each PMU that is granted and each stream that is defined, in their order. `None` where
    /// none of them adds a subscriber. They are edits of one subscriber.
    ///
    /// # Errors
    ///
    /// `NoMemory`.
    pub fn of_edits(alloc: Global, edits: &[Edit]) -> Result<Option<SubscriberSetup>, Refusal>
        ensures made { IfOk result (λ o. option_map (λ s. subscriber_value s) o ≡ subscriber_of edits.now) }
        ensures memory { IfErr result (λ r. r ≡ Refusal.NoMemory) }
    {
        let Some((sub, ring, bytes)) = added_in(edits) else {
            return Ok(None);
        };
        let grants = granted_in(alloc, edits)?;
        let streams = defined_in(alloc, edits)?;
        Ok(Some(SubscriberSetup {
            sub,
            ring,
            bytes,
            grants,
            streams,
            port: None,
        }))
    }
}

/// Which subscriber the first of these edits adds that adds one, and the limits of its ring.
fn added_in(edits: &[Edit]) -> Option<(SubId, RingSize, RingBytes)>
    ensures { result ≡ added_in edits.now }
{
    for edit in edits {
        if let Edit::AddSub(sub, ring, bytes) = edit {
            return Some((*sub, *ring, *bytes));
        }
    }
    None
}

/// The PMUs that these edits grant.
fn granted_in(alloc: Global, edits: &[Edit]) -> Result<Vec<PmuKey>, Refusal>
    ensures found { IfOk result (λ v. v.items ≡ granted_in edits.now) }
    ensures memory { IfErr result (λ r. r ≡ Refusal.NoMemory) }
{
    let mut grants = Vec::new(alloc);
    'edits: for edit in edits {
        if let Edit::Grant(_, key) = edit {
            grants.push(*key)?;
        }
    }
    Ok(grants)
}

/// The streams that these edits define.
fn defined_in(alloc: Global, edits: &[Edit]) -> Result<Vec<Definition>, Refusal>
    ensures found { IfOk result (λ v. v.items ≡ defined_in edits.now) }
    ensures memory { IfErr result (λ r. r ≡ Refusal.NoMemory) }
{
    let mut streams = Vec::new(alloc);
    'edits: for edit in edits {
        if let Edit::Define(_, definition) = edit {
            streams.push(copied(alloc, definition)?)?;
        }
    }
    Ok(streams)
}

/// Prints a subscriber as the tables of a setup file that `read_setup` reads as the same, with its state as comments: whether it is connected,
/// whether each stream is on, and why a member is not in its frames.
pub fn print_subscriber<W: Write>(out: &mut W, shown: &Shown<'_>) -> io::Result<()> {
    let setup = shown.setup;
    writeln!(out, "[[subscriber]]")?;
    writeln!(out, "id = {}", setup.sub.get())?;
    print_port(out, &setup.port, shown.port)?;
    writeln!(out, "ring = {}", setup.ring.get())?;
    writeln!(out, "bytes = {}", setup.bytes.get())?;
    write!(out, "grants = [")?;
    print_keys(out, &setup.grants)?;
    writeln!(out, "]")?;
    match (&setup.port, shown.closed) {
        (Some(port), _) => print_rules(out, &port.rules)?,
        (None, Some(rules)) => print_rules(out, rules)?,
        (None, None) => {}
    }
    for definition in &setup.streams {
        print_stream(out, shown, definition)?;
    }
    Ok(())
}

/// Prints the line of a port.
fn print_port<W: Write>(out: &mut W, port: &Option<PortSetup>, state: PortState) -> io::Result<()> {
    if let Some(port) = port {
        write!(out, "port = {} ", port.port)?;
    }
    match state {
        PortState::Closed => writeln!(out, "# no port is open"),
        PortState::Unbound => writeln!(out, "# it can't be bound now"),
        PortState::Waiting => writeln!(out, "# not connected"),
        PortState::Connected(peer) => writeln!(out, "# connected from {peer}"),
    }
}

/// Prints the rules of a port.
fn print_rules<W: Write>(out: &mut W, rules: &PortRules) -> io::Result<()> {
    writeln!(out, "address = \"{}\"", rules.address)?;
    if let Some(networks) = &rules.allow.networks {
        write!(out, "allow = [")?;
        print_networks(out, networks)?;
        writeln!(out, "]")?;
    }
    writeln!(out, "takeover = {}", rules.takeover)?;
    writeln!(out, "stall = {}", rules.stall)?;
    writeln!(out, "idle = {}", rules.idle)?;
    writeln!(out, "change = \"{}\"", change_word(rules.change))
}

/// Prints networks, with commas between them.
fn print_networks<W: Write>(out: &mut W, networks: &[Network]) -> io::Result<()> {
    let mut comma = "";
    for network in networks {
        write!(out, "{comma}\"{network}\"")?;
        comma = ", ";
    }
    Ok(())
}

/// The word for what is done where the blocks of a stream change.
fn change_word(change: OnChange) -> &'static str {
    match change {
        OnChange::Safe => "safe",
        OnChange::HangUp => "hangup",
        OnChange::Keep => "keep",
    }
}

/// Prints PMUs, with commas between them.
fn print_keys<W: Write>(out: &mut W, keys: &[PmuKey]) -> io::Result<()> {
    let mut comma = "";
    for key in keys {
        write!(out, "{comma}")?;
        print_key(out, *key)?;
        comma = ", ";
    }
    Ok(())
}

/// Prints a PMU: a number N for N/N, else a text.
fn print_key<W: Write>(out: &mut W, key: PmuKey) -> io::Result<()> {
    let (source, pmu) = (key.source.get(), key.pmu.get());
    if source == pmu {
        write!(out, "{pmu}")
    } else {
        write!(out, "\"{source}/{pmu}\"")
    }
}

/// Prints the table of a stream.
fn print_stream<W: Write>(
    out: &mut W,
    shown: &Shown<'_>,
    definition: &Definition,
) -> io::Result<()> {
    let stream = definition.stream;
    let state = shown.streams.iter().find(|it| it.stream == stream);
    writeln!(out, "\n[[subscriber.stream]]")?;
    write!(out, "id = {}", stream.get())?;
    match state {
        Some(state) if state.is_on => writeln!(out, " # on")?,
        Some(_) => writeln!(out, " # off")?,
        None => writeln!(out)?,
    }
    writeln!(out, "rate = {}", definition.rate)?;
    writeln!(out, "base = {}", definition.base)?;
    writeln!(out, "wait = {}", definition.wait)?;
    writeln!(out, "window = {}", definition.window)?;
    let header = definition.header.as_slice();
    if !header.is_empty() {
        write!(out, "header = \"")?;
        print_text(out, header)?;
        writeln!(out, "\"")?;
    }
    print_members(out, shown, definition.members.as_slice(), state)
}

/// Prints ASCII text as it stands between the quotes of a TOML text.
fn print_text<W: Write>(out: &mut W, text: &[u8]) -> io::Result<()> {
    for byte in text {
        match *byte {
            b'"' => write!(out, "\\\"")?,
            b'\\' => write!(out, "\\\\")?,
            32..=126 => out.write_all(&[*byte])?,
            other => write!(out, "\\u{:04X}", u32::from(other))?,
        }
    }
    Ok(())
}

/// Prints the members of a stream, a line each, and beside one that is not in the frames the reason.
fn print_members<W: Write>(
    out: &mut W,
    shown: &Shown<'_>,
    members: &[PmuKey],
    state: Option<&StreamState>,
) -> io::Result<()> {
    let grants = shown.setup.grants.as_slice();
    // Where the frames have as many members as are granted, each of these was announced, also one whose source is not called any more.
    let is_whole = match state {
        Some(state) => are_carried(members, grants, state.effective),
        None => true,
    };
    writeln!(out, "members = [")?;
    for key in members {
        write!(out, "  ")?;
        print_key(out, *key)?;
        let absence = absence_of(key, shown.registered, grants, shown.announced, is_whole);
        match absence {
            Some(absence) => writeln!(out, ", # {}", absence.words())?,
            None => writeln!(out, ",")?,
        }
    }
    writeln!(out, "]")
}

/// Whether no more of these members are granted than the frames carry.
fn are_carried(members: &[PmuKey], grants: &[PmuKey], effective: u16) -> bool
    ensures { result ≡ are_carried grants.now effective members.now }
{
    let mut left = effective;
    for key in members {
        if has_key(grants, key) {
            if left == 0 {
                return false;
            }
            left -= 1;
        }
    }
    true
}

/// Why a member is not in the frames, if it is not. `is_whole` says that each that is granted was announced.
fn absence_of(
    key: &PmuKey,
    registered: &[PmuKey],
    grants: &[PmuKey],
    announced: &[PmuKey],
    is_whole: bool,
) -> Option<Absence>
    ensures { result ≡ absence_of key.now registered.now grants.now announced.now is_whole }
{
    if !has_key(registered, key) {
        Some(Absence::NotRegistered)
    } else if !has_key(grants, key) {
        Some(Absence::NotGranted)
    } else if is_whole || has_key(announced, key) {
        None
    } else {
        Some(Absence::NotAnnounced)
    }
}

/// Whether a PMU is one of these.
fn has_key(keys: &[PmuKey], key: &PmuKey) -> bool
    ensures { result ≡ list_any (λ k. key_eq k key.now) keys.now }
{
    keys.iter().any(|it| it == key)
}

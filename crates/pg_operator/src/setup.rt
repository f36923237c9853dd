//! The setup file: what it is read as.
ghost use Rattle.std.specs.Prelude.{◌≡◌, ◌⊎◌, ◌++◌, IfOk, IfErr, OnOk, map, option_map, codes, Some, None, []};
ghost use Rattle.toml.specs.View.{view, table_view};
ghost use Rattle.pg_gateway.specs.declared.edit.Edit.TheVariants.{AddPmu, Define, Grant};
ghost use Rattle.pg_operator.specs.Setups.{absent_or, asked_in, asked_of, edits_by, entry_by, key_in, list_of, optional, required, settings, setup_edits, setup_in, setup_of, stream_in, subscriber_edits, subscriber_in, subscriber_value, whole_in};

use crate::general::{self, LogLevel};
use crate::keys::SetupKey;
use crate::port_rules::{PortSetup, port_rules_at};
use crate::source::{self, SourceSetup};
use crate::{pmu, stream, table};
use pg_gateway::Edit;
use pg_ring::{RingBytes, RingSize};
use pg_stream::{Definition, HeaderText, Members};
use pg_wire::{PmuKey, Refusal, SubId};
use std::alloc::Global;
use std::net::SocketAddrV4;
use toml::{Table, Value};

/// What a setup file asks for.
#[derive(Drop)]
pub struct Setup {
    /// The PMUs, in the order of the file.
    pub pmus: Vec<PmuKey>,
    /// The sources of the PMUs: each once, in the order in which the file first names them.
    pub sources: Vec<SourceSetup>,
    /// The subscribers, in the order of the file.
    pub subscribers: Vec<SubscriberSetup>,
    /// Milliseconds from tick to tick: 1 to 1000.
    pub tick_ms: u16,
    /// Threads that read the sources: 1 to 8.
    pub ingest: u8,
    /// Threads that serve the subscribers: 1 to 8.
    pub serve: u8,
    /// Which events the log has.
    pub log: LogLevel,
    /// The path of the Unix socket at which an operator's lines are taken: 1 to 107 bytes, none of them zero; `None` for no such socket.
    pub control: Option<String>,
    /// The address on which the page and the metrics are served; `None` where they are not.
    pub status: Option<SocketAddrV4>,
    /// The gateway's name: 1 to 64 printable ASCII characters; `None` for the host's name.
    pub name: Option<String>,
    /// The path of the folder for recordings: 1 to 107 bytes, none of them zero; `None` where nothing is recorded.
    pub record_folder: Option<String>,
    /// Megabytes of recordings that are kept: 16 to 10,000,000.
    pub record_mb: u32,
    /// Hours for which recordings are kept: 1 to 100,000.
    pub record_hours: u32,
}

/// A subscriber of a setup.
#[derive(Drop)]
pub struct SubscriberSetup {
    /// Its number.
    pub sub: SubId,
    /// How many data frames its ring holds.
    pub ring: RingSize,
    /// How many bytes of data frames its ring holds.
    pub bytes: RingBytes,
    /// The PMUs that are granted to it.
    pub grants: Vec<PmuKey>,
    /// Its streams.
    pub streams: Vec<Definition>,
    /// The port that it connects to, if it has one of its own.
    pub port: Option<PortSetup>,
}

impl Setup {
    /// The edits that the setup asks for, in order: each PMU is registered, then each subscriber is added, with its grants and its streams.
    ///
    /// # Errors
    ///
    /// `NoMemory`.
    pub fn edits(&self, alloc: Global) -> Result<Vec<Edit>, Refusal>
        ensures ok { IfOk result (λ v. v.items ≡ setup_edits self.now) }
        ensures err { IfErr result (λ r. r ≡ Refusal.NoMemory) }
    {
        edits_by(alloc, self.pmus.as_slice(), self.subscribers.as_slice())
    }
}

/// The edits that register these PMUs and add these subscribers.
fn edits_by(
    alloc: Global,
    pmus: &[PmuKey],
    subscribers: &[SubscriberSetup],
) -> Result<Vec<Edit>, Refusal>
    ensures ok { IfOk result (λ v. v.items ≡ edits_by pmus.now (map subscriber_value subscribers.now)) }
    ensures err { IfErr result (λ r. r ≡ Refusal.NoMemory) }
{
    let mut edits = Vec::new(alloc);
    'pmus: for key in pmus {
        edits.push(Edit::AddPmu(*key))?;
    }
    'subscribers: for subscriber in subscribers {
        subscriber.add_edits(alloc, &mut edits)?;
    }
    Ok(edits)
}

impl SubscriberSetup {
    /// Adds its edits: it is added, then its grants, then its streams.
    fn add_edits(&self, alloc: Global, edits: &mut Vec<Edit>) -> Result<(), Refusal>
        ensures ok { OnOk result (edits.new.items ≡ edits.old.items ++ subscriber_edits (subscriber_value self.now)) }
        ensures err { IfErr result (λ r. r ≡ Refusal.NoMemory) }
    {
        edits.push(Edit::AddSub(self.sub, self.ring, self.bytes))?;
        add_grants(edits, self.sub, self.grants.as_slice())?;
        add_streams(alloc, edits, self.sub, self.streams.as_slice())
    }
}

/// Adds the grants of these PMUs.
fn add_grants(edits: &mut Vec<Edit>, sub: SubId, keys: &[PmuKey]) -> Result<(), Refusal>
    ensures ok { OnOk result (edits.new.items ≡ edits.old.items ++ map (Grant sub) keys.now) }
    ensures err { IfErr result (λ r. r ≡ Refusal.NoMemory) }
{
    'keys: for key in keys {
        edits.push(Edit::Grant(sub, *key))?;
    }
    Ok(())
}

/// Adds the definitions of these streams.
fn add_streams(
    alloc: Global,
    edits: &mut Vec<Edit>,
    sub: SubId,
    streams: &[Definition],
) -> Result<(), Refusal>
    ensures ok { OnOk result (edits.new.items ≡ edits.old.items ++ map (Define sub) streams.now) }
    ensures err { IfErr result (λ r. r ≡ Refusal.NoMemory) }
{
    'streams: for definition in streams {
        edits.push(Edit::Define(sub, copied(alloc, definition)?))?;
    }
    Ok(())
}

/// A copy of a definition.
pub(crate) fn copied(alloc: Global, definition: &Definition) -> Result<Definition, Refusal>
    ensures ok { IfOk result (λ copy. copy ≡ definition.now) }
    ensures err { IfErr result (λ r. r ≡ Refusal.NoMemory) }
{
    let header = definition.header.as_slice().to_vec(alloc)?;
    let members = definition.members.as_slice().to_vec(alloc)?;
    Ok(Definition {
        stream: definition.stream,
        rate: definition.rate,
        base: definition.base,
        wait: definition.wait,
        window: definition.window,
        header: HeaderText::new(header),
        members: Members::new(members),
    })
}

/// What a setup file asks for. It is TOML, with the keys of [`SetupKey`] and no other, and such values as their kinds say; but a stream's
/// `base`, `wait` and `window` are any numbers of 32 bits, and its `rate` one of 8.
///
/// A NAME is labels joined by dots, at most 253 bytes. A label is one to 63 letters, digits and hyphens, with no hyphen at either end;
/// the last label is not digits alone, so that no address with a wrong number is a name. Several PMUs of one source may each say its
/// `silence`, `clock_ms` and `ahead_ms`, and then say the same. A network is that of its first bits: `10.0.0.1/8` is `10.0.0.0/8`.
///
/// # Errors
///
/// `BadSetup` for text that is not TOML, an unknown key, a key that is required and absent, a value of another type or
/// out of range, a second `connect` for one source, and two tables of one source that say another `silence`,
/// `clock_ms` or `ahead_ms`; `NoMemory`.
pub fn read_setup(alloc: Global, text: &str) -> Result<Setup, Refusal>
    ensures found { IfOk result (λ s. setup_of text.now ≡ Some (settings s)) }
    ensures refused { IfErr result (λ r. (r ≡ Refusal.NoMemory) ⊎ ((r ≡ Refusal.BadSetup) × (setup_of text.now ≡ None))) }
{
    match toml::table_from_str(alloc, text) {
        Ok(table) => setup_in(alloc, &table),
        Err(error) => {
            if error.is_memory() {
                Err(Refusal::NoMemory)
            } else {
                Err(Refusal::BadSetup)
            }
        }
    }
}

/// The edits that a setup file asks for, as `Setup::edits` gives them, in a time that grows with the length of the text alone: it is not looked
/// at what the tables of one source say together.
///
/// # Errors
///
/// Those of `read_setup`, but for a second `connect`, and tables that differ, of one source.
pub fn setup_edits(alloc: Global, text: &str) -> Result<Vec<Edit>, Refusal>
    ensures found { IfOk result (λ v. asked_of text.now ≡ Some v.items) }
    ensures refused { IfErr result (λ r. (r ≡ Refusal.NoMemory) ⊎ ((r ≡ Refusal.BadSetup) × (asked_of text.now ≡ None))) }
{
    match toml::table_from_str(alloc, text) {
        Ok(table) => edits_in(alloc, &table),
        Err(error) => {
            if error.is_memory() {
                Err(Refusal::NoMemory)
            } else {
                Err(Refusal::BadSetup)
            }
        }
    }
}

/// The edits that the file's table asks for.
fn edits_in(alloc: Global, table: &Table) -> Result<Vec<Edit>, Refusal>
    ensures ok { IfOk result (λ v. asked_in (table_view table.now) ≡ Some v.items) }
    ensures err { IfErr result (λ r. (r ≡ Refusal.NoMemory) ⊎ ((r ≡ Refusal.BadSetup) × (asked_in (table_view table.now) ≡ None))) }
{
    if !table::keys_within(&SetupKey::FILE_KEYS, table) {
        return Err(Refusal::BadSetup);
    }
    let Some(_general) = general::general_at(table) else {
        return Err(Refusal::BadSetup);
    };
    let pmus = pmu::pmus_at(alloc, table)?;
    let subscribers = subscribers_at(alloc, table)?;
    let keys = pmu::keys_of(alloc, pmus.as_slice())?;
    edits_by(alloc, keys.as_slice(), subscribers.as_slice())
}

/// What the file's table asks for.
fn setup_in(alloc: Global, table: &Table) -> Result<Setup, Refusal>
    ensures ok { IfOk result (λ s. setup_in (table_view table.now) ≡ Some (settings s)) }
    ensures err { IfErr result (λ r. (r ≡ Refusal.NoMemory) ⊎ ((r ≡ Refusal.BadSetup) × (setup_in (table_view table.now) ≡ None))) }
{
    if !table::keys_within(&SetupKey::FILE_KEYS, table) {
        return Err(Refusal::BadSetup);
    }
    let Some(general) = general::general_at(table) else {
        return Err(Refusal::BadSetup);
    };
    let tables = pmu::pmus_at(alloc, table)?;
    let sources = source::sources_of(alloc, tables.as_slice())?;
    let subscribers = subscribers_at(alloc, table)?;
    let control = general::own_text(alloc, general.control)?;
    let name = general::own_text(alloc, general.name)?;
    let record_folder = general::own_text(alloc, general.record_folder)?;
    let pmus = pmu::keys_of(alloc, tables.as_slice())?;
    Ok(Setup {
        pmus,
        sources,
        subscribers,
        tick_ms: general.tick_ms,
        ingest: general.ingest,
        serve: general.serve,
        log: general.log,
        control,
        status: general.status,
        name,
        record_folder,
        record_mb: general.record_mb,
        record_hours: general.record_hours,
    })
}

/// The subscribers, in order.
fn subscribers_at(alloc: Global, table: &Table) -> Result<Vec<SubscriberSetup>, Refusal>
    ensures ok { IfOk result (λ v. required (list_of subscriber_in) (codes "subscriber") (table_view table.now) ≡ Some (map subscriber_value v.items)) }
    ensures err { IfErr result (λ r. (r ≡ Refusal.NoMemory) ⊎ ((r ≡ Refusal.BadSetup) × (required (list_of subscriber_in) (codes "subscriber") (table_view table.now) ≡ None))) }
{
    match table::value_at(table, SetupKey::SUBSCRIBER.name) {
        Some(value) => subscribers_in(alloc, value),
        None => Err(Refusal::BadSetup),
    }
}

/// The subscribers' tables.
fn subscribers_in(alloc: Global, value: &Value) -> Result<Vec<SubscriberSetup>, Refusal>
    ensures ok { IfOk result (λ v. list_of subscriber_in (view value.now) ≡ Some (map subscriber_value v.items)) }
    ensures err { IfErr result (λ r. (r ≡ Refusal.NoMemory) ⊎ ((r ≡ Refusal.BadSetup) × (list_of subscriber_in (view value.now) ≡ None))) }
{
    let Some(items) = value.as_array() else {
        return Err(Refusal::BadSetup);
    };
    let mut subscribers = Vec::new(alloc);
    'items: for item in items {
        let subscriber = match subscriber_in(alloc, item) {
            Ok(subscriber) => subscriber,
            Err(refusal) => return Err(refusal),
        };
        subscribers.push(subscriber)?;
    }
    Ok(subscribers)
}

/// A subscriber's table.
fn subscriber_in(alloc: Global, value: &Value) -> Result<SubscriberSetup, Refusal>
    ensures ok { IfOk result (λ s. subscriber_in (view value.now) ≡ Some (subscriber_value s)) }
    ensures err { IfErr result (λ r. (r ≡ Refusal.NoMemory) ⊎ ((r ≡ Refusal.BadSetup) × (subscriber_in (view value.now) ≡ None))) }
{
    let Some(table) = value.as_table() else {
        return Err(Refusal::BadSetup);
    };
    if !table::keys_within(&SetupKey::SUBSCRIBER_KEYS, table) {
        return Err(Refusal::BadSetup);
    }
    let Some(entry) = entry_at(table) else {
        return Err(Refusal::BadSetup);
    };
    let rules = match port_rules_at(alloc, entry.id, table) {
        Ok(rules) => rules,
        Err(refusal) => return Err(refusal),
    };
    let grants = match grants_at(alloc, table) {
        Ok(grants) => grants,
        Err(refusal) => return Err(refusal),
    };
    let port = match entry.port {
        Some(port) => Some(PortSetup { port, rules }),
        None => None,
    };
    match streams_at(alloc, table) {
        Ok(streams) => Ok(SubscriberSetup {
            sub: entry.id,
            ring: entry.size,
            bytes: entry.bytes,
            grants,
            streams,
            port,
        }),
        Err(refusal) => Err(refusal),
    }
}

/// A subscriber's own values.
#[derive(Clone, Copy)]
struct Entry {
    id: SubId,
    port: Option<u16>,
    size: RingSize,
    bytes: RingBytes,
}

/// A subscriber's own values in its table.
fn entry_at(table: &Table) -> Option<Entry>
    ensures { option_map (λ e. record { id = e.id; port = e.port; size = e.size; bytes = e.bytes }) result ≡ entry_by (table_view table.now) }
{
    let id = subscriber_id(table)?;
    let port = port_at(table)?;
    let size = ring_size(table)?;
    let bytes = ring_bytes(table)?;
    Some(Entry {
        id,
        port,
        size,
        bytes,
    })
}

/// The number of a subscriber.
pub(crate) fn subscriber_id(table: &Table) -> Option<SubId>
    ensures { result ≡ required (whole_in 1 65535) (codes "id") (table_view table.now) }
{
    SubId::new(table::required(table, &SetupKey::SUBSCRIBER_ID)? as u16)
}

/// The port that a subscriber connects to, or none where it is left out.
fn port_at(table: &Table) -> Option<Option<u16>>
    ensures { result ≡ absent_or (whole_in 1 65535) (codes "port") (table_view table.now) }
{
    table::number_or_none(table, &SetupKey::PORT)
}

/// How many data frames a subscriber's ring holds.
fn ring_size(table: &Table) -> Option<RingSize>
    ensures { result ≡ required (whole_in 1 1024) (codes "ring") (table_view table.now) }
{
    RingSize::new(table::required(table, &SetupKey::RING)? as u16)
}

/// How many bytes of data frames a subscriber's ring holds.
fn ring_bytes(table: &Table) -> Option<RingBytes>
    ensures { result ≡ optional 16777216 (whole_in 16 16777216) (codes "bytes") (table_view table.now) }
{
    RingBytes::new(table::optional(table, &SetupKey::BYTES)?)
}

/// The PMUs that are granted to a subscriber, none where they are left out.
fn grants_at(alloc: Global, table: &Table) -> Result<Vec<PmuKey>, Refusal>
    ensures ok { IfOk result (λ v. optional [] (list_of key_in) (codes "grants") (table_view table.now) ≡ Some v.items) }
    ensures err { IfErr result (λ r. (r ≡ Refusal.NoMemory) ⊎ ((r ≡ Refusal.BadSetup) × (optional [] (list_of key_in) (codes "grants") (table_view table.now) ≡ None))) }
{
    match table::value_at(table, SetupKey::GRANTS.name) {
        Some(value) => stream::keys_in(alloc, value),
        None => Ok(Vec::new(alloc)),
    }
}

/// A subscriber's streams, none where they are left out.
fn streams_at(alloc: Global, table: &Table) -> Result<Vec<Definition>, Refusal>
    ensures ok { IfOk result (λ v. optional [] (list_of stream_in) (codes "stream") (table_view table.now) ≡ Some v.items) }
    ensures err { IfErr result (λ r. (r ≡ Refusal.NoMemory) ⊎ ((r ≡ Refusal.BadSetup) × (optional [] (list_of stream_in) (codes "stream") (table_view table.now) ≡ None))) }
{
    match table::value_at(table, SetupKey::STREAM.name) {
        Some(value) => stream::streams_in(alloc, value),
        None => Ok(Vec::new(alloc)),
    }
}

//! The tables `[[subscriber.stream]]` of the setup file, and lists of PMUs.
ghost use Rattle.std.specs.Prelude.{◌≡◌, ◌⊎◌, IfOk, IfErr, IfSome, map, option_map, codes, Some, None, []};
ghost use Rattle.toml.specs.View.{view, table_view};
ghost use Rattle.pg_operator.specs.Setups.{key_in, list_of, members_in, numbers_in, optional, required, text_in, keys_within, stream_names, stream_in, whole_in, wide};

use crate::keys::SetupKey;
use crate::kind::MEMBER_LIMIT;
use crate::table;
use pg_lines::Numbers;
use pg_stream::{Definition, HeaderText, Members};
use pg_wire::{PmuKey, Refusal, StreamId};
use std::alloc::Global;
use toml::{Table, Value};

/// The streams of a subscriber.
pub(crate) fn streams_in(alloc: Global, value: &Value) -> Result<Vec<Definition>, Refusal>
    ensures ok { IfOk result (λ v. list_of stream_in (view value.now) ≡ Some v.items) }
    ensures err { IfErr result (λ r. (r ≡ Refusal.NoMemory) ⊎ ((r ≡ Refusal.BadSetup) × (list_of stream_in (view value.now) ≡ None))) }
{
    let Some(items) = value.as_array() else {
        return Err(Refusal::BadSetup);
    };
    let mut streams = Vec::new(alloc);
    'items: for item in items {
        let definition = match stream_in(alloc, item) {
            Ok(definition) => definition,
            Err(refusal) => return Err(refusal),
        };
        streams.push(definition)?;
    }
    Ok(streams)
}

/// A stream's table.
fn stream_in(alloc: Global, value: &Value) -> Result<Definition, Refusal>
    ensures ok { IfOk result (λ d. stream_in (view value.now) ≡ Some d) }
    ensures err { IfErr result (λ r. (r ≡ Refusal.NoMemory) ⊎ ((r ≡ Refusal.BadSetup) × (stream_in (view value.now) ≡ None))) }
{
    let Some(table) = value.as_table() else {
        return Err(Refusal::BadSetup);
    };
    if !has_stream_keys(table) {
        return Err(Refusal::BadSetup);
    }
    let Some(numbers) = numbers_in(table) else {
        return Err(Refusal::BadSetup);
    };
    let header = match header_in(alloc, table) {
        Ok(header) => header,
        Err(refusal) => return Err(refusal),
    };
    match members_at(alloc, table) {
        Ok(members) => Ok(numbers.with(header, members)),
        Err(refusal) => Err(refusal),
    }
}

/// Whether each key of the table is one of a stream.
fn has_stream_keys(table: &Table) -> bool
    ensures { result ≡ keys_within stream_names (table_view table.now) }
{
    table::keys_within(&SetupKey::STREAM_KEYS, table)
}

/// A number of 32 bits: the gateway refuses one that is out of the key's range.
fn wide(table: &Table, key: &SetupKey) -> Option<u32>
    ensures { result ≡ wide key.now.name.now (table_view table.now) }
{
    table::whole(table::value_at(table, key.name)?, 0, u32::MAX)
}

/// The number of a stream.
fn stream_id(table: &Table) -> Option<StreamId>
    ensures { result ≡ required (whole_in 1 65534) (codes "id") (table_view table.now) }
{
    StreamId::new(table::required(table, &SetupKey::STREAM_ID)? as u16)
}

/// The rate of a stream, a number of 8 bits: the gateway refuses one that is out of the key's range.
fn rate(table: &Table) -> Option<u8>
    ensures { result ≡ required (whole_in 0 255) (codes "rate") (table_view table.now) }
{
    let value = table::value_at(table, SetupKey::RATE.name)?;
    Some(table::whole(value, 0, 255)? as u8)
}

/// The numbers of a definition.
fn numbers_in(table: &Table) -> Option<Numbers>
    ensures { option_map (λ n header members. record { stream = n.stream; rate = n.rate; base = n.base; wait = n.wait; window = n.window; header = header; members = members }) result
        ≡ numbers_in (table_view table.now) }
{
    let stream = stream_id(table)?;
    let rate = rate(table)?;
    let base = wide(table, &SetupKey::BASE)?;
    let wait = wide(table, &SetupKey::WAIT)?;
    let window = wide(table, &SetupKey::WINDOW)?;
    Some(Numbers {
        stream,
        rate,
        base,
        wait,
        window,
    })
}

/// The text of a header, or the empty one where it is left out.
fn header_in(alloc: Global, table: &Table) -> Result<HeaderText, Refusal>
    ensures ok { IfOk result (λ text. optional [] text_in (codes "header") (table_view table.now) ≡ Some text) }
    ensures err { IfErr result (λ r. (r ≡ Refusal.NoMemory) ⊎ ((r ≡ Refusal.BadSetup) × (optional [] text_in (codes "header") (table_view table.now) ≡ None))) }
{
    match table::value_at(table, SetupKey::HEADER.name) {
        None => Ok(HeaderText::new(Vec::new(alloc))),
        Some(Value::String(text)) => Ok(HeaderText::new(Vec::from_slice(alloc, text.as_bytes())?)),
        Some(_) => Err(Refusal::BadSetup),
    }
}

/// The members of a stream.
fn members_at(alloc: Global, table: &Table) -> Result<Members, Refusal>
    ensures ok { IfOk result (λ m. required members_in (codes "members") (table_view table.now) ≡ Some m) }
    ensures err { IfErr result (λ r. (r ≡ Refusal.NoMemory) ⊎ ((r ≡ Refusal.BadSetup) × (required members_in (codes "members") (table_view table.now) ≡ None))) }
{
    match table::value_at(table, SetupKey::MEMBERS.name) {
        Some(value) => members_in(alloc, value),
        None => Err(Refusal::BadSetup),
    }
}

/// One to 32 keys.
fn members_in(alloc: Global, value: &Value) -> Result<Members, Refusal>
    ensures ok { IfOk result (λ m. members_in (view value.now) ≡ Some m) }
    ensures err { IfErr result (λ r. (r ≡ Refusal.NoMemory) ⊎ ((r ≡ Refusal.BadSetup) × (members_in (view value.now) ≡ None))) }
{
    let keys = match keys_in(alloc, value) {
        Ok(keys) => keys,
        Err(refusal) => return Err(refusal),
    };
    if keys.is_empty() || keys.len() > MEMBER_LIMIT {
        return Err(Refusal::BadSetup);
    }
    Ok(Members::new(keys))
}

/// The keys of a list.
pub(crate) fn keys_in(alloc: Global, value: &Value) -> Result<Vec<PmuKey>, Refusal>
    ensures ok { IfOk result (λ v. list_of key_in (view value.now) ≡ Some v.items) }
    ensures err { IfErr result (λ r. (r ≡ Refusal.NoMemory) ⊎ ((r ≡ Refusal.BadSetup) × (list_of key_in (view value.now) ≡ None))) }
{
    let Some(items) = value.as_array() else {
        return Err(Refusal::BadSetup);
    };
    let mut keys = Vec::new(alloc);
    'items: for item in items {
        let Some(key) = table::key(item) else {
            return Err(Refusal::BadSetup);
        };
        keys.push(key)?;
    }
    Ok(keys)
}

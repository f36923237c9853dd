//! The line of a key of a setup file that asks to bind.

use crate::keys::SetupKey;
use crate::lines::{SetupLines, SetupTable};
use crate::setup::subscriber_id;
use pg_wire::SubId;
use std::alloc::Global;
use toml::Table;

/// Whose key of a setup file asks to bind.
#[derive(Clone, Copy, Debug, PartialEq, Eq)]
pub enum BoundBy {
    /// `port` of this subscriber.
    Port(SubId),
    /// `status`.
    Status,
    /// `control`.
    Control,
    /// `record`.
    Record,
}

/// The line, from 1, of the key of a setup file that asks to bind. In a list or a text of several lines it is the first of
/// them. `None` where the text can't be read, has no such key, or memory runs out.
pub fn line_of_key(alloc: Global, text: &str, by: BoundBy) -> Option<usize> {
    let table = toml::table_from_str(alloc, text).ok()?;
    let (place, key) = match by {
        BoundBy::Port(sub) => {
            let place = SetupTable::Subscriber(port_of(&table, sub)?);
            (place, SetupKey::PORT.name)
        }
        BoundBy::Status => (SetupTable::File, SetupKey::STATUS.name),
        BoundBy::Control => (SetupTable::File, SetupKey::CONTROL.name),
        BoundBy::Record => (SetupTable::File, SetupKey::RECORD.name),
    };
    if place == SetupTable::File && !table.contains_key(key) {
        return None;
    }
    let lines = SetupLines::of(alloc, text).ok()?;
    Some(lines.line_of(place, key))
}

/// Where this subscriber's table stands among those of the subscribers, if it has a port.
fn port_of(table: &Table, sub: SubId) -> Option<usize> {
    let items = table.get(SetupKey::SUBSCRIBER.name)?.as_array()?;
    let number = items.iter().position(|item| match item.as_table() {
        Some(table) => subscriber_id(table) == Some(sub),
        None => false,
    })?;
    let table = items.get(number)?.as_table()?;
    table.get(SetupKey::PORT.name)?;
    Some(number)
}

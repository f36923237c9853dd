//! Tables of the setup file: their keys, and the values that stand there.
ghost use Rattle.std.specs.Prelude.{◌≡◌, ◌≤◌, IfSome, map, Some, None, option_map, is_some};
ghost use Rattle.toml.specs.View.{view, table_view};
ghost use Rattle.toml.specs.Data.{get_member};
ghost use Rattle.pg_operator.specs.Setups.{required, optional, absent_or, is_among, keys_within, whole_in, key_in, boolean_in};
ghost use Rattle.pg_operator.specs.Ranges.{least_of, most_of, otherwise_of, in_range};

use crate::keys::SetupKey;
use pg_lines::words;
use pg_wire::{PmuId, PmuKey};
use toml::{Table, Value};

/// A whole number in its range.
pub(crate) fn whole(value: &Value, least: u32, most: u32) -> Option<u32>
    ensures value { result ≡ whole_in least most (view value.now) }
    ensures least { IfSome result (λ n. least ≤ n) }
    ensures most { IfSome result (λ n. n ≤ most) }
{
    match value {
        Value::Integer(n) if i64::from(least) <= *n && *n <= i64::from(most) => Some(*n as u32),
        _ => None,
    }
}

/// The value at a key.
pub(crate) fn value_at<'a>(table: &'a Table, key: &str) -> Option<&'a Value>
    ensures { option_map (λ v. view v.now) result ≡ get_member key.now (table_view table.now) }
{
    table.get(key)
}

/// A whole number in the range of a key.
pub(crate) fn number(value: &Value, key: &SetupKey) -> Option<u32>
    ensures value { result ≡ in_range key.now (view value.now) }
    ensures least { IfSome result (λ n. least_of key.now.kind ≤ n) }
    ensures most { IfSome result (λ n. n ≤ most_of key.now.kind) }
{
    whole(value, key.least(), key.most())
}

/// The number at a key that has to be there.
pub(crate) fn required(table: &Table, key: &SetupKey) -> Option<u32>
    ensures value { result ≡ required (in_range key.now) key.now.name.now (table_view table.now) }
    ensures least { IfSome result (λ n. least_of key.now.kind ≤ n) }
    ensures most { IfSome result (λ n. n ≤ most_of key.now.kind) }
{
    number(value_at(table, key.name)?, key)
}

/// The number at a key that may be left out.
pub(crate) fn optional(table: &Table, key: &SetupKey) -> Option<u32>
    requires { (least_of key.now.kind ≤ otherwise_of key.now.absent) × (otherwise_of key.now.absent ≤ most_of key.now.kind) }
    ensures value { result ≡ optional (otherwise_of key.now.absent) (in_range key.now) key.now.name.now (table_view table.now) }
    ensures least { IfSome result (λ n. least_of key.now.kind ≤ n) }
    ensures most { IfSome result (λ n. n ≤ most_of key.now.kind) }
{
    match value_at(table, key.name) {
        Some(value) => number(value, key),
        None => Some(key.otherwise()),
    }
}

/// The number of 16 bits at a key that has no value where it is left out.
pub(crate) fn number_or_none(table: &Table, key: &SetupKey) -> Option<Option<u16>>
    requires { most_of key.now.kind ≤ 65535 }
    ensures { result ≡ absent_or (in_range key.now) key.now.name.now (table_view table.now) }
{
    match value_at(table, key.name) {
        Some(value) => Some(Some(number(value, key)? as u16)),
        None => Some(None),
    }
}

/// The truth value at a key that may be left out.
pub(crate) fn truth(table: &Table, key: &str, otherwise: bool) -> Option<bool>
    ensures { result ≡ optional otherwise boolean_in key.now (table_view table.now) }
{
    match value_at(table, key) {
        Some(Value::Boolean(truth)) => Some(*truth),
        Some(_) => None,
        None => Some(otherwise),
    }
}

/// The truth value at a key that has no value where it is left out.
pub(crate) fn truth_or_none(table: &Table, key: &str) -> Option<Option<bool>>
    ensures { result ≡ absent_or boolean_in key.now (table_view table.now) }
{
    match value_at(table, key) {
        Some(Value::Boolean(truth)) => Some(Some(*truth)),
        Some(_) => None,
        None => Some(None),
    }
}

/// Whether this is the name of one of the keys.
fn is_among(keys: &[SetupKey], name: &str) -> bool
    ensures { result ≡ is_among (map (λ k. k.name.now) keys.now) name.now }
{
    keys.iter().any(|key| key.name == name)
}

/// Whether each key of the table is one of these.
pub(crate) fn keys_within(keys: &[SetupKey], table: &Table) -> bool
    ensures { result ≡ keys_within (map (λ k. k.name.now) keys.now) (table_view table.now) }
{
    table.keys().all(|name| is_among(keys, name.as_str()))
}

/// A key of a PMU: a number P, which is P/P, or the text "S/P".
pub(crate) fn key(value: &Value) -> Option<PmuKey>
    ensures { result ≡ key_in (view value.now) }
{
    match value {
        Value::String(text) => words::pair(text.as_str()),
        Value::Integer(_) => {
            let pmu = PmuId::new(whole(value, 1, 65534)? as u16)?;
            Some(PmuKey { source: pmu, pmu })
        }
        _ => None,
    }
}

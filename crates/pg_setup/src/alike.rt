//! The edits of a setup, compared.
ghost use Rattle.std.specs.Prelude.{◌≡◌};
ghost use Rattle.pg_setup.specs.Alike.{adds_with, defines, definition_eq, edit_eq, grants, has, registers};

use pg_gateway::Edit;
use pg_ring::{RingBytes, RingSize};
use pg_stream::Definition;
use pg_wire::{PmuKey, SubId};

/// Whether every field is the same.
fn are_alike(one: &Definition, other: &Definition) -> bool
    ensures { result ≡ definition_eq one.now other.now }
{
    one.stream == other.stream
        && one.rate == other.rate
        && one.base == other.base
        && one.wait == other.wait
        && one.window == other.window
        && one.header.as_slice() == other.header.as_slice()
        && one.members.as_slice() == other.members.as_slice()
}

/// Whether an edit registers this PMU.
fn registers(key: &PmuKey, edit: &Edit) -> bool
    ensures { result ≡ registers key.now edit.now }
{
    match edit {
        Edit::AddPmu(other) => key == other,
        _ => false,
    }
}

/// Whether an edit adds this subscriber with these limits.
fn adds_with(sub: SubId, size: RingSize, bytes: RingBytes, edit: &Edit) -> bool
    ensures { result ≡ adds_with sub size bytes edit.now }
{
    match edit {
        Edit::AddSub(other, ring, limit) => sub == *other && size == *ring && bytes == *limit,
        _ => false,
    }
}

/// Whether an edit grants this PMU to this subscriber.
fn grants(sub: SubId, key: &PmuKey, edit: &Edit) -> bool
    ensures { result ≡ grants sub key.now edit.now }
{
    match edit {
        Edit::Grant(other, granted) => sub == *other && key == granted,
        _ => false,
    }
}

/// Whether an edit defines this stream of this subscriber.
fn defines(sub: SubId, definition: &Definition, edit: &Edit) -> bool
    ensures { result ≡ defines sub definition.now edit.now }
{
    match edit {
        Edit::Define(other, defined) => sub == *other && are_alike(definition, defined),
        _ => false,
    }
}

/// Whether both are one edit of a setup.
pub(crate) fn is_same(one: &Edit, other: &Edit) -> bool
    ensures { result ≡ edit_eq one.now other.now }
{
    match one {
        Edit::AddPmu(key) => registers(key, other),
        Edit::AddSub(sub, size, bytes) => adds_with(*sub, *size, *bytes, other),
        Edit::Grant(sub, key) => grants(*sub, key, other),
        Edit::Define(sub, definition) => defines(*sub, definition, other),
        _ => false,
    }
}

/// Whether one of the edits is this one.
pub(crate) fn has(edits: &[Edit], edit: &Edit) -> bool
    ensures { result ≡ has edits.now edit.now }
{
    edits.iter().any(|other| is_same(other, edit))
}

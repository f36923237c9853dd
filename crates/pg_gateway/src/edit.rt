//! What an operator asks of the gateway.

ghost use Rattle.std.specs.Prelude.{◌≡◌, IfOk};

use pg_ring::{RingBytes, RingSize};
use pg_stream::{Definition, HeaderText, Members};
use pg_wire::{PmuKey, StreamId, SubId};
use std::alloc::{AllocError, Global};

/// What an operator asks of the gateway: each is an event of the gateway of the same name.
#[derive(Drop)]
pub enum Edit {
    /// A PMU is registered.
    AddPmu(PmuKey),
    /// A PMU leaves the registry, and each grant of it is revoked.
    DropPmu(PmuKey),
    /// A subscriber is added, with the limits of its ring: data frames, and bytes of data frames.
    AddSub(SubId, RingSize, RingBytes),
    /// A subscriber leaves.
    DropSub(SubId),
    /// A PMU is granted to a subscriber.
    Grant(SubId, PmuKey),
    /// A grant is taken back.
    Revoke(SubId, PmuKey),
    /// A stream of a subscriber is defined.
    Define(SubId, Definition),
    /// A stream of a subscriber is removed.
    Remove(SubId, StreamId),
    /// A subscriber's counters are asked for.
    Stats(SubId),
    /// A registered PMU's counters are asked for.
    PmuStats(PmuKey),
    /// An entry of a subscriber's audit is asked for: 0 the newest, at most 63.
    Audit(SubId, u8),
}

/// A copy of a definition.
fn copy_definition(alloc: Global, definition: &Definition) -> Result<Definition, AllocError>
    ensures same { IfOk result (λ copy. copy ≡ definition.now) }
{
    let header = definition.header.as_slice().to_vec(alloc)?;
    let members = definition.members.as_slice().to_vec(alloc)?;
    Ok(Definition {
        stream: definition.stream,
        rate: definition.rate,
        base: definition.base,
        wait: definition.wait,
        window: definition.window,
        header: HeaderText::new(header),
        members: Members::new(members),
    })
}

impl Edit {
    /// A copy of the edit.
    ///
    /// # Errors
    ///
    /// There is no memory.
    pub fn try_clone(&self, alloc: Global) -> Result<Edit, AllocError>
        ensures same { IfOk result (λ copy. copy ≡ self.now) }
    {
        Ok(match self {
            Edit::AddPmu(key) => Edit::AddPmu(*key),
            Edit::DropPmu(key) => Edit::DropPmu(*key),
            Edit::AddSub(sub, ring, bytes) => Edit::AddSub(*sub, *ring, *bytes),
            Edit::DropSub(sub) => Edit::DropSub(*sub),
            Edit::Grant(sub, key) => Edit::Grant(*sub, *key),
            Edit::Revoke(sub, key) => Edit::Revoke(*sub, *key),
            Edit::Define(sub, definition) => {
                Edit::Define(*sub, copy_definition(alloc, definition)?)
            }
            Edit::Remove(sub, stream) => Edit::Remove(*sub, *stream),
            Edit::Stats(sub) => Edit::Stats(*sub),
            Edit::PmuStats(key) => Edit::PmuStats(*key),
            Edit::Audit(sub, index) => Edit::Audit(*sub, *index),
        })
    }
}

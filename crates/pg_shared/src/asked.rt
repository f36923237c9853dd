//! Edits become events.

ghost use Rattle.std.specs.Prelude.{◌≡◌};
ghost use Rattle.pg_gateway.specs.GatewayEvents.{gateway_event};
ghost use Rattle.pg_shared.specs.Edits.{edited};

use pg_gateway::{Edit, Event};

/// The event that an operator's edit is. It takes no memory.
pub fn event_of(edit: Edit) -> Event
    ensures event { gateway_event result ≡ edited edit }
{
    match edit {
        Edit::AddPmu(key) => Event::AddPmu(key),
        Edit::DropPmu(key) => Event::DropPmu(key),
        Edit::AddSub(sub, ring, bytes) => Event::AddSub(sub, ring, bytes),
        Edit::DropSub(sub) => Event::DropSub(sub),
        Edit::Grant(sub, key) => Event::Grant(sub, key),
        Edit::Revoke(sub, key) => Event::Revoke(sub, key),
        Edit::Define(sub, definition) => Event::Define(sub, definition),
        Edit::Remove(sub, stream) => Event::Remove(sub, stream),
        Edit::Stats(sub) => Event::Stats(sub),
        Edit::PmuStats(key) => Event::PmuStats(key),
        Edit::Audit(sub, index) => Event::Audit(sub, index),
    }
}

//! The setup's edits.

ghost use Rattle.std.specs.Prelude.{◌≡◌, ◌∷◌, [], List, IfOk};
ghost use Rattle.pg_gateway.specs.declared.edit.Edit.{Edit as EditValue};
ghost use Rattle.pg_gateway.specs.GatewayEvents.{Answer};
ghost use Rattle.pg_gateway.specs.Posting.{Notes};
ghost use Rattle.pg_shared.specs.Edits.{edited};
ghost use Rattle.pg_service.specs.Setting.{PostsEdits};

use crate::directory::{Change, Directory};
use pg_gateway::{Edit, Gate, Reply};
use pg_shared::event_of;
use pg_wire::Refusal;

/// Posts the edits of a setup in their order, until one is refused, and keeps which PMUs are registered by them. It is for
/// the time before any worker is there to get an order.
///
/// # Errors
///
/// Why an edit was refused; `NoMemory`, where more PMUs are registered than a gateway has.
pub fn post_edits<G: Gate>(
    gate: &mut G,
    edits: Vec<Edit>,
    registered: &mut Directory,
) -> Result<(), Refusal>
    // From the first on, in the order of the list: all of them, or as far as the one that is refused.
    ensures posted { (rest : List EditValue) × PostsEdits edits.items rest (G.posts gate.old) (G.posts gate.new) × IfOk result (λ _. rest ≡ []) }
{
    'edits: for edit in edits {
        post_edit(gate, edit, registered)?;
    }
    Ok(())
}

/// Posts an edit, and keeps what it changes.
fn post_edit<G: Gate>(gate: &mut G, edit: Edit, registered: &mut Directory) -> Result<(), Refusal>
    ensures posted { (a : Answer) × Notes (G.posts gate.old) (G.posts gate.new) ((edited edit, a) ∷ []) }
{
    let change = Change::of(&edit);
    let reply = gate.post(event_of(edit));
    if let Reply::Refused(refusal) = reply {
        return Err(refusal);
    }
    registered.note(change, &reply)?;
    Ok(())
}

//! Copies of edits.
ghost use Rattle.std.specs.Prelude.{◌≡◌, IfOk, IfErr, []};
ghost use Rattle.pg_setup.specs.Edits.{once_after};

use crate::alike;
use pg_gateway::Edit;
use pg_wire::Refusal;
use std::alloc::Global;

/// A copy of each edit where it first stands.
pub(crate) fn each_once(alloc: Global, edits: &[Edit]) -> Result<Vec<Edit>, Refusal>
    ensures ok { IfOk result (λ copies. copies.items ≡ once_after [] edits.now) }
    ensures err { IfErr result (λ r. r ≡ Refusal.NoMemory) }
{
    let mut copies = Vec::new(alloc);
    'edits: for edit in edits {
        if !alike::has(copies.as_slice(), edit) {
            copies.push(edit.try_clone(alloc)?)?;
        }
    }
    Ok(copies)
}

//! The edits that lead from one setup to another, in eight steps.
ghost use Rattle.std.specs.Prelude.{◌≡◌, ◌++◌, IfOk, IfErr, OnOk};
ghost use Rattle.std.specs.List.{filter_map};
ghost use Rattle.pg_setup.specs.Edits.{added_pmu, added_sub, adds, comes, defined, dropped_pmu, dropped_sub, edits_between, granted, removed, revoked, stays, step_of};

use crate::{alike, copying};
use pg_gateway::Edit;
use pg_wire::{Refusal, SubId};
use std::alloc::Global;

/// The steps, in order. The first three and the revocations go over the edits of the old setup, the others over those of the new one.
#[derive(Clone, Copy)]
pub(crate) enum Step {
    DropSubs,
    Removes,
    DropPmus,
    AddPmus,
    AddSubs,
    Revokes,
    Grants,
    Defines,
}

/// Whether an edit adds this subscriber.
fn adds(sub: SubId, edit: &Edit) -> bool
    ensures { result ≡ adds sub edit.now }
{
    match edit {
        Edit::AddSub(other, _, _) => *other == sub,
        _ => false,
    }
}

/// Whether both setups have this subscriber, with the same ring and bytes.
fn stays(old: &[Edit], new: &[Edit], sub: SubId) -> bool
    ensures { result ≡ stays old.now new.now sub }
{
    old.iter()
        .any(|edit| adds(sub, edit) && alike::has(new, edit))
}

/// Whether the new setup has this subscriber, and the old one not, or with another ring or other bytes.
fn comes(old: &[Edit], new: &[Edit], sub: SubId) -> bool
    ensures { result ≡ comes old.now new.now sub }
{
    new.iter()
        .any(|edit| adds(sub, edit) && !alike::has(old, edit))
}

/// The drop of a subscriber that does not stay.
fn dropped_sub(new: &[Edit], edit: &Edit) -> Option<Edit>
    ensures { result ≡ dropped_sub new.now edit.now }
{
    match edit {
        Edit::AddSub(sub, _, _) => {
            if alike::has(new, edit) {
                None
            } else {
                Some(Edit::DropSub(*sub))
            }
        }
        _ => None,
    }
}

/// The drop of a PMU that is gone.
fn dropped_pmu(new: &[Edit], edit: &Edit) -> Option<Edit>
    ensures { result ≡ dropped_pmu new.now edit.now }
{
    match edit {
        Edit::AddPmu(key) => {
            if alike::has(new, edit) {
                None
            } else {
                Some(Edit::DropPmu(*key))
            }
        }
        _ => None,
    }
}

/// The registration of a new PMU.
fn added_pmu(old: &[Edit], edit: &Edit) -> Option<Edit>
    ensures { result ≡ added_pmu old.now edit.now }
{
    match edit {
        Edit::AddPmu(key) => {
            if alike::has(old, edit) {
                None
            } else {
                Some(Edit::AddPmu(*key))
            }
        }
        _ => None,
    }
}

/// An edit of a subscriber that comes.
fn added_sub(
    alloc: Global,
    old: &[Edit],
    new: &[Edit],
    edit: &Edit,
) -> Result<Option<Edit>, Refusal>
    ensures ok { IfOk result (λ change. change ≡ added_sub old.now new.now edit.now) }
    ensures err { IfErr result (λ r. r ≡ Refusal.NoMemory) }
{
    match edit {
        Edit::AddSub(sub, size, bytes) => {
            if comes(old, new, *sub) {
                Ok(Some(Edit::AddSub(*sub, *size, *bytes)))
            } else {
                Ok(None)
            }
        }
        Edit::Grant(sub, key) => {
            if comes(old, new, *sub) {
                Ok(Some(Edit::Grant(*sub, *key)))
            } else {
                Ok(None)
            }
        }
        Edit::Define(sub, _) => {
            if comes(old, new, *sub) {
                Ok(Some(edit.try_clone(alloc)?))
            } else {
                Ok(None)
            }
        }
        _ => Ok(None),
    }
}

/// The revocation of a grant that is gone, but for a PMU that is gone too: its drop revokes it.
fn revoked(old: &[Edit], new: &[Edit], edit: &Edit) -> Option<Edit>
    ensures { result ≡ revoked old.now new.now edit.now }
{
    match edit {
        Edit::Grant(sub, key) => {
            if stays(old, new, *sub)
                && alike::has(new, &Edit::AddPmu(*key))
                && !alike::has(new, edit)
            {
                Some(Edit::Revoke(*sub, *key))
            } else {
                None
            }
        }
        _ => None,
    }
}

/// A new grant of a subscriber that stays.
fn granted(old: &[Edit], new: &[Edit], edit: &Edit) -> Option<Edit>
    ensures { result ≡ granted old.now new.now edit.now }
{
    match edit {
        Edit::Grant(sub, key) => {
            if stays(old, new, *sub) && !alike::has(old, edit) {
                Some(Edit::Grant(*sub, *key))
            } else {
                None
            }
        }
        _ => None,
    }
}

/// The removal of a stream that is gone or changed, of a subscriber that stays.
fn removed(old: &[Edit], new: &[Edit], edit: &Edit) -> Option<Edit>
    ensures { result ≡ removed old.now new.now edit.now }
{
    match edit {
        Edit::Define(sub, definition) => {
            if stays(old, new, *sub) && !alike::has(new, edit) {
                Some(Edit::Remove(*sub, definition.stream))
            } else {
                None
            }
        }
        _ => None,
    }
}

/// The definition of a stream that is new or changed, of a subscriber that stays.
fn defined(alloc: Global, old: &[Edit], new: &[Edit], edit: &Edit) -> Result<Option<Edit>, Refusal>
    ensures ok { IfOk result (λ change. change ≡ defined old.now new.now edit.now) }
    ensures err { IfErr result (λ r. r ≡ Refusal.NoMemory) }
{
    match edit {
        Edit::Define(sub, _) => {
            if stays(old, new, *sub) && !alike::has(old, edit) {
                Ok(Some(edit.try_clone(alloc)?))
            } else {
                Ok(None)
            }
        }
        _ => Ok(None),
    }
}

/// What a step does about an edit.
fn step_of(
    alloc: Global,
    step: Step,
    old: &[Edit],
    new: &[Edit],
    edit: &Edit,
) -> Result<Option<Edit>, Refusal>
    ensures ok { IfOk result (λ change. change ≡ step_of step old.now new.now edit.now) }
    ensures err { IfErr result (λ r. r ≡ Refusal.NoMemory) }
{
    match step {
        Step::DropSubs => Ok(dropped_sub(new, edit)),
        Step::Removes => Ok(removed(old, new, edit)),
        Step::DropPmus => Ok(dropped_pmu(new, edit)),
        Step::AddPmus => Ok(added_pmu(old, edit)),
        Step::AddSubs => added_sub(alloc, old, new, edit),
        Step::Revokes => Ok(revoked(old, new, edit)),
        Step::Grants => Ok(granted(old, new, edit)),
        Step::Defines => defined(alloc, old, new, edit),
    }
}

/// Adds what a step does about these edits.
fn add_step(
    alloc: Global,
    out: &mut Vec<Edit>,
    step: Step,
    edits: &[Edit],
    old: &[Edit],
    new: &[Edit],
) -> Result<(), Refusal>
    ensures ok { OnOk result (out.new.items ≡ out.old.items ++ filter_map (step_of step old.now new.now) edits.now) }
    ensures err { IfErr result (λ r. r ≡ Refusal.NoMemory) }
{
    'edits: for edit in edits {
        let change = match step_of(alloc, step, old, new, edit) {
            Ok(change) => change,
            Err(refusal) => return Err(refusal),
        };
        if let Some(change) = change {
            out.push(change)?;
        }
    }
    Ok(())
}

/// The edits that lead from the old setup's edits to those of the new one.
pub(crate) fn edits_between(alloc: Global, old: &[Edit], new: &[Edit]) -> Result<Vec<Edit>, Refusal>
    ensures ok { IfOk result (λ edits. edits.items ≡ edits_between old.now new.now) }
    ensures err { IfErr result (λ r. r ≡ Refusal.NoMemory) }
{
    let mut out = Vec::new(alloc);
    let once = copying::each_once(alloc, old)?;
    add_step(alloc, &mut out, Step::DropSubs, old, old, new)?;
    add_step(alloc, &mut out, Step::Removes, old, old, new)?;
    add_step(alloc, &mut out, Step::DropPmus, old, old, new)?;
    add_step(alloc, &mut out, Step::AddPmus, new, old, new)?;
    add_step(alloc, &mut out, Step::AddSubs, new, old, new)?;
    add_step(alloc, &mut out, Step::Revokes, once.as_slice(), old, new)?;
    add_step(alloc, &mut out, Step::Grants, new, old, new)?;
    add_step(alloc, &mut out, Step::Defines, new, old, new)?;
    Ok(out)
}

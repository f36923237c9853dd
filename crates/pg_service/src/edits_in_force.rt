//! The edits by which the gateway is what it is.
ghost use Rattle.std.specs.Prelude.{◌≡◌, [], IfOk, IfErr, OnOk, filter, not};
ghost use Rattle.std.specs.List.{fold};
ghost use Rattle.pg_service.specs.Lasting.{in_force_after, is_lasting, is_of_pmu, is_of_sub, defines, grants, undoes};

use pg_gateway::Edit;
use pg_wire::{PmuKey, Refusal, StreamId, SubId};
use std::alloc::Global;
use std::marker::Model;

/// The edits that were done and that no later one took back, in their order: those that register a PMU, add a subscriber, grant a PMU or define a
/// stream. A setup with them makes a gateway with the same PMUs, subscribers, grants and streams.
#[derive(Drop)]
pub struct EditsInForce {
    edits: Vec<Edit>,
}

impl Model for EditsInForce {
    ghost use Rattle.std.specs.Prelude.{List};
    ghost use Rattle.pg_gateway.specs.declared.edit.Edit.{Edit};

    ghost Value = { List Edit };

    ghost view = { λ e. e.edits.items };
}

impl EditsInForce {
    /// No edit was done.
    pub fn new(alloc: Global) -> EditsInForce
        ensures { result ≡ [] }
    {
        EditsInForce {
            edits: Vec::new(alloc),
        }
    }

    /// Makes room for one more.
    ///
    /// # Errors
    ///
    /// `NoMemory`.
    pub fn reserve(&mut self) -> Result<(), Refusal>
        ensures same { self.new ≡ self.old }
        ensures memory { IfErr result (λ r. r ≡ Refusal.NoMemory) }
    {
        self.edits.try_reserve(1)?;
        Ok(())
    }

    /// An edit was done: those that it takes back are in force no longer, and from now on it is, if it lasts.
    ///
    /// # Errors
    ///
    /// `NoMemory`, which `reserve` prevents.
    pub fn note(&mut self, edit: Edit) -> Result<(), Refusal>
        ensures noted { OnOk result (self.new ≡ in_force_after edit self.old) }
        ensures memory { IfErr result (λ r. r ≡ Refusal.NoMemory) }
    {
        note(&mut self.edits, edit)
    }

    /// These edits were done, one after another.
    ///
    /// # Errors
    ///
    /// `NoMemory`.
    pub fn note_all(&mut self, alloc: Global, edits: &[Edit]) -> Result<(), Refusal>
        ensures noted { OnOk result (self.new ≡ fold (λ done edit. in_force_after edit done) self.old edits.now) }
        ensures memory { IfErr result (λ r. r ≡ Refusal.NoMemory) }
    {
        note_all(alloc, &mut self.edits, edits)
    }

    /// All of them.
    pub fn as_slice(&self) -> &[Edit]
        ensures { result.now ≡ self.now }
    {
        self.edits.as_slice()
    }

    /// A copy of those of a subscriber: how it was added, its grants and its streams. None where it is not there.
    ///
    /// # Errors
    ///
    /// `NoMemory`.
    pub fn of(&self, alloc: Global, sub: SubId) -> Result<Vec<Edit>, Refusal>
        ensures found { IfOk result (λ found. found.items ≡ filter (is_of_sub sub) self.now) }
        ensures memory { IfErr result (λ r. r ≡ Refusal.NoMemory) }
    {
        edits_of(alloc, sub, self.edits.as_slice())
    }
}

/// An edit was done after these.
fn note(edits: &mut Vec<Edit>, edit: Edit) -> Result<(), Refusal>
    ensures noted { OnOk result (edits.new.items ≡ in_force_after edit edits.old.items) }
    ensures memory { IfErr result (λ r. r ≡ Refusal.NoMemory) }
{
    take_back(edits, &edit);
    if is_lasting(&edit) {
        edits.push(edit)?;
    }
    Ok(())
}

/// Edits were done after these.
fn note_all(alloc: Global, edits: &mut Vec<Edit>, done: &[Edit]) -> Result<(), Refusal>
    ensures noted { OnOk result (edits.new.items ≡ fold (λ done edit. in_force_after edit done) edits.old.items done.now) }
    ensures memory { IfErr result (λ r. r ≡ Refusal.NoMemory) }
{
    'done: for edit in done {
        note(edits, edit.try_clone(alloc)?)?;
    }
    Ok(())
}

/// What an edit takes back is in force no longer.
fn take_back(edits: &mut Vec<Edit>, edit: &Edit)
    ensures { edits.new.items ≡ filter (λ earlier. not (undoes edit.now earlier)) edits.old.items }
{
    edits.retain(|earlier| !undoes(edit, earlier));
}

/// A copy of the edits of a subscriber.
fn edits_of(alloc: Global, sub: SubId, edits: &[Edit]) -> Result<Vec<Edit>, Refusal>
    ensures found { IfOk result (λ found. found.items ≡ filter (is_of_sub sub) edits.now) }
    ensures memory { IfErr result (λ r. r ≡ Refusal.NoMemory) }
{
    let mut found = Vec::new(alloc);
    'edits: for edit in edits {
        if is_of_sub(sub, edit) {
            found.push(edit.try_clone(alloc)?)?;
        }
    }
    Ok(found)
}

/// Whether an edit is in force until a later one takes it back.
fn is_lasting(edit: &Edit) -> bool
    ensures { result ≡ is_lasting edit.now }
{
    match edit {
        Edit::AddPmu(_) | Edit::AddSub(_, _, _) | Edit::Grant(_, _) | Edit::Define(_, _) => true,
        _ => false,
    }
}

/// Whether an edit registers or grants this PMU.
fn is_of_pmu(key: &PmuKey, edit: &Edit) -> bool
    ensures { result ≡ is_of_pmu key.now edit.now }
{
    match edit {
        Edit::AddPmu(other) => key == other,
        Edit::Grant(_, other) => key == other,
        _ => false,
    }
}

/// Whether an edit adds this subscriber, grants it a PMU or defines a stream of it.
fn is_of_sub(sub: SubId, edit: &Edit) -> bool
    ensures { result ≡ is_of_sub sub edit.now }
{
    match edit {
        Edit::AddSub(other, _, _) => sub == *other,
        Edit::Grant(other, _) => sub == *other,
        Edit::Define(other, _) => sub == *other,
        _ => false,
    }
}

/// Whether an edit grants this PMU to this subscriber.
fn grants(sub: SubId, key: &PmuKey, edit: &Edit) -> bool
    ensures { result ≡ grants sub key.now edit.now }
{
    match edit {
        Edit::Grant(other, granted) => sub == *other && key == granted,
        _ => false,
    }
}

/// Whether an edit defines this stream of this subscriber.
fn defines(sub: SubId, stream: StreamId, edit: &Edit) -> bool
    ensures { result ≡ defines sub stream edit.now }
{
    match edit {
        Edit::Define(other, definition) => sub == *other && stream == definition.stream,
        _ => false,
    }
}

/// Whether an edit takes an earlier one back. A grant of what is granted takes the place of the earlier one.
fn undoes(edit: &Edit, earlier: &Edit) -> bool
    ensures { result ≡ undoes edit.now earlier.now }
{
    match edit {
        Edit::DropPmu(key) => is_of_pmu(key, earlier),
        Edit::DropSub(sub) => is_of_sub(*sub, earlier),
        Edit::Grant(sub, key) => grants(*sub, key, earlier),
        Edit::Revoke(sub, key) => grants(*sub, key, earlier),
        Edit::Remove(sub, stream) => defines(*sub, *stream, earlier),
        _ => false,
    }
}

//! Which worker serves which sources or subscribers.

ghost use Rattle.std.specs.Prelude.{◌≡◌, IfOk, Some, slice_get};
ghost use mathlib.Core.List.{IsPrefix};

use pg_wire::Refusal;
use std::alloc::Global;

/// Sources or subscribers in the order in which they were given to a worker first: workers are taken in turn, and each
/// number stays with its worker, so that the orders about it come to the worker in their order.
#[derive(Drop)]
pub struct Assignment {
    numbers: Vec<u16>,
}

impl Assignment {
    /// Nobody was given to a worker.
    pub fn new(alloc: Global) -> Assignment {
        Assignment {
            numbers: Vec::new(alloc),
        }
    }

    /// Which of so many workers serves the one of this number, from now on.
    ///
    /// # Errors
    ///
    /// `NoMemory`.
    pub fn worker_of(&mut self, number: u16, workers: usize) -> Result<usize, Refusal> {
        let place = place_in(&mut self.numbers, number)?;
        Ok(place % workers.max(1))
    }
}

/// The place of this number in a list, at whose end it is put where it is not there.
fn place_in(numbers: &mut Vec<u16>, number: u16) -> Result<usize, Refusal>
    // It is a place of its own, and no other number has lost its place.
    ensures own { IfOk result (λ at. slice_get numbers.new.items at ≡ Some number) }
    ensures kept { IsPrefix numbers.old.items numbers.new.items }
{
    if let Some(place) = numbers.iter().position(|it| *it == number) {
        return Ok(place);
    }
    let place = numbers.len();
    numbers.push(number)?;
    Ok(place)
}

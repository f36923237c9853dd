//! A client of the world, by the public clauses of `pg_serve` alone: two worlds whose inputs differ only in inputs that name
//! other subscribers queue the same for a subscriber, and hand it the same bytes; and so does the replay of a history's script.

ghost use Rattle.std.specs.Prelude.{◌≡◌, ◌≤◌, ◌⊎◌, ℕ, List, Some, None, IfOk, IfErr};
ghost use Rattle.pg_gateway.specs.GatewayEvents.{GatewayEvent, Answer};
ghost use Rattle.pg_gateway.specs.State.{opening, own_of};
ghost use Rattle.pg_gateway.specs.Histories.{Legal, state_after};
ghost use Rattle.pg_gateway.specs.Views.{AllLossless, handed_to};
ghost use Rattle.pg_gateway.specs.Laws.{events_of, answers_of};
ghost use Rattle.pg_serve.specs.Inputs.{input_values, outcomes};
ghost use Rattle.pg_serve.specs.Shown.{queue_shown};
ghost use Rattle.pg_serve.specs.Full.{handed_over, queue_of};
ghost use Rattle.pg_serve.specs.WorldStates as worlds;
ghost use Rattle.pg_serve.specs.Headline.{HasAnswered, OutcomesLossless, Headline};
ghost use Rattle.pg_serve.specs.Others.{without_others, adds_in};
ghost use Rattle.pg_serve.specs.Framed.{SameButUngranted};
ghost use Rattle.pg_serve.specs.Beside.{SeeAlike, ServesAlike, StandsBeside};
ghost use Rattle.pg_serve.specs.Replaying.{recorded, AreSpelled};

use pg_ring::OutQueue;
use pg_serve::{Input, Output, World, neighbours_change_nothing, replays_alike};
use pg_wire::{Refusal, SubId};
use std::alloc::Global;

/// A world after a run, and what it answered.
#[derive(Drop)]
pub struct Ran {
    /// The world.
    pub world: World,
    /// One output for each input.
    pub outputs: Vec<Output>,
}

/// A new world takes these inputs. The one refusal is `NoMemory`.
pub fn run_anew(alloc: Global, inputs: &[Input]) -> Result<Ran, Refusal>
    ensures answers { IfOk result (λ ran. HasAnswered ran.world (input_values inputs.now) (outcomes ran.outputs.items)) }
    ensures isolates { IfOk result (λ ran. OutcomesLossless (outcomes ran.outputs.items)
        → Headline ran.world (input_values inputs.now) (outcomes ran.outputs.items)) }
    ensures beside { IfOk result (λ ran. OutcomesLossless (outcomes ran.outputs.items)
        → StandsBeside ran.world (input_values inputs.now) (outcomes ran.outputs.items)) }
    ensures memory { IfErr result (λ refusal. refusal ≡ Refusal.NoMemory) }
{
    let mut world = World::new(alloc)?;
    match world.run(inputs) {
        Ok(outputs) => Ok(Ran { world, outputs }),
        Err(refusal) => Err(refusal),
    }
}

/// A new world takes a script. Where that spells the events of a gateway's history, all but those that concern nobody, and neither history nor
/// outputs report a loss or want of memory, each subscriber was handed the bytes that the history's drains handed it, and its queue shows the
/// same. The one refusal is `NoMemory`.
pub fn replay(alloc: Global, script: &[Input]) -> Result<Ran, Refusal>
    ensures answers { IfOk result (λ ran. HasAnswered ran.world (input_values script.now) (outcomes ran.outputs.items)) }
    ensures handed { IfOk result (λ ran. (h : List (GatewayEvent × Answer)) → Legal opening h → AllLossless (answers_of h)
        → AreSpelled worlds.opening (input_values script.now) (recorded opening (events_of h)) → OutcomesLossless (outcomes ran.outputs.items)
        → (u : ℕ) → handed_over u (input_values script.now) (outcomes ran.outputs.items) ≡ handed_to u (events_of h) (answers_of h)) }
    ensures queued { IfOk result (λ ran. (h : List (GatewayEvent × Answer)) → Legal opening h → AllLossless (answers_of h)
        → AreSpelled worlds.opening (input_values script.now) (recorded opening (events_of h)) → OutcomesLossless (outcomes ran.outputs.items)
        → (u : ℕ) → queue_shown u ran.world ≡ queue_of (own_of u (state_after opening h))) }
    ensures memory { IfErr result (λ refusal. refusal ≡ Refusal.NoMemory) }
{
    replays_alike();
    run_anew(alloc, script)
}

/// Two worlds after their runs.
#[derive(Drop)]
pub struct Pair {
    /// The one.
    pub mine: Ran,
    /// The other.
    pub other: Ran,
}

/// Runs two lists of inputs, each in a world of its own, and no output reports a loss or want of memory. Where they differ only in
/// inputs that name other subscribers, and neither adds subscribers more than 64 times, the subscriber's queue shows the same in
/// both worlds, and both handed it the same. So it is too where their data frames differ in blocks alone that the subscriber is
/// not granted, also where that is said of the frames' bytes, all other inputs being the same. The one refusal is `NoMemory`.
pub fn compare(alloc: Global, sub: SubId, mine: &[Input], other: &[Input]) -> Result<Pair, Refusal>
    ensures mine { IfOk result (λ pair. HasAnswered pair.mine.world (input_values mine.now) (outcomes pair.mine.outputs.items)) }
    ensures other { IfOk result (λ pair. HasAnswered pair.other.world (input_values other.now) (outcomes pair.other.outputs.items)) }
    ensures queued { IfOk result (λ pair. OutcomesLossless (outcomes pair.mine.outputs.items)
        → OutcomesLossless (outcomes pair.other.outputs.items)
        → adds_in (input_values mine.now) ≤ 64 → adds_in (input_values other.now) ≤ 64
        → without_others sub (input_values mine.now) ≡ without_others sub (input_values other.now)
        → queue_shown sub pair.mine.world ≡ queue_shown sub pair.other.world) }
    ensures handed { IfOk result (λ pair. OutcomesLossless (outcomes pair.mine.outputs.items)
        → OutcomesLossless (outcomes pair.other.outputs.items)
        → adds_in (input_values mine.now) ≤ 64 → adds_in (input_values other.now) ≤ 64
        → without_others sub (input_values mine.now) ≡ without_others sub (input_values other.now)
        → handed_over sub (input_values mine.now) (outcomes pair.mine.outputs.items)
        ≡ handed_over sub (input_values other.now) (outcomes pair.other.outputs.items)) }
    ensures shared { IfOk result (λ pair. OutcomesLossless (outcomes pair.mine.outputs.items)
        → OutcomesLossless (outcomes pair.other.outputs.items)
        → SeeAlike sub (input_values mine.now) (input_values other.now)
        → ServesAlike sub pair.mine.world (input_values mine.now) (outcomes pair.mine.outputs.items)
        pair.other.world (input_values other.now) (outcomes pair.other.outputs.items)) }
    ensures bytes { IfOk result (λ pair. OutcomesLossless (outcomes pair.mine.outputs.items)
        → OutcomesLossless (outcomes pair.other.outputs.items)
        → adds_in (input_values mine.now) ≤ 64 → SameButUngranted sub (input_values mine.now) (input_values other.now)
        → ServesAlike sub pair.mine.world (input_values mine.now) (outcomes pair.mine.outputs.items)
        pair.other.world (input_values other.now) (outcomes pair.other.outputs.items)) }
    ensures memory { IfErr result (λ refusal. refusal ≡ Refusal.NoMemory) }
{
    neighbours_change_nothing();
    let first = run_anew(alloc, mine)?;
    match run_anew(alloc, other) {
        Ok(second) => Ok(Pair {
            mine: first,
            other: second,
        }),
        Err(refusal) => Err(refusal),
    }
}

/// What waits for the subscriber in both worlds: the same, where their queues show the same. The one refusal is `NoSuchSub`,
/// where it isn't there in one of them.
pub fn queues(pair: &Pair, sub: SubId) -> Result<(&OutQueue, &OutQueue), Refusal>
    ensures mine { IfOk result (λ both. queue_shown sub pair.now.mine.world ≡ Some both.0.now) }
    ensures other { IfOk result (λ both. queue_shown sub pair.now.other.world ≡ Some both.1.now) }
    ensures refused { IfErr result (λ refusal. (refusal ≡ Refusal.NoSuchSub)
        × ((queue_shown sub pair.now.mine.world ≡ None) ⊎ (queue_shown sub pair.now.other.world ≡ None))) }
    ensures same { IfOk result (λ both. queue_shown sub pair.now.mine.world ≡ queue_shown sub pair.now.other.world
        → both.0.now ≡ both.1.now) }
{
    let mine = pair.mine.world.queue(sub)?;
    let other = pair.other.world.queue(sub)?;
    Ok((mine, other))
}

//! The world.
ghost use Rattle.std.specs.Prelude.{◌≡◌, Err, true, nat_eq, is_some, Some, None, IfSome, IfOk, IfErr, OnErr, [], ◌∷◌, List, ◌++◌};
ghost use Rattle.pg_serve.specs.Shown.{queue_shown, link_counted, session_counted};
ghost use Rattle.pg_serve.specs.Taking.{held, TakesInputs};
ghost use Rattle.std.specs.Map.{lookup};
ghost use Rattle.pg_gateway.specs.State.{SharedMachine, slot_of};
ghost use Rattle.pg_gateway.specs.Shown.{GatewayShows};
ghost use Rattle.pg_serve.specs.WorldStates.{absence};
ghost use Rattle.pg_serve.specs.Inputs.{InputValue, Outcome, input_value, input_values, outcome, outcomes};
ghost use Rattle.pg_serve.specs.Headline.{HasAnswered, OutcomesLossless, Headline};
ghost use Rattle.pg_serve.specs.OwnStates.{OwnStates};
ghost use Rattle.pg_serve.specs.Beside.{StandsBeside};

use crate::input::{Input, Output};
use crate::world_core::{Core, absence};
use indexmap::IndexMap;
use pg_audit::PmuStats;
use pg_gateway::Gateway;
use pg_ring::OutQueue;
use pg_wire::{PmuId, Refusal, SubId};
use std::alloc::{AllocError, Global};
use std::marker::Model;

/// The gateway, a link for each source that has a registered PMU, and a session for each connected subscriber.
#[derive(Drop)]
pub struct World {
    core: Core,
    failed: bool,
}

impl Model for World {
    ghost use Rattle.pg_serve.specs.Shown.{WorldValue};

    ghost Value = { WorldValue };

    ghost view = { λ w. record {
      gateway = w.core.gateway;
      lines = w.core.lines.entries;
      sessions = w.core.sessions.entries;
      failed = w.failed;
    } };
}

impl World {
    /// A world without PMUs and subscribers. The one refusal is `NoMemory`.
    pub fn new(alloc: Global) -> Result<World, Refusal>
        ensures shows { IfOk result (λ w. HasAnswered w [] []) }
        ensures memory { IfErr result (λ refusal. refusal ≡ Refusal.NoMemory) }
    {
        Ok(World {
            core: Core {
                alloc,
                gateway: Gateway::new(alloc)?,
                lines: IndexMap::new(alloc),
                sessions: IndexMap::new(alloc),
                buffer: Vec::new(alloc),
            },
            failed: false,
        })
    }

    /// Takes the inputs, one after another, and answers each.
    ///
    /// Where no answer since the world was new reports a want of memory or a lost frame, each subscriber is what a private gateway
    /// makes of its own view of all inputs; and beside any other world of which it sees the same, its queue shows the same and
    /// it was handed the same, however blocks of shared frames differ that it is not granted.
    ///
    /// # Errors
    ///
    /// `NoMemory`, where there is none for an answer. From then on it answers that alone.
    pub fn run(&mut self, inputs: &[Input]) -> Result<Vec<Output>, Refusal>
        ensures answers { IfOk result (λ outputs. (before : List InputValue) (told : List Outcome) → HasAnswered self.old before told
            → HasAnswered self.new (before ++ input_values inputs.now) (told ++ outcomes outputs.items)) }
        ensures isolates { IfOk result (λ outputs. (before : List InputValue) (told : List Outcome) → HasAnswered self.old before told
            → OutcomesLossless (told ++ outcomes outputs.items)
            → Headline self.new (before ++ input_values inputs.now) (told ++ outcomes outputs.items)) }
        ensures own { IfOk result (λ outputs. (before : List InputValue) (told : List Outcome) → HasAnswered self.old before told
            → OutcomesLossless (told ++ outcomes outputs.items) → OwnStates self.new (before ++ input_values inputs.now)) }
        ensures beside { IfOk result (λ outputs. (before : List InputValue) (told : List Outcome) → HasAnswered self.old before told
            → OutcomesLossless (told ++ outcomes outputs.items)
            → StandsBeside self.new (before ++ input_values inputs.now) (told ++ outcomes outputs.items)) }
        ensures stays { self.old.failed ≡ true → self.new ≡ self.old }
        ensures fails { OnErr result (self.new.failed ≡ true) }
        ensures failed { self.old.failed ≡ true → result ≡ Err Refusal.NoMemory }
        ensures memory { IfErr result (λ refusal. refusal ≡ Refusal.NoMemory) }
    {
        if self.failed {
            return Err(Refusal::NoMemory);
        }
        // An early return leaves it so.
        self.failed = true;
        let outputs = run_all(&mut self.core, inputs)?;
        self.failed = false;
        Ok(outputs)
    }

    /// Takes one input, and answers it in place of what the output held: for inputs that come one after another. Where the input is
    /// bytes of a source the memory of the output is kept.
    ///
    /// What `run` promises of its inputs and answers holds of these.
    ///
    /// # Errors
    ///
    /// `NoMemory`, where there is none for an answer. From then on it answers that alone. The output then has nothing of use.
    pub fn take(&mut self, input: &Input, output: &mut Output) -> Result<(), Refusal>
        ensures answers { IfOk result (λ _. (before : List InputValue) (told : List Outcome) → HasAnswered self.old before told
            → HasAnswered self.new (before ++ input_value input.now ∷ []) (told ++ outcome output.new ∷ [])) }
        ensures isolates { IfOk result (λ _. (before : List InputValue) (told : List Outcome) → HasAnswered self.old before told
            → OutcomesLossless (told ++ outcome output.new ∷ [])
            → Headline self.new (before ++ input_value input.now ∷ []) (told ++ outcome output.new ∷ [])) }
        ensures own { IfOk result (λ _. (before : List InputValue) (told : List Outcome) → HasAnswered self.old before told
            → OutcomesLossless (told ++ outcome output.new ∷ []) → OwnStates self.new (before ++ input_value input.now ∷ [])) }
        ensures beside { IfOk result (λ _. (before : List InputValue) (told : List Outcome) → HasAnswered self.old before told
            → OutcomesLossless (told ++ outcome output.new ∷ [])
            → StandsBeside self.new (before ++ input_value input.now ∷ []) (told ++ outcome output.new ∷ [])) }
        ensures stays { self.old.failed ≡ true → (self.new ≡ self.old) × (output.new ≡ output.old) }
        ensures fails { OnErr result (self.new.failed ≡ true) }
        ensures failed { self.old.failed ≡ true → result ≡ Err Refusal.NoMemory }
        ensures memory { IfErr result (λ refusal. refusal ≡ Refusal.NoMemory) }
    {
        if self.failed {
            return Err(Refusal::NoMemory);
        }
        // An early return leaves it so.
        self.failed = true;
        self.core.take(input, output)?;
        self.failed = false;
        Ok(())
    }

    /// What waits for a subscriber to be handed out: the rest of the frame in hand, replies, data frames with their gaps, and
    /// how many more were dropped or lost behind them.
    ///
    /// # Errors
    ///
    /// `NoSuchSub`.
    pub fn queue(&self, sub: SubId) -> Result<&OutQueue, Refusal>
        ensures value { IfOk result (λ queue. queue_shown sub self.now ≡ Some queue.now) }
        ensures refused { IfErr result (λ refusal. (refusal ≡ Refusal.NoSuchSub) × (queue_shown sub self.now ≡ None)) }
    {
        match self.core.gateway.queue(sub) {
            Some(queue) => Ok(queue),
            None => Err(Refusal::NoSuchSub),
        }
    }

    /// What a source's link counted, of all bytes since it was made: the events that it gave, and the frames that it ignored
    /// by their reason.
    ///
    /// # Errors
    ///
    /// `NoSuchPmu` where the source has no link.
    pub fn link_stats(&self, source: PmuId) -> Result<&PmuStats, Refusal>
        ensures value { IfOk result (λ stats. link_counted source self.now ≡ Some stats.now) }
        ensures refused { IfErr result (λ refusal. (refusal ≡ Refusal.NoSuchPmu) × (link_counted source self.now ≡ None)) }
    {
        match self.core.lines.get(&source) {
            Some(line) => Ok(line.link.stats()),
            None => Err(Refusal::NoSuchPmu),
        }
    }

    /// What a subscriber's session counted, since its Connect: the commands that it gave, and the frames that it ignored by
    /// their reason.
    ///
    /// # Errors
    ///
    /// `NoSuchSub`; `NotConnected` where it has no session.
    pub fn session_stats(&self, sub: SubId) -> Result<&PmuStats, Refusal>
        ensures value { IfOk result (λ stats. session_counted sub self.now ≡ Some stats.now) }
        ensures none { IfErr result (λ refusal. session_counted sub self.now ≡ None) }
        ensures refused { IfErr result (λ refusal. (S : SharedMachine) → GatewayShows self.now.gateway S
            → refusal ≡ absence (is_some (slot_of sub S.subs))) }
    {
        match self.core.sessions.get(&sub) {
            Some(session) => Ok(session.stats()),
            None => Err(absence(&self.core.gateway, sub)),
        }
    }
}

/// Takes the inputs, one after another.
fn run_all(core: &mut Core, inputs: &[Input]) -> Result<Vec<Output>, AllocError>
    ensures takes { IfOk result (λ outputs. TakesInputs (held core.old) (input_values inputs.now) (outcomes outputs.items) (held core.new)) }
{
    let mut outputs = Vec::new(core.alloc);
    for input in inputs {
        let mut output = Output::new(core.alloc);
        core.take(input, &mut output)?;
        outputs.push(output)?;
    }
    Ok(outputs)
}

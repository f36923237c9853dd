//! The line to a source: its link, and when it is called.

ghost use Rattle.std.specs.Prelude.{◌≡◌, option_map, IfOk, IfErr};
ghost use Rattle.std.specs.Duration.{as_nanos};
ghost use Rattle.std.specs.Time.{instant_nanos};
ghost use Rattle.pg_audit.specs.Counting.{no_pmu_stats};
ghost use Rattle.pg_ingest.specs.Linking.{unfed};
ghost use Rattle.pg_ingest.specs.Runs.{wires};
ghost use Rattle.pg_ingest.specs.Served.{IsCall};
ghost use Rattle.pg_sources.specs.Connections.{Turned, check, hearing, questioned, settled, turn_after, unlinked, with_plan};
ghost use Rattle.pg_limits.specs.Plans.{addressed, asked, begun, called, due_by, ended, first_made, made, received, renewed, rested, sought};
ghost use Rattle.pg_service.specs.Posts.{passes};

use crate::quality_gate::QualityGate;
use pg_gateway::Gate;
use pg_ingest::{End, Link, run_link};
use pg_limits::{Action, Budget, CallPlan};
use pg_service::{ClockCheck, GateStats, Guards, MeteredGate};
use pg_wire::{PmuId, Refusal};
use std::alloc::Global;
use std::io::{Read, Write};
use std::marker::Model;
use std::time::{Duration, Instant};

/// The turns that a call of `run_link` takes at most. The budget of reads ends before.
const TURNS: u64 = 10_000;

/// How a source was served.
#[derive(Clone, Copy, PartialEq, Eq)]
pub enum Turn {
    /// Nothing is left to do until its socket is ready.
    Waits,
    /// Its reads were used up: bytes may still wait.
    More,
    /// The connection ended, and is to be closed.
    Ended(End),
}

/// The line to a source: its link, and when it is called. It knows neither sockets nor clocks.
#[derive(Drop)]
pub struct SourceConnection {
    link: Link,
    plan: CallPlan,
    guards: Guards,
}

impl Model for SourceConnection {
    ghost use Rattle.pg_sources.specs.Connections.{SourceState};

    ghost Value = { SourceState };

    ghost view = { λ l. record { link = l.link; plan = l.plan; guards = l.guards } };
}

impl SourceConnection {
    /// The line to a source that is to be called at once. A connection may be silent for `silence`, `None` for ever, and the times of its
    /// measurements as far from the clocks as `guards` say.
    ///
    /// # Errors
    ///
    /// `NoMemory`.
    pub fn new(
        alloc: Global,
        source: PmuId,
        silence: Option<Duration>,
        guards: Guards,
        now: Instant,
    ) -> Result<SourceConnection, Refusal>
        ensures state { IfOk result (λ l. l ≡ record { link = unfed source no_pmu_stats; plan = begun (instant_nanos now) (option_map as_nanos silence); guards = guards }) }
        ensures memory { IfErr result (λ refusal. refusal ≡ Refusal.NoMemory) }
    {
        Ok(SourceConnection {
            link: Link::new(alloc, source)?,
            plan: CallPlan::new(now, silence),
            guards,
        })
    }

    /// The source.
    pub fn source(&self) -> PmuId
        ensures { result ≡ self.now.link.source }
    {
        self.link.source()
    }

    /// Its link.
    pub fn link(&self) -> &Link
        ensures { result.now ≡ self.now.link }
    {
        &self.link
    }

    /// When it is called.
    pub fn plan(&self) -> &CallPlan
        ensures { result.now ≡ self.now.plan }
    {
        &self.plan
    }

    /// What is to be done by now.
    pub fn due(&self, now: Instant) -> Action
        ensures { result ≡ due_by (instant_nanos now) self.now.plan }
    {
        self.plan.due(now)
    }

    /// A call was begun.
    pub fn called(&mut self, now: Instant)
        ensures { self.new ≡ with_plan (called (instant_nanos now) self.old.plan) self.old }
    {
        self.plan.called(now);
    }

    /// Its name is looked up for a call.
    pub fn sought(&mut self, now: Instant)
        ensures { self.new ≡ with_plan (sought (instant_nanos now) self.old.plan) self.old }
    {
        self.plan.sought(now);
    }

    /// The connection was made.
    pub fn made(&mut self, now: Instant)
        ensures { self.new ≡ with_plan (made (instant_nanos now) self.old.plan) self.old }
    {
        self.plan.made(now);
    }

    /// A connection to its first address was made, in place of the one that stood: the link starts anew.
    pub fn first_made(&mut self, now: Instant)
        ensures { self.new ≡ with_plan (first_made (instant_nanos now) self.old.plan) (unlinked self.old) }
    {
        self.link.reset();
        self.plan.first_made(now);
    }

    /// It has so many addresses, and this one is called, or is to be called next.
    pub fn set_addresses(&mut self, count: usize, at: usize)
        ensures { self.new ≡ with_plan (addressed count at self.old.plan) self.old }
    {
        self.plan.set_addresses(count, at);
    }

    /// Bytes of it came.
    pub fn received(&mut self, now: Instant)
        ensures { self.new ≡ with_plan (received (instant_nanos now) self.old.plan) self.old }
    {
        self.plan.received(now);
    }

    /// It is asked again over its connection: command 5 is owed, and then command 2. The bytes and the configuration of the link stay.
    pub fn ask_again(&mut self)
        ensures { self.new ≡ with_plan (asked self.old.plan) (questioned self.old) }
    {
        self.link.ask_again();
        self.plan.asked();
    }

    /// The call failed or was given up, or the connection ended: the link starts anew, and the next address is to be called.
    pub fn ended(&mut self, now: Instant)
        ensures { self.new ≡ with_plan (ended (instant_nanos now) self.old.plan) (unlinked self.old) }
    {
        self.link.reset();
        self.plan.ended(now);
    }

    /// It is to be called anew, at once: the link starts anew.
    pub fn renew(&mut self, now: Instant)
        ensures { self.new ≡ with_plan (renewed (instant_nanos now) self.old.plan) (unlinked self.old) }
    {
        self.link.reset();
        self.plan.renew(now);
    }

    /// It is not to be called any more.
    pub fn rest(&mut self)
        ensures { self.new ≡ with_plan (rested self.old.plan) (unlinked self.old) }
    {
        self.link.reset();
        self.plan.rest();
    }

    /// Serves its connection until the reader's budget is used up, or it would block, and returns what went through the gate
    /// meanwhile. `clock` is this machine's, in milliseconds since 1970-01-01 00:00 UTC, and `reference` what the times of measurements may be
    /// ahead of. Where the connection ended or failed, the link starts anew.
    pub fn serve<R: Read, W: Write, G: Gate>(
        &mut self,
        reader: &mut Budget<R>,
        writer: &mut W,
        gate: &mut QualityGate<MeteredGate<G>>,
        now: Instant,
        clock: u64,
        reference: u64,
    ) -> (Turn, GateStats)
        // It posts what its bytes say and nothing else, but for the measurements that its guards do not take.
        ensures turned { Turned (instant_nanos now) reader.new.left result.0 result.1 self.old self.new
            (wires (R.remaining reader.old.reader) (W.contents writer.old) (G.posts gate.old.gate.gate) (passes (check self.old clock reference) (G.takes gate.old.gate.gate)))
            (wires (R.remaining reader.new.reader) (W.contents writer.new) (G.posts gate.new.gate.gate) (passes gate.new.gate.check (G.takes gate.new.gate.gate))) }
    {
        let check = ClockCheck {
            guards: self.guards,
            clock,
            reference,
        };
        let end = run_guarded(&mut self.link, check, reader, writer, gate);
        let seen = gate.gate.take_stats();
        self.hear(&seen, now);
        (self.settle(end, reader.is_used_up(), now), seen)
    }

    /// The plan goes by the announcements and measurements that came.
    fn hear(&mut self, seen: &GateStats, now: Instant)
        ensures { self.new ≡ record self.old { plan = hearing seen.now (instant_nanos now) self.old.plan } }
    {
        if let Some(rate) = seen.rate {
            self.plan.announced(now, rate);
        }
        if seen.measured > 0 {
            self.plan.measured(now);
        }
    }

    /// What is left to do after its loop ended so. Where the connection ended or failed, the link starts anew.
    fn settle(&mut self, end: End, is_used_up: bool, now: Instant) -> Turn
        ensures line { self.new ≡ settled end (instant_nanos now) self.old }
        ensures turn { result ≡ turn_after end is_used_up }
    {
        match end {
            End::Quiet if is_used_up => Turn::More,
            End::Quiet | End::Stalled => Turn::Waits,
            End::Closed | End::Fault(_) => {
                self.ended(now);
                Turn::Ended(end)
            }
        }
    }
}

/// One call of a link's loop, with its measurements guarded so.
fn run_guarded<R: Read, W: Write, G: Gate>(
    link: &mut Link,
    check: ClockCheck,
    reader: &mut Budget<R>,
    writer: &mut W,
    gate: &mut QualityGate<MeteredGate<G>>,
) -> End
    ensures call { IsCall result 10000 link.old link.new
        (wires (R.remaining reader.old.reader) (W.contents writer.old) (G.posts gate.old.gate.gate) (passes check (G.takes gate.old.gate.gate)))
        (wires (R.remaining reader.new.reader) (W.contents writer.new) (G.posts gate.new.gate.gate) (passes gate.new.gate.check (G.takes gate.new.gate.gate))) }
{
    gate.gate.guard(check);
    run_link(link, reader, writer, gate, TURNS)
}

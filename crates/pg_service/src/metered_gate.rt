//! A gate that shows what went through it.

ghost use Rattle.std.specs.Prelude.{◌≡◌, not, option_map, true, false};
ghost use Rattle.std.specs.Option.{option_map_or};
ghost use Rattle.pg_data.specs.Measurements.{resolution};
ghost use Rattle.pg_gateway.specs.GatewayEvents.{gateway_event};
ghost use Rattle.pg_limits.specs.Clocks.{is_ahead, is_near};
ghost use Rattle.pg_service.specs.Posts.{frame_in, frames_passed, is_timely, passes, takes_by};

use pg_command::{Command, Word};
use pg_config::SourceConfig;
use pg_data::DataFrame;
use pg_gateway::{Event, Gate, Reply};
use pg_limits::{AheadGuard, ClockGuard, Stamp, Switches};
use pg_wire::Refusal;
use std::mem;
use std::sync::Arc;

/// The bytes of a data frame before and behind its blocks (C37.118.2, 6.3).
const AROUND: usize = 16;

/// What went through a gate.
#[derive(Clone, Copy, PartialEq, Eq)]
pub struct GateStats {
    /// The data frames that its events made.
    pub made: u64,
    /// The events that made them.
    pub makers: u64,
    /// The bytes of the last measurement's frame, or 0.
    pub size: usize,
    /// The measurements.
    pub measured: u64,
    /// DATA_RATE of the last announcement, if there was one.
    pub rate: Option<i16>,
    /// The measurements that were refused as too far from this machine's clock (21), by the guard or by the gateway.
    pub far: u64,
    /// The time of the last of those.
    pub far_at: Option<Stamp>,
    /// The time of the last measurement.
    pub last: Stamp,
    /// The bytes that the last drain handed out.
    pub handed: usize,
    /// The frames that were dropped before those that were handed out.
    pub gap: u64,
    /// The streams that commands started or stopped.
    pub switched: Switches,
    /// The streams whose CFG-2 was put among the replies.
    pub configured: Switches,
    /// The drains.
    pub drains: u64,
}

impl GateStats {
    /// Nothing went through.
    pub fn nothing() -> GateStats {
        GateStats {
            made: 0,
            makers: 0,
            size: 0,
            measured: 0,
            rate: None,
            far: 0,
            far_at: None,
            last: Stamp {
                soc: 0,
                frac: 0,
                base: 1,
            },
            handed: 0,
            gap: 0,
            switched: Switches::none(),
            configured: Switches::none(),
            drains: 0,
        }
    }
}

impl GateStats {
    /// A measurement of this frame goes through.
    #[inline(always)]
    fn note_measurement(&mut self, frame: &DataFrame) {
        self.measured = self.measured.saturating_add(1);
        self.size = frame.body.len().saturating_add(AROUND);
        self.last = Stamp {
            soc: frame.soc,
            frac: frame.frac,
            base: frame.base(),
        };
    }

    /// The last measurement was refused as too far from the clock.
    fn note_far(&mut self) {
        self.far = self.far.saturating_add(1);
        self.far_at = Some(self.last);
    }

    /// Keeps that a command switched its stream, or had its CFG-2 put among the replies.
    fn note_command(&mut self, command: Command) {
        let Command { stream, word } = command;
        if word == Word::SendCfgTwo.number() {
            self.configured.switch(stream, true);
        } else {
            self.switched
                .switch(stream, word == Word::StartData.number());
        }
    }
}

/// How far the times of measurements may be from the clocks.
#[derive(Clone, Copy)]
pub struct Guards {
    /// From this machine's clock, either way; `None` for any.
    pub near: Option<ClockGuard>,
    /// Ahead of the reference: of this machine's clock, and of the times of most sources; `None` for any.
    pub ahead: Option<AheadGuard>,
}

impl Guards {
    /// Measurements of any time are taken.
    pub fn none() -> Guards {
        Guards {
            near: None,
            ahead: None,
        }
    }
}

/// Guards, with the clocks that measurements are held against.
#[derive(Clone, Copy)]
pub struct ClockCheck {
    /// The guards.
    pub guards: Guards,
    /// This machine's clock: milliseconds since 1970-01-01 00:00 UTC.
    pub clock: u64,
    /// This machine's clock, or the lower median of the newest times of all connected sources where that is later; in the same.
    pub reference: u64,
}

impl ClockCheck {
    /// Measurements of any time are taken.
    pub fn none() -> ClockCheck {
        ClockCheck {
            guards: Guards::none(),
            clock: 0,
            reference: 0,
        }
    }

    /// Whether a measurement's time is near enough to this machine's clock.
    fn is_near(&self, frame: &DataFrame) -> bool
        ensures { result ≡ option_map_or (λ near. is_near near.limit self.now.clock frame.now.soc frame.now.frac (resolution frame.now.config)) self.now.guards.near true }
    {
        match self.guards.near {
            Some(near) => near.is_near(self.clock, frame.soc, frame.frac, frame.base()),
            None => true,
        }
    }

    /// Whether a measurement's time is too far ahead of the reference.
    fn is_ahead(&self, frame: &DataFrame) -> bool
        ensures { result ≡ option_map_or (λ ahead. is_ahead ahead.limit self.now.reference frame.now.soc frame.now.frac (resolution frame.now.config)) self.now.guards.ahead false }
    {
        match self.guards.ahead {
            Some(ahead) => ahead.is_ahead(self.reference, frame.soc, frame.frac, frame.base()),
            None => false,
        }
    }

    /// Whether a measurement is taken.
    #[inline(always)]
    fn is_timely(&self, frame: &DataFrame) -> bool
        ensures { result ≡ is_timely self.now frame.now }
    {
        self.is_near(frame) && !self.is_ahead(frame)
    }
}

/// A gate that keeps count of what went through it, and refuses the measurements that its guards do not take. All else is answered
/// as by the gate inside, and so what was posted is what was posted there.
#[derive(Drop)]
pub struct MeteredGate<G> {
    /// The gate inside.
    pub gate: G,
    /// How measurements are guarded.
    pub check: ClockCheck,
    /// What went through it since it was asked last.
    pub seen: GateStats,
    /// The configuration that was announced last, until it is taken.
    pub announced: Option<Arc<SourceConfig>>,
}

impl<G: Gate> MeteredGate<G> {
    /// A gate through which nothing went.
    pub fn new(gate: G) -> MeteredGate<G>
        ensures gate { result.gate ≡ gate }
    {
        MeteredGate {
            gate,
            check: ClockCheck::none(),
            seen: GateStats::nothing(),
            announced: None,
        }
    }

    /// From now on measurements are guarded by this.
    pub fn guard(&mut self, check: ClockCheck)
        ensures state { self.new ≡ record self.old { check = check } }
    {
        self.check = check;
    }

    /// What went through it since it was asked last.
    pub fn take_stats(&mut self) -> GateStats
        ensures seen { result ≡ self.old.seen }
        ensures gate { self.new.gate ≡ self.old.gate }
        ensures same { self.new.check ≡ self.old.check }
    {
        mem::replace(&mut self.seen, GateStats::nothing())
    }

    /// The configuration that was announced last, if one was since it was taken.
    pub fn take_announced(&mut self) -> Option<Arc<SourceConfig>>
        ensures gate { self.new.gate ≡ self.old.gate }
        ensures same { self.new.check ≡ self.old.check }
    {
        self.announced.take()
    }

    /// The bytes that the last drain handed out.
    pub fn handed(&self) -> usize
        ensures { result ≡ self.now.seen.handed }
    {
        self.seen.handed
    }

    /// The gate inside.
    pub fn into_inner(self) -> G
        ensures { result ≡ self.gate }
    {
        let MeteredGate { gate, .. } = self;
        gate
    }

    /// Counts an event, and returns whether it is to be refused.
    #[inline(always)]
    fn refuses(&mut self, event: &Event) -> bool
        ensures gate { self.new.gate ≡ self.old.gate }
        ensures same { self.new.check ≡ self.old.check }
        ensures takes { result ≡ not (takes_by self.old.check (gateway_event event.now)) }
    {
        if let Event::Announce(config) = event {
            self.note_announcement(config);
        }
        match frame_in(event) {
            Some(frame) => {
                self.seen.note_measurement(frame);
                let is_timely = self.check.is_timely(frame);
                if !is_timely {
                    self.seen.note_far();
                }
                !is_timely
            }
            None => false,
        }
    }

    /// Keeps what is announced.
    fn note_announcement(&mut self, config: &Arc<SourceConfig>)
        ensures gate { self.new.gate ≡ self.old.gate }
        ensures same { self.new.check ≡ self.old.check }
    {
        self.seen.rate = match config.parts.first() {
            Some(part) => Some(part.rate),
            None => None,
        };
        self.announced = Arc::try_clone(config).ok();
    }
}

/// The data frame that an event is, if it is one.
#[inline(always)]
fn frame_in(event: &Event) -> Option<&DataFrame>
    ensures { option_map (λ f. f.now) result ≡ frame_in (gateway_event event.now) }
{
    match event {
        Event::Measure(frame) => Some(frame),
        Event::AddPmu(_)
        | Event::DropPmu(_)
        | Event::AddSub(..)
        | Event::DropSub(_)
        | Event::Grant(..)
        | Event::Revoke(..)
        | Event::Define(..)
        | Event::Remove(..)
        | Event::Announce(_)
        | Event::Tick(_)
        | Event::Connect(_)
        | Event::Hangup(_)
        | Event::Command(..)
        | Event::Drain(..)
        | Event::Stats(_)
        | Event::PmuStats(_)
        | Event::WhoWaits(_)
        | Event::Audit(..)
        | Event::Standing(..) => None,
    }
}

impl<G: Gate> Gate for MeteredGate<G> {
    ghost posts = { λ w. G.posts w.gate };

    ghost takes = { λ w. passes w.check (G.takes w.gate) };

    ghost goes_on = { λ v w. G.goes_on v.gate w.gate };

    ghost frames = { λ w. frames_passed w.check (G.takes w.gate) (G.frames w.gate) };

    ghost stays = { λ w. G.stays w.gate };

    ghost joins = { λ v w x. G.joins v.gate w.gate x.gate };

    /// Posts at the gate inside. It is inlined where it is called, as the gates inside are, so that a data frame's reply, which has room
    /// for all counters, is neither filled nor moved: its tag is known there, and of its fields the two numbers alone are used.
    #[inline(always)]
    fn post(&mut self, event: Event) -> Reply {
        if self.refuses(&event) {
            return Reply::Refused(Refusal::FarClock);
        }
        let command = noted_in(&event);
        let reply = self.gate.post(event);
        match &reply {
            Reply::Done { made, .. } => {
                self.seen.made = self.seen.made.saturating_add(*made);
                if *made > 0 {
                    self.seen.makers = self.seen.makers.saturating_add(1);
                }
                if let Some(command) = command {
                    self.seen.note_command(command);
                }
            }
            Reply::Drained { out, .. } => {
                self.seen.handed = 0;
                self.seen.drains = self.seen.drains.saturating_add(1);
                if let Ok(drained) = out {
                    self.seen.handed = drained.len;
                    self.seen.gap = self.seen.gap.saturating_add(drained.gap);
                }
            }
            // Of all that is posted a measurement alone is refused so.
            Reply::Refused(Refusal::FarClock) => self.seen.note_far(),
            _ => {}
        }
        reply
    }
}

/// The command that an event is, if it is one to start or to stop a stream or to send its CFG-2.
#[inline(always)]
fn noted_in(event: &Event) -> Option<Command> {
    match event {
        Event::Command(_, command) => match Word::of(command.word) {
            Some(Word::StartData | Word::StopData | Word::SendCfgTwo) => Some(*command),
            _ => None,
        },
        _ => None,
    }
}

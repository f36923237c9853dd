//! One subscriber: a private gateway of its own.

ghost use Rattle.std.specs.Prelude.{◌≡◌, ◌+◌, ◌<◌, ◌≤◌, [], ◌∷◌, ℕ, List, Option, Some, length, map, vec_len, All, IfOk, IfErr, IsOk, IsTrue, true, false, replicate};
ghost use Rattle.std.specs.Arc.{arc_value};
ghost use Rattle.std.specs.Bool.{Decides};
ghost use Rattle.pg_entitle.specs.Grants.{has_key};
ghost use Rattle.pg_session.specs.Events.{SubscriberEvent, subscriber_event, config_of, announced_at, announce, grant, tick, connect, hangup, revoke, remove, drain, command, define, samples_at, measure};
ghost use Rattle.pg_config.specs.Parts.{Part};
ghost use Rattle.pg_session.specs.Private.{told};
ghost use Rattle.pg_session.specs.Ready.{Accepts, AreHeld, AreOwn, ArePlaces, IsPlain, IsReady, KeepsBuffer, NeedsNone, ReturnsBuffer};
ghost use Rattle.pg_session.specs.Shown.{Model, SubscriberValue, ShowsPrivate, Takes, begin};
ghost use Rattle.pg_session.specs.Standing.{standing_of, own_standing};
ghost use Rattle.pg_session.specs.Steps.{Steps, MakesFew, HasNoCopies};
ghost use Rattle.pg_session.specs.Fields.{NeedNoCopies, Serving, Obeys, MayRefuse};
ghost use Rattle.pg_session.specs.Filling.{IsPreparedFor, count_keeping};
ghost use Rattle.pg_data.specs.Pieces.{piece_of};
ghost use Rattle.pg_session.specs.Wanted.{all_wanted, granted_wanted};

use crate::accepting::{are_copies, are_held, are_own, are_places, are_wanted, is_copy};
use crate::change::Change;
use crate::copying::{copy_blocks, copy_for_each, copy_parts, prepare_config};
use crate::event::{PrivateEvent, PrivateReply};
use crate::listing::{list_all, list_one};
use crate::output::Output;
use crate::reply::{is_question, send_reply, word_at};
use crate::standing::{MemberPlace, Standing};
use crate::stream::Stream;
use crate::streams::{
    are_filled, measure_all, measure_all_filled, measure_all_one, remove_streams, reshape_all,
    stop_all, stream_of, stream_standing_at, switch_streams, tick_all,
};
use circular_buffer::HeapCircularBuffer;
use pg_audit::Stats;
use pg_command::Command;
use pg_config::{PmuConfig, SourceConfig};
use pg_data::{DataFrame, SharedBlock};
use pg_entitle::Grants;
use pg_outcfg::{ConfigList, StampCache};
use pg_ring::{OutQueue, RingBytes, RingSize};
use pg_stream::{Definition, check_definition};
use pg_wire::{PmuKey, Refusal, StreamId};
use std::alloc::Global;
use std::marker::Model;
use std::sync::Arc;

/// The most streams of a subscriber.
const MOST_STREAMS: usize = 8;

/// The most references that an event needs: to blocks 16 for each stream, to configurations 16.
const MOST_BLOCKS: usize = 128;

const MOST_CONFIGS: usize = 16;

/// One subscriber: its grants, its streams, its queue and its counters. Nothing that it holds speaks of another.
#[derive(Drop)]
pub struct Subscriber {
    alloc: Global,
    connected: bool,
    grants: Grants,
    listed: ConfigList,
    streams: Vec<Stream>,
    output: Output,
    last_tick: Option<u32>,
    blocks: HeapCircularBuffer<SharedBlock>,
    configs: HeapCircularBuffer<Arc<PmuConfig>>,
    // How many streams were defined, modulo 2^64.
    definitions: u64,
}

impl Model for Subscriber {
    ghost use Rattle.std.specs.Prelude.{map, vec_capacity};
    ghost use Rattle.std.specs.Arc.{arc_value};
    ghost use Rattle.pg_session.specs.Shown.{SubscriberValue};
    ghost use Rattle.pg_session.specs.Fields.{SubscriberIsKept};

    ghost Value = { SubscriberValue };

    ghost view = { λ s. record {
      own = record {
        connected = s.connected;
        grants = s.grants;
        listed = s.listed;
        streams = s.streams.items;
        output = s.output.output;
        last_tick = s.last_tick;
        definitions = s.definitions;
      };
      blocks = s.blocks.items;
      configs = map arc_value s.configs.items;
    } };

    ghost invariant = { λ s. SubscriberIsKept (record {
      own = record {
        connected = s.connected;
        grants = s.grants;
        listed = s.listed;
        streams = s.streams.items;
        output = s.output.output;
        last_tick = s.last_tick;
        definitions = s.definitions;
      };
      blocks = s.blocks.items;
      configs = map arc_value s.configs.items;
    }) (vec_capacity s.streams) s.blocks.capacity s.configs.capacity };
}

impl Subscriber {
    /// A subscriber that is not connected and has no grant and no stream, with this ring and these ring bytes; `last` is the SOC
    /// of the last tick, if there was one. All that later events need but streams and frames is reserved. The one refusal is
    /// `NoMemory`.
    pub fn new(
        alloc: Global,
        ring: RingSize,
        bytes: RingBytes,
        last: Option<u32>,
    ) -> Result<Subscriber, Refusal>
        ensures shows { IfOk result (λ s. ShowsPrivate s (begin ring bytes last)) }
        ensures none { IfOk result HasNoCopies }
        ensures memory { IfErr result (λ refusal. refusal ≡ Refusal.NoMemory) }
    {
        Ok(Subscriber {
            alloc,
            connected: false,
            grants: Grants::new(alloc)?,
            listed: ConfigList::new(alloc)?,
            streams: Vec::with_capacity(alloc, MOST_STREAMS)?,
            output: Output::new(alloc, ring, bytes)?,
            last_tick: last,
            blocks: HeapCircularBuffer::with_capacity(alloc, MOST_BLOCKS)?,
            configs: HeapCircularBuffer::with_capacity(alloc, MOST_CONFIGS)?,
            definitions: 0,
        })
    }

    /// Whether a PMU is granted.
    pub fn holds(&self, key: PmuKey) -> bool
        ensures value { result ≡ has_key self.now.own.grants key }
    {
        self.grants.holds(key)
    }

    /// Whether the subscriber is connected.
    pub fn is_connected(&self) -> bool
        ensures value { result ≡ self.now.own.connected }
    {
        self.connected
    }

    /// How many PMUs are granted: at most 32.
    pub fn grant_count(&self) -> usize
        ensures value { result ≡ length self.now.own.grants }
        ensures few { result ≤ 32 }
    {
        self.grants.len()
    }

    /// How many streams are defined: at most 8.
    pub fn stream_count(&self) -> usize
        ensures value { result ≡ length self.now.own.streams }
        ensures few { result ≤ 8 }
    {
        self.streams.len()
    }

    /// What waits to be handed out.
    pub fn queue(&self) -> &OutQueue
        ensures value { result.now ≡ self.now.own.output.queue }
    {
        self.output.queue()
    }

    /// How the subscriber stands: what waits for it, and the stream and the member at this place.
    pub fn standing(&self, place: MemberPlace) -> Standing
        ensures value { (p : Model) → ShowsPrivate self.now p → result ≡ standing_of p place }
        // the same of what is kept, whatever state that shows
        ensures kept { result ≡ own_standing self.now.own place }
    {
        let queue = self.output.queue();
        Standing {
            frames: queue.frames_to_leave(),
            bytes: queue.bytes_to_leave(),
            stream: stream_standing_at(&self.streams, place, &self.grants, &self.listed),
        }
    }

    /// The counters.
    pub fn stats(&self) -> &Stats
        ensures value { result.now ≡ self.now.own.output.stats }
    {
        self.output.stats()
    }

    /// Whether the subscriber takes the event: an announcement of granted PMUs alone; a measurement of granted PMUs alone, each
    /// with the configuration that is listed for it; both of some places of the frame, in its order; and a grant with a
    /// configuration of its PMU, or none. It takes all others.
    pub fn accepts(&self, event: &PrivateEvent<'_>) -> bool
        ensures { Decides result (Accepts self.now event.now) }
    {
        match event {
            PrivateEvent::Grant(key, Some(config)) => config.pmu() == key.pmu,
            PrivateEvent::Announce(config, places) => {
                are_places(config.count(), places) && are_own(&self.grants, config, places)
            }
            PrivateEvent::Measure(frame, places) => {
                are_places(frame.count(), places)
                    && are_held(&self.grants, &self.listed, frame, places)
            }
            _ => true,
        }
    }

    /// Prepares the copies that an event needs, before anything changes. Those that lay ready before are given up. Where the event
    /// needs none it takes no memory.
    ///
    /// # Errors
    ///
    /// `NoMemory`, and then no copy lies ready.
    #[inline(always)]
    pub fn copies(&mut self, event: &PrivateEvent<'_>) -> Result<(), Refusal>
        requires accepts { Accepts self.old event.now }
        ensures ready { IfOk result (λ u. IsReady self.new (subscriber_event event.now)) }
        ensures none { IfErr result (λ refusal. HasNoCopies self.new) }
        ensures memory { IfErr result (λ refusal. refusal ≡ Refusal.NoMemory) }
        ensures needless { NeedsNone self.old (subscriber_event event.now) → IsOk result }
        ensures own { self.new.own ≡ self.old.own }
    {
        self.forget();
        match self.prepare(event) {
            Ok(_) => Ok(()),
            Err(refusal) => {
                self.forget();
                Err(refusal)
            }
        }
    }

    /// Whether just the copies lie ready that an event needs. Any event may be asked about: a place that its frame does not have
    /// needs none.
    pub fn ready(&self, event: &PrivateEvent<'_>) -> bool
        ensures { Decides result (IsReady self.now (subscriber_event event.now)) }
    {
        match event {
            PrivateEvent::Grant(key, Some(config)) => {
                self.blocks.is_empty() && self.is_granted_ready(key, config)
            }
            PrivateEvent::Announce(config, places) => {
                self.blocks.is_empty() && are_copies(config, places, &self.configs)
            }
            PrivateEvent::Measure(frame, places) => {
                self.configs.is_empty() && are_wanted(frame, places, &self.streams, &self.blocks)
            }
            _ => self.blocks.is_empty() && self.configs.is_empty(),
        }
    }

    /// Whether just the copy lies ready that a grant needs.
    fn is_granted_ready(&self, key: &PmuKey, config: &PmuConfig) -> bool
        ensures { Decides result (self.now.configs ≡ granted_wanted self.now.own.grants key.now (Some config.now)) }
    {
        if self.grants.holds(*key) || self.grants.is_full() {
            return self.configs.is_empty();
        }
        self.configs.len() == 1 && is_copy(&self.configs, 0, config)
    }

    /// Prepares the copies that an event needs, where none lie.
    #[inline(always)]
    fn prepare(&mut self, event: &PrivateEvent<'_>) -> Result<(), Refusal>
        requires accepts { Accepts self.old event.now }
        requires none { HasNoCopies self.old }
        ensures ready { IfOk result (λ u. IsReady self.new (subscriber_event event.now)) }
        ensures memory { IfErr result (λ refusal. refusal ≡ Refusal.NoMemory) }
        ensures needless { NeedsNone self.old (subscriber_event event.now) → IsOk result }
        ensures own { self.new.own ≡ self.old.own }
    {
        match event {
            PrivateEvent::Grant(key, Some(config)) => self.prepare_granted(key, config),
            PrivateEvent::Announce(config, places) => {
                copy_parts(config, places, &mut self.configs)
            }
            PrivateEvent::Measure(frame, places) => {
                copy_blocks(frame, places, &self.streams, &mut self.blocks)
            }
            _ => Ok(()),
        }
    }

    /// Prepares the copy that a grant needs: of what the PMU has announced, where it is granted anew.
    #[inline(never)]
    fn prepare_granted(&mut self, key: &PmuKey, config: &Arc<PmuConfig>) -> Result<(), Refusal>
        requires none { HasNoCopies self.old }
        ensures blocks { self.new.blocks ≡ [] }
        ensures configs { IfOk result (λ u. self.new.configs ≡ granted_wanted self.old.own.grants key.now (Some (arc_value config.now))) }
        ensures memory { IfErr result (λ refusal. refusal ≡ Refusal.NoMemory) }
        ensures needless { granted_wanted self.old.own.grants key.now (Some (arc_value config.now)) ≡ [] → IsOk result }
        ensures own { self.new.own ≡ self.old.own }
    {
        if self.grants.holds(*key) {
            return Ok(());
        }
        if self.grants.is_full() {
            return Ok(());
        }
        prepare_config(config, &mut self.configs)?;
        Ok(())
    }

    /// Gives up the copies that lie ready. Nothing else changes.
    #[inline(always)]
    pub fn forget(&mut self)
        ensures none { HasNoCopies self.new }
        ensures own { self.new.own ≡ self.old.own }
    {
        // Mostly none lie.
        if !self.blocks.is_empty() {
            self.blocks.clear();
        }
        if !self.configs.is_empty() {
            self.configs.clear();
        }
    }

    /// Takes an event: one step of the private gateway. With `lost` every data frame that it makes is a number without a
    /// frame; else those that find no memory are, from the first such on. Afterwards no copy lies ready.
    ///
    /// It asks for an event that the subscriber accepts, and that just the copies that it needs lie ready.
    ///
    /// # Errors
    ///
    /// The reply is `Refused` with the first that holds: of a grant `GrantsFull`; of a revoke `NotGranted`; of a definition
    /// `BadDefinition`, `StreamExists`, `StreamsFull`, `NoMemory`; of a removal `NoSuchStream`; of a connect `Busy`; of a
    /// hang-up `NotConnected`; of a command `NotConnected`, `NoSuchStream`, `UnknownCommand`, `Unsupported`, and where it asks
    /// for a reply `ReplyFull`, `NoMemory`. A drain is answered with its buffer, and with `NotConnected`.
    // Each caller names its event, so that of the match nothing is left where it is inlined.
    #[inline(always)]
    pub fn take(&mut self, event: PrivateEvent<'_>, lost: bool) -> PrivateReply
        requires accepts { Accepts self.old event }
        requires ready { IsReady self.old (subscriber_event event) }
        ensures takes { Takes self.old (subscriber_event event.entry) lost (told result) self.new }
        // the same of what is kept, whatever state that shows
        ensures steps { Steps self.old (subscriber_event event.entry) lost (told result) self.new }
        ensures few { MakesFew (told result) }
        ensures buffer { KeepsBuffer event.entry result }
        ensures none { HasNoCopies self.new }
    {
        match event {
            PrivateEvent::Grant(key, _) => self.grant(key, lost),
            PrivateEvent::Revoke(key) => self.revoke(key, lost),
            PrivateEvent::Announce(config, places) => self.announce(config, places, lost),
            PrivateEvent::Measure(frame, places) => {
                self.measure(frame, places, lost, &mut StampCache::new())
            }
            PrivateEvent::Define(definition) => self.define(definition, lost),
            PrivateEvent::Remove(stream) => self.remove(stream, lost),
            PrivateEvent::Tick(soc) => self.tick(soc, lost),
            PrivateEvent::Connect => self.connect(lost),
            PrivateEvent::Hangup => self.hang_up(lost),
            PrivateEvent::Command(asked) => self.command(&asked, lost),
            PrivateEvent::Drain(buf) => self.drain(buf, lost),
        }
    }

    /// Prepares the copies that a data frame needs, before anything changes, as `copies` does; but none where its blocks leave no slot of a
    /// stream open behind them, and of an only block one for each stream where it may stay. Those that lay ready before are given up.
    ///
    /// # Errors
    ///
    /// `NoMemory`, and then no copy lies ready.
    #[inline(always)]
    pub fn prepare_frame(
        &mut self,
        frame: &Arc<DataFrame>,
        places: &[usize],
        stamps: &mut StampCache,
    ) -> Result<(), Refusal>
        requires places { ArePlaces (length (arc_value frame.now).config.parts) places.now }
        requires held { AreHeld self.old.own.grants self.old.own.listed (samples_at (arc_value frame.now) places.now) }
        ensures prepared { IfOk result (λ u. IsPreparedFor self.new (measure (arc_value frame.now).soc (arc_value frame.now).quality (arc_value frame.now).frac (samples_at (arc_value frame.now) places.now))) }
        ensures none { IfErr result (λ refusal. HasNoCopies self.new) }
        ensures memory { IfErr result (λ refusal. refusal ≡ Refusal.NoMemory) }
        ensures needless { NeedsNone self.old (measure (arc_value frame.now).soc (arc_value frame.now).quality (arc_value frame.now).frac (samples_at (arc_value frame.now) places.now)) → IsOk result }
        ensures own { self.new.own ≡ self.old.own }
    {
        if places.len() != 1 {
            return self.prepare_just(frame, places, stamps);
        }
        self.forget();
        self.prepare_block(frame, places[0], stamps)
    }

    /// Prepares the copies that a frame's only block needs, as `prepare_frame` does, where none lie ready.
    ///
    /// # Errors
    ///
    /// `NoMemory`, and then no copy lies ready.
    #[inline(always)]
    pub fn prepare_block(
        &mut self,
        frame: &Arc<DataFrame>,
        place: usize,
        stamps: &mut StampCache,
    ) -> Result<(), Refusal>
        requires place { place < length (arc_value frame.now).config.parts }
        requires held { AreHeld self.old.own.grants self.old.own.listed (samples_at (arc_value frame.now) (place ∷ [])) }
        requires none { HasNoCopies self.old }
        ensures prepared { IfOk result (λ u. IsPreparedFor self.new (measure (arc_value frame.now).soc (arc_value frame.now).quality (arc_value frame.now).frac (samples_at (arc_value frame.now) (place ∷ [])))) }
        ensures none { IfErr result (λ refusal. HasNoCopies self.new) }
        ensures memory { IfErr result (λ refusal. refusal ≡ Refusal.NoMemory) }
        ensures needless { NeedsNone self.old (measure (arc_value frame.now).soc (arc_value frame.now).quality (arc_value frame.now).frac (samples_at (arc_value frame.now) (place ∷ []))) → IsOk result }
        ensures own { self.new.own ≡ self.old.own }
    {
        if self.prepare_one(frame, place) {
            return Ok(());
        }
        self.prepare_just(frame, &[place], stamps)
    }

    /// Prepares a copy of a frame's only block for each stream where it may stay. The answer is whether there was memory.
    #[inline(always)]
    fn prepare_one(&mut self, frame: &Arc<DataFrame>, place: usize) -> bool
        requires place { place < length (arc_value frame.now).config.parts }
        requires none { HasNoCopies self.old }
        ensures blocks { IsTrue result → self.new.blocks ≡ replicate (count_keeping self.new.own.streams) (piece_of (arc_value frame.now) place) }
        ensures configs { self.new.configs ≡ [] }
        ensures own { self.new.own ≡ self.old.own }
    {
        copy_for_each(frame, place, &self.streams, &mut self.blocks).is_ok()
    }

    /// Prepares just the copies that a data frame asks for, or none, where its blocks leave no slot of a stream open behind them.
    #[inline(never)]
    fn prepare_just(
        &mut self,
        frame: &Arc<DataFrame>,
        places: &[usize],
        stamps: &mut StampCache,
    ) -> Result<(), Refusal>
        requires places { ArePlaces (length (arc_value frame.now).config.parts) places.now }
        requires held { AreHeld self.old.own.grants self.old.own.listed (samples_at (arc_value frame.now) places.now) }
        ensures prepared { IfOk result (λ u. IsPreparedFor self.new (measure (arc_value frame.now).soc (arc_value frame.now).quality (arc_value frame.now).frac (samples_at (arc_value frame.now) places.now))) }
        ensures none { IfErr result (λ refusal. HasNoCopies self.new) }
        ensures memory { IfErr result (λ refusal. refusal ≡ Refusal.NoMemory) }
        ensures needless { NeedsNone self.old (measure (arc_value frame.now).soc (arc_value frame.now).quality (arc_value frame.now).frac (samples_at (arc_value frame.now) places.now)) → IsOk result }
        ensures own { self.new.own ≡ self.old.own }
    {
        if are_filled(frame, places, &self.streams, stamps) {
            self.forget();
            return Ok(());
        }
        self.copies(&PrivateEvent::Measure(frame, places))?;
        Ok(())
    }

    /// Applies a data frame's blocks: the same step as `take` of them, where just the copies lie ready that `prepare_frame` prepares. Afterwards
    /// no copy lies ready.
    #[inline(always)]
    pub fn apply_frame(
        &mut self,
        frame: &Arc<DataFrame>,
        places: &[usize],
        lost: bool,
        stamps: &mut StampCache,
    ) -> PrivateReply
        requires places { ArePlaces (length (arc_value frame.now).config.parts) places.now }
        requires held { AreHeld self.old.own.grants self.old.own.listed (samples_at (arc_value frame.now) places.now) }
        requires prepared { IsPreparedFor self.old (measure (arc_value frame.now).soc (arc_value frame.now).quality (arc_value frame.now).frac (samples_at (arc_value frame.now) places.now)) }
        ensures takes { Takes self.old (measure (arc_value frame.now).soc (arc_value frame.now).quality (arc_value frame.now).frac (samples_at (arc_value frame.now) places.now)) lost (told result) self.new }
        // the same of what is kept, whatever state that shows
        ensures steps { Steps self.old (measure (arc_value frame.now).soc (arc_value frame.now).quality (arc_value frame.now).frac (samples_at (arc_value frame.now) places.now)) lost (told result) self.new }
        ensures few { MakesFew (told result) }
        ensures plain { IsPlain result }
        ensures none { HasNoCopies self.new }
    {
        if places.len() == 1 {
            return self.measure_one(frame, places[0], lost, stamps);
        }
        if self.blocks.is_empty() {
            return self.measure_filled(frame, places, lost, stamps);
        }
        self.measure(frame, places, lost, stamps)
    }

    /// Applies a frame's only block: the same step as `apply_frame` of it.
    #[inline(always)]
    pub fn apply_block(
        &mut self,
        frame: &Arc<DataFrame>,
        place: usize,
        lost: bool,
        stamps: &mut StampCache,
    ) -> PrivateReply
        requires place { place < length (arc_value frame.now).config.parts }
        requires held { AreHeld self.old.own.grants self.old.own.listed (samples_at (arc_value frame.now) (place ∷ [])) }
        requires prepared { IsPreparedFor self.old (measure (arc_value frame.now).soc (arc_value frame.now).quality (arc_value frame.now).frac (samples_at (arc_value frame.now) (place ∷ []))) }
        ensures takes { Takes self.old (measure (arc_value frame.now).soc (arc_value frame.now).quality (arc_value frame.now).frac (samples_at (arc_value frame.now) (place ∷ []))) lost (told result) self.new }
        // the same of what is kept, whatever state that shows
        ensures steps { Steps self.old (measure (arc_value frame.now).soc (arc_value frame.now).quality (arc_value frame.now).frac (samples_at (arc_value frame.now) (place ∷ []))) lost (told result) self.new }
        ensures few { MakesFew (told result) }
        ensures plain { IsPlain result }
        ensures none { HasNoCopies self.new }
    {
        self.measure_one(frame, place, lost, stamps)
    }

    /// A granted PMU's block came alone. Copies of it lie ready, enough for all streams.
    #[inline(always)]
    fn measure_one(
        &mut self,
        frame: &DataFrame,
        place: usize,
        lost: bool,
        stamps: &mut StampCache,
    ) -> PrivateReply
        requires place { place < length frame.now.config.parts }
        requires held { AreHeld self.old.own.grants self.old.own.listed (samples_at frame.now (place ∷ [])) }
        requires serving { Serving self.old frame.now.quality (samples_at frame.now (place ∷ [])) (piece_of frame.now place) }
        ensures steps { Steps self.old (measure frame.now.soc frame.now.quality frame.now.frac (samples_at frame.now (place ∷ []))) lost (told result) self.new }
        ensures none { HasNoCopies self.new }
        ensures few { MakesFew (told result) }
        ensures plain { IsPlain result }
    {
        self.output.begin(lost);
        measure_all_one(
            self.alloc,
            &self.listed,
            frame,
            place,
            &mut self.streams,
            &mut self.blocks,
            stamps,
            &mut self.output,
        );
        self.output.done()
    }

    /// Blocks of granted PMUs came that leave no slot of a stream open behind them, or are no member's. No copies lie ready.
    #[inline(always)]
    fn measure_filled(
        &mut self,
        frame: &DataFrame,
        places: &[usize],
        lost: bool,
        stamps: &mut StampCache,
    ) -> PrivateReply
        requires places { ArePlaces (length frame.now.config.parts) places.now }
        requires held { AreHeld self.old.own.grants self.old.own.listed (samples_at frame.now places.now) }
        requires filled { NeedNoCopies frame.now.soc frame.now.quality frame.now.frac (samples_at frame.now places.now) self.old.own.streams }
        requires none { HasNoCopies self.old }
        ensures steps { Steps self.old (measure frame.now.soc frame.now.quality frame.now.frac (samples_at frame.now places.now)) lost (told result) self.new }
        ensures none { HasNoCopies self.new }
        ensures few { MakesFew (told result) }
        ensures plain { IsPlain result }
    {
        let _count = frame.count();
        self.output.begin(lost);
        measure_all_filled(
            self.alloc,
            &self.listed,
            frame,
            places,
            &mut self.streams,
            stamps,
            &mut self.output,
        );
        self.output.done()
    }

    /// A tick.
    #[inline(never)]
    fn tick(&mut self, soc: u32, lost: bool) -> PrivateReply
        requires none { HasNoCopies self.old }
        ensures steps { Steps self.old (tick soc) lost (told result) self.new }
        ensures none { HasNoCopies self.new }
        ensures few { MakesFew (told result) }
        ensures plain { IsPlain result }
    {
        self.output.begin(lost);
        tick_all(
            self.alloc,
            &self.listed,
            &mut self.streams,
            &mut self.output,
        );
        self.last_tick = Some(soc);
        self.output.done()
    }

    /// Blocks of granted PMUs came, whose copies lie ready.
    // Inlined, its reply is not laid into memory and read again.
    #[inline(always)]
    fn measure(
        &mut self,
        frame: &DataFrame,
        places: &[usize],
        lost: bool,
        stamps: &mut StampCache,
    ) -> PrivateReply
        requires places { ArePlaces (length frame.now.config.parts) places.now }
        requires held { AreHeld self.old.own.grants self.old.own.listed (samples_at frame.now places.now) }
        requires ready { self.old.blocks ≡ all_wanted self.old.own.streams frame.now.quality (samples_at frame.now places.now) }
        requires none { self.old.configs ≡ [] }
        ensures steps { Steps self.old (measure frame.now.soc frame.now.quality frame.now.frac (samples_at frame.now places.now)) lost (told result) self.new }
        ensures none { HasNoCopies self.new }
        ensures few { MakesFew (told result) }
        ensures plain { IsPlain result }
    {
        let _count = frame.count();
        self.output.begin(lost);
        measure_all(
            self.alloc,
            &self.listed,
            frame,
            places,
            &mut self.streams,
            &mut self.blocks,
            stamps,
            &mut self.output,
        );
        self.output.done()
    }

    /// The subscriber connects.
    #[inline(never)]
    fn connect(&mut self, lost: bool) -> PrivateReply
        requires none { HasNoCopies self.old }
        ensures steps { Steps self.old connect lost (told result) self.new }
        ensures none { HasNoCopies self.new }
        ensures few { MakesFew (told result) }
        ensures plain { IsPlain result }
    {
        if self.connected {
            return PrivateReply::Refused(Refusal::Busy);
        }
        self.connected = true;
        PrivateReply::Done { made: 0, kept: 0 }
    }

    /// The subscriber hangs up.
    #[inline(never)]
    fn hang_up(&mut self, lost: bool) -> PrivateReply
        requires none { HasNoCopies self.old }
        ensures steps { Steps self.old hangup lost (told result) self.new }
        ensures none { HasNoCopies self.new }
        ensures few { MakesFew (told result) }
        ensures plain { IsPlain result }
    {
        if !self.connected {
            return PrivateReply::Refused(Refusal::NotConnected);
        }
        stop_all(&mut self.streams);
        self.output.clear();
        self.connected = false;
        PrivateReply::Done { made: 0, kept: 0 }
    }

    /// A PMU is granted. What it has announced, of which a copy lies ready, is put into the CFG-1 list; each stream whose effective
    /// blocks that changes is flushed first.
    #[inline(never)]
    fn grant(&mut self, key: PmuKey, lost: bool) -> PrivateReply
        requires blocks { self.old.blocks ≡ [] }
        ensures steps { (config : Option Part) → self.old.configs ≡ granted_wanted self.old.own.grants key config → Steps self.old (grant key config) lost (told result) self.new }
        ensures none { (config : Option Part) → self.old.configs ≡ granted_wanted self.old.own.grants key config → HasNoCopies self.new }
        ensures few { MakesFew (told result) }
        ensures plain { IsPlain result }
    {
        if self.grants.holds(key) {
            return PrivateReply::Done { made: 0, kept: 0 };
        }
        if self.grants.is_full() {
            return PrivateReply::Refused(Refusal::GrantsFull);
        }
        let _few = self.grants.len();
        let _rising = self.listed.len();
        let _granted = self.grants.grant(key);
        let Some(copy) = self.configs.pop_front() else {
            return PrivateReply::Done { made: 0, kept: 0 };
        };
        self.output.begin(lost);
        list_one(
            self.alloc,
            &key,
            copy,
            &mut self.listed,
            &mut self.streams,
            &mut self.output,
        );
        self.output.done()
    }

    /// Granted PMUs announced their configurations, whose copies lie ready.
    #[inline(never)]
    fn announce(&mut self, config: &SourceConfig, places: &[usize], lost: bool) -> PrivateReply
        requires places { ArePlaces (length config.now.parts) places.now }
        requires own { AreOwn self.old.own.grants (announced_at config.now places.now) }
        requires blocks { self.old.blocks ≡ [] }
        requires ready { self.old.configs ≡ map config_of (announced_at config.now places.now) }
        ensures steps { Steps self.old (announce (announced_at config.now places.now)) lost (told result) self.new }
        ensures none { HasNoCopies self.new }
        ensures few { MakesFew (told result) }
        ensures plain { IsPlain result }
    {
        self.output.begin(lost);
        let _few = self.grants.len();
        let _rising = self.listed.len();
        list_all(
            self.alloc,
            config,
            places,
            &mut self.configs,
            &mut self.listed,
            &mut self.streams,
            &mut self.output,
        );
        self.output.done()
    }

    /// The grant of a PMU is taken back. Each stream whose effective blocks that changes is flushed first.
    #[inline(never)]
    fn revoke(&mut self, key: PmuKey, lost: bool) -> PrivateReply
        requires none { HasNoCopies self.old }
        ensures steps { Steps self.old (revoke key) lost (told result) self.new }
        ensures none { HasNoCopies self.new }
        ensures few { MakesFew (told result) }
        ensures plain { IsPlain result }
    {
        if !self.grants.holds(key) {
            return PrivateReply::Refused(Refusal::NotGranted);
        }
        self.output.begin(lost);
        let change = Change::Remove(key);
        let counts = change.counts(&self.listed);
        reshape_all(
            self.alloc,
            &self.listed,
            &change,
            counts,
            &mut self.streams,
            &mut self.output,
        );
        self.listed.remove(&key);
        let _revoked = self.grants.revoke(key);
        self.output.done()
    }

    /// What waits is handed out into a buffer, as far as it goes.
    #[inline(never)]
    fn drain(&mut self, mut buf: Vec<u8>, lost: bool) -> PrivateReply
        requires none { HasNoCopies self.old }
        ensures steps { Steps self.old (drain (vec_len buf)) lost (told result) self.new }
        ensures none { HasNoCopies self.new }
        ensures few { MakesFew (told result) }
        ensures buffer { ReturnsBuffer buf.items result }
    {
        if !self.connected {
            return PrivateReply::Drained {
                buf,
                out: Err(Refusal::NotConnected),
            };
        }
        let out = self.output.drain(&mut buf);
        PrivateReply::Drained { buf, out: Ok(out) }
    }

    /// A stream is removed, with its open slots.
    #[inline(never)]
    fn remove(&mut self, stream: StreamId, lost: bool) -> PrivateReply
        requires none { HasNoCopies self.old }
        ensures steps { Steps self.old (remove stream) lost (told result) self.new }
        ensures none { HasNoCopies self.new }
        ensures few { MakesFew (told result) }
        ensures plain { IsPlain result }
    {
        if stream_of(&self.streams, stream.get()).is_none() {
            return PrivateReply::Refused(Refusal::NoSuchStream);
        }
        remove_streams(&mut self.streams, stream.get());
        PrivateReply::Done { made: 0, kept: 0 }
    }

    /// A command of the subscriber. Refused ones are counted, where it is connected.
    #[inline(never)]
    fn command(&mut self, asked: &Command, lost: bool) -> PrivateReply
        requires none { HasNoCopies self.old }
        ensures steps { Steps self.old (command asked.now.stream asked.now.word) lost (told result) self.new }
        ensures none { HasNoCopies self.new }
        ensures few { MakesFew (told result) }
        ensures plain { IsPlain result }
    {
        if !self.connected {
            return PrivateReply::Refused(Refusal::NotConnected);
        }
        match self.obey(asked) {
            Ok(_) => PrivateReply::Done { made: 0, kept: 0 },
            Err(refusal) => {
                self.output.count_refusal(refusal);
                PrivateReply::Refused(refusal)
            }
        }
    }

    /// Does what a command asks for. A refusal changes nothing.
    fn obey(&mut self, asked: &Command) -> Result<(), Refusal>
        requires connected { self.old.own.connected ≡ true }
        requires none { HasNoCopies self.old }
        ensures done { IfOk result (λ u. Obeys self.old.own asked.now.stream asked.now.word self.new.own) }
        ensures refused { IfErr result (MayRefuse self.old.own asked.now.stream asked.now.word) }
        ensures unchanged { IfErr result (λ refusal. self.new.own ≡ self.old.own) }
        ensures none { HasNoCopies self.new }
    {
        let Some(stream) = stream_of(&self.streams, asked.stream) else {
            return Err(Refusal::NoSuchStream);
        };
        let word = word_at(asked.word)?;
        if !is_question(word) {
            switch_streams(&mut self.streams, asked.stream, asked.word);
            return Ok(());
        }
        let soc = self.last_tick.unwrap_or(0);
        send_reply(
            self.alloc,
            stream,
            word,
            soc,
            &self.listed,
            &mut self.output,
        )?;
        Ok(())
    }

    /// A stream is defined. It is off, and stands last.
    #[inline(never)]
    fn define(&mut self, definition: Definition, lost: bool) -> PrivateReply
        requires none { HasNoCopies self.old }
        ensures steps { Steps self.old (define definition) lost (told result) self.new }
        ensures none { HasNoCopies self.new }
        ensures few { MakesFew (told result) }
        ensures plain { IsPlain result }
    {
        if let Err(refusal) = check_definition(&definition) {
            return PrivateReply::Refused(refusal);
        }
        if stream_of(&self.streams, definition.stream.get()).is_some() {
            return PrivateReply::Refused(Refusal::StreamExists);
        }
        if self.streams.len() >= MOST_STREAMS {
            return PrivateReply::Refused(Refusal::StreamsFull);
        }
        let number = self.definitions.wrapping_add(1);
        match Stream::new(self.alloc, definition, &self.listed, number) {
            Ok(stream) => {
                self.definitions = number;
                self.streams.push_reserved(stream);
                PrivateReply::Done { made: 0, kept: 0 }
            }
            Err(refusal) => PrivateReply::Refused(refusal),
        }
    }
}

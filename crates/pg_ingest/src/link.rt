//! The link to a source.

ghost use Rattle.std.specs.Prelude.{◌≡◌, ℕ, ◌+◌, ◌≤◌, ◌<◌, ◌++◌, List, [], true, false, length, drop, is_some, IfOk, IfErr, IfNone, OnSome, OnErr};
ghost use Rattle.pg_wire.specs.Reads.{Gave};
ghost use Rattle.pg_ingest.specs.Reading.{item_read, IsPaired};
ghost use Rattle.pg_ingest.specs.Commands.{told_in};
ghost use Rattle.pg_ingest.specs.Linking.{unfed, heard, after_item, link_stats, ignoring, words_owed};
ghost use Rattle.pg_ingest.specs.Asked.{asking_again};
ghost use Rattle.pg_ingest.specs.Shown.{LinkPast, beginning, feeding, renewed, asked_again, ShowsLink, command_due, commanding};
ghost use Rattle.pg_ingest.specs.Begun.{Begins};
ghost use Rattle.pg_ingest.specs.Links.{IsEventOf, GivesEvent, Holds, Counts};
ghost use Rattle.pg_audit.specs.Counting.{no_pmu_stats};

use crate::asking::Asking;
use crate::pending::Pending;
use crate::read_frame::{ReadFrame, read_source_frame};
use crate::spares::Spares;
use pg_audit::PmuStats;
use pg_command::write_command;
use pg_config::SourceConfig;
use pg_data::DataFrame;
use pg_wire::{Deframer, PmuId, Refusal, Taken};
use std::alloc::Global;
use std::io;
use std::io::Read;
use std::marker::Model;
use std::sync::Arc;

/// What comes next of a source's bytes.
#[derive(Drop)]
pub enum LinkEvent {
    /// The source announces this configuration, by a CFG-2 frame (C37.118.2, 6.4).
    Announce(Arc<SourceConfig>),
    /// A data frame, read by the configuration announced last (C37.118.2, 6.3).
    Measure(Arc<DataFrame>),
    /// A frame was ignored for this reason: `BadCheck` or `BadVersion`; `WrongType` for a frame that is neither CFG-2 nor
    /// data; for CFG-2 those of `read_config`, then `WrongId` for another source's; for data `NoConfig` where nothing was
    /// announced, then those of `read_data`; `NoMemory` last, but before the `WrongId` of another source's CFG-2.
    Ignored(Refusal),
    /// Nothing comes any more until a reset, since the bytes broke: `BadFirst`, `BadSecond` or `ShortSize`.
    Ended(Refusal),
    /// No whole frame is held, and none is broken: more bytes have to come.
    More,
}

/// The link to one source. It makes events of the source's bytes, and tells which commands the source is owed:
/// 5, send CFG-2, at the start and where the configuration may have changed, and 2, start data, once a configuration was
/// accepted.
#[derive(Drop)]
pub struct Link {
    alloc: Global,
    source: PmuId,
    deframer: Deframer,
    known: Option<Arc<SourceConfig>>,
    asking: Asking,
    stats: PmuStats,
    pending: Pending,
    // The memory of data frames that are done with, for later ones.
    spares: Spares,
}

impl Model for Link {
    ghost use Rattle.std.specs.Prelude.{option_map};
    ghost use Rattle.std.specs.Arc.{arc_value};
    ghost use Rattle.pg_ingest.specs.Linking.{Linking};
    ghost use Rattle.pg_wire.specs.Held.{IsHeld};
    ghost use Rattle.pg_ingest.specs.Pendings.{left_of};

    ghost Value = { Linking };

    ghost view = { λ l. record { source = l.source; bytes = l.deframer; known = option_map arc_value l.known; asking = l.asking; stats = l.stats; left = left_of l.pending } };

    ghost invariant = { λ l. IsHeld l.deframer };
}

impl Link {
    /// A link of this source that was fed nothing, all counters at 0. The one refusal is `NoMemory`.
    pub fn new(alloc: Global, source: PmuId) -> Result<Link, Refusal>
        ensures state { IfOk result (λ l. l ≡ unfed source no_pmu_stats) }
        ensures shows { IfOk result (λ l. ShowsLink l (beginning source)) }
        ensures memory { IfErr result (λ refusal. refusal ≡ Refusal.NoMemory) }
    {
        Ok(Link {
            alloc,
            source,
            deframer: Deframer::new(alloc)?,
            known: None,
            asking: Asking::new(),
            stats: PmuStats::new(),
            pending: Pending::none(),
            spares: Spares::new(alloc)?,
        })
    }

    /// Whose link it is.
    pub fn source(&self) -> PmuId
        ensures value { result ≡ self.now.source }
    {
        self.source
    }

    /// How many more bytes there is room for: 65,535 less the bytes that are held.
    pub fn room(&self) -> usize
        ensures value { result + length self.now.bytes.held ≡ 65535 }
    {
        self.deframer.room()
    }

    /// Takes the next piece of the source's bytes, which is no longer than `room` tells. Behind a break it is dropped.
    pub fn feed(&mut self, piece: &[u8])
        requires { length self.old.bytes.held + length piece.now ≤ 65535 }
        ensures state { self.new ≡ heard self.old piece.now }
        // Whatever its past was, the piece comes after it.
        ensures shows { (past : LinkPast) → ShowsLink self.old past → ShowsLink self.new (feeding past piece.now) }
    {
        self.deframer.feed(piece);
    }

    /// Reads once, at most `most` bytes and no more than `room` tells: the next piece of the source's bytes. Behind a break it is
    /// dropped. It tells how many bytes came, 0 only where the reader has ended, or the reader's error, and then nothing has
    /// changed.
    pub fn read_from<R: Read>(&mut self, reader: &mut R, most: usize) -> io::Result<usize>
        requires some { 0 < most }
        requires room { length self.old.bytes.held < 65535 }
        ensures small { IfOk result (λ n. n ≤ most) }
        ensures read { (piece : List ℕ) × Gave (R.remaining reader.old) (R.remaining reader.new) result piece × (self.new ≡ heard self.old piece)
            × ((past : LinkPast) → ShowsLink self.old past → ShowsLink self.new (feeding past piece)) }
        ensures same { self.new ≡ record self.old { bytes = self.new.bytes } }
        ensures err { OnErr result (self.new ≡ self.old) }
    {
        self.deframer.read_from(reader, most)
    }

    /// The next event, as soon as its frame is whole, or why a frame was ignored. Events and ignored frames are counted.
    #[inline(always)]
    pub fn next_event(&mut self) -> LinkEvent
        ensures gives { GivesEvent self.old result self.new }
        ensures holds { Holds self.old result self.new }
        ensures counts { Counts self.old.stats result self.new.stats }
        ensures same { self.new.source ≡ self.old.source }
        ensures left { self.new.left ≡ self.old.left }
    {
        match self.deframer.next() {
            Taken::Frame(frame) => {
                let spare = self.spares.take();
                let read = read_source_frame(self.alloc, self.source, &self.known, frame, spare);
                self.take(read)
            }
            Taken::Skipped(refusal) => self.take(ReadFrame::Skipped(refusal)),
            Taken::More => LinkEvent::More,
            Taken::Broken(refusal) => LinkEvent::Ended(refusal),
        }
    }

    /// Keeps the memory of a data frame that is done with, for a later one. It is used once nobody else holds the frame.
    #[inline(always)]
    pub fn give_back(&mut self, frame: Arc<DataFrame>)
        ensures { self.new ≡ self.old }
    {
        self.spares.keep(frame);
    }

    /// Keeps and counts what was read of a frame, and gives its event.
    #[inline(always)]
    fn take(&mut self, read: ReadFrame) -> LinkEvent
        requires { IsPaired read }
        ensures event { IsEventOf result (item_read read) }
        ensures state { self.new ≡ after_item self.old (item_read read) }
    {
        match read {
            ReadFrame::Config(kept, given) => {
                self.known = Some(kept);
                self.asking.accept();
                self.stats.count_taken();
                LinkEvent::Announce(given)
            }
            ReadFrame::Data(frame) => {
                self.asking.measure(frame.is_changed());
                self.stats.count_taken();
                LinkEvent::Measure(frame)
            }
            ReadFrame::Skipped(refusal) | ReadFrame::BadConfig(refusal) => {
                self.asking.answer();
                self.ignore(refusal)
            }
            ReadFrame::BadData(refusal) => {
                self.asking.reject(refusal);
                self.ignore(refusal)
            }
            ReadFrame::Other => self.ignore(Refusal::WrongType),
        }
    }

    /// Counts a frame that is ignored, and gives the reason.
    fn ignore(&mut self, refusal: Refusal) -> LinkEvent
        ensures event { result ≡ LinkEvent.Ignored refusal }
        ensures state { self.new ≡ record self.old { stats = ignoring self.old.stats refusal } }
    {
        self.stats.count_refusal(refusal);
        LinkEvent::Ignored(refusal)
    }

    /// The next command that the source is owed, as a frame of SOC 0, if any: 5, send CFG-2, before 2, start data.
    pub fn next_out(&mut self) -> Option<[u8; 18]>
        ensures gives { (past : LinkPast) → ShowsLink self.old past → (result ≡ command_due past) × ShowsLink self.new (commanding past) }
        ensures fewer { OnSome result (words_owed self.new < words_owed self.old) }
        ensures none { IfNone result (self.new ≡ self.old) }
        ensures same { self.new ≡ record self.old { asking = self.new.asking } }
    {
        let word = self.asking.next_word()?;
        Some(write_command(self.source, 0, word.number()))
    }

    /// What is left to write of a command that was begun.
    pub(crate) fn left(&self) -> &[u8]
        ensures { result.now ≡ self.now.left }
    {
        self.pending.left()
    }

    /// So many bytes of what is left were written.
    pub(crate) fn send(&mut self, size: usize)
        requires { size ≤ length self.old.left }
        ensures { self.new ≡ record self.old { left = drop size self.old.left } }
    {
        self.pending.send(size);
    }

    /// Begins the next command that the source is owed, if any: all of it is left to write.
    pub(crate) fn begin(&mut self) -> bool
        requires { self.old.left ≡ [] }
        ensures begins { (past : LinkPast) → ShowsLink self.old past → Begins past self.new result }
        ensures fewer { result ≡ true → words_owed self.new < words_owed self.old }
        ensures held { self.new.bytes ≡ self.old.bytes }
        ensures none { result ≡ false → self.new ≡ self.old }
    {
        match self.next_out() {
            Some(frame) => {
                self.pending = Pending::of(frame);
                true
            }
            None => false,
        }
    }

    /// Asks the source again over the same connection: it is owed what it was asked for, command 5, and behind it 2 where it
    /// announced a configuration. The configuration, the bytes of a frame that has begun, what is left to write of a command and
    /// the counters stay, so that frames that were only delayed are read as they would have been.
    pub fn ask_again(&mut self)
        ensures state { self.new ≡ record self.old { asking = asking_again (is_some self.old.known) self.old.asking } }
        ensures shows { (past : LinkPast) → ShowsLink self.old past → ShowsLink self.new (asked_again past) }
    {
        self.asking.ask_again(self.known.is_some());
    }

    /// Starts anew, as on a new connection: without a configuration, with command 5 owed, and without the bytes of a frame
    /// that had begun. The counters stay, and so does its memory.
    pub fn reset(&mut self)
        ensures state { self.new ≡ unfed self.old.source self.old.stats }
        ensures shows { (past : LinkPast) → ShowsLink self.old past → ShowsLink self.new (renewed past) }
    {
        self.deframer.reset();
        self.known = None;
        self.asking = Asking::new();
        self.pending = Pending::none();
    }

    /// What it counted since it was new: the events that it gave, and the frames that it ignored by their reason.
    pub fn stats(&self) -> &PmuStats
        ensures value { result.now ≡ self.now.stats }
        ensures counts { (past : LinkPast) → ShowsLink self.now past → result.now ≡ link_stats (past.earlier ++ told_in past.acts) }
    {
        &self.stats
    }
}

//! A subscriber that checks what it is sent, apart from sockets and clocks: bytes of frames go in, commands come out.

ghost use Rattle.std.specs.Prelude.{◌≡◌, ◌+◌, ◌≤◌, ◌<◌, length};
ghost use Rattle.pg_wire.specs.Head.{IsFrame};

use crate::reading::Reading;
use crate::retry::Retry;
use crate::slots::DataRate;
use pg_command::{Word, write_command};
use pg_config::{Announced, SourceConfig, read_config};
use pg_data::{DataFrame, read_data};
use pg_wire::{Deframer, Kind, PmuId, Refusal, Taken, read_head};
use std::alloc::Global;
use std::fmt;
use std::sync::Arc;
use thiserror::Error;

/// The most bytes of a header's text that are kept.
const TEXT: usize = 1_024;

/// What is wrong with what came.
#[derive(Clone, Copy, Debug, Error)]
pub enum Violation {
    /// A frame was left out: `BadCheck`, its CHK is wrong; `BadVersion`.
    #[error("a frame is left out: {}", .0.name())]
    Skipped(Refusal),
    /// The bytes are no frames from here on: `BadFirst`, `BadSecond` or `ShortSize`.
    #[error("the bytes are no frames from here on: {}", .0.name())]
    Broken(Refusal),
    /// A configuration that can't be read, or of another IDCODE (`WrongId`).
    #[error("a configuration can't be taken: {}", .0.name())]
    Config(Refusal),
    /// A header of another IDCODE.
    #[error("a header can't be taken: {}", .0.name())]
    Header(Refusal),
    /// A data frame that does not fit the configuration: `BadLength`, `BadFraction`; of another IDCODE, `WrongId`; before any
    /// configuration, `NoConfig`.
    #[error("a data frame can't be taken: {}", .0.name())]
    Data(Refusal),
    /// A data frame whose stamp does not rise: SOC and numerator of the last frame, and of this one.
    #[error("a stamp does not rise: {1} comes after {0}")]
    Order(Stamp, Stamp),
    /// A frame of a kind that was not asked for.
    #[error("a frame was not asked for: type {}", .0.number())]
    Unasked(Kind),
    /// The peer closed the connection.
    #[error("the peer closed the connection")]
    Closed,
    /// No configuration came in time.
    #[error("no configuration came; is the stream's number right?")]
    Silent,
    /// No data frame came at all.
    #[error("no data frame came")]
    NoFrame,
}

/// When a frame was measured: SOC, and the numerator of FRACSEC.
#[derive(Clone, Copy, Debug, PartialEq, Eq, PartialOrd)]
pub struct Stamp {
    /// Seconds since 1970-01-01 00:00 UTC.
    pub soc: u32,
    /// Parts of a second, by TIME_BASE.
    pub frac: u32,
}

impl fmt::Display for Stamp {
    fn fmt<W: fmt::Write>(&self, f: &mut fmt::Formatter<W>) -> fmt::Result {
        let soc = self.soc;
        let frac = self.frac;
        write!(f, "{soc}+{frac}")
    }
}

/// What was counted of what came.
#[derive(Clone, Copy)]
pub struct Tally {
    /// Data frames that were taken.
    pub frames: u64,
    /// Slots between them of which no frame came, by the rate of the configuration.
    pub missing: u64,
    /// Data blocks that are fillers: STAT 0x8000 and FREQ 0x8000.
    pub fillers: u64,
    /// Configurations that were taken.
    pub configs: u64,
    /// Frames with a wrong CHK.
    pub wrong_checks: u64,
    /// Stamps that did not rise.
    pub not_rising: u64,
    /// Data frames that did not fit the configuration.
    pub misfits: u64,
    /// Whatever was wrong, those three included.
    pub troubles: u64,
}

impl Violation {
    /// Whether a stamp lies so far back that the source's clock was set: by more than a second.
    pub fn is_set_back(self) -> bool {
        matches!(self, Violation::Order(last, stamp) if last.soc.saturating_sub(stamp.soc) > 1)
    }
}

impl Tally {
    /// Nothing yet.
    pub const NONE: Tally = Tally {
        frames: 0,
        missing: 0,
        fillers: 0,
        configs: 0,
        wrong_checks: 0,
        not_rising: 0,
        misfits: 0,
        troubles: 0,
    };

    /// Counts what is wrong.
    pub fn count(&mut self, trouble: Violation) {
        self.troubles = self.troubles.saturating_add(1);
        match trouble {
            Violation::Skipped(Refusal::BadCheck) => {
                self.wrong_checks = self.wrong_checks.saturating_add(1);
            }
            Violation::Order(_, _) => self.not_rising = self.not_rising.saturating_add(1),
            Violation::Data(_) => self.misfits = self.misfits.saturating_add(1),
            _ => {}
        }
    }
}

/// What comes next of the bytes that a watcher was fed.
#[derive(Drop)]
pub enum WatchEvent {
    /// A configuration, CFG-2.
    Config(Arc<SourceConfig>),
    /// A CFG-2 without any PMU: no PMU of the stream is announced yet. It is asked again.
    NoPmu,
    /// The header, whose text `Watcher::header` has.
    Header,
    /// A data frame that is right.
    Frame(Arc<DataFrame>),
    /// Something is wrong.
    Violation(Violation),
    /// More bytes have to come.
    More,
    /// The bytes broke: nothing comes any more.
    Ended,
    /// There was no memory for a frame.
    NoMemory,
}

/// A frame that was read.
#[derive(Drop)]
enum ReadFrame {
    Config(Announced),
    NoPmu,
    Frame(Arc<DataFrame>),
    Header(Vec<u8>),
    Violation(Violation),
    NoMemory,
}

/// A subscriber of one stream, or of a source. It asks for CFG-2 and the header, starts the stream once it knows the
/// configuration, asks for the header again, and checks each frame. What is not answered for 3 seconds it asks again; so it does each
/// second where the configuration has no PMU yet.
#[derive(Drop)]
pub struct Watcher {
    alloc: Global,
    stream: PmuId,
    deframer: Deframer,
    config: Option<Arc<SourceConfig>>,
    header: Vec<u8>,
    last: Option<Stamp>,
    needs_config: bool,
    needs_header: bool,
    needs_start: bool,
    awaits_config: bool,
    is_started: bool,
    has_no_pmu: bool,
    // Command 5 without CFG-2, and command 2 without a data frame.
    config_retry: Retry,
    start_retry: Retry,
    headers: u32,
    is_changing: bool,
    is_ended: bool,
    tally: Tally,
}

impl Watcher {
    /// A watcher of the stream with this IDCODE, which was fed nothing.
    ///
    /// # Errors
    ///
    /// `NoMemory`.
    pub fn new(alloc: Global, stream: PmuId) -> Result<Watcher, Refusal> {
        Ok(Watcher {
            alloc,
            stream,
            deframer: Deframer::new(alloc)?,
            config: None,
            header: Vec::new(alloc),
            last: None,
            needs_config: true,
            needs_header: true,
            needs_start: false,
            awaits_config: false,
            is_started: false,
            has_no_pmu: false,
            config_retry: Retry::NEW,
            start_retry: Retry::NEW,
            headers: 0,
            is_changing: false,
            is_ended: false,
            tally: Tally::NONE,
        })
    }

    /// Which stream it watches.
    pub fn stream(&self) -> PmuId {
        self.stream
    }

    /// What it counted.
    pub fn tally(&self) -> Tally {
        self.tally
    }

    /// The text of the header that came, as it came: at most 1,024 bytes.
    pub fn header(&self) -> &[u8] {
        &self.header
    }

    /// The configuration by which data frames are read.
    pub fn config(&self) -> Option<&Arc<SourceConfig>> {
        self.config.as_ref()
    }

    /// The stamp of the last data frame that was taken.
    pub fn last(&self) -> Option<Stamp> {
        self.last
    }

    /// Takes the next bytes of the peer, and answers how many of them there was room for: `next` makes room.
    pub fn feed(&mut self, bytes: &[u8]) -> usize
        ensures { result ≤ length bytes.now }
    {
        let taken = bytes.len().min(self.deframer.room());
        self.deframer.feed(&bytes[..taken]);
        taken
    }

    /// Whether the peer has certainly obeyed the start: it has answered command 3 that went behind it. Each data frame of a slot
    /// from now on is to come.
    pub fn is_on(&self) -> bool {
        self.is_started && self.headers >= 2
    }

    /// Whether the last CFG-2 had no PMU.
    pub fn has_no_pmu(&self) -> bool {
        self.has_no_pmu
    }

    /// A second has passed: what was not answered is due again.
    pub fn second(&mut self) {
        if self.awaits_config {
            if self.config_retry.tick() || self.has_no_pmu {
                self.needs_config = true;
            }
        } else if self.is_started && self.start_retry.tick() {
            self.needs_start = true;
        }
    }

    /// Nothing is awaited any more. Answers, and counts, that no data frame came, where that is so.
    pub fn close(&mut self) -> Option<Violation> {
        if self.tally.frames > 0 {
            return None;
        }
        self.note(Violation::NoFrame);
        Some(Violation::NoFrame)
    }

    /// The next command to send: 5 and 3 at first, 2 and 3 once the configuration is known, and 5 again where it
    /// may have changed.
    pub fn next_out(&mut self, soc: u32) -> Option<[u8; 18]> {
        let word = if self.needs_config {
            self.needs_config = false;
            self.awaits_config = true;
            self.config_retry = Retry::NEW;
            Word::SendCfgTwo
        } else if self.needs_header {
            self.needs_header = false;
            Word::SendHeader
        } else if self.needs_start {
            self.needs_start = false;
            self.is_started = true;
            self.start_retry = Retry::NEW;
            // A peer obeys in order, so that the answer to this shows that the start was obeyed.
            self.needs_header = true;
            Word::StartData
        } else {
            return None;
        };
        Some(write_command(self.stream, soc, word.number()))
    }

    /// The command that stops the stream.
    pub fn stop(&self, soc: u32) -> [u8; 18] {
        write_command(self.stream, soc, Word::StopData.number())
    }

    /// The source's clock was set: the stamp of the next data frame is compared with none before it.
    pub fn forget_stamp(&mut self) {
        self.last = None;
    }

    /// Notes something that is wrong apart from the bytes.
    pub fn note(&mut self, trouble: Violation) {
        self.tally.count(trouble);
    }

    /// What comes next of the peer's bytes, checked and counted. A break is reported once.
    pub fn next(&mut self) -> WatchEvent {
        let read = match self.deframer.next() {
            Taken::Frame(frame) => read_frame(self.alloc, self.stream, self.config.as_ref(), frame),
            Taken::Skipped(refusal) => ReadFrame::Violation(Violation::Skipped(refusal)),
            Taken::More => return WatchEvent::More,
            Taken::Broken(refusal) => {
                if self.is_ended {
                    return WatchEvent::Ended;
                }
                self.is_ended = true;
                ReadFrame::Violation(Violation::Broken(refusal))
            }
        };
        self.take(read)
    }

    /// Takes a frame that was read.
    fn take(&mut self, read: ReadFrame) -> WatchEvent {
        match read {
            ReadFrame::Config(announced) => self.take_config(announced),
            ReadFrame::NoPmu => {
                // It stands as not answered, so that it is asked again.
                self.has_no_pmu = true;
                self.awaits_config = true;
                WatchEvent::NoPmu
            }
            ReadFrame::Frame(frame) => self.take_frame(frame),
            ReadFrame::Header(text) => {
                self.header = text;
                self.headers = self.headers.saturating_add(1);
                WatchEvent::Header
            }
            ReadFrame::Violation(trouble) => {
                self.tally.count(trouble);
                if let Violation::Data(Refusal::BadLength) = trouble {
                    self.ask_again();
                }
                WatchEvent::Violation(trouble)
            }
            ReadFrame::NoMemory => WatchEvent::NoMemory,
        }
    }

    /// Asks for the configuration, unless that was asked for and has not come.
    fn ask_again(&mut self) {
        if !self.awaits_config {
            self.needs_config = true;
        }
    }

    /// Takes a configuration. The first one starts the stream.
    fn take_config(&mut self, announced: Announced) -> WatchEvent {
        let Ok(config) = Arc::new(self.alloc, announced.config) else {
            return WatchEvent::NoMemory;
        };
        let Ok(kept) = Arc::try_clone(&config) else {
            return WatchEvent::NoMemory;
        };
        self.config = Some(kept);
        self.awaits_config = false;
        self.has_no_pmu = false;
        if !self.is_started {
            self.needs_start = true;
        }
        self.tally.configs = self.tally.configs.saturating_add(1);
        WatchEvent::Config(config)
    }

    /// Takes a data frame, if its stamp is above that of the last one.
    fn take_frame(&mut self, frame: Arc<DataFrame>) -> WatchEvent {
        let stamp = Stamp {
            soc: frame.soc,
            frac: frame.frac,
        };
        if let Some(last) = self.last {
            if stamp <= last {
                let trouble = Violation::Order(last, stamp);
                self.tally.count(trouble);
                return WatchEvent::Violation(trouble);
            }
            let (rate, base) = (rate_of(&frame), frame.base());
            let slot = rate.slot(stamp.soc, stamp.frac, base);
            let between = slot.saturating_sub(rate.slot(last.soc, last.frac, base));
            self.tally.missing = self.tally.missing.saturating_add(between.saturating_sub(1));
        }
        self.last = Some(stamp);
        self.start_retry = Retry::NEW;
        let is_changed = frame.is_changed();
        if self.is_changing && !is_changed {
            self.ask_again();
        }
        self.is_changing = is_changed;
        self.tally.fillers = self.tally.fillers.saturating_add(fillers_of(&frame));
        self.tally.frames = self.tally.frames.saturating_add(1);
        WatchEvent::Frame(frame)
    }
}

/// Reads a frame.
fn read_frame(
    alloc: Global,
    stream: PmuId,
    config: Option<&Arc<SourceConfig>>,
    frame: &[u8],
) -> ReadFrame
    requires { IsFrame frame.now }
{
    let head = read_head(frame);
    match head.kind {
        Kind::CfgTwo if has_no_pmu(frame) => {
            if head.id == stream.get() {
                ReadFrame::NoPmu
            } else {
                ReadFrame::Violation(Violation::Config(Refusal::WrongId))
            }
        }
        Kind::CfgTwo => match read_config(alloc, frame) {
            Ok(announced) if announced.config.source == stream => ReadFrame::Config(announced),
            Ok(_) => ReadFrame::Violation(Violation::Config(Refusal::WrongId)),
            Err(Refusal::NoMemory) => ReadFrame::NoMemory,
            Err(refusal) => ReadFrame::Violation(Violation::Config(refusal)),
        },
        Kind::Measured => match config {
            None => ReadFrame::Violation(Violation::Data(Refusal::NoConfig)),
            Some(config) => match read_data(alloc, config, frame) {
                Ok(data) => ReadFrame::Frame(data),
                Err(Refusal::NoMemory) => ReadFrame::NoMemory,
                Err(refusal) => ReadFrame::Violation(Violation::Data(refusal)),
            },
        },
        Kind::Header if head.id != stream.get() => {
            ReadFrame::Violation(Violation::Header(Refusal::WrongId))
        }
        Kind::Header => header_in(alloc, frame),
        kind => ReadFrame::Violation(Violation::Unasked(kind)),
    }
}

/// Whether a configuration is whole and has no PMU: NUM_PMU is 0, and DATA_RATE and CHK stand behind it.
fn has_no_pmu(frame: &[u8]) -> bool {
    frame.len() == 24 && frame.get(18..20) == Some([0, 0].as_slice())
}

/// The text of a header, its first bytes.
fn header_in(alloc: Global, frame: &[u8]) -> ReadFrame {
    let end = frame.len().saturating_sub(2).min(14 + TEXT);
    let text = frame.get(14..end).unwrap_or(&[]);
    match Vec::from_slice(alloc, text) {
        Ok(text) => ReadFrame::Header(text),
        Err(_) => ReadFrame::NoMemory,
    }
}

/// DATA_RATE of a frame's configuration.
pub fn rate_of(frame: &DataFrame) -> DataRate {
    match frame.config.parts.first() {
        Some(part) => DataRate::new(part.rate),
        None => DataRate::Frames(1),
    }
}

/// How many blocks of a frame are fillers.
pub fn fillers_of(frame: &DataFrame) -> u64 {
    let mut found = 0u64;
    for (i, part) in frame.config.parts.iter().enumerate() {
        if i < frame.count() && Reading::new(part, frame.block(i)).is_filler() {
            found = found.saturating_add(1);
        }
    }
    found
}

/// Whether two configurations have the same PMUs, with the same blocks, resolution and rate.
pub fn is_same(one: &SourceConfig, other: &SourceConfig) -> bool {
    one.parts.len() == other.parts.len()
        && one
            .parts
            .iter()
            .zip(other.parts.iter())
            .all(|(part, same)| part.is_same(same))
}

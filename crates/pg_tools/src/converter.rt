//! The frames of a stream as lines, apart from sockets and clocks: bytes of frames and instants go in, commands and lines come out.

use crate::bridge_options::BridgeOptions;
use crate::line_parts::{GapLine, StateLine};
use crate::line_queue::{Content, Entry, Gap, LineQueue, Why};
use crate::line_writer::LineWriter;
use crate::lines::FrameTime;
use crate::repeat::Repeat;
use crate::slots::Slots;
use crate::unix_time::UnixTime;
use crate::watcher::{Violation, WatchEvent, Watcher, fillers_of, is_same, rate_of};
use pg_config::SourceConfig;
use pg_data::DataFrame;
use pg_wire::{PmuId, Refusal};
use std::alloc::{AllocError, Global};
use std::sync::Arc;
use thiserror::Error;

/// A second, in milliseconds.
const SECOND: u64 = 1_000;

/// How many bytes of lines are handed out together at least, where so many wait.
const PIECE: usize = 4_096;

/// An instant, by both clocks.
#[derive(Clone, Copy)]
pub struct Instants {
    /// Milliseconds since the start, which never fall.
    pub millis: u64,
    /// The time in UTC.
    pub time: UnixTime,
}

/// Why a connection is closed and made again.
#[derive(Clone, Copy, Debug, Error)]
pub enum Ending {
    /// The peer closed it.
    #[error("the peer closed the connection")]
    Closed,
    /// The bytes are no frames.
    #[error("the bytes are no frames: {}", .0.name())]
    Broken(Refusal),
    /// No frame came for `--silence`.
    #[error("no frame came for {0} s (is the stream's number right?)")]
    Silent(u64),
    /// Data frames came for `--silence`, and the time of none of them was above that of the last one that was taken.
    #[error("the times of the data frames do not rise, and are counted anew")]
    SetBack,
    /// There is no memory.
    #[error("there is no memory for a frame")]
    NoMemory,
}

/// What was counted so far.
#[derive(Clone, Copy, PartialEq, Eq)]
pub struct BridgeCounts {
    /// Data frames that were taken.
    pub frames: u64,
    /// Slots between them of which no frame was taken.
    pub missing: u64,
    /// Data blocks that are fillers.
    pub fillers: u64,
    /// Connections that ended.
    pub reconnects: u64,
    /// Frames that were not taken.
    pub ignored: u64,
}

/// The last frame that was taken.
#[derive(Clone, Copy)]
struct Last {
    slots: Slots,
    time: FrameTime,
}

/// Turns the frames of a stream into lines. Each slot from the first frame to the last one has data lines or is in one gap line.
#[derive(Drop)]
pub struct Converter<'a> {
    alloc: Global,
    silence: u64,
    stream: PmuId,
    writer: LineWriter<'a>,
    watcher: Option<Watcher>,
    /// The configuration of the last configuration lines.
    config: Option<Arc<SourceConfig>>,
    last: Option<Last>,
    /// Why slots have no frame that lie between the last frame and the next one.
    why: Why,
    counts: BridgeCounts,
    queue: LineQueue,
    /// The bytes that are handed out, and how many of them are written.
    hand: String,
    written: usize,
    /// The time of the last frame whose lines are handed out.
    shown: Option<FrameTime>,
    heartbeat: Repeat,
    repeat: Repeat,
    /// One second, in which commands that were not answered become due.
    second: Repeat,
    /// When a frame came last, or the connection was made.
    heard: u64,
    /// Since when all data frames are refused, since their times do not rise.
    refused: Option<u64>,
    behind: Option<i64>,
}

impl<'a> Converter<'a> {
    /// A converter that was fed nothing, at an instant.
    pub fn new(alloc: Global, options: &BridgeOptions<'a>, at: Instants) -> Converter<'a> {
        Converter {
            alloc,
            silence: SECOND * u64::from(options.silence),
            stream: options.stream,
            writer: LineWriter::new(alloc, options),
            watcher: None,
            config: None,
            last: None,
            why: Why::Missing,
            counts: BridgeCounts {
                frames: 0,
                missing: 0,
                fillers: 0,
                reconnects: 0,
                ignored: 0,
            },
            queue: LineQueue::new(alloc, options.keep as usize),
            hand: String::new(alloc),
            written: 0,
            shown: None,
            heartbeat: Repeat::new(at.millis, SECOND * u64::from(options.heartbeat)),
            repeat: Repeat::new(at.millis, SECOND * u64::from(options.repeat)),
            second: Repeat::new(at.millis, SECOND),
            heard: at.millis,
            refused: None,
            behind: None,
        }
    }

    /// What was counted.
    pub fn counts(&self) -> BridgeCounts {
        self.counts
    }

    /// How many slots the lines stood for that were dropped.
    pub fn dropped(&self) -> u64 {
        self.queue.dropped()
    }

    /// Whether the connection has given a data frame.
    pub fn has_frame(&self) -> bool {
        match &self.watcher {
            Some(watcher) => watcher.last().is_some(),
            None => false,
        }
    }

    /// A connection is made.
    ///
    /// # Errors
    ///
    /// There is no memory.
    pub fn connect(&mut self, at: Instants) -> Result<(), AllocError> {
        match Watcher::new(self.alloc, self.stream) {
            Ok(watcher) => self.watcher = Some(watcher),
            Err(_) => return Err(AllocError),
        }
        self.heard = at.millis;
        self.refused = None;
        self.second.begin(at.millis);
        Ok(())
    }

    /// The connection has ended for this reason.
    pub fn disconnect(&mut self, ending: Ending) {
        self.watcher = None;
        self.why = Why::Reconnect;
        self.counts.reconnects = self.counts.reconnects.saturating_add(1);
        if let Ending::SetBack = ending {
            self.last = None;
        }
    }

    /// What reads the connection, where one stands. It has the commands that are to be sent.
    pub fn watcher(&mut self) -> Option<&mut Watcher> {
        self.watcher.as_mut()
    }

    /// Takes the bytes that came. Answers why the connection is to be closed, where it is.
    pub fn take(&mut self, bytes: &[u8], at: Instants) -> Option<Ending> {
        let mut fed = 0;
        for _ in 0..=bytes.len() {
            let watcher = self.watcher.as_mut()?;
            if fed < bytes.len() {
                fed += watcher.feed(&bytes[fed..]);
            }
            let event = watcher.next();
            if let WatchEvent::More = event {
                if fed >= bytes.len() {
                    return None;
                }
            }
            if let Some(ending) = self.take_event(event, at) {
                return Some(ending);
            }
        }
        None
    }

    /// Takes what comes next of the bytes.
    fn take_event(&mut self, event: WatchEvent, at: Instants) -> Option<Ending> {
        match event {
            WatchEvent::More => None,
            WatchEvent::Header | WatchEvent::NoPmu => {
                self.heard = at.millis;
                None
            }
            WatchEvent::Config(config) => {
                self.heard = at.millis;
                self.take_config(config, at)
            }
            WatchEvent::Frame(frame) => self.take_frame(&frame, at),
            WatchEvent::Violation(violation) => self.take_violation(violation, at),
            // (the break was reported before)
            WatchEvent::Ended => Some(Ending::Closed),
            WatchEvent::NoMemory => Some(Ending::NoMemory),
        }
    }

    /// Takes a configuration. Its lines are added unless it is as the last one.
    fn take_config(&mut self, config: Arc<SourceConfig>, at: Instants) -> Option<Ending> {
        if let Some(last) = &self.config {
            if is_same(&**last, &*config) {
                return None;
            }
        }
        self.will_miss(Why::Change);
        self.config = Some(config);
        if self.add_config(at).is_ok() {
            return None;
        }
        // Its lines are still to come.
        self.config = None;
        Some(Ending::NoMemory)
    }

    /// Slots before the next frame have no frame for this reason, unless there is one already.
    fn will_miss(&mut self, why: Why) {
        if let Why::Missing = self.why {
            self.why = why;
        }
    }

    /// Adds the lines of the configuration, where one came.
    fn add_config(&mut self, at: Instants) -> Result<(), AllocError> {
        let Some(config) = &self.config else {
            return Ok(());
        };
        let entry = self.writer.config(&**config, FrameTime::at(at.time))?;
        self.repeat.begin(at.millis);
        self.queue.push(entry)
    }

    /// Takes a data frame that is right. Its lines are added if its slot is above that of the last one.
    fn take_frame(&mut self, frame: &DataFrame, at: Instants) -> Option<Ending> {
        let time = FrameTime::of(frame);
        let Some((slots, missing)) = self.slots_with(frame) else {
            return self.refuse(at);
        };
        let gap = match (missing, self.why, self.last) {
            // The times were set back: a gap without slots shows it.
            (0, Why::Reconnect, None) if self.counts.frames > 0 => Some(Gap {
                slots: 0,
                why: Why::Reconnect,
            }),
            (0, _, _) => None,
            (slots, why, _) => Some(Gap { slots, why }),
        };
        let Ok(entry) = self.writer.frame(frame, gap) else {
            return Some(Ending::NoMemory);
        };
        if self.queue.push(entry).is_err() {
            return Some(Ending::NoMemory);
        }
        self.last = Some(Last { slots, time });
        self.why = Why::Missing;
        self.heard = at.millis;
        self.refused = None;
        self.behind = Some(time.millis_behind(at.time));
        self.counts.frames = self.counts.frames.saturating_add(1);
        self.counts.missing = self.counts.missing.saturating_add(missing);
        self.counts.fillers = self.counts.fillers.saturating_add(fillers_of(frame));
        None
    }

    /// The slots with that of this frame, and how many before it have no frame; none where the frame is not to be taken. Where the rate
    /// changed they are counted by the new one, from the last frame on.
    fn slots_with(&self, frame: &DataFrame) -> Option<(Slots, u64)> {
        let rate = rate_of(frame);
        let slot = rate.slot(frame.soc, frame.frac, frame.base());
        let Some(last) = self.last else {
            return Some((Slots::begin(rate, slot), 0));
        };
        if last.slots.rate == rate {
            let mut slots = last.slots;
            let missing = slots.take(slot)?;
            return Some((slots, missing));
        }
        let time = last.time;
        if FrameTime::of(frame).unix_time().micros <= time.unix_time().micros {
            return None;
        }
        let mut slots = Slots::begin(rate, rate.slot(time.soc, time.frac, time.base.max(1)));
        match slots.take(slot) {
            Some(missing) => Some((slots, missing)),
            None => Some((Slots::begin(rate, slot), 0)),
        }
    }

    /// A data frame is not taken since its time does not rise. Where that is so of all for `--silence`, the connection is to be closed.
    fn refuse(&mut self, at: Instants) -> Option<Ending> {
        self.counts.ignored = self.counts.ignored.saturating_add(1);
        self.heard = at.millis;
        match self.refused {
            None => {
                self.refused = Some(at.millis);
                None
            }
            Some(since) if at.millis.saturating_sub(since) >= self.silence() => {
                Some(Ending::SetBack)
            }
            Some(_) => None,
        }
    }

    /// A frame was not taken. Answers why the connection is to be closed, where it is.
    fn take_violation(&mut self, violation: Violation, at: Instants) -> Option<Ending> {
        match violation {
            Violation::Broken(refusal) => return Some(Ending::Broken(refusal)),
            Violation::Order(_, _) => return self.refuse(at),
            Violation::Data(Refusal::BadLength) => self.will_miss(Why::Change),
            _ => {}
        }
        self.counts.ignored = self.counts.ignored.saturating_add(1);
        None
    }

    /// An instant has come: adds the lines that are due, and answers why the connection is to be closed, where it is.
    ///
    /// # Errors
    ///
    /// There is no memory for the lines. They are left out.
    pub fn tick(&mut self, at: Instants) -> Result<Option<Ending>, AllocError> {
        if self.second.is_due(at.millis) {
            if let Some(watcher) = &mut self.watcher {
                watcher.second();
            }
        }
        if self.repeat.is_due(at.millis) {
            self.add_config(at)?;
        }
        if self.heartbeat.is_due(at.millis) {
            let state = self.state(at);
            let entry = self.writer.state(&state)?;
            self.queue.push(entry)?;
        }
        Ok(self.overdue(at))
    }

    /// Why the connection is to be closed by now, where it is.
    fn overdue(&self, at: Instants) -> Option<Ending> {
        if self.watcher.is_none() {
            return None;
        }
        let silence = self.silence();
        if at.millis.saturating_sub(self.heard) >= silence {
            return Some(Ending::Silent(silence / SECOND));
        }
        None
    }

    /// For how many milliseconds no frame may come: as long as asked for, and at least for three of the seconds of a slow rate.
    fn silence(&self) -> u64 {
        let Some(config) = &self.config else {
            return self.silence;
        };
        match config.parts.first() {
            Some(part) if part.rate < 0 => {
                let period = SECOND * u64::from(part.rate.unsigned_abs());
                self.silence.max(3 * period)
            }
            _ => self.silence,
        }
    }

    /// What was counted, at an instant.
    fn state(&self, at: Instants) -> StateLine {
        let counts = self.counts;
        StateLine {
            time: FrameTime::at(at.time),
            is_connected: self.watcher.is_some(),
            frames: counts.frames,
            missing: counts.missing,
            fillers: counts.fillers,
            reconnects: counts.reconnects,
            ignored: counts.ignored,
            dropped: self.queue.dropped(),
            waiting: self.queue.lines(),
            behind: self.behind,
        }
    }

    /// The next bytes for standard output. They stay until `wrote` counts them off.
    ///
    /// # Errors
    ///
    /// There is no memory for them. They wait.
    pub fn output(&mut self) -> Result<&[u8], AllocError> {
        if self.written >= self.hand.len() {
            self.hand.clear();
            self.written = 0;
        }
        if self.written == 0 {
            for _ in 0..PIECE {
                if self.hand.len() >= PIECE || self.queue.is_empty() {
                    break;
                }
                self.hand_out()?;
            }
        }
        Ok(self.hand.as_bytes().get(self.written..).unwrap_or(&[]))
    }

    /// Hands out the lines of the oldest entry, behind its gap line. Where there is no memory for them the entry is dropped.
    fn hand_out(&mut self) -> Result<(), AllocError> {
        let Some(entry) = self.queue.pop() else {
            return Ok(());
        };
        let done = self.put_entry(&entry);
        match entry.content {
            Content::Frame(time, _) if done.is_ok() => self.shown = Some(time),
            _ if done.is_err() => self.queue.lose(entry),
            _ => {}
        }
        done
    }

    /// Adds the lines of an entry, behind its gap line, to what is handed out: all of them or none.
    fn put_entry(&mut self, entry: &Entry) -> Result<(), AllocError> {
        let Content::Frame(to, Some(gap)) = entry.content else {
            return self.hand.push_str(entry.text.as_str());
        };
        let from = self.shown;
        let mut text = String::new(self.alloc);
        self.writer.put_gap(&mut text, &GapLine { from, to, gap })?;
        text.push_str(entry.text.as_str())?;
        self.hand.push_str(text.as_str())
    }

    /// So many of the bytes of `output` were written.
    pub fn wrote(&mut self, count: usize) {
        self.written = self.written.saturating_add(count);
    }
}

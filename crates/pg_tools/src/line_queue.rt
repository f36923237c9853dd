//! The lines that wait for standard output. Where too many wait the oldest are dropped, and the slots of dropped frames are reported as a gap.

ghost use Rattle.std.specs.Prelude.{◌≡◌, ◌≤◌, ◌⊎◌, ◌+◌, ◌++◌, ◌∷◌, [], None, OnOk, IfErr, drop, length};
ghost use Rattle.pg_tools.specs.Queueing.{fitting, gap_with, handed, is_nothing, joined, kept_by, lines_behind, lines_then, lost_then, nothing_waits, lost_with, saturated, slots_of, standing, waiting_behind};

use crate::lines::FrameTime;
use std::alloc::{AllocError, Global};
use std::collections::VecDeque;
use std::marker::Model;

/// Why slots have no data line.
#[derive(Clone, Copy, PartialEq, Eq)]
pub enum Why {
    /// No frame of them came over the connection.
    Missing,
    /// The connection was made again meanwhile.
    Reconnect,
    /// The configuration changed meanwhile.
    Change,
    /// Standard output did not take their lines in time.
    Output,
}

impl Why {
    /// Its word in a line.
    pub fn word(self) -> &'static str {
        match self {
            Why::Missing => "missing",
            Why::Reconnect => "reconnect",
            Why::Change => "change",
            Why::Output => "output",
        }
    }
}

/// Slots directly before a frame that have no data line.
#[derive(Clone, Copy, PartialEq, Eq)]
pub struct Gap {
    /// How many.
    pub slots: u64,
    /// Why.
    pub why: Why,
}

/// What the lines of an entry are of.
#[derive(Clone, Copy)]
pub enum Content {
    /// A data frame of this time, with the gap before it.
    Frame(FrameTime, Option<Gap>),
    /// A configuration.
    Config,
    /// The state.
    State,
}

/// Lines that are kept or dropped together.
#[derive(Drop)]
pub struct Entry {
    /// What they are of.
    pub content: Content,
    /// How many they are.
    pub lines: usize,
    /// Their text, each with its line feed.
    pub text: String,
}

/// The slots that an entry stands for: that of its frame, and those of the gap before it.
fn slots_of_content(content: Content) -> u64
    ensures { result ≡ slots_of content }
{
    match content {
        Content::Frame(_, None) => 1,
        Content::Frame(_, Some(gap)) => gap.slots.saturating_add(1),
        Content::Config | Content::State => 0,
    }
}

/// The gap before a frame, where so many slots directly before it were dropped: their gap is joined to its own.
fn join_gap(lost: u64, gap: Option<Gap>) -> Option<Gap>
    ensures { result ≡ gap_with lost gap }
{
    if lost == 0 {
        return gap;
    }
    let own = match gap {
        Some(gap) => gap.slots,
        None => 0,
    };
    Some(Gap {
        slots: lost.saturating_add(own),
        why: Why::Output,
    })
}

/// What an entry is handed out as, where so many slots before it were dropped.
fn join(lost: u64, content: Content) -> Content
    ensures { result ≡ joined lost content }
{
    match content {
        Content::Frame(time, gap) => Content::Frame(time, join_gap(lost, gap)),
        Content::Config | Content::State => content,
    }
}

/// Entries in order, of so many lines at most, or one entry. Where more come, the oldest entries are dropped: of frames the slots are
/// counted, and join the gap before the next frame; of configurations the last one comes again before what follows.
#[derive(Drop)]
pub struct LineQueue {
    entries: VecDeque<Entry>,
    most: usize,
    lines: usize,
    lost: u64,
    dropped: u64,
    config: Option<Entry>,
}

impl Model for LineQueue {
    ghost use Rattle.pg_tools.specs.Queueing.{Waiting};

    ghost Value = { Waiting };

    ghost view = { λ q. record { entries = q.entries.items; most = q.most; lines = q.lines; lost = q.lost; dropped = q.dropped; config = q.config } };
}

impl LineQueue {
    /// An empty queue of so many lines at most.
    pub fn new(alloc: Global, most: usize) -> LineQueue
        ensures { result ≡ nothing_waits most }
    {
        LineQueue {
            entries: VecDeque::new(alloc),
            most,
            lines: 0,
            lost: 0,
            dropped: 0,
            config: None,
        }
    }

    /// How many lines wait.
    pub fn lines(&self) -> usize
        ensures { result ≡ self.now.lines }
    {
        self.lines
    }

    /// How many slots the entries stood for that were dropped so far.
    pub fn dropped(&self) -> u64
        ensures { result ≡ self.now.dropped }
    {
        self.dropped
    }

    /// Whether nothing waits.
    pub fn is_empty(&self) -> bool
        ensures { result ≡ is_nothing self.now }
    {
        self.entries.is_empty() && self.config.is_none()
    }

    /// Adds an entry, and then drops the oldest ones until at most so many lines wait as may, or one entry; no more than has to be.
    ///
    /// # Errors
    ///
    /// There is no memory; nothing has changed.
    pub fn push(&mut self, entry: Entry) -> Result<(), AllocError>
        ensures slots { OnOk result (standing self.new.lost self.new.entries ≡ standing self.old.lost (self.old.entries ++ entry ∷ [])) }
        ensures entries { OnOk result (self.new.entries ≡ fitting self.old.most (saturated (self.old.lines + entry.lines)) (self.old.entries ++ entry ∷ [])) }
        ensures room { OnOk result ((self.new.lines ≤ self.new.most) ⊎ (length self.new.entries ≤ 1)) }
        ensures most { self.new.most ≡ self.old.most }
        ensures memory { IfErr result (λ _. self.new ≡ self.old) }
    {
        let lines = entry.lines;
        self.entries.push_back(entry)?;
        self.lines = self.lines.saturating_add(lines);
        'room: for _ in 1..self.entries.len() {
            if self.lines <= self.most {
                break;
            }
            self.drop_first();
        }
        Ok(())
    }

    /// Drops the oldest entry.
    fn drop_first(&mut self)
        ensures slots { standing self.new.lost self.new.entries ≡ standing self.old.lost self.old.entries }
        ensures entries { self.new.entries ≡ drop 1 self.old.entries }
        ensures lines { self.new.lines ≡ lines_behind self.old.lines self.old.entries }
        ensures most { self.new.most ≡ self.old.most }
    {
        let Some(entry) = self.entries.pop_front() else {
            return;
        };
        self.lines = self.lines.saturating_sub(entry.lines);
        self.lose(entry);
    }

    /// Drops an entry that was the oldest one: of a frame its slots are counted, a configuration is kept for what follows.
    pub fn lose(&mut self, entry: Entry)
        ensures state { self.new ≡ record self.old { lost = lost_with self.old.lost entry.content; dropped = lost_with self.old.dropped entry.content; config = kept_by self.old.config entry entry.content } }
    {
        let slots = slots_of_content(entry.content);
        self.lost = self.lost.saturating_add(slots);
        self.dropped = self.dropped.saturating_add(slots);
        if let Content::Config = entry.content {
            self.config = Some(entry);
        }
    }

    /// Takes the oldest entry. Where frames before it were dropped, their slots stand in the gap of the next frame.
    pub fn pop(&mut self) -> Option<Entry>
        ensures value { result ≡ handed self.old.config self.old.lost self.old.entries }
        ensures entries { self.new.entries ≡ waiting_behind self.old.config self.old.entries }
        ensures lost { self.new.lost ≡ lost_then self.old.config self.old.lost self.old.entries }
        ensures config { self.new.config ≡ None }
        ensures lines { self.new.lines ≡ lines_then self.old.config self.old.lines self.old.entries }
        ensures dropped { self.new.dropped ≡ self.old.dropped }
        ensures most { self.new.most ≡ self.old.most }
    {
        if let Some(config) = self.config.take() {
            return Some(config);
        }
        let Entry {
            content,
            lines,
            text,
        } = self.entries.pop_front()?;
        self.lines = self.lines.saturating_sub(lines);
        let joined = join(self.lost, content);
        if let Content::Frame(_, _) = content {
            self.lost = 0;
        }
        Some(Entry {
            content: joined,
            lines,
            text,
        })
    }
}

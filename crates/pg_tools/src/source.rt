//! A simulated source, apart from sockets and clocks: bytes of commands go in, bytes of frames come out.

ghost use Rattle.std.specs.Prelude.{◌≡◌, ◌⊎◌, ◌+◌, ◌/◌, ◌^◌, ◌≤◌, ◌<◌, length, IfOk, None, is_some};
ghost use Rattle.pg_tools.specs.Playing.{sending_after, done_by, least_slot, IsAfter};

use crate::layout::blocks_of;
use crate::measuring::add_measured;
use crate::settings::Settings;
use crate::unix_time::{TIME_BASE, UnixTime};
use pg_command::{Word, read_command};
use pg_config::{end_config, start_config, write_header};
use pg_stream::stamp_of;
use pg_wire::{Deframer, Head, Kind, Refusal, StreamId, Taken, end_frame, start_frame};
use std::alloc::Global;

/// How many bytes a frame has beside its body.
const AROUND_BODY: usize = 16;

/// The seconds with data frames between two silences of the fault `silence`.
const SENDING_SECONDS: u64 = 10;

/// What a source has done.
#[derive(Clone, Copy)]
pub struct SourceCounts {
    /// Commands that were obeyed.
    pub obeyed: u64,
    /// Frames of the peer that were ignored.
    pub ignored: u64,
    /// Data frames that were sent.
    pub sent: u64,
    /// Data frames that a fault left out.
    pub left_out: u64,
    /// Data frames that were sent with a wrong CHK.
    pub spoiled: u64,
}

impl SourceCounts {
    /// Nothing yet.
    pub const NONE: SourceCounts = SourceCounts {
        obeyed: 0,
        ignored: 0,
        sent: 0,
        left_out: 0,
        spoiled: 0,
    };
}

/// What comes next of the bytes that a source was fed.
#[derive(Clone, Copy)]
pub enum CommandEvent {
    /// This command was obeyed.
    Obeyed(Word),
    /// This command is known, and not obeyed: the fault `no-config` keeps the answer back, or it is none of 1 to 5.
    NotAnswered(Word),
    /// A frame was ignored: `BadCheck` or `BadVersion`; `WrongType` or `BadLength`, it is no command; `NoSuchStream`, it is for
    /// another IDCODE; `UnknownCommand`.
    Ignored(Refusal),
    /// More bytes have to come.
    More,
    /// The bytes broke, and the connection is to be closed: `BadFirst`, `BadSecond` or `ShortSize`.
    Broken(Refusal),
}

/// A source that is simulated, to one client. It obeys commands 1 to 5 of that client, and has data frames on the slots of
/// its rate while data is on.
#[derive(Drop)]
pub struct Source {
    alloc: Global,
    settings: Settings,
    /// When it began, by its own clock.
    start: UnixTime,
    /// The configuration blocks, and the number of the configuration that they are of.
    blocks: Vec<u8>,
    configuration: u64,
    deframer: Deframer,
    /// The last slot that is done with, while data is on.
    pub sending: Option<u64>,
    /// The number of the configuration that was sent unasked last.
    announced: Option<u64>,
    counts: SourceCounts,
}

impl Source {
    /// A source with these settings, whose data is off. It began at this time of this machine's clock, which may be before its client connected.
    ///
    /// # Errors
    ///
    /// `NoMemory`.
    pub fn new(alloc: Global, settings: Settings, start: UnixTime) -> Result<Source, Refusal>
        ensures { IfOk result (λ source. source.sending ≡ None) }
    {
        Ok(Source {
            alloc,
            settings,
            start: start.shifted(settings.faults.clock),
            blocks: blocks_of(alloc, &settings, 0)?,
            configuration: 0,
            deframer: Deframer::new(alloc)?,
            sending: None,
            announced: None,
            counts: SourceCounts::NONE,
        })
    }

    /// What it has done since it was made.
    pub fn counts(&self) -> SourceCounts {
        self.counts
    }

    /// Whether data is on.
    pub fn is_sending(&self) -> bool
        ensures { result ≡ is_some self.now.sending }
    {
        self.sending.is_some()
    }

    /// Takes the next bytes of the peer, and answers how many of them there was room for: `next` makes room.
    pub fn feed(&mut self, bytes: &[u8]) -> usize
        ensures taken { result ≤ length bytes.now }
        ensures same { self.new.sending ≡ self.old.sending }
    {
        let taken = bytes.len().min(self.deframer.room());
        self.deframer.feed(&bytes[..taken]);
        taken
    }

    /// What comes next of the peer's bytes. A command is obeyed at once, and the answer to it is added to `out`.
    ///
    /// # Errors
    ///
    /// `NoMemory`, where the answer finds none.
    pub fn next(&mut self, now: UnixTime, out: &mut Vec<u8>) -> Result<CommandEvent, Refusal>
        // Just the commands 1 and 2 for its IDCODE switch data.
        ensures { IfOk result (λ event. IsAfter event self.old.sending self.new.sending) }
    {
        let read = match self.deframer.next() {
            Taken::Frame(frame) => read_command(frame),
            Taken::Skipped(refusal) => Err(refusal),
            Taken::More => return Ok(CommandEvent::More),
            Taken::Broken(refusal) => return Ok(CommandEvent::Broken(refusal)),
        };
        let word = match read {
            Ok(command) if command.stream != self.settings.numbers.first => {
                Err(Refusal::NoSuchStream)
            }
            Ok(command) => Word::of(command.word).ok_or(Refusal::UnknownCommand),
            Err(refusal) => Err(refusal),
        };
        match word {
            Ok(word) => self.obey(word, now, out),
            Err(refusal) => {
                self.counts.ignored = self.counts.ignored.saturating_add(1);
                Ok(CommandEvent::Ignored(refusal))
            }
        }
    }

    /// Obeys a command.
    fn obey(
        &mut self,
        word: Word,
        now: UnixTime,
        out: &mut Vec<u8>,
    ) -> Result<CommandEvent, Refusal>
        ensures { IfOk result (λ event. IsAfter event self.old.sending self.new.sending) }
    {
        let at = self.clock(now);
        let answered = match word {
            Word::StopData | Word::StartData => true,
            Word::SendHeader => {
                add_header(self.alloc, &self.settings, at, out)?;
                true
            }
            Word::SendCfgOne => self.answer_config(Kind::CfgOne, at, out)?,
            Word::SendCfgTwo => self.answer_config(Kind::CfgTwo, at, out)?,
            Word::SendCfgThree | Word::Extended => false,
        };
        self.sending = after_command(self.sending, word, at.slot(self.settings.rate));
        if !answered {
            self.counts.ignored = self.counts.ignored.saturating_add(1);
            return Ok(CommandEvent::NotAnswered(word));
        }
        self.counts.obeyed = self.counts.obeyed.saturating_add(1);
        Ok(CommandEvent::Obeyed(word))
    }

    /// Its own time, at this instant: the fault `clock` puts it off.
    fn clock(&self, now: UnixTime) -> UnixTime {
        now.shifted(self.settings.faults.clock)
    }

    /// Adds CFG-1 or CFG-2, and answers whether it does: the fault `no-config` keeps it back.
    fn answer_config(
        &mut self,
        kind: Kind,
        at: UnixTime,
        out: &mut Vec<u8>,
    ) -> Result<bool, Refusal>
        requires { (kind ≡ Kind.CfgOne) ⊎ (kind ≡ Kind.CfgTwo) }
        ensures { self.new.sending ≡ self.old.sending }
    {
        if self.settings.faults.no_config {
            return Ok(false);
        }
        self.add_config(kind, at, out)?;
        Ok(true)
    }

    /// Adds CFG-1 or CFG-2 with the configuration that is in force at an instant of its clock.
    fn add_config(&mut self, kind: Kind, at: UnixTime, out: &mut Vec<u8>) -> Result<(), Refusal>
        requires { (kind ≡ Kind.CfgOne) ⊎ (kind ≡ Kind.CfgTwo) }
        ensures { self.new.sending ≡ self.old.sending }
    {
        let configuration = self.settings.faults.configuration_at(at);
        if configuration != self.configuration {
            self.blocks = blocks_of(self.alloc, &self.settings, configuration)?;
            self.configuration = configuration;
        }
        let frame = config_frame(self.alloc, &self.settings, &self.blocks, kind, at)?;
        out.extend_from_slice(&frame)?;
        Ok(())
    }

    /// Adds CFG-2 where the fault `unasked` sends it and the client has none of the configuration that is in force at an instant of its clock.
    fn announce(&mut self, at: UnixTime, out: &mut Vec<u8>) -> Result<(), Refusal>
        ensures { self.new.sending ≡ self.old.sending }
    {
        let configuration = Some(self.settings.faults.configuration_at(at));
        if self.settings.faults.unasked && self.announced != configuration {
            self.add_config(Kind::CfgTwo, at, out)?;
            self.announced = configuration;
        }
        Ok(())
    }

    /// Adds the data frames that are due at an instant: those of the slots since the last call, of a second at most, or of a second more
    /// than the fault `backlog` holds back. A source that was held up for longer leaves out what lies further back, and one whose clock was set
    /// back by more than a second goes on from there. With the fault `unasked` CFG-2 stands before the first data frame, and before the first
    /// one of another configuration; while data is off it is added at the first call in a configuration.
    ///
    /// # Errors
    ///
    /// `NoMemory`. The frames before it stand in `out`, and are due no more.
    pub fn due(&mut self, now: UnixTime, out: &mut Vec<u8>) -> Result<(), Refusal>
        ensures { self.old.sending ≡ None → self.new.sending ≡ None }
    {
        if let Some(sent) = self.sending {
            let last = self.last_done(sent, now);
            self.sending = Some(last);
            let end = self.last_due(now);
            let first = first_due(last, end, self.most_due());
            if first <= end {
                self.sending = Some(end);
                for slot in first..=end {
                    self.add_data(slot, out)?;
                }
            }
        }
        self.announce(self.released(now), out)
    }

    /// The instant of its clock up to which data frames are sent: the faults `late` and `backlog` put it off.
    fn released(&self, now: UnixTime) -> UnixTime {
        let faults = self.settings.faults;
        faults.released_at(self.clock(now).earlier(faults.late))
    }

    /// The last slot that is done with at an instant, where the slots up to `sent` were sent or left out.
    fn last_done(&self, sent: u64, now: UnixTime) -> u64 {
        let rate = self.settings.rate;
        last_done(sent, self.clock(now).slot(rate), rate.frames)
    }

    /// The last slot that is due at an instant.
    fn last_due(&self, now: UnixTime) -> u64 {
        self.released(now).slot(self.settings.rate)
    }

    /// The most slots that are due at once.
    fn most_due(&self) -> u64
        ensures { 0 < result }
    {
        u64::from(self.settings.rate.frames) * (1 + u64::from(self.settings.faults.backlog))
    }

    /// Skips the data frames that are due at an instant: the peer does not take them.
    pub fn skip_due(&mut self, now: UnixTime)
        ensures { self.old.sending ≡ None → self.new.sending ≡ None }
    {
        let Some(sent) = self.sending else {
            return;
        };
        self.sending = Some(self.last_due(now).max(self.last_done(sent, now)));
    }

    /// Adds the data frame of a slot, unless a fault leaves it out, behind CFG-2 where that is due.
    fn add_data(&mut self, slot: u64, out: &mut Vec<u8>) -> Result<(), Refusal>
        ensures { self.new.sending ≡ self.old.sending }
    {
        let rate = u64::from(self.settings.rate.frames);
        let faults = self.settings.faults;
        if slot / rate > u64::from(u32::MAX) {
            self.counts.left_out = self.counts.left_out.saturating_add(1);
            return Ok(());
        }
        let (soc, frac) = stamp_of(self.settings.rate.frames, TIME_BASE, slot);
        let at = UnixTime::new(soc, frac);
        self.announce(at, out)?;
        if is_silent(slot / rate, faults.silence) || happens(slot, 1, faults.drop) {
            self.counts.left_out = self.counts.left_out.saturating_add(1);
            return Ok(());
        }
        let mut frame = data_frame(self.alloc, &self.settings, self.start, at)?;
        if happens(slot, 2, faults.wrong_check) {
            if let Some(last) = frame.last_mut() {
                *last = !*last;
            }
            self.counts.spoiled = self.counts.spoiled.saturating_add(1);
        }
        out.extend_from_slice(&frame)?;
        self.counts.sent = self.counts.sent.saturating_add(1);
        Ok(())
    }

    /// How many microseconds there are until the next data frame is due, none while data is off: at most a second and what the faults
    /// `late` and `backlog` hold back.
    pub fn until_due(&self, now: UnixTime) -> Option<u64>
        ensures { is_some result ≡ is_some self.now.sending }
    {
        let last = self.sending?;
        let rate = u64::from(self.settings.rate.frames);
        let next = last.saturating_add(1);
        let start = (next / rate)
            .saturating_mul(1_000_000)
            .saturating_add((next % rate * 1_000_000).div_ceil(rate));
        let sent = self.settings.faults.sent_at(UnixTime { micros: start });
        let late = u64::from(self.settings.faults.late) * 1_000;
        Some(
            sent.micros
                .saturating_add(late)
                .saturating_sub(self.clock(now).micros),
        )
    }
}

/// The last slot that is done with, while data is on: a start begins behind the slot of its instant, another one changes
/// nothing, and a stop ends it.
fn after_command(sending: Option<u64>, word: Word, slot: u64) -> Option<u64>
    ensures { result ≡ sending_after sending word slot }
{
    match word {
        Word::StartData => Some(sending.unwrap_or(slot)),
        Word::StopData => None,
        _ => sending,
    }
}

/// The last slot that is done with, where the slots up to `sent` were, by the slot of the source's clock and its rate: the clock's own one where
/// that was set back by more than a second.
fn last_done(sent: u64, clock: u64, rate: u8) -> u64
    ensures { result ≡ done_by sent clock rate }
{
    if sent.saturating_sub(clock) > u64::from(rate) {
        clock
    } else {
        sent
    }
}

/// The first slot that is due behind `last`, where `end` is the last one and at most so many are due.
fn first_due(last: u64, end: u64, most: u64) -> u64
    requires { 0 < most }
    ensures { last + 1 < 2 ^ 64 → result ≡ least_slot last end most }
{
    let next = last.saturating_add(1);
    let least = end.saturating_sub(most - 1);
    if next < least { least } else { next }
}

/// Whether no frames are sent in this second: after every ten seconds with frames, so many are silent.
fn is_silent(second: u64, silence: u32) -> bool {
    second % (SENDING_SECONDS + u64::from(silence)) >= SENDING_SECONDS
}

/// Whether something that happens to so many of a hundred slots happens to this one: always the same ones.
fn happens(slot: u64, salt: u64, percent: u8) -> bool {
    let mixed = slot
        .wrapping_mul(2)
        .wrapping_add(salt)
        .wrapping_mul(0x9E37_79B9_7F4A_7C15);
    (mixed >> 33) % 100 < u64::from(percent)
}

/// The stream whose number a source's frames carry.
fn stream_of(settings: &Settings) -> Result<StreamId, Refusal> {
    StreamId::new(settings.numbers.first).ok_or(Refusal::WrongId)
}

/// Adds the header frame (C37.118.2, 6.5).
fn add_header(
    alloc: Global,
    settings: &Settings,
    at: UnixTime,
    out: &mut Vec<u8>,
) -> Result<(), Refusal> {
    let pmus = settings.numbers.pmus;
    let rate = settings.rate.frames;
    let s = if pmus == 1 { "" } else { "s" };
    let text = format!(in alloc; "pdcgw simulate: {pmus} PMU{s}, {rate} frames a second")?;
    let bytes = text.as_bytes();
    if bytes.len() > 1_024 || !bytes.is_ascii() {
        return Err(Refusal::BadLength);
    }
    let frame = write_header(alloc, stream_of(settings)?, at.soc(), bytes)?;
    out.extend_from_slice(&frame)?;
    Ok(())
}

/// CFG-1 or CFG-2, which are alike: it reports what it can report.
fn config_frame(
    alloc: Global,
    settings: &Settings,
    blocks: &[u8],
    kind: Kind,
    at: UnixTime,
) -> Result<Vec<u8>, Refusal>
    requires { (kind ≡ Kind.CfgOne) ⊎ (kind ≡ Kind.CfgTwo) }
{
    let len = match u16::try_from(blocks.len()) {
        Ok(len) if len <= 32_000 => len,
        _ => return Err(Refusal::ConfigTooLarge),
    };
    let pmus = u16::from(settings.numbers.pmus);
    let id = stream_of(settings)?;
    let mut frame = start_config(alloc, kind, id, at.soc(), TIME_BASE, pmus, len)?;
    frame.extend_from_slice(blocks)?;
    frame.reserve(4)?;
    end_config(&mut frame, settings.rate.frames);
    Ok(frame)
}

/// The data frame of an instant, of a source that began at `start`, both by its own clock.
fn data_frame(
    alloc: Global,
    settings: &Settings,
    start: UnixTime,
    at: UnixTime,
) -> Result<Vec<u8>, Refusal> {
    let faults = settings.faults;
    let blocks = u16::from(settings.numbers.pmus) * settings.channels.block_len();
    let head = Head {
        kind: Kind::Measured,
        version: 2,
        size: AROUND_BODY as u16 + blocks,
        id: settings.numbers.first,
        soc: at.soc(),
        quality: faults.quality_at(start, at),
        frac: at.fraction(),
    };
    let mut frame = start_frame(alloc, &head)?;
    let stat = faults.stat_at(start, at);
    let configuration = faults.configuration_at(at);
    for pmu in 0..settings.numbers.pmus {
        add_measured(&mut frame, settings, at, pmu, stat, configuration)?;
    }
    frame.reserve(2)?;
    end_frame(&mut frame);
    Ok(frame)
}

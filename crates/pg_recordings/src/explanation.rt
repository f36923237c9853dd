//! Why a subscriber was sent what it was sent, frame by frame.

use crate::capture::Capture;
use crate::explained::{Form, Totals, print_frame, print_heading};
use crate::fates::{Causes, Fate, Handing, MadeFrame, Place, StreamTrack, is_quiet};
use crate::input::{command, four};
use crate::reader::{Fault, RecordReader, Start, Step};
use crate::replayed::Replayed;
use crate::script::{flush, notice_text, print_comment, start_text};
use pg_audit::PmuStats;
use pg_data::DataFrame;
use pg_gateway::{Event, Reply};
use pg_record::{Elapsed, RecordKind, Timed};
use pg_wire::{Deframer, Kind, PmuKey, Refusal, StreamId, SubId, Taken, is_frame, read_head};
use std::alloc::{AllocError, Global};
use std::collections::VecDeque;
use std::io::Write;

/// For how many milliseconds after a frame has left its blocks may come to be printed as late.
const LATEST_MS: u64 = 60_000;

/// How many frames of 16 bytes a piece of 65,535 bytes has at most.
const MOST_FRAMES: usize = 4_096;

/// Of how many ignored frames at a time the slots are looked for.
const MOST_IGNORED: u64 = 256;

/// What is asked.
#[derive(Clone, Copy)]
pub struct Inquiry {
    /// Whose frames.
    pub subscriber: SubId,
    /// Of which stream; all of them where it is `None`.
    pub stream: Option<StreamId>,
    /// The times of their slots, from the first one on and before the second one: milliseconds since 1970-01-01 00:00 UTC.
    pub from: u64,
    pub to: u64,
    /// Whether each member of a frame is a line of comma-separated values.
    pub is_csv: bool,
}

/// A block that is about to be posted, of a member of a stream.
#[derive(Drop)]
struct Expected {
    stream: usize,
    member: usize,
    slot: u64,
    key: PmuKey,
    // What was counted before.
    stats: PmuStats,
    late: u64,
}

/// Frames of a source that were ignored.
#[derive(Clone, Copy)]
struct IgnoredFrames {
    source: u16,
    reason: Refusal,
    count: u64,
    at: u64,
}

/// What an event may change for the subscriber.
#[derive(Drop)]
enum Concern {
    Blocks(Vec<Expected>),
    Defines(StreamTrack),
    Removes(StreamId),
    Commands,
    Disconnects,
    Leaves,
    Connects,
    Nothing,
}

/// A replay that notes what becomes of a subscriber's frames.
#[derive(Drop)]
struct Explanation<C> {
    alloc: Global,
    inquiry: Inquiry,
    replayed: Replayed,
    // Whether a recording has begun: a start behind it is another one of the service.
    is_begun: bool,
    // How long the recordings have gone on, and for how many milliseconds when the last one began.
    elapsed: Elapsed,
    since: u64,
    streams: Vec<StreamTrack>,
    // Those that are not printed yet.
    frames: VecDeque<MadeFrame>,
    handed: Deframer,
    capture: Option<Capture<C>>,
    totals: Totals,
}

/// Replays a recording and prints a line for each data frame of the subscriber whose slot lies in the time that is asked for: when it left and
/// why, what became of each member's block, and when it was handed out. What is handed out in that time is written to `capture` as packets.
///
/// # Errors
///
/// Those of the reader; the output can't be written.
pub fn explain<W: Write, C: Write + Drop>(
    alloc: Global,
    reader: &mut RecordReader<'_>,
    inquiry: Inquiry,
    out: &mut W,
    capture: Option<C>,
) -> Result<Totals, Fault> {
    let mut explanation = Explanation::new(alloc, inquiry, capture)?;
    explanation.print_all(reader, out)
}

impl Inquiry {
    /// How the answer is printed.
    fn form(&self) -> Form {
        if self.is_csv { Form::Csv } else { Form::Text }
    }

    /// Whether a frame with this time is asked for.
    fn asks_for(&self, stream: StreamId, time: u64) -> bool {
        self.is_of(stream) && self.is_within(time)
    }

    /// Whether it is asked for this stream.
    fn is_of(&self, stream: StreamId) -> bool {
        match self.stream {
            Some(asked) => asked == stream,
            None => true,
        }
    }

    /// Whether it is asked for this time.
    fn is_within(&self, time: u64) -> bool {
        self.from <= time && time < self.to
    }
}

impl<C: Write + Drop> Explanation<C> {
    /// Nothing is replayed yet.
    fn new(alloc: Global, inquiry: Inquiry, capture: Option<C>) -> Result<Explanation<C>, Fault> {
        let Ok(handed) = Deframer::new(alloc) else {
            return Err(Fault::NoMemory);
        };
        let capture = match capture {
            Some(file) => Some(Capture::new(file)?),
            None => None,
        };
        Ok(Explanation {
            alloc,
            inquiry,
            replayed: Replayed::new(alloc)?,
            is_begun: false,
            elapsed: Elapsed::new(),
            since: 0,
            streams: Vec::new(alloc),
            frames: VecDeque::new(alloc),
            handed,
            capture,
            totals: Totals::none(),
        })
    }

    /// Replays all that the reader has, prints the frames that are asked for, and returns what it counted.
    fn print_all<W: Write>(
        &mut self,
        reader: &mut RecordReader<'_>,
        out: &mut W,
    ) -> Result<Totals, Fault> {
        print_heading(self.inquiry.form(), out)?;
        for _ in 0..u64::MAX {
            let step = reader.next()?;
            if !self.follow_step(step, reader, out)? {
                break;
            }
        }
        self.end(out)?;
        Ok(self.totals)
    }

    /// Follows a step of the reader. Whether another one is to come.
    fn follow_step<W: Write>(
        &mut self,
        step: Step,
        reader: &RecordReader<'_>,
        out: &mut W,
    ) -> Result<bool, Fault> {
        match step {
            Step::Start(start) => self.begin(start, out)?,
            Step::Record(timed) if self.is_over(timed.at) => return Ok(false),
            Step::Record(timed) => self.take_and_print(&timed, out)?,
            Step::Gap(from, to) => self.note_gap(from, to, out)?,
            Step::Notice(file, notice) => {
                if let Some(path) = reader.paths().get(file) {
                    self.totals.missing = self.totals.missing.saturating_add(1);
                    let text = notice_text(self.alloc, path.as_str(), notice)?;
                    print_comment(self.alloc, text.as_str(), out)?;
                }
            }
            Step::End => return Ok(false),
        }
        Ok(true)
    }

    /// Posts what was recorded, and prints the frames of which nothing is to come any more.
    fn take_and_print<W: Write>(&mut self, timed: &Timed, out: &mut W) -> Result<(), Fault> {
        self.elapsed.go_on(timed.at);
        self.take(timed)?;
        self.print_settled(timed.at, out)
    }

    /// Whether all frames that are asked for have left, and are settled.
    fn is_over(&self, now: u64) -> bool {
        if !self.frames.is_empty() {
            return false;
        }
        let end = self.inquiry.to.saturating_add(2 * LATEST_MS);
        let passed = self.elapsed.passed;
        let (mut is_any, mut are_past) = (false, true);
        for track in &self.streams {
            if self.inquiry.is_of(track.id) {
                is_any = true;
                are_past &= track.is_past(end, now, passed);
            }
        }
        if is_any {
            are_past
        } else {
            now >= end && is_quiet(self.since, passed)
        }
    }

    /// Begins a recording. What waited at the end of one before it is not handed out any more.
    fn begin<W: Write>(&mut self, start: Start, out: &mut W) -> Result<(), Fault> {
        let is_first = !self.is_begun;
        self.is_begun = true;
        self.since = self.elapsed.passed;
        if !is_first {
            self.begin_again(start.at)?;
        }
        match start_text(self.alloc, start, is_first)? {
            Some(text) => print_comment(self.alloc, text.as_str(), out),
            None => Ok(()),
        }
    }

    /// The service was started again at this time.
    fn begin_again(&mut self, at: u64) -> Result<(), Fault> {
        self.replayed = Replayed::new(self.alloc)?;
        self.streams.clear();
        self.disconnect(at)
    }

    /// Notes places without a record.
    fn note_gap<W: Write>(&mut self, from: u64, to: u64, out: &mut W) -> Result<(), Fault> {
        self.is_begun = true;
        self.totals.missing = self.totals.missing.saturating_add(to.saturating_sub(from));
        let last = to.saturating_sub(1);
        let text = format!(in self.alloc;
            "missing: places {from} to {last}; what follows may be wrong"
        )?;
        print_comment(self.alloc, text.as_str(), out)
    }

    /// Posts what was recorded, and notes what it changes for the subscriber.
    fn take(&mut self, timed: &Timed) -> Result<(), Fault> {
        self.is_begun = true;
        let Some(event) = self.replayed.event_of(&timed.record, &timed.body)? else {
            if timed.record.kind != RecordKind::Question {
                self.totals.unspelled = self.totals.unspelled.saturating_add(1);
            }
            return self.note_ignored(timed);
        };
        self.post(event, timed)?;
        match timed.record.kind {
            RecordKind::Edit | RecordKind::Configuration => self.look(),
            RecordKind::Command => self.capture_command(timed),
            _ => Ok(()),
        }
    }

    /// Posts an event that was recorded so, and notes what it changes for the subscriber.
    fn post(&mut self, event: Event, timed: &Timed) -> Result<(), Fault> {
        let concern = self.concern_of(&event)?;
        let reply = self.replayed.post(event);
        self.follow(concern, &reply, timed.at)?;
        self.follow_reply(&reply, timed)
    }

    /// Notes the frames that have left with this reply, and those that it hands to the subscriber.
    fn follow_reply(&mut self, reply: &Reply, timed: &Timed) -> Result<(), Fault> {
        match reply {
            Reply::Done { made, .. } if *made > 0 => self.collect(timed.at),
            Reply::Drained {
                buf,
                out: Ok(drained),
            } if timed.record.number == self.inquiry.subscriber.get() => {
                self.hand(buf.get(..drained.len).unwrap_or(&[]), timed.at)
            }
            _ => Ok(()),
        }
    }

    /// What an event may change for the subscriber.
    fn concern_of(&mut self, event: &Event) -> Result<Concern, Fault> {
        let subscriber = self.inquiry.subscriber;
        Ok(match event {
            Event::Measure(frame) => Concern::Blocks(self.expect(frame)?),
            Event::Define(it, definition) if *it == subscriber => {
                let passed = self.elapsed.passed;
                Concern::Defines(StreamTrack::new(self.alloc, definition, passed)?)
            }
            Event::Remove(it, stream) if *it == subscriber => Concern::Removes(*stream),
            Event::DropSub(it) if *it == subscriber => Concern::Leaves,
            Event::Connect(it) if *it == subscriber => Concern::Connects,
            Event::Hangup(it) if *it == subscriber => Concern::Disconnects,
            Event::Command(it, _) if *it == subscriber => Concern::Commands,
            _ => Concern::Nothing,
        })
    }

    /// The blocks of a frame that are those of members, in slots that are asked for.
    fn expect(&mut self, frame: &DataFrame) -> Result<Vec<Expected>, Fault> {
        let mut expected = Vec::new(self.alloc);
        for block in 0..frame.count() {
            let key = frame.key(block);
            for stream in 0..self.streams.len() {
                let Some(track) = self.streams.get(stream) else {
                    break;
                };
                let member = track.members.iter().position(|it| *it == key);
                let slot = track.slot_at(frame.base(), frame.soc, frame.frac);
                let (Some(member), Some(slot)) = (member, slot) else {
                    continue;
                };
                if !self.inquiry.asks_for(track.id, track.time_of(slot)) {
                    continue;
                }
                if let Some(stats) = self.replayed.pmu_stats(key) {
                    let late = self.late_of(stream, member);
                    expected.push(Expected {
                        stream,
                        member,
                        slot,
                        key,
                        stats,
                        late,
                    })?;
                }
            }
        }
        Ok(expected)
    }

    /// How many blocks of a member came late for a stream.
    fn late_of(&mut self, stream: usize, member: usize) -> u64 {
        let subscriber = self.inquiry.subscriber;
        let standing = self.replayed.standing(subscriber, stream, member);
        match standing.and_then(|it| it.member) {
            Some(member) => member.late,
            None => 0,
        }
    }

    /// Notes what an event with this reply changed.
    fn follow(&mut self, concern: Concern, reply: &Reply, at: u64) -> Result<(), Fault> {
        let is_done = matches!(reply, Reply::Done { .. });
        match concern {
            Concern::Blocks(expected) => return self.judge_all(&expected, at),
            _ if !is_done => {}
            Concern::Defines(track) => {
                self.totals.is_known = true;
                self.streams.push(track)?;
            }
            Concern::Removes(stream) => self.forget_stream(stream),
            Concern::Leaves => {
                self.streams.clear();
                self.disconnect(at)?;
            }
            Concern::Disconnects => self.disconnect(at)?,
            Concern::Connects => self.connect(at)?,
            Concern::Commands => self.forget_stopped(),
            _ => {}
        }
        Ok(())
    }

    /// Notes what became of these blocks.
    fn judge_all(&mut self, expected: &[Expected], at: u64) -> Result<(), Fault> {
        for block in expected {
            self.judge(block, at)?;
        }
        Ok(())
    }

    /// A stream is removed.
    fn forget_stream(&mut self, stream: StreamId) {
        let at = self.streams.iter().position(|it| it.id == stream);
        if let Some(at) = at {
            self.streams.remove(at);
        }
    }

    /// The subscriber connects.
    fn connect(&mut self, at: u64) -> Result<(), Fault> {
        let is_within = self.inquiry.is_within(at);
        match &mut self.capture {
            Some(capture) if is_within => capture.open(at),
            _ => Ok(()),
        }
    }

    /// The subscriber's connection has ended: what waited is cleared.
    fn disconnect(&mut self, at: u64) -> Result<(), Fault> {
        for frame in self.frames.iter_mut() {
            if frame.handing == Handing::Waiting {
                frame.handing = Handing::Cleared;
            }
        }
        for track in self.streams.iter_mut() {
            track.forget_open();
        }
        self.handed.reset();
        match &mut self.capture {
            Some(capture) => capture.close(at),
            None => Ok(()),
        }
    }

    /// Forgets the open slots of streams that are off.
    fn forget_stopped(&mut self) {
        for stream in 0..self.streams.len() {
            let standing = self.replayed.standing(self.inquiry.subscriber, stream, 0);
            let is_on = match standing {
                Some(stream) => stream.is_on,
                None => false,
            };
            if let (Some(track), false) = (self.streams.get_mut(stream), is_on) {
                track.forget_open();
            }
        }
    }

    /// Notes what became of a block that came at this time.
    fn judge(&mut self, block: &Expected, at: u64) -> Result<(), Fault> {
        let subscriber = self.inquiry.subscriber;
        let standing = self
            .replayed
            .standing(subscriber, block.stream, block.member);
        let (Some(stream), Some(stats)) = (standing, self.replayed.pmu_stats(block.key)) else {
            return Ok(());
        };
        let Some(member) = &stream.member else {
            return Ok(());
        };
        let fate = if stats.taken == block.stats.taken {
            match reason_of(&block.stats, &stats) {
                Some(refusal) => Fate::Refused(at, refusal),
                None => return Ok(()),
            }
        } else if member.late > block.late {
            Fate::Late(at)
        } else if stream.is_on && member.is_effective {
            Fate::Came(at)
        } else {
            return Ok(());
        };
        self.note(block.stream, block.slot, block.member, fate)
    }

    /// Notes the fate of a member's block: in the frame of its slot where that has left, else for that frame.
    fn note(&mut self, stream: usize, slot: u64, member: usize, fate: Fate) -> Result<(), Fault> {
        let alloc = self.alloc;
        let Some(track) = self.streams.get_mut(stream) else {
            return Ok(());
        };
        let id = track.id;
        if matches!(fate, Fate::Came(_)) {
            return Ok(track.note(alloc, slot, member, fate)?);
        }
        let at = self
            .frames
            .iter()
            .rposition(|it| it.stream == id && it.slot == slot);
        let Some(frame) = at.and_then(|it| self.frames.get_mut(it)) else {
            return Ok(track.note(alloc, slot, member, fate)?);
        };
        if let Some((_, noted)) = frame.fates.get_mut(member) {
            if matches!(noted, Fate::Nothing | Fate::Ignored(..)) {
                *noted = fate;
            }
        }
        Ok(())
    }

    /// Notes of which slots frames were ignored, where a question's record says that some were.
    fn note_ignored(&mut self, timed: &Timed) -> Result<(), Fault> {
        let Some(ignored) = ignored_in(timed) else {
            return Ok(());
        };
        for stream in 0..self.streams.len() {
            let Some(track) = self.streams.get(stream) else {
                break;
            };
            for member in 0..track.members.len() {
                self.note_ignored_of(stream, member, &ignored)?;
            }
        }
        Ok(())
    }

    /// Notes in which slots a member's block was in an ignored frame: of those about the time of arrival the first of which nothing has come.
    fn note_ignored_of(
        &mut self,
        stream: usize,
        member: usize,
        ignored: &IgnoredFrames,
    ) -> Result<(), Fault> {
        let Some(track) = self.streams.get(stream) else {
            return Ok(());
        };
        match track.members.get(member) {
            Some(key) if key.source.get() == ignored.source => {}
            _ => return Ok(()),
        }
        let newest = track.slot_of_arrival(member, ignored.at);
        let mut left = ignored.count.min(MOST_IGNORED);
        for slot in newest.saturating_sub(left)..=newest.saturating_add(1) {
            if left > 0 && self.is_nothing(stream, slot, member, slot >= newest) {
                self.note(
                    stream,
                    slot,
                    member,
                    Fate::Ignored(ignored.at, ignored.reason),
                )?;
                left -= 1;
            }
        }
        Ok(())
    }

    /// Whether it is asked for a slot, and nothing is known of a member's block in it. Of a slot of which nothing is known at all it is if it may begin now.
    fn is_nothing(&self, stream: usize, slot: u64, member: usize, may_begin: bool) -> bool {
        let Some(track) = self.streams.get(stream) else {
            return false;
        };
        if !self.inquiry.asks_for(track.id, track.time_of(slot)) {
            return false;
        }
        let id = track.id;
        let made = self
            .frames
            .iter()
            .rfind(|it| it.stream == id && it.slot == slot);
        match made {
            Some(frame) => matches!(frame.fates.get(member), Some((_, Fate::Nothing))),
            None => match track.noted(slot, member) {
                Some(fate) => fate == Fate::Nothing,
                None => may_begin,
            },
        }
    }

    /// Notes the frames that have left.
    fn collect(&mut self, at: u64) -> Result<(), Fault> {
        for stream in 0..self.streams.len() {
            let standing = self.replayed.standing(self.inquiry.subscriber, stream, 0);
            let Some(counted) = standing else {
                continue;
            };
            let Some(track) = self.streams.get_mut(stream) else {
                break;
            };
            let now = Causes::counted(&counted);
            let causes = now.since(track.causes);
            track.causes = now;
            if causes.sum() > 0 {
                self.collect_of(stream, causes, at)?;
            }
        }
        Ok(())
    }

    /// Notes the frames of a stream that have left for these causes.
    fn collect_of(&mut self, stream: usize, mut causes: Causes, at: u64) -> Result<(), Fault> {
        let Some(id) = self.streams.get(stream).map(|it| it.id) else {
            return Ok(());
        };
        let last = self
            .frames
            .iter()
            .rposition(|it| it.stream == id && it.handing == Handing::Waiting);
        let known = last.and_then(|it| self.frames.get(it)).map(|it| it.stamp);
        let stamps = self.newest(id, causes.sum(), known)?;
        let unseen = causes.sum().saturating_sub(stamps.len() as u64);
        self.totals.unseen = self.totals.unseen.saturating_add(unseen);
        for (soc, frac) in &stamps {
            let Some(track) = self.streams.get_mut(stream) else {
                break;
            };
            let Some(slot) = track.slot_of_stamp(*soc, *frac) else {
                continue;
            };
            let time = track.time_of(slot);
            track.note_left(time, self.elapsed.passed);
            let fates = if self.inquiry.asks_for(id, time) {
                track.take(self.alloc, slot)?
            } else {
                Vec::new(self.alloc)
            };
            let has_filler = fates.iter().any(|(_, fate)| is_filler(*fate));
            let frame = MadeFrame {
                stream: id,
                slot,
                stamp: (*soc, *frac),
                time,
                left: at,
                cause: causes.take(has_filler),
                fates,
                handing: Handing::Waiting,
            };
            self.frames.push_back(frame)?;
        }
        Ok(())
    }

    /// Notes how the members of the streams stand.
    fn look(&mut self) -> Result<(), Fault> {
        let subscriber = self.inquiry.subscriber;
        for stream in 0..self.streams.len() {
            let Some(track) = self.streams.get_mut(stream) else {
                break;
            };
            let mut places = Vec::with_capacity(self.alloc, track.members.len())?;
            for member in 0..track.members.len() {
                let place = self.replayed.standing(subscriber, stream, member);
                places.push(match place.and_then(|it| it.member) {
                    Some(member) => Place {
                        is_granted: member.is_granted,
                        is_effective: member.is_effective,
                    },
                    None => Place {
                        is_granted: false,
                        is_effective: false,
                    },
                })?;
            }
            track.places = places;
        }
        Ok(())
    }

    /// SOC and FRACSEC's numerator of the frames of a stream in the queue that are newer than the known one, so many at most, the oldest first. (Where
    /// the queue has no room for a frame none is newer.)
    fn newest(
        &self,
        stream: StreamId,
        count: u64,
        known: Option<(u32, u32)>,
    ) -> Result<Vec<(u32, u32)>, AllocError> {
        let mut stamps = Vec::new(self.alloc);
        let Some(queue) = self.replayed.queue(self.inquiry.subscriber) else {
            return Ok(stamps);
        };
        let frames = queue.frames();
        for back in 1..=frames {
            if stamps.len() as u64 >= count {
                break;
            }
            let Some((frame, _)) = queue.frame_at(frames - back) else {
                break;
            };
            if let Some((id, soc, frac)) = stamp_in(frame) {
                if id == stream.get() {
                    if known == Some((soc, frac)) {
                        break;
                    }
                    stamps.push((soc, frac))?;
                }
            }
        }
        stamps.reverse();
        Ok(stamps)
    }

    /// Notes which frames these bytes are that were handed out.
    fn hand(&mut self, bytes: &[u8], at: u64) -> Result<(), Fault> {
        let frames = whole_frames(self.alloc, &mut self.handed, bytes)?;
        for frame in &frames {
            self.hand_frame(frame, at)?;
        }
        Ok(())
    }

    /// Notes that a frame was handed out.
    fn hand_frame(&mut self, frame: &[u8], at: u64) -> Result<(), Fault> {
        self.capture_frame(frame, at)?;
        let Some((id, soc, frac)) = stamp_in(frame) else {
            return Ok(());
        };
        let found = self.frames.iter().position(|it| {
            it.handing == Handing::Waiting && it.stream.get() == id && it.stamp == (soc, frac)
        });
        let Some(at_index) = found else {
            return Ok(());
        };
        let mut gap = 0u64;
        for index in 0..=at_index {
            let Some(made) = self.frames.get_mut(index) else {
                break;
            };
            if index == at_index {
                made.handing = Handing::Handed(at, gap);
            } else if made.handing == Handing::Waiting {
                made.handing = Handing::Dropped;
                if made.stream.get() == id {
                    gap = gap.saturating_add(1);
                }
            }
        }
        Ok(())
    }

    /// Writes a frame that was handed out to the capture.
    fn capture_frame(&mut self, frame: &[u8], at: u64) -> Result<(), Fault> {
        let is_asked = match self.inquiry.stream {
            Some(stream) => id_in(frame) == Some(stream.get()),
            None => true,
        };
        let is_within = self.inquiry.is_within(at);
        match &mut self.capture {
            Some(capture) if is_asked && is_within => capture.send(at, frame),
            Some(capture) if is_asked && at < self.inquiry.from => {
                Ok(capture.keep_configuration(self.alloc, at, frame)?)
            }
            _ => Ok(()),
        }
    }

    /// Writes a command of the subscriber to the capture.
    fn capture_command(&mut self, timed: &Timed) -> Result<(), Fault> {
        let is_own = timed.record.number == self.inquiry.subscriber.get();
        if !is_own || !self.inquiry.is_within(timed.at) {
            return Ok(());
        }
        let Some(capture) = &mut self.capture else {
            return Ok(());
        };
        match command(self.alloc, &timed.body)? {
            Some(frame) => capture.receive(timed.at, frame.as_slice()),
            None => Ok(()),
        }
    }

    /// Prints the frames of which nothing is to come any more.
    fn print_settled<W: Write>(&mut self, now: u64, out: &mut W) -> Result<(), Fault> {
        for _ in 0..u64::MAX {
            let is_settled = match self.frames.front() {
                Some(frame) => {
                    frame.handing != Handing::Waiting
                        && (frame.fates.is_empty() || now >= frame.left.saturating_add(LATEST_MS))
                }
                None => false,
            };
            if !is_settled {
                break;
            }
            self.print_first(out)?;
        }
        Ok(())
    }

    /// Prints the first frame.
    fn print_first<W: Write>(&mut self, out: &mut W) -> Result<(), Fault> {
        let Some(frame) = self.frames.pop_front() else {
            return Ok(());
        };
        if !self.inquiry.asks_for(frame.stream, frame.time) {
            return Ok(());
        }
        self.totals.count(&frame);
        print_frame(self.alloc, self.inquiry.form(), &frame, out)
    }

    /// Prints what is left, and the totals.
    fn end<W: Write>(&mut self, out: &mut W) -> Result<(), Fault> {
        for _ in 0..self.frames.len() {
            self.print_first(out)?;
        }
        if let Some(capture) = &mut self.capture {
            capture.end()?;
        }
        self.totals.print(self.alloc, self.inquiry.form(), out)?;
        flush(out)
    }
}

/// Whether a frame has a filler for a block with this fate.
pub(crate) fn is_filler(fate: Fate) -> bool {
    matches!(
        fate,
        Fate::Late(_) | Fate::Refused(..) | Fate::Ignored(..) | Fate::Nothing
    )
}

/// What a question's record says of ignored frames: the source and the number of the reason in two bytes each, and the count in four.
fn ignored_in(timed: &Timed) -> Option<IgnoredFrames> {
    if timed.record.kind != RecordKind::Question || timed.body.len() != 8 {
        return None;
    }
    let why = four(&timed.body)?;
    let count = four(timed.body.get(4..)?)?;
    let reason = Refusal::ALL
        .into_iter()
        .find(|it| u32::from(it.number()) == why % 65_536)?;
    Some(IgnoredFrames {
        source: u16::try_from(why / 65_536).ok()?,
        reason,
        count: u64::from(count),
        at: timed.at,
    })
}

/// The reason that was counted since.
fn reason_of(before: &PmuStats, after: &PmuStats) -> Option<Refusal> {
    Refusal::ALL.into_iter().find(|it| {
        let number = usize::from(it.number());
        before.by_reason.get(number) != after.by_reason.get(number)
    })
}

/// The whole frames that come with these bytes.
fn whole_frames(
    alloc: Global,
    deframer: &mut Deframer,
    bytes: &[u8],
) -> Result<Vec<Vec<u8>>, AllocError> {
    let mut frames = Vec::new(alloc);
    let mut rest = bytes;
    for _ in 0..=bytes.len() {
        let (piece, behind) = rest.split_at(rest.len().min(deframer.room()));
        deframer.feed(piece);
        rest = behind;
        for _ in 0..MOST_FRAMES {
            match deframer.next() {
                Taken::Frame(frame) => frames.push(frame.to_vec(alloc)?)?,
                _ => break,
            }
        }
        if rest.is_empty() {
            break;
        }
    }
    Ok(frames)
}

/// The IDCODE of a frame.
fn id_in(frame: &[u8]) -> Option<u16> {
    let (_, behind) = frame.split_at_checked(4)?;
    let (id, _) = behind.split_first_chunk::<2>()?;
    Some(u16::from_be_bytes(*id))
}

/// IDCODE, SOC and FRACSEC's numerator of a data frame (C37.118.2, 6.2); `None` where it is none.
fn stamp_in(frame: &[u8]) -> Option<(u16, u32, u32)> {
    if !is_frame(frame) {
        return None;
    }
    let head = read_head(frame);
    match head.kind {
        Kind::Measured => Some((head.id, head.soc, head.frac)),
        _ => None,
    }
}

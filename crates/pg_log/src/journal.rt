//! What the service logs and counts.

use crate::asked::Asked;
use crate::change::ConfigChange;
use log::{Level, LevelFilter};
use pg_wire::{PmuId, Refusal, StreamId, SubId};
use std::alloc::Global;
use std::io::ErrorKind;
use std::net::SocketAddr;
use std::rt::Clock;
use std::sync::atomic::{AtomicU64, Ordering};
use std::sync::{Mutex, Wait};
use std::time::SystemTime;
use std::{io, mem};

/// What the service logs or counts, since no reply says it.
#[derive(Clone, Copy, Debug, PartialEq, Eq)]
pub enum LogEvent {
    /// A connection to a source was begun.
    Called = 0,
    /// A connection to a source was made.
    Made = 1,
    /// A connection to a source could not be made.
    NotMade = 2,
    /// A source did not answer within 10 seconds.
    GivenUp = 3,
    /// A source's name has no address.
    NoAddress = 4,
    /// A connection to a source ended or failed.
    SourceEnded = 5,
    /// A source sent no data for as long as `silence` says.
    Silent = 6,
    /// A measurement was too far from this machine's clock.
    FarMeasurement = 7,
    /// A subscriber connected.
    Connected = 8,
    /// A connection came from a host that may not connect.
    Foreign = 9,
    /// A connection was refused by the gateway.
    Refused = 10,
    /// A subscriber's connection ended or failed.
    SubscriberEnded = 11,
    /// A subscriber was disconnected, since its socket took no data.
    Stalled = 12,
    /// A subscriber was disconnected, since there was no traffic.
    Idle = 13,
    /// A subscriber was disconnected by a command.
    HungUp = 14,
    /// A connection could not be accepted.
    NotAccepted = 15,
    /// A connection's socket could not be waited for, so it was closed.
    SocketFault = 16,
    /// The system failed to wait for sockets.
    PollFault = 17,
    /// A clock could not be read.
    ClockFault = 18,
    /// A worker could not be woken, or there was no memory for a message to it.
    MailFault = 19,
    /// A command could not be read, or its answer not be written.
    ConsoleFault = 20,
    /// A source announced its configuration, as the first of its connection.
    Announced = 21,
    /// Frames of a source were ignored.
    Ignored = 22,
    /// Data frames were dropped; this is noted when a later one is sent.
    Gap = 23,
    /// A stream was started by its subscriber.
    Started = 24,
    /// A stream was stopped by its subscriber.
    Stopped = 25,
    /// A port is listened on.
    Listening = 26,
    /// Entries were lost, since too many waited for the log.
    EntriesLost = 27,
    /// No connection to a source is made any more.
    Undialed = 28,
    /// A port was closed.
    Unlistened = 29,
    /// The setup was read again, and what changed was done.
    Reloaded = 30,
    /// The setup was to be read again and could not be, or had a mistake: nothing changed.
    NotReloaded = 31,
    /// A worker did not report the state of its sources or ports in time.
    Unanswered = 32,
    /// The page and the metrics are served.
    Shown = 33,
    /// The control socket accepts commands.
    Opened = 34,
    /// A subscriber was disconnected, since a new connection replaced it.
    Replaced = 35,
    /// An edit of a command or a reload was refused.
    NotDone = 36,
    /// The port of a setup that was read again could not be bound.
    NotBound = 37,
    /// A source sent no measurement for some seconds, and is asked again for its configuration and data.
    AskedAgain = 38,
    /// A source announced a configuration that differs from its last one.
    Reconfigured = 39,
    /// This machine's clock is probably wrong.
    WrongClock = 40,
    /// The address of a source's name was not found in time.
    NotFound = 41,
    /// An edit of a command or a reload was done.
    Edited = 42,
    /// A subscriber was disconnected, since a data frame of a stream could be read by an old CFG-2.
    Misread = 43,
    /// The blocks of a stream changed, and its CFG-2 was put among the replies unasked.
    ConfigSent = 44,
    /// A subscriber was disconnected, since its host acknowledged no data.
    Unacknowledged = 45,
    /// The system's table of TCP connections could not be read.
    NoTable = 46,
    /// The command `quit` was given.
    Quit = 47,
    /// A client of the control socket was closed for another one, since it had sent nothing for 60 seconds.
    SilentClientClosed = 48,
    /// A client of the control socket was refused, since as many are connected as may be.
    ClientRefused = 49,
    /// A connection of the page was closed for another one, since it had been idle for a second.
    IdlePageClosed = 50,
    /// A connection of the page was answered 503, since as many are served as may be.
    PageBusy = 51,
    /// The setup that was read again has warnings.
    Warned = 52,
    /// The option TCP_NODELAY of a connection could not be set.
    NoDelayFault = 53,
    /// A port is open, and its socket can't be waited for.
    NotServed = 54,
    /// A PMU is out of sync with UTC.
    OutOfSync = 55,
    /// A PMU is in sync again.
    InSync = 56,
    /// A PMU reports a data error.
    DataError = 57,
    /// A PMU reports no data error any more.
    DataGood = 58,
    /// Too many data frames of a source are missing in the last minute.
    Incomplete = 59,
    /// No longer are too many missing.
    Complete = 60,
    /// Data of a source come later than the `wait` of a stream allows.
    Late = 61,
    /// They come in time again.
    Timely = 62,
    /// The first address of a source sends its configuration again, and takes the place of another one.
    FirstPreferred = 63,
    /// A connection to the first address of a source could not be made, or ended before its configuration.
    FirstNotMade = 64,
    /// The first address of a source sent no configuration in time.
    FirstSilent = 65,
    /// What happens could not be written to the recording.
    NotRecorded = 66,
    /// Records found no room, since what was recorded before was not written yet.
    RecordsMissed = 67,
    /// A file of the recording was begun without how the gateway was set up then.
    SetupNotRecorded = 68,
    /// A subscriber was disconnected, since all data that came for it were of times before the frames that it was sent.
    SetBack = 69,
}

/// The PMUs of a configuration at most.
pub const MOST_PMUS: usize = 16;

/// How many kinds of notices there are.
const KINDS: usize = 70;

impl LogEvent {
    /// The kinds that are counted without an entry; the log has their counts.
    pub const UNNAMED: [LogEvent; 6] = [
        LogEvent::PollFault,
        LogEvent::ClockFault,
        LogEvent::MailFault,
        LogEvent::ConsoleFault,
        LogEvent::EntriesLost,
        LogEvent::Unanswered,
    ];

    /// How much it matters: an error is a failure of this machine, a warning what an operator may have to mend.
    pub fn level(self) -> Level {
        match self {
            LogEvent::PollFault
            | LogEvent::ClockFault
            | LogEvent::MailFault
            | LogEvent::SocketFault
            | LogEvent::NoDelayFault
            | LogEvent::NotServed
            | LogEvent::NotRecorded
            | LogEvent::RecordsMissed
            | LogEvent::WrongClock => Level::Error,
            LogEvent::NotMade
            | LogEvent::GivenUp
            | LogEvent::NoAddress
            | LogEvent::NotFound
            | LogEvent::SourceEnded
            | LogEvent::Silent
            | LogEvent::FarMeasurement
            | LogEvent::AskedAgain
            | LogEvent::Reconfigured
            | LogEvent::Foreign
            | LogEvent::Refused
            | LogEvent::Stalled
            | LogEvent::Idle
            | LogEvent::NotAccepted
            | LogEvent::ConsoleFault
            | LogEvent::Ignored
            | LogEvent::Gap
            | LogEvent::EntriesLost
            | LogEvent::Unanswered
            | LogEvent::NotDone
            | LogEvent::NotBound
            | LogEvent::NotReloaded
            | LogEvent::Misread
            | LogEvent::Unacknowledged
            | LogEvent::NoTable
            | LogEvent::SilentClientClosed
            | LogEvent::ClientRefused
            | LogEvent::IdlePageClosed
            | LogEvent::PageBusy
            | LogEvent::OutOfSync
            | LogEvent::DataError
            | LogEvent::Incomplete
            | LogEvent::Late
            | LogEvent::FirstNotMade
            | LogEvent::FirstSilent
            | LogEvent::SetupNotRecorded
            | LogEvent::SetBack
            | LogEvent::Warned => Level::Warn,
            LogEvent::Called
            | LogEvent::Made
            | LogEvent::Connected
            | LogEvent::SubscriberEnded
            | LogEvent::HungUp
            | LogEvent::Replaced
            | LogEvent::Announced
            | LogEvent::Started
            | LogEvent::Stopped
            | LogEvent::Listening
            | LogEvent::Undialed
            | LogEvent::Unlistened
            | LogEvent::Shown
            | LogEvent::Opened
            | LogEvent::Edited
            | LogEvent::ConfigSent
            | LogEvent::InSync
            | LogEvent::DataGood
            | LogEvent::Complete
            | LogEvent::Timely
            | LogEvent::FirstPreferred
            | LogEvent::Quit
            | LogEvent::Reloaded => Level::Info,
        }
    }
}

/// What a notice concerns.
#[derive(Clone, Copy, Debug, PartialEq, Eq)]
pub enum Subject {
    /// The service itself.
    Nobody,
    /// A source.
    Source(PmuId),
    /// A subscriber.
    Subscriber(SubId),
}

/// What is known beside.
#[derive(Clone, Copy, Debug, PartialEq, Eq)]
pub enum Detail {
    /// Nothing.
    Nothing,
    /// Where, or from where.
    At(SocketAddr),
    /// By which rule.
    Because(Refusal),
    /// The other side closed the connection.
    ClosedByPeer,
    /// The connection ended for this reason (the number of a refusal).
    Fault(u8),
    /// What the system said.
    System(ErrorKind),
    /// The system's number of an error that is of no kind.
    Errno(i32),
    /// What the system said of a call to this address.
    OfCall(SocketAddr, ErrorKind),
    /// The system's number of an error of a call to this address.
    ErrnoOfCall(SocketAddr, i32),
    /// The configuration that was announced: its DATA_RATE, and the IDCODEs of its PMUs in their order, 0 behind the last.
    Config(i16, [u16; MOST_PMUS]),
    /// Of this stream.
    Stream(u16),
    /// Of this PMU of the source.
    Pmu(u16),
    /// So many tenths of a per cent came.
    Came(u16),
    /// For this stream of this subscriber, whose `wait` is so many milliseconds, data come so many milliseconds after the first member's.
    Behind {
        /// The subscriber.
        sub: SubId,
        /// The stream.
        stream: StreamId,
        /// By how much they come later.
        behind: u64,
        /// The `wait`.
        wait: u64,
    },
    /// Of this stream, which is named first.
    OfStream(u16),
    /// What was asked for, and done.
    Done(Asked),
    /// What was asked for, and why it was refused.
    Edit(Asked, Refusal),
    /// By how many milliseconds a time is ahead of this machine's clock; behind it where negative.
    Off(i64),
    /// What differs between two configurations.
    Differs(ConfigChange),
    /// The address of a connection that was refused, and of the current one.
    Between(SocketAddr, SocketAddr),
}

/// An entry of the log.
#[derive(Clone, Copy, Debug)]
pub struct Entry {
    /// What happened.
    pub event: LogEvent,
    /// To what.
    pub subject: Subject,
    /// What is known beside.
    pub detail: Detail,
    /// How often, or how many frames.
    pub times: u64,
    /// When it first happened, by this machine's clock; `None` if the clock can't be read, or it is not in the journal yet.
    pub time: Option<SystemTime>,
}

impl Entry {
    /// It happened once.
    pub fn new(event: LogEvent, subject: Subject, detail: Detail) -> Entry {
        Entry {
            event,
            subject,
            detail,
            times: 1,
            time: None,
        }
    }

    /// Whether both are of the same kind, concern the same and have the same reason, so that one line may report both. Addresses and times are
    /// no reasons, but for the addresses at which a source is called.
    pub fn is_like(&self, other: &Entry) -> bool {
        let is_address_apart = self.event == LogEvent::Called;
        self.event == other.event
            && self.subject == other.subject
            && (self.detail == other.detail
                || (!is_address_apart && self.detail.is_of_kind(&other.detail)))
    }
}

impl Detail {
    /// What the system said by this error: its kind, or its number where it is of no kind.
    pub fn of_error(error: &io::Error) -> Detail {
        match (error.kind(), error.raw_os_error()) {
            (ErrorKind::Uncategorized, Some(number)) => Detail::Errno(number),
            (kind, _) => Detail::System(kind),
        }
    }

    /// What the system said by this error of a call to this address.
    pub fn of_call(address: Option<SocketAddr>, error: &io::Error) -> Detail {
        match (address, Detail::of_error(error)) {
            (Some(address), Detail::System(kind)) => Detail::OfCall(address, kind),
            (Some(address), Detail::Errno(number)) => Detail::ErrnoOfCall(address, number),
            (_, detail) => detail,
        }
    }

    /// Whether both are addresses, or both are times, or both how many frames came, or both how late data come for one stream.
    fn is_of_kind(&self, other: &Detail) -> bool {
        if let (Some(one), Some(other)) = (self.late_stream(), other.late_stream()) {
            return one == other;
        }
        matches!(
            (self, other),
            (Detail::At(_), Detail::At(_))
                | (Detail::Off(_), Detail::Off(_))
                | (Detail::Came(_), Detail::Came(_))
                | (Detail::Between(..), Detail::Between(..))
        )
    }

    /// For which stream data come late, where this says it.
    fn late_stream(&self) -> Option<(SubId, StreamId)> {
        match self {
            Detail::Behind { sub, stream, .. } => Some((*sub, *stream)),
            _ => None,
        }
    }
}

/// As many entries of one source or subscriber, or of none, wait for the log at most: so that none hides what another does.
const WAITING: usize = 128;

/// What all workers of the service share of the log: the counts, the entries that wait for it, and its level.
#[derive(Drop)]
pub struct Journal {
    counts: Vec<AtomicU64>,
    entries: Mutex<Vec<Entry>>,
    filter: Mutex<LevelFilter>,
}

impl Journal {
    /// Nothing happened. The log has entries of the level Info and above.
    ///
    /// # Errors
    ///
    /// `NoMemory`.
    pub fn new(alloc: Global) -> Result<Journal, Refusal> {
        let mut counts = Vec::with_capacity(alloc, KINDS)?;
        for _ in 0..KINDS {
            counts.push(AtomicU64::new(0))?;
        }
        Ok(Journal {
            counts,
            entries: Mutex::new(Vec::new(alloc)),
            filter: Mutex::new(LevelFilter::Info),
        })
    }

    /// From now on the log has what this allows.
    pub fn set_filter<R: Wait>(&self, rt: &R, filter: LevelFilter) {
        let mut held = self.filter.lock(rt);
        *held = filter;
    }

    /// What the log has.
    pub fn filter<R: Wait>(&self, rt: &R) -> LevelFilter {
        *self.filter.lock(rt)
    }

    /// Counts an entry, and keeps it for the log with the current time. If too many wait there, it is only counted.
    pub fn log<R: Wait + Clock>(&self, rt: &R, mut entry: Entry) {
        entry.time = SystemTime::now(rt).ok();
        let event = entry.event;
        let times = entry.times;
        self.add(event, times);
        let mut entries = self.entries.lock(rt);
        let is_kept = keep(&mut *entries, entry);
        drop(entries);
        if !is_kept {
            self.add(LogEvent::EntriesLost, times);
        }
    }

    /// What waits for the log, in order.
    pub fn take<R: Wait>(&self, rt: &R, alloc: Global) -> Vec<Entry> {
        let mut entries = self.entries.lock(rt);
        mem::replace(&mut *entries, Vec::new(alloc))
    }

    /// Counts it once.
    pub fn note(&self, event: LogEvent) {
        self.add(event, 1);
    }

    /// Counts it so often.
    pub fn add(&self, event: LogEvent, times: u64) {
        if times == 0 {
            return;
        }
        if let Some(count) = self.counts.get(event as usize) {
            count.fetch_add(times, Ordering::Relaxed);
        }
    }

    /// How often something of this kind happened.
    pub fn count(&self, event: LogEvent) -> u64 {
        match self.counts.get(event as usize) {
            Some(count) => count.load(Ordering::Relaxed),
            None => 0,
        }
    }
}

/// Keeps an entry behind the others, and returns whether there was room for one more of its source or subscriber. One that is like the last
/// is counted with it.
fn keep(entries: &mut Vec<Entry>, entry: Entry) -> bool {
    if let Some(last) = entries.last_mut() {
        if last.is_like(&entry) && last.detail == entry.detail {
            last.times = last.times.saturating_add(entry.times);
            return true;
        }
    }
    let own = entries
        .iter()
        .filter(|it| it.subject == entry.subject)
        .count();
    own < WAITING && entries.push(entry).is_ok()
}

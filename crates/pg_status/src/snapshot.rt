//! What the service shows of itself.

use pg_quality::{FrameSummary, PmuSummary};
use pg_wire::{PmuId, PmuKey, Refusal, StreamId, SubId};

/// How the connection to a source stands.
#[derive(Clone, Copy, PartialEq, Eq)]
pub enum Call {
    /// It is connected, and sent a data frame that counts.
    Up,
    /// It is connected, and sent no data frame that counts.
    Connected,
    /// A connection is being made.
    Calling,
    /// It is called again in so many seconds.
    Pause(u32),
    /// It is not called: it has no address, or none of its PMUs is registered.
    Rests,
}

/// How often a source's bytes were ignored for a reason.
#[derive(Clone, Copy, PartialEq, Eq)]
pub struct Ignored {
    /// The reason.
    pub reason: Refusal,
    /// How often. A count of 0 is not shown in a line of status.
    pub count: u64,
}

/// A registered PMU.
#[derive(Clone, Copy)]
pub struct PmuState {
    /// Its number at its source.
    pub pmu: PmuId,
    /// How good its blocks are, if its source's last configuration has it.
    pub blocks: Option<PmuSummary>,
}

/// A source.
#[derive(Drop)]
pub struct SourceState {
    /// The source.
    pub source: PmuId,
    /// Where it is called, as its setup has it, if it is called.
    pub address: Option<String>,
    /// How its connection stands.
    pub call: Call,
    /// The whole frames that came.
    pub frames: u64,
    /// The announcements and measurements among them.
    pub events: u64,
    /// What was ignored, each reason once.
    pub ignored: Vec<Ignored>,
    /// Whole seconds since its last event, if there was one.
    pub last: Option<u64>,
    /// Whole seconds since its last data frame that counts, if there was one.
    pub last_data: Option<u64>,
    /// How good its data frames are, if a worker reports it.
    pub quality: Option<FrameSummary>,
    /// Its registered PMUs, in the order of their numbers.
    pub pmus: Vec<PmuState>,
}

/// Whether a subscriber is connected.
#[derive(Drop)]
pub enum Presence {
    /// It is, from this address.
    Connected(String),
    /// It has not been for so many whole seconds.
    Waiting(u64),
}

/// What waits for a subscriber.
#[derive(Clone, Copy, PartialEq, Eq)]
pub struct Queue {
    /// Frames.
    pub frames: u64,
    /// Their bytes.
    pub bytes: u64,
}

/// A subscriber.
#[derive(Drop)]
pub struct SubscriberState {
    /// The subscriber.
    pub sub: SubId,
    /// Where it connects, if a port is open for it.
    pub port: Option<u16>,
    /// Whether it is connected.
    pub presence: Presence,
    /// Data frames made.
    pub made: u64,
    /// Data frames dropped, for its ring was full.
    pub dropped: u64,
    /// Data frames not made, for want of memory.
    pub lost: u64,
    /// Blocks that came for a slot that had left.
    pub late: u64,
    /// Blocks that came a second time.
    pub twice: u64,
    /// Bytes handed out.
    pub handed: u64,
    /// Data frames handed out since its port was opened.
    pub frames: u64,
    /// The sum of the gaps that were handed out: data frames that are missing before one that was handed out.
    pub gaps: u64,
    /// What waits for it.
    pub queue: Queue,
}

/// Whether the frames of a stream carry a member, or why they do not.
#[derive(Clone, Copy, PartialEq, Eq)]
pub enum Membership {
    /// They carry it: it is granted and announced.
    Carried,
    /// The PMU is not registered.
    NotRegistered,
    /// The PMU is not granted to the subscriber.
    NotGranted,
    /// The PMU's source has not announced it.
    NotAnnounced,
}

/// A member of a stream.
#[derive(Clone, Copy)]
pub struct MemberState {
    /// The PMU.
    pub key: PmuKey,
    /// Whether the stream's frames carry it.
    pub membership: Membership,
    /// The stream's frames since it was defined that have a filler in its place.
    pub missing: u64,
    /// Its blocks that came for a slot that had left.
    pub late: u64,
}

/// A stream of a subscriber. Its frames are counted since it was defined.
#[derive(Drop)]
pub struct StreamState {
    /// The subscriber.
    pub sub: SubId,
    /// The stream.
    pub stream: StreamId,
    /// Whether the subscriber has started it.
    pub on: bool,
    /// How many of its members are granted and announced, so that its frames carry them.
    pub effective: u32,
    /// The frames that left complete.
    pub complete: u64,
    /// Those that had waited as long as `wait` says.
    pub waited: u64,
    /// Those that were pushed out: more slots than the window were open.
    pub pushed: u64,
    /// Those that left before a change of the stream's configuration.
    pub changed: u64,
    /// Its members, in the definition's order.
    pub members: Vec<MemberState>,
}

/// What the service's calls were recorded by since it started.
#[derive(Clone, Copy, PartialEq, Eq)]
pub struct RecordingState {
    /// The bytes that were written.
    pub written: u64,
    /// The bytes of records that could not be written.
    pub unwritten: u64,
    /// The calls whose record found no room, since the disk was too slow.
    pub missed: u64,
    /// The calls that no line of a script says.
    pub unspelled: u64,
}

/// What the service shows of itself at one moment: each list in the order in which it is shown.
#[derive(Drop)]
pub struct Snapshot {
    /// The gateway's name.
    pub name: String,
    /// The sources.
    pub sources: Vec<SourceState>,
    /// The subscribers.
    pub subscribers: Vec<SubscriberState>,
    /// The streams of all subscribers.
    pub streams: Vec<StreamState>,
    /// How many workers did not answer within a second, so that their sources or ports are missing.
    pub unanswered: usize,
    /// What its calls were recorded by, if they are recorded.
    pub recording: Option<RecordingState>,
}

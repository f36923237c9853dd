//! What happens to the gateway, and what it answers.

use pg_audit::{Entry, PmuStats, Stats};
use pg_command::Command as Asked;
use pg_config::SourceConfig;
use pg_data::DataFrame;
use pg_ring::{Drained as Handed, RingBytes, RingSize};
use pg_session::{MemberPlace, Standing};
use pg_stream::Definition;
use pg_wire::{PmuKey, Refusal, StreamId, SubId};
use std::sync::Arc;

/// What happens to the gateway.
#[derive(Drop)]
pub enum Event {
    /// A PMU is registered.
    AddPmu(PmuKey),
    /// A PMU leaves the registry, and each grant of it is revoked.
    DropPmu(PmuKey),
    /// A subscriber is added, with the limits of its ring: data frames, and bytes of data frames.
    AddSub(SubId, RingSize, RingBytes),
    /// A subscriber leaves.
    DropSub(SubId),
    /// A PMU is granted to a subscriber.
    Grant(SubId, PmuKey),
    /// A grant is taken back.
    Revoke(SubId, PmuKey),
    /// A stream of a subscriber is defined.
    Define(SubId, Definition),
    /// A stream of a subscriber is removed.
    Remove(SubId, StreamId),
    /// A source announced a configuration.
    Announce(Arc<SourceConfig>),
    /// A source sent a data frame, which was read by the configuration that it carries.
    Measure(Arc<DataFrame>),
    /// A tick, with the current SOC: seconds since 1970-01-01 00:00 UTC.
    Tick(u32),
    /// A subscriber connects.
    Connect(SubId),
    /// A subscriber hangs up.
    Hangup(SubId),
    /// A subscriber sent a command.
    Command(SubId, Asked),
    /// A subscriber's bytes are to be handed out into this buffer.
    Drain(SubId, Vec<u8>),
    /// A subscriber's counters are asked for.
    Stats(SubId),
    /// A registered PMU's counters are asked for.
    PmuStats(PmuKey),
    /// An entry of a subscriber's audit is asked for: 0 the newest, at most 63.
    Audit(SubId, u8),
    /// A question: how does a subscriber stand, and its stream and that stream's member at this place?
    Standing(SubId, MemberPlace),
    /// A question: for which of these subscribers does something wait to be handed out?
    WhoWaits(Vec<SubId>),
}

/// What the gateway answers.
#[derive(Drop)]
pub enum Reply {
    /// It is done: so many data frames were made for all subscribers, and so many of them found memory.
    Done {
        /// The data frames made.
        made: u64,
        /// Those of them that were composed. The others are lost, and each counts in the gap before the next one.
        kept: u64,
    },
    /// It is refused, and nothing changed but counters and the audit of the subscriber that it names.
    Refused(Refusal),
    /// The buffer of a drain, and what was handed out into it.
    Drained {
        /// The buffer of the event. Past what was handed out it is as it was.
        buf: Vec<u8>,
        /// What was handed out; or `NoSuchSub`, or `NotConnected`.
        out: Result<Handed, Refusal>,
    },
    /// A subscriber's counters.
    Stats(Stats),
    /// A registered PMU's counters.
    PmuStats(PmuStats),
    /// An entry of a subscriber's audit, or `None` where it has no such entry.
    Audit(Option<Entry>),
    /// How a subscriber stands.
    Standing(Standing),
    /// Those of the subscribers that were asked about for which something waits, in the same order and memory.
    Waiting(Vec<SubId>),
}

//! The events of one subscriber, and the replies to them.

use pg_command::Command;
use pg_config::{PmuConfig, SourceConfig};
use pg_data::DataFrame;
use pg_ring::Drained;
use pg_stream::Definition;
use pg_wire::{PmuKey, Refusal, StreamId};
use std::sync::Arc;

/// An event of one subscriber. Configurations and frames are lent: what the subscriber keeps of them it has copied before,
/// by `Subscriber::copies`.
#[derive(Drop)]
pub enum PrivateEvent<'a> {
    /// A PMU is granted, with what it has announced by then, or none.
    Grant(PmuKey, Option<&'a Arc<PmuConfig>>),
    /// The grant of a PMU is taken back.
    Revoke(PmuKey),
    /// A source's configuration was announced: of its PMUs, by their places in it, those that are granted.
    Announce(&'a SourceConfig, &'a [usize]),
    /// A source's data frame came: of its blocks, by their places in it, those of granted PMUs.
    Measure(&'a Arc<DataFrame>, &'a [usize]),
    /// A stream is defined.
    Define(Definition),
    /// A stream is removed.
    Remove(StreamId),
    /// A tick, with the current SOC: seconds since 1970-01-01 00:00 UTC.
    Tick(u32),
    /// The subscriber connects.
    Connect,
    /// The subscriber hangs up.
    Hangup,
    /// A command of the subscriber (C37.118.2, 6.6).
    Command(Command),
    /// What waits is to be handed out into this buffer, as far as it goes.
    Drain(Vec<u8>),
}

/// The reply to a private event.
#[derive(Drop)]
pub enum PrivateReply {
    /// It is done: so many data frames were made, and the first so many of them are kept.
    Done {
        /// The data frames made.
        made: u64,
        /// Those of them that were composed. The others are lost for want of memory, and count in a gap.
        kept: u64,
    },
    /// It is refused, and nothing changed but counters.
    Refused(Refusal),
    /// What a drain handed out.
    Drained {
        /// The buffer of the event. Past what was handed out it is as it was.
        buf: Vec<u8>,
        /// What was handed out, or `NotConnected`.
        out: Result<Drained, Refusal>,
    },
}

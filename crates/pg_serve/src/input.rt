//! The inputs of a world, and its answers.

ghost use Rattle.std.specs.Prelude.{◌≡◌, []};
ghost use Rattle.pg_serve.specs.Inputs.{outcome};

use pg_gateway::{Edit, Reply};
use pg_wire::{PmuId, Refusal, SubId};
use std::alloc::Global;

/// An input of a world.
#[derive(Drop)]
pub enum Input {
    /// A source's connection is up: its link starts anew.
    LinkUp(PmuId),
    /// Bytes of a source came, however they were cut.
    PmuBytes(PmuId, Vec<u8>),
    /// Bytes of a subscriber came, however they were cut.
    SubBytes(SubId, Vec<u8>),
    /// A subscriber connects.
    Connect(SubId),
    /// A subscriber hangs up.
    Hangup(SubId),
    /// What waits for a subscriber is to be handed out, into a buffer of so many bytes: 0 to 65,535.
    Drain(SubId, u16),
    /// A tick, with the current SOC: seconds since 1970-01-01 00:00 UTC.
    Tick(u32),
    /// What an operator asks for.
    Edit(Edit),
}

/// A part of the answer to an input.
#[derive(Drop)]
pub enum Note {
    /// The gateway's reply to an event, or the world's own to an input that it refused.
    Replied(Reply),
    /// A frame was ignored for this reason.
    Ignored(Refusal),
    /// The bytes of a source or of a subscriber broke: `BadFirst`, `BadSecond` or `ShortSize`.
    Closed(Refusal),
}

/// The answer to an input.
#[derive(Drop)]
pub struct Output {
    /// What it came to, in its order.
    pub notes: Vec<Note>,
    /// The command frames that are to be sent to the source, 18 bytes each (C37.118.2, 6.6).
    pub to_pmu: Vec<u8>,
}

impl Output {
    /// An empty answer. It takes no memory.
    pub fn new(alloc: Global) -> Output
        ensures outcome { outcome result ≡ record { notes = []; to_pmu = [] } }
    {
        Output {
            notes: Vec::new(alloc),
            to_pmu: Vec::new(alloc),
        }
    }
}

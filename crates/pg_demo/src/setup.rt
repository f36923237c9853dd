//! What the demo shows: its sources, its subscribers and their streams.

use pg_gateway::Edit;
use pg_ring::{RingBytes, RingSize};
use pg_stream::{Definition, HeaderText, Members};
use pg_tools::{DEMO_RATE, DEMO_SOURCES};
use pg_wire::{PmuId, PmuKey, Refusal, StreamId, SubId};
use std::alloc::Global;

/// The stream of subscriber 1, of both PMUs.
pub const FIRST_STREAM: u16 = 101;

/// The stream of subscriber 2, of the second PMU alone.
pub const SECOND_STREAM: u16 = 102;

/// How many ticks a frame waits for its members: a minute of them, so that none is given up on a machine that is busy. The
/// window is what bounds the wait where a source is silent.
const WAIT: u32 = 6_000;

/// How many frames a stream has open at most, some two seconds of them.
const WINDOW: u32 = 64;

/// How many frames wait for a subscriber at most.
const RING: u16 = 1_024;

/// How many bytes of them.
const RING_BYTES: u32 = 16_777_216;

/// A source's or a PMU's number.
pub fn source_id(number: u16) -> Result<PmuId, Refusal> {
    PmuId::new(number).ok_or(Refusal::WrongId)
}

/// The PMU of the source with this number.
pub fn pmu_key(number: u16) -> Result<PmuKey, Refusal> {
    Ok(PmuKey {
        source: source_id(number)?,
        pmu: source_id(number)?,
    })
}

/// A subscriber.
pub fn sub_id(number: u16) -> Result<SubId, Refusal> {
    SubId::new(number).ok_or(Refusal::WrongId)
}

/// The edits that set the gateway up: both PMUs, both subscribers, what each of them may have, and their streams.
pub fn edits(alloc: Global) -> Result<Vec<Edit>, Refusal> {
    let [one, other] = [pmu_key(DEMO_SOURCES[0])?, pmu_key(DEMO_SOURCES[1])?];
    let [first, second] = [sub_id(1)?, sub_id(2)?];
    let mut edits = Vec::new(alloc);
    edits.push(Edit::AddPmu(one))?;
    edits.push(Edit::AddPmu(other))?;
    edits.push(added(first)?)?;
    edits.push(added(second)?)?;
    edits.push(Edit::Grant(first, one))?;
    edits.push(Edit::Grant(first, other))?;
    edits.push(Edit::Grant(second, other))?;
    let mut both = Vec::new(alloc);
    both.push(one)?;
    both.push(other)?;
    let text = b"pdcgw demo: two simulated sources, a PMU each";
    edits.push(Edit::Define(first, stream(alloc, FIRST_STREAM, text, both)?))?;
    let mut alone = Vec::new(alloc);
    alone.push(other)?;
    let text = b"pdcgw demo: the second source alone";
    edits.push(Edit::Define(second, stream(alloc, SECOND_STREAM, text, alone)?))?;
    Ok(edits)
}

/// A subscriber is added.
fn added(sub: SubId) -> Result<Edit, Refusal> {
    let ring = RingSize::new(RING).ok_or(Refusal::BadDefinition)?;
    let bytes = RingBytes::new(RING_BYTES).ok_or(Refusal::BadDefinition)?;
    Ok(Edit::AddSub(sub, ring, bytes))
}

/// The stream with this number, the text of its header and these members.
fn stream(
    alloc: Global,
    number: u16,
    header: &[u8],
    members: Vec<PmuKey>,
) -> Result<Definition, Refusal> {
    Ok(Definition {
        stream: StreamId::new(number).ok_or(Refusal::WrongId)?,
        rate: DEMO_RATE,
        base: pg_tools::TIME_BASE,
        wait: WAIT,
        window: WINDOW,
        header: HeaderText::new(Vec::from_slice(alloc, header)?),
        members: Members::new(members),
    })
}

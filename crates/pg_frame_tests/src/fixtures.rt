//! Frames, configurations and definitions that the tests share.

ghost use Rattle.pg_stream.specs.Limits.{IsWithinLimits};

use pg_config::{SourceConfig, read_config};
use pg_data::{DataFrame, read_data};
use pg_stream::{Definition, HeaderText, Members, check_definition};
use pg_wire::{PmuId, PmuKey, Refusal, StreamId, check, is_frame};
use std::alloc::Global;
use std::process::Abort;
use std::sync::Arc;

/// The configuration of source 7 with PMU 7 (one phasor), without its CHK.
const ONE: &str =
    "aa32004a00070000006400000000000f42400001504d552037202020202020202020202000070000000100000000564120202020202020202020202020200000000100000000001e";

/// The configuration of source 9 with PMU 7, PMU 8 (one digital word) and PMU 11, without its CHK.
const THREE: &str =
    "aa32019e00090000006400000000000f42400003504d552037202020202020202020202000070000000100000000564120202020202020202020202020200000000100000000504d552038202020202020202020202000080000000000000001202020202020202020202020202020202020202020202020202020202020202020202020202020202020202020202020202020202020202020202020202020202020202020202020202020202020202020202020202020202020202020202020202020202020202020202020202020202020202020202020202020202020202020202020202020202020202020202020202020202020202020202020202020202020202020202020202020202020202020202020202020202020202020202020202020202020202020202020202020202020202020202020202020202020202020202020202020202020202020202020202020202020202020202020202020200000ffff00000000504d5520372020202020202020202020000b0000000100000000564120202020202020202020202020200000000100000000001e";

/// The frame that a text describes, with its CHK: its digits, or `one` or `three` for a configuration above; then bytes that are
/// changed, each as PLACE=BYTE.
pub fn framed(rt: &impl Abort, alloc: Global, text: &str) -> Vec<u8> {
    let mut words = text.split(' ');
    let digits = match words.next().expect(rt, "a frame") {
        "one" => ONE,
        "three" => THREE,
        digits => digits,
    };
    let mut frame = hex::decode(alloc, digits.as_bytes()).expect(rt, "digits");
    for word in words {
        let (place, byte) = word.split_once('=').expect(rt, "a place");
        let place = place.parse::<usize>().expect(rt, "a place");
        assert!(rt; place < frame.len());
        frame[place] = byte.parse::<u8>().expect(rt, "a byte");
    }
    let sum = check(&frame);
    let behind = frame.extend_from_slice(&sum.to_be_bytes());
    behind.expect(rt, "memory");
    frame
}

/// The configuration that such a text describes.
pub fn announced(rt: &impl Abort, alloc: Global, text: &str) -> Arc<SourceConfig> {
    let frame = framed(rt, alloc, text);
    assert!(rt; is_frame(&frame));
    let announced = read_config(alloc, &frame).expect(rt, "a configuration");
    Arc::new(alloc, announced.config).expect(rt, "memory")
}

/// What is read of a data frame.
pub fn measured(
    rt: &impl Abort,
    alloc: Global,
    config: &Arc<SourceConfig>,
    frame: &[u8],
) -> Result<Arc<DataFrame>, Refusal> {
    assert!(rt; is_frame(frame));
    assert!(rt; frame.len() >= 16);
    assert!(rt; frame[1] / 16 == 0);
    read_data(alloc, config, frame)
}

/// The key of a PMU by the number of its source and its own.
pub fn key(rt: &impl Abort, source: u16, pmu: u16) -> PmuKey {
    PmuKey {
        source: PmuId::new(source).expect(rt, "a source"),
        pmu: PmuId::new(pmu).expect(rt, "a PMU"),
    }
}

/// A stream of rate 30 and resolution 1,000,000 without a header text.
pub fn defined(
    rt: &impl Abort,
    alloc: Global,
    stream: u16,
    wait: u32,
    window: u32,
    members: &[PmuKey],
) -> Definition
    ensures { IsWithinLimits result }
{
    let members = Vec::from_slice(alloc, members).expect(rt, "memory");
    let definition = Definition {
        stream: StreamId::new(stream).expect(rt, "a stream"),
        rate: 30,
        base: 1_000_000,
        wait,
        window,
        header: HeaderText::new(Vec::new(alloc)),
        members: Members::new(members),
    };
    assert!(rt; check_definition(&definition).is_ok());
    definition
}

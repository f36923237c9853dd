//! Slots and stamps, the lists of a definition, and the names of refusals.

use crate::asserts::same;
use crate::fixtures::key;
use pg_stream::*;
use pg_wire::Refusal;
use std::test::*;

/// Rows slots-and-stamps and time-end.
#[test]
fn slots_and_stamps(rt: HostRuntime) {
    for (soc, numerator, slot) in [
        (100, 16_666, Ok(3000)),
        (100, 16_667, Ok(3001)),
        (100, 33_333, Ok(3001)),
        (100, 983_333, Ok(3029)),
        (100, 983_334, Ok(3030)),
        (100, 1_000_000, Err(Refusal::BadFraction)),
        (4_294_967_295, 983_333, Ok(128_849_018_879)),
        (4_294_967_295, 983_334, Err(Refusal::TimeEnd)),
    ] {
        same(&rt, slot_of(30, 1_000_000, soc, numerator), slot);
    }
    same(&rt, stamp_of(30, 1_000_000, 3001), (100, 33_333));
    same(&rt, stamp_of(30, 1_000_000, 3029), (100, 966_667));
    same(&rt, stamp_of(30, 1_000_000, 3030), (101, 0));
}

#[test]
fn lists_give_back(rt: HostRuntime) {
    let members = vec![in rt.alloc(); key(&rt, 7, 7)].expect(&rt, "memory");
    same(&rt, Members::new(members).into_vec().len(), 1);
    let text = vec![in rt.alloc(); 0x48].expect(&rt, "memory");
    same(&rt, HeaderText::new(text).into_vec().len(), 1);
}

/// Their names.
const NAMES: &str =
    "NoMemory BadFirst BadSecond ShortSize BadCheck BadVersion WrongType BadLength NoSuchStream UnknownCommand \
Unsupported ReplyFull FloatFormat BadCounts ConfigTooLarge DuplicatePmu WrongId NoConfig BadFraction TimeEnd \
FarClock StaleConfig NoSuchPmu PmuExists PmusFull NoSuchSub SubExists SubsFull GrantsFull StreamExists \
StreamsFull BadDefinition NotConnected Busy NotGranted BadLine BadSetup BadTimeBase ReadFault WriteFault";

#[test]
fn refusals_by_number_and_name(rt: HostRuntime) {
    for (refusal, (number, name)) in Refusal::ALL.into_iter().zip((1u8..).zip(NAMES.split(' '))) {
        same(&rt, (refusal.number(), refusal.name()), (number, name));
        let shown = format!(in rt.alloc(); "{refusal}").expect(&rt, "memory");
        same(&rt, shown.as_str(), name);
    }
}

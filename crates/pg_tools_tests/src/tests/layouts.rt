//! What a subscriber knows of the layouts of its streams, and what is done where they change.
use crate::tests::asserts::same;
use pg_limits::{
    FoundStream, HeldWriter, KnownLayouts, LAYOUTS, LayoutChanges, OnChange, STREAMS, ServedOnce,
    Switches, Verdict,
};
use std::io::{ErrorKind, Write};
use std::test::*;

/// Served once: the CFG-2 of these streams was asked for, and these were started.
fn served(configured: &[u16], started: &[u16], is_quiet: bool, is_emptied: bool) -> ServedOnce {
    let mut served = ServedOnce {
        configured: Switches::none(),
        switched: Switches::none(),
        is_quiet,
        is_emptied,
    };
    for stream in configured {
        served.configured.switch(*stream, true);
    }
    for stream in started {
        served.switched.switch(*stream, true);
    }
    served
}

/// Served once: nothing was asked for, nothing changed meanwhile, and all was handed out.
fn unasked() -> ServedOnce {
    served(&[], &[], true, true)
}

/// A stream, on or off, of this definition, with layouts of these lengths, the newest first.
fn stream(number: u16, is_on: bool, definition: u64, lengths: &[u16]) -> FoundStream {
    let mut all = [0; LAYOUTS];
    for (place, len) in all.iter_mut().zip(lengths.iter()) {
        *place = *len;
    }
    FoundStream {
        stream: number,
        definition,
        layout: (lengths.len() as u64).saturating_sub(1),
        lengths: all,
        is_on,
    }
}

/// Stream 101.
fn stands(is_on: bool, definition: u64, lengths: &[u16]) -> FoundStream {
    stream(101, is_on, definition, lengths)
}

/// A connection that asked for CFG-2 of stream 101 and started it, at its first layout, of 26 bytes.
fn reader() -> KnownLayouts {
    let mut known = KnownLayouts::new();
    let off = stands(false, 1, &[26]);
    known.judge(&off, &ServedOnce::nothing(), OnChange::Safe);
    known.drained(true);
    known.note(&served(&[101], &[101], true, true));
    known.settle();
    known
}

/// What is to be done where the layouts became these while it is on.
fn judged(lengths: &[u16], rule: OnChange) -> Verdict {
    let on = stands(true, 1, lengths);
    reader().judge(&on, &unasked(), rule)
}

/// Where a layout is as long as the old one the connection is closed, whatever lay between; else CFG-2 is sent. Where it can't be known whether
/// one lay between that is as long, it is closed. The other rules do as they say.
#[test]
fn lengths_are_compared(rt: HostRuntime) {
    let safe = OnChange::Safe;
    same(&rt, judged(&[26], safe), Verdict::Nothing);
    same(&rt, judged(&[26, 26], safe), Verdict::Disconnect);
    same(&rt, judged(&[36, 26], safe), Verdict::SendConfig);
    same(&rt, judged(&[26, 16, 26], safe), Verdict::Disconnect);
    // Frames of the second one may wait, which has the length of the first.
    same(&rt, judged(&[36, 26, 26], safe), Verdict::Disconnect);
    // Frames of the second one may come behind a CFG-2 of the last.
    let twice = &[36, 46, 36, 26];
    same(&rt, judged(twice, safe), Verdict::Disconnect);
    let unlike = &[56, 46, 36, 26];
    same(&rt, judged(unlike, safe), Verdict::SendConfig);
    let hang_up = OnChange::HangUp;
    same(&rt, judged(&[36, 26], hang_up), Verdict::Disconnect);
    same(&rt, judged(&[26], hang_up), Verdict::Nothing);
    let keep = OnChange::Keep;
    same(&rt, judged(&[26, 26], keep), Verdict::Nothing);
    same(&rt, judged(&[36, 26], keep), Verdict::Nothing);
}

/// The lengths of 32 layouts are kept. Behind one more change the first one is not known, so that the connection is closed.
#[test]
fn lengths_of_thirty_two_layouts(rt: HostRuntime) {
    let mut most = [0; 32];
    for (at, len) in most.iter_mut().enumerate() {
        *len = 1000 - at as u16;
    }
    same(&rt, judged(&most, OnChange::Safe), Verdict::SendConfig);
    let mut more = [0; 33];
    for (at, len) in more.iter_mut().enumerate() {
        *len = 1000 - at as u16;
    }
    same(&rt, judged(&more, OnChange::Safe), Verdict::Disconnect);
}

/// Once all that waited was handed out behind a CFG-2, the old length is no danger any more; before that it is.
#[test]
fn waiting_frames_count(rt: HostRuntime) {
    let back = stands(true, 1, &[26, 36, 26]);
    for is_emptied in [true, false] {
        let mut known = reader();
        let other = stands(true, 1, &[36, 26]);
        let verdict = known.judge(&other, &unasked(), OnChange::Safe);
        same(&rt, verdict, Verdict::SendConfig);
        same(&rt, known.owed(), Some(101));
        // As long as the CFG-2 is owed, the old layout counts.
        known.drained(true);
        known.settle();
        known.paid(101);
        same(&rt, known.owed(), None);
        known.drained(is_emptied);
        known.settle();
        let verdict = known.judge(&back, &unasked(), OnChange::Safe);
        let expected = if is_emptied {
            Verdict::SendConfig
        } else {
            Verdict::Disconnect
        };
        same(&rt, verdict, expected);
    }
}

/// What a drain handed out is judged by the layouts from before it, though it handed out all.
#[test]
fn a_drain_is_judged_before_it_settles(rt: HostRuntime) {
    let mut known = reader();
    let other = stands(true, 1, &[36, 26]);
    known.judge(&other, &unasked(), OnChange::Safe);
    known.paid(101);
    // This drain handed out the CFG-2 and all frames behind it; the question found a layout as long as the first one.
    known.drained(true);
    let back = stands(true, 1, &[26, 36, 26]);
    let verdict = known.judge(&back, &unasked(), OnChange::Safe);
    same(&rt, verdict, Verdict::Disconnect);
}

/// A drain that handed out all is of the layout before the question, not of the one that the question found: the next layout is compared with
/// the first one too.
#[test]
fn a_drain_settles_what_was_before_it(rt: HostRuntime) {
    let mut known = reader();
    known.drained(true);
    let other = stands(true, 1, &[36, 26]);
    let verdict = known.judge(&other, &unasked(), OnChange::Safe);
    same(&rt, verdict, Verdict::SendConfig);
    known.settle();
    known.paid(101);
    known.drained(false);
    known.settle();
    let back = stands(true, 1, &[26, 36, 26]);
    let verdict = known.judge(&back, &unasked(), OnChange::Safe);
    same(&rt, verdict, Verdict::Disconnect);
}

/// A subscriber that asks for CFG-2 by itself, with frames of an old layout behind it that are as long: the connection is closed.
#[test]
fn frames_behind_an_own_config(rt: HostRuntime) {
    let alike = stands(true, 1, &[26, 26]);
    let asked = served(&[101], &[], true, true);
    let verdict = reader().judge(&alike, &asked, OnChange::Safe);
    same(&rt, verdict, Verdict::Disconnect);
    let unlike = stands(true, 1, &[36, 26]);
    let verdict = reader().judge(&unlike, &asked, OnChange::Safe);
    same(&rt, verdict, Verdict::Nothing);
}

/// A stream that is off is left alone. Where it is started again without CFG-2 it is as if it had been on; behind CFG-2 it is read by that, unless
/// an edit was under way meanwhile.
#[test]
fn a_stream_that_is_off(rt: HostRuntime) {
    for (configured, is_quiet, expected) in [
        (&[101u16][..0], true, Verdict::Disconnect),
        (&[101][..], true, Verdict::Nothing),
        (&[101][..], false, Verdict::Disconnect),
    ] {
        let mut known = reader();
        let mut stopped = unasked();
        stopped.switched.switch(101, false);
        known.note(&stopped);
        let off = stands(false, 1, &[26, 26]);
        let verdict = known.judge(&off, &unasked(), OnChange::Safe);
        same(&rt, verdict, Verdict::AskAgain);
        let on = stands(true, 1, &[26, 26]);
        let started = served(configured, &[101], is_quiet, true);
        same(&rt, known.judge(&on, &started, OnChange::Safe), expected);
    }
}

/// A stream that was stopped is as if it was on as long as frames of it may wait.
#[test]
fn a_stopped_stream_with_frames(rt: HostRuntime) {
    for (is_emptied, expected) in [(true, Verdict::AskAgain), (false, Verdict::Disconnect)] {
        let mut known = reader();
        let mut stopped = served(&[], &[], true, is_emptied);
        stopped.switched.switch(101, false);
        known.note(&stopped);
        let off = stands(false, 1, &[26, 26]);
        let filled = served(&[], &[], true, false);
        same(&rt, known.judge(&off, &filled, OnChange::Safe), expected);
    }
}

/// A stream that is stopped in the very pass behind whose drain its layout is found changed: that drain may have handed out frames of the new
/// layout, which were made before the stop. The connection is closed where they are as long, though none waits any more.
#[test]
fn stopped_in_the_pass_of_a_change(rt: HostRuntime) {
    for (lengths, expected) in [
        (&[26u16, 26][..], Verdict::Disconnect),
        (&[36, 26][..], Verdict::AskAgain),
        (&[26][..], Verdict::Nothing),
    ] {
        let mut stopped = unasked();
        stopped.switched.switch(101, false);
        let off = stands(false, 1, lengths);
        let verdict = reader().judge(&off, &stopped, OnChange::Safe);
        same(&rt, verdict, expected);
    }
}

/// A stream that was defined anew is another one; it is started again where its subscriber had started it.
#[test]
fn another_definition(rt: HostRuntime) {
    let anew = stands(true, 2, &[26]);
    let verdict = reader().judge(&anew, &unasked(), OnChange::Safe);
    same(&rt, verdict, Verdict::Disconnect);
    let mut known = reader();
    let off = stands(false, 2, &[26]);
    let verdict = known.judge(&off, &unasked(), OnChange::Safe);
    same(&rt, verdict, Verdict::AskAgain);
    known.resume(102);
    same(&rt, known.resuming(), None);
    known.resume(101);
    same(&rt, known.resuming(), Some(101));
    known.resumed(&off);
    same(&rt, known.resuming(), None);
    let verdict = known.judge(&anew, &unasked(), OnChange::Safe);
    same(&rt, verdict, Verdict::Nothing);
    // One that its subscriber stopped stays off.
    let mut known = reader();
    let mut stopped = unasked();
    stopped.switched.switch(101, false);
    known.note(&stopped);
    known.resume(101);
    same(&rt, known.resuming(), None);
}

/// A stream whose CFG-2 was handed out, and that was then removed and defined anew, is read by that CFG-2 where command 2 alone starts it: the
/// connection is closed. Behind a CFG-2 of the new definition it is not.
#[test]
fn started_by_an_old_config(rt: HostRuntime) {
    for (configured, expected) in [
        (&[][..], Verdict::Disconnect),
        (&[101u16][..], Verdict::Nothing),
    ] {
        let mut known = KnownLayouts::new();
        let first = stands(false, 1, &[26]);
        let handed = served(&[101], &[], true, true);
        let verdict = known.judge(&first, &handed, OnChange::Safe);
        same(&rt, verdict, Verdict::Nothing);
        let anew = stands(false, 2, &[26]);
        let verdict = known.judge(&anew, &unasked(), OnChange::Safe);
        same(&rt, verdict, Verdict::AskAgain);
        let on = stands(true, 2, &[26]);
        let started = served(configured, &[101], true, true);
        same(&rt, known.judge(&on, &started, OnChange::Safe), expected);
    }
}

/// A stream that was removed in the very pass in which its CFG-2 was handed out is not forgotten: where it is defined anew and command 2 alone
/// starts it, the connection is closed.
#[test]
fn removed_in_the_pass_of_its_config(rt: HostRuntime) {
    let among = |standing| {
        let mut found = [None; STREAMS];
        found[0] = standing;
        found
    };
    for (configured, expected) in [(&[][..], Some(101)), (&[101u16][..], None)] {
        let mut known = KnownLayouts::new();
        let handed = served(&[101], &[], false, true);
        let judged = known.judge_all(&among(None), &handed, OnChange::Safe);
        same(&rt, (judged.misread, judged.asks_again), (None, false));
        let anew = stands(false, 1, &[26]);
        let judged = known.judge_all(&among(Some(anew)), &unasked(), OnChange::Safe);
        same(&rt, (judged.misread, judged.asks_again), (None, true));
        let on = stands(true, 1, &[26]);
        let started = served(configured, &[101], true, true);
        let judged = known.judge_all(&among(Some(on)), &started, OnChange::Safe);
        same(&rt, judged.misread, expected);
    }
}

/// The same where eight streams were known, and one of them, which was never read, made room for it before that.
#[test]
fn removed_in_the_pass_of_its_config_as_the_ninth(rt: HostRuntime) {
    let mut known = KnownLayouts::new();
    let mut found = [None; STREAMS];
    for (place, number) in found.iter_mut().zip(1u16..9) {
        *place = Some(stream(number, false, u64::from(number), &[26]));
    }
    known.judge_all(&found, &ServedOnce::nothing(), OnChange::Safe);
    // 1 is removed, 9 is defined, its CFG-2 is handed out, and it is removed.
    found[0] = None;
    known.judge_all(&found, &served(&[9], &[], false, true), OnChange::Safe);
    found[0] = Some(stream(9, false, 10, &[26]));
    known.judge_all(&found, &unasked(), OnChange::Safe);
    found[0] = Some(stream(9, true, 10, &[26]));
    let judged = known.judge_all(&found, &served(&[], &[9], true, true), OnChange::Safe);
    same(&rt, judged.misread, Some(9));
}

/// Eight streams are kept. One that was not read gives way once it is there no more; where eight were read, a ninth is not started unseen.
#[test]
fn nine_streams(rt: HostRuntime) {
    let mut known = KnownLayouts::new();
    for number in 1..9 {
        let one = stream(number, false, 1, &[26]);
        known.judge(&one, &ServedOnce::nothing(), OnChange::Safe);
        known.note(&served(&[number], &[number], true, true));
    }
    let off = stream(9, false, 9, &[26]);
    let verdict = known.judge(&off, &unasked(), OnChange::Safe);
    same(&rt, verdict, Verdict::AskAgain);
    let on = stream(9, true, 9, &[26]);
    let verdict = known.judge(&on, &served(&[9], &[9], true, true), OnChange::Safe);
    same(&rt, verdict, Verdict::Disconnect);
}

/// What was drained before a question is written, and nothing of what was drained behind a change.
#[test]
fn bytes_are_held(rt: HostRuntime) {
    let alloc = rt.alloc();
    let changes = LayoutChanges::new();
    let settled = changes.settled();
    same(&rt, settled, Some(0));
    let mut writer = HeldWriter::new(Vec::new(alloc), &changes, settled, 3);
    same(&rt, writer.write(b"abcde").ok(), Some(3));
    same(&rt, writer.write(b"de").ok(), Some(2));
    same(&rt, writer.is_holding, false);
    changes.begin();
    let held = match writer.write(b"f") {
        Ok(_) => false,
        Err(error) => error.kind() == ErrorKind::WouldBlock,
    };
    same(&rt, (held, writer.is_holding), (true, true));
    let mut shut = HeldWriter::new(Vec::new(alloc), &changes, None, 1);
    same(&rt, shut.write(b"fg").ok(), Some(1));
    same(&rt, shut.write(b"g").ok(), None);
}

/// What is found out while a change is under way does not hold, whatever number it was counted by.
#[test]
fn changes_under_way(rt: HostRuntime) {
    let changes = LayoutChanges::new();
    let before = changes.settled();
    changes.begin();
    same(&rt, changes.settled(), None);
    same(&rt, changes.holds(before), false);
    changes.begin();
    changes.end();
    same(&rt, changes.settled(), None);
    changes.end();
    same(&rt, changes.settled(), Some(2));
    same(&rt, changes.holds(changes.settled()), true);
    same(&rt, changes.holds(None), false);
}

/// An answer that was found behind `settled` holds until the next change is begun, and never again. Where changes overlap, nothing is settled until
/// all are done, whichever is done first: a count of done that one of them left behind is that of none.
#[test]
fn changes_that_race(rt: HostRuntime) {
    let changes = LayoutChanges::new();
    let asked = changes.settled();
    same(&rt, changes.holds(asked), true);
    // One is begun and done between a question and its answer.
    changes.begin();
    changes.end();
    same(&rt, changes.holds(asked), false);
    let asked_again = changes.settled();
    same(&rt, asked_again, Some(1));
    same(&rt, changes.holds(asked_again), true);
    // Of two more one is done: two of three are, and neither the two nor the one before hold.
    changes.begin();
    changes.begin();
    changes.end();
    same(&rt, changes.settled(), None);
    for settled in [asked, asked_again, Some(2)] {
        same(&rt, changes.holds(settled), false);
    }
    // A third is begun where the second ends.
    changes.begin();
    changes.end();
    same(&rt, changes.settled(), None);
    same(&rt, changes.holds(Some(3)), false);
    changes.end();
    same(&rt, changes.settled(), Some(4));
    same(&rt, changes.holds(Some(3)), false);
    same(&rt, (changes.begun(), changes.holds(Some(4))), (4, true));
}

/// Bytes stay held where the change that was begun since the question is done already.
#[test]
fn held_behind_a_done_change(rt: HostRuntime) {
    let alloc = rt.alloc();
    let changes = LayoutChanges::new();
    let mut writer = HeldWriter::new(Vec::new(alloc), &changes, changes.settled(), 0);
    same(&rt, writer.write(b"a").ok(), Some(1));
    changes.begin();
    changes.end();
    same(&rt, writer.write(b"b").ok(), None);
    same(&rt, writer.is_holding, true);
}

/// Each stream that was started or stopped is there once, with what came last.
#[test]
fn each_switch_is_told(rt: HostRuntime) {
    let mut switched = Switches::none();
    assert!(rt; switched.is_empty());
    for (stream, is_on) in [(101, true), (2000, true), (101, false)] {
        switched.switch(stream, is_on);
    }
    for (at, wanted) in [
        (0, Some((101, false))),
        (1, Some((2000, true))),
        (2, None),
        (8, None),
    ] {
        same(&rt, switched.at(at), wanted);
    }
    for (stream, wanted) in [(101, Some(false)), (2000, Some(true)), (102, None)] {
        same(&rt, switched.find(stream), wanted);
    }
}

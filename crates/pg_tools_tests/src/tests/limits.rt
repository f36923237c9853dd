//! Budgets, networks, guards, credits, layouts and rows of the table of connections, by values that are written by hand from the rules.
use crate::tests::asserts::same;
use crate::tests::times::after;
use pg_limits::{
    AheadGuard, Allow, Budget, ClockGuard, Credit, Deadline, Network, Pause, Portion, Stamp,
    TcpRow, Unacknowledged, are_unlike, is_clock_wrong, lower_median, reference,
};
use std::alloc::{AllocError, Global};
use std::io::Read;
use std::net::Ipv4Addr;
use std::process::Abort;
use std::test::*;
use std::time::{Duration, Instant};

// ---- networks

/// Lists of networks, `every` for no list, then hosts that they have, and hosts beside their edges that they have not.
const NETWORKS: &str = "\
0.0.0.0/0|0.0.0.0 255.255.255.255 10.0.0.1|\n\
10.0.0.1/8|10.0.0.0 10.0.0.1 10.255.255.255|9.255.255.255 11.0.0.0\n\
192.168.1.0/24|192.168.1.0 192.168.1.255|192.168.0.255 192.168.2.0 192.169.1.0\n\
10.0.0.4/31|10.0.0.4 10.0.0.5|10.0.0.3 10.0.0.6\n\
10.0.0.5/31|10.0.0.4 10.0.0.5|10.0.0.3 10.0.0.6\n\
255.255.255.255/32|255.255.255.255|255.255.255.254 127.255.255.255\n\
0.0.0.0/32|0.0.0.0|0.0.0.1 128.0.0.0\n\
128.0.0.0/1|128.0.0.0 255.255.255.255|127.255.255.255 0.0.0.0\n\
every|0.0.0.0 255.255.255.255|\n\
||127.0.0.1\n\
10.1.2.3/16 127.0.0.1/32|10.1.0.0 10.1.255.255 127.0.0.1|10.0.255.255 10.2.0.0 127.0.0.2";

fn host(rt: &impl Abort, text: &str) -> Ipv4Addr {
    text.parse::<Ipv4Addr>().expect(rt, "an address")
}

/// The networks of a row.
fn networks(rt: &impl Abort, alloc: Global, text: &str) -> Option<Vec<Network>> {
    if text == "every" {
        return None;
    }
    let mut networks = Vec::new(alloc);
    for text in text.split_ascii_whitespace() {
        let (address, bits) = text.split_once('/').expect(rt, "a slash");
        let bits = bits.parse::<u8>().expect(rt, "bits");
        assert!(rt; bits <= 32);
        let network = Network::new(host(rt, address), bits);
        networks.push(network).expect(rt, "memory");
    }
    Some(networks)
}

#[test]
fn hosts_that_may_connect(rt: HostRuntime) {
    for row in NETWORKS.split('\n') {
        let (list, hosts) = row.split_once('|').expect(&rt, "a list");
        let (inside, outside) = hosts.split_once('|').expect(&rt, "hosts");
        let allow = Allow {
            networks: networks(&rt, rt.alloc(), list),
        };
        for (hosts, may) in [(inside, true), (outside, false)] {
            for text in hosts.split_ascii_whitespace() {
                assert!(rt; allow.allows(host(&rt, text)) == may, "{text} at {row}");
            }
        }
    }
}

// ---- times

#[test]
fn pauses(rt: HostRuntime) {
    let mut pause = Pause::none();
    for seconds in [0, 1, 2, 4, 8, 16, 30, 30] {
        same(&rt, pause.seconds(), seconds);
        pause = pause.longer();
    }
}

/// Nanoseconds since it was last seen, those that are left, and whether it is over. A clock that reads earlier leaves the whole limit.
#[test]
fn deadline_at_its_limit(rt: HostRuntime) {
    let start = Instant::now(&rt).expect(&rt, "a clock");
    let seen = after(&rt, start, Duration::from_secs(9));
    let mut deadline = Deadline {
        last: start,
        limit: Duration::from_secs(10),
    };
    deadline.seen(seen);
    for (passed, left, is_over) in [
        (0, 10_000_000_000, false),
        (9_999_999_999, 1, false),
        (10_000_000_000, 0, true),
        (10_000_000_001, 0, true),
        (3_600_000_000_000, 0, true),
    ] {
        let now = after(&rt, seen, Duration::from_nanos(passed));
        same(&rt, deadline.left(now).as_nanos(), left);
        same(&rt, deadline.is_over(now), is_over);
    }
    same(&rt, deadline.left(start), Duration::from_secs(10));
}

/// Limits, clocks in milliseconds, and the SOC, numerator and resolution of measurements; whether they are near.
const NEAR: [(u16, u64, u32, u32, u32, bool); 22] = [
    // SOC 100 alone, at exactly 500 ms and 1 ms beyond
    (500, 100_500, 100, 0, 1_000_000, true),
    (500, 100_501, 100, 0, 1_000_000, false),
    (500, 99_500, 100, 0, 1_000_000, true),
    (500, 99_499, 100, 0, 1_000_000, false),
    // 100.5 s
    (500, 101_000, 100, 500_000, 1_000_000, true),
    (500, 101_001, 100, 500_000, 1_000_000, false),
    (500, 100_000, 100, 500_000, 1_000_000, true),
    (500, 99_999, 100, 500_000, 1_000_000, false),
    // the same with a resolution of 2
    (500, 101_000, 100, 1, 2, true),
    (500, 101_001, 100, 1, 2, false),
    // 100 1/3 s, which no whole millisecond is
    (1, 100_332, 100, 1, 3, false),
    (1, 100_333, 100, 1, 3, true),
    (1, 100_334, 100, 1, 3, true),
    (1, 100_335, 100, 1, 3, false),
    // a ten-thousandth of a millisecond decides
    (500, 101_000, 100, 500_001, 1_000_000, true),
    (500, 100_000, 100, 500_001, 1_000_000, false),
    // the widest limit, and the ends of the stamps
    (30_000, 130_000, 100, 0, 16_777_215, true),
    (30_000, 130_001, 100, 0, 16_777_215, false),
    (30_000, 70_000, 100, 0, 16_777_215, true),
    (30_000, 0, 30, 0, 1, true),
    (30_000, 0, 30, 1, 16_777_215, false),
    (
        1,
        4_294_967_295_999,
        4_294_967_295,
        16_777_214,
        16_777_215,
        true,
    ),
];

#[test]
fn clock_guard_at_its_limit(rt: HostRuntime) {
    for (limit, now, soc, frac, base, near) in NEAR {
        assert!(rt; now < 281_474_976_710_656 && frac < 16_777_216 && base < 16_777_216);
        let guard = ClockGuard { limit };
        assert!(rt;
            guard.is_near(now, soc, frac, base) == near,
            "{limit} {now} {soc} {frac}/{base}"
        );
    }
}

/// Times, clocks in milliseconds, and by how many milliseconds the time is ahead.
const AHEAD: [(u32, u32, u32, u64, i64); 8] = [
    (100, 0, 1_000_000, 100_000, 0),
    (100, 500_000, 1_000_000, 100_000, 500),
    (100, 500_999, 1_000_000, 100_000, 500),
    (100, 0, 1_000_000, 140_000, -40_000),
    (100, 1, 3, 0, 100_333),
    (100, 0, 0, 100_001, -1),
    (4_294_967_295, 16_777_214, 16_777_215, 0, 4_294_967_295_999),
    (
        0,
        0,
        1,
        18_446_744_073_709_551_615,
        -9_223_372_036_854_775_807,
    ),
];

#[test]
fn times_ahead_of_a_clock(rt: HostRuntime) {
    for (soc, frac, base, clock, ahead) in AHEAD {
        let stamp = Stamp { soc, frac, base };
        same(&rt, stamp.ahead_of(clock), ahead);
    }
}

#[test]
fn clocks_that_are_probably_wrong(rt: HostRuntime) {
    for (connected, refused, wrong) in [
        (0, 0, false),
        (1, 1, false),
        (2, 1, false),
        (2, 2, true),
        (3, 2, true),
        (4, 2, false),
        (4, 3, true),
        (256, 128, false),
        (256, 129, true),
        (4_294_967_295, 4_294_967_295, true),
    ] {
        assert!(rt;
            is_clock_wrong(connected, refused) == wrong,
            "{refused} of {connected}"
        );
    }
}

/// References in milliseconds, limits, and the SOC, numerator and resolution of measurements; whether they are ahead.
const AHEAD_OF_ALL: [(u64, u16, u32, u32, u32, bool); 12] = [
    // exactly at the limit, and a millionth of a second beyond
    (100_000, 200, 100, 200_000, 1_000_000, false),
    (100_000, 200, 100, 200_001, 1_000_000, true),
    (99_999, 200, 100, 200_000, 1_000_000, true),
    // behind is never ahead
    (100_000, 200, 99, 0, 1_000_000, false),
    (100_000, 200, 0, 0, 1, false),
    // 100 1/3 s, which no whole millisecond is
    (100_132, 200, 100, 1, 3, true),
    (100_133, 200, 100, 1, 3, true),
    (100_134, 200, 100, 1, 3, false),
    // the widest limit, and the ends of the stamps
    (0, 30_000, 30, 0, 1, false),
    (0, 30_000, 30, 1, 16_777_215, true),
    (u64::MAX, 1, 4_294_967_295, 16_777_214, 16_777_215, false),
    (0, 30_000, 4_294_967_295, 16_777_214, 16_777_215, true),
];

#[test]
fn ahead_guard_at_its_limit(rt: HostRuntime) {
    for (reference, limit, soc, frac, base, ahead) in AHEAD_OF_ALL {
        let guard = AheadGuard { limit };
        assert!(rt;
            guard.is_ahead(reference, soc, frac, base) == ahead,
            "{reference} {limit} {soc} {frac}/{base}"
        );
    }
}

/// Times, of which the first so many count, and their lower median.
const MEDIANS: [(usize, [u64; 5], Option<u64>); 13] = [
    (0, [0; 5], None),
    (1, [7, 0, 0, 0, 0], Some(7)),
    // of an even number the lower of the two in the middle
    (2, [9, 5, 0, 0, 0], Some(5)),
    (2, [5, 9, 0, 0, 0], Some(5)),
    (4, [4, 1, 3, 2, 0], Some(2)),
    // of an odd number the one in the middle
    (3, [9, 1, 5, 0, 0], Some(5)),
    (3, [9, 5, 1, 0, 0], Some(5)),
    (5, [5, 4, 3, 2, 1], Some(3)),
    // the same number more than once
    (2, [8, 8, 0, 0, 0], Some(8)),
    (3, [1, 8, 8, 0, 0], Some(8)),
    (4, [8, 1, 1, 8, 0], Some(1)),
    // one that runs ahead, and one that stopped
    (3, [u64::MAX, 100, 101, 0, 0], Some(101)),
    (3, [0, 100, 101, 0, 0], Some(100)),
];

/// A clock, the newest times of sources, of which the first so many count, and the reference.
const REFERENCES: [(u64, usize, [u64; 3], u64); 7] = [
    // no source, and one: the clock alone
    (1_000, 0, [0; 3], 1_000),
    (1_000, 1, [9_000, 0, 0], 1_000),
    // of two the lower, where it is later than the clock
    (1_000, 2, [9_000, 2_000, 0], 2_000),
    (1_000, 2, [9_000, 1_000, 0], 1_000),
    (1_000, 2, [9_000, 999, 0], 1_000),
    // a clock that is behind all sources, and one that is ahead of them
    (0, 3, [5_000, 5_020, 5_010], 5_010),
    (6_000, 3, [5_000, 5_020, 5_010], 6_000),
];

#[test]
fn medians_and_references(rt: HostRuntime) {
    for (count, times, median) in MEDIANS {
        assert!(rt; count <= 5);
        same(&rt, lower_median(&times[..count]), median);
    }
    for (clock, count, times, wanted) in REFERENCES {
        assert!(rt; count <= 3);
        same(&rt, reference(clock, &times[..count]), wanted);
    }
}

// ---- layouts

/// Lengths of layouts, the newest first, of which those from one place to another are known; the numbers of the layouts that are to be
/// unlike, and whether they are.
#[test]
fn layouts_that_no_reader_takes_for_each_other(rt: HostRuntime) {
    let lengths = [36, 26, 36, 56, 26, 26];
    for (from, to, floor, newest, unlike) in [
        // one layout is alone
        (0, 4, 7, 7, true),
        (0, 4, 6, 7, true),
        // the third is as long as the present one
        (0, 4, 5, 7, false),
        (0, 4, 4, 7, false),
        (1, 4, 5, 7, true),
        // a pair that does not stand side by side, and the last two
        (1, 5, 4, 7, false),
        (2, 6, 4, 7, false),
        (2, 6, 5, 7, true),
        // what was longer ago is not known
        (1, 4, 4, 7, false),
        (1, 2, 0, u64::MAX, false),
        (0, 0, 7, 7, false),
    ] {
        assert!(rt; from <= to && to <= 6 && floor <= newest);
        assert!(rt;
            are_unlike(&lengths[from..to], floor, newest) == unlike,
            "{from} {to} {floor}"
        );
    }
}

// ---- connections

/// Lines of /proc/net/tcp, and behind `=>` the connection: both ends, the state, and what is not acknowledged; nothing where there is none.
/// The first is that of the kernel's own page on it.
const CONNECTIONS: &str = "\
  46: 010310AC:9C4C 030310AC:1770 01 00000150:00000000 01:00000019 00000000  1000        0 54165785 4 cd1e6040 25 4 27 3 -1 => 172.16.3.1:40012 172.16.3.3:6000 1 336\n\
   0: 0100007F:1388 00000000:0000 0A 00000000:00000000 00:00000000 => 127.0.0.1:5000 0.0.0.0:0 10 0\n\
1234: 040302FF:FFFF fffefdfc:00ff 0b FFFFFFFF:FFFFFFFF => 255.2.3.4:65535 252.253.254.255:255 11 4294967295\n\
  sl  local_address rem_address   st tx_queue rx_queue tr tm->when retrnsmt   uid  timeout inode =>\n\
=>\n\
   0: =>\n\
   0: 0100007F:1388 00000000:0000 0A =>\n\
0 0100007F:1388 00000000:0000 0A 00000000:00000000 =>\n\
: 0100007F:1388 00000000:0000 0A 00000000:00000000 =>\n\
A: 0100007F:1388 00000000:0000 0A 00000000:00000000 =>\n\
0:1 0100007F:1388 00000000:0000 0A 00000000:00000000 =>\n\
0: 100007F:1388 00000000:0000 0A 00000000:00000000 =>\n\
0: 00100007F:1388 00000000:0000 0A 00000000:00000000 =>\n\
0: +100007F:1388 00000000:0000 0A 00000000:00000000 =>\n\
0: 0100007G:1388 00000000:0000 0A 00000000:00000000 =>\n\
0: 0100007F:138 00000000:0000 0A 00000000:00000000 =>\n\
0: 0100007F1388 00000000:0000 0A 00000000:00000000 =>\n\
0: 0100007F:1388 00000000 0A 00000000:00000000 =>\n\
0: 0100007F:1388 00000000:0000 A 00000000:00000000 =>\n\
0: 0100007F:1388 00000000:0000 00A 00000000:00000000 =>\n\
0: 0100007F:1388 00000000:0000 0A 00000000 =>\n\
0: 0100007F:1388 00000000:0000 0A 0000000:00000000 =>\n\
0: 0100007F:1388 00000000:0000 0A 00000000:0000000G =>\n\
0: 00000000000000000000000001000000:1388 00000000000000000000000000000000:0000 0A 00000000:00000000 =>";

/// A connection as a row has it; nothing where there is none.
fn told(alloc: Global, row: Option<TcpRow>) -> Result<String, AllocError> {
    match row {
        None => Ok(String::new(alloc)),
        Some(row) => {
            let ((local, port), (remote, far)) = (row.local, row.remote);
            let (state, queue) = (row.state, row.unacknowledged);
            format!(in alloc; " {local}:{port} {remote}:{far} {state} {queue}")
        }
    }
}

#[test]
fn connections_of_the_system(rt: HostRuntime) {
    for row in CONNECTIONS.split('\n') {
        let (line, wanted) = row.split_once("=>").expect(&rt, "an arrow");
        let came = told(rt.alloc(), TcpRow::read(line)).expect(&rt, "memory");
        assert!(rt; came.as_str() == wanted, "{row}: {came}");
    }
}

/// Looks at a connection: what was written in all, of that what is not acknowledged, the time, and since when nothing was acknowledged.
const LOOKS: [(u64, u32, u64, Option<u64>); 14] = [
    // all is acknowledged
    (100, 0, 10, None),
    // 50 more were sent
    (150, 50, 11, Some(11)),
    (150, 50, 12, Some(11)),
    // more was sent, and none is acknowledged
    (250, 150, 13, Some(11)),
    // one byte is
    (250, 149, 14, Some(14)),
    (300, 199, 20, Some(14)),
    // a table of an earlier moment: fewer than before are acknowledged
    (300, 250, 21, Some(14)),
    (300, 199, 22, Some(14)),
    // all is, and then nothing of what is new
    (300, 0, 23, None),
    (301, 1, 24, Some(24)),
    (301, 1, 99, Some(24)),
    (301, 0, 100, None),
    // more waits than is known to be written
    (301, 302, 101, Some(101)),
    (301, 302, 102, Some(101)),
];

#[test]
fn bytes_that_are_not_acknowledged(rt: HostRuntime) {
    let start = Instant::now(&rt).expect(&rt, "a clock");
    let mut waiting = Unacknowledged::new();
    for (written, queue, seconds, since) in LOOKS {
        waiting.look(
            written,
            queue,
            after(&rt, start, Duration::from_secs(seconds)),
        );
        let since = since.map(|seconds| after(&rt, start, Duration::from_secs(seconds)));
        assert!(rt; waiting.since() == since, "{written} {queue} {seconds}");
    }
}

// ---- reads

/// A budget of two reads of one byte: the third is refused, and the byte waits. A budget that is left has its reads.
#[test]
fn budget_of_reads(rt: HostRuntime) {
    let mut budget = Budget::new(b"abc".as_slice(), 2);
    let mut buf = [0; 1];
    for wanted in [Some(1), Some(1), None, None] {
        same(&rt, budget.is_used_up(), wanted.is_none());
        same(&rt, budget.read(&mut buf).ok(), wanted);
    }
    let mut next = Budget::new(budget.reader, 2);
    same(&rt, next.read(&mut buf).ok(), Some(1));
    same(&rt, (buf, next.left), (*b"c", 1));
}

#[test]
fn portions(rt: HostRuntime) {
    let mut source: &[u8] = b"abcdefgh";
    let mut buf = [0; 5];
    let mut reader = Portion::new(&mut source, 3);
    for (most, wanted) in [
        (3, *b"abc\0\0"),
        (0, *b"dbc\0\0"),
        (9, *b"efgh\0"),
        (9, *b"efgh\0"),
    ] {
        reader.most = most;
        assert!(rt; reader.read(&mut buf).is_ok());
        same(&rt, buf, wanted);
    }
}

// ---- how far one may be ahead

/// What is done to a credit that began with 8: so many are spent, the mark is set, what is before it confirmed, or it has another size; and
/// then how many are left, whether any was spent since the mark, and whether half of all is free.
const CREDITS: [(&str, u32, u32, bool, bool); 25] = [
    ("resize", 8, 8, false, true),
    ("spend", 3, 5, true, true),
    // the mark is behind three; two more come, and three
    ("mark", 0, 5, false, true),
    ("spend", 2, 3, true, false),
    ("spend", 3, 0, true, false),
    // the three are handed out, the five are not
    ("confirm", 0, 3, true, false),
    ("mark", 0, 3, false, false),
    ("confirm", 0, 8, false, true),
    // one at least
    ("resize", 0, 1, false, true),
    ("spend", 1, 0, true, false),
    ("mark", 0, 0, false, false),
    ("confirm", 0, 1, false, true),
    // of three, two are half
    ("resize", 3, 3, false, true),
    ("spend", 1, 2, true, true),
    ("spend", 1, 1, true, false),
    // fewer than are out leave none
    ("resize", 1, 0, true, false),
    ("resize", 0, 0, true, false),
    ("mark", 0, 0, false, false),
    ("confirm", 0, 1, false, true),
    // no more are counted than a number holds
    ("spend", u32::MAX, 0, true, false),
    ("spend", 1, 0, true, false),
    ("mark", 0, 0, false, false),
    ("spend", u32::MAX, 0, true, false),
    ("mark", 0, 0, false, false),
    ("confirm", 0, 1, false, true),
];

#[test]
fn credit_by_turns(rt: HostRuntime) {
    let mut credit = Credit::new(8);
    for (verb, events, left, has_spent, is_half_free) in CREDITS {
        match verb {
            "spend" => credit.spend(events),
            "mark" => credit.mark(),
            "confirm" => credit.confirm(),
            _ => credit.resize(events),
        }
        same(&rt, credit.left(), left);
        same(&rt, credit.has_spent(), has_spent);
        same(&rt, credit.is_half_free(), is_half_free);
    }
}

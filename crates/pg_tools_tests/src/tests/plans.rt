//! When a source is called, asked again and called anew: by a clock that the test moves.
use crate::tests::times::after;
use pg_limits::{Action, CallPlan};
use std::alloc::{AllocError, Global};
use std::process::Abort;
use std::test::*;
use std::time::{Duration, Instant};

/// A name, `silence` in seconds, then steps, most at a time in milliseconds. What happens:
///
/// - `called`, `made`, `ended`: a call, its connection, the end of either. It is waited for a connection for 10 seconds.
/// - `announced` (with its DATA_RATE), `measured`, `received`: what comes over the connection.
/// - `asked`: the source is asked again. `renew`: it is to be called anew. `rest`: it is not to be called.
/// - `addresses` of this number, of which the one at this place is called. `first`: the first one takes the place of the one that is called.
///
/// And what is asked, with the answer behind `=`: what is `due`, whether `silent` is due, the `phase`, the milliseconds that are `left`, the place
/// `at` which an address is called.
///
/// - A pause stands between calls, of 1, 2, 4, 8, 16, 30 and 30 seconds: however a connection ended, without a byte, behind an announcement,
///   or with measurements for less than 10 seconds. Two calls are a second apart, also where the source is to be called anew at once.
/// - A connection is given up after `silence` without a measurement, and after three periods of its DATA_RATE where these are longer. An
///   announcement is no sign of life where it has a rate. A new connection has announced no rate.
/// - A connection without a measurement is asked again after 3, 6 and 12 seconds, and after three periods where these are longer; not before a
///   second without a byte. A measurement begins it anew, an announcement does not.
/// - Without `silence` it is asked again for ever: 3 seconds, 18 times doubled, are 786,432.
/// - Of several addresses the next one is called at once, and the pause comes when all were tried since the last one; a connection with
///   measurements for 10 seconds begins anew. Behind the last address comes the first.
const ROWS: &str = "\
calls that fail|10|\
    due 0=Call|\
    called 0|phase 0=Calling|due 9999=Nothing|due 10000=GiveUp|\
    ended 10000|phase 0=Resting|due 10999=Nothing|due 11000=Call|\
    called 11000|phase 0=Calling|due 20999=Nothing|due 21000=GiveUp|\
    ended 21000|phase 0=Resting|due 22999=Nothing|due 23000=Call|\
    called 23000|phase 0=Calling|due 32999=Nothing|due 33000=GiveUp|\
    ended 33000|phase 0=Resting|due 36999=Nothing|due 37000=Call|\
    called 37000|phase 0=Calling|due 46999=Nothing|due 47000=GiveUp|\
    ended 47000|phase 0=Resting|due 54999=Nothing|due 55000=Call|\
    called 55000|phase 0=Calling|due 64999=Nothing|due 65000=GiveUp|\
    ended 65000|phase 0=Resting|due 80999=Nothing|due 81000=Call|\
    called 81000|phase 0=Calling|due 90999=Nothing|due 91000=GiveUp|\
    ended 91000|phase 0=Resting|due 120999=Nothing|due 121000=Call|\
    called 121000|phase 0=Calling|due 130999=Nothing|due 131000=GiveUp|\
    ended 131000|phase 0=Resting|due 160999=Nothing|due 161000=Call\n\
measurements end the pauses|10|\
    called 0|made 0|ended 10000|due 10999=Nothing|due 11000=Call|\
    called 0|made 0|announced 0 30|ended 10000|due 11999=Nothing|due 12000=Call|\
    called 0|made 0|announced 0 30|measured 0|measured 0|ended 10000|due 13999=Nothing|due 14000=Call|\
    called 0|made 0|announced 0 30|measured 0|measured 9999|ended 10000|due 17999=Nothing|due 18000=Call|\
    called 0|made 0|measured 0|measured 5000|ended 10000|due 25999=Nothing|due 26000=Call|\
    called 0|made 0|measured 0|measured 10000|ended 10000|due 10000=Call|\
    called 10000|ended 10000|due 10999=Nothing|due 11000=Call\n\
calls are a second apart|10|\
    called 0|made 0|\
    renew 10|due 999=Nothing|due 1000=Call|\
    renew 400|due 999=Nothing|due 1000=Call|\
    renew 3000|due 3000=Call\n\
silence by rate|10|\
    called 0|made 0|due 10000=Silent|\
    announced 500 30|silent 9999=false|due 10000=Silent|\
    measured 900|silent 10899=false|due 10900=Silent|\
    ended 900|called 900|made 900|due 10900=Silent\n\
silence by rate|10|\
    called 0|made 0|due 10000=Silent|\
    announced 500 -3|silent 9999=false|due 10000=Silent|\
    measured 900|silent 10899=false|due 10900=Silent|\
    ended 900|called 900|made 900|due 10900=Silent\n\
silence by rate|10|\
    called 0|made 0|due 10000=Silent|\
    announced 500 -4|silent 11999=false|due 12000=Silent|\
    measured 900|silent 12899=false|due 12900=Silent|\
    ended 900|called 900|made 900|due 10900=Silent\n\
silence by rate|10|\
    called 0|made 0|due 10000=Silent|\
    announced 500 -15|silent 44999=false|due 45000=Silent|\
    measured 900|silent 45899=false|due 45900=Silent|\
    ended 900|called 900|made 900|due 10900=Silent\n\
silence by rate|1|\
    called 0|made 0|due 1000=Silent|\
    announced 500 2|silent 1499=false|due 1500=Silent|\
    measured 900|silent 2399=false|due 2400=Silent|\
    ended 900|called 900|made 900|due 1900=Silent\n\
silence by rate|2|\
    called 0|made 0|due 2000=Silent|\
    announced 500 1|silent 2999=false|due 3000=Silent|\
    measured 900|silent 3899=false|due 3900=Silent|\
    ended 900|called 900|made 900|due 2900=Silent\n\
silence by rate|3600|\
    called 0|made 0|due 3600000=Silent|\
    announced 500 -32768|silent 98303999=false|due 98304000=Silent|\
    measured 900|silent 98304899=false|due 98304900=Silent|\
    ended 900|called 900|made 900|due 3600900=Silent\n\
silence without a rate|2|\
    called 0|made 0|announced 1500 0|silent 3499=false|due 3500=Silent\n\
asked again|20|\
    called 0|made 0|\
    due 2999=Nothing|due 3000=Ask|asked|announced 3100 30|\
    due 5999=Nothing|due 6000=Ask|asked|announced 6100 30|\
    due 11999=Nothing|due 12000=Ask|asked|announced 12100 30|\
    due 19999=Nothing|due 20000=Silent|measured 13000|due 15999=Nothing|due 16000=Ask\n\
asked again each 15 seconds|3600|\
    called 0|made 0|announced 0 -5|due 14999=Nothing|due 15000=Ask|\
    measured 14000|due 28999=Nothing|due 29000=Ask\n\
not asked amid bytes|3600|\
    called 0|made 0|received 2000|due 2999=Nothing|received 2900|due 3899=Nothing|received 3850|due 4849=Nothing|due 4850=Ask|left 4000=Some(850)\n\
no limit and rest|none|\
    called 0|made 0|\
    due 1000000000=Ask|asked|due 1000000000=Ask|asked|due 1000000000=Ask|asked|\
    due 1000000000=Ask|asked|due 1000000000=Ask|asked|due 1000000000=Ask|asked|\
    due 1000000000=Ask|asked|due 1000000000=Ask|asked|due 1000000000=Ask|asked|\
    due 1000000000=Ask|asked|due 1000000000=Ask|asked|due 1000000000=Ask|asked|\
    due 1000000000=Ask|asked|due 1000000000=Ask|asked|due 1000000000=Ask|asked|\
    due 1000000000=Ask|asked|due 1000000000=Ask|asked|due 1000000000=Ask|asked|\
    due 1000000000=Ask|asked|due 1000000000=Nothing|rest|due 1000000000=Nothing|left 1000000000=None|renew 1000000000|due 1000000000=Call\n\
three addresses in turn|10|\
    addresses 3 0|at=0|called 0|ended 10|at=1|phase 10=Resting|due 10=Call|\
    called 10|made 20|ended 30|at=2|due 30=Call|\
    called 30|ended 40|at=0|due 1039=Nothing|due 1040=Call|\
    called 1040|ended 1050|at=1|due 1050=Call|\
    called 1050|ended 1060|at=2|due 1060=Call|\
    called 1060|ended 1070|at=0|due 3069=Nothing|due 3070=Call\n\
a good connection begins anew|10|\
    addresses 2 0|called 0|ended 10|at=1|\
    called 10|made 20|measured 20|measured 10020|ended 11000|at=0|due 11000=Call|\
    called 11000|ended 11010|at=1|due 12009=Nothing|due 12010=Call|\
    called 12010|made 12010|measured 12010|measured 22009|ended 22009|at=0|due 22009=Call\n\
fewer addresses, and the first again|10|\
    addresses 4 3|at=3|called 0|ended 5|at=0|due 5=Call|\
    addresses 2 1|called 5|made 5|announced 5 30|measured 6|first 500|at=0|phase 500=Up|due 3499=Nothing|due 3500=Ask|\
    ended 4000|at=1|due 4000=Call|called 4000|ended 4010|at=0|due 5009=Nothing|due 5010=Call";

/// What is asked of a plan, or nothing where something happens to it.
fn told(
    rt: &impl Abort,
    alloc: Global,
    plan: &mut CallPlan,
    verb: &str,
    count: usize,
    now: Instant,
    rate: &str,
) -> Result<String, AllocError> {
    match verb {
        "due" => {
            let due = plan.due(now);
            return format!(in alloc; "{due:?}");
        }
        "silent" => {
            let is_silent = plan.due(now) == Action::Silent;
            return format!(in alloc; "{is_silent}");
        }
        "phase" => {
            let phase = plan.phase();
            return format!(in alloc; "{phase:?}");
        }
        "left" => {
            let left = plan.left(now).map(|left| left.as_millis());
            return format!(in alloc; "{left:?}");
        }
        "at" => {
            let at = plan.at();
            return format!(in alloc; "{at}");
        }
        "called" => plan.called(now),
        "made" => plan.made(now),
        "ended" => plan.ended(now),
        "announced" => plan.announced(now, rate.parse::<i16>().expect(rt, "a rate")),
        "measured" => plan.measured(now),
        "received" => plan.received(now),
        "asked" => plan.asked(),
        "addresses" => plan.set_addresses(count, rate.parse::<usize>().expect(rt, "a place")),
        "first" => plan.first_made(now),
        "renew" => plan.renew(now),
        _ => plan.rest(),
    }
    Ok(String::new(alloc))
}

#[test]
fn rows(rt: HostRuntime) {
    let start = Instant::now(&rt).expect(&rt, "a clock");
    for row in ROWS.split('\n') {
        let (name, row) = row.split_once('|').expect(&rt, "a name");
        let (silence, steps) = row.split_once('|').expect(&rt, "seconds");
        let silence = silence.parse::<u64>().ok().map(Duration::from_secs);
        let mut plan = CallPlan::new(start, silence);
        for step in steps.split('|') {
            let (asked, wanted) = step.split_once('=').unwrap_or((step, ""));
            let mut words = asked.split(' ');
            let verb = words.next().expect(&rt, "a word");
            let millis = words.next().unwrap_or("0").parse::<u64>();
            let millis = millis.expect(&rt, "a time");
            let now = after(&rt, start, Duration::from_millis(millis));
            let rate = words.next().unwrap_or("");
            let count = millis as usize;
            let came = told(&rt, rt.alloc(), &mut plan, verb, count, now, rate).expect(
                &rt, "memory",
            );
            assert!(rt; came.as_str() == wanted, "{name}: {step}: {came}");
        }
    }
}

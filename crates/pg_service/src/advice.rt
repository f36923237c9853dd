//! Which `wait` and `window` the delays of a stream's members ask for.
ghost use Rattle.std.specs.Prelude.{◌≡◌, ◌<◌, ◌*◌, ◌^◌};
ghost use Rattle.pg_service.specs.Advising.{advice_for, behind_of, blocks_in, blocks_of, bound_of, in_time, is_late_after, late_above, late_in, late_of, lateness, least_of, most_in, most_of, spread_of, sure_wait, ticks_for, window_for};

use pg_quality::{Delays, Histogram};
use pg_wire::PmuId;

/// How many thousandths of the blocks are to come in time.
const IN_TIME: u16 = 999;

/// The thousandths of its frames by which a source is judged late.
const USUAL: u16 = 990;

/// The delays of a source that has members of a stream.
#[derive(Clone, Copy)]
pub struct MemberDelays {
    /// The source.
    pub source: PmuId,
    /// How many members of the stream its frames have: at most 16, as many PMUs as a source has.
    pub members: u8,
    /// How long its frames took.
    pub delays: Histogram,
}

/// The numbers of a stream that advice depends on.
#[derive(Clone, Copy, PartialEq, Eq)]
pub struct StreamPace {
    /// Frames a second.
    pub rate: u8,
    /// The `wait` in force, in ticks.
    pub wait: u32,
    /// Milliseconds from tick to tick, 1 to 1000.
    pub tick_ms: u16,
}

impl StreamPace {
    /// How many milliseconds the `wait` in force is at most.
    pub fn wait_ms(self) -> u64
        ensures value { result ≡ self.wait * self.tick_ms }
    {
        u64::from(self.wait) * u64::from(self.tick_ms)
    }
}

/// What the delays of a stream's members ask for.
#[derive(Clone, Copy, PartialEq, Eq)]
pub struct Advice {
    /// The least `wait`, in ticks, by which 99.9 per cent of each source's frames come in time.
    pub wait: u64,
    /// The `window` that is not full within this wait.
    pub window: u64,
    /// The blocks for which the `wait` in force is too short.
    pub late: u64,
    /// All of the members' blocks.
    pub blocks: u64,
}

impl Advice {
    /// What the delays of these sources ask for: those that have members of the stream and of which a frame came.
    ///
    /// A frame opens with the data of the first member. So what a wait has to bridge is the spread: the greatest delay that a source keeps with 99.9 per cent of its frames, less
    /// the least delay of any source. Where one source has all members, nothing has to be waited for. A wait can be one tick shorter than it says, so that
    /// a tick is added.
    pub fn new(sources: &[MemberDelays], pace: StreamPace) -> Advice
        requires { 0 < pace.tick_ms }
        ensures { result ≡ advice_for sources.now pace }
    {
        let wait = ticks_for(spread_of(sources), pace.tick_ms);
        Advice {
            wait,
            window: window_for(wait, pace),
            late: late_of(sources, pace),
            blocks: blocks_of(sources),
        }
    }
}

/// By how many milliseconds 99 per cent of a source's frames come at most after the first member's. 0 where one source has all members.
pub fn behind_of(sources: &[MemberDelays], source: &MemberDelays) -> u64
    ensures { result ≡ behind_of sources.now source.now }
{
    match source.delays.quantile(USUAL) {
        Some(delay) if sources.len() >= 2 => lateness(delay, least_of(sources)),
        _ => 0,
    }
}

/// Whether data that come by so many milliseconds after the first member's are late for a stream: its `wait` is shorter; or, where they were late, not
/// surely as long.
pub fn is_late_after(was_late: bool, behind: u64, pace: StreamPace) -> bool
    ensures { result ≡ is_late_after was_late behind pace }
{
    if was_late {
        behind > sure_wait(pace)
    } else {
        behind > pace.wait_ms()
    }
}

/// The least delay of any source; 2^63 - 1 where there is none.
fn least_of(sources: &[MemberDelays]) -> i64
    ensures { result ≡ least_of sources.now }
{
    let mut least = i64::MAX;
    for source in sources {
        least = least.min(source.delays.least);
    }
    least
}

/// The greatest of the delays that sources keep with 99.9 per cent of their frames; -2^63 where there is none.
fn most_of(sources: &[MemberDelays]) -> i64
    ensures { result ≡ most_of sources.now }
{
    let mut most = i64::MIN;
    for source in sources {
        most = most.max(most_in(&source.delays));
    }
    most
}

/// The delay that a source keeps with 99.9 per cent of its frames; -2^63 where none came.
fn most_in(delays: &Histogram) -> i64
    ensures { result ≡ most_in delays.now }
{
    delays.quantile(IN_TIME).unwrap_or(i64::MIN)
}

/// How many milliseconds a delay is above another one.
fn lateness(delay: i64, least: i64) -> u64
    ensures { result ≡ lateness delay least }
{
    if delay <= least {
        0
    } else {
        delay.abs_diff(least)
    }
}

/// How many milliseconds have to be waited for 99.9 per cent of each source's frames, from the first one of an instant on.
fn spread_of(sources: &[MemberDelays]) -> u64
    ensures { result ≡ spread_of sources.now }
{
    if sources.len() < 2 {
        return 0;
    }
    lateness(most_of(sources), least_of(sources))
}

/// The least wait in ticks that is surely so many milliseconds long.
fn ticks_for(millis: u64, tick_ms: u16) -> u64
    requires { 0 < tick_ms }
    ensures { result ≡ ticks_for millis tick_ms }
{
    if millis == 0 {
        return 0;
    }
    millis.div_ceil(u64::from(tick_ms)).saturating_add(1)
}

/// How many frames may be open where each waits so many ticks.
fn window_for(wait: u64, pace: StreamPace) -> u64
    ensures { result ≡ window_for wait pace }
{
    let millis = wait.saturating_mul(u64::from(pace.tick_ms));
    millis
        .saturating_mul(u64::from(pace.rate))
        .div_ceil(1_000)
        .saturating_add(1)
}

/// How many milliseconds the wait in force is surely long.
fn sure_wait(pace: StreamPace) -> u64
    ensures value { result ≡ sure_wait pace }
    ensures within { result < 2 ^ 48 }
{
    u64::from(pace.wait.saturating_sub(1)) * u64::from(pace.tick_ms)
}

/// The blocks for which the wait in force is too short.
fn late_of(sources: &[MemberDelays], pace: StreamPace) -> u64
    ensures { result ≡ late_of sources.now pace }
{
    if sources.len() < 2 {
        return 0;
    }
    late_above(sources, bound_of(sources, pace))
}

/// The greatest delay for which the wait in force is surely long enough.
fn bound_of(sources: &[MemberDelays], pace: StreamPace) -> i64
    ensures { result ≡ bound_of sources.now pace }
{
    least_of(sources).saturating_add(sure_wait(pace).cast_signed())
}

/// The blocks of all members whose delay is above this one.
fn late_above(sources: &[MemberDelays], bound: i64) -> u64
    ensures { result ≡ late_above bound sources.now }
{
    let mut late = 0u64;
    for source in sources {
        late = late.saturating_add(late_in(source, bound));
    }
    late
}

/// The blocks of a source's members whose delay is above this one. Those of a bucket count where its end is above it.
fn late_in(source: &MemberDelays, bound: i64) -> u64
    ensures { result ≡ late_in bound source.now }
{
    if source.delays.greatest <= bound {
        return 0;
    }
    let late = source
        .delays
        .count()
        .saturating_sub(in_time(&source.delays, bound));
    late.saturating_mul(u64::from(source.members))
}

/// How many frames have a delay in a bucket that ends at this one or before.
fn in_time(delays: &Histogram, bound: i64) -> u64
    ensures { result ≡ in_time bound delays.now }
{
    let all = Delays {
        current: *delays,
        ..Delays::new()
    };
    all.below(bound.saturating_add(1))
}

/// All blocks of the members.
fn blocks_of(sources: &[MemberDelays]) -> u64
    ensures { result ≡ blocks_of sources.now }
{
    let mut blocks = 0u64;
    for source in sources {
        blocks = blocks.saturating_add(blocks_in(source));
    }
    blocks
}

/// The blocks of a source's members.
fn blocks_in(source: &MemberDelays) -> u64
    ensures { result ≡ blocks_in source.now }
{
    source
        .delays
        .count()
        .saturating_mul(u64::from(source.members))
}

//! Measurements that are too far from this machine's clock, or too far ahead of all clocks.
ghost use Rattle.std.specs.Prelude.{◌≡◌, ◌<◌, ◌≤◌, ◌^◌, count_by, nat_le};
ghost use Rattle.pg_limits.specs.Clocks.{ahead_by, has_half, is_ahead, is_near, is_wrong, lower_median, millis_of, reference};

/// How far a source's measurements may be from this machine's clock.
#[derive(Clone, Copy)]
pub struct ClockGuard {
    /// Milliseconds, 1 to 30,000.
    pub limit: u16,
}

impl ClockGuard {
    /// Whether the instant SOC + numerator / resolution is near enough to this clock, which is in milliseconds since 1970-01-01 00:00
    /// UTC.
    pub fn is_near(&self, now: u64, soc: u32, frac: u32, base: u32) -> bool
        ensures { result ≡ is_near self.now.limit now soc frac base }
    {
        let limit = u128::from(self.limit);
        let base = u128::from(base);
        let time = (u128::from(soc) * base + u128::from(frac)) * 1000;
        let clock = u128::from(now);
        time <= (clock + limit) * base && clock * base <= time + limit * base
    }
}

/// How far a source's measurements may be ahead of the reference; see [`reference`].
#[derive(Clone, Copy)]
pub struct AheadGuard {
    /// Milliseconds, 1 to 30,000.
    pub limit: u16,
}

impl AheadGuard {
    /// Whether the instant SOC + numerator / resolution is ahead of this reference by more than the limit. The reference is in milliseconds
    /// since 1970-01-01 00:00 UTC.
    pub fn is_ahead(&self, reference: u64, soc: u32, frac: u32, base: u32) -> bool
        ensures { result ≡ is_ahead self.now.limit reference soc frac base }
    {
        let limit = u128::from(self.limit);
        let base = u128::from(base);
        let time = (u128::from(soc) * base + u128::from(frac)) * 1000;
        (u128::from(reference) + limit) * base < time
    }
}

/// Whether at least half of these times are at most this one.
fn has_half(times: &[u64], time: u64) -> bool
    ensures { result ≡ has_half times.now time }
{
    let most = times.iter().filter(|other| **other <= time).count();
    most >= times.len() - most
}

/// The lower median of these times: the least of them that at least half of them are at most; `None` where there are none. It takes as many
/// comparisons as there are pairs of them.
pub fn lower_median(times: &[u64]) -> Option<u64>
    ensures { result ≡ lower_median times.now }
{
    times
        .iter()
        .copied()
        .filter(|time| has_half(times, *time))
        .min()
}

/// What a measurement's time is held against: this machine's clock, or the lower median of the newest times of all connected
/// sources where that is later. Where there are not two such sources it is the clock alone. All in milliseconds since 1970-01-01 00:00 UTC.
pub fn reference(clock: u64, newest: &[u64]) -> u64
    ensures { result ≡ reference clock newest.now }
{
    if newest.len() < 2 {
        return clock;
    }
    match lower_median(newest) {
        Some(median) => clock.max(median),
        None => clock,
    }
}

/// The time of a data frame (C37.118.2, 6.2): SOC + numerator / resolution, in seconds since 1970-01-01 00:00 UTC.
#[derive(Clone, Copy, Debug, PartialEq, Eq)]
pub struct Stamp {
    /// SOC.
    pub soc: u32,
    /// FRACSEC's numerator.
    pub frac: u32,
    /// The resolution of FRACSEC; 0 counts as 1.
    pub base: u32,
}

impl Stamp {
    /// Its whole milliseconds since 1970-01-01 00:00 UTC.
    pub fn millis(self) -> u64
        ensures { result ≡ millis_of self.soc self.frac self.base }
    {
        u64::from(self.soc) * 1_000 + u64::from(self.frac) * 1_000 / u64::from(self.base.max(1))
    }

    /// By how many milliseconds it is ahead of a clock that reads so many since 1970-01-01 00:00 UTC; negative where it is behind.
    pub fn ahead_of(self, clock: u64) -> i64
        ensures { result ≡ ahead_by (millis_of self.soc self.frac self.base) clock }
    {
        let most = i64::MAX.unsigned_abs();
        let clock = clock.min(most).cast_signed();
        self.millis().min(most).cast_signed() - clock
    }
}

/// Whether this machine's clock is probably the wrong one: of so many connected sources more than half are refused for the same
/// direction, and two at least.
pub fn is_clock_wrong(connected: u32, refused: u32) -> bool
    ensures { result ≡ is_wrong connected refused }
{
    refused >= 2 && u64::from(refused) * 2 > u64::from(connected)
}

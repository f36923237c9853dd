//! The delay of frames: a histogram of each ten seconds of this machine's clock.
ghost use Rattle.std.specs.Prelude.{◌≡◌, ◌+◌, ◌-◌, ◌^◌, ◌<◌, ◌≤◌, length, min, sum, take};
ghost use Rattle.pg_quality.specs.Delaying.{added, below, both, bucket_of, counted, empty, end_in, end_of, is_within, last_minute, no_delays, noted, quantile_of, range_of, reached, rolled, start_of, with_one};

/// How many buckets are there for delays from 0 on, and as many for those below it.
const SIDE: usize = 76;

/// How many buckets a histogram has. Bucket 76 + b has the delays of m milliseconds where m lies in range b, and bucket 75 - b those of -1 - m
/// milliseconds. The ranges are a quarter of a power of two wide: 0, 1, 2, .. 7, 8 to 9, 10 to 11, .. 14 to 15, 16 to 19, and so on to range 75, which
/// has all from 917,504 on.
pub const BUCKETS: usize = 152;

/// The greatest number that a range has of its own: 2^20 - 1 milliseconds, 17 minutes.
const MOST: u64 = 1_048_575;

/// How many seconds a histogram is of.
const WIDTH: u64 = 10;

/// How many filed histograms are kept.
const FILED: u64 = 6;

/// How long frames took in some time: this machine's clock less the stamp, in milliseconds.
#[derive(Clone, Copy)]
pub struct Histogram {
    /// The number of the ten seconds of this machine's clock, since 1970-01-01 00:00 UTC.
    pub number: u64,
    /// The least delay; 2^63 - 1 where there is none.
    pub least: i64,
    /// The greatest delay; -2^63 where there is none.
    pub greatest: i64,
    /// How many frames have a delay of each bucket; see [`BUCKETS`].
    pub counts: [u32; 152],
}

impl Histogram {
    /// No frame came in these ten seconds.
    pub fn new(number: u64) -> Histogram
        ensures { result ≡ empty number }
    {
        Histogram {
            number,
            least: i64::MAX,
            greatest: i64::MIN,
            counts: [0; 152],
        }
    }

    /// A frame came with this delay.
    #[inline(always)]
    pub fn note(&mut self, delay: i64)
        ensures { self.new ≡ noted self.old delay }
    {
        let bucket = bucket_of(delay);
        self.counts[bucket] = self.counts[bucket].saturating_add(1);
        if delay < self.least {
            self.least = delay;
        }
        if delay > self.greatest {
            self.greatest = delay;
        }
    }

    /// Adds the frames of another one. Each count stays at 2^32 - 1 once it is there.
    pub fn add(&mut self, other: &Histogram)
        ensures { self.new ≡ both self.old other.now }
    {
        add_counts(&mut self.counts, &other.counts);
        self.least = self.least.min(other.least);
        self.greatest = self.greatest.max(other.greatest);
    }

    /// Adds the frames of another one where it is of these ten seconds or of the 60 seconds before them.
    fn add_within(&mut self, last: u64, other: &Histogram)
        ensures { self.new ≡ with_one last self.old other.now }
    {
        if is_within(other.number, last) {
            self.add(other);
        }
    }

    /// How many frames came.
    pub fn count(&self) -> u64
        ensures value { result ≡ sum self.now.counts }
        ensures within { result < 2 ^ 40 }
    {
        let mut count = 0;
        for frames in &self.counts {
            count += u64::from(*frames);
        }
        count
    }

    /// A delay that so many thousandths of the frames have at most: the upper end of the first bucket from below up to which there are as many, and not
    /// above the greatest delay. `None` where no frame came.
    #[tactic(auto, using(crate::proofs::Rounding::rank_fits))]
    pub fn quantile(&self, thousandths: u16) -> Option<i64>
        ensures { result ≡ quantile_of self.now thousandths }
    {
        let count = self.count();
        if count == 0 {
            return None;
        }
        let rank = (count * u64::from(thousandths)).div_ceil(1_000);
        Some(self.end_in(reached(&self.counts, rank)))
    }

    /// The greatest delay of a bucket here.
    fn end_in(&self, bucket: usize) -> i64
        ensures { result ≡ end_in self.now bucket }
    {
        if bucket >= BUCKETS - 1 {
            self.greatest
        } else {
            self.greatest.min(end_of(bucket))
        }
    }
}

/// The delays of the last 60 seconds, and up to 10 seconds more; and how many of all frames had which.
#[derive(Clone, Copy)]
pub struct Delays {
    /// Those of the ten seconds to which this machine's clock has come.
    pub current: Histogram,
    /// Those before: that of ten seconds n at n mod 6, where no later one took its place.
    pub filed: [Histogram; 6],
    /// How many frames of all that were ever filed have a delay of each bucket. Each count stays at 2^64 - 1 once it is there.
    pub totals: [u64; 152],
}

impl Delays {
    /// No frame came.
    pub fn new() -> Delays
        ensures { result ≡ no_delays }
    {
        Delays {
            current: Histogram::new(0),
            filed: [Histogram::new(0); 6],
            totals: [0; 152],
        }
    }

    /// A second of this machine's clock begins: where it is of another ten seconds, those before are filed.
    pub fn roll(&mut self, second: u64)
        ensures { self.new ≡ rolled self.old second }
    {
        let number = second / WIDTH;
        if number != self.current.number {
            self.filed[(self.current.number % FILED) as usize] = self.current;
            add_totals(&mut self.totals, &self.current.counts);
            self.current = Histogram::new(number);
        }
    }

    /// A frame came with this delay.
    #[inline(always)]
    pub fn note(&mut self, delay: i64)
        ensures { self.new ≡ record self.old { current = noted self.old.current delay } }
    {
        self.current.note(delay);
    }

    /// The delays of the ten seconds that this second is of, and of the 60 seconds before them.
    pub fn last_minute(&self, second: u64) -> Histogram
        ensures { result ≡ last_minute self.now second }
    {
        let number = second / WIDTH;
        let mut total = Histogram::new(number);
        total.add_within(number, &self.current);
        for histogram in &self.filed {
            total.add_within(number, histogram);
        }
        total
    }

    /// How many of all frames have a delay in a bucket before that of this delay; all those with a smaller one, where its bucket begins with it. It
    /// stays at 2^64 - 1 once it is there.
    pub fn below(&self, delay: i64) -> u64
        ensures { result ≡ below self.now (bucket_of delay) }
    {
        sum_below(&self.totals, &self.current.counts, bucket_of(delay))
    }

    /// How many frames came. It stays at 2^64 - 1 once it is there.
    pub fn count(&self) -> u64
        ensures { result ≡ below self.now 152 }
    {
        sum_below(&self.totals, &self.current.counts, BUCKETS)
    }
}

/// How many frames have a delay of the first so many buckets.
#[tactic(auto, using(crate::proofs::Adding::sum_more))]
fn sum_below(totals: &[u64; 152], counts: &[u32; 152], most: usize) -> u64
    requires { most ≤ 152 }
    ensures { result ≡ min (sum (take most totals.now) + sum (take most counts.now)) (2 ^ 64 - 1) }
{
    let mut count = 0u64;
    for bucket in 0..most {
        count = count
            .saturating_add(totals[bucket])
            .saturating_add(u64::from(counts[bucket]));
    }
    count
}

/// Whether ten seconds are these, or one of the six before.
fn is_within(number: u64, last: u64) -> bool
    ensures { result ≡ is_within number last }
{
    number <= last && last - number <= FILED
}

/// Adds counts, bucket by bucket.
#[tactic(auto, using(crate::proofs::Adding::mixed_more, crate::proofs::Adding::mixed_all))]
fn add_counts(counts: &mut [u32; 152], others: &[u32; 152])
    ensures { counts.new ≡ added (2 ^ 32 - 1) counts.old others.now }
{
    for bucket in 0..BUCKETS {
        counts[bucket] = counts[bucket].saturating_add(others[bucket]);
    }
}

/// The same of more counts than 32 bits hold.
#[tactic(auto, using(crate::proofs::Adding::mixed_more, crate::proofs::Adding::mixed_all))]
fn add_totals(totals: &mut [u64; 152], counts: &[u32; 152])
    ensures { totals.new ≡ added (2 ^ 64 - 1) totals.old counts.now }
{
    for bucket in 0..BUCKETS {
        totals[bucket] = totals[bucket].saturating_add(u64::from(counts[bucket]));
    }
}

/// The range that a number lies in.
#[tactic(auto, using(crate::proofs::Ranges::range_small, crate::proofs::Ranges::range_most, crate::proofs::Ranges::range_by_log, crate::proofs::Ranges::range_below))]
#[inline(always)]
fn range_of(number: u64) -> usize
    ensures value { result ≡ range_of number }
    ensures within { result < 76 }
{
    if number < 8 {
        return number as usize;
    }
    if number > MOST {
        return SIDE - 1;
    }
    let shift = (number / 4).ilog2();
    4 * shift as usize + (number >> shift) as usize
}

/// The least number of a range, and of the one behind the last.
#[tactic(auto, using(crate::proofs::Ranges::start_fits, crate::proofs::Ranges::start_whole))]
fn start_of(range: usize) -> u64
    requires { range ≤ 76 }
    ensures value { result ≡ start_of range }
    ensures within { result < 2 ^ 22 }
{
    if range < 8 {
        range as u64
    } else {
        (4 + range as u64 % 4) << (range / 4 - 1)
    }
}

/// The bucket of a delay.
#[tactic(auto, using(crate::proofs::Rounding::negative_above))]
#[inline(always)]
fn bucket_of(delay: i64) -> usize
    ensures value { result ≡ bucket_of delay }
    ensures within { result < 152 }
{
    if delay < 0 {
        SIDE - 1 - range_of(delay.unsigned_abs() - 1)
    } else {
        SIDE + range_of(delay.unsigned_abs())
    }
}

/// The greatest delay of a bucket before the last.
fn end_of(bucket: usize) -> i64
    requires { bucket < 151 }
    ensures { result ≡ end_of bucket }
{
    if bucket < SIDE {
        -1 - start_of(SIDE - 1 - bucket).cast_signed()
    } else {
        start_of(bucket - (SIDE - 1)).cast_signed() - 1
    }
}

/// The first bucket up to which there are so many frames; the number of buckets where there are fewer in all.
fn reached(counts: &[u32; 152], rank: u64) -> usize
    ensures { result ≡ reached counts.now rank }
{
    let mut left = rank;
    let mut bucket = 0;
    for count in counts {
        let count = u64::from(*count);
        if left <= count {
            return bucket;
        }
        left -= count;
        bucket += 1;
    }
    bucket
}

//! The ages of frames, counted by how old they are.

ghost use Rattle.std.specs.Prelude.{◌≡◌, ◌+◌, ◌<◌, IfSome, length, min, slice_index, slice_set};
ghost use Rattle.pg_status.specs.Ages.{beyond_after, bucket_of, no_ages, one_more, with_one_more};

/// How many bounds there are.
pub const BUCKETS: usize = 12;

/// The bounds of the buckets in microseconds, rising: 5 ms to 30 s.
pub const BOUNDS: [u64; BUCKETS] = [
    5_000, 10_000, 20_000, 50_000, 100_000, 200_000, 500_000, 1_000_000, 2_000_000, 5_000_000,
    10_000_000, 30_000_000,
];

/// How many frames were how old as they were written. Its counts stop at the largest number.
#[derive(Clone, Copy, Debug, PartialEq, Eq)]
pub struct Histogram {
    /// Of each bound, the ages that are at most this bound and above the one before.
    pub counts: [u64; BUCKETS],
    /// The ages above all bounds.
    pub beyond: u64,
    /// The sum of all ages in microseconds.
    pub micros: u64,
}

/// The bucket of an age in microseconds; `None` above all bounds.
fn bucket_at(micros: u64) -> Option<usize>
    ensures value { result ≡ bucket_of BOUNDS micros }
    ensures within { IfSome result (λ place. place < 12) }
{
    BOUNDS.iter().position(|bound| micros <= *bound)
}

/// Counts one more in a bucket.
fn count_one(counts: &mut [u64], place: usize)
    requires { place < length counts.old }
    ensures { counts.new ≡ slice_set counts.old place (one_more (slice_index counts.old place)) }
{
    counts[place] = counts[place].saturating_add(1);
}

impl Histogram {
    /// No age was seen.
    pub fn new() -> Histogram
        ensures { result ≡ no_ages }
    {
        Histogram {
            counts: [0; BUCKETS],
            beyond: 0,
            micros: 0,
        }
    }

    /// Counts an age in microseconds.
    pub fn observe(&mut self, micros: u64)
        ensures counts { self.new.counts ≡ with_one_more (bucket_of BOUNDS micros) self.old.counts }
        ensures beyond { self.new.beyond ≡ beyond_after (bucket_of BOUNDS micros) self.old.beyond }
        ensures micros { self.new.micros ≡ min 18446744073709551615 (self.old.micros + micros) }
    {
        match bucket_at(micros) {
            Some(place) => count_one(&mut self.counts, place),
            None => self.beyond = self.beyond.saturating_add(1),
        }
        self.micros = self.micros.saturating_add(micros);
    }

    /// Counts all ages that were counted elsewhere too.
    pub fn add(&mut self, seen: &Histogram) {
        for (count, more) in self.counts.iter_mut().zip(seen.counts.iter()) {
            *count = (*count).saturating_add(*more);
        }
        self.beyond = self.beyond.saturating_add(seen.beyond);
        self.micros = self.micros.saturating_add(seen.micros);
    }
}

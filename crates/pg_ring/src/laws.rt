//! Laws of the numbers of data frames, as contracts of functions that do nothing.
ghost use Rattle.std.specs.Prelude.{◌≡◌, ◌<◌, ◌&&◌, nat_le, ℕ, List, length, map, sum_by};
ghost use Rattle.pg_ring.specs.Shown.{Queue, gap_of, frames_begun, saturated};
ghost use Rattle.pg_ring.specs.Numbers.{Numbered, ShowsNumbered};
ghost use Rattle.pg_ring.specs.Fates.{Call, QueueHistory, history_of, fates, gap_in, placed_from, begun_by_call, one_if};

/// No frame is lost from the count: after any calls on a new queue, each number given is begun, queued, pending, in the
/// gap of a frame that is begun or queued, or cleared by a hang-up (queued, in a queued frame's gap or pending when it
/// came). It is just one of these, and in the gap of one frame alone. A number that was not given is none of them.
pub fn each_number_has_one_fate()
    ensures { (size limit : ℕ) (calls : List Call) (k : ℕ) → 0 < size
        → fates (history_of size limit calls) k ≡ one_if (nat_le 1 k && nat_le k (length (history_of size limit calls).now.made)) }
{}

/// The gap that a frame shows, or that a drain answers, is the count of the numbers in it.
pub fn gaps_count_numbers()
    ensures queued { (queue : Queue) (m : Numbered) → ShowsNumbered queue m → map gap_of queue.frames ≡ map gap_in (placed_from m.mark m.queue) }
    ensures begun { (queue : Queue) (m : Numbered) (n : ℕ) → ShowsNumbered queue m
        → map gap_of (frames_begun queue n) ≡ map gap_in (begun_by_call m (Call.Drain n)) }
{}

//! Counters. Each stays at 2^64 - 1 once it is there.
ghost use Rattle.std.specs.Prelude.{◌≡◌};
ghost use Rattle.pg_audit.specs.Counting.{no_stats, no_pmu_stats, more, counted};
ghost use Rattle.pg_wire.specs.Number.{number_of};

use pg_wire::Refusal;

/// What happened to a subscriber's data frames, replies and commands. Only the `count_*` calls change it.
#[derive(Clone, Copy, PartialEq, Eq)]
pub struct Stats {
    /// Data frames made: the numbers given, kept or not.
    pub made: u64,
    /// Data frames that a push put out of the queue, and those that were longer than the ring bytes.
    pub dropped: u64,
    /// Data frames that were not composed, for want of memory: numbers with no frame.
    pub lost: u64,
    /// Blocks that came for a slot which had left: once for each stream that ignored them.
    pub late: u64,
    /// Blocks that came a second time for their slot: once for each stream that ignored them.
    pub twice: u64,
    /// Data frames that a hang-up cleared, the one in hand included.
    pub cleared: u64,
    /// Bytes handed out.
    pub handed: u64,
    /// Replies queued.
    pub replies: u64,
    /// Refusals and ignored blocks by the number of their reason, 1 to 40.
    pub by_reason: [u64; 41],
}

/// What happened to a PMU's blocks, a link's events or a session's commands. Only the `count_*` calls change
/// it.
#[derive(Clone, Copy, PartialEq, Eq)]
pub struct PmuStats {
    /// Blocks of measurements taken (of a PMU), events given (of a link), commands given (of a session).
    pub taken: u64,
    /// Refusals and ignored frames by the number of their reason, 1 to 40.
    pub by_reason: [u64; 41],
}

impl Stats {
    /// All counters at 0.
    pub fn new() -> Stats
        ensures { result ≡ no_stats }
    {
        Stats {
            made: 0,
            dropped: 0,
            lost: 0,
            late: 0,
            twice: 0,
            cleared: 0,
            handed: 0,
            replies: 0,
            by_reason: [0; 41],
        }
    }

    /// Counts data frames made: numbers given.
    pub fn count_made(&mut self, frames: u64)
        ensures { self.new ≡ record self.old { made = more self.old.made frames } }
    {
        self.made = self.made.saturating_add(frames);
    }

    /// Counts data frames that a push dropped, as the push says their number.
    pub fn count_dropped(&mut self, frames: u64)
        ensures { self.new ≡ record self.old { dropped = more self.old.dropped frames } }
    {
        self.dropped = self.dropped.saturating_add(frames);
    }

    /// Counts a data frame that was not composed, for want of memory.
    pub fn count_lost(&mut self)
        ensures { self.new ≡ record self.old { lost = more self.old.lost 1 } }
    {
        self.lost = self.lost.saturating_add(1);
    }

    /// Counts a block that came for a slot which had left.
    pub fn count_late(&mut self)
        ensures { self.new ≡ record self.old { late = more self.old.late 1 } }
    {
        self.late = self.late.saturating_add(1);
    }

    /// Counts a block that came a second time for its slot.
    pub fn count_twice(&mut self)
        ensures { self.new ≡ record self.old { twice = more self.old.twice 1 } }
    {
        self.twice = self.twice.saturating_add(1);
    }

    /// Counts data frames that a hang-up cleared, as `clear` of the queue says their number.
    pub fn count_cleared(&mut self, frames: u64)
        ensures { self.new ≡ record self.old { cleared = more self.old.cleared frames } }
    {
        self.cleared = self.cleared.saturating_add(frames);
    }

    /// Counts bytes handed out.
    pub fn count_handed(&mut self, bytes: u64)
        ensures { self.new ≡ record self.old { handed = more self.old.handed bytes } }
    {
        self.handed = self.handed.saturating_add(bytes);
    }

    /// Counts a reply that was queued.
    pub fn count_reply(&mut self)
        ensures { self.new ≡ record self.old { replies = more self.old.replies 1 } }
    {
        self.replies = self.replies.saturating_add(1);
    }

    /// Counts a refusal, or an ignored block or frame, under the number of its reason.
    pub fn count_refusal(&mut self, refusal: Refusal)
        ensures { self.new ≡ record self.old { by_reason = counted self.old.by_reason (number_of refusal) } }
    {
        let number = usize::from(refusal.number());
        self.by_reason[number] = self.by_reason[number].saturating_add(1);
    }
}

impl PmuStats {
    /// All counters at 0.
    pub fn new() -> PmuStats
        ensures { result ≡ no_pmu_stats }
    {
        PmuStats {
            taken: 0,
            by_reason: [0; 41],
        }
    }

    /// Counts one that was taken or given.
    pub fn count_taken(&mut self)
        ensures { self.new ≡ record self.old { taken = more self.old.taken 1 } }
    {
        self.taken = self.taken.saturating_add(1);
    }

    /// Counts a refusal, or an ignored block or frame, under the number of its reason.
    pub fn count_refusal(&mut self, refusal: Refusal)
        ensures { self.new ≡ record self.old { by_reason = counted self.old.by_reason (number_of refusal) } }
    {
        let number = usize::from(refusal.number());
        self.by_reason[number] = self.by_reason[number].saturating_add(1);
    }
}

//! A subscriber's output: its queue, its counters, and how many frames the event made and kept so far.

ghost use Rattle.std.specs.Prelude.{◌≡◌, ◌+◌, ◌<◌, ◌≤◌, ◌^◌, List, ◌∷◌, [], ℕ, length, take, drop, min, sum_by, true, false, if◌then◌else◌, IfOk, IfErr, Ok, Err, Some, vec_len};
ghost use Rattle.pg_session.specs.Sending.{Sending, Sends};
ghost use Rattle.pg_session.specs.Kept.{by_slots, by_gaps};
ghost use Rattle.pg_session.specs.Private.{told, done, cleared_out, drained_out, with_reply, with_refusal};
ghost use Rattle.pg_session.specs.Output.{kept_frame, lost_frame, one_late, one_twice, one_past};
ghost use Rattle.pg_ring.specs.Shown.{empty_queue, begun_of, bytes_to_leave, frames_begun, gap_of, saturated};
ghost use Rattle.pg_ring.specs.Steps.{takes_reply};
ghost use Rattle.pg_audit.specs.Counting.{no_stats};

use crate::event::PrivateReply;
use pg_audit::Stats;
use pg_ring::{Drained, OutQueue, RingBytes, RingSize};
use pg_wire::Refusal;
use std::alloc::Global;
use std::marker::Model;

/// The queue and the counters of a subscriber, and of the event at hand the data frames made and kept so far.
#[derive(Drop)]
pub(crate) struct Output {
    queue: OutQueue,
    stats: Stats,
    made: u64,
    kept: u64,
    lost: bool,
}

impl Model for Output {
    ghost use Rattle.pg_session.specs.Sending.{Sending};

    ghost Value = { Sending };

    ghost view = { λ o. record { output = record { queue = o.queue; stats = o.stats }; made = o.made; kept = o.kept; lost = o.lost } };
}

impl Output {
    /// An empty queue, and all counters at 0.
    pub fn new(alloc: Global, ring: RingSize, bytes: RingBytes) -> Result<Output, Refusal>
        ensures empty { IfOk result (λ o. o ≡ record { output = record { queue = empty_queue ring bytes; stats = no_stats }; made = 0; kept = 0; lost = false }) }
        ensures memory { IfErr result (λ refusal. refusal ≡ Refusal.NoMemory) }
    {
        Ok(Output {
            queue: OutQueue::new(alloc, ring, bytes)?,
            stats: Stats::new(),
            made: 0,
            kept: 0,
            lost: false,
        })
    }

    /// An event begins: nothing is made yet. With `lost` every frame that it makes is lost.
    pub fn begin(&mut self, lost: bool)
        ensures { self.new ≡ record self.old { made = 0; kept = 0; lost = lost } }
    {
        self.made = 0;
        self.kept = 0;
        self.lost = lost;
    }

    /// Whether a frame of this event was lost, so that the next one is.
    pub fn is_lost(&self) -> bool
        ensures { result ≡ self.now.lost }
    {
        self.lost
    }

    /// The event at hand is done: how many data frames it made, and how many of them are kept.
    pub fn done(&self) -> PrivateReply
        ensures { told result ≡ done self.now.made self.now.kept }
    {
        PrivateReply::Done {
            made: self.made,
            kept: self.kept,
        }
    }

    /// What waits to be handed out.
    pub fn queue(&self) -> &OutQueue
        ensures { result.now ≡ self.now.output.queue }
    {
        &self.queue
    }

    /// The counters.
    pub fn stats(&self) -> &Stats
        ensures { result.now ≡ self.now.output.stats }
    {
        &self.stats
    }

    /// A hang-up: what waits is cleared, and counted.
    pub fn clear(&mut self)
        ensures { self.new ≡ record self.old { output = cleared_out by_slots by_gaps self.old.output } }
    {
        let cleared = self.queue.clear();
        self.stats.count_cleared(cleared);
    }

    /// What waits is handed out into the buffer, as far as it goes, and counted.
    pub fn drain(&mut self, buf: &mut [u8]) -> Drained
        ensures within { result.len ≤ length buf.old }
        ensures rest { drop result.len buf.new ≡ drop result.len buf.old }
        ensures handed { take result.len buf.new ≡ take (length buf.old) (bytes_to_leave self.old.output.queue) }
        ensures len { length buf.new ≡ length buf.old }
        ensures begun { result.begun ≡ begun_of self.old.output.queue (length buf.old) }
        ensures gap { result.gap ≡ saturated (sum_by gap_of (frames_begun self.old.output.queue (length buf.old))) }
        ensures state { self.new ≡ record self.old { output = drained_out by_slots by_gaps self.old.output (length buf.old) } }
    {
        let drained = self.queue.drain(buf);
        self.stats.count_handed(drained.len as u64);
        drained
    }

    /// Whether a reply can be put into the queue: fewer than 8 stand.
    pub fn takes_reply(&self) -> bool
        ensures { result ≡ takes_reply self.now.output.queue }
    {
        self.queue.replies() < 8
    }

    /// Puts a reply into the queue, and counts it. It asks for room.
    pub fn reply(&mut self, frame: Vec<u8>)
        requires bytes { 0 < vec_len frame }
        requires room { takes_reply self.old.output.queue ≡ true }
        ensures { self.new ≡ record self.old { output = with_reply by_slots by_gaps self.old.output (Some frame.items) } }
    {
        // There is room, by what is asked for.
        let _ = self.queue.push_reply(frame);
        self.stats.count_reply();
    }

    /// Counts a refused command.
    pub fn count_refusal(&mut self, refusal: Refusal)
        ensures { self.new ≡ record self.old { output = with_refusal self.old.output refusal } }
    {
        self.stats.count_refusal(refusal);
    }

    /// Counts a block that came for a slot which had left.
    pub fn count_late(&mut self)
        ensures { self.new ≡ record self.old { output = record self.old.output { stats = one_late self.old.output.stats } } }
    {
        self.stats.count_late();
    }

    /// Counts a block that came a second time for its slot.
    pub fn count_twice(&mut self)
        ensures { self.new ≡ record self.old { output = record self.old.output { stats = one_twice self.old.output.stats } } }
    {
        self.stats.count_twice();
    }

    /// Counts a block whose slot lies past the end of time.
    pub fn count_past(&mut self)
        ensures { self.new ≡ record self.old { output = record self.old.output { stats = one_past self.old.output.stats } } }
    {
        self.stats.count_refusal(Refusal::TimeEnd);
    }

    /// Memory for the next frame: that of one which is done with, where there is any.
    pub fn take_spare(&mut self, alloc: Global) -> Vec<u8>
        ensures { self.new ≡ self.old }
    {
        self.queue.take_spare(alloc)
    }

    /// Takes a frame that was composed, or loses it where that found no memory. It asks that none of the event was lost.
    #[inline(always)]
    pub fn send(&mut self, composed: Result<Vec<u8>, Refusal>)
        requires none_lost { self.old.lost ≡ false }
        requires bytes { IfOk composed (λ frame. 0 < vec_len frame) }
        requires few { self.old.kept ≤ self.old.made }
        requires bounded { self.old.made < 2 ^ 32 }
        ensures sends { (frame : List ℕ) → IfOk composed (λ v. v.items ≡ frame) → Sends (frame ∷ []) self.old self.new }
    {
        match composed {
            Ok(frame) => {
                let dropped = self.queue.push_data(frame);
                self.stats.count_made(1);
                self.stats.count_dropped(dropped);
                self.made += 1;
                self.kept += 1;
            }
            Err(_) => self.lose(),
        }
    }

    /// Loses a frame that is not composed.
    #[inline(never)]
    pub fn lose(&mut self)
        requires bounded { self.old.made < 2 ^ 32 }
        ensures sends { (frame : List ℕ) → Sends (frame ∷ []) self.old self.new }
        ensures state { self.new ≡ record self.old { output = lost_frame by_gaps self.old.output; made = self.old.made + 1; lost = true } }
    {
        self.queue.push_lost();
        self.stats.count_made(1);
        self.stats.count_lost();
        self.made += 1;
        self.lost = true;
    }
}

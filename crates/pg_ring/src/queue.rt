//! The output queue. A clause sees a queue as its readers show it.
ghost use Rattle.std.specs.Prelude.{◌≡◌, ◌+◌, ◌-◌, ◌^◌, ◌<◌, ◌≤◌, ◌↔◌, ◌==◌, [], ◌∷◌, ◌++◌, length, take, drop, map, sum, slice_get, option_copied, IfOk, IfErr, IsOk, IfSome, IfNone, MatchOption, vec_len, false, if◌then◌else◌, nat_lt, Ok, Err, sum_by, min, Some, None};
ghost use Rattle.std.specs.List.{flat_map};
ghost use Rattle.pg_ring.specs.Shown.{Queue, Framed, bytes_in, IsWithinLimits, empty_queue, emptied, data_frames, drained, bytes_to_leave, begun_of, frames_begun, frames_to_leave, saturated, gap_of};
ghost use Rattle.pg_ring.specs.Steps.{with_data, with_lost, with_reply, takes_reply, begun_next};
ghost use Rattle.pg_ring.specs.Numbers.{Numbered, ShowsNumbered, push_made, dropped_by, lose_made, drain_made, clear_made, cleared_by, none_made, reply_made};

use crate::ring::{QueuedFrame, copy_front, keep_spare, push_frame, push_last};
use crate::sizes::{RingBytes, RingSize};
use circular_buffer::HeapCircularBuffer;
use pg_wire::Refusal;
use std::alloc::Global;
use std::marker::Model;
use std::mem;

/// The most data frames whose memory is kept: so many are handed out at once.
const MOST_SPARES: usize = 64;

/// What waits to be handed to a subscriber: the rest of the frame in hand, up to 8 replies, and a ring of data frames
/// that is bounded by frames and by bytes. A frame of which one byte was handed out is in hand: it has left
/// its queue, is never dropped, and counts towards no limit. Only `new` takes memory. The memory of data frames that went, dropped or
/// handed out, is kept for the next ones.
#[derive(Drop)]
pub struct OutQueue {
    hand: Vec<u8>,
    taken: usize,
    data_in_hand: bool,
    replies: HeapCircularBuffer<Vec<u8>>,
    frames: HeapCircularBuffer<QueuedFrame>,
    held: usize,
    byte_limit: usize,
    pending: u64,
    // Of data frames that went, the last one behind the others. There is room for as many as may come at once.
    spares: Vec<Vec<u8>>,
}

impl Model for OutQueue {
    ghost use Rattle.pg_ring.specs.Shown.{Queue};

    ghost Value = { Queue };

    ghost use Rattle.pg_ring.specs.Fields.{queue_of, QueueIsKept};

    ghost view = { queue_of };

    ghost invariant = { QueueIsKept };
}

/// What a drain handed out.
#[derive(Clone, Copy, PartialEq, Eq)]
pub struct Drained {
    /// The number of bytes handed out.
    pub len: usize,
    /// The number of frames, replies and data frames, whose first byte is among them.
    pub begun: usize,
    /// The sum of the gaps of the data frames begun, at most 2^64 - 1.
    pub gap: u64,
}

impl OutQueue {
    /// An empty queue, with room reserved for the ring, for 8 replies and for the memory that is kept. Refused with `NoMemory` alone.
    pub fn new(alloc: Global, ring: RingSize, bytes: RingBytes) -> Result<OutQueue, Refusal>
        ensures shown { IfOk result (λ queue. queue ≡ empty_queue ring bytes) }
        ensures numbered { IfOk result (λ queue. ShowsNumbered queue (none_made ring bytes)) }
        ensures memory { IfErr result (λ refusal. refusal ≡ Refusal.NoMemory) }
    {
        let byte_limit = bytes.get() as usize;
        let size = usize::from(ring.get());
        let replies = HeapCircularBuffer::with_capacity(alloc, 8)?;
        let frames = HeapCircularBuffer::with_capacity(alloc, size)?;
        let spares = Vec::with_capacity(alloc, size.min(MOST_SPARES))?;
        Ok(OutQueue {
            hand: Vec::new(alloc),
            taken: 0,
            data_in_hand: false,
            replies,
            frames,
            held: 0,
            byte_limit,
            pending: 0,
            spares,
        })
    }

    /// Each queue keeps the limits: 1 to 1,024 frames, 16 to 16,777,216 bytes of data frames, 8 replies. A law: it does
    /// nothing.
    pub fn keeps_limits(&self)
        ensures { IsWithinLimits self.now }
    {
        let _ = &self.hand;
    }

    /// What is left to hand out of the frame in hand, be it a reply or a data frame.
    pub fn rest(&self) -> &[u8]
        ensures { result.now ≡ self.now.rest }
    {
        &self.hand[self.taken..]
    }

    /// The number of replies that stand, 0 to 8. A reply in hand is none of them.
    pub fn replies(&self) -> usize
        ensures count { result ≡ length self.now.replies }
        ensures within { result ≤ 8 }
    {
        self.replies.len()
    }

    /// The number of data frames in the ring. The one in hand is none of them.
    pub fn frames(&self) -> usize
        ensures count { result ≡ length self.now.frames }
        ensures within { result ≤ self.now.ring_size }
    {
        self.frames.len()
    }

    /// The count of frames dropped or lost with no frame in the ring after them, at most 2^64 - 1.
    pub fn pending(&self) -> u64
        ensures { result ≡ self.now.pending }
    {
        self.pending
    }

    /// The number of frames that wait, replies and data frames: at most 1,033. The one in hand is one of them where bytes of it
    /// are left.
    pub fn frames_to_leave(&self) -> u64
        ensures count { result ≡ frames_to_leave self.now }
        ensures within { result ≤ 1033 }
    {
        let in_hand = self.taken < self.hand.len();
        self.replies.len() as u64 + self.frames.len() as u64 + u64::from(in_hand)
    }

    /// The number of bytes that wait: the rest in hand, the replies and the data frames; at most 2^64 - 1.
    pub fn bytes_to_leave(&self) -> u64
        ensures { result ≡ saturated (length (bytes_to_leave self.now)) }
    {
        let rest = self.hand.len() - self.taken;
        (rest as u64)
            .saturating_add(self.held as u64)
            .saturating_add(self.reply_bytes())
    }

    /// The number of bytes of the replies that stand, at most 2^64 - 1.
    fn reply_bytes(&self) -> u64
        ensures { result ≡ saturated (length (flat_map (λ piece. piece) self.now.replies)) }
    {
        let mut bytes = 0u64;
        for i in 0..self.replies() {
            let Some(reply) = self.reply_at(i) else {
                unreachable!();
            };
            bytes = bytes.saturating_add(reply.len() as u64);
        }
        bytes
    }

    /// The reply at `index`, the oldest first.
    pub fn reply_at(&self, index: usize) -> Option<&[u8]>
        ensures { option_copied result ≡ slice_get self.now.replies index }
    {
        match self.replies.get(index) {
            None => None,
            Some(reply) => Some(reply.as_slice()),
        }
    }

    /// The data frame at `index`, the oldest first, with its gap: the count of frames dropped or lost directly before it.
    pub fn frame_at(&self, index: usize) -> Option<(&[u8], u64)>
        ensures { MatchOption result (length self.now.frames ≤ index)
            (λ frame. slice_get self.now.frames index ≡ Some (record { bytes = frame.0.now; gap = frame.1 })) }
    {
        match self.frames.get(index) {
            None => None,
            Some(frame) => Some((frame.bytes.as_slice(), frame.gap)),
        }
    }

    /// Pushes a data frame, and returns how many data frames this push dropped.
    ///
    /// A frame that is no longer than the ring bytes is appended, and the oldest frames go until the ring's frames and
    /// bytes fit; their gaps, and one for each, pass on to the next frame. A longer frame changes nothing in the ring: it
    /// is dropped itself, and pending.
    // Inlined, a push calls one of two small functions.
    #[inline(always)]
    pub fn push_data(&mut self, frame: Vec<u8>) -> u64
        requires { 0 < vec_len frame }
        ensures dropped { result + length self.new.frames ≡ length self.old.frames + 1 }
        ensures shown { self.new ≡ with_data self.old frame.items }
        ensures numbered { (m : Numbered) → ShowsNumbered self.old m
            → ShowsNumbered self.new (push_made m frame.items) × (result ≡ dropped_by m frame.items) }
    {
        if self.frames.is_full() || frame.len() > self.byte_limit - self.held {
            return self.push_over(frame);
        }
        self.push_behind(frame);
        0
    }

    /// The same, where there is room for it: it drops nothing.
    #[inline(never)]
    fn push_behind(&mut self, frame: Vec<u8>)
        requires some { 0 < vec_len frame }
        requires place { length self.old.frames < self.old.ring_size }
        requires fits { bytes_in self.old.frames + vec_len frame ≤ self.old.byte_limit }
        ensures one_more { length self.new.frames ≡ length self.old.frames + 1 }
        ensures shown { self.new ≡ with_data self.old frame.items }
    {
        let frame = QueuedFrame {
            bytes: frame,
            gap: self.pending,
        };
        push_last(&mut self.frames, &mut self.held, frame);
        self.pending = 0;
    }

    /// The same, mostly called where the oldest frames have to go.
    #[inline(never)]
    fn push_over(&mut self, frame: Vec<u8>) -> u64
        requires { 0 < vec_len frame }
        ensures dropped { result + length self.new.frames ≡ length self.old.frames + 1 }
        ensures shown { self.new ≡ with_data self.old frame.items }
        ensures numbered { (m : Numbered) → ShowsNumbered self.old m
            → ShowsNumbered self.new (push_made m frame.items) × (result ≡ dropped_by m frame.items) }
    {
        if frame.len() > self.byte_limit {
            self.pending = self.pending.saturating_add(1);
            return 1;
        }
        let frame = QueuedFrame {
            bytes: frame,
            gap: self.pending,
        };
        let dropped = push_frame(
            &mut self.frames,
            &mut self.held,
            self.byte_limit,
            frame,
            &mut self.spares,
        );
        self.pending = 0;
        dropped as u64
    }

    /// Counts a data frame that was lost: it was not composed, for want of memory.
    pub fn push_lost(&mut self)
        ensures shown { self.new ≡ with_lost self.old }
        ensures numbered { (m : Numbered) → ShowsNumbered self.old m → ShowsNumbered self.new (lose_made m) }
    {
        self.pending = self.pending.saturating_add(1);
    }

    /// Pushes a reply. Refused with `ReplyFull` just where 8 replies stand; the queue is then unchanged.
    #[tactic(auto, using(crate::proofs::Room::ring_steps))]
    pub fn push_reply(&mut self, frame: Vec<u8>) -> Result<(), Refusal>
        requires { 0 < vec_len frame }
        ensures answer { result ≡ (if takes_reply self.old then Ok tt else Err Refusal.ReplyFull) }
        ensures shown { self.new ≡ with_reply self.old frame.items }
        ensures numbered { (m : Numbered) → ShowsNumbered self.old m
            → ShowsNumbered self.new (reply_made m frame.items) }
    {
        if self.replies.is_full() {
            return Err(Refusal::ReplyFull);
        }
        let _none = self.replies.push_back(frame);
        Ok(())
    }

    /// A hang-up: lets go of the frame in hand, replies, data frames and pending count. Returns how many data frames were
    /// cleared, the one in hand included; a reply in hand doesn't count.
    pub fn clear(&mut self) -> u64
        ensures count { result ≡ data_frames self.old }
        ensures shown { self.new ≡ emptied self.old }
        ensures numbered { (m : Numbered) → ShowsNumbered self.old m
            → ShowsNumbered self.new (clear_made m) × (result ≡ cleared_by m) }
    {
        let in_hand = self.data_in_hand && self.taken < self.hand.len();
        let cleared = self.frames.len() as u64 + u64::from(in_hand);
        self.hand.clear();
        self.taken = 0;
        self.data_in_hand = false;
        self.replies.clear();
        self.frames.clear();
        self.held = 0;
        self.pending = 0;
        cleared
    }

    /// Memory of a data frame that is done with, for the next one: of those that are kept, the one that went last; none where none is
    /// kept. What its bytes are says nothing. At most as many frames' memory is kept as the ring has places, and of no more than 64.
    pub fn take_spare(&mut self, alloc: Global) -> Vec<u8>
        ensures shown { self.new ≡ self.old }
        ensures numbered { (m : Numbered) → ShowsNumbered self.old m → ShowsNumbered self.new m }
    {
        match self.spares.pop() {
            Some(spare) => spare,
            None => self.take_done(alloc),
        }
    }

    /// The memory of a data frame of which nothing is left in hand; none where no such frame is there.
    fn take_done(&mut self, alloc: Global) -> Vec<u8>
        ensures { self.new ≡ self.old }
    {
        if !self.data_in_hand || self.taken < self.hand.len() {
            return Vec::new(alloc);
        }
        self.taken = 0;
        mem::replace(&mut self.hand, Vec::new(alloc))
    }

    /// Takes a frame in hand, and keeps the memory of a data frame that was there.
    fn put_in_hand(&mut self, frame: Vec<u8>, is_data: bool)
        ensures { self.new ≡ record self.old { rest = frame.items; data_in_hand = is_data } }
    {
        let done = mem::replace(&mut self.hand, frame);
        // A frame whose memory was taken left none.
        if self.data_in_hand && done.capacity() > 0 {
            keep_spare(&mut self.spares, done);
        }
        self.taken = 0;
        self.data_in_hand = is_data;
    }

    /// Takes the next frame in hand, and returns its gap.
    fn begin_next(&mut self) -> Option<u64>
        requires { self.old.rest ≡ [] }
        ensures none { IfNone result ((begun_next self.old self.old.replies self.old.frames ≡ None)
            × (self.new ≡ self.old)) }
        ensures some { IfSome result (λ gap.
            begun_next self.old self.old.replies self.old.frames ≡ Some (gap, self.new)) }
    {
        if let Some(reply) = self.replies.pop_front() {
            self.put_in_hand(reply, false);
            return Some(0);
        }
        let frame = self.frames.pop_front()?;
        self.held -= frame.bytes.len();
        self.put_in_hand(frame.bytes, true);
        Some(frame.gap)
    }

    /// Hands out what fits of the frame in hand.
    fn hand_over(&mut self, out: &mut [u8]) -> usize
        ensures count { result ≡ min (length self.old.rest) (length out.old) }
        ensures bytes { out.new ≡ take result self.old.rest ++ drop result out.old }
        ensures rest { self.new ≡ record self.old { rest = drop result self.old.rest } }
    {
        let count = copy_front(&self.hand[self.taken..], out);
        self.taken += count;
        count
    }

    /// Fills `buf` with the rest in hand, then replies, then data frames, as far as they go; each byte is copied once.
    /// Past what was handed out `buf` is unchanged. A frame whose first byte is handed out has left its queue.
    pub fn drain(&mut self, buf: &mut [u8]) -> Drained
        ensures len { result.len ≡ min (length buf.old) (length (bytes_to_leave self.old)) }
        ensures bytes { buf.new ≡ take (length buf.old) (bytes_to_leave self.old)
            ++ drop (length (bytes_to_leave self.old)) buf.old }
        ensures begun { result.begun ≡ begun_of self.old (length buf.old) }
        ensures gap { result.gap ≡ saturated (sum_by gap_of (frames_begun self.old (length buf.old))) }
        ensures shown { self.new ≡ drained self.old (length buf.old) }
        ensures numbered { (m : Numbered) → ShowsNumbered self.old m
            → ShowsNumbered self.new (drain_made m (length buf.old)) }
    {
        // shows the proof what the fields keep: at most 8 replies and 1,024 data frames wait
        let _ = &self.hand;
        let mut len = self.hand_over(buf);
        let mut begun = 0usize;
        let mut gap = 0u64;
        while len < buf.len() {
            let Some(next) = self.begin_next() else {
                break;
            };
            begun += 1;
            gap = gap.saturating_add(next);
            len += self.hand_over(&mut buf[len..]);
        }
        Drained { len, begun, gap }
    }
}

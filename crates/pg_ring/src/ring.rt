//! The steps of the ring of data frames.
ghost use Rattle.std.specs.Prelude.{◌≡◌, ℕ, ◌+◌, ◌-◌, ◌^◌, ◌<◌, ◌≤◌, [], ◌∷◌, ◌++◌, length, vec_len, min, take, drop, slice_get, Some};
ghost use Rattle.circular_buffer.specs.Buffer.{buffer};
ghost use Rattle.pg_ring.specs.Shown.{bytes_in, HaveBytes, Framed};
ghost use Rattle.pg_ring.specs.Steps.{room, pass_on, pushed};
ghost use Rattle.pg_ring.specs.Items.{shown, framed_of};
ghost use Rattle.pg_ring.specs.declared.ring.QueuedFrame.{QueuedFrame};

use circular_buffer::HeapCircularBuffer;

/// A data frame in the ring, and the count of frames dropped or lost directly before it.
#[derive(Drop)]
pub(crate) struct QueuedFrame {
    pub(crate) bytes: Vec<u8>,
    pub(crate) gap: u64,
}

/// Keeps the memory of a data frame that is done with, behind what is kept already, where there is room for it.
#[inline(always)]
pub(crate) fn keep_spare(spares: &mut Vec<Vec<u8>>, done: Vec<u8>) {
    if spares.len() < spares.capacity() {
        spares.push_reserved(done);
    }
}

/// Drops the oldest frames until the others have at most `limit` bytes, and returns the gap that they pass on. Their memory is kept in
/// `spares`.
fn make_room(
    frames: &mut HeapCircularBuffer<QueuedFrame>,
    held: &mut usize,
    limit: usize,
    spares: &mut Vec<Vec<u8>>,
) -> u64
    requires counted { held.old ≡ bytes_in (shown frames.old.items) }
    ensures kept { (size : ℕ) → length frames.new.items < size
        → room size limit 0 (shown frames.old.items) ≡ (result, shown frames.new.items) }
    ensures whole { length frames.new.items ≡ length frames.old.items → frames.new.items ≡ frames.old.items }
    ensures counted { held.new ≡ bytes_in (shown frames.new.items) }
    ensures capacity { frames.new.capacity ≡ frames.old.capacity }
    ensures no_more { length frames.new.items ≤ length frames.old.items }
    ensures lighter { held.new ≤ limit }
    ensures have_bytes { HaveBytes (shown frames.old.items) → HaveBytes (shown frames.new.items) }
{
    let mut passed = 0u64;
    while *held > limit {
        let Some(oldest) = frames.pop_front() else {
            break;
        };
        *held -= oldest.bytes.len();
        passed = passed.saturating_add(oldest.gap).saturating_add(1);
        keep_spare(spares, oldest.bytes);
    }
    passed
}

/// The first frame takes a gap over.
fn pass_gap(frames: &mut HeapCircularBuffer<QueuedFrame>, passed: u64)
    requires { length frames.old.items ≤ frames.old.capacity }
    ensures frames { shown frames.new.items ≡ pass_on passed (shown frames.old.items) }
    ensures same_len { length frames.new.items ≡ length frames.old.items }
    ensures capacity { frames.new.capacity ≡ frames.old.capacity }
{
    if let Some(first) = frames.get_mut(0) {
        first.gap = first.gap.saturating_add(passed);
    }
}

/// Appends a frame that is no longer than `limit`. The oldest frames go until it fits, and their gaps pass on. Returns
/// how many went. Their memory is kept in `spares`.
#[tactic(auto, using(crate::proofs::Room::ring_steps))]
pub(crate) fn push_frame(
    frames: &mut HeapCircularBuffer<QueuedFrame>,
    held: &mut usize,
    limit: usize,
    frame: QueuedFrame,
    spares: &mut Vec<Vec<u8>>,
) -> usize
    requires counted { held.old ≡ bytes_in (shown frames.old.items) }
    requires some_size { 0 < frames.old.capacity }
    requires fits { vec_len frame.bytes ≤ limit }
    requires has_byte { 0 < vec_len frame.bytes }
    requires have_bytes { HaveBytes (shown frames.old.items) }
    ensures dropped { result + length frames.new.items ≡ length frames.old.items + 1 }
    ensures frames { shown frames.new.items
        ≡ pushed frames.old.capacity limit (shown frames.old.items) (framed_of frame) }
    ensures counted { held.new ≡ bytes_in (shown frames.new.items) }
    ensures lighter { held.new ≤ limit }
    ensures few { length frames.new.items ≤ frames.old.capacity }
    ensures capacity { frames.new.capacity ≡ frames.old.capacity }
    ensures have_bytes { HaveBytes (shown frames.new.items) }
{
    let before = frames.len();
    let passed = make_room(frames, held, limit - frame.bytes.len(), spares);
    let dropped = before - frames.len();
    *held += frame.bytes.len();
    let Some(oldest) = frames.push_back(frame) else {
        pass_gap(frames, passed);
        return dropped;
    };
    // The ring was full, so none had to go for its bytes.
    *held -= oldest.bytes.len();
    pass_gap(frames, oldest.gap.saturating_add(1));
    keep_spare(spares, oldest.bytes);
    1
}

/// Appends a frame for which there is room. None goes, and no gap passes on.
#[inline(always)]
pub(crate) fn push_last(
    frames: &mut HeapCircularBuffer<QueuedFrame>,
    held: &mut usize,
    frame: QueuedFrame,
)
    requires counted { held.old ≡ bytes_in (shown frames.old.items) }
    requires room { length frames.old.items < frames.old.capacity }
    requires fits { held.old + vec_len frame.bytes < 2 ^ 64 }
    requires has_byte { 0 < vec_len frame.bytes }
    requires have_bytes { HaveBytes (shown frames.old.items) }
    ensures frames { (limit : ℕ) → held.old + vec_len frame.bytes ≤ limit
        → shown frames.new.items ≡ pushed frames.old.capacity limit (shown frames.old.items) (framed_of frame) }
    ensures one_more { length frames.new.items ≡ length frames.old.items + 1 }
    ensures counted { held.new ≡ bytes_in (shown frames.new.items) }
    ensures sum { held.new ≡ held.old + vec_len frame.bytes }
    ensures capacity { frames.new.capacity ≡ frames.old.capacity }
    ensures have_bytes { HaveBytes (shown frames.new.items) }
{
    is_number(frame.gap);
    first_is_number(frames);
    *held += frame.bytes.len();
    let Ok(()) = frames.try_push_back(frame) else {
        unreachable!();
    };
}

/// The first frame's gap is a number of 64 bits. A law: it does nothing.
fn first_is_number(frames: &HeapCircularBuffer<QueuedFrame>)
    ensures { (first : QueuedFrame) → Some first ≡ slice_get frames.now.items 0 → first.gap < 2 ^ 64 }
{
    if let Some(first) = frames.front() {
        is_number(first.gap);
    }
}

/// A gap is a number of 64 bits. A law: it does nothing.
fn is_number(gap: u64)
    ensures { gap < 2 ^ 64 }
{
    let _ = gap;
}

/// Copies what fits of `from` to the front of `out`, and returns how much.
pub(crate) fn copy_front(from: &[u8], out: &mut [u8]) -> usize
    ensures count { result ≡ min (length from.now) (length out.old) }
    ensures bytes { out.new ≡ take result from.now ++ drop result out.old }
{
    let count = from.len().min(out.len());
    out[..count].copy_from_slice(&from[..count]);
    count
}

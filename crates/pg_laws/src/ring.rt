//! What a caller of the output queue can conclude from its public clauses alone.

ghost use Rattle.std.specs.Prelude.{◌≡◌, ◌<◌, ◌≤◌, ◌∷◌, [], IfOk, IfErr, vec_len};

use pg_ring::{OutQueue, RingBytes, RingSize};
use pg_wire::Refusal;
use std::alloc::Global;

/// Pushes three data frames into a new ring of one frame, each no longer than the ring bytes. The third stands alone, and
/// its gap counts the two that were dropped before it. The one refusal is `NoMemory`.
pub fn three_into_one(
    alloc: Global,
    first: Vec<u8>,
    second: Vec<u8>,
    third: Vec<u8>,
) -> Result<OutQueue, Refusal>
    requires first { (0 < vec_len first) × (vec_len first ≤ 16777216) }
    requires second { (0 < vec_len second) × (vec_len second ≤ 16777216) }
    requires third { (0 < vec_len third) × (vec_len third ≤ 16777216) }
    ensures frames { IfOk result (λ queue. queue.frames ≡ record { bytes = third.items; gap = 2 } ∷ []) }
    ensures pending { IfOk result (λ queue. queue.pending ≡ 0) }
    ensures memory { IfErr result (λ refusal. refusal ≡ Refusal.NoMemory) }
{
    let size = RingSize::new(1).unwrap();
    let bytes = RingBytes::new(16_777_216).unwrap();
    let mut queue = OutQueue::new(alloc, size, bytes)?;
    let _ = queue.push_data(first);
    let _ = queue.push_data(second);
    let _ = queue.push_data(third);
    Ok(queue)
}

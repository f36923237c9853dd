//! The memory of data frames that are done with.

ghost use Rattle.std.specs.Prelude.{◌≡◌, IfErr};

use circular_buffer::HeapCircularBuffer;
use pg_data::DataFrame;
use pg_wire::Refusal;
use std::alloc::Global;
use std::sync::Arc;

/// The most frames that are kept: a stream that waits for others holds as many of one source as its window has slots.
const MOST_SPARES: usize = 64;

/// Data frames of a source whose events were given. The memory of one that nobody else holds any more is used for a later one.
#[derive(Drop)]
pub(crate) struct Spares {
    last: Option<Arc<DataFrame>>,
    // The oldest first.
    earlier: HeapCircularBuffer<Arc<DataFrame>>,
}

impl Spares {
    /// None, with their places reserved. The one refusal is `NoMemory`.
    pub(crate) fn new(alloc: Global) -> Result<Spares, Refusal>
        ensures memory { IfErr result (λ refusal. refusal ≡ Refusal.NoMemory) }
    {
        Ok(Spares {
            last: None,
            earlier: HeapCircularBuffer::with_capacity(alloc, MOST_SPARES)?,
        })
    }

    /// The last one, or else the oldest, unless somebody else holds that too.
    #[inline(always)]
    pub(crate) fn take(&mut self) -> Option<Arc<DataFrame>> {
        let last = self.last.take()?;
        if is_free(&last) {
            return Some(last);
        }
        self.take_oldest(last)
    }

    /// The oldest one, unless somebody else holds it. The last one is kept with the earlier ones; where there is no place for it the oldest
    /// gives way.
    #[inline(never)]
    fn take_oldest(&mut self, last: Arc<DataFrame>) -> Option<Arc<DataFrame>> {
        let oldest = match self.earlier.front() {
            Some(oldest) if is_free(oldest) => self.earlier.pop_front(),
            _ => None,
        };
        let _gone = self.earlier.push_back(last);
        oldest
    }

    /// Keeps one more.
    #[inline(always)]
    pub(crate) fn keep(&mut self, frame: Arc<DataFrame>) {
        self.last = Some(frame);
    }
}

/// Whether nobody else holds a frame.
#[inline(always)]
fn is_free(frame: &Arc<DataFrame>) -> bool {
    Arc::strong_count(frame) == 1
}

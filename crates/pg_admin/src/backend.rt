//! The answers of the admin worker.

use pg_status::{Answer, Histogram, Snapshot};
use std::alloc::AllocError;

/// Answers lines, and says what the service shows of itself.
pub trait AdminBackend: Answer {
    /// What the service shows of itself now.
    ///
    /// # Errors
    ///
    /// There is no memory.
    fn snapshot(&mut self) -> Result<Snapshot, AllocError>;

    /// How old the data frames were that were handed out, from the start on, as far as the last `snapshot` was given.
    fn ages(&mut self) -> Histogram;
}

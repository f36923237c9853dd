//! How many edits and announcements may have changed the layouts of streams.

use std::sync::atomic::{AtomicUsize, Ordering};

/// Counts of the edits and announcements that may change the layouts of streams: how many were begun, and how many of them are
/// done. Each is counted as begun before it is posted, and as done behind that. So what was found out about a stream's layout while all were
/// done holds until another one is begun.
#[derive(Drop)]
pub struct LayoutChanges {
    begun: AtomicUsize,
    done: AtomicUsize,
}

impl LayoutChanges {
    /// None was begun.
    pub fn new() -> LayoutChanges {
        LayoutChanges {
            begun: AtomicUsize::new(0),
            done: AtomicUsize::new(0),
        }
    }

    /// One is about to be posted.
    #[inline(always)]
    pub fn begin(&self) {
        self.begun.fetch_add(1, Ordering::SeqCst);
    }

    /// One was posted and answered.
    #[inline(always)]
    pub fn end(&self) {
        self.done.fetch_add(1, Ordering::SeqCst);
    }

    /// Whether no more were begun than these, so that what was found out behind them holds.
    pub fn holds(&self, settled: Option<usize>) -> bool {
        settled == Some(self.begun())
    }

    /// How many were begun.
    pub fn begun(&self) -> usize {
        self.begun.load(Ordering::SeqCst)
    }

    /// How many were begun, where all of these are done. What is found out behind this call holds as long as `begun` gives the same number:
    /// where one was begun meanwhile, it gives another one already.
    pub fn settled(&self) -> Option<usize> {
        let begun = self.begun();
        if self.done.load(Ordering::SeqCst) == begun {
            Some(begun)
        } else {
            None
        }
    }
}

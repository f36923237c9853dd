//! What the page and the metrics show.

use crate::backend::AdminBackend;
use pg_status::{Contents, Frames, Histogram, History, Shown, Snapshot, Total, contents_of};
use std::alloc::{AllocError, Global};
use std::time::{Duration, Instant};

/// How often it is looked, in milliseconds.
const LOOK_MS: u64 = 1_000;

/// What was seen of the service last. It is looked once a second, however many ask, so that those that ask make no work
/// for those that serve.
#[derive(Drop)]
pub(crate) struct SnapshotCache {
    alloc: Global,
    snapshot: Snapshot,
    history: History,
    ages: Histogram,
    due: Instant,
    // Whether there was no memory for the last look.
    is_stale: bool,
}

impl SnapshotCache {
    /// Nothing was seen, and it is to be looked now.
    pub(crate) fn new(alloc: Global, now: Instant) -> SnapshotCache {
        SnapshotCache {
            alloc,
            snapshot: Snapshot {
                name: String::new(alloc),
                sources: Vec::new(alloc),
                subscribers: Vec::new(alloc),
                streams: Vec::new(alloc),
                unanswered: 0,
                recording: None,
            },
            history: History::new(alloc),
            ages: Histogram::new(),
            due: now,
            is_stale: false,
        }
    }

    /// How long until it is to be looked again.
    pub(crate) fn left(&self, now: Instant) -> Duration {
        self.due.saturating_duration_since(now)
    }

    /// Looks, where that is due.
    ///
    /// # Errors
    ///
    /// There is no memory: what was seen before stays.
    pub(crate) fn look<C: AdminBackend>(
        &mut self,
        backend: &mut C,
        now: Instant,
    ) -> Result<(), AllocError> {
        if self.due > now {
            return Ok(());
        }
        if let Some(next) = now.checked_add(Duration::from_millis(LOOK_MS)) {
            self.due = next;
        }
        self.is_stale = true;
        let snapshot = backend.snapshot()?;
        let mut totals = Vec::new(self.alloc);
        for it in snapshot.subscribers.iter() {
            totals.push(Total {
                sub: it.sub,
                frames: Frames {
                    handed: it.frames,
                    dropped: it.dropped,
                },
            })?;
        }
        self.snapshot = snapshot;
        self.ages = backend.ages();
        self.is_stale = false;
        self.history.note(&totals)
    }

    /// What is answered where this is asked for.
    ///
    /// # Errors
    ///
    /// There is no memory, or there was none for the last look, so that it is not known whether the gateway does its work.
    pub(crate) fn contents(&self, shown: Shown) -> Result<Contents, AllocError> {
        if self.is_stale && is_health(shown) {
            return Err(AllocError);
        }
        contents_of(self.alloc, shown, &self.snapshot, &self.history, &self.ages)
    }
}

/// Whether it is asked whether the gateway does its work.
fn is_health(shown: Shown) -> bool {
    match shown {
        Shown::Health { .. } => true,
        _ => false,
    }
}

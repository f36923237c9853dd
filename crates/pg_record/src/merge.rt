//! The records of several workers, put into the order of their places. A place that no worker recorded is a gap.

ghost use Rattle.std.specs.Prelude.{◌≡◌, ◌<◌, ℕ, suc, IfOk, IfErr};
ghost use Rattle.pg_record.specs.Merging.{Steps};

use crate::block::BlockHead;
use crate::elapsed::Elapsed;
use crate::record::{Record, read_record};
use std::alloc::{AllocError, Global};
use std::collections::BTreeMap;
use std::marker::Model;

/// How many milliseconds the blocks go on behind a record before a lower place that is missing is a gap.
const LATEST: u64 = 10_000;

/// A record with the time of its call.
#[derive(Drop)]
pub struct Timed {
    /// The record.
    pub record: Record,
    /// When it was posted: milliseconds since 1970-01-01 00:00 UTC.
    pub at: u64,
    /// Its body.
    pub body: Vec<u8>,
}

/// What comes next in the order of places.
#[derive(Drop)]
pub enum Merged {
    /// The record of the next place.
    Record(Timed),
    /// The places from the first one on, up to the second one and without it, have no record.
    Gap(u64, u64),
    /// It may still come.
    More,
}

/// A record that waits for those of lower places.
#[derive(Drop)]
struct Waiting {
    timed: Timed,
    // For how many milliseconds the blocks had gone on when it came.
    since: u64,
}

/// Records that wait for those of lower places.
#[derive(Drop)]
pub struct Merge {
    alloc: Global,
    waiting: BTreeMap<u64, Waiting>,
    next: u64,
    // How long the blocks have gone on.
    elapsed: Elapsed,
    repeated: u64,
}

impl Model for Merge {
    ghost use Rattle.std.specs.Prelude.{ℕ};

    ghost Value = { ℕ };

    ghost view = { λ m. m.next };
}

impl Merge {
    /// One that waits for the record of this place, and for those behind it.
    pub fn new(alloc: Global, next: u64) -> Merge
        ensures { result ≡ next }
    {
        Merge {
            alloc,
            waiting: BTreeMap::new(alloc),
            next,
            elapsed: Elapsed::new(),
            repeated: 0,
        }
    }

    /// The place that comes next.
    pub fn place(&self) -> u64
        ensures { result ≡ self.now }
    {
        self.next
    }

    /// How many records were of a place that had come before.
    pub fn repeated(&self) -> u64 {
        self.repeated
    }

    /// Adds the records of a block, and returns how many of its bytes are none: 0 in a block of a worker.
    ///
    /// # Errors
    ///
    /// There is no memory.
    pub fn add(&mut self, head: &BlockHead, records: &[u8]) -> Result<usize, AllocError>
        ensures { self.new ≡ self.old }
    {
        self.elapsed.go_on(head.start);
        let mut rest = records;
        'records: for _ in 0..records.len() {
            let Some((record, body, behind)) = read_record(rest) else {
                break;
            };
            self.wait(head.start, record, body)?;
            rest = behind;
        }
        Ok(rest.len())
    }

    /// Keeps a record until its place comes.
    fn wait(&mut self, start: u64, record: Record, body: &[u8]) -> Result<(), AllocError>
        ensures { self.new ≡ self.old }
    {
        if record.place < self.next || self.waiting.contains_key(&record.place) {
            self.repeated = self.repeated.saturating_add(1);
            return Ok(());
        }
        let mut kept = Vec::with_capacity(self.alloc, body.len())?;
        kept.extend_from_slice(body)?;
        let timed = Timed {
            record,
            at: start.saturating_add(u64::from(record.at)),
            body: kept,
        };
        let waiting = Waiting {
            timed,
            since: self.elapsed.passed,
        };
        match self.waiting.insert(record.place, waiting) {
            Ok(_) => Ok(()),
            Err(_) => Err(AllocError),
        }
    }

    /// The record of the next place, or the gap before the next record, where that can't come any more: since no more blocks are to come,
    /// or since the blocks have gone on for more than 10 s behind that record. Where this machine's clock was set, no time passes.
    pub fn next(&mut self, is_ended: bool) -> Merged
        ensures { Steps self.old result self.new }
    {
        let Some((place, since)) = self.first() else {
            return Merged::More;
        };
        if place == self.next {
            let Some((_, Waiting { mut timed, .. })) = self.waiting.pop_first() else {
                return Merged::More;
            };
            // It waited under its place.
            timed.record.place = place;
            self.next = self.next.saturating_add(1);
            return Merged::Record(timed);
        }
        if place > self.next && (is_ended || self.elapsed.passed > since.saturating_add(LATEST)) {
            let from = self.next;
            self.next = place;
            return Merged::Gap(from, place);
        }
        Merged::More
    }

    /// The lowest place of a record that waits, and for how long the blocks had gone on when it came.
    fn first(&self) -> Option<(u64, u64)> {
        let (place, waiting) = self.waiting.first_key_value()?;
        Some((*place, waiting.since))
    }
}

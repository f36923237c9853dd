//! The files of a recording: segments, each begun at a time, of which the oldest are removed.

use crate::prelude::Prelude;
use crate::writer::ms_of;
use jiff_core::Timestamp;
use jiff_fmt::temporal::DateTimePrinter;
use pg_record::{BlockHead, PRELUDE, block_head, sum};
use std::alloc::{AllocError, Global};
use std::collections::VecDeque;
use std::fs::{File, Metadata, OpenOptions};
use std::io::{ErrorKind, Write};
use std::os::unix::fs::OpenOptionsExt;
use std::{fs, io};

/// How the name of a segment ends.
const ENDING: &str = ".pdcrec";

/// How many segments the room for recordings has at least.
const PARTS: u64 = 16;

/// The most bytes of a segment.
const MOST: u64 = 256_000_000;

/// For how many milliseconds a segment is written at most.
const SPAN_MS: u64 = 3_600_000;

/// How many segments are removed for their age where one is begun: so not all go at once where this machine's clock is set far ahead.
const AGED: u32 = 2;

/// How long nothing is written after an error, in milliseconds.
const RETRY_MS: u64 = 10_000;

/// What was set up before a segment, and how many calls were missed until then.
#[derive(Drop)]
pub(crate) struct Before<'a> {
    pub(crate) prelude: &'a mut Prelude,
    pub(crate) missed: u64,
}

/// What was written.
#[derive(Clone, Copy)]
pub(crate) struct Written {
    /// How many bytes.
    pub(crate) size: u64,
    /// Whether a segment was begun without what had been set up before it.
    pub(crate) lacks_setup: bool,
}

/// A segment that is not written any more, or is the one that is written.
#[derive(Drop)]
struct Kept {
    name: String,
    size: u64,
    // When it was written last: milliseconds since 1970-01-01 00:00 UTC; 0 where it is not known.
    until: u64,
}

/// The segments in a folder. The newest one is written.
#[derive(Drop)]
pub struct Segments<'a> {
    files: &'a HostRuntime,
    alloc: Global,
    folder: String,
    // How many bytes are kept, and for how many milliseconds.
    room: u64,
    span: u64,
    kept: VecDeque<Kept>,
    open: Option<File>,
    // When the open segment was begun, and how many bytes it has.
    begun: u64,
    size: u64,
    // When nothing could be written last.
    failed: Option<u64>,
}

impl<'a> Segments<'a> {
    /// The segments in this folder, of which so many bytes are kept, for so many milliseconds. Those that are there already are kept by the
    /// same rule.
    ///
    /// # Errors
    ///
    /// That of the system, where the folder can't be read, and `OutOfMemory`.
    pub fn new(
        files: &'a HostRuntime,
        alloc: Global,
        folder: &str,
        room: u64,
        span: u64,
    ) -> io::Result<Segments<'a>> {
        let mut segments = Segments {
            files,
            alloc,
            folder: String::from_str(alloc, folder)?,
            room,
            span,
            kept: VecDeque::new(alloc),
            open: None,
            begun: 0,
            size: 0,
            failed: None,
        };
        segments.find()?;
        Ok(segments)
    }

    /// Finds the segments that are there already, in the order of their names.
    fn find(&mut self) -> io::Result<()> {
        let mut found = Vec::new(self.alloc);
        for entry in fs::read_dir(self.files, self.folder.as_str())? {
            let entry = entry?;
            let name = entry.file_name();
            if !name.ends_with(ENDING) {
                continue;
            }
            let metadata = entry.metadata()?;
            found.push(Kept {
                name: String::from_str(self.alloc, name)?,
                size: metadata.len(),
                until: modified_ms(&metadata),
            })?;
        }
        found.sort_by(|one, other| one.name.as_str().cmp(other.name.as_str()))?;
        for kept in found {
            self.kept.push_back(kept)?;
        }
        Ok(())
    }

    /// Writes a block with these records, which were begun at `start`; `now` is this machine's time. Where it can't be written it is left out, and
    /// so are all blocks of the next ten seconds; then a segment is begun. A segment begins with what was set up before this block, where that
    /// takes at most half of it.
    ///
    /// # Errors
    ///
    /// That of the system, and `OutOfMemory`.
    pub(crate) fn write(
        &mut self,
        worker: u16,
        start: u64,
        records: &[u8],
        now: u64,
        before: Before<'_>,
    ) -> io::Result<Written> {
        if let Some(failed) = self.failed {
            if failed <= now && now < failed.saturating_add(RETRY_MS) {
                return Ok(Written {
                    size: 0,
                    lacks_setup: false,
                });
            }
            self.failed = None;
        }
        let written = self.write_due(worker, start, records, now, before);
        if written.is_err() {
            self.open = None;
            self.failed = Some(now);
        }
        written
    }

    /// Writes a block, behind a prelude where a segment begins with it.
    fn write_due(
        &mut self,
        worker: u16,
        start: u64,
        records: &[u8],
        now: u64,
        before: Before<'_>,
    ) -> io::Result<Written> {
        let Before { prelude, missed } = before;
        let (mut size, mut lacks_setup) = (0_u64, false);
        if self.begin_if_due(now)? {
            let mut setup = Vec::new(self.alloc);
            let is_whole = prelude.write_to(now, missed, &mut setup)?;
            lacks_setup = !is_whole || setup.len() as u64 > self.part() / 2;
            if !lacks_setup {
                size = self.write_block(PRELUDE, now, &setup, now)?;
            }
        }
        size = size.saturating_add(self.write_block(worker, start, records, now)?);
        Ok(Written { size, lacks_setup })
    }

    /// Writes a block to the open segment.
    fn write_block(
        &mut self,
        worker: u16,
        start: u64,
        records: &[u8],
        now: u64,
    ) -> io::Result<u64> {
        let Ok(size) = u32::try_from(records.len()) else {
            return Err(io::Error::from(ErrorKind::InvalidInput));
        };
        let head = block_head(&BlockHead {
            worker,
            size,
            start,
            sum: sum(records),
        });
        if let Some(file) = &mut self.open {
            file.write_all(&head)?;
            file.write_all(records)?;
        }
        let size = (head.len() as u64).saturating_add(records.len() as u64);
        self.size = self.size.saturating_add(size);
        if let Some(kept) = self.kept.back_mut() {
            kept.size = self.size;
            kept.until = now;
        }
        Ok(size)
    }

    /// How many bytes a segment has before the next one is begun.
    fn part(&self) -> u64 {
        (self.room / PARTS).min(MOST)
    }

    /// Begins a segment where none is open, or the open one is large or old, and says whether it did. Before that the oldest ones are removed.
    fn begin_if_due(&mut self, now: u64) -> io::Result<bool> {
        let is_large = self.size >= self.part();
        let is_old = now.saturating_sub(self.begun) >= SPAN_MS.min(self.span / PARTS);
        if self.open.is_some() && !is_large && !is_old {
            return Ok(false);
        }
        self.open = None;
        self.remove_oldest(now);
        let name = name_at(self.alloc, now)?;
        let path = self.path_of(name.as_str())?;
        let mut options = OpenOptions::new();
        options.write(true).create_new(true).mode(0o600);
        self.open = Some(options.open(self.files, path.as_str())?);
        self.begun = now;
        self.size = 0;
        self.kept.push_back(Kept {
            name,
            size: 0,
            until: now,
        })?;
        Ok(true)
    }

    /// Removes the oldest segments while there are more bytes than are kept, and two at most that are older than they are kept. A segment that
    /// can't be removed is not looked at any more.
    fn remove_oldest(&mut self, now: u64) {
        let part = self.part();
        let mut left = AGED;
        for _ in 0..self.kept.len() {
            let mut size: u64 = 0;
            for kept in &self.kept {
                size = size.saturating_add(kept.size);
            }
            let Some(oldest) = self.kept.front() else {
                return;
            };
            if size.saturating_add(part) <= self.room {
                let is_old = now.saturating_sub(oldest.until) >= self.span;
                if !is_old || left == 0 {
                    return;
                }
                left -= 1;
            }
            if let Ok(path) = self.path_of(oldest.name.as_str()) {
                let _ = fs::remove_file(self.files, path.as_str());
            }
            self.kept.pop_front();
        }
    }

    /// The path of a segment.
    fn path_of(&self, name: &str) -> Result<String, AllocError> {
        let mut path = String::from_str(self.alloc, self.folder.as_str())?;
        path.push('/')?;
        path.push_str(name)?;
        Ok(path)
    }
}

/// When a file was written last: milliseconds since 1970-01-01 00:00 UTC; 0 where it is not known.
fn modified_ms(metadata: &Metadata) -> u64 {
    match metadata.modified() {
        Ok(time) => ms_of(time).unwrap_or(0),
        Err(_) => 0,
    }
}

/// The name of a segment that is begun at this time: milliseconds since 1970-01-01 00:00 UTC. Names in order are times in order.
fn name_at(alloc: Global, now: u64) -> Result<String, AllocError> {
    let mut name = String::new(alloc);
    let nanos = i128::from(now).saturating_mul(1_000_000);
    if let Ok(time) = Timestamp::from_nanosecond(nanos) {
        let text = DateTimePrinter::new()
            .precision(Some(3))
            .timestamp_text(time);
        for letter in text.as_str().chars() {
            if letter != ':' && letter != '-' {
                name.push(letter)?;
            }
        }
    }
    name.push_str(ENDING)?;
    Ok(name)
}

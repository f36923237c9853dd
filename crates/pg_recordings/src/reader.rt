//! The records of files, in the order of their places.

use pg_record::{
    BLOCK_HEAD, BlockHead, Merge, Merged, PRELUDE, RecordKind, Timed, read_block_head, read_record,
    sum,
};
use std::alloc::{AllocError, AllocFailed, Global};
use std::cmp::Ordering;
use std::fs::{File, OpenOptions};
use std::io::{BufReader, ErrorKind, Read};
use std::{fs, io};
use thiserror::Error;

/// Why files can't be read.
#[derive(Debug, Drop, Error)]
pub enum Fault {
    /// There was no memory.
    #[error("there is no memory")]
    NoMemory,
    /// A file can't be read.
    #[error("a file can't be read")]
    NotRead(usize, ErrorKind),
    /// Standard output can't be written.
    #[error("the output can't be written")]
    NotWritten,
    /// The file of packets can't be written.
    #[error("the file of packets can't be written")]
    NotCaptured,
}

impl From<AllocError> for Fault {
    fn from(_: AllocError) -> Fault {
        Fault::NoMemory
    }
}

impl<T: Drop> From<AllocFailed<T>> for Fault {
    fn from(_: AllocFailed<T>) -> Fault {
        Fault::NoMemory
    }
}

/// What is not as it was written in a file.
#[derive(Clone, Copy, PartialEq, Eq)]
pub enum Notice {
    /// The file ends within a block, of which so many bytes are there.
    Torn(u64),
    /// The sum of a block at this byte is not that of its records; its records are left out.
    Changed(u64),
    /// At this byte of the file no block begins; what follows in the file is left out.
    Other(u64),
}

/// Where a recording begins.
#[derive(Clone, Copy, PartialEq, Eq)]
pub struct Start {
    /// Its first place. The records before that set a replay up as the service was then.
    pub place: u64,
    /// When its first file was begun: milliseconds since 1970-01-01 00:00 UTC.
    pub at: u64,
    /// How many calls before its first place are not among those records and may have set something up.
    pub lacking: u64,
}

/// What comes next.
#[derive(Drop)]
pub enum Step {
    /// A recording begins: that of another start of the service, where one came before.
    Start(Start),
    /// The record of the next place.
    Record(Timed),
    /// The places from the first one on, up to the second one and without it, have no record.
    Gap(u64, u64),
    /// Something is not as it was written in the file with this number.
    Notice(usize, Notice),
    /// All files are read.
    End,
}

/// What is read of a file next.
#[derive(Drop)]
enum Piece {
    Block(BlockHead, Vec<u8>),
    Notice(Notice),
    End,
}

/// A file that is read.
#[derive(Drop)]
struct Open {
    file: BufReader<File>,
    // How many bytes were read.
    at: u64,
}

/// What a recording begins with.
#[derive(Drop)]
struct Prelude {
    start: Start,
    // When the first file of the recording was begun, by which it is known.
    recording: u64,
    head: BlockHead,
    records: Vec<u8>,
}

/// Reads recordings, one file after another.
#[derive(Drop)]
pub struct RecordReader<'a> {
    files: &'a HostRuntime,
    alloc: Global,
    paths: Vec<String>,
    next: usize,
    open: Option<Open>,
    merge: Merge,
    // The recording that is read, and its first place; and the next one, of which a file was opened.
    recording: Option<u64>,
    first: u64,
    following: Option<Prelude>,
}

impl<'a> RecordReader<'a> {
    /// A reader of these files. Those of one recording are read in the order of their places, since by their names they are not in order where this
    /// machine's clock was set back between them; recordings are read in the order in which the files come.
    ///
    /// # Errors
    ///
    /// There is no memory.
    pub fn new(
        files: &'a HostRuntime,
        alloc: Global,
        paths: Vec<String>,
    ) -> Result<RecordReader<'a>, AllocError> {
        Ok(RecordReader {
            files,
            alloc,
            paths: in_order(files, alloc, paths)?,
            next: 0,
            open: None,
            merge: Merge::new(alloc, 0),
            recording: None,
            first: 0,
            following: None,
        })
    }

    /// The files, in the order in which they are read.
    pub fn paths(&self) -> &[String] {
        &self.paths
    }

    /// How many records were of a place that had come before.
    pub fn repeated(&self) -> u64 {
        self.merge.repeated()
    }

    /// What comes next. Of the places before the first one of a recording only records come, and of them those that set a replay up.
    ///
    /// # Errors
    ///
    /// There is no memory, or a file can't be read.
    pub fn next(&mut self) -> Result<Step, Fault> {
        for _ in 0..u64::MAX {
            let is_ended = self.open.is_none() && self.next >= self.paths.len();
            match self.merge.next(is_ended || self.following.is_some()) {
                Merged::Record(timed) if self.sets_up_or_counts(&timed) => {
                    return Ok(Step::Record(timed));
                }
                Merged::Gap(from, to) if to > self.first => {
                    return Ok(Step::Gap(from.max(self.first), to));
                }
                Merged::Record(_) | Merged::Gap(..) => continue,
                Merged::More => {}
            }
            if let Some(prelude) = self.following.take() {
                return self.begin(&prelude);
            }
            if is_ended {
                return Ok(Step::End);
            }
            if let Some(notice) = self.read()? {
                let file = self.next.saturating_sub(1);
                return Ok(Step::Notice(file, notice));
            }
        }
        Ok(Step::End)
    }

    /// Whether a record is one of the recording, or one before it that sets a replay up.
    fn sets_up_or_counts(&self, timed: &Timed) -> bool {
        timed.record.place >= self.first
            || !matches!(
                timed.record.kind,
                RecordKind::Measurement | RecordKind::Drain | RecordKind::Question
            )
    }

    /// Begins a recording.
    fn begin(&mut self, prelude: &Prelude) -> Result<Step, Fault> {
        self.merge = Merge::new(self.alloc, 0);
        self.recording = Some(prelude.recording);
        self.first = prelude.start.place;
        self.merge.add(&prelude.head, &prelude.records)?;
        Ok(Step::Start(prelude.start))
    }

    /// Reads a block, or opens the next file.
    fn read(&mut self) -> Result<Option<Notice>, Fault> {
        let Some(open) = &mut self.open else {
            self.open_next()?;
            return Ok(None);
        };
        let at = self.next.saturating_sub(1);
        match open.piece(self.alloc) {
            Ok(Piece::Block(head, records)) if head.worker == PRELUDE => {
                let prelude = prelude_of(head, records);
                if self.recording != Some(prelude.recording) {
                    self.following = Some(prelude);
                }
                Ok(None)
            }
            Ok(Piece::Block(head, records)) => {
                self.merge.add(&head, &records)?;
                Ok(None)
            }
            Ok(Piece::Notice(notice)) => {
                if !matches!(notice, Notice::Changed(_)) {
                    self.open = None;
                }
                Ok(Some(notice))
            }
            Ok(Piece::End) => {
                self.open = None;
                Ok(None)
            }
            Err(error) => Err(fault_of(at, error)),
        }
    }

    /// Opens the next file.
    fn open_next(&mut self) -> Result<(), Fault> {
        let Some(path) = self.paths.get(self.next) else {
            return Ok(());
        };
        let at = self.next;
        self.next = at + 1;
        match Open::new(self.files, self.alloc, path.as_str()) {
            Ok(open) => {
                self.open = Some(open);
                Ok(())
            }
            Err(error) => Err(fault_of(at, error)),
        }
    }
}

impl Open {
    /// The file at this path, from its first byte on.
    fn new(files: &HostRuntime, alloc: Global, path: &str) -> io::Result<Open> {
        let mut options = OpenOptions::new();
        options.read(true);
        let file = options.open(files, path)?;
        Ok(Open {
            file: BufReader::new(alloc, file)?,
            at: 0,
        })
    }

    /// The next block.
    fn piece(&mut self, alloc: Global) -> io::Result<Piece> {
        let start = self.at;
        let mut head = [0; BLOCK_HEAD];
        let size = self.fill(&mut head)?;
        if size == 0 {
            return Ok(Piece::End);
        }
        if size < BLOCK_HEAD {
            return Ok(Piece::Notice(Notice::Torn(size as u64)));
        }
        let Some((head, _)) = read_block_head(&head) else {
            return Ok(Piece::Notice(Notice::Other(start)));
        };
        let mut records = vec![in alloc; 0; head.size as usize]?;
        let size = self.fill(&mut records)?;
        if size < records.len() {
            return Ok(Piece::Notice(Notice::Torn((BLOCK_HEAD + size) as u64)));
        }
        if sum(&records) != head.sum {
            return Ok(Piece::Notice(Notice::Changed(start)));
        }
        Ok(Piece::Block(head, records))
    }

    /// Reads as many bytes as there is room for, or as there are.
    fn fill(&mut self, room: &mut [u8]) -> io::Result<usize> {
        let mut filled = 0;
        for _ in 0..room.len() {
            let Some(rest) = room.get_mut(filled..) else {
                break;
            };
            let size = self.file.read(rest)?;
            if size == 0 {
                break;
            }
            filled += size;
        }
        self.at = self.at.saturating_add(filled as u64);
        Ok(filled)
    }
}

/// A file that is to be read.
#[derive(Drop)]
struct Listed {
    path: String,
    // The number of its recording, in the order in which the files come, and its first place.
    recording: usize,
    place: u64,
}

/// These files, those of one recording in the order of their places. One without its head stays behind the one before it.
fn in_order(
    files: &HostRuntime,
    alloc: Global,
    paths: Vec<String>,
) -> Result<Vec<String>, AllocError> {
    let mut recordings = Vec::new(alloc);
    let mut listed = Vec::with_capacity(alloc, paths.len())?;
    let (mut recording, mut place) = (0, 0);
    for path in paths {
        if let Some(prelude) = prelude_in(files, alloc, path.as_str()) {
            recording = number_of(&mut recordings, prelude.recording)?;
            place = prelude.start.place;
        }
        listed.push(Listed {
            path,
            recording,
            place,
        })?;
    }
    listed.sort_by(|one, other| match one.recording.cmp(&other.recording) {
        Ordering::Equal => one.place.cmp(&other.place),
        order => order,
    })?;
    let mut paths = Vec::with_capacity(alloc, listed.len())?;
    for file in listed {
        paths.push(file.path)?;
    }
    Ok(paths)
}

/// The number of a recording among these, to which it is added where it is none of them.
fn number_of(recordings: &mut Vec<u64>, recording: u64) -> Result<usize, AllocError> {
    match recordings.iter().position(|it| *it == recording) {
        Some(number) => Ok(number),
        None => {
            recordings.push(recording)?;
            Ok(recordings.len().saturating_sub(1))
        }
    }
}

/// What the file at this path begins with; `None` where that can't be read, which shows again where the file is read.
fn prelude_in(files: &HostRuntime, alloc: Global, path: &str) -> Option<Prelude> {
    // (A pipe gives its bytes once.)
    if !fs::metadata(files, path).ok()?.is_file() {
        return None;
    }
    let mut open = Open::new(files, alloc, path).ok()?;
    match open.piece(alloc) {
        Ok(Piece::Block(head, records)) if head.worker == PRELUDE => {
            Some(prelude_of(head, records))
        }
        _ => None,
    }
}

/// What a recording begins with, of the block at the head of a file: the last record is at the highest place, and its body says when the first file
/// was begun, and how many calls are lacking. The first file has an empty block.
fn prelude_of(head: BlockHead, records: Vec<u8>) -> Prelude {
    let (mut place, mut recording, mut lacking) = (0, head.start, 0);
    let mut rest = records.as_slice();
    for _ in 0..records.len() {
        let Some((record, body, behind)) = read_record(rest) else {
            break;
        };
        place = record.place.saturating_add(1);
        if let Some((begun, more)) = body.split_first_chunk::<8>() {
            recording = u64::from_be_bytes(*begun);
            lacking = match more.split_first_chunk::<8>() {
                Some((count, _)) => u64::from_be_bytes(*count),
                None => 0,
            };
        }
        rest = behind;
    }
    let start = Start {
        place,
        at: head.start,
        lacking,
    };
    Prelude {
        start,
        recording,
        head,
        records,
    }
}

/// Why the file with this number can't be read.
fn fault_of(at: usize, error: io::Error) -> Fault {
    match error.kind() {
        ErrorKind::OutOfMemory => Fault::NoMemory,
        kind => Fault::NotRead(at, kind),
    }
}

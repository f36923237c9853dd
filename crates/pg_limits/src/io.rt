//! Readers and writers that count what they move.
ghost use Rattle.std.specs.Prelude.{◌≡◌, ◌||◌, Some, [], true, false, length, IfErr, IsErr};
ghost use Rattle.std.specs.Io.{ReadsAtMost, WritesAtMost};
ghost use Rattle.std.specs.IoError.{error_kind};
ghost use Rattle.std.specs.Io.KnownBytes.{Keeps, ReadConsumes, WriteAppends};
ghost use Rattle.pg_limits.specs.Moved.{has_given, is_last, moved_by};

use std::io;
use std::io::{ErrorKind, Read, Write};

/// A reader or a writer, with a count of the bytes that it moved. The bytes are those of the one inside.
#[derive(Drop)]
pub struct CountingIo<T> {
    /// The reader or writer.
    pub inner: T,
    /// How many bytes were read from it or taken by it.
    pub moved: u64,
}

impl<T> CountingIo<T> {
    /// A reader or writer that moved nothing yet.
    pub fn new(inner: T) -> CountingIo<T>
        ensures inner { result.inner ≡ inner }
        ensures moved { result.moved ≡ 0 }
    {
        CountingIo { inner, moved: 0 }
    }
}

impl<R: Read> Read for CountingIo<R> {
    ghost remaining = { λ c. R.remaining c.inner };

    /// One read of the reader inside.
    fn read(&mut self, buf: &mut [u8]) -> io::Result<usize>
        ensures bound { ReadsAtMost result buf.new }
        ensures bytes { ReadConsumes (R.remaining self.old.inner) (R.remaining self.new.inner) result buf.new }
        ensures moved { self.new.moved ≡ moved_by result self.old.moved }
    {
        let size = self.inner.read(buf)?;
        self.moved = self.moved.saturating_add(size as u64);
        Ok(size)
    }
}

impl<W: Write> Write for CountingIo<W> {
    ghost contents = { λ c. W.contents c.inner };

    /// One write of the writer inside.
    fn write(&mut self, buf: &[u8]) -> io::Result<usize>
        ensures bound { WritesAtMost result buf.now }
        ensures bytes { WriteAppends (W.contents self.old.inner) (W.contents self.new.inner) result buf.now }
        ensures moved { self.new.moved ≡ moved_by result self.old.moved }
    {
        let size = self.inner.write(buf)?;
        self.moved = self.moved.saturating_add(size as u64);
        Ok(size)
    }

    /// The writer inside is flushed.
    fn flush(&mut self) -> io::Result<()>
        ensures bytes { Keeps (W.contents self.old.inner) (W.contents self.new.inner) }
        ensures moved { self.new.moved ≡ self.old.moved }
    {
        self.inner.flush()
    }
}

/// A reader that answers `WouldBlock` behind a read that filled less than it could, without a call of the system: that was all
/// that had come, and what comes later is reported by an event of its own. Where the peer sends no more it is read on, to its end. The
/// bytes are those of the one inside.
#[derive(Drop)]
pub struct StopAfterShortRead<R> {
    /// The reader.
    pub inner: R,
    /// Whether the peer sends no more.
    pub is_ending: bool,
    /// Whether a read filled less than it could, or failed, as where it would block: nothing more has come by now.
    pub has_stopped: bool,
    /// Whether a read gave bytes.
    pub has_read: bool,
}

impl<R> StopAfterShortRead<R> {
    /// A reader of which nothing was read yet, and whose peer sends no more if `is_ending` is set.
    pub fn new(inner: R, is_ending: bool) -> StopAfterShortRead<R>
        ensures inner { result.inner ≡ inner }
        ensures ending { result.is_ending ≡ is_ending }
        ensures stopped { result.has_stopped ≡ false }
        ensures read { result.has_read ≡ false }
    {
        StopAfterShortRead {
            inner,
            is_ending,
            has_stopped: false,
            has_read: false,
        }
    }
}

impl<R: Read> Read for StopAfterShortRead<R> {
    ghost remaining = { λ s. R.remaining s.inner };

    /// One read of the reader inside, unless it has stopped.
    fn read(&mut self, buf: &mut [u8]) -> io::Result<usize>
        ensures bound { ReadsAtMost result buf.new }
        ensures bytes { ReadConsumes (R.remaining self.old.inner) (R.remaining self.new.inner) result buf.new }
        ensures stopped { self.new.has_stopped ≡ is_last self.old.is_ending result (length buf.old) }
        ensures read { self.new.has_read ≡ (self.old.has_read || has_given result) }
        ensures ending { self.new.is_ending ≡ self.old.is_ending }
        ensures over { self.old.has_stopped ≡ true → self.new ≡ self.old }
        ensures blocks { self.old.has_stopped ≡ true → IsErr result × IfErr result (λ e. error_kind e ≡ ErrorKind.WouldBlock) }
    {
        if self.has_stopped {
            return Err(io::Error::from(ErrorKind::WouldBlock));
        }
        let read = self.inner.read(buf);
        match &read {
            Ok(size) => {
                self.has_stopped = *size < buf.len() && !self.is_ending;
                self.has_read = self.has_read || *size > 0;
            }
            Err(_) => self.has_stopped = true,
        }
        read
    }
}

/// A reader that has nothing to give now: each read answers `WouldBlock`, without a call of the system.
#[derive(Drop)]
pub struct AlwaysBlocked;

impl Read for AlwaysBlocked {
    ghost remaining = { λ _. Some [] };

    fn read(&mut self, _buf: &mut [u8]) -> io::Result<usize>
        ensures blocks { IsErr result × IfErr result (λ e. error_kind e ≡ ErrorKind.WouldBlock) }
        ensures buffer { _buf.new ≡ _buf.old }
    {
        Err(io::Error::from(ErrorKind::WouldBlock))
    }
}

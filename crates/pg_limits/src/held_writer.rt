//! A writer that holds back what may be misread.
ghost use Rattle.std.specs.Prelude.{◌≡◌, ◌-◌, ◌<◌, ◌≤◌, true, false, IfErr, IfOk, IsErr, MatchResult};
ghost use Rattle.std.specs.Io.{WritesAtMost};
ghost use Rattle.std.specs.IoError.{error_kind};
ghost use Rattle.std.specs.Io.KnownBytes.{Keeps, WriteAppends};

use crate::layout_changes::LayoutChanges;
use std::io;
use std::io::{ErrorKind, Write};

/// A writer between a session and its socket. It takes the bytes that were drained before its subscriber's streams were asked
/// about last. Of those behind it takes none once the answer is not valid any more: it answers `WouldBlock`, so that they stay with the
/// session until the streams were asked about again. So each drain waits for one question at most, however many changes there are.
#[derive(Drop)]
pub struct HeldWriter<'a, W> {
    /// The writer.
    pub inner: W,
    changes: &'a LayoutChanges,
    /// How many changes were done before the streams were asked about last; `None` where the answer is not valid any more.
    pub settled: Option<usize>,
    /// The bytes that were drained before the streams were asked about last, and that it has not taken yet.
    pub free: usize,
    /// Whether it held bytes back.
    pub is_holding: bool,
}

impl<'a, W> HeldWriter<'a, W> {
    /// A writer before this one. `settled` is how many changes were done before the streams were asked about, `None` where the answer is not
    /// valid any more; `free` is how many bytes were drained before that.
    pub fn new(
        inner: W,
        changes: &'a LayoutChanges,
        settled: Option<usize>,
        free: usize,
    ) -> HeldWriter<'a, W>
        ensures inner { result.inner ≡ inner }
        ensures settled { result.settled ≡ settled }
        ensures free { result.free ≡ free }
        ensures holding { result.is_holding ≡ false }
    {
        HeldWriter {
            inner,
            changes,
            settled,
            free,
            is_holding: false,
        }
    }
}

impl<W: Write> Write for HeldWriter<'_, W> {
    ghost contents = { λ s. W.contents s.inner };

    /// One write of the writer inside: of the bytes alone that were drained before the streams were asked about, where it has not taken all of
    /// them. Behind those `WouldBlock` is answered where the answer is not valid any more.
    fn write(&mut self, buf: &[u8]) -> io::Result<usize>
        ensures bound { WritesAtMost result buf.now }
        ensures bytes { WriteAppends (W.contents self.old.inner) (W.contents self.new.inner) result buf.now }
        ensures settled { self.new.settled ≡ self.old.settled }

        // Bytes that were drained before the streams were asked about go alone, and are counted down.
        ensures alone { 0 < self.old.free → IfOk result (λ n. n ≤ self.old.free) }
        ensures free { MatchResult result (λ n. self.new.free ≡ self.old.free - n) (λ _. self.new.free ≡ self.old.free) }

        // It begins to hold bytes back once those are gone. Then it takes none, and nothing else changes.
        ensures goes_on { self.old.is_holding ≡ true → self.new.is_holding ≡ true }
        ensures begins { self.old.is_holding ≡ false → self.new.is_holding ≡ true → self.old.free ≡ 0 × IsErr result }
        ensures blocks { self.old.is_holding ≡ false → self.new.is_holding ≡ true → IfErr result (λ e. error_kind e ≡ ErrorKind.WouldBlock) }
        ensures same { self.old.is_holding ≡ false → self.new.is_holding ≡ true → self.new ≡ record self.old { is_holding = true } }
    {
        if self.free > 0 {
            let most = self.free.min(buf.len());
            let size = self.inner.write(&buf[..most])?;
            self.free = self.free.saturating_sub(size);
            return Ok(size);
        }
        if !self.changes.holds(self.settled) {
            self.is_holding = true;
            return Err(io::Error::from(ErrorKind::WouldBlock));
        }
        self.inner.write(buf)
    }

    /// The writer inside is flushed.
    fn flush(&mut self) -> io::Result<()>
        ensures bytes { Keeps (W.contents self.old.inner) (W.contents self.new.inner) }
        ensures free { self.new.free ≡ self.old.free }
        ensures holding { self.new.is_holding ≡ self.old.is_holding }
    {
        self.inner.flush()
    }
}

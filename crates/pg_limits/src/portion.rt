//! Reads of a limited size.
ghost use Rattle.std.specs.Prelude.{◌≡◌, ◌≤◌, max, IfOk};
ghost use Rattle.std.specs.Io.{ReadsAtMost};
ghost use Rattle.std.specs.Io.KnownBytes.{ReadConsumes};

use std::io;
use std::io::Read;

/// A reader of which each read gives so many bytes at most, so that no more frames end in them than there is room for. It gives
/// just the bytes of the reader inside, none of which is lost.
#[derive(Drop)]
pub struct Portion<R> {
    /// Where the bytes come from.
    pub reader: R,
    /// How many bytes a read gives at most; one at least, whatever stands here.
    pub most: usize,
}

impl<R: Read> Portion<R> {
    /// A reader of which each read gives so many bytes at most, one at least.
    pub fn new(reader: R, most: usize) -> Portion<R>
        ensures reader { result.reader ≡ reader }
        ensures most { result.most ≡ most }
    {
        Portion { reader, most }
    }
}

impl<R: Read> Read for Portion<R> {
    ghost remaining = { λ p. R.remaining p.reader };

    /// One read of the reader inside, of so many bytes at most.
    fn read(&mut self, buf: &mut [u8]) -> io::Result<usize>
        ensures bound { ReadsAtMost result buf.new }
        ensures bytes { ReadConsumes (R.remaining self.old.reader) (R.remaining self.new.reader) result buf.new }
        ensures most { IfOk result (λ n. n ≤ max self.old.most 1) }
        ensures same { self.new.most ≡ self.old.most }
    {
        let most = self.most.max(1).min(buf.len());
        self.reader.read(&mut buf[..most])
    }
}

//! A limit of reads.
ghost use Rattle.std.specs.Prelude.{◌≡◌, ◌-◌, ◌↔◌, IsTrue, IfErr, IsErr};
ghost use Rattle.std.specs.Io.{ReadsAtMost};
ghost use Rattle.std.specs.IoError.{error_kind};
ghost use Rattle.std.specs.Io.KnownBytes.{ReadConsumes};

use std::io;
use std::io::{ErrorKind, Read};

/// A reader that answers `WouldBlock` once it has given so many reads, so that one peer that sends without end costs the others at most
/// one turn. It gives just the bytes of the reader inside, none of which is lost.
#[derive(Drop)]
pub struct Budget<R> {
    /// Where the bytes come from.
    pub reader: R,
    /// How many reads are left.
    pub left: u32,
}

impl<R: Read> Budget<R> {
    /// A reader of which so many reads may be made.
    pub fn new(reader: R, left: u32) -> Budget<R>
        ensures reader { result.reader ≡ reader }
        ensures left { result.left ≡ left }
    {
        Budget { reader, left }
    }

    /// Whether all reads were made, so that bytes may still wait.
    pub fn is_used_up(&self) -> bool
        ensures { IsTrue result ↔ (self.now.left ≡ 0) }
    {
        self.left == 0
    }
}

impl<R: Read> Read for Budget<R> {
    ghost remaining = { λ b. R.remaining b.reader };

    /// One read of the reader inside, and one less is left; `WouldBlock` where none is left, and then nothing changes.
    fn read(&mut self, buf: &mut [u8]) -> io::Result<usize>
        ensures bound { ReadsAtMost result buf.new }
        ensures bytes { ReadConsumes (R.remaining self.old.reader) (R.remaining self.new.reader) result buf.new }
        ensures left { self.new.left ≡ self.old.left - 1 }
        ensures over { self.old.left ≡ 0 → self.new ≡ self.old }
        ensures blocks { self.old.left ≡ 0 → IsErr result × IfErr result (λ e. error_kind e ≡ ErrorKind.WouldBlock) }
    {
        if self.left == 0 {
            return Err(io::Error::from(ErrorKind::WouldBlock));
        }
        self.left -= 1;
        self.reader.read(buf)
    }
}

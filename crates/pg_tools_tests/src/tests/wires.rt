//! A reader and a writer over memory, which block.

use std::alloc::Global;
use std::io;
use std::io::{ErrorKind, Read, Write};

/// A reader that gives these bytes, and then this error.
#[derive(Drop)]
pub struct Sends<'a> {
    pub left: &'a [u8],
    pub then: ErrorKind,
}

impl Read for Sends<'_> {
    fn read(&mut self, buf: &mut [u8]) -> io::Result<usize> {
        if self.left.is_empty() {
            return Err(io::Error::from(self.then));
        }
        self.left.read(buf)
    }
}

/// A writer that takes so many bytes at a write.
#[derive(Drop)]
pub struct Takes {
    pub taken: Vec<u8>,
    pub most: usize,
}

impl Takes {
    /// It takes all.
    pub fn all(alloc: Global) -> Takes {
        Takes {
            taken: Vec::new(alloc),
            most: usize::MAX,
        }
    }
}

impl Write for Takes {
    fn write(&mut self, buf: &[u8]) -> io::Result<usize> {
        let room = buf.len().min(self.most);
        self.taken.write(&buf[..room])
    }

    fn flush(&mut self) -> io::Result<()> {
        Ok(())
    }
}

//! What a drain handed out, of which a part may be written.

ghost use Rattle.std.specs.Prelude.{◌≤◌, vec_len};

use std::alloc::Global;

/// The buffer for drains, how many of its bytes a drain handed out, and how many of them were written.
#[derive(Drop)]
pub(crate) struct Pending {
    buffer: Vec<u8>,
    size: usize,
    sent: usize,
    ghost within: { sent ≤ size },
    ghost held: { size ≤ vec_len buffer },
}

impl Pending {
    ghost use Rattle.std.specs.Prelude.{◌≡◌, [], drop, take, length};
    ghost use Rattle.pg_session.specs.Pendings.{kept_of, left_of};

    /// Nothing of this buffer is left to write.
    pub(crate) fn none(buffer: Vec<u8>) -> Pending
        ensures kept { kept_of result ≡ vec_len buffer }
        ensures left { left_of result ≡ [] }
    {
        Pending {
            buffer,
            size: 0,
            sent: 0,
        }
    }

    /// So many bytes of this buffer, from the first on, are left.
    pub(crate) fn of(buffer: Vec<u8>, size: usize) -> Pending
        requires { size ≤ length buffer.items }
        ensures kept { kept_of result ≡ vec_len buffer }
        ensures left { left_of result ≡ take size buffer.items }
    {
        Pending {
            buffer,
            size,
            sent: 0,
        }
    }

    /// Gives out the buffer, and keeps an empty one.
    pub(crate) fn take(&mut self, alloc: Global) -> Vec<u8>
        ensures buffer { vec_len result ≡ kept_of self.old }
        ensures kept { kept_of self.new ≡ 0 }
        ensures left { left_of self.new ≡ [] }
    {
        self.sent = 0;
        self.size = 0;
        std::mem::replace(&mut self.buffer, Vec::new(alloc))
    }

    /// What is left to write.
    pub(crate) fn left(&self) -> &[u8]
        ensures { result.now ≡ left_of self.now }
    {
        &self.buffer[..self.size][self.sent..]
    }

    /// So many bytes of what is left were written.
    pub(crate) fn send(&mut self, size: usize)
        requires { size ≤ length (left_of self.old) }
        ensures kept { kept_of self.new ≡ kept_of self.old }
        ensures left { left_of self.new ≡ drop size (left_of self.old) }
    {
        self.sent += size;
    }
}

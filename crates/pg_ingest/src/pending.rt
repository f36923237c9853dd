//! A command of which a part may be written.

ghost use Rattle.std.specs.Prelude.{◌≤◌};

/// A command's frame, and how much of it was written.
#[derive(Clone, Copy)]
pub(crate) struct Pending {
    frame: [u8; 18],
    sent: usize,
    ghost within: { sent ≤ 18 },
}

impl Pending {
    ghost use Rattle.std.specs.Prelude.{◌≡◌, [], drop, length};
    ghost use Rattle.pg_ingest.specs.Pendings.{left_of};

    /// Nothing is left to write.
    pub(crate) fn none() -> Pending
        ensures { left_of result ≡ [] }
    {
        Pending {
            frame: [0; 18],
            sent: 18,
        }
    }

    /// All of this frame is left.
    pub(crate) fn of(frame: [u8; 18]) -> Pending
        ensures { left_of result ≡ frame }
    {
        Pending { frame, sent: 0 }
    }

    /// What is left to write.
    pub(crate) fn left(&self) -> &[u8]
        ensures { result.now ≡ left_of self.now }
    {
        &self.frame[self.sent..]
    }

    /// So many bytes of what is left were written.
    pub(crate) fn send(&mut self, size: usize)
        requires { size ≤ length (left_of self.old) }
        ensures { left_of self.new ≡ drop size (left_of self.old) }
    {
        self.sent += size;
    }
}

//! Bytes that are owed to a client.

use std::io::{ErrorKind, Write};

/// How sending ended.
#[derive(Clone, Copy, PartialEq, Eq)]
pub enum Sending {
    /// All was sent.
    Done,
    /// The socket takes no more now.
    Blocked,
    /// As many writes were made as may be at once.
    UsedUp,
    /// The socket takes no more at all.
    Failed,
}

/// Bytes that are owed to a client, of which some were sent.
#[derive(Drop)]
pub struct WriteBuffer {
    /// All of them.
    pub bytes: Vec<u8>,
    /// How many were sent.
    pub sent: usize,
}

impl WriteBuffer {
    /// How many are left.
    pub fn left(&self) -> usize {
        self.bytes.len().saturating_sub(self.sent)
    }

    /// Forgets what was sent.
    pub fn compact(&mut self) {
        let sent = self.sent.min(self.bytes.len());
        drop(self.bytes.drain(..sent));
        self.sent = 0;
    }

    /// Sends what goes by so many writes at most.
    pub fn send<W: Write>(&mut self, writer: &mut W, writes: u32) -> Sending {
        for _ in 0..writes {
            if self.left() == 0 {
                return Sending::Done;
            }
            let sending = self.send_once(writer);
            if sending != Sending::UsedUp {
                return sending;
            }
        }
        if self.left() == 0 {
            Sending::Done
        } else {
            Sending::UsedUp
        }
    }

    /// One write of what is left. `UsedUp` where more may go.
    fn send_once<W: Write>(&mut self, writer: &mut W) -> Sending {
        let Some(rest) = self.bytes.as_slice().get(self.sent..) else {
            return Sending::Done;
        };
        match writer.write(rest) {
            Ok(0) => Sending::Failed,
            Ok(size) => {
                self.sent = self.sent.saturating_add(size);
                Sending::UsedUp
            }
            Err(error) => match error.kind() {
                ErrorKind::WouldBlock => Sending::Blocked,
                ErrorKind::Interrupted => Sending::UsedUp,
                _ => Sending::Failed,
            },
        }
    }
}

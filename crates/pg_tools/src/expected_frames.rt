//! The data frames of one stream that its subscriber has to receive: those that were sent and have not come yet.

ghost use Rattle.std.specs.Prelude.{◌≡◌, ◌++◌, ◌∷◌, [], List, ◌↔◌, IsTrue, IfOk, IfErr};
ghost use Rattle.pg_tools.specs.Expecting.{Records, Step, Whole, IsFirst, content, content_of, sent, received};

use crate::watcher::Stamp;
use std::alloc::{AllocError, Global};
use thiserror::Error;

/// A data frame of a stream, as it has to come: its stamp, and the blocks of its members as their sources sent them.
#[derive(Drop)]
pub struct ExpectedFrame {
    /// When it was measured.
    pub stamp: Stamp,
    /// The blocks, in the order of the members.
    pub blocks: Vec<u8>,
}

/// What is wrong with a data frame that came.
#[derive(Clone, Copy, Debug, PartialEq, Eq, Error)]
pub enum WrongFrame {
    /// It is right, but this one, which was sent before it, has not come.
    #[error("the frame {0} did not come")]
    Missing(Stamp),
    /// Its blocks are not those that were sent.
    #[error("the frame {0} has other bytes than were sent")]
    Changed(Stamp),
    /// One of its blocks is a filler (STAT 0x8000), though the source sent that block.
    #[error("the frame {0} has a filler in place of a block that was sent")]
    Filler(Stamp),
    /// No frame of this stamp was sent, or it has come already.
    #[error("the frame {0} came twice, or was not sent")]
    Unsent(Stamp),
}

/// The data frames that a subscriber has to receive of one stream, and what is wrong with those that came.
#[derive(Drop)]
pub struct ExpectedFrames {
    /// The frames that were sent and have not come, in the order in which they were sent.
    pub waiting: Vec<ExpectedFrame>,
    /// What was wrong first.
    pub wrong: Option<WrongFrame>,
    /// How many frames were right.
    pub right: u64,
}

impl ExpectedFrames {
    /// Nothing was sent, and nothing came.
    pub fn new(alloc: Global) -> ExpectedFrames
        ensures { Records result [] }
    {
        ExpectedFrames {
            waiting: Vec::new(alloc),
            wrong: None,
            right: 0,
        }
    }

    /// A frame is sent for the stream. It has to come behind those that wait.
    ///
    /// # Errors
    ///
    /// `AllocError`; then nothing has changed.
    pub fn expect(&mut self, frame: ExpectedFrame) -> Result<(), AllocError>
        ensures waits { IfOk result (λ _. self.new.waiting.items ≡ self.old.waiting.items ++ frame ∷ []) }
        ensures unchanged { IfErr result (λ _. self.new.waiting.items ≡ self.old.waiting.items) }
        ensures wrong { self.new.wrong ≡ self.old.wrong }
        ensures history { IfOk result (λ _. (steps : List Step) → Records self.old steps → Records self.new (sent (content frame) ∷ steps)) }
    {
        self.waiting.push(frame)?;
        Ok(())
    }

    /// A frame came, with this stamp and these blocks. It is right where it is the first that waits, byte for byte. Else what
    /// is wrong is answered, and the first time kept.
    pub fn receive(&mut self, stamp: Stamp, blocks: &[u8]) -> Option<WrongFrame>
        ensures right { result ≡ None ↔ IsFirst self.old.waiting.items (content_of stamp blocks.now) }
        ensures history { (steps : List Step) → Records self.old steps → Records self.new (received (content_of stamp blocks.now) ∷ steps) }
    {
        if is_next(&self.waiting, stamp, blocks) {
            self.waiting.remove(0);
            self.right = self.right.saturating_add(1);
            return None;
        }
        let wrong = what_is_wrong(&self.waiting, stamp, blocks);
        self.wrong = Some(self.wrong.unwrap_or(wrong));
        Some(wrong)
    }

    /// Whether each frame that was sent has come, in order and byte for byte, and no other.
    pub fn is_whole(&self) -> bool
        ensures { (steps : List Step) → Records self.now steps → IsTrue result ↔ Whole steps }
    {
        self.wrong.is_none() && is_nothing(&self.waiting)
    }
}

/// Whether no frame waits.
fn is_nothing(waiting: &[ExpectedFrame]) -> bool
    ensures { IsTrue result ↔ waiting.now ≡ [] }
{
    waiting.first().is_none()
}

/// Whether the first that waits is just this.
fn is_next(waiting: &[ExpectedFrame], stamp: Stamp, blocks: &[u8]) -> bool
    ensures { IsTrue result ↔ IsFirst waiting.now (content_of stamp blocks.now) }
{
    match waiting.first() {
        Some(frame) => frame.stamp == stamp && frame.blocks.as_slice() == blocks,
        None => false,
    }
}

/// What is wrong with a frame that is not the first that waits.
fn what_is_wrong(waiting: &[ExpectedFrame], stamp: Stamp, blocks: &[u8]) -> WrongFrame {
    let Some(sent) = waiting.iter().find(|frame| frame.stamp == stamp) else {
        return WrongFrame::Unsent(stamp);
    };
    if sent.blocks.as_slice() == blocks {
        return match waiting.first() {
            Some(first) => WrongFrame::Missing(first.stamp),
            None => WrongFrame::Unsent(stamp),
        };
    }
    if has_filler(sent.blocks.as_slice(), blocks) {
        WrongFrame::Filler(stamp)
    } else {
        WrongFrame::Changed(stamp)
    }
}

/// Whether the first bytes in which they differ begin a filler's STAT.
fn has_filler(sent: &[u8], came: &[u8]) -> bool {
    for (at, byte) in came.iter().enumerate() {
        if sent.get(at) != Some(byte) {
            return sent.get(at) == Some(&0)
                && *byte == 0x80
                && came.get(at.saturating_add(1)) == Some(&0);
        }
    }
    false
}

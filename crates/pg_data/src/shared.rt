//! One PMU's data block in a frame that others share.

ghost use Rattle.std.specs.Prelude.{◌≡◌, ◌+◌, ◌<◌, ◌≤◌, ◌^◌, ◌++◌, ℕ, List, length, IfOk};
ghost use Rattle.pg_wire.specs.Check.{dividend_from, IsRemainder};
ghost use Rattle.std.specs.Arc.{arc_value};
ghost use Rattle.pg_data.specs.Pieces.{Piece, piece_of};

use crate::frame::DataFrame;
use std::marker::Model;
use std::sync::Arc;

/// One PMU's data block in a frame that is shared: it keeps the frame, and shows of it the time quality and this block
/// alone. No byte is copied.
#[derive(Drop)]
pub struct SharedBlock {
    frame: Arc<DataFrame>,
    place: usize,
}

impl Model for SharedBlock {
    ghost use Rattle.std.specs.Prelude.{◌<◌, length};
    ghost use Rattle.std.specs.Arc.{arc_value};
    ghost use Rattle.pg_data.specs.Pieces.{Piece, piece_of};

    ghost Value = { Piece };

    ghost view = { λ s. piece_of (arc_value s.frame) s.place };

    ghost invariant = { λ s. s.place < length (arc_value s.frame).config.parts };
}

impl SharedBlock {
    /// The data block of PMU `place` of the frame, counted from 0. It asks that the frame has that many.
    pub fn new(frame: Arc<DataFrame>, place: usize) -> SharedBlock
        requires { place < length (arc_value frame).config.parts }
        ensures value { result ≡ piece_of (arc_value frame) place }
    {
        SharedBlock { frame, place }
    }

    /// The frame's time quality: FRACSEC's top byte (C37.118.2, 6.2.2).
    pub fn quality(&self) -> u8
        ensures value { result ≡ self.now.quality }
    {
        self.frame.quality
    }

    /// The block's bytes, as they stood in the frame: 6 to 398.
    pub fn bytes(&self) -> &[u8]
        ensures value { result.now ≡ self.now.block }
        ensures long { 6 ≤ length result.now }
        ensures few { length result.now ≤ 398 }
    {
        self.frame.block(self.place)
    }

    /// What a frame's check becomes once this block has come behind the bytes that it is of: the same as `check_more` of pg_wire says
    /// of its bytes, which are not summed again.
    #[inline(always)]
    pub fn check_past(&self, crc: u16) -> u16
        ensures { (start : ℕ) (before : List ℕ) → IsRemainder (dividend_from start before) crc
            → IsRemainder (dividend_from start (before ++ self.now.block)) result }
    {
        self.frame.check_past(self.place, crc)
    }
}

//! The first bytes of a stream's data frames.
ghost use Rattle.std.specs.Prelude.{◌≡◌, ◌++◌};
ghost use Rattle.pg_wire.specs.Check.{dividend, IsRemainder};
ghost use Rattle.pg_outcfg.specs.HeadPrefixes.{prefix_bytes, no_stamp};

use crate::stamp_cache::Stamp;
use pg_wire::{StreamId, check_head};
use std::marker::Model;

/// The second byte of a data frame's SYNC: data, by the edition of 2011 (C37.118.2, 6.2).
const DATA_FRAME: u8 = 0x02;

/// What stands before the stamp in the head of a stream's last data frame: SYNC, FRAMESIZE and IDCODE (C37.118.2, 6.2), with what the
/// check of such a head is. The stream's next frame mostly has the same, and then these bytes are not summed again. What comes out is
/// the same whatever was last.
#[derive(Drop)]
pub struct HeadPrefix {
    id: u16,
    size: u16,
    check: u16,
}

impl Model for HeadPrefix {
    ghost use Rattle.std.specs.Prelude.{◌++◌};
    ghost use Rattle.pg_wire.specs.Check.{dividend, IsRemainder};
    ghost use Rattle.pg_outcfg.specs.HeadPrefixes.{HeadPrefixValue, prefix_bytes, no_stamp};

    ghost Value = { HeadPrefixValue };

    ghost view = { λ f. record { id = f.id; size = f.size } };

    ghost invariant = { λ f. IsRemainder (dividend (prefix_bytes (record { id = f.id; size = f.size }) ++ no_stamp)) f.check };
}

impl HeadPrefix {
    /// Of no frame: IDCODE and FRAMESIZE are 0.
    pub fn new() -> HeadPrefix
        ensures value { result ≡ record { id = 0; size = 0 } }
    {
        HeadPrefix::with(0, 0)
    }

    /// Of a frame of this stream that has this size.
    pub fn of(stream: StreamId, size: u16) -> HeadPrefix
        ensures value { result ≡ record { id = stream; size = size } }
    {
        HeadPrefix::with(stream.get(), size)
    }

    /// With this IDCODE and this FRAMESIZE.
    fn with(id: u16, size: u16) -> HeadPrefix
        ensures { result ≡ record { id = id; size = size } }
    {
        let [a, b, c, d, e, f] = bytes_of(id, size);
        HeadPrefix {
            id,
            size,
            check: check_head(&[a, b, c, d, e, f, 0, 0, 0, 0, 0, 0, 0, 0]),
        }
    }

    /// FRAMESIZE: how many bytes the frame had, or 0 where there was none.
    #[inline(always)]
    pub fn size(&self) -> u16
        ensures value { result ≡ self.now.size }
    {
        self.size
    }

    /// Its bytes.
    #[inline(always)]
    pub(crate) fn bytes(&self) -> [u8; 6]
        ensures { result ≡ prefix_bytes self.now }
    {
        bytes_of(self.id, self.size)
    }

    /// Makes it that of a frame of this stream and this size.
    #[inline(always)]
    pub(crate) fn turn_to(&mut self, stream: StreamId, size: u16)
        ensures { self.new ≡ record { id = stream; size = size } }
    {
        if self.size != size || self.id != stream.get() {
            self.find(stream.get(), size);
        }
    }

    /// The same where it is another.
    #[inline(never)]
    fn find(&mut self, id: u16, size: u16)
        ensures { self.new ≡ record { id = id; size = size } }
    {
        *self = HeadPrefix::with(id, size);
    }

    /// The check of a head that it begins and this stamp ends.
    #[inline(always)]
    pub(crate) fn check_with(&self, stamp: &Stamp) -> u16
        ensures { IsRemainder (dividend (prefix_bytes self.now ++ stamp.now)) result }
    {
        stamp.check_behind(self.check)
    }
}

/// The bytes of a prefix.
#[inline(always)]
fn bytes_of(id: u16, size: u16) -> [u8; 6]
    ensures { result ≡ prefix_bytes (record { id = id; size = size }) }
{
    let [size_high, size_low] = size.to_be_bytes();
    let [id_high, id_low] = id.to_be_bytes();
    [0xAA, DATA_FRAME, size_high, size_low, id_high, id_low]
}

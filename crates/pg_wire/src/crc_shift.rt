//! What a check becomes past a block whose own remainder is known: a CRC that is shifted by the length of the block.

ghost use Rattle.std.specs.Prelude.{◌≡◌, ◌+◌, ◌-◌, ◌*◌, ◌^◌, ◌<◌, ◌++◌, ℕ, List, length, take, slice_index_or, []};
ghost use Rattle.pg_wire.specs.Check.{dividend, dividend_from, IsRemainder};
ghost use Rattle.pg_wire.specs.Frame.{check_at_end};
ghost use Rattle.pg_wire.specs.Head.{IsFrame, body_of};

use crate::checksum::{check_head, check_more};
use std::marker::Model;

/// How many bytes are taken at a time.
const CHUNK: usize = 8;

/// The bytes of a frame's head.
const HEAD: usize = 14;

/// The bytes of CHK.
const CHECK: usize = 2;

/// What a check becomes when so many bytes come behind those that it is of, but for what these add themselves. The remainder is linear:
/// so four bits of the check at a time are looked up, whatever the number of bytes.
#[derive(Drop)]
pub struct CrcShift {
    bytes: usize,
    quarters: [[u16; 16]; 4],
}

impl Model for CrcShift {
    ghost use Rattle.std.specs.Prelude.{ℕ};
    ghost use Rattle.pg_wire.specs.CrcShift.{AreQuarters};

    ghost Value = { ℕ };

    ghost view = { λ a. a.bytes };

    ghost invariant = { λ a. AreQuarters a.bytes a.quarters };
}

/// What is left of a number that stands so many bytes up.
fn carried(number: u16, bytes: usize) -> u16
    ensures { IsRemainder (number * 2 ^ (8 * bytes)) result }
{
    let mut crc = number;
    for _chunk in 0..bytes / CHUNK {
        crc = check_more(crc, &[0; CHUNK]);
    }
    for _byte in 0..bytes % CHUNK {
        crc = check_more(crc, &[0]);
    }
    crc
}

/// What is left of each number of four bits, by what is left of 1, 2, 4 and 8.
fn quarter(ones: u16, twos: u16, fours: u16, eights: u16) -> [u16; 16]
    ensures { (k : ℕ) → IsRemainder (1 * 2 ^ k) ones → IsRemainder (2 * 2 ^ k) twos → IsRemainder (4 * 2 ^ k) fours → IsRemainder (8 * 2 ^ k) eights
        → (t : ℕ) → t < 16 → IsRemainder (t * 2 ^ k) (slice_index_or result t 0) }
{
    let low = ones ^ twos;
    let high = fours ^ eights;
    [
        0,
        ones,
        twos,
        low,
        fours,
        ones ^ fours,
        twos ^ fours,
        low ^ fours,
        eights,
        ones ^ eights,
        twos ^ eights,
        low ^ eights,
        high,
        ones ^ high,
        twos ^ high,
        low ^ high,
    ]
}

/// What is left of each number of four bits, of which the lowest is `one`, so many bytes up.
fn quarter_at(one: u16, bytes: usize) -> [u16; 16]
    requires { one < 2 ^ 13 }
    ensures { (k : ℕ) → one ≡ 2 ^ k → (t : ℕ) → t < 16 → IsRemainder (t * 2 ^ (k + 8 * bytes)) (slice_index_or result t 0) }
{
    quarter(
        carried(one, bytes),
        carried(2 * one, bytes),
        carried(4 * one, bytes),
        carried(8 * one, bytes),
    )
}

impl CrcShift {
    /// For a block of so many bytes.
    pub fn new(bytes: usize) -> CrcShift
        ensures { result ≡ bytes }
    {
        CrcShift {
            bytes,
            quarters: [
                quarter_at(1, bytes),
                quarter_at(0x10, bytes),
                quarter_at(0x100, bytes),
                quarter_at(0x1000, bytes),
            ],
        }
    }

    /// What is left of a check that stands as many bytes up.
    #[inline(always)]
    fn carry(&self, crc: u16) -> u16
        ensures { IsRemainder (crc * 2 ^ (8 * self.now)) result }
    {
        self.quarters[3][usize::from(crc >> 12)]
            ^ self.quarters[2][usize::from((crc >> 8) % 16)]
            ^ self.quarters[1][usize::from((crc >> 4) % 16)]
            ^ self.quarters[0][usize::from(crc % 16)]
    }

    /// What a check becomes once this block has come behind the bytes that it is of, where `alone` is what is left of the block: the
    /// same as `check_more` says, and the block's bytes are not looked at.
    #[inline(always)]
    pub fn check_past(&self, crc: u16, block: &[u8], alone: u16) -> u16
        requires len { length block.now ≡ self.now }
        requires alone { IsRemainder (dividend_from 0 block.now) alone }
        ensures { (start : ℕ) (before : List ℕ) → IsRemainder (dividend_from start before) crc
            → IsRemainder (dividend_from start (before ++ block.now)) result }
    {
        let _ = block;
        self.carry(crc) ^ alone
    }

    /// What is left of a block alone, by the check before it and the one past it: the block's bytes are not looked at.
    #[inline(always)]
    fn alone_between(&self, before: u16, past: u16, block: &[u8]) -> u16
        requires { length block.now ≡ self.now }
        ensures { (front : List ℕ) → IsRemainder (dividend front) before → IsRemainder (dividend (front ++ block.now)) past
            → IsRemainder (dividend_from 0 block.now) result }
    {
        let _ = block;
        self.carry(before) ^ past
    }
}

/// What is left of a frame's body alone, by the frame's own CHK: the same as `check_alone` says of the body, which is not summed again.
/// `shift` is that of its length.
pub fn body_alone(frame: &[u8], shift: &CrcShift) -> u16
    requires frame { IsFrame frame.now }
    requires len { length frame.now ≡ 16 + shift.now }
    ensures { IsRemainder (dividend_from 0 (body_of frame.now)) result }
{
    let end = frame.len() - CHECK;
    let sent = u16::from_be_bytes([frame[end], frame[end + 1]]);
    is_sent(frame, sent);
    let (heads, _) = frame.as_chunks::<HEAD>();
    shift.alone_between(check_head(&heads[0]), sent, &frame[HEAD..end])
}

/// A frame ends with what is left of the bytes before its CHK. It does nothing.
#[inline(always)]
fn is_sent(frame: &[u8], sent: u16)
    requires frame { IsFrame frame.now }
    requires sent { sent ≡ check_at_end frame.now }
    ensures { IsRemainder (dividend (take (length frame.now - 2) frame.now)) sent }
{
    let _ = frame;
}

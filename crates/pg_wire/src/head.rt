//! The head of a frame: reading it, and starting and ending a frame that is written.

ghost use Rattle.std.specs.Prelude.{◌≡◌, ◌+◌, ◌/◌, ◌^◌, ◌<◌, ◌≤◌, ◌++◌, length, slice_index, vec_len, vec_capacity, IfOk, IfErr};
ghost use Rattle.std.specs.Int.{w16, to_be_bytes};
ghost use Rattle.pg_wire.specs.Check.{chk, dividend, IsRemainder};
ghost use Rattle.pg_wire.specs.Head.{IsFrame, HeadFits, head_of};
ghost use Rattle.pg_wire.specs.Kinds.{kind_number};
ghost use Rattle.pg_wire.specs.Heads.{heading_of, start_of};

use crate::checksum::check;
use crate::kind::Kind;
use crate::refusal::Refusal;
use std::alloc::Global;

/// How many bytes a head has.
const HEAD_SIZE: usize = 14;

/// The head of a frame, its first 14 bytes (C37.118.2, 6.2).
#[derive(Clone, Copy, PartialEq, Eq)]
pub struct Head {
    /// What the frame is: bits 6 to 4 of the second byte of SYNC.
    pub kind: Kind,
    /// The version of the standard, bits 3 to 0 of that byte: 1 for the edition of 2005, 2 for that of 2011.
    pub version: u8,
    /// FRAMESIZE: the bytes of the whole frame, from SYNC to CHK, so at least 16.
    pub size: u16,
    /// IDCODE: the stream, or in a source's frames and in commands to it the source. 0 and 65535 are reserved.
    pub id: u16,
    /// SOC: seconds since 1970-01-01 00:00 UTC.
    pub soc: u32,
    /// The time quality, the top byte of FRACSEC: bits 6 to 4 are leap second flags, bits 3 to 0 the quality code.
    pub quality: u8,
    /// The numerator of the fraction of a second, the low 24 bits of FRACSEC. TIME_BASE is its denominator.
    pub frac: u32,
}

/// The head of a frame. It asks for bytes of which `is_frame` holds.
pub fn read_head(bytes: &[u8]) -> Head
    requires { IsFrame bytes.now }
    ensures heading { heading_of result ≡ head_of bytes.now }
    ensures size { result.size ≡ length bytes.now }
    ensures kind { kind_number result.kind ≡ slice_index bytes.now 1 / 16 }
    ensures fits { HeadFits (heading_of result) }
{
    Head {
        kind: Kind::of(bytes[1] / 16),
        version: bytes[1] % 16,
        size: u16::from_be_bytes([bytes[2], bytes[3]]),
        id: u16::from_be_bytes([bytes[4], bytes[5]]),
        soc: u32::from_be_bytes([bytes[6], bytes[7], bytes[8], bytes[9]]),
        quality: bytes[10],
        frac: u32::from_be_bytes([0, bytes[11], bytes[12], bytes[13]]),
    }
}

/// The first 14 bytes of a frame, with room for all `head.size` bytes of it. The one refusal is `NoMemory`.
pub fn start_frame(alloc: Global, head: &Head) -> Result<Vec<u8>, Refusal>
    requires size { 16 ≤ head.now.size }
    requires version { head.now.version < 16 }
    requires frac { head.now.frac < 2 ^ 24 }
    ensures bytes { IfOk result (λ frame. frame.items ≡ start_of (heading_of head.now) head.now.size) }
    // What is left of the frame is added without memory.
    ensures room { IfOk result (λ frame. head.now.size ≤ vec_capacity frame) }
    ensures memory { IfErr result (λ refusal. refusal ≡ Refusal.NoMemory) }
{
    let mut frame = Vec::with_capacity(alloc, usize::from(head.size))?;
    // It fits, since the whole frame does.
    let _ = frame.extend_from_slice(&head_bytes(head));
    Ok(frame)
}

/// A head as the bytes of a frame (C37.118.2, 6.2).
#[inline(always)]
pub fn head_bytes(head: &Head) -> [u8; HEAD_SIZE]
    requires version { head.now.version < 16 }
    requires frac { head.now.frac < 2 ^ 24 }
    ensures { result ≡ start_of (heading_of head.now) head.now.size }
{
    let [size_high, size_low] = head.size.to_be_bytes();
    let [id_high, id_low] = head.id.to_be_bytes();
    let [soc_0, soc_1, soc_2, soc_3] = head.soc.to_be_bytes();
    let [frac_0, frac_1, frac_2, frac_3] = (u32::from(head.quality) * 0x0100_0000
        + head.frac).to_be_bytes();
    [
        0xAA,
        16 * head.kind.number() + head.version,
        size_high,
        size_low,
        id_high,
        id_low,
        soc_0,
        soc_1,
        soc_2,
        soc_3,
        frac_0,
        frac_1,
        frac_2,
        frac_3,
    ]
}

/// Ends a frame: adds CHK over all bytes that are there, in the room that `start_frame` reserved.
pub fn end_frame(frame: &mut Vec<u8>)
    requires { vec_len frame.old + 2 ≤ vec_capacity frame.old }
    ensures bytes { frame.new.items ≡ frame.old.items ++ to_be_bytes w16 (chk frame.old.items) }
    ensures room { vec_capacity frame.old ≤ vec_capacity frame.new }
{
    let sum = check(frame);
    // It fits, by what is asked for.
    let _ = frame.extend_from_slice(&sum.to_be_bytes());
}

/// The same, where the check over all bytes that are there is known: it is `crc`.
#[inline(always)]
pub fn end_frame_by(frame: &mut Vec<u8>, crc: u16)
    requires room { vec_len frame.old + 2 ≤ vec_capacity frame.old }
    requires check { IsRemainder (dividend frame.old.items) crc }
    ensures bytes { frame.new.items ≡ frame.old.items ++ to_be_bytes w16 (chk frame.old.items) }
    ensures len { vec_len frame.new ≡ vec_len frame.old + 2 }
    ensures room { vec_capacity frame.old ≤ vec_capacity frame.new }
{
    is_check(frame, crc);
    // It fits, by what is asked for.
    let _ = frame.extend_from_slice(&crc.to_be_bytes());
}

/// What is left of the division is CHK. It does nothing.
#[inline(always)]
fn is_check(bytes: &[u8], crc: u16)
    requires { IsRemainder (dividend bytes.now) crc }
    ensures { crc ≡ chk bytes.now }
{
    let _ = bytes;
}

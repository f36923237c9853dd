//! The data frame of a slot.
ghost use Rattle.std.specs.Prelude.{◌≡◌, ◌+◌, ◌/◌, ◌<◌, ◌≤◌, ◌++◌, ◌^◌, length, ℕ, replicate, IsTrue, IfOk, IfErr, IfSome, IsSome, vec_len, vec_capacity};
ghost use Rattle.std.specs.Int.{w16, to_be_bytes};
ghost use Rattle.pg_wire.specs.Check.{chk, dividend, IsRemainder};
ghost use Rattle.pg_wire.specs.Stream.{joined};
ghost use Rattle.pg_stream.specs.Limits.{IsWithinLimits};
ghost use Rattle.pg_data.specs.Measurements.{block_of};
ghost use Rattle.pg_outcfg.specs.Listing.{Listing};
ghost use Rattle.pg_outcfg.specs.Ordered.{AreBlocks, AreMembers, blocks_in, pieces_in};
ghost use Rattle.pg_outcfg.specs.Quality.{joined_quality};
ghost use Rattle.pg_outcfg.specs.HeadPrefixes.{prefix_bytes};
ghost use Rattle.pg_outcfg.specs.Frames.{block_or_filler, data_blocks, qualities_of, data_frame_of};

use crate::head_prefix::HeadPrefix;
use crate::list::ConfigList;
use crate::stamp_cache::{Stamp, StampCache};
use pg_config::PmuConfig;
use pg_data::{DataFrame, SharedBlock, filler_into};
use pg_stream::Definition;
use pg_wire::{PmuKey, Refusal, check_more, end_frame_by};
use std::alloc::Global;

/// How many bytes a frame has beside its body.
const AROUND_BODY: u16 = 16;

/// How many bytes a head has.
const HEAD_BYTES: usize = 14;

/// How many bytes CHK has.
const CHECK_BYTES: usize = 2;

/// The most bytes of a data frame: 32 blocks of 398 bytes, and what is around them.
const MOST_BYTES: u16 = 12_752;

/// The leap second flags of a time quality (C37.118.2, 6.2.2).
const LEAP_FLAGS: u8 = 0x70;

/// The quality code of a time quality.
const QUALITY_CODE: u8 = 0x0F;

/// The data frame of a slot (C37.118.2, 6.3): the slot's stamp, the joined quality of the frames that are present, and for
/// each member that stands in `listed`, in the definition's order, its block in the slot or the filler.
///
/// `parts` has for each member of the definition, in its order, the block that came for it in this slot, or none. It asks
/// for a definition that `check_definition` accepts, and of the slot what `stamp_of` asks. The one refusal is `NoMemory`;
/// the frame is one allocation of its size, at most 12,752 bytes, and blocks are copied as they are.
pub fn data_frame(
    alloc: Global,
    definition: &Definition,
    slot: u64,
    listed: &ConfigList,
    parts: &[Option<SharedBlock>],
) -> Result<Vec<u8>, Refusal>
    requires limits { IsWithinLimits definition.now }
    requires time { slot / definition.now.rate < 2 ^ 32 }
    requires parts { length parts.now ≡ length definition.now.members }
    ensures frame { IfOk result (λ v. v.items ≡ data_frame_of definition.now slot listed.now parts.now) }
    ensures least { IfOk result (λ v. 16 ≤ vec_len v) }
    ensures most { IfOk result (λ v. vec_len v ≤ 12752) }
    ensures memory { IfErr result (λ refusal. refusal ≡ Refusal.NoMemory) }
{
    let spare = Vec::new(alloc);
    let stamps = &mut StampCache::new();
    let prefix = &mut HeadPrefix::new();
    data_frame_near(
        alloc, definition, slot, listed, parts, prefix, stamps, spare,
    )
}

/// The same, where `prefix` is that of the stream's last data frame. This one may well have it too: if it has, the members are gone through
/// once, and its bytes are not summed again. `prefix` is then that of this frame. One of no frame guesses nothing.
///
/// The frame is composed in the memory of `spare`, whatever bytes are there, or in an allocation of its size where that has less
/// room. So it may have more room than its size.
pub fn data_frame_near(
    alloc: Global,
    definition: &Definition,
    slot: u64,
    listed: &ConfigList,
    parts: &[Option<SharedBlock>],
    prefix: &mut HeadPrefix,
    stamps: &mut StampCache,
    spare: Vec<u8>,
) -> Result<Vec<u8>, Refusal>
    requires limits { IsWithinLimits definition.now }
    requires time { slot / definition.now.rate < 2 ^ 32 }
    requires parts { length parts.now ≡ length definition.now.members }
    ensures frame { IfOk result (λ v. v.items ≡ data_frame_of definition.now slot listed.now parts.now) }
    ensures least { IfOk result (λ v. 16 ≤ vec_len v) }
    ensures most { IfOk result (λ v. vec_len v ≤ 12752) }
    ensures prefix { IfOk result (λ v. prefix.new ≡ record { id = definition.now.stream; size = vec_len v }) }
    ensures memory { IfErr result (λ refusal. refusal ≡ Refusal.NoMemory) }
{
    let mut frame = spare;
    let mut near = prefix.size();
    loop {
        if AROUND_BODY <= near && near <= MOST_BYTES {
            frame = room_for(alloc, frame, near)?;
            prefix.turn_to(definition.stream, near);
            if compose(&mut frame, definition, slot, listed, parts, prefix, stamps) {
                return Ok(frame);
            }
        }
        // This is the frame's size, so there is no third turn.
        near = AROUND_BODY + body_len(definition.members.as_slice(), listed, parts);
    }
}

/// The data frame of a slot for which one frame brought the blocks of all members. `order` has for each member, in the definition's
/// order, which of that frame's blocks is its own.
///
/// It asks for what `data_frame` asks for, and of each block that the frame has it. The frame is the same for every list in which
/// all members stand. `prefix` and `spare` are what `data_frame_near` has them to be: where the frame has that prefix too, its blocks are not
/// measured first. The one refusal is `NoMemory`.
pub fn data_frame_at_once(
    alloc: Global,
    definition: &Definition,
    slot: u64,
    frame: &DataFrame,
    order: &[Option<u8>],
    prefix: &mut HeadPrefix,
    stamps: &mut StampCache,
    spare: Vec<u8>,
) -> Result<Vec<u8>, Refusal>
    requires limits { IsWithinLimits definition.now }
    requires time { slot / definition.now.rate < 2 ^ 32 }
    requires members { length order.now ≡ length definition.now.members }
    requires blocks { AreBlocks (length frame.now.config.parts) order.now }
    ensures frame { IfOk result (λ v. (listed : Listing) → AreMembers listed definition.now.members
        → v.items ≡ data_frame_of definition.now slot listed (pieces_in frame.now order.now)) }
    ensures least { IfOk result (λ v. 16 ≤ vec_len v) }
    ensures most { IfOk result (λ v. vec_len v ≤ 12752) }
    ensures prefix { IfOk result (λ v. prefix.new ≡ record { id = definition.now.stream; size = vec_len v }) }
    ensures memory { IfErr result (λ refusal. refusal ≡ Refusal.NoMemory) }
{
    let mut out = spare;
    let mut near = prefix.size();
    loop {
        if AROUND_BODY <= near && near <= MOST_BYTES {
            out = room_for(alloc, out, near)?;
            prefix.turn_to(definition.stream, near);
            if compose_at_once(&mut out, definition, slot, frame, order, prefix, stamps) {
                return Ok(out);
            }
        }
        // This is the frame's size, so there is no third turn.
        near = AROUND_BODY + ordered_len(frame, order);
    }
}

/// Composes the data frame of a slot in memory with room for as many bytes as this prefix says, where one frame brought the blocks of all
/// members, and returns whether it is so many bytes long.
fn compose_at_once(
    out: &mut Vec<u8>,
    definition: &Definition,
    slot: u64,
    frame: &DataFrame,
    order: &[Option<u8>],
    prefix: &HeadPrefix,
    stamps: &mut StampCache,
) -> bool
    requires limits { IsWithinLimits definition.now }
    requires time { slot / definition.now.rate < 2 ^ 32 }
    requires members { length order.now ≡ length definition.now.members }
    requires blocks { AreBlocks (length frame.now.config.parts) order.now }
    requires prefix { prefix.now.id ≡ definition.now.stream }
    requires least { 16 ≤ prefix.now.size }
    requires room { prefix.now.size ≤ vec_capacity out.old }
    ensures fits { prefix.now.size ≡ 16 + length (joined (blocks_in frame.now order.now)) → IsTrue result }
    ensures frame { IsTrue result → (listed : Listing) → AreMembers listed definition.now.members
        → out.new.items ≡ data_frame_of definition.now slot listed (pieces_in frame.now order.now) }
    ensures len { IsTrue result → vec_len out.new ≡ prefix.now.size }
{
    let quality = clear_quality(frame.quality);
    let stamp = stamps.stamp_of(definition.rate, definition.base, slot, quality);
    let Some(crc) = start_stamped(out, prefix, stamp) else {
        return false;
    };
    let Some(crc) = add_ordered(out, crc, frame, order) else {
        return false;
    };
    end_if_whole(out, crc, prefix.size())
}

/// The joined time quality where all blocks are of one frame: that frame's without bit 7.
fn clear_quality(quality: u8) -> u8
    ensures { (n : ℕ) → result ≡ joined_quality (replicate (n + 1) quality) }
{
    quality & LEAP_FLAGS | quality & QUALITY_CODE
}

/// How many bytes these blocks of a frame have.
fn ordered_len(frame: &DataFrame, order: &[Option<u8>]) -> u16
    requires few { length order.now ≤ 32 }
    requires blocks { AreBlocks (length frame.now.config.parts) order.now }
    ensures value { result ≡ length (joined (blocks_in frame.now order.now)) }
    ensures most { result ≤ 12736 }
{
    let mut len = 0;
    for place in order {
        let Some(i) = place else {
            unreachable!();
        };
        len += frame.block(usize::from(*i)).len() as u16;
    }
    len
}

/// Adds these blocks of a frame, and returns the check of all that is there then; none where there was no room for all of them.
fn add_ordered(out: &mut Vec<u8>, crc: u16, frame: &DataFrame, order: &[Option<u8>]) -> Option<u16>
    requires check { IsRemainder (dividend out.old.items) crc }
    requires blocks { AreBlocks (length frame.now.config.parts) order.now }
    ensures fits { vec_len out.old + length (joined (blocks_in frame.now order.now)) ≤ vec_capacity out.old → IsSome result }
    ensures bytes { IsSome result → out.new.items ≡ out.old.items ++ joined (blocks_in frame.now order.now) }
    ensures len { IsSome result → vec_len out.new ≡ vec_len out.old + length (joined (blocks_in frame.now order.now)) }
    ensures check { IfSome result (λ after. IsRemainder (dividend out.new.items) after) }
    ensures room { vec_capacity out.old ≤ vec_capacity out.new }
{
    let mut crc = crc;
    for place in order {
        let Some(i) = place else {
            unreachable!();
        };
        crc = add_block(out, crc, frame, usize::from(*i))?;
    }
    Some(crc)
}

/// Adds a block of a frame, and returns what the check becomes; none where there was no room for it.
fn add_block(out: &mut Vec<u8>, crc: u16, frame: &DataFrame, i: usize) -> Option<u16>
    requires check { IsRemainder (dividend out.old.items) crc }
    requires place { i < length frame.now.config.parts }
    ensures fits { vec_len out.old + length (block_of frame.now i) ≤ vec_capacity out.old → IsSome result }
    ensures bytes { IsSome result → out.new.items ≡ out.old.items ++ block_of frame.now i }
    ensures len { IsSome result → vec_len out.new ≡ vec_len out.old + length (block_of frame.now i) }
    ensures check { IfSome result (λ after. IsRemainder (dividend out.new.items) after) }
    ensures room { vec_capacity out.old ≤ vec_capacity out.new }
{
    let after = frame.check_past(i, crc);
    let bytes = frame.block(i);
    if out.capacity() - out.len() < bytes.len() {
        return None;
    }
    // With the room tested, the block is added without a way to take memory.
    let _ = out.extend_from_slice(bytes);
    Some(after)
}

/// This memory, if it has room for so many bytes, or else memory that has.
fn room_for(alloc: Global, spare: Vec<u8>, size: u16) -> Result<Vec<u8>, Refusal>
    ensures room { IfOk result (λ v. size ≤ vec_capacity v) }
    ensures memory { IfErr result (λ refusal. refusal ≡ Refusal.NoMemory) }
{
    if usize::from(size) <= spare.capacity() {
        return Ok(spare);
    }
    Ok(Vec::with_capacity(alloc, usize::from(size))?)
}

/// Composes the data frame of a slot in memory with room for as many bytes as this prefix says, and returns whether it is so many bytes
/// long.
fn compose(
    frame: &mut Vec<u8>,
    definition: &Definition,
    slot: u64,
    listed: &ConfigList,
    parts: &[Option<SharedBlock>],
    prefix: &HeadPrefix,
    stamps: &mut StampCache,
) -> bool
    requires limits { IsWithinLimits definition.now }
    requires time { slot / definition.now.rate < 2 ^ 32 }
    requires parts { length parts.now ≡ length definition.now.members }
    requires prefix { prefix.now.id ≡ definition.now.stream }
    requires least { 16 ≤ prefix.now.size }
    requires room { prefix.now.size ≤ vec_capacity frame.old }
    ensures fits { prefix.now.size ≡ 16 + length (joined (data_blocks listed.now definition.now.members parts.now)) → IsTrue result }
    ensures frame { IsTrue result → frame.new.items ≡ data_frame_of definition.now slot listed.now parts.now }
    ensures len { IsTrue result → vec_len frame.new ≡ prefix.now.size }
{
    let members = definition.members.as_slice();
    let quality = join_qualities(parts);
    let stamp = stamps.stamp_of(definition.rate, definition.base, slot, quality);
    let Some(crc) = start_stamped(frame, prefix, stamp) else {
        return false;
    };
    let Some(crc) = add_blocks(frame, crc, members, listed, parts) else {
        return false;
    };
    end_if_whole(frame, crc, prefix.size())
}

/// Ends a frame of which this is the check so far, if it is then so many bytes long.
#[inline(always)]
fn end_if_whole(frame: &mut Vec<u8>, crc: u16, size: u16) -> bool
    requires check { IsRemainder (dividend frame.old.items) crc }
    ensures fits { vec_len frame.old + 2 ≡ size → size ≤ vec_capacity frame.old → IsTrue result }
    ensures bytes { IsTrue result → frame.new.items ≡ frame.old.items ++ to_be_bytes w16 (chk frame.old.items) }
    ensures len { IsTrue result → (vec_len frame.old + 2 ≡ size) × (vec_len frame.new ≡ size) }
{
    let len = frame.len();
    // With the room tested, CHK is added without a way to take memory.
    if len + CHECK_BYTES != usize::from(size) || frame.capacity() - len < CHECK_BYTES {
        return false;
    }
    end_frame_by(frame, crc);
    true
}

/// Starts the data frame of a slot whose prefix and stamp these are: its first 14 bytes are there, and nothing of what was. Returns the
/// check of them; none where there was no room for them.
#[inline(always)]
fn start_stamped(frame: &mut Vec<u8>, prefix: &HeadPrefix, stamp: &Stamp) -> Option<u16>
    ensures fits { 14 ≤ vec_capacity frame.old → IsSome result }
    ensures bytes { IsSome result → frame.new.items ≡ prefix_bytes prefix.now ++ stamp.now }
    ensures len { IsSome result → vec_len frame.new ≡ 14 }
    ensures check { IfSome result (λ crc. IsRemainder (dividend frame.new.items) crc) }
    ensures room { vec_capacity frame.old ≤ vec_capacity frame.new }
{
    frame.clear();
    if frame.capacity() < HEAD_BYTES {
        return None;
    }
    // With the room tested, the head is added without a way to take memory.
    let _ = frame.extend_from_slice(&head_of(&prefix.bytes(), stamp.bytes()));
    Some(prefix.check_with(stamp))
}

/// A head of this prefix and this stamp.
#[inline(always)]
fn head_of(prefix: &[u8; 6], stamp: &[u8; 8]) -> [u8; 14]
    ensures { result ≡ prefix.now ++ stamp.now }
{
    let [a, b, c, d, e, f] = *prefix;
    let [g, h, i, j, k, l, m, n] = *stamp;
    [a, b, c, d, e, f, g, h, i, j, k, l, m, n]
}

/// The joined time quality of the blocks that are there: each leap second flag that one has, and the greatest
/// quality code. Bit 7 is 0.
fn join_qualities(parts: &[Option<SharedBlock>]) -> u8
    ensures { result ≡ joined_quality (qualities_of parts.now) }
{
    let mut flags = 0;
    let mut code = 0;
    let mut last = 0;
    for part in parts {
        if let Some(block) = part {
            let quality = block.quality();
            // The blocks of one frame have one quality, which is joined once.
            if quality != last {
                flags |= quality & LEAP_FLAGS;
                code = code.max(quality & QUALITY_CODE);
                last = quality;
            }
        }
    }
    flags | code
}

/// How many bytes stand for an effective member.
fn part_len(config: &PmuConfig, part: &Option<SharedBlock>) -> u16
    ensures value { result ≡ length (block_or_filler config.now part.now) }
    ensures most { result ≤ 398 }
{
    match part {
        Some(block) => block.bytes().len() as u16,
        None => config.block_len() as u16,
    }
}

/// Adds what stands for an effective member, and returns what the check becomes; none where there was no room for it.
fn add_part(
    frame: &mut Vec<u8>,
    crc: u16,
    config: &PmuConfig,
    part: &Option<SharedBlock>,
) -> Option<u16>
    requires check { IsRemainder (dividend frame.old.items) crc }
    ensures fits { vec_len frame.old + length (block_or_filler config.now part.now) ≤ vec_capacity frame.old → IsSome result }
    ensures bytes { IsSome result → frame.new.items ≡ frame.old.items ++ block_or_filler config.now part.now }
    ensures len { IsSome result → vec_len frame.new ≡ vec_len frame.old + length (block_or_filler config.now part.now) }
    ensures check { IfSome result (λ after. IsRemainder (dividend frame.new.items) after) }
    ensures room { vec_capacity frame.old ≤ vec_capacity frame.new }
{
    match part {
        Some(block) => {
            let after = block.check_past(crc);
            let bytes = block.bytes();
            if frame.capacity() - frame.len() < bytes.len() {
                return None;
            }
            // With the room tested, the block is added without a way to take memory.
            let _ = frame.extend_from_slice(bytes);
            Some(after)
        }
        None => {
            let start = frame.len();
            if frame.capacity() - start < config.block_len() {
                return None;
            }
            filler_into(config, frame);
            Some(check_more(crc, &frame[start..]))
        }
    }
}

/// How many bytes the data blocks of the effective members have.
fn body_len(members: &[PmuKey], listed: &ConfigList, parts: &[Option<SharedBlock>]) -> u16
    requires few { length members.now ≤ 32 }
    requires parts { length parts.now ≡ length members.now }
    ensures value { result ≡ length (joined (data_blocks listed.now members.now parts.now)) }
    ensures most { result ≤ 12736 }
{
    let mut len = 0;
    let mut next = 0;
    for (i, key) in members.iter().enumerate() {
        if let Some(config) = listed.get_next(key, &mut next) {
            len += part_len(config, &parts[i]);
        }
    }
    len
}

/// Adds the data blocks of the effective members, and returns the check of all that is there then; none where there was no room
/// for all of them.
fn add_blocks(
    frame: &mut Vec<u8>,
    crc: u16,
    members: &[PmuKey],
    listed: &ConfigList,
    parts: &[Option<SharedBlock>],
) -> Option<u16>
    requires parts { length parts.now ≡ length members.now }
    requires check { IsRemainder (dividend frame.old.items) crc }
    ensures fits { vec_len frame.old + length (joined (data_blocks listed.now members.now parts.now)) ≤ vec_capacity frame.old
        → IsSome result }
    ensures bytes { IsSome result → frame.new.items ≡ frame.old.items ++ joined (data_blocks listed.now members.now parts.now) }
    ensures len { IsSome result → vec_len frame.new ≡ vec_len frame.old + length (joined (data_blocks listed.now members.now parts.now)) }
    ensures check { IfSome result (λ after. IsRemainder (dividend frame.new.items) after) }
    ensures room { vec_capacity frame.old ≤ vec_capacity frame.new }
{
    let mut crc = crc;
    let mut next = 0;
    for (i, key) in members.iter().enumerate() {
        if let Some(config) = listed.get_next(key, &mut next) {
            crc = add_part(frame, crc, config, &parts[i])?;
        }
    }
    Some(crc)
}

//! The writers of configuration frames and header frames.

ghost use Rattle.std.specs.Prelude.{◌≡◌, ◌⊎◌, ℕ, ◌+◌, ◌^◌, ◌<◌, ◌≤◌, ◌++◌, length, map, All, IfOk, IfErr, OnOk, Ok, slice_index, vec_len, vec_capacity};
ghost use Rattle.std.specs.Arc.{arc_value};
ghost use Rattle.std.specs.Int.{w16, to_be_bytes};
ghost use Rattle.pg_wire.specs.Head.{IsFrame, frame_of};
ghost use Rattle.pg_wire.specs.Heads.{heading_of, ended};
ghost use Rattle.pg_wire.specs.Stream.{joined};
ghost use Rattle.pg_config.specs.Reading.{config_of};
ghost use Rattle.pg_config.specs.Sourced.{source_frame, IsOfRate};
ghost use Rattle.pg_config.specs.Spelling.{SpellsHeader};
ghost use Rattle.pg_config.specs.Writing.{reply_heading, block_with_count, config_start, config_frame, announced_with};

use crate::source::{PmuConfig, SourceConfig};
use pg_wire::{Head, Kind, Refusal, StreamId, check, end_frame, start_frame};
use std::alloc::{AllocError, Global};
use std::sync::Arc;

/// How many bytes a frame has beside its body.
const AROUND_BODY: u16 = 16;

/// How many bytes a configuration frame has beside its blocks.
const AROUND_BLOCKS: u16 = 24;

/// The time quality of frames that carry no measurement: an unlocked clock.
const UNLOCKED: u8 = 0x0F;

/// The head of an output frame that carries no measurement.
fn reply_head(kind: Kind, id: StreamId, soc: u32, size: u16) -> Head
    ensures heading { heading_of result ≡ reply_heading kind id soc }
    ensures size { result.size ≡ size }
    ensures id { id < 65535 }
{
    Head {
        kind,
        version: 2,
        size,
        id: id.get(),
        soc,
        quality: UNLOCKED,
        frac: 0,
    }
}

/// How many bytes the blocks of these PMUs have.
fn blocks_len(parts: &[Arc<PmuConfig>]) -> u16
    requires { length parts.now ≤ 32 }
    ensures value { (count : ℕ) → result ≡ length (joined (map (block_with_count count) (map arc_value parts.now))) }
    ensures most { result ≤ 64000 }
{
    let mut len = 0;
    for part in parts {
        len += part.config_len() as u16;
    }
    len
}

/// Adds the blocks of these PMUs, each with this CFGCNT, in the room that is there.
fn add_blocks(frame: &mut Vec<u8>, count: u16, parts: &[Arc<PmuConfig>])
    requires { vec_len frame.old + length (joined (map (block_with_count count) (map arc_value parts.now))) ≤ vec_capacity frame.old }
    ensures bytes { frame.new.items ≡ frame.old.items ++ joined (map (block_with_count count) (map arc_value parts.now)) }
    ensures room { vec_capacity frame.old ≤ vec_capacity frame.new }
{
    for part in parts {
        part.add_to(frame, count);
    }
}

/// Starts the frame CFG-1 or CFG-2 of a stream, of version 2 with FRACSEC 0x0F000000 (C37.118.2, 6.4): its head,
/// TIME_BASE and NUM_PMU, with room for the whole frame.
///
/// `base` is the resolution (24 bits; TIME_BASE's flags are 0), `blocks` the number of PMUs, and `blocks_len` how many bytes
/// their configuration blocks have together. `PmuConfig::add_to` then adds each block and `end_config` ends the frame,
/// both in that room. It asks for one of the two kinds and for at most 64,000 bytes of blocks. The one refusal is `NoMemory`.
pub fn start_config(
    alloc: Global,
    kind: Kind,
    id: StreamId,
    soc: u32,
    base: u32,
    blocks: u16,
    blocks_len: u16,
) -> Result<Vec<u8>, Refusal>
    requires kind { (kind ≡ Kind.CfgOne) ⊎ (kind ≡ Kind.CfgTwo) }
    requires base { base < 2 ^ 24 }
    requires len { blocks_len ≤ 64000 }
    ensures bytes { IfOk result (λ frame. frame.items ≡ config_start kind id soc base blocks blocks_len) }
    // What is left of the frame is added without memory.
    ensures room { IfOk result (λ frame. vec_len frame + blocks_len + 4 ≤ vec_capacity frame) }
    ensures memory { IfErr result (λ refusal. refusal ≡ Refusal.NoMemory) }
{
    let size = AROUND_BLOCKS + blocks_len;
    let mut frame = start_frame(alloc, &reply_head(kind, id, soc, size))?;
    // They fit, since the whole frame does.
    let _ = frame.extend_from_slice(&base.to_be_bytes());
    let _ = frame.extend_from_slice(&blocks.to_be_bytes());
    Ok(frame)
}

/// Ends a configuration frame: adds DATA_RATE, the frames per second, and CHK over all bytes that are there, in the room
/// that `start_config` reserved.
pub fn end_config(frame: &mut Vec<u8>, rate: u8)
    requires { vec_len frame.old + 4 ≤ vec_capacity frame.old }
    ensures bytes { frame.new.items ≡ ended (frame.old.items ++ to_be_bytes w16 rate) }
    ensures room { vec_capacity frame.old ≤ vec_capacity frame.new }
{
    // It fits, by what is asked for.
    let _ = frame.extend_from_slice(&u16::from(rate).to_be_bytes());
    end_frame(frame);
}

/// The frame CFG-1 or CFG-2 of a stream, of version 2 with FRACSEC 0x0F000000 (C37.118.2, 6.4).
///
/// `base` is the resolution (24 bits; TIME_BASE's flags are 0), `rate` the frames per second, `count` the CFGCNT that each block carries in
/// place of its own; the blocks are copied but for that. It asks for one of the two kinds and for at most 32 PMUs. The one refusal is `NoMemory`.
pub fn write_config(
    alloc: Global,
    kind: Kind,
    id: StreamId,
    soc: u32,
    base: u32,
    rate: u8,
    count: u16,
    parts: &[Arc<PmuConfig>],
) -> Result<Vec<u8>, Refusal>
    requires kind { (kind ≡ Kind.CfgOne) ⊎ (kind ≡ Kind.CfgTwo) }
    requires base { base < 2 ^ 24 }
    requires few { length parts.now ≤ 32 }
    ensures frame { IfOk result (λ v. v.items ≡ config_frame kind id soc base rate count (map arc_value parts.now)) }
    ensures memory { IfErr result (λ refusal. refusal ≡ Refusal.NoMemory) }
{
    let blocks = parts.len() as u16;
    let mut frame = start_config(alloc, kind, id, soc, base, blocks, blocks_len(parts))?;
    add_blocks(&mut frame, count, parts);
    end_config(&mut frame, rate);
    Ok(frame)
}

/// The header frame of a stream, of version 2 with FRACSEC 0x0F000000 (C37.118.2, 6.5). It asks for a text of at most 1,024 bytes,
/// each 0 to 127. The one refusal is `NoMemory`.
pub fn write_header(alloc: Global, id: StreamId, soc: u32, text: &[u8]) -> Result<Vec<u8>, Refusal>
    requires size { length text.now ≤ 1024 }
    requires ascii { All (λ b. b < 128) text.now }
    ensures frame { IfOk result (λ v. v.items ≡ frame_of (reply_heading Kind.Header id soc) text.now) }
    ensures spelled { IfOk result (λ v. SpellsHeader v.items text.now) }
    ensures memory { IfErr result (λ refusal. refusal ≡ Refusal.NoMemory) }
{
    let size = AROUND_BODY + text.len() as u16;
    let mut frame = start_frame(alloc, &reply_head(Kind::Header, id, soc, size))?;
    frame.extend_from_slice(text)?;
    end_frame(&mut frame);
    Ok(frame)
}

/// Adds the blocks of these PMUs as they are.
fn push_blocks(frame: &mut Vec<u8>, parts: &[Arc<PmuConfig>]) -> Result<(), AllocError>
    ensures bytes { OnOk result (frame.new.items ≡ frame.old.items ++ joined (map (λ p. p.block) (map arc_value parts.now))) }
{
    for part in parts {
        frame.extend_from_slice(part.block.as_slice())?;
    }
    Ok(())
}

/// Ends a frame: adds CHK over all bytes that are there, each of which is below 256.
fn add_check(frame: &mut Vec<u8>) -> Result<(), AllocError>
    ensures bytes { OnOk result (frame.new.items ≡ ended frame.old.items) }
    ensures octets { (i : ℕ) → slice_index frame.old.items i < 256 }
{
    let sum = check(frame);
    frame.extend_from_slice(&sum.to_be_bytes())
}

/// The CFG-2 frame by which a source's own configuration is read again (C37.118.2, 6.4): of version 2 with SOC 0 and FRACSEC
/// 0x0F000000, at its resolution and DATA_RATE, each block as it is, with its CFGCNT. The one refusal is `NoMemory`.
pub fn write_source(alloc: Global, config: &SourceConfig) -> Result<Vec<u8>, Refusal>
    ensures frame { IfOk result (λ v. (base rate : ℕ) × IsOfRate base rate config.now × (v.items ≡ source_frame base rate config.now)) }
    // A link does not skip it.
    ensures whole { IfOk result (λ v. IsFrame v.items) }
    ensures read { IfOk result (λ v. config_of v.items ≡ Ok (announced_with Kind.CfgTwo config.now.source config.now.parts)) }
    ensures memory { IfErr result (λ refusal. refusal ≡ Refusal.NoMemory) }
{
    let _count = config.count();
    let parts = config.parts.as_slice();
    let size = AROUND_BLOCKS + blocks_len(parts);
    let Some(first) = parts.first() else {
        unreachable!();
    };
    let rate = first.rate.cast_unsigned();
    let head = Head {
        kind: Kind::CfgTwo,
        version: 2,
        size,
        id: config.source.get(),
        soc: 0,
        quality: UNLOCKED,
        frac: 0,
    };
    let mut frame = start_frame(alloc, &head)?;
    frame.extend_from_slice(&first.base.to_be_bytes())?;
    frame.extend_from_slice(&(parts.len() as u16).to_be_bytes())?;
    push_blocks(&mut frame, parts)?;
    frame.extend_from_slice(&rate.to_be_bytes())?;
    add_check(&mut frame)?;
    Ok(frame)
}

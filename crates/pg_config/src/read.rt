//! The reader of configuration frames. It looks at the whole frame before it takes memory.

ghost use Rattle.std.specs.Prelude.{◌≡◌, ℕ, ◌+◌, ◌-◌, ◌*◌, ◌≤◌, ◌<◌, List, length, drop, map, ◌⊎◌, IfOk, IfErr, Ok, Err};
ghost use Rattle.std.specs.List.{list_any};
ghost use Rattle.std.specs.Arc.{arc_value};
ghost use Rattle.pg_wire.specs.Head.{two_at, IsFrame};
ghost use Rattle.pg_config.specs.Parts.{Part, IsPart, IsSource, part_with, size_by_counts, is_reserved, repeats};
ghost use Rattle.pg_config.specs.Reading.{ReadsAs, base_at, rate_at, count_at, block_at, blocks_at, frame_blocks, config_of, kind_at};
ghost use Rattle.pg_config.specs.Looking.{Blocks, Skims, Holds, Checks};
ghost use Rattle.pg_config.specs.Spelling.{SpellsConfig};
ghost use Rattle.pg_config.specs.declared.source.Announced.{Announced};

use crate::source::{Announced, PmuConfig, SourceConfig};
use pg_wire::{Kind, PmuId, Refusal};
use std::alloc::{AllocError, Global};
use std::sync::Arc;

/// The most blocks of a frame.
const MOST_BLOCKS: usize = 16;

/// The most bytes of a block.
const LONGEST_BLOCK: usize = 2000;

/// The resolution's part of TIME_BASE.
const RESOLUTIONS: u32 = 0x0100_0000;

/// The number of two bytes.
fn number_at(bytes: &[u8], i: usize) -> u16
    requires { i + 2 ≤ length bytes.now }
    ensures { result ≡ two_at bytes.now i }
{
    256 * u16::from(bytes[i]) + u16::from(bytes[i + 1])
}

/// The resolution of a frame.
fn base_of(frame: &[u8]) -> u32
    requires { 24 ≤ length frame.now }
    ensures { result ≡ base_at frame.now }
{
    u32::from_be_bytes([frame[14], frame[15], frame[16], frame[17]]) % RESOLUTIONS
}

/// The rate of a frame.
fn rate_of(frame: &[u8]) -> i16
    requires { 24 ≤ length frame.now }
    ensures { result ≡ rate_at frame.now }
{
    let end = frame.len() - 4;
    i16::from_be_bytes([frame[end], frame[end + 1]])
}

/// How many blocks a frame says that it has.
#[tactic(auto, unfolding(crate::specs::Reading::count_at))]
fn count_of(frame: &[u8]) -> Result<u16, Refusal>
    requires { 16 ≤ length frame.now }
    ensures exact { result ≡ count_at frame.now }
    ensures room { IfOk result (λ count. (24 ≤ length frame.now) × (0 < base_at frame.now) × (0 < count) × (count ≤ 16)) }
{
    if frame[1] / 16 != 2 && frame[1] / 16 != 3 {
        return Err(Refusal::WrongType);
    }
    if frame.len() < 24 {
        return Err(Refusal::BadLength);
    }
    if base_of(frame) == 0 {
        return Err(Refusal::BadTimeBase);
    }
    let count = number_at(frame, 18);
    if count == 0 || count > 16 {
        return Err(Refusal::BadCounts);
    }
    Ok(count)
}

/// How many bytes a block has by its counts.
fn block_size(bytes: &[u8]) -> usize
    requires { 26 ≤ length bytes.now }
    ensures { result ≡ size_by_counts bytes.now }
{
    30 + 20 * usize::from(number_at(bytes, 20))
        + 20 * usize::from(number_at(bytes, 22))
        + 260 * usize::from(number_at(bytes, 24))
}

/// A block at the front of what is left of a frame, and what is left behind it.
#[tactic(auto, unfolding(crate::specs::Reading::block_at))]
fn block_of(bytes: &[u8]) -> Result<(&[u8], &[u8]), Refusal>
    ensures { Blocks result (block_at bytes.now) }
{
    if bytes.len() < 34 {
        return Err(Refusal::BadLength);
    }
    if number_at(bytes, 18) / 2 % 8 != 0 {
        return Err(Refusal::FloatFormat);
    }
    let size = block_size(bytes);
    if size > LONGEST_BLOCK {
        return Err(Refusal::ConfigTooLarge);
    }
    if bytes.len() < size + 4 {
        return Err(Refusal::BadLength);
    }
    Ok(bytes.split_at(size))
}

/// The IDCODEs of that many blocks, and what is left behind them.
fn skim(count: u16, bytes: &[u8]) -> Result<([u16; 16], &[u8]), Refusal>
    requires { count ≤ 16 }
    ensures exact { Skims count result (blocks_at count bytes.now) }
    ensures sized { IfOk result (λ x. length x.0 ≡ 16) }
{
    let mut ids = [0; MOST_BLOCKS];
    let mut rest = bytes;
    for i in 0..count {
        let (block, after) = block_of(rest)?;
        ids[usize::from(i)] = number_at(block, 16);
        rest = after;
    }
    Ok((ids, rest))
}

/// Whether a number stands twice.
fn has_twice(ids: &[u16]) -> bool
    ensures { result ≡ repeats ids.now }
{
    for i in 0..ids.len() {
        if ids[i + 1..].contains(&ids[i]) {
            return true;
        }
    }
    false
}

/// Whether an IDCODE is none of a source or PMU.
fn is_reserved_id(id: u16) -> bool
    ensures { result ≡ is_reserved id }
{
    id == 0 || id == u16::MAX
}

/// Whether one of these is reserved.
fn has_reserved(ids: &[u16]) -> bool
    ensures { result ≡ list_any is_reserved ids.now }
{
    for id in ids {
        if is_reserved_id(*id) {
            return true;
        }
    }
    false
}

/// A block with the resolution and rate of its frame.
fn part_of(alloc: Global, frame: &[u8], block: &[u8]) -> Result<Arc<PmuConfig>, AllocError>
    requires long { 24 ≤ length frame.now }
    requires part { IsPart (part_with (base_at frame.now) (rate_at frame.now) block.now) }
    ensures { IfOk result (λ part. arc_value part ≡ part_with (base_at frame.now) (rate_at frame.now) block.now) }
{
    let part = PmuConfig {
        base: base_of(frame),
        rate: rate_of(frame),
        phasors: number_at(block, 20),
        analogs: number_at(block, 22),
        digitals: number_at(block, 24),
        block: Vec::from_slice(alloc, block)?,
    };
    Ok(Arc::new(alloc, part)?)
}

/// The blocks, which are known to be there.
fn parts_of(
    alloc: Global,
    frame: &[u8],
    count: u16,
    bytes: &[u8],
) -> Result<Vec<Arc<PmuConfig>>, Refusal>
    requires long { 24 ≤ length frame.now }
    requires there { Holds frame.now count bytes.now }
    ensures read { IfOk result (λ parts. (blocks : List (List ℕ)) (rest : List ℕ) → blocks_at count bytes.now ≡ Ok (blocks, rest)
        → map arc_value parts.items ≡ map (part_with (base_at frame.now) (rate_at frame.now)) blocks) }
    ensures memory { IfErr result (λ refusal. refusal ≡ Refusal.NoMemory) }
{
    let mut parts = Vec::with_capacity(alloc, usize::from(count))?;
    let mut rest = bytes;
    for _ in 0..count {
        let (block, after) = block_of(rest)?;
        parts.push(part_of(alloc, frame, block)?)?;
        rest = after;
    }
    Ok(parts)
}

/// Looks at the whole frame, and says whose it is and how many blocks it has.
fn checked(frame: &[u8]) -> Result<(PmuId, u16), Refusal>
    requires { 16 ≤ length frame.now }
    ensures exact { Checks frame.now result (frame_blocks frame.now) }
    ensures room { IfOk result (λ x. (24 ≤ length frame.now) × (0 < base_at frame.now) × (0 < x.1) × (x.1 ≤ 16)) }
{
    let count = count_of(frame)?;
    let (_, bytes) = frame.split_at(20);
    let (ids, rest) = skim(count, bytes)?;
    if rest.len() != 4 {
        return Err(Refusal::BadLength);
    }
    let (ids, _) = ids.split_at(usize::from(count));
    if has_twice(ids) {
        return Err(Refusal::DuplicatePmu);
    }
    let Some(source) = PmuId::new(number_at(frame, 4)) else {
        return Err(Refusal::WrongId);
    };
    if has_reserved(ids) {
        return Err(Refusal::WrongId);
    }
    Ok((source, count))
}

/// Which of the two configuration frames it is.
fn kind_of(frame: &[u8]) -> Kind
    requires { 16 ≤ length frame.now }
    ensures { result ≡ kind_at frame.now }
{
    if frame[1] / 16 == 2 {
        Kind::CfgOne
    } else {
        Kind::CfgTwo
    }
}

/// The configuration that a frame announces, once it was looked at.
fn config_in(alloc: Global, frame: &[u8]) -> Result<Announced, Refusal>
    requires { 16 ≤ length frame.now }
    ensures exact { ReadsAs result (config_of frame.now) }
    ensures kept { IfOk result (λ a. IsSource a.config) }
{
    let (source, count) = checked(frame)?;
    let (_, bytes) = frame.split_at(20);
    let parts = parts_of(alloc, frame, count, bytes)?;
    let config = SourceConfig::new(alloc, source, parts)?;
    Ok(Announced {
        kind: kind_of(frame),
        config,
    })
}

/// Reads the configuration that a source announces in CFG-1 or CFG-2 (C37.118.2, 6.4). It asks for a frame, of which `is_frame` holds.
///
/// The first of these refusals that applies is answered: `WrongType` for another kind of frame; `BadLength` under 24 bytes;
/// `BadTimeBase` for a resolution of 0; `BadCounts` for a NUM_PMU of 0 or above 16; per block `BadLength` where fewer than 34 bytes
/// of the frame are left, `FloatFormat` where FORMAT has bit 1, 2 or 3 set, `ConfigTooLarge` for a block above 2,000 bytes, `BadLength` where
/// fewer bytes are left than the block and 4 more; then `BadLength` where bytes are left over, `DuplicatePmu` for two blocks of one
/// IDCODE, `WrongId` for an IDCODE of 0 or 65535, the frame's or a block's, and `NoMemory` last.
pub fn read_config(alloc: Global, frame: &[u8]) -> Result<Announced, Refusal>
    requires { IsFrame frame.now }
    // Which value or refusal it is, the first that applies. Want of memory comes last.
    ensures exact { ReadsAs result (config_of frame.now) }
    // What is read is spelled so, and keeps the limits.
    ensures found { IfOk result (SpellsConfig frame.now) }
    ensures kept { IfOk result (λ a. IsSource a.config) }
    // What is spelled so and keeps the limits is read, or there was no memory.
    ensures only { (a : Announced) → SpellsConfig frame.now a → IsSource a.config
        → (result ≡ Ok a) ⊎ (result ≡ Err Refusal.NoMemory) }
{
    config_in(alloc, frame)
}

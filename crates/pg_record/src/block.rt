//! A block: records of one worker, one behind the other, behind a head that says whose they are and how many bytes they have.

ghost use Rattle.std.specs.Prelude.{◌≡◌, option_map};
ghost use Rattle.pg_record.specs.Blocks.{head_bytes, head_in};

use crate::checksum::sum;
use crate::numbers::{eight, four, two};

/// How many bytes a block has before its records.
pub const BLOCK_HEAD: usize = 30;

/// The number of a block that is no worker's, at the head of a file. Its records set a replay up, at the places of their calls, and what follows
/// begins behind the highest of them. That of the first file is empty.
pub const PRELUDE: u16 = 65_535;

/// What a block begins with, in ASCII: the name of the format, with its version, "pdcgrec1".
const MAGIC: u64 = 0x7064_6367_7265_6331;

/// The head of a block.
#[derive(Clone, Copy, PartialEq, Eq)]
pub struct BlockHead {
    /// The worker.
    pub worker: u16,
    /// How many bytes its records have.
    pub size: u32,
    /// When it was begun: milliseconds since 1970-01-01 00:00 UTC.
    pub start: u64,
    /// The sum over its records.
    pub sum: u64,
}

/// What bytes begin with.
#[derive(Clone, Copy)]
pub enum FoundBlock<'a> {
    /// A whole block: its head, its records, and the bytes behind it.
    Whole(BlockHead, &'a [u8], &'a [u8]),
    /// A block whose sum is not that of its records: its head, and the bytes behind it.
    Changed(BlockHead, &'a [u8]),
    /// The first bytes of a block, or none.
    Part,
    /// Bytes that begin no block.
    Other,
}

/// The head of a block as bytes.
pub fn block_head(head: &BlockHead) -> [u8; BLOCK_HEAD]
    ensures { result ≡ head_bytes head.now }
{
    let [m_0, m_1, m_2, m_3, m_4, m_5, m_6, m_7] = MAGIC.to_be_bytes();
    let [worker_high, worker_low] = head.worker.to_be_bytes();
    let [size_0, size_1, size_2, size_3] = head.size.to_be_bytes();
    let [t_0, t_1, t_2, t_3, t_4, t_5, t_6, t_7] = head.start.to_be_bytes();
    let [s_0, s_1, s_2, s_3, s_4, s_5, s_6, s_7] = head.sum.to_be_bytes();
    [
        m_0,
        m_1,
        m_2,
        m_3,
        m_4,
        m_5,
        m_6,
        m_7,
        worker_high,
        worker_low,
        size_0,
        size_1,
        size_2,
        size_3,
        t_0,
        t_1,
        t_2,
        t_3,
        t_4,
        t_5,
        t_6,
        t_7,
        s_0,
        s_1,
        s_2,
        s_3,
        s_4,
        s_5,
        s_6,
        s_7,
    ]
}

/// The head with which these bytes begin, and what stands behind it. None where they begin with no whole head.
pub fn read_block_head(bytes: &[u8]) -> Option<(BlockHead, &[u8])>
    ensures exact { option_map (λ h. (h.0, h.1.now)) result ≡ head_in bytes.now }
{
    let (magic, rest) = eight(bytes)?;
    if magic != MAGIC {
        return None;
    }
    let (worker, rest) = two(rest)?;
    let (size, rest) = four(rest)?;
    let (start, rest) = eight(rest)?;
    let (sum, rest) = eight(rest)?;
    let head = BlockHead {
        worker,
        size,
        start,
        sum,
    };
    Some((head, rest))
}

/// What these bytes begin with.
pub fn next_block(bytes: &[u8]) -> FoundBlock<'_> {
    let Some((head, rest)) = read_block_head(bytes) else {
        return without_head(bytes);
    };
    let Some((records, rest)) = rest.split_at_checked(head.size as usize) else {
        return FoundBlock::Part;
    };
    if sum(records) == head.sum {
        FoundBlock::Whole(head, records, rest)
    } else {
        FoundBlock::Changed(head, rest)
    }
}

/// What bytes begin with that begin with no whole head.
fn without_head(bytes: &[u8]) -> FoundBlock<'_> {
    match eight(bytes) {
        Some((magic, _)) if magic != MAGIC => FoundBlock::Other,
        _ => FoundBlock::Part,
    }
}

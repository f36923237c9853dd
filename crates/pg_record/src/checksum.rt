//! The sum over the bytes of a block, or of what a drain handed out.
//!
//! It is no CRC as CHK is: the remainder of a whole frame with its CHK is the same for each frame.

ghost use Rattle.std.specs.Prelude.{◌≡◌};
ghost use Rattle.pg_record.specs.Checksums.{with_number, sum_of, short_sum_of};

/// The start, and the factor (FNV-1a with 64 bits).
const START: u64 = 0xcbf2_9ce4_8422_2325;

const FACTOR: u64 = 0x0000_0100_0000_01b3;

/// How many bytes are taken at a time.
const CHUNK: usize = 8;

/// FNV-1a over the numbers that eight bytes each are, the lowest byte first, and then over each byte that is left.
pub fn sum(bytes: &[u8]) -> u64
    ensures { result ≡ sum_of bytes.now }
{
    let (chunks, rest) = bytes.as_chunks::<CHUNK>();
    let mut sum = START;
    for chunk in chunks {
        sum = with_number(sum, u64::from_le_bytes(*chunk));
    }
    for byte in rest {
        sum = with_number(sum, u64::from(*byte));
    }
    sum
}

/// The sum over one number more.
#[inline(always)]
fn with_number(sum: u64, number: u64) -> u64
    ensures { result ≡ with_number sum number }
{
    (sum ^ number).wrapping_mul(FACTOR)
}

/// Both halves of the same in 32 bits, for what a drain handed out. (The low half alone has nothing of the last four of eight bytes.)
pub fn short_sum(bytes: &[u8]) -> u32
    ensures { result ≡ short_sum_of bytes.now }
{
    let sum = sum(bytes);
    ((sum ^ (sum >> 32)) & 0xFFFF_FFFF) as u32
}

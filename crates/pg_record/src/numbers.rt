//! Numbers at the start of bytes, the highest byte first.

ghost use Rattle.std.specs.Prelude.{◌≡◌, option_map};
ghost use Rattle.pg_record.specs.Numbers.{eight_in, four_in, one_in, two_in};

/// The number of the first byte, and what stands behind it.
pub fn one(bytes: &[u8]) -> Option<(u8, &[u8])>
    ensures { option_map (λ n. (n.0, n.1.now)) result ≡ one_in bytes.now }
{
    let (number, rest) = bytes.split_first()?;
    Some((*number, rest))
}

/// The number of the first two bytes, and what stands behind them.
pub fn two(bytes: &[u8]) -> Option<(u16, &[u8])>
    ensures { option_map (λ n. (n.0, n.1.now)) result ≡ two_in bytes.now }
{
    let (number, rest) = bytes.split_first_chunk::<2>()?;
    Some((u16::from_be_bytes(*number), rest))
}

/// The number of the first four bytes, and what stands behind them.
pub fn four(bytes: &[u8]) -> Option<(u32, &[u8])>
    ensures { option_map (λ n. (n.0, n.1.now)) result ≡ four_in bytes.now }
{
    let (number, rest) = bytes.split_first_chunk::<4>()?;
    Some((u32::from_be_bytes(*number), rest))
}

/// The number of the first eight bytes, and what stands behind them.
pub fn eight(bytes: &[u8]) -> Option<(u64, &[u8])>
    ensures { option_map (λ n. (n.0, n.1.now)) result ≡ eight_in bytes.now }
{
    let (number, rest) = bytes.split_first_chunk::<8>()?;
    Some((u64::from_be_bytes(*number), rest))
}

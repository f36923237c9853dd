//! The words of lines and of the setup file: numbers, keys of PMUs, hexadecimal.
//!
//! Each reader answers `None`, or `BadLine`, for a word that is not of its form.

ghost use Rattle.std.specs.Prelude.{◌≡◌, ◌≤◌, ◌⊎◌, ◌<◌, codes, IfOk, IfErr, IfSome, Some, None, option_map, true};
ghost use Rattle.std.specs.List.{list_all};
ghost use Rattle.std.specs.Char.{is_ascii_digit};
ghost use Rattle.std.specs.Str.Parse.{digits_value};
ghost use Rattle.pg_lines.specs.Words.{is_number, number_in, halves, pmu_id_in, stream_id_in, subscriber_in, ring_size_in, ring_bytes_in, pair_in, key_in, hex_in, ends_in_plus, frame_in};

use hex::FromHexError;
use pg_ring::{RingBytes, RingSize};
use pg_wire::{PmuId, PmuKey, Refusal, StreamId, SubId};
use std::alloc::Global;

/// A number from `least` to `most`: `0`, or one to ten decimal digits without a leading zero or a sign.
pub fn number(word: &str, least: u32, most: u32) -> Option<u32>
    ensures value { result ≡ number_in least most word.now }
    ensures least { IfSome result (λ n. least ≤ n) }
    ensures most { IfSome result (λ n. n ≤ most) }
{
    if !is_number(word.as_bytes()) {
        return None;
    }
    let value = value_of(word);
    if u64::from(least) <= value && value <= u64::from(most) {
        Some(value as u32)
    } else {
        None
    }
}

/// `0`, or one to ten digits of which the first is no zero.
fn is_number(digits: &[u8]) -> bool
    ensures { result ≡ is_number digits.now }
{
    if digits.is_empty() || digits.len() > 10 {
        return false;
    }
    if digits[0] == b'0' && digits.len() > 1 {
        return false;
    }
    all_digits(digits)
}

fn all_digits(digits: &[u8]) -> bool
    ensures { result ≡ list_all is_ascii_digit digits.now }
{
    digits.iter().all(|byte| byte.is_ascii_digit())
}

/// The value of the digits.
fn value_of(word: &str) -> u64
    requires { is_number word.now ≡ true }
    ensures { result ≡ digits_value 10 word.now }
{
    word.parse::<u64>().unwrap()
}

/// The number of a source, or of a PMU in it: 1 to 65534.
pub fn pmu_id(word: &str) -> Option<PmuId>
    ensures value { result ≡ pmu_id_in word.now }
{
    PmuId::new(number(word, 1, 65534)? as u16)
}

/// The number of a stream: 1 to 65534.
pub fn stream_id(word: &str) -> Option<StreamId>
    ensures value { result ≡ stream_id_in word.now }
{
    StreamId::new(number(word, 1, 65534)? as u16)
}

/// The number of a subscriber: 1 to 65535.
pub fn subscriber(word: &str) -> Option<SubId>
    ensures value { result ≡ subscriber_in word.now }
{
    SubId::new(number(word, 1, 65535)? as u16)
}

/// How many data frames a ring holds: 1 to 1024.
pub fn ring_size(word: &str) -> Option<RingSize>
    ensures value { result ≡ ring_size_in word.now }
{
    RingSize::new(number(word, 1, 1024)? as u16)
}

/// How many bytes of data frames a ring holds: 16 to 16777216.
pub fn ring_bytes(word: &str) -> Option<RingBytes>
    ensures value { result ≡ ring_bytes_in word.now }
{
    RingBytes::new(number(word, 16, 16_777_216)?)
}

/// What stands before the first such character of the word, and what after it.
pub fn halves(word: &str, at: char) -> Option<(&str, &str)>
    requires { at < 128 }
    ensures { option_map (λ p. (p.0.now, p.1.now)) result ≡ halves at word.now }
{
    word.split_once(at)
}

/// A key `S/P`: the number of the source and that of the PMU in it.
pub fn pair(word: &str) -> Option<PmuKey>
    ensures value { result ≡ pair_in word.now }
{
    let (source, pmu) = halves(word, '/')?;
    Some(PmuKey {
        source: pmu_id(source)?,
        pmu: pmu_id(pmu)?,
    })
}

/// A key: `S/P`, or a number `P` alone, which is `P/P`.
pub fn key(word: &str) -> Option<PmuKey>
    ensures value { result ≡ key_in word.now }
{
    if halves(word, '/').is_some() {
        return pair(word);
    }
    let pmu = pmu_id(word)?;
    Some(PmuKey { source: pmu, pmu })
}

/// Bytes: an even number of hexadecimal digits, at least two, of either case.
///
/// # Errors
///
/// `BadLine` where the word is none; `NoMemory`.
pub fn hex_bytes(alloc: Global, word: &[u8]) -> Result<Vec<u8>, Refusal>
    ensures value { IfOk result (λ bytes. hex_in word.now ≡ Some bytes.items) }
    ensures refused { IfErr result (λ r. (r ≡ Refusal.NoMemory) ⊎ ((r ≡ Refusal.BadLine) × (hex_in word.now ≡ None))) }
{
    if word.is_empty() {
        return Err(Refusal::BadLine);
    }
    match hex::decode(alloc, word) {
        Ok(bytes) => Ok(bytes),
        Err(FromHexError::OutOfMemory) => Err(Refusal::NoMemory),
        Err(_) => Err(Refusal::BadLine),
    }
}

/// The bytes of a frame in hexadecimal, as `hex_bytes` reads them; with `+` at the end of the word the CHK of these
/// bytes (C37.118.2, 6.2) follows them.
///
/// # Errors
///
/// `BadLine` where the word is none; `NoMemory`.
pub fn frame_bytes(alloc: Global, word: &[u8]) -> Result<Vec<u8>, Refusal>
    ensures value { IfOk result (λ bytes. frame_in word.now ≡ Some bytes.items) }
    ensures refused { IfErr result (λ r. (r ≡ Refusal.NoMemory) ⊎ ((r ≡ Refusal.BadLine) × (frame_in word.now ≡ None))) }
{
    if word.is_empty() || !ends_in_plus(word) {
        return hex_bytes(alloc, word);
    }
    let mut bytes = match hex_bytes(alloc, &word[..word.len() - 1]) {
        Ok(bytes) => bytes,
        Err(refusal) => return Err(refusal),
    };
    let sum = pg_wire::check(bytes.as_slice());
    bytes.extend_from_slice(&sum.to_be_bytes())?;
    Ok(bytes)
}

/// Whether a plus ends the word.
fn ends_in_plus(word: &[u8]) -> bool
    ensures { result ≡ ends_in_plus word.now }
{
    match word.last() {
        Some(byte) => *byte == b'+',
        None => false,
    }
}

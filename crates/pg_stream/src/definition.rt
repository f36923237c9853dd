//! What defines a stream, and within which limits.
ghost use Rattle.std.specs.Prelude.{◌≡◌, ◌≢◌, ◌↔◌, ◌<◌, ◌≤◌, IsTrue, IsOk, IfErr, All, AllPairs};
ghost use Rattle.pg_stream.specs.Limits.{IsWithinLimits, HasNumbers, HasText, HasMembers, answer_to};

use crate::lists::{HeaderText, Members};
use pg_wire::{PmuKey, Refusal, StreamId};

/// What defines an output stream of a subscriber. Its numbers may be any of their types:
/// `check_definition` says whether they are within the limits.
#[derive(Drop)]
pub struct Definition {
    /// The stream's number: the IDCODE of its frames and of the commands to it (C37.118.2, 6.2), 1 to 65534.
    pub stream: StreamId,
    /// Slots, and so at most data frames, a second: 1 to 120. CFG-1 and CFG-2 carry it as DATA_RATE (C37.118.2, 6.4).
    pub rate: u8,
    /// The resolution of its stamps, in parts of a second: from the rate to 2^24 - 1. CFG-1 and CFG-2 carry it as
    /// TIME_BASE (C37.118.2, 6.4).
    pub base: u32,
    /// How many ticks a slot waits, from its first arrival on, for those that have not come: 0 to 60,000.
    pub wait: u32,
    /// How many slots may be open at once: 1 to 64.
    pub window: u32,
    /// The text of its header frame (C37.118.2, 6.5): at most 1,024 bytes, each at most 127.
    pub header: HeaderText,
    /// The PMUs whose blocks its frames have, in their order: 1 to 32, no two the same. They need not be registered
    /// or granted.
    pub members: Members,
}

/// Whether a stream may be defined so: `Ok` exactly where the definition is within every limit.
///
/// # Errors
///
/// `BadDefinition` exactly where it is past one.
pub fn check_definition(definition: &Definition) -> Result<(), Refusal>
    ensures taken { IsOk result ↔ IsWithinLimits definition.now }
    ensures refused { IfErr result (λ refusal. refusal ≡ Refusal.BadDefinition) }
    ensures exact { result ≡ answer_to definition.now }
{
    if is_within_limits(definition) {
        Ok(())
    } else {
        Err(Refusal::BadDefinition)
    }
}

/// Whether a definition is within every limit.
fn is_within_limits(definition: &Definition) -> bool
    ensures { IsTrue result ↔ IsWithinLimits definition.now }
{
    has_numbers(definition)
        && has_text(definition.header.as_slice())
        && has_members(definition.members.as_slice())
}

/// The greatest rate.
const RATE_LIMIT: u8 = 120;

/// The greatest resolution: TIME_BASE has 24 bits for it.
const BASE_LIMIT: u32 = (1 << 24) - 1;

/// The greatest window.
const WINDOW_LIMIT: u32 = 64;

/// The longest wait, in ticks.
const WAIT_LIMIT: u32 = 60_000;

/// The longest text of a header, in bytes.
const TEXT_LIMIT: usize = 1024;

/// The most members of a stream.
const MEMBER_LIMIT: usize = 32;

/// Whether rate, resolution, window and wait are within their limits.
fn has_numbers(definition: &Definition) -> bool
    ensures { IsTrue result ↔ HasNumbers definition.now }
{
    1 <= definition.rate
        && definition.rate <= RATE_LIMIT
        && u32::from(definition.rate) <= definition.base
        && definition.base <= BASE_LIMIT
        && 1 <= definition.window
        && definition.window <= WINDOW_LIMIT
        && definition.wait <= WAIT_LIMIT
}

/// Whether a text may be a header's.
fn has_text(bytes: &[u8]) -> bool
    ensures { IsTrue result ↔ HasText bytes.now }
{
    bytes.len() <= TEXT_LIMIT && bytes.iter().all(|byte| *byte <= 127)
}

/// Whether a stream may have these members.
fn has_members(keys: &[PmuKey]) -> bool
    ensures { IsTrue result ↔ HasMembers keys.now }
{
    1 <= keys.len() && keys.len() <= MEMBER_LIMIT && are_distinct(keys)
}

/// Whether no key stands there twice. At most 32 keys come here, so each is looked for among those before it.
fn are_distinct(keys: &[PmuKey]) -> bool
    ensures { IsTrue result ↔ AllPairs (λ a b. a ≢ b) keys.now }
{
    for (i, key) in keys.iter().enumerate() {
        if keys[..i].contains(key) {
            return false;
        }
    }
    true
}

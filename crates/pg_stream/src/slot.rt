//! Slots and stamps (SOC and FRACSEC are those of C37.118.2, 6.2).
//!
//! A stream of a rate has so many slots in each second, the first of them on the second itself, and they are counted
//! from 1970-01-01 00:00 UTC. A time goes to the nearest slot, and of two equally near to the later.
ghost use Rattle.std.specs.Prelude.{◌≡◌, ℕ, ◌+◌, ◌/◌, ◌^◌, ◌<◌, ◌≤◌, ◌↔◌, IfOk, Ok, Err};
ghost use Rattle.pg_stream.specs.Slots.{IsSlot, IsStamp, slot_at, stamp_at};

use pg_wire::Refusal;

/// The slot of the time `soc + frac / base`, in a stream of `rate` slots a second: `soc` in seconds since
/// 1970-01-01 00:00 UTC, `frac` the numerator in the low 24 bits of FRACSEC (C37.118.2, 6.2), `base` the resolution in
/// the TIME_BASE of the source. The rate is 1 to 120.
///
/// # Errors
///
/// First, `BadFraction` where the numerator is not below the resolution; then `TimeEnd` where the slot lies in a second
/// past 2^32 - 1, which no SOC can say.
pub fn slot_of(rate: u8, base: u32, soc: u32, frac: u32) -> Result<u64, Refusal>
    requires rate { (1 ≤ rate) × (rate ≤ 120) }
    ensures slot { IfOk result (IsSlot rate base soc frac) }
    ensures only { (slot : ℕ) → frac < base → IsSlot rate base soc frac slot → slot / rate < 2 ^ 32
        → result ≡ Ok slot }
    ensures time { IfOk result (λ slot. slot / rate < 2 ^ 32) }
    ensures fraction { (result ≡ Err Refusal.BadFraction) ↔ (base ≤ frac) }
    ensures time_end { (result ≡ Err Refusal.TimeEnd)
        ↔ ((frac < base) × ((slot : ℕ) × IsSlot rate base soc frac slot × (2 ^ 32 ≤ slot / rate))) }
    ensures exact { result ≡ slot_at rate base soc frac }
{
    if frac >= base {
        return Err(Refusal::BadFraction);
    }
    let rate = u64::from(rate);
    let base = u64::from(base);
    let place = (2 * u64::from(frac) * rate + base) / (2 * base);
    let slot = u64::from(soc) * rate + place;
    if slot / rate > u64::from(u32::MAX) {
        return Err(Refusal::TimeEnd);
    }
    Ok(slot)
}

/// The stamp of a slot, in a stream of `rate` slots a second whose resolution is `base`: the SOC in seconds
/// since 1970-01-01 00:00 UTC, and the numerator for the low 24 bits of FRACSEC (C37.118.2, 6.2), which is below the
/// resolution. The rate is 1 to 120, the resolution from the rate to 2^24 - 1, and the slot's second at most 2^32 - 1.
pub fn stamp_of(rate: u8, base: u32, slot: u64) -> (u32, u32)
    requires rate { (1 ≤ rate) × (rate ≤ 120) }
    requires base { (rate ≤ base) × (base < 2 ^ 24) }
    requires time { slot / rate < 2 ^ 32 }
    ensures stamp { IsStamp rate base slot result.0 result.1 }
    ensures only { (soc numerator : ℕ) → IsStamp rate base slot soc numerator → result ≡ (soc, numerator) }
    ensures inside { result.1 < base }
    ensures exact { result ≡ stamp_at rate base slot }
{
    let rate = u64::from(rate);
    let index = slot % rate;
    let numerator = (2 * index * u64::from(base) + rate) / (2 * rate);
    ((slot / rate) as u32, numerator as u32)
}

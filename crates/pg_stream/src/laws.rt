//! Laws of slots, stamps and limits, as contracts of functions that do nothing: a caller that needs one calls it.
ghost use Rattle.std.specs.Prelude.{◌≡◌, ℕ, ◌/◌, ◌^◌, ◌<◌, ◌≤◌, ◌↔◌, IsTrue, Ok};
ghost use Rattle.pg_stream.specs.declared.definition.Definition.{Definition};
ghost use Rattle.pg_stream.specs.Limits.{IsWithinLimits, is_within_limits};
ghost use Rattle.pg_stream.specs.Slots.{IsSlot, IsStamp, IsBefore, slot_at, stamp_at};

/// The test of the limits says exactly whether they are kept.
pub fn limits_are_tested()
    ensures tested { (definition : Definition) → IsTrue (is_within_limits definition) ↔ IsWithinLimits definition }
{}

/// A time lies in one slot only.
pub fn one_slot()
    ensures same { (rate base soc frac slot other : ℕ) → IsSlot rate base soc frac slot
        → IsSlot rate base soc frac other → slot ≡ other }
{}

/// A slot has one stamp only.
pub fn one_stamp()
    ensures same { (rate base slot soc numerator other_soc other : ℕ) → IsStamp rate base slot soc numerator
        → IsStamp rate base slot other_soc other → (soc ≡ other_soc) × (numerator ≡ other) }
{}

/// A stamp's numerator is below the resolution, where that is at least the rate.
pub fn stamp_in_second()
    ensures inside { (rate base slot soc numerator : ℕ) → 0 < rate → rate ≤ base
        → IsStamp rate base slot soc numerator → numerator < base }
{}

/// The slot of a slot's stamp is that slot, at the stream's own resolution, where that is at least the rate.
pub fn stamp_keeps_slot()
    ensures slot { (rate base slot soc numerator : ℕ) → 0 < rate → rate ≤ base
        → IsStamp rate base slot soc numerator → IsSlot rate base soc numerator slot }
    // In the words of `slot_of` and `stamp_of`.
    ensures exact { (rate base slot : ℕ) → 0 < rate → rate ≤ base → slot / rate < 2 ^ 32
        → slot_at rate base (stamp_at rate base slot).0 (stamp_at rate base slot).1 ≡ Ok slot }
{}

/// A later slot has a later stamp, at a resolution that is at least the rate: stamps rise strictly with slots.
pub fn stamps_rise()
    ensures rise { (rate base slot later soc numerator later_soc later_numerator : ℕ) → 0 < rate → rate ≤ base
        → slot < later → IsStamp rate base slot soc numerator → IsStamp rate base later later_soc later_numerator
        → IsBefore (soc, numerator) (later_soc, later_numerator) }
{}

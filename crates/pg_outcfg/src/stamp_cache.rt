//! The slot and the stamp that were found last.
ghost use Rattle.std.specs.Prelude.{◌≡◌, ◌≢◌, ◌/◌, ◌^◌, ◌<◌, ◌≤◌, ◌++◌, ℕ, List, length, IfOk, Ok};
ghost use Rattle.pg_wire.specs.Check.{dividend, dividend_from, IsRemainder};
ghost use Rattle.pg_stream.specs.Slots.{slot_at, stamp_at};
ghost use Rattle.pg_outcfg.specs.HeadPrefixes.{no_stamp};
ghost use Rattle.pg_outcfg.specs.Stamped.{stamp_bytes};

use pg_stream::{slot_of, stamp_of};
use pg_wire::{Refusal, check_alone};
use std::marker::Model;

/// The stamp in a frame's head: SOC and FRACSEC, its last eight bytes (C37.118.2, 6.2), with what these add to a check.
#[derive(Drop)]
pub(crate) struct Stamp {
    bytes: [u8; 8],
    alone: u16,
}

impl Model for Stamp {
    ghost use Rattle.std.specs.Prelude.{ℕ, List};
    ghost use Rattle.pg_wire.specs.Check.{dividend_from, IsRemainder};

    ghost Value = { List ℕ };

    ghost view = { λ s. s.bytes };

    ghost invariant = { λ s. IsRemainder (dividend_from 0 s.bytes) s.alone };
}

impl Stamp {
    /// Of this second, this numerator of its fraction, and this time quality.
    pub(crate) fn new(soc: u32, frac: u32, quality: u8) -> Stamp
        requires frac { frac < 2 ^ 24 }
        ensures bytes { result ≡ stamp_bytes (soc, frac) quality }
    {
        let [soc_0, soc_1, soc_2, soc_3] = soc.to_be_bytes();
        let [frac_0, frac_1, frac_2, frac_3] = (u32::from(quality) * 0x0100_0000
            + frac).to_be_bytes();
        let bytes = [soc_0, soc_1, soc_2, soc_3, frac_0, frac_1, frac_2, frac_3];
        Stamp {
            bytes,
            alone: check_alone(&bytes),
        }
    }

    /// Its bytes.
    #[inline(always)]
    pub(crate) fn bytes(&self) -> &[u8; 8]
        ensures { result.now ≡ self.now }
    {
        &self.bytes
    }

    /// The check of a head that it ends, by what it adds: `check` is that of the head with zeros in its place.
    #[inline(always)]
    pub(crate) fn check_behind(&self, check: u16) -> u16
        ensures { (front : List ℕ) → IsRemainder (dividend (front ++ no_stamp)) check → IsRemainder (dividend (front ++ self.now)) result }
    {
        check_of(check, &self.bytes, self.alone)
    }
}

/// The same, where `alone` is what the stamp adds.
#[inline(always)]
fn check_of(check: u16, stamp: &[u8], alone: u16) -> u16
    requires eight { length stamp.now ≡ 8 }
    requires alone { IsRemainder (dividend_from 0 stamp.now) alone }
    ensures { (front : List ℕ) → IsRemainder (dividend (front ++ no_stamp)) check → IsRemainder (dividend (front ++ stamp.now)) result }
{
    // Only the contract speaks of its bytes.
    let _ = stamp;
    check ^ alone
}

/// The slot of a time and the stamp of a slot, as they were found last. Streams of one rate and one resolution ask for the same ones, one
/// behind another, and then nothing is divided, and the stamp's bytes are not summed again. What it answers is the same whatever was asked
/// before.
#[derive(Drop)]
pub struct StampCache {
    // A rate of 0: nothing was found yet.
    rate: u8,
    base: u32,
    soc: u32,
    frac: u32,
    slot: u64,
    stamp_rate: u8,
    stamp_base: u32,
    stamp_slot: u64,
    quality: u8,
    stamp: Stamp,
    ghost slot_found: { rate ≢ 0 → (slot_at rate base soc frac ≡ Ok slot) × (slot / rate < 2 ^ 32) },
    ghost stamp_found: { stamp_rate ≢ 0 → stamp ≡ stamp_bytes (stamp_at stamp_rate stamp_base stamp_slot) quality },
}

impl StampCache {
    /// Nothing was found yet.
    pub fn new() -> StampCache {
        StampCache {
            rate: 0,
            base: 0,
            soc: 0,
            frac: 0,
            slot: 0,
            stamp_rate: 0,
            stamp_base: 0,
            stamp_slot: 0,
            quality: 0,
            stamp: Stamp::new(0, 0, 0),
        }
    }

    /// The same as `slot_of` of pg_stream: the slot of a time in a stream of this rate.
    #[inline(always)]
    pub fn slot_of(&mut self, rate: u8, base: u32, soc: u32, frac: u32) -> Result<u64, Refusal>
        requires rate { (1 ≤ rate) × (rate ≤ 120) }
        ensures exact { result ≡ slot_at rate base soc frac }
        ensures time { IfOk result (λ slot. slot / rate < 2 ^ 32) }
    {
        if self.soc == soc && self.frac == frac && self.rate == rate && self.base == base {
            return Ok(self.slot);
        }
        let slot = slot_of(rate, base, soc, frac)?;
        self.rate = rate;
        self.base = base;
        self.soc = soc;
        self.frac = frac;
        self.slot = slot;
        Ok(slot)
    }

    /// The stamp that a slot's frame of this time quality carries.
    #[inline(always)]
    pub(crate) fn stamp_of(&mut self, rate: u8, base: u32, slot: u64, quality: u8) -> &Stamp
        requires rate { (1 ≤ rate) × (rate ≤ 120) }
        requires base { (rate ≤ base) × (base < 2 ^ 24) }
        requires time { slot / rate < 2 ^ 32 }
        ensures bytes { result.now ≡ stamp_bytes (stamp_at rate base slot) quality }
    {
        let is_found = self.stamp_slot == slot
            && self.stamp_rate == rate
            && self.stamp_base == base
            && self.quality == quality;
        if !is_found {
            self.find(rate, base, slot, quality);
        }
        &self.stamp
    }

    /// Finds it, where another was found last.
    #[inline(never)]
    fn find(&mut self, rate: u8, base: u32, slot: u64, quality: u8)
        requires rate { (1 ≤ rate) × (rate ≤ 120) }
        requires base { (rate ≤ base) × (base < 2 ^ 24) }
        requires time { slot / rate < 2 ^ 32 }
        ensures found { self.new.stamp ≡ stamp_bytes (stamp_at rate base slot) quality }
    {
        let (soc, frac) = stamp_of(rate, base, slot);
        self.stamp_rate = rate;
        self.stamp_base = base;
        self.stamp_slot = slot;
        self.quality = quality;
        self.stamp = Stamp::new(soc, frac, quality);
    }
}

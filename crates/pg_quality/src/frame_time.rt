//! The time of a data frame, as far as its measures need it.
ghost use Rattle.std.specs.Prelude.{◌≡◌, ◌+◌, ◌-◌, ◌^◌, ◌<◌, ◌≤◌};
ghost use Rattle.pg_quality.specs.Instants.{delay_of, instant_of, millis_of, nearest};

/// SOC and FRACSEC of a data frame (C37.118.2, 6.2).
#[derive(Clone, Copy)]
pub struct FrameTime {
    /// SOC.
    pub soc: u32,
    /// FRACSEC's numerator.
    pub frac: u32,
    /// FRACSEC's top byte, the time quality.
    pub quality: u8,
}

impl FrameTime {
    /// The stamp in whole milliseconds since 1970-01-01 00:00 UTC, with this resolution of FRACSEC.
    #[tactic(auto, using(crate::proofs::Rounding::quotient_at_most))]
    #[inline(always)]
    pub(crate) fn millis(&self, base: u32) -> u64
        requires { 0 < base }
        ensures value { result ≡ millis_of self.now.soc self.now.frac base }
        ensures within { result < 2 ^ 43 }
    {
        u64::from(self.soc) * 1_000 + u64::from(self.frac) * 1_000 / u64::from(base)
    }
}

/// A clock less a stamp, both in milliseconds.
#[inline(always)]
pub(crate) fn delay_of(clock: u64, stamp: u64) -> i64
    requires { stamp < 2 ^ 43 }
    ensures { result ≡ delay_of clock stamp }
{
    let most = i64::MAX.unsigned_abs();
    clock.min(most).cast_signed() - stamp.cast_signed()
}

/// The number of the instant of DATA_RATE that is nearest to a stamp, and of two equally near the later; 0 for DATA_RATE 0.
#[tactic(auto, using(crate::proofs::Rounding::words_fit, crate::proofs::Rounding::time_fits, crate::proofs::Rounding::product_fits, crate::proofs::Rounding::product_fits_turned, crate::proofs::Rounding::product_above, crate::proofs::Rounding::negative_above))]
pub(crate) fn instant_of(rate: i16, soc: u32, frac: u32, base: u32) -> u64
    requires { 0 < base }
    ensures { result ≡ instant_of rate soc frac base }
{
    let base = u64::from(base);
    let soc = u64::from(soc);
    let frac = u64::from(frac);
    let units = u64::from(rate.unsigned_abs());
    if rate < 0 {
        nearest(soc * base + frac, units * base)
    } else {
        soc * units + nearest(frac * units, base)
    }
}

/// The whole number nearest to a fraction, and of two equally near the greater.
#[tactic(auto, using(crate::proofs::Rounding::quotient_at_most))]
fn nearest(numerator: u64, denominator: u64) -> u64
    requires numerator { numerator < 2 ^ 64 - 1 }
    requires above { 0 < denominator }
    requires denominator { denominator < 2 ^ 63 }
    ensures value { result ≡ nearest numerator denominator }
    ensures within { result ≤ numerator + 1 }
{
    let whole = numerator / denominator;
    if 2 * (numerator % denominator) >= denominator {
        whole + 1
    } else {
        whole
    }
}

//! Times, and the slots of a rate.

ghost use Rattle.std.specs.Prelude.{◌≡◌, ◌+◌, ◌-◌, ◌*◌, ◌/◌, ◌%◌, ◌^◌, ◌≤◌, ◌<◌};

use std::io;
use std::io::ErrorKind;
use std::rt::Clock;
use std::time::SystemTime;

/// How many microseconds a second has. It is the resolution of the simulated frames too.
pub const TIME_BASE: u32 = 1_000_000;

/// A number of frames a second: 1 to 120.
#[derive(Clone, Copy)]
pub struct Rate {
    /// The number.
    pub frames: u8,
    ghost least: { 1 ≤ frames },
    ghost most: { frames ≤ 120 },
}

impl Rate {
    /// So many frames a second, if they are 1 to 120.
    pub fn new(frames: u8) -> Option<Rate> {
        if 1 <= frames && frames <= 120 {
            Some(Rate { frames })
        } else {
            None
        }
    }
}

/// A time in UTC: microseconds since 1970-01-01 00:00 UTC.
#[derive(Clone, Copy)]
pub struct UnixTime {
    /// The microseconds.
    pub micros: u64,
}

impl UnixTime {
    /// The instant of a second and a fraction of it in microseconds.
    pub fn new(soc: u32, micros: u32) -> UnixTime
        ensures { result.micros ≡ 1000000 * soc + micros }
    {
        UnixTime {
            micros: 1_000_000 * u64::from(soc) + u64::from(micros),
        }
    }

    /// The time of the clock.
    ///
    /// # Errors
    ///
    /// `Unsupported`, where it can't be read, or is before 1970.
    pub fn now<R: Clock>(rt: &R) -> io::Result<UnixTime> {
        if let Ok(now) = SystemTime::now(rt) {
            if let Ok(since) = now.duration_since(SystemTime::UNIX_EPOCH) {
                if let Ok(micros) = u64::try_from(since.as_micros()) {
                    return Ok(UnixTime { micros });
                }
            }
        }
        Err(io::Error::from(ErrorKind::Unsupported))
    }

    /// SOC: its whole seconds. From 2^32 on they are counted from 0 again, as SOC has 32 bits.
    pub fn soc(self) -> u32
        ensures { result ≡ self.micros / 1000000 % 2 ^ 32 }
    {
        (self.micros / 1_000_000 % 0x1_0000_0000) as u32
    }

    /// The microseconds of its second: 0 to 999,999.
    pub fn fraction(self) -> u32
        ensures value { result ≡ self.micros % 1000000 }
        ensures below { result < 1000000 }
    {
        (self.micros % 1_000_000) as u32
    }

    /// So many milliseconds earlier, not before 1970.
    pub fn earlier(self, millis: u32) -> UnixTime
        ensures { result.micros ≡ self.micros - 1000 * millis }
    {
        UnixTime {
            micros: self.micros.saturating_sub(u64::from(millis) * 1_000),
        }
    }

    /// So many milliseconds later, or earlier where they are negative; not before 1970.
    pub fn shifted(self, millis: i32) -> UnixTime {
        let micros = u64::from(millis.unsigned_abs()) * 1_000;
        UnixTime {
            micros: if millis < 0 {
                self.micros.saturating_sub(micros)
            } else {
                self.micros.saturating_add(micros)
            },
        }
    }

    /// The last slot of this rate that is not after it (own rule: slots are counted from 1970 on, the first of a second is on the
    /// second itself).
    pub fn slot(self, rate: Rate) -> u64
        ensures { result ≡ rate.frames * (self.micros / 1000000) + rate.frames * (self.micros % 1000000) / 1000000 }
    {
        let rate = u64::from(rate.frames);
        rate * (self.micros / 1_000_000) + rate * (self.micros % 1_000_000) / 1_000_000
    }
}

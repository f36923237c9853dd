//! What a simulated source does wrong, and what that makes of its frames.

ghost use Rattle.std.specs.Prelude.{◌≡◌, ◌^◌, ◌-◌, min};
ghost use Rattle.pg_tools.specs.Faulting.{configuration_at, is_changing, quality_at, released_at, sent_at, stat_at, unlocked_at};
ghost use Rattle.pg_tools.specs.Holdover.{quality_of, stat_of};

use crate::holdover::{time_quality, unlocked_stat};
use crate::unix_time::UnixTime;

/// The bit of STAT that announces another configuration.
const CONFIGURATION_CHANGE: u16 = 0x0400;

/// For how long STAT bit 10 is set before the configuration changes, in microseconds: a minute (C37.118.2, 6.3).
const ANNOUNCED: u64 = 60_000_000;

/// What a source does wrong, each fault by itself; 0 where it does not.
#[derive(Clone, Copy)]
pub struct Faults {
    /// After every ten seconds with data frames none are sent for so many seconds.
    pub silence: u32,
    /// So many of a hundred data frames are left out.
    pub drop: u8,
    /// Each data frame is sent so many milliseconds late.
    pub late: u32,
    /// So many of a hundred data frames have a wrong CHK.
    pub wrong_check: u8,
    /// Its clock is so many milliseconds ahead, or behind where that is negative.
    pub clock: i32,
    /// Commands 4 and 5 are not answered.
    pub no_config: bool,
    /// Each so many seconds its configuration changes: the units of phasors and analog values are doubled, and at the next change are as before.
    pub reconfigure: u32,
    /// CFG-2 is sent unasked: when a client has connected, and when the configuration changes.
    pub unasked: bool,
    /// STAT of all blocks has these bits set.
    pub stat: u16,
    /// The time quality of all data frames, FRACSEC's top byte, has these bits set.
    pub quality: u8,
    /// Its clock loses its source of time so many seconds after the start; `None` is never.
    pub unlock: Option<u32>,
    /// Data frames are held back for so many seconds, then sent all at once.
    pub backlog: u32,
}

impl Faults {
    /// No fault.
    pub const NONE: Faults = Faults {
        silence: 0,
        drop: 0,
        late: 0,
        wrong_check: 0,
        clock: 0,
        no_config: false,
        reconfigure: 0,
        unasked: false,
        stat: 0,
        quality: 0,
        unlock: None,
        backlog: 0,
    };

    /// The number of the configuration that is in force at an instant of the source's clock: they are counted from 1970 on, and 0 where none
    /// changes.
    pub fn configuration_at(self, at: UnixTime) -> u64
        ensures { result ≡ configuration_at self.reconfigure at.micros }
    {
        if self.reconfigure == 0 {
            0
        } else {
            at.micros / (1_000_000 * u64::from(self.reconfigure))
        }
    }

    /// Whether STAT bit 10 announces another configuration at an instant of the source's clock: for a minute before the change, or for half of
    /// the time between two changes where that is less.
    pub fn is_changing(self, at: UnixTime) -> bool
        ensures { result ≡ is_changing self.reconfigure at.micros }
    {
        if self.reconfigure == 0 {
            return false;
        }
        let seconds = u64::from(self.reconfigure);
        let period = 1_000_000 * seconds;
        period - at.micros % period <= ANNOUNCED.min(500_000 * seconds)
    }

    /// For how many microseconds the source's clock has been without its source of time, at an instant of that clock; `None` where it has it.
    /// `start` is the instant of that clock at which the source began.
    pub fn unlocked_at(self, start: UnixTime, at: UnixTime) -> Option<u64>
        ensures { result ≡ unlocked_at self.unlock start.micros at.micros }
    {
        let seconds = self.unlock?;
        let running = at.micros.checked_sub(start.micros)?;
        running.checked_sub(1_000_000 * u64::from(seconds))
    }

    /// STAT of the blocks of an instant, by the source's clock and its start: `stat`, bit 10 before the configuration changes, and bits 13, 8 to 6,
    /// 5 and 4 of a clock that has lost its source.
    pub fn stat_at(self, start: UnixTime, at: UnixTime) -> u16
        ensures { result ≡ stat_at self start.micros at.micros }
    {
        let changing = if self.is_changing(at) {
            CONFIGURATION_CHANGE
        } else {
            0
        };
        self.stat | changing | stat_of(self.unlocked_at(start, at))
    }

    /// The time quality of the data frame of an instant, by the source's clock and its start: `quality`, and the code of a clock that has lost its
    /// source.
    pub fn quality_at(self, start: UnixTime, at: UnixTime) -> u8
        ensures { result ≡ quality_at self start.micros at.micros }
    {
        self.quality | quality_of(self.unlocked_at(start, at))
    }

    /// The instant up to which data frames are sent, at an instant of the source's clock: the last multiple of `backlog`.
    pub fn released_at(self, at: UnixTime) -> UnixTime
        ensures { result.micros ≡ released_at self.backlog at.micros }
    {
        if self.backlog == 0 {
            return at;
        }
        UnixTime {
            micros: at.micros - at.micros % (1_000_000 * u64::from(self.backlog)),
        }
    }

    /// When the data frame of an instant is sent, by the source's clock: at the next multiple of `backlog`, and at 2^64 - 1 microseconds at most.
    pub fn sent_at(self, at: UnixTime) -> UnixTime
        ensures { result.micros ≡ min (sent_at self.backlog at.micros) (2 ^ 64 - 1) }
    {
        if self.backlog == 0 {
            return at;
        }
        let period = 1_000_000 * u64::from(self.backlog);
        let past = at.micros % period;
        if past == 0 {
            return at;
        }
        UnixTime {
            micros: at.micros.saturating_add(period - past),
        }
    }
}

/// The bits of STAT of a clock that has been without its source for so long, none where it has it.
fn stat_of(unlocked: Option<u64>) -> u16
    ensures { result ≡ stat_of unlocked }
{
    match unlocked {
        Some(micros) => unlocked_stat(micros),
        None => 0,
    }
}

/// The time quality of such a clock, 0 where it has its source.
fn quality_of(unlocked: Option<u64>) -> u8
    ensures { result ≡ quality_of unlocked }
{
    match unlocked {
        Some(micros) => time_quality(micros),
        None => 0,
    }
}

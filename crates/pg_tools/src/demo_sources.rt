//! The demo's sources.

use crate::settings::{Channels, Nominal, Numbers, Settings};
use crate::source_faults::Faults;
use crate::unix_time::Rate;
use pg_wire::Refusal;

/// The two sources, each of which has one PMU with its number.
pub const DEMO_SOURCES: [u16; 2] = [7, 8];

/// The frames a second.
pub const DEMO_RATE: u8 = 30;

/// What the source at this place of `DEMO_SOURCES` plays.
///
/// # Errors
///
/// `WrongId`, never.
pub fn demo_settings(place: u8) -> Result<Settings, Refusal> {
    let first = DEMO_SOURCES
        .get(usize::from(place))
        .copied()
        .ok_or(Refusal::WrongId)?;
    Ok(Settings {
        numbers: Numbers::new(first, 1).ok_or(Refusal::WrongId)?,
        rate: Rate::new(DEMO_RATE).ok_or(Refusal::WrongId)?,
        channels: Channels::new(3, 1, 1).ok_or(Refusal::WrongId)?,
        nominal: Nominal::Sixty,
        place,
        faults: Faults::NONE,
    })
}

/// The bytes of a data frame of a source that plays this: sixteen around the blocks.
pub fn frame_len(settings: &Settings) -> u16 {
    16 + settings
        .channels
        .block_len()
        .saturating_mul(u16::from(settings.numbers.pmus))
        .min(65_000)
}

//! What is simulated, and the options that set it.

ghost use Rattle.std.specs.Prelude.{◌≡◌, ◌+◌, ◌*◌, ◌≤◌, ◌<◌, IfOk, IfSome};

use crate::source_faults::Faults;
use crate::unix_time::Rate;
use std::net::{SocketAddr, SocketAddrV4};
use thiserror::Error;

/// The most clients that are served at once.
const MOST_CLIENTS: u8 = 8;

/// The frequency of a grid.
#[derive(Clone, Copy)]
pub enum Nominal {
    /// 50 Hz.
    Fifty,
    /// 60 Hz.
    Sixty,
}

/// How many channels each PMU has.
#[derive(Clone, Copy)]
pub struct Channels {
    /// Phasors: 0 to 32.
    pub phasors: u8,
    /// Analog values: 0 to 32.
    pub analogs: u8,
    /// Digital words: 0 to 32.
    pub digitals: u8,
    ghost fits: { 30 + 20 * phasors + 20 * analogs + 260 * digitals ≤ 2000 },
}

impl Channels {
    /// So many channels, if a PMU's configuration block has at most 2,000 bytes with them, the most that a reader takes.
    pub fn new(phasors: u8, analogs: u8, digitals: u8) -> Option<Channels> {
        let len = 30
            + 20 * u32::from(phasors)
            + 20 * u32::from(analogs)
            + 260 * u32::from(digitals);
        if len <= 2_000 {
            Some(Channels {
                phasors,
                analogs,
                digitals,
            })
        } else {
            None
        }
    }

    /// The bytes of a data block.
    pub fn block_len(self) -> u16
        ensures { result ≡ 6 + 4 * self.phasors + 2 * self.analogs + 2 * self.digitals }
    {
        6 + 4 * u16::from(self.phasors) + 2 * u16::from(self.analogs) + 2 * u16::from(self.digitals)
    }
}

/// The IDCODEs of a source and its PMUs: the source's, and from it upward one for each PMU.
#[derive(Clone, Copy)]
pub struct Numbers {
    /// The source's, and its first PMU's.
    pub first: u16,
    /// How many PMUs there are: 1 to 16.
    pub pmus: u8,
    ghost least: { 0 < first },
    ghost most: { first + pmus ≤ 65535 },
    ghost some: { 1 ≤ pmus },
    ghost few: { pmus ≤ 16 },
}

impl Numbers {
    /// These IDCODEs, if all are 1 to 65534.
    pub fn new(first: u16, pmus: u8) -> Option<Numbers> {
        if first > 0 && 1 <= pmus && pmus <= 16 && u32::from(first) + u32::from(pmus) <= 65_535 {
            Some(Numbers { first, pmus })
        } else {
            None
        }
    }
}

/// What is simulated.
#[derive(Clone, Copy)]
pub struct Settings {
    /// The IDCODEs.
    pub numbers: Numbers,
    /// The frames a second.
    pub rate: Rate,
    /// The channels of each PMU.
    pub channels: Channels,
    /// The grid's frequency.
    pub nominal: Nominal,
    /// The place of its first PMU in the grid; the others follow. PMUs at odd places swing against the others, and tell polar
    /// phasors.
    pub place: u8,
    /// What is done wrong.
    pub faults: Faults,
}

/// The values of the options of `simulate`, as they were typed.
#[derive(Clone, Copy)]
pub struct SimulateArgs<'a> {
    /// `--listen`
    pub listen: &'a str,
    /// `--source`
    pub source: &'a str,
    /// `--pmus`
    pub pmus: &'a str,
    /// `--rate`
    pub rate: &'a str,
    /// `--phasors`
    pub phasors: &'a str,
    /// `--analogs`
    pub analogs: &'a str,
    /// `--digitals`
    pub digitals: &'a str,
    /// `--nominal`
    pub nominal: &'a str,
    /// Each `--fault`.
    pub faults: &'a [&'a str],
    /// `--clients`
    pub clients: &'a str,
}

/// What `simulate` is asked for.
#[derive(Clone, Copy)]
pub struct SimulateOptions {
    /// Where it listens.
    pub listen: SocketAddr,
    /// How many clients it serves at once: 1 to 8.
    pub clients: u8,
    /// What it plays.
    pub settings: Settings,
}

/// A word that is none of an option's: which option it is, and what would be right.
#[derive(Clone, Copy, Debug, Error)]
#[error("{option} takes {takes}")]
pub struct BadOption {
    /// The option, or the argument.
    pub option: &'static str,
    /// What it takes.
    pub takes: &'static str,
}

/// A number of decimal digits alone, from `least` to `most`.
pub fn number(word: &str, least: u32, most: u32) -> Option<u32>
    ensures least { IfSome result (λ n. least ≤ n) }
    ensures most { IfSome result (λ n. n ≤ most) }
{
    if !word.as_bytes().iter().all(|byte| byte.is_ascii_digit()) {
        return None;
    }
    let value = word.parse::<u32>().ok()?;
    if least <= value && value <= most {
        Some(value)
    } else {
        None
    }
}

/// A number of at most a byte, or what the option takes.
fn small(word: &str, least: u8, most: u8, wrong: BadOption) -> Result<u8, BadOption>
    ensures least { IfOk result (λ n. least ≤ n) }
    ensures most { IfOk result (λ n. n ≤ most) }
{
    match number(word, u32::from(least), u32::from(most)) {
        Some(value) => Ok(value as u8),
        None => Err(wrong),
    }
}

/// An address as `A.B.C.D:PORT`.
pub fn address(word: &str, option: &'static str) -> Result<SocketAddr, BadOption> {
    match word.parse::<SocketAddrV4>() {
        Ok(address) => Ok(SocketAddr::V4(address)),
        Err(_) => Err(BadOption {
            option,
            takes: "an address A.B.C.D:PORT, as 127.0.0.1:4712",
        }),
    }
}

/// What `simulate` is asked for, by the values of its options.
///
/// # Errors
///
/// The first option that can't be taken, with what it takes.
pub fn read_simulate_options(words: &SimulateArgs<'_>) -> Result<SimulateOptions, BadOption>
    ensures some { IfOk result (λ options. 1 ≤ options.clients) }
    ensures few { IfOk result (λ options. options.clients ≤ 8) }
{
    let listen = address(words.listen, "--listen")?;
    let settings = Settings {
        numbers: read_numbers(words.source, words.pmus)?,
        rate: read_rate(words.rate)?,
        channels: read_channels(words)?,
        nominal: read_nominal(words.nominal)?,
        place: 0,
        faults: read_faults(words.faults)?,
    };
    let wrong = BadOption {
        option: "--clients",
        takes: "a number of 1 to 8",
    };
    Ok(SimulateOptions {
        listen,
        clients: small(words.clients, 1, MOST_CLIENTS, wrong)?,
        settings,
    })
}

fn read_numbers(source: &str, pmus: &str) -> Result<Numbers, BadOption> {
    let wrong = BadOption {
        option: "--source",
        takes: "a number of 1 to 65534, from which on each PMU has one",
    };
    let pmus = small(
        pmus,
        1,
        16,
        BadOption {
            option: "--pmus",
            takes: "a number of 1 to 16",
        },
    )?;
    let Some(first) = number(source, 1, 65_534) else {
        return Err(wrong);
    };
    match Numbers::new(first as u16, pmus) {
        Some(numbers) => Ok(numbers),
        None => Err(wrong),
    }
}

fn read_rate(word: &str) -> Result<Rate, BadOption> {
    let wrong = BadOption {
        option: "--rate",
        takes: "frames a second, 1 to 120",
    };
    match Rate::new(small(word, 1, 120, wrong)?) {
        Some(rate) => Ok(rate),
        None => Err(wrong),
    }
}

fn read_channels(words: &SimulateArgs<'_>) -> Result<Channels, BadOption> {
    let takes = "a number of 0 to 32";
    let phasors = small(
        words.phasors,
        0,
        32,
        BadOption {
            option: "--phasors",
            takes,
        },
    )?;
    let analogs = small(
        words.analogs,
        0,
        32,
        BadOption {
            option: "--analogs",
            takes,
        },
    )?;
    let digitals = small(
        words.digitals,
        0,
        32,
        BadOption {
            option: "--digitals",
            takes,
        },
    )?;
    match Channels::new(phasors, analogs, digitals) {
        Some(channels) => Ok(channels),
        None => Err(BadOption {
            option: "--digitals",
            takes: "fewer words here: a PMU's configuration has at most 2000 bytes, 30 and 20 for each phasor and analog value and 260 for each digital word",
        }),
    }
}

fn read_nominal(word: &str) -> Result<Nominal, BadOption> {
    match number(word, 50, 60) {
        Some(50) => Ok(Nominal::Fifty),
        Some(60) => Ok(Nominal::Sixty),
        _ => Err(BadOption {
            option: "--nominal",
            takes: "50 or 60",
        }),
    }
}

/// The faults of some words. Of two with one name the later stands.
fn read_faults(words: &[&str]) -> Result<Faults, BadOption> {
    let mut faults = Faults::NONE;
    for word in words {
        match with_fault(faults, word) {
            Some(next) => faults = next,
            None => {
                return Err(BadOption {
                    option: "--fault",
                    takes: fault_takes(word),
                });
            }
        }
    }
    Ok(faults)
}

/// These faults, and the one of this word.
fn with_fault(faults: Faults, word: &str) -> Option<Faults> {
    match word {
        "no-config" => Some(Faults {
            no_config: true,
            ..faults
        }),
        "unasked" => Some(Faults {
            unasked: true,
            ..faults
        }),
        _ => {
            let (name, value) = word.split_once('=')?;
            with_value(faults, name, value)
        }
    }
}

/// These faults, and the one of this name with this value.
fn with_value(mut faults: Faults, name: &str, value: &str) -> Option<Faults> {
    match name {
        "silence" => faults.silence = number(value, 1, 3_600)?,
        "drop" => faults.drop = number(value, 0, 100)? as u8,
        "late" => faults.late = number(value, 0, 60_000)?,
        "wrong-check" => faults.wrong_check = number(value, 0, 100)? as u8,
        "clock" => faults.clock = signed(value)?,
        "reconfigure" => faults.reconfigure = number(value, 2, 3_600)?,
        "stat" => faults.stat = u16::from_str_radix(hexadecimal(value)?, 16).ok()?,
        "quality" => faults.quality = u8::from_str_radix(hexadecimal(value)?, 16).ok()?,
        "unlock" => faults.unlock = Some(number(value, 0, 3_600)?),
        "backlog" => faults.backlog = number(value, 1, 60)?,
        _ => return None,
    }
    Some(faults)
}

/// What the fault of this word takes; all faults where it is none.
fn fault_takes(word: &str) -> &'static str {
    let name = match word.split_once('=') {
        Some((name, _)) => name,
        None => word,
    };
    match name {
        "silence" => "silence=SECONDS, 1 to 3600",
        "drop" => "drop=PERCENT, 0 to 100",
        "late" => "late=MS, 0 to 60000 milliseconds",
        "wrong-check" => "wrong-check=PERCENT, 0 to 100",
        "clock" => "clock=MS, -3600000 to 3600000 milliseconds",
        "no-config" => "no-config without a value",
        "reconfigure" => "reconfigure=SECONDS, 2 to 3600",
        "unasked" => "unasked without a value",
        "stat" => "stat=HEX, 0 to FFFF in hexadecimal, as stat=4000",
        "quality" => "quality=HEX, 0 to FF in hexadecimal, as quality=0F",
        "unlock" => "unlock=SECONDS, 0 to 3600",
        "backlog" => "backlog=SECONDS, 1 to 60",
        _ => {
            "silence=SECONDS, drop=PERCENT, late=MS, wrong-check=PERCENT, clock=MS, no-config, reconfigure=SECONDS, unasked, stat=HEX, quality=HEX, unlock=SECONDS or backlog=SECONDS"
        }
    }
}

/// This word, where it has hexadecimal digits alone.
fn hexadecimal(word: &str) -> Option<&str> {
    if word.as_bytes().iter().all(|byte| byte.is_ascii_hexdigit()) {
        Some(word)
    } else {
        None
    }
}

/// A number within an hour of milliseconds, which a `-` may lead.
fn signed(word: &str) -> Option<i32> {
    match word.strip_prefix('-') {
        Some(digits) => Some(-(number(digits, 0, 3_600_000)? as i32)),
        None => Some(number(word, 0, 3_600_000)? as i32),
    }
}

//! The options of `bridge`.

ghost use Rattle.std.specs.Prelude.{◌≡◌, ◌≤◌, IfOk};

use crate::settings::{BadOption, number};
use crate::target::{Target, WRONG_STREAM, read_stream, read_target};
use pg_wire::PmuId;

/// The longest name of a gateway, in bytes.
const LONGEST_NAME: usize = 64;

/// The longest of the times, a day, in seconds.
const DAY: u32 = 86_400;

/// The most lines that are kept.
const MOST_LINES: u32 = 1_000_000;

/// The format of the lines.
#[derive(Clone, Copy, PartialEq, Eq)]
pub enum Format {
    /// A JSON object.
    Json,
    /// InfluxDB line protocol.
    Influx,
    /// Comma separated values (RFC 4180), always the same columns.
    Csv,
}

/// The values of the options of `bridge`, as they were typed.
#[derive(Clone, Copy)]
pub struct BridgeArgs<'a> {
    /// The address.
    pub address: &'a str,
    /// `--stream`
    pub stream: &'a str,
    /// `--format`
    pub format: &'a str,
    /// `--name`
    pub name: Option<&'a str>,
    /// `--key`
    pub is_keyed: bool,
    /// `--repeat`
    pub repeat: &'a str,
    /// `--heartbeat`
    pub heartbeat: &'a str,
    /// `--silence`
    pub silence: &'a str,
    /// `--keep`
    pub keep: &'a str,
}

/// What `bridge` is asked for.
#[derive(Clone, Copy)]
pub struct BridgeOptions<'a> {
    /// Where the gateway listens, or a source.
    pub address: Target<'a>,
    /// The IDCODE of the stream.
    pub stream: PmuId,
    /// The format of its lines.
    pub format: Format,
    /// The name of the gateway, which each line has.
    pub name: Option<&'a str>,
    /// Whether a key stands before each line.
    pub is_keyed: bool,
    /// After how many seconds the configuration is repeated: 1 to 86,400.
    pub repeat: u32,
    /// After how many seconds the state is reported: 1 to 86,400.
    pub heartbeat: u32,
    /// After how many seconds without a frame the connection is made again: 1 to 86,400.
    pub silence: u32,
    /// How many lines wait for standard output at most: 1 to 1,000,000.
    pub keep: u32,
}

/// What `bridge` is asked for, by the values of its options.
///
/// # Errors
///
/// The first option that can't be taken, with what it takes.
pub fn read_bridge_options<'a>(words: &BridgeArgs<'a>) -> Result<BridgeOptions<'a>, BadOption>
    ensures some { IfOk result (λ options. 1 ≤ options.keep) }
    ensures few { IfOk result (λ options. options.keep ≤ 1000000) }
    ensures repeats { IfOk result (λ options. 1 ≤ options.repeat) }
    ensures beats { IfOk result (λ options. 1 ≤ options.heartbeat) }
    ensures waits { IfOk result (λ options. 1 ≤ options.silence) }
{
    let address = read_target(words.address, "ADDRESS")?;
    let Some(stream) = read_stream(words.stream) else {
        return Err(WRONG_STREAM);
    };
    let format = read_format(words.format)?;
    check_name(words.name)?;
    let repeat = read_seconds(words.repeat, "--repeat")?;
    let heartbeat = read_seconds(words.heartbeat, "--heartbeat")?;
    let silence = read_seconds(words.silence, "--silence")?;
    let keep = read_keep(words.keep)?;
    Ok(BridgeOptions {
        address,
        stream,
        format,
        name: words.name,
        is_keyed: words.is_keyed,
        repeat,
        heartbeat,
        silence,
        keep,
    })
}

fn read_format(word: &str) -> Result<Format, BadOption> {
    match word {
        "json" => Ok(Format::Json),
        "influx" => Ok(Format::Influx),
        "csv" => Ok(Format::Csv),
        _ => Err(BadOption {
            option: "--format",
            takes: "json, influx or csv",
        }),
    }
}

fn check_name(word: Option<&str>) -> Result<(), BadOption> {
    let Some(name) = word else {
        return Ok(());
    };
    if name.is_empty() || name.len() > LONGEST_NAME || has_control(name) {
        return Err(BadOption {
            option: "--name",
            takes: "a name of 1 to 64 bytes, without control characters",
        });
    }
    Ok(())
}

/// Whether a text has control characters.
fn has_control(text: &str) -> bool {
    text.chars().any(|letter| letter.is_control())
}

fn read_seconds(word: &str, option: &'static str) -> Result<u32, BadOption>
    ensures least { IfOk result (λ n. 1 ≤ n) }
    ensures most { IfOk result (λ n. n ≤ 86400) }
{
    match number(word, 1, DAY) {
        Some(seconds) => Ok(seconds),
        None => Err(BadOption {
            option,
            takes: "seconds, 1 to 86400",
        }),
    }
}

fn read_keep(word: &str) -> Result<u32, BadOption>
    ensures least { IfOk result (λ n. 1 ≤ n) }
    ensures most { IfOk result (λ n. n ≤ 1000000) }
{
    match number(word, 1, MOST_LINES) {
        Some(lines) => Ok(lines),
        None => Err(BadOption {
            option: "--keep",
            takes: "lines, 1 to 1000000",
        }),
    }
}

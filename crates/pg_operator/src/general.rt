//! The setup file's own keys: how the service runs.
ghost use Rattle.std.specs.Prelude.{◌≡◌, ◌⊎◌, ◌==◌, IfOk, IfErr, codes, not, option_map, string_bytes, Some, None};
ghost use Rattle.std.specs.List.{list_all};
ghost use Rattle.toml.specs.View.{view, table_view};
ghost use Rattle.pg_lines.specs.Addresses.{endpoint};
ghost use Rattle.pg_operator.specs.Setups.{absent_or, endpoint_text_in, general_by, general_of, is_path, is_printable, is_gateway_name, level_in, level_of, optional, path_in, name_in, whole_in};

use crate::keys::SetupKey;
use crate::kind::{NAME_LIMIT, PATH_LIMIT};
use crate::{address, table};
use pg_wire::Refusal;
use std::alloc::Global;
use std::net::SocketAddrV4;
use toml::{Table, Value};

/// Which events the log has: those of its level and of those before it.
#[derive(Clone, Copy, Debug, PartialEq, Eq)]
pub enum LogLevel {
    /// Faults of the service.
    Error,
    /// What was refused, hung up or lost.
    Warn,
    /// What the service does.
    Info,
    /// What helps to find a fault.
    Debug,
}

impl LogLevel {
    /// The level that is written so.
    fn of(word: &str) -> Option<LogLevel>
        ensures value { result ≡ level_of word.now }
    {
        let level = match word {
            "error" => LogLevel::Error,
            "warn" => LogLevel::Warn,
            "info" => LogLevel::Info,
            "debug" => LogLevel::Debug,
            _ => return None,
        };
        Some(level)
    }
}

/// What the file's own keys say.
#[derive(Clone, Copy)]
pub(crate) struct GeneralKeys<'a> {
    pub(crate) tick_ms: u16,
    pub(crate) ingest: u8,
    pub(crate) serve: u8,
    pub(crate) log: LogLevel,
    pub(crate) control: Option<&'a str>,
    pub(crate) status: Option<SocketAddrV4>,
    pub(crate) name: Option<&'a str>,
    pub(crate) record_folder: Option<&'a str>,
    pub(crate) record_mb: u32,
    pub(crate) record_hours: u32,
}

/// What the file's own keys say, but for its tables.
pub(crate) fn general_at(table: &Table) -> Option<GeneralKeys<'_>>
    ensures { option_map general_of result ≡ general_by (table_view table.now) }
{
    let tick_ms = tick_at(table)?;
    let ingest = ingest_at(table)?;
    let serve = serve_at(table)?;
    let log = log_at(table)?;
    let control = control_at(table)?;
    let status = status_at(table)?;
    let name = name_at(table)?;
    let record_folder = record_folder_at(table)?;
    let record_mb = record_mb_at(table)?;
    let record_hours = record_hours_at(table)?;
    Some(GeneralKeys {
        tick_ms,
        ingest,
        serve,
        log,
        control,
        status,
        name,
        record_folder,
        record_mb,
        record_hours,
    })
}

/// Milliseconds from tick to tick.
fn tick_at(table: &Table) -> Option<u16>
    ensures { result ≡ optional 10 (whole_in 1 1000) (codes "tick_ms") (table_view table.now) }
{
    Some(table::optional(table, &SetupKey::TICK_MS)? as u16)
}

/// Threads for sources.
fn ingest_at(table: &Table) -> Option<u8>
    ensures { result ≡ optional 1 (whole_in 1 8) (codes "ingest") (table_view table.now) }
{
    Some(table::optional(table, &SetupKey::INGEST)? as u8)
}

/// Threads for subscribers.
fn serve_at(table: &Table) -> Option<u8>
    ensures { result ≡ optional 1 (whole_in 1 8) (codes "serve") (table_view table.now) }
{
    Some(table::optional(table, &SetupKey::SERVE)? as u8)
}

/// The level of the log.
fn log_at(table: &Table) -> Option<LogLevel>
    ensures { result ≡ optional LogLevel.Info level_in (codes "log") (table_view table.now) }
{
    match table::value_at(table, SetupKey::LOG.name) {
        Some(value) => level(value),
        None => Some(LogLevel::Info),
    }
}

/// The path of the control socket, or none where it is left out.
fn control_at(table: &Table) -> Option<Option<&str>>
    ensures { option_map (λ o. option_map (λ s. s.now) o) result ≡ absent_or path_in (codes "control") (table_view table.now) }
{
    match table::value_at(table, SetupKey::CONTROL.name) {
        Some(value) => Some(Some(path(value)?)),
        None => Some(None),
    }
}

/// The address of the page, or none where it is left out.
fn status_at(table: &Table) -> Option<Option<SocketAddrV4>>
    ensures { option_map (λ o. option_map endpoint o) result ≡ absent_or endpoint_text_in (codes "status") (table_view table.now) }
{
    match table::value_at(table, SetupKey::STATUS.name) {
        Some(value) => Some(Some(address::served(value)?)),
        None => Some(None),
    }
}

/// The gateway's name, or none where it is left out.
fn name_at(table: &Table) -> Option<Option<&str>>
    ensures { option_map (λ o. option_map (λ s. s.now) o) result ≡ absent_or name_in (codes "name") (table_view table.now) }
{
    match table::value_at(table, SetupKey::NAME.name) {
        Some(value) => Some(Some(name(value)?)),
        None => Some(None),
    }
}

/// The path of the folder for recordings, or none where it is left out.
fn record_folder_at(table: &Table) -> Option<Option<&str>>
    ensures { option_map (λ o. option_map (λ s. s.now) o) result ≡ absent_or path_in (codes "record") (table_view table.now) }
{
    match table::value_at(table, SetupKey::RECORD.name) {
        Some(value) => Some(Some(path(value)?)),
        None => Some(None),
    }
}

/// How many megabytes of recordings are kept.
fn record_mb_at(table: &Table) -> Option<u32>
    ensures { result ≡ optional 4000 (whole_in 16 10000000) (codes "record_mb") (table_view table.now) }
{
    table::optional(table, &SetupKey::RECORD_MB)
}

/// For how many hours recordings are kept.
fn record_hours_at(table: &Table) -> Option<u32>
    ensures { result ≡ optional 168 (whole_in 1 100000) (codes "record_hours") (table_view table.now) }
{
    table::optional(table, &SetupKey::RECORD_HOURS)
}

/// A level of the log.
pub(crate) fn level(value: &Value) -> Option<LogLevel>
    ensures { result ≡ level_in (view value.now) }
{
    match value {
        Value::String(text) => LogLevel::of(text.as_str()),
        _ => None,
    }
}

/// The path of a socket or a folder.
pub(crate) fn path(value: &Value) -> Option<&str>
    ensures { option_map (λ s. s.now) result ≡ path_in (view value.now) }
{
    match value {
        Value::String(text) if is_path(text.as_bytes()) => Some(text.as_str()),
        _ => None,
    }
}

/// One to 107 bytes, of which none is zero.
fn is_path(bytes: &[u8]) -> bool
    ensures { result ≡ is_path bytes.now }
{
    if bytes.is_empty() || bytes.len() > PATH_LIMIT {
        return false;
    }
    no_zero(bytes)
}

fn no_zero(bytes: &[u8]) -> bool
    ensures { result ≡ list_all (λ b. not (b == 0)) bytes.now }
{
    bytes.iter().all(|byte| *byte != 0)
}

/// The gateway's name.
pub(crate) fn name(value: &Value) -> Option<&str>
    ensures { option_map (λ s. s.now) result ≡ name_in (view value.now) }
{
    match value {
        Value::String(text) if is_gateway_name(text.as_bytes()) => Some(text.as_str()),
        _ => None,
    }
}

/// Whether this can be a gateway's name: 1 to 64 printable ASCII characters.
pub fn is_gateway_name(bytes: &[u8]) -> bool
    ensures { result ≡ is_gateway_name bytes.now }
{
    if bytes.is_empty() || bytes.len() > NAME_LIMIT {
        return false;
    }
    are_printable(bytes)
}

fn are_printable(bytes: &[u8]) -> bool
    ensures { result ≡ list_all is_printable bytes.now }
{
    bytes.iter().all(|byte| 32 <= *byte && *byte <= 126)
}

/// A text of its own, where there is one.
pub(crate) fn own_text(alloc: Global, text: Option<&str>) -> Result<Option<String>, Refusal>
    ensures ok { IfOk result (λ o. option_map (λ s. string_bytes s) o ≡ option_map (λ s. s.now) text.entry) }
    ensures err { IfErr result (λ r. r ≡ Refusal.NoMemory) }
{
    match text {
        Some(text) => Ok(Some(String::from_str(alloc, text)?)),
        None => Ok(None),
    }
}

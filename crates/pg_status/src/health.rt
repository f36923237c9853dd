//! Whether the gateway does its work, for those that watch over it: haproxy, keepalived, an orchestrator.

ghost use Rattle.std.specs.Prelude.{◌≡◌};
ghost use Rattle.std.specs.List.{list_any};
ghost use Rattle.pg_status.specs.Healths.{health_of, is_recent};

use crate::snapshot::{Snapshot, SourceState};
use std::alloc::{AllocError, Global};

/// Whether the gateway does its work.
#[derive(Clone, Copy, PartialEq, Eq)]
pub enum Health {
    /// It does.
    Well,
    /// So many of its workers did not answer within a second.
    Unanswered(usize),
    /// No source sent data that count within the time that was asked for.
    NoData,
}

/// Whether the gateway does its work: each of its workers answered, and a source at least sent data that count less than `within` seconds ago.
pub fn health_of(snapshot: &Snapshot, within: u32) -> Health
    ensures { result ≡ health_of snapshot.now.unanswered within snapshot.now.sources.items }
{
    if snapshot.unanswered > 0 {
        Health::Unanswered(snapshot.unanswered)
    } else if has_recent(&snapshot.sources, u64::from(within)) {
        Health::Well
    } else {
        Health::NoData
    }
}

/// Whether one of the sources sent data that count less than so many seconds ago.
fn has_recent(sources: &[SourceState], within: u64) -> bool
    ensures { result ≡ list_any (is_recent within) sources.now }
{
    sources.iter().any(|it| is_recent(it, within))
}

/// Whether a source sent data that count less than so many seconds ago.
fn is_recent(source: &SourceState, within: u64) -> bool
    ensures { result ≡ is_recent within source.now }
{
    match source.last_data {
        Some(seconds) => seconds < within,
        None => false,
    }
}

/// The line that is answered.
pub(crate) fn health_text(
    alloc: Global,
    health: Health,
    within: u32,
) -> Result<String, AllocError> {
    match health {
        Health::Well => format!(in alloc;
            "each worker answers, and a source sent data within {within} s\n"
        ),
        Health::Unanswered(workers) => {
            format!(in alloc; "workers that did not answer within a second: {workers}\n")
        }
        Health::NoData => format!(in alloc; "no source sent data within {within} s\n"),
    }
}

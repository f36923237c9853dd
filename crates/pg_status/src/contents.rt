//! What is answered to a request.

use crate::health::{Health, health_of, health_text};
use crate::histogram::Histogram;
use crate::history::History;
use crate::json::state_json;
use crate::metrics::print_metrics;
use crate::page::page_text;
use crate::request::Shown;
use crate::snapshot::Snapshot;
use std::alloc::{AllocError, Global};

/// What is answered to a request.
#[derive(Drop)]
pub struct Contents {
    /// Whether the gateway does its work, where that is asked for; else true.
    pub is_well: bool,
    /// The bytes.
    pub body: Vec<u8>,
}

/// What is answered where this is asked for: the page as it is, the metrics, the state and history as JSON, or whether the gateway does its work.
///
/// # Errors
///
/// There is no memory.
pub fn contents_of(
    alloc: Global,
    shown: Shown,
    snapshot: &Snapshot,
    history: &History,
    ages: &Histogram,
) -> Result<Contents, AllocError> {
    let mut is_well = true;
    let body = match shown {
        Shown::Page => Vec::from_slice(alloc, page_text().as_bytes())?,
        Shown::State => {
            let text = state_json(alloc, snapshot, history)?;
            Vec::from_slice(alloc, text.as_bytes())?
        }
        Shown::Metrics => metrics_of(alloc, snapshot, ages)?,
        Shown::Health { within } => {
            let health = health_of(snapshot, within);
            is_well = health == Health::Well;
            let text = health_text(alloc, health, within)?;
            Vec::from_slice(alloc, text.as_bytes())?
        }
    };
    Ok(Contents { is_well, body })
}

/// The metrics as text.
fn metrics_of(alloc: Global, snapshot: &Snapshot, ages: &Histogram) -> Result<Vec<u8>, AllocError> {
    let mut out = Vec::new(alloc);
    match print_metrics(&mut out, snapshot, ages) {
        Ok(()) => Ok(out),
        // A vector takes all bytes that find memory.
        Err(_) => Err(AllocError),
    }
}

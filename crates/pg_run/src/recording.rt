//! What `run` records of its calls, by the setup.

use crate::failure::{Failure, not_bound};
use crate::run_context::RunContext;
use pg_log::Journal;
use pg_operator::{BoundBy, Setup};
use pg_recorder::{RecordWriter, Recorder, Segments};
use pg_wire::Refusal;
use std::alloc::Global;
use std::io;
use std::rt::Clock;
use std::sync::Wait;

/// The threads that record, beside those for sources and subscribers: the one that sets up, the ticker, the admin worker, the one for reloads
/// and the one for an operator's lines.
const OTHERS: usize = 5;

/// The milliseconds of an hour.
const HOUR_MS: u64 = 3_600_000;

/// The bytes of a megabyte.
const MEGABYTE: u64 = 1_000_000;

/// A recorder for all threads of this setup, if it records.
pub(crate) fn recorder_of(alloc: Global, setup: &Setup) -> Result<Option<Recorder>, Refusal> {
    if setup.record_folder.is_none() {
        return Ok(None);
    }
    let threads = usize::from(setup.ingest) + usize::from(setup.serve) + OTHERS;
    Ok(Some(Recorder::new(alloc, threads)?))
}

/// The segments in the folder of this setup, if it records.
pub(crate) fn segments_of<'a>(
    files: &'a HostRuntime,
    alloc: Global,
    setup: &Setup,
) -> Result<Option<Segments<'a>>, Failure> {
    let Some(folder) = &setup.record_folder else {
        return Ok(None);
    };
    match segments_at(files, alloc, setup, folder.as_str()) {
        Ok(segments) => Ok(Some(segments)),
        Err(error) => Err(not_bound(BoundBy::Record, None, error)),
    }
}

/// The segments in this folder.
fn segments_at<'a>(
    files: &'a HostRuntime,
    alloc: Global,
    setup: &Setup,
    folder: &str,
) -> io::Result<Segments<'a>> {
    let room = u64::from(setup.record_mb).saturating_mul(MEGABYTE);
    let span = u64::from(setup.record_hours).saturating_mul(HOUR_MS);
    Segments::new(files, alloc, folder, room, span)
}

/// Writes what all threads recorded last, once they have ended.
pub(crate) fn write_last<R: Wait + Clock>(
    rt: &R,
    alloc: Global,
    context: RunContext<'_>,
    journal: &Journal,
) {
    let Some(recorder) = context.recorder else {
        return;
    };
    let setup = context.setup.lock(rt);
    if let Ok(Some(segments)) = segments_of(context.files, alloc, &setup) {
        drop(setup);
        if let Ok(mut writer) = RecordWriter::new(rt, recorder, journal, segments) {
            writer.write_all();
        }
    }
}

//! The workers that `run` has besides those of each service, as they are made.

ghost use Rattle.std.specs.Prelude.{◌≡◌, IfOk};

use crate::operator::{Operator, StandardIo};
use crate::reload_worker::ReloadWorker;
use crate::run_context::RunContext;
use crate::running::logger_of;
use crate::workers::Worker;
use pg_console::{DelayWatch, Runtime, ServiceBuilder};
use pg_recorder::{RecordWriter, RecordedAtOnce, Segments};
use pg_service::Poller;
use pg_shared::{Named, Seat};
use pg_wire::Refusal;

/// The workers that write the log, watch delays, do reloads, write what is recorded to these segments, if it is, and answer an operator's
/// lines. The one that waits for lines is the last, so that where a thread can't be started it is not there to wait for.
pub(crate) fn own_workers<'a, R: Runtime, N: Named>(
    builder: &ServiceBuilder<'a, R>,
    context: RunContext<'a>,
    seat: Seat,
    reloads: Option<Poller>,
    segments: Option<Segments<'a>>,
    lines: StandardIo<'a, R>,
) -> Result<(Seat, Vec<Worker<'a, R, N>>), Refusal>
    requires shared { builder.now.shared.now ≡ N.table }
    requires seat { seat.table ≡ N.table }
    ensures seat { IfOk result (λ made. made.0 ≡ seat) }
{
    let mut workers = writing_workers::<R, N>(builder, context, segments)?;
    let (seat, reload_worker) = reload_worker::<R, N>(builder, context, seat, reloads);
    if let Some(worker) = reload_worker {
        workers.push(Worker::Reloads(worker))?;
    }
    let (seat, operator) = operator::<R, N>(builder, context, seat, lines);
    workers.push(Worker::Lines(operator))?;
    Ok((seat, workers))
}

/// The workers without a seat: those that write the log, watch delays, and write what is recorded to these segments, if it is.
fn writing_workers<'a, R: Runtime, N: Named>(
    builder: &ServiceBuilder<'a, R>,
    context: RunContext<'a>,
    segments: Option<Segments<'a>>,
) -> Result<Vec<Worker<'a, R, N>>, Refusal> {
    let mut workers = Vec::new(builder.alloc);
    add_writer(builder, segments, &mut workers)?;
    add_log(builder, context, &mut workers)?;
    let delays = DelayWatch::new(builder.rt, builder.alloc, builder.service);
    workers.push(Worker::Delays(delays))?;
    Ok(workers)
}

/// Adds the worker that writes the log.
fn add_log<'a, R: Runtime, N: Named>(
    builder: &ServiceBuilder<'a, R>,
    context: RunContext<'a>,
    workers: &mut Vec<Worker<'a, R, N>>,
) -> Result<(), Refusal> {
    let journal = builder.service.handles.journal;
    let has_priority = context.start.has_priority;
    let log = logger_of(
        builder.rt,
        builder.alloc,
        journal,
        has_priority,
        builder.start,
    )?;
    workers.push(Worker::Log(log))?;
    Ok(())
}

/// Adds the worker that writes what is recorded to these segments, if it is.
fn add_writer<'a, R: Runtime, N: Named>(
    builder: &ServiceBuilder<'a, R>,
    segments: Option<Segments<'a>>,
    workers: &mut Vec<Worker<'a, R, N>>,
) -> Result<(), Refusal> {
    let service = &builder.service;
    if let (Some(recorder), Some(segments)) = (service.recorder, segments) {
        let writer = RecordWriter::new(builder.rt, recorder, service.handles.journal, segments)?;
        workers.push(Worker::Records(writer))?;
    }
    Ok(())
}

/// The worker that does the reloads that clients of the control socket ask for, if that is open.
fn reload_worker<'a, R: Runtime, N: Named>(
    builder: &ServiceBuilder<'a, R>,
    context: RunContext<'a>,
    seat: Seat,
    poller: Option<Poller>,
) -> (Seat, Option<ReloadWorker<'a, R, N>>)
    requires shared { builder.now.shared.now ≡ N.table }
    requires seat { seat.table ≡ N.table }
    ensures seat { result.0 ≡ seat }
{
    let ServiceBuilder {
        rt,
        alloc,
        service,
        ..
    } = builder;
    let (Some(poller), Some(reloads)) = (poller, service.reloads) else {
        return (seat, None);
    };
    let (seat, gate) = builder.gate::<N, RecordedAtOnce>(seat);
    let in_force = context.in_force(*rt);
    let worker = ReloadWorker::new(*rt, *alloc, gate, poller, reloads, *service, in_force);
    (seat, Some(worker))
}

/// The worker that answers an operator's lines.
fn operator<'a, R: Runtime, N: Named>(
    builder: &ServiceBuilder<'a, R>,
    context: RunContext<'a>,
    seat: Seat,
    lines: StandardIo<'a, R>,
) -> (Seat, Operator<'a, R, N>)
    requires shared { builder.now.shared.now ≡ N.table }
    requires seat { seat.table ≡ N.table }
    ensures seat { result.0 ≡ seat }
{
    let ServiceBuilder {
        rt,
        alloc,
        service,
        ..
    } = builder;
    let (seat, gate) = builder.gate::<N, RecordedAtOnce>(seat);
    let in_force = context.in_force(*rt);
    let operator = Operator::new(*rt, *alloc, gate, lines, *service, in_force);
    (seat, operator)
}

//! The service, from its first worker to its last.

ghost use Rattle.std.specs.Prelude.{◌≡◌, IfOk};
ghost use Rattle.pg_console.specs.Joining.{Begins};

use crate::failure::refusal_of;
use crate::make_workers::own_workers;
use crate::operator::StandardIo;
use crate::reloading::SetupManager;
use crate::run_context::RunContext;
use crate::workers::Worker;
use pg_console::{
    Mailboxes, Pollers, Runtime, ServiceBuilder, ServicePlan, SharedState, WorkerCounts,
};
use pg_log::{Detail, Entry, Journal, LogEvent, Subject};
use pg_recorder::{CallRecords, Recorded, Segments, Unrecorded};
use pg_shared::{Named, Seat, Shared};
use pg_subscribers::Port;
use pg_wire::Refusal;
use std::alloc::Global;
use std::net::Net;
use std::rt::Clock;
use std::sync::Wait;
use std::time::Instant;

/// What is served, and by how many.
#[derive(Drop)]
pub(crate) struct Plan<'a> {
    pub(crate) service: ServicePlan<'a>,
    // The control socket's path, if there is one.
    pub(crate) control: Option<String>,
    pub(crate) ingest: usize,
    pub(crate) serve: usize,
    // Milliseconds from tick to tick.
    pub(crate) tick_ms: u16,
    pub(crate) now: Instant,
    // Where is written what is recorded, if it is.
    pub(crate) segments: Option<Segments<'a>>,
}

/// Serves by workers until they are stopped. Their seats are split from this one, and joined to it at the end. Each port is written to the log.
pub(crate) fn serve_all<'a, R: Runtime, N: Named + Send>(
    rt: &'a R,
    alloc: Global,
    shared: &'a Shared,
    seat: Seat,
    context: RunContext<'a>,
    plan: Plan<'a>,
    state: &'a SharedState,
    lines: StandardIo<'a, R>,
) -> Result<Seat, Refusal>
    requires shared { shared.now ≡ N.table }
    requires seat { seat.table ≡ N.table }
    ensures begins { IfOk result (λ joined. Begins seat joined) }
{
    let (mailboxes, pollers) = mailboxes_of(rt, alloc, &plan)?;
    log_ports(rt, &state.journal, &plan.service.ports);
    serve_with::<R, N>(
        rt, alloc, shared, seat, context, plan, &mailboxes, pollers, state, lines,
    )
}

/// Serves by workers with these mailboxes.
fn serve_with<'a, R: Runtime, N: Named + Send>(
    rt: &'a R,
    alloc: Global,
    shared: &'a Shared,
    seat: Seat,
    context: RunContext<'a>,
    plan: Plan<'a>,
    mailboxes: &'a Mailboxes,
    mut pollers: Pollers,
    state: &'a SharedState,
    lines: StandardIo<'a, R>,
) -> Result<Seat, Refusal>
    requires shared { shared.now ≡ N.table }
    requires seat { seat.table ≡ N.table }
    ensures begins { IfOk result (λ joined. Begins seat joined) }
{
    let builder = ServiceBuilder {
        rt,
        alloc,
        shared,
        service: mailboxes.handle(
            state,
            context.name,
            plan.tick_ms,
            context.recorder,
            context.stop,
        ),
        start: plan.now,
    };
    let reloads = pollers.reloads.take();
    let Plan {
        service,
        segments,
        ..
    } = plan;
    let (seat, own) = own_workers::<R, N>(&builder, context, seat, reloads, segments, lines)?;
    let commands = context.in_force(rt);
    match context.recorder {
        Some(_) => { serve_by::<R, N, Recorded>(&builder, seat, pollers, service, commands, own) }
        None => serve_by::<R, N, Unrecorded>(&builder, seat, pollers, service, commands, own),
    }
}

/// Serves by workers whose calls are recorded by T.
fn serve_by<'a, R: Runtime, N: Named + Send, T: CallRecords + Send>(
    builder: &ServiceBuilder<'a, R>,
    seat: Seat,
    pollers: Pollers,
    service: ServicePlan<'a>,
    commands: SetupManager<'a, R>,
    own: Vec<Worker<'a, R, N>>,
) -> Result<Seat, Refusal>
    requires shared { builder.now.shared.now ≡ N.table }
    requires seat { seat.table ≡ N.table }
    ensures begins { IfOk result (λ joined. Begins seat joined) }
{
    match builder.serve::<N, T, _, _>(seat, pollers, service, commands, own) {
        Ok(joined) => Ok(joined),
        Err(error) => Err(refusal_of(error)),
    }
}

/// Writes to the log where each subscriber may connect.
fn log_ports<R: Wait + Clock>(rt: &R, journal: &Journal, ports: &[Port]) {
    for port in ports {
        if let Ok(address) = port.address() {
            let subject = Subject::Subscriber(port.sub());
            journal.log(
                rt,
                Entry::new(LogEvent::Listening, subject, Detail::At(address)),
            );
        }
    }
}

/// The mailboxes of the workers of this plan, and what they wait with. Names of hosts are looked up from now on.
fn mailboxes_of<R: Runtime>(
    rt: &R,
    alloc: Global,
    plan: &Plan<'_>,
) -> Result<(Mailboxes, Pollers), Refusal> {
    let listeners = &plan.service.listeners;
    let takes_lines = listeners.lines.is_some();
    let counts = WorkerCounts {
        sources: plan.ingest,
        subscribers: plan.serve,
        has_resolver: true,
        has_admin: takes_lines || listeners.page.is_some(),
        has_reloads: takes_lines,
    };
    let (mailboxes, pollers) = match Mailboxes::new(rt, alloc, counts) {
        Ok(made) => made,
        Err(error) => return Err(refusal_of(error)),
    };
    mailboxes.resolver.start(rt, alloc)?;
    Ok((mailboxes, pollers))
}

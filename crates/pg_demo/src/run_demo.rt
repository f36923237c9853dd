//! `pdcgw demo`: all of it in one process.

ghost use Rattle.std.specs.Prelude.{◌≡◌};

use crate::fault::Fault;
use crate::setup::edits;
use crate::sockets::Sockets;
use crate::state::DemoState;
use crate::workers::own_workers;
use pg_console::{
    Mailboxes, NoServiceCommands, Pollers, Runtime, ServiceBuilder, SetUp, SharedState,
    WorkerCounts, set_up,
};
use pg_recorder::Unrecorded;
use pg_service::Directory;
use pg_shared::{Named, Seat, Shared};
use pg_tools::{DemoVerdict, ExpectedStreams, Style};
use std::alloc::Global;
use std::marker::Brand;
use std::sync::atomic::AtomicBool;
use std::time::Instant;

/// The gateway's workers that have a mailbox. None reports addresses, since no source is connected to by a name.
const WORKERS: WorkerCounts = WorkerCounts {
    sources: 1,
    subscribers: 1,
    has_resolver: false,
    has_admin: true,
    has_reloads: false,
};

/// The options of a demo.
#[derive(Clone, Copy)]
pub struct DemoOptions {
    /// How the first subscriber's stream is shown.
    pub style: Style,
    /// For how many seconds data frames are sent. `None`: until it is ended by hand, and lines are read.
    pub seconds: Option<u32>,
}

/// Shows the gateway at work: two simulated sources, the gateway, and two subscribers, on free ports of this host.
/// Each data frame that was sent is compared with what comes. It ends after as many seconds as are asked for, or by hand; then
/// it answers what has become of the frames.
///
/// # Errors
///
/// That of the gateway, of a source or of a subscriber which ends it before.
pub fn demo<R: Runtime + Alloc<A = Global>>(
    rt: &R,
    options: DemoOptions,
) -> Result<DemoVerdict, Fault> {
    let alloc = rt.alloc();
    let SetUp {
        shared,
        seat,
        directory,
    } = set_up(rt, alloc, edits(alloc)?, None)?;
    run_all::<R, Brand>(rt, alloc, &shared, seat, options, directory)
}

/// Runs all workers, and answers the verdict.
fn run_all<R: Runtime, N: Named + Send>(
    rt: &R,
    alloc: Global,
    shared: &Shared,
    seat: Seat,
    options: DemoOptions,
    directory: Directory,
) -> Result<DemoVerdict, Fault>
    requires shared { shared.now ≡ N.table }
    requires seat { seat.table ≡ N.table }
{
    let start = Instant::now(rt)?;
    let shared_state = SharedState::new(alloc, directory)?;
    let (mailboxes, pollers) = Mailboxes::new(rt, alloc, WORKERS)?;
    let stop = AtomicBool::new(false);
    let service = mailboxes.handle(&shared_state, "demo", TICK, None, &stop);
    let state = DemoState::new(service, start, ExpectedStreams::new(alloc));
    serve_demo::<R, N>(rt, alloc, shared, seat, options, &state, pollers)?;
    state.take_outcome(rt)
}

/// From tick to tick, in milliseconds.
pub const TICK: u16 = 10;

/// Serves both sources and both subscribers, until the demo ends.
fn serve_demo<'a, R: Runtime, N: Named + Send>(
    rt: &'a R,
    alloc: Global,
    shared: &'a Shared,
    seat: Seat,
    options: DemoOptions,
    state: &'a DemoState<'a>,
    pollers: Pollers,
) -> Result<(), Fault>
    requires shared { shared.now ≡ N.table }
    requires seat { seat.table ≡ N.table }
{
    let builder = ServiceBuilder {
        rt,
        alloc,
        shared,
        service: state.service,
        start: state.start,
    };
    let Sockets {
        simulators,
        plan,
        addresses,
    } = Sockets::bind(rt, alloc)?;
    let (seat, keyboard) = shared.split(seat);
    let own = own_workers::<R, N>(&builder, state, keyboard, options, simulators, addresses)?;
    builder.serve::<N, Unrecorded, _, _>(seat, pollers, plan, NoServiceCommands, own)?;
    Ok(())
}

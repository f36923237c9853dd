//! The workers that each service has, of whatever kind.

ghost use Rattle.pg_console.specs.Kinds.{Gives};

use crate::backend::ControlBackend;
use crate::console::ServiceCommands;
use crate::seats::HoldsSeat;
use pg_admin::AdminServer;
use pg_recorder::CallRecords;
use pg_service::{ConnectionsWorker, ResolverWorker};
use pg_shared::{Named, Seat, Work};
use pg_sources::{SourceWorker, Ticker};
use pg_subscribers::PortWorker;
use std::net::Net;
use std::rt::Clock;
use std::sync::Wait;

/// A worker of a service, so that one list has those of all kinds.
#[derive(Drop)]
pub enum ServiceWorker<
    'a,
    R: Wait + Net + Clock,
    N: Named,
    T: CallRecords,
    S: ServiceCommands + Drop,
    W: Drop,
> {
    /// Connects to sources.
    Sources(SourceWorker<'a, R, N, T>),
    /// Serves subscribers.
    Subscribers(PortWorker<'a, R, N, T>),
    /// Reports the addresses of names.
    Names(ResolverWorker<'a, R>),
    /// Reads the system's table of TCP connections.
    Connections(ConnectionsWorker<'a, R>),
    /// Posts ticks.
    Ticks(Ticker<'a, R, N, T>),
    /// Serves the control socket and the page.
    Admin(AdminServer<'a, R, ControlBackend<'a, R, N, S>>),
    /// One that only this program has.
    Own(W),
}

impl<
    R: Wait + Net + Clock,
    N: Named,
    T: CallRecords,
    S: ServiceCommands + Drop,
    W: Work + HoldsSeat<N> + Drop,
> Work for ServiceWorker<'_, R, N, T, S, W> {
    fn turn(&mut self) -> bool {
        match self {
            ServiceWorker::Sources(worker) => worker.turn(),
            ServiceWorker::Subscribers(worker) => worker.turn(),
            ServiceWorker::Names(worker) => worker.turn(),
            ServiceWorker::Connections(worker) => worker.turn(),
            ServiceWorker::Ticks(worker) => worker.turn(),
            ServiceWorker::Admin(worker) => worker.turn(),
            ServiceWorker::Own(worker) => worker.turn(),
        }
    }
}

impl<
    R: Wait + Net + Clock,
    N: Named,
    T: CallRecords,
    S: ServiceCommands + Drop,
    W: HoldsSeat<N> + Drop,
> HoldsSeat<N> for ServiceWorker<'_, R, N, T, S, W> {
    // Its own, or none.
    ghost gives = { Gives W.gives };

    fn into_seat(self) -> Option<Seat> {
        match self {
            ServiceWorker::Sources(worker) => Some(worker.into_gate().into_seat()),
            ServiceWorker::Subscribers(worker) => Some(worker.into_gate().into_seat()),
            ServiceWorker::Names(_) => None,
            ServiceWorker::Connections(_) => None,
            ServiceWorker::Ticks(worker) => Some(worker.into_gate().into_seat()),
            ServiceWorker::Admin(worker) => Some(worker.into_backend().into_gate().into_seat()),
            ServiceWorker::Own(worker) => worker.into_seat(),
        }
    }
}

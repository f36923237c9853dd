//! The workers of a service, as they are made.

ghost use Rattle.std.specs.Prelude.{◌≡◌, [], IfOk};
ghost use Rattle.pg_console.specs.Joining.{Begins};

use crate::admin_listeners::AdminListeners;
use crate::backend::ControlBackend;
use crate::console::ServiceCommands;
use crate::mailboxes::Pollers;
use crate::seats::{HoldsSeat, serve_by};
use crate::service_handle::ServiceHandle;
use crate::service_worker::ServiceWorker;
use pg_admin::{AdminBackend, AdminServer};
use pg_recorder::{CallRecords, RecordedAtOnce, WorkerGate};
use pg_service::{
    Assignment, ConnectionsWorker, Dial, Mailbox, Poller, ResolverWorker, WorkerHandles,
};
use pg_shared::{Named, Seat, Shared, Work};
use pg_sources::{SourceWorker, Ticker};
use pg_subscribers::{Port, PortWorker};
use pg_wire::Refusal;
use std::alloc::{AllocError, Global};
use std::io;
use std::io::ErrorKind;
use std::net::{Net, TcpListener, TcpStream};
use std::rt::Clock;
use std::sync::Wait;
use std::thread::Threads;
use std::time::{Duration, Instant};

/// What the workers of a service are made with. Each that posts gets a gate of its own, whose seat is split from the seat that is given and
/// given back.
#[derive(Drop)]
pub struct ServiceBuilder<'a, R> {
    /// What they need of the system.
    pub rt: &'a R,
    /// Where they take memory.
    pub alloc: Global,
    /// The gateway that they share.
    pub shared: &'a Shared,
    /// Their mailboxes, and what else they share.
    pub service: ServiceHandle<'a>,
    /// When the service starts.
    pub start: Instant,
}

/// What is served.
#[derive(Drop)]
pub struct ServicePlan<'a> {
    /// The sources that are connected to.
    pub dials: Vec<Dial>,
    /// The ports to which subscribers connect.
    pub ports: Vec<Port>,
    /// The time from tick to tick.
    pub tick: Duration,
    /// The control socket and the page.
    pub listeners: AdminListeners,
    /// Where the system's table of TCP connections is read, if it is.
    pub files: Option<&'a HostRuntime>,
}

impl<'a, R: Wait> ServiceBuilder<'a, R> {
    /// A gate for a worker, with a seat that is split from this one: it has seen what this one has, and no call was made at it. What
    /// it posts is recorded by T.
    pub fn gate<N: Named, T: CallRecords>(&self, seat: Seat) -> (Seat, WorkerGate<'a, R, N, T>)
        requires shared { self.now.shared.now ≡ N.table }
        requires seat { seat.table ≡ N.table }
        ensures seat { result.0 ≡ seat }
        ensures gate { (result.1.seat.table ≡ seat.table) × (result.1.seat.seen ≡ seat.seen) × (result.1.seat.own ≡ []) }
    {
        let (seat, own) = self.shared.split(seat);
        let records = T::of(self.rt, self.service.recorder);
        (seat, WorkerGate::new(self.rt, self.shared, own, records))
    }
}

impl<
    'a,
    R: Threads + Wait + Net<Listener = TcpListener, Stream = TcpStream> + Clock + Sync,
> ServiceBuilder<'a, R> {
    /// Serves by the workers of this plan and by these of the caller, each in a thread of its own, until all have ended. Those that connect to
    /// sources and those that serve subscribers are one for each of their pollers, and each source and each port is given to one of them, as
    /// the directory assigns it. Lines at the control socket that ask for more than an edit are left to `commands`.
    ///
    /// All seats are split from this one, and joined to it at the end. A thread is started for each of the caller's workers after those of
    /// the plan, in their order.
    ///
    /// # Errors
    ///
    /// That of the system, where a socket can't be waited for, and `OutOfMemory`.
    pub fn serve<
        N: Named + Send,
        T: CallRecords + Send,
        S: ServiceCommands + Send + Drop,
        W: Work + HoldsSeat<N> + Send + Drop,
    >(
        &self,
        seat: Seat,
        pollers: Pollers,
        plan: ServicePlan<'a>,
        commands: S,
        own: Vec<W>,
    ) -> io::Result<Seat>
        requires shared { self.now.shared.now ≡ N.table }
        requires seat { seat.table ≡ N.table }
        ensures begins { IfOk result (λ joined. Begins seat joined) }
    {
        self.service.tell_room(self.rt);
        let (seat, workers) = self.workers::<N, T, S, W>(seat, pollers, plan, commands, own)?;
        let (alloc, stop) = (self.alloc, self.service.stop);
        match serve_by::<R, N, ServiceWorker<'a, R, N, T, S, W>>(
            self.rt,
            alloc,
            self.shared,
            seat,
            workers,
            stop,
        ) {
            Ok(joined) => Ok(joined),
            Err(_) => Err(io::Error::from(ErrorKind::OutOfMemory)),
        }
    }
}

impl<'a, R: Wait + Net + Clock> ServiceBuilder<'a, R> {
    /// All workers, those of the caller last.
    fn workers<N: Named, T: CallRecords, S: ServiceCommands + Drop, W: Work + HoldsSeat<N> + Drop>(
        &self,
        seat: Seat,
        pollers: Pollers,
        plan: ServicePlan<'a>,
        commands: S,
        own: Vec<W>,
    ) -> io::Result<(Seat, Vec<ServiceWorker<'a, R, N, T, S, W>>)>
        requires shared { self.now.shared.now ≡ N.table }
        requires seat { seat.table ≡ N.table }
        ensures seat { IfOk result (λ made. made.0 ≡ seat) }
    {
        let Pollers {
            sources,
            ports: port_pollers,
            resolver,
            admin,
            ..
        } = pollers;
        let ServicePlan {
            dials,
            ports,
            tick,
            listeners,
            files,
        } = plan;
        let mut workers = Vec::new(self.alloc);
        let seat = self.add_source_workers(seat, sources, dials, &mut workers)?;
        let seat = self.add_port_workers(seat, port_pollers, ports, &mut workers)?;
        let seat = self.add_ticker(seat, tick, &mut workers)?;
        self.add_lookup_workers(resolver, files, &mut workers)?;
        let seat = self.add_admin_worker(seat, admin, listeners, commands, &mut workers)?;
        push_own(own, &mut workers)?;
        Ok((seat, workers))
    }

    /// Adds the workers that connect to sources, one for each of these pollers. Each source is given to one of them.
    fn add_source_workers<N: Named, T: CallRecords, S: ServiceCommands + Drop, W: Drop>(
        &self,
        seat: Seat,
        pollers: Vec<Poller>,
        dials: Vec<Dial>,
        workers: &mut Vec<ServiceWorker<'a, R, N, T, S, W>>,
    ) -> io::Result<Seat>
        requires shared { self.now.shared.now ≡ N.table }
        requires seat { seat.table ≡ N.table }
        ensures seat { IfOk result (λ rest. rest ≡ seat) }
    {
        let (seat, mut source_workers) = self.idle_source_workers::<N, T>(seat, pollers)?;
        self.assign_sources(&mut source_workers, dials)?;
        push_sources(source_workers, workers)?;
        Ok(seat)
    }

    /// Gives each source to the worker that the directory assigns it.
    fn assign_sources<N: Named, T: CallRecords>(
        &self,
        workers: &mut Vec<SourceWorker<'a, R, N, T>>,
        dials: Vec<Dial>,
    ) -> io::Result<()> {
        let mut directory = self.service.directory.lock(self.rt);
        match share_sources(&mut directory.callers, workers, dials) {
            Ok(()) => Ok(()),
            Err(_) => Err(io::Error::from(ErrorKind::OutOfMemory)),
        }
    }

    /// A worker without sources for each of these pollers, with its mailbox.
    fn idle_source_workers<N: Named, T: CallRecords>(
        &self,
        seat: Seat,
        pollers: Vec<Poller>,
    ) -> io::Result<(Seat, Vec<SourceWorker<'a, R, N, T>>)>
        requires shared { self.now.shared.now ≡ N.table }
        requires seat { seat.table ≡ N.table }
        ensures seat { IfOk result (λ made. made.0 ≡ seat) }
    {
        let mut rest = seat;
        let mut workers = Vec::new(self.alloc);
        let mut number = 0;
        'pollers: for poller in pollers {
            let Some(mailbox) = self.service.sources.get(number) else {
                break;
            };
            let (next, gate) = self.gate::<N, T>(rest);
            rest = next;
            workers.push(SourceWorker::new(
                self.rt,
                self.alloc,
                gate,
                poller,
                number,
                mailbox,
                self.service.handles,
                self.start,
            ))?;
            number += 1;
        }
        Ok((rest, workers))
    }

    /// Adds the workers that serve subscribers, one for each of these pollers. Each port is given to one of them.
    fn add_port_workers<N: Named, T: CallRecords, S: ServiceCommands + Drop, W: Drop>(
        &self,
        seat: Seat,
        pollers: Vec<Poller>,
        ports: Vec<Port>,
        workers: &mut Vec<ServiceWorker<'a, R, N, T, S, W>>,
    ) -> io::Result<Seat>
        requires shared { self.now.shared.now ≡ N.table }
        requires seat { seat.table ≡ N.table }
        ensures seat { IfOk result (λ rest. rest ≡ seat) }
    {
        let (seat, mut port_workers) = self.idle_port_workers::<N, T>(seat, pollers)?;
        self.assign_ports(&mut port_workers, ports)?;
        push_ports(port_workers, workers)?;
        Ok(seat)
    }

    /// Gives each port to the worker that the directory assigns it.
    fn assign_ports<N: Named, T: CallRecords>(
        &self,
        workers: &mut Vec<PortWorker<'a, R, N, T>>,
        ports: Vec<Port>,
    ) -> io::Result<()> {
        let mut directory = self.service.directory.lock(self.rt);
        share_ports(&mut directory.servers, workers, ports)
    }

    /// A worker without ports for each of these pollers, with its mailbox.
    fn idle_port_workers<N: Named, T: CallRecords>(
        &self,
        seat: Seat,
        pollers: Vec<Poller>,
    ) -> io::Result<(Seat, Vec<PortWorker<'a, R, N, T>>)>
        requires shared { self.now.shared.now ≡ N.table }
        requires seat { seat.table ≡ N.table }
        ensures seat { IfOk result (λ made. made.0 ≡ seat) }
    {
        let WorkerHandles {
            ports,
            journal,
            collector,
            ..
        } = self.service.handles;
        let mut rest = seat;
        let mut workers = Vec::new(self.alloc);
        let mut number = 0;
        'pollers: for poller in pollers {
            let Some(mailbox) = ports.get(number) else {
                break;
            };
            let (next, gate) = self.gate::<N, T>(rest);
            rest = next;
            workers.push(PortWorker::new(
                self.rt,
                self.alloc,
                gate,
                poller,
                mailbox,
                self.service.sources,
                journal,
                collector,
                self.start,
            ))?;
            number += 1;
        }
        Ok((rest, workers))
    }

    /// Adds the worker that posts a tick after each such time.
    fn add_ticker<N: Named, T: CallRecords, S: ServiceCommands + Drop, W: Drop>(
        &self,
        seat: Seat,
        tick: Duration,
        workers: &mut Vec<ServiceWorker<'a, R, N, T, S, W>>,
    ) -> Result<Seat, AllocError>
        requires shared { self.now.shared.now ≡ N.table }
        requires seat { seat.table ≡ N.table }
        ensures seat { IfOk result (λ rest. rest ≡ seat) }
    {
        let (seat, gate) = self.gate::<N, T>(seat);
        let ticker = Ticker::new(self.rt, gate, tick, self.service.handles);
        workers.push(ServiceWorker::Ticks(ticker))?;
        Ok(seat)
    }

    /// Adds the worker that reports the addresses of names that were looked up, and the one that reads the system's table of TCP connections.
    fn add_lookup_workers<N: Named, T: CallRecords, S: ServiceCommands + Drop, W: Drop>(
        &self,
        resolver: Option<Poller>,
        files: Option<&'a HostRuntime>,
        workers: &mut Vec<ServiceWorker<'a, R, N, T, S, W>>,
    ) -> io::Result<()> {
        let ServiceHandle {
            sources,
            handles,
            ..
        } = self.service;
        let WorkerHandles {
            ports,
            resolver: names,
            journal,
            collector,
        } = handles;
        let (rt, alloc) = (self.rt, self.alloc);
        if let Some(poller) = resolver {
            let worker = ResolverWorker::new(rt, alloc, poller, names, sources, journal);
            workers.push(ServiceWorker::Names(worker))?;
        }
        if let Some(files) = files {
            let table = collector.connections();
            let worker = ConnectionsWorker::new(rt, files, alloc, table, ports, journal);
            workers.push(ServiceWorker::Connections(worker))?;
        }
        Ok(())
    }

    /// Adds the admin worker, where there is a poller and a mailbox for it. It serves what these listen for, which is written to the log.
    fn add_admin_worker<N: Named, T: CallRecords, S: ServiceCommands + Drop, W: Drop>(
        &self,
        seat: Seat,
        poller: Option<Poller>,
        listeners: AdminListeners,
        commands: S,
        workers: &mut Vec<ServiceWorker<'a, R, N, T, S, W>>,
    ) -> io::Result<Seat>
        requires shared { self.now.shared.now ≡ N.table }
        requires seat { seat.table ≡ N.table }
        ensures seat { IfOk result (λ rest. rest ≡ seat) }
    {
        let Some(poller) = poller else {
            return Ok(seat);
        };
        let Some(mailbox) = self.service.admin else {
            return Ok(seat);
        };
        let (seat, gate) = self.gate::<N, RecordedAtOnce>(seat);
        let backend = ControlBackend::new(self.rt, self.alloc, gate, self.service, commands);
        let admin = self.admin_server(poller, mailbox, listeners, backend)?;
        workers.push(ServiceWorker::Admin(admin))?;
        Ok(seat)
    }

    /// The admin worker, which serves what these listen for.
    fn admin_server<B: AdminBackend + Drop>(
        &self,
        poller: Poller,
        mailbox: &'a Mailbox<()>,
        listeners: AdminListeners,
        backend: B,
    ) -> io::Result<AdminServer<'a, R, B>> {
        let journal = self.service.handles.journal;
        let mut admin = AdminServer::new(
            self.rt, self.alloc, poller, mailbox, journal, backend, self.start,
        )?;
        listeners.open(self.rt, &mut admin, journal)?;
        Ok(admin)
    }
}

/// Adds these workers to those of the service.
fn push_sources<
    'a,
    R: Wait + Net + Clock,
    N: Named,
    T: CallRecords,
    S: ServiceCommands + Drop,
    W: Drop,
>(
    made: Vec<SourceWorker<'a, R, N, T>>,
    workers: &mut Vec<ServiceWorker<'a, R, N, T, S, W>>,
) -> Result<(), AllocError> {
    for worker in made {
        workers.push(ServiceWorker::Sources(worker))?;
    }
    Ok(())
}

/// Adds these workers to those of the service.
fn push_ports<
    'a,
    R: Wait + Net + Clock,
    N: Named,
    T: CallRecords,
    S: ServiceCommands + Drop,
    W: Drop,
>(
    made: Vec<PortWorker<'a, R, N, T>>,
    workers: &mut Vec<ServiceWorker<'a, R, N, T, S, W>>,
) -> Result<(), AllocError> {
    for worker in made {
        workers.push(ServiceWorker::Subscribers(worker))?;
    }
    Ok(())
}

/// Adds these workers to those of the service.
fn push_own<
    'a,
    R: Wait + Net + Clock,
    N: Named,
    T: CallRecords,
    S: ServiceCommands + Drop,
    W: Drop,
>(made: Vec<W>, workers: &mut Vec<ServiceWorker<'a, R, N, T, S, W>>) -> Result<(), AllocError> {
    for worker in made {
        workers.push(ServiceWorker::Own(worker))?;
    }
    Ok(())
}

/// Gives each source to its worker.
fn share_sources<R: Wait + Net + Clock, N: Named, T: CallRecords>(
    assignment: &mut Assignment,
    workers: &mut Vec<SourceWorker<'_, R, N, T>>,
    dials: Vec<Dial>,
) -> Result<(), Refusal> {
    let count = workers.len();
    for dial in dials {
        let place = assignment.worker_of(dial.source.get(), count)?;
        if let Some(worker) = workers.get_mut(place) {
            worker.dial(dial)?;
        }
    }
    Ok(())
}

/// Gives each port to its worker.
fn share_ports<R: Wait + Net + Clock, N: Named, T: CallRecords>(
    assignment: &mut Assignment,
    workers: &mut Vec<PortWorker<'_, R, N, T>>,
    ports: Vec<Port>,
) -> io::Result<()> {
    let count = workers.len();
    for port in ports {
        let Ok(place) = assignment.worker_of(port.sub().get(), count) else {
            return Err(io::Error::from(ErrorKind::OutOfMemory));
        };
        if let Some(worker) = workers.get_mut(place) {
            worker.open(port)?;
        }
    }
    Ok(())
}

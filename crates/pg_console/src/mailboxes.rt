//! The mailboxes of a service's workers, and what the workers wait with.

ghost use Rattle.std.specs.Prelude.{◌≡◌, IfOk, is_some, vec_len};

use crate::reloads::Reloads;
use crate::service_handle::ServiceHandle;
use crate::shared_state::SharedState;
use pg_recorder::Recorder;
use pg_service::{Mailbox, Poller, PortOrder, Resolver, SourceOrder, WorkerHandles};
use std::alloc::Global;
use std::io;
use std::net::Net;
use std::sync::atomic::AtomicBool;

/// How many workers with a mailbox a service has of each kind.
#[derive(Clone, Copy)]
pub struct WorkerCounts {
    /// Those that connect to sources.
    pub sources: usize,
    /// Those that serve subscribers.
    pub subscribers: usize,
    /// Whether one reports addresses of names.
    pub has_resolver: bool,
    /// Whether one serves the control socket and the page.
    pub has_admin: bool,
    /// Whether one does the reloads that clients of the control socket ask for.
    pub has_reloads: bool,
}

/// The mailboxes of a service's workers.
#[derive(Drop)]
pub struct Mailboxes {
    /// Those of the workers that connect to sources.
    pub sources: Vec<Mailbox<SourceOrder>>,
    /// Those of the workers that serve subscribers.
    pub ports: Vec<Mailbox<PortOrder>>,
    /// The names that wait to be looked up, with the mailbox of the worker that reports their addresses, if there is one.
    pub resolver: Resolver,
    /// That of the admin worker, which serves the control socket and the page, if there is one.
    pub admin: Option<Mailbox<()>>,
    /// The reloads that clients of the control socket ask for, where a worker does them.
    pub reloads: Option<Reloads>,
}

/// What the workers of a service wait with, each by the mailbox of the same place.
#[derive(Drop)]
pub struct Pollers {
    /// Those of the workers that connect to sources.
    pub sources: Vec<Poller>,
    /// Those of the workers that serve subscribers.
    pub ports: Vec<Poller>,
    /// That of the worker that reports addresses of names, if there is one.
    pub resolver: Option<Poller>,
    /// That of the admin worker, if there is one.
    pub admin: Option<Poller>,
    /// That of the worker that does reloads, if there is one.
    pub reloads: Option<Poller>,
}

impl Mailboxes {
    /// An empty mailbox for each of so many workers, and what the worker waits with.
    ///
    /// # Errors
    ///
    /// That of the system, where a worker can't wait or be woken, and `OutOfMemory`.
    pub fn new<R: Net>(
        rt: &R,
        alloc: Global,
        counts: WorkerCounts,
    ) -> io::Result<(Mailboxes, Pollers)>
        ensures sources { IfOk result (λ made. (vec_len made.0.sources ≡ counts.sources) × (vec_len made.1.sources ≡ counts.sources)) }
        ensures ports { IfOk result (λ made. (vec_len made.0.ports ≡ counts.subscribers) × (vec_len made.1.ports ≡ counts.subscribers)) }
        ensures admin { IfOk result (λ made. (is_some made.0.admin ≡ counts.has_admin) × (is_some made.1.admin ≡ counts.has_admin)) }
    {
        let (source_pollers, sources) = mailboxes_for(rt, alloc, counts.sources)?;
        let (port_pollers, ports) = mailboxes_for(rt, alloc, counts.subscribers)?;
        let (resolver_poller, resolver) = mailbox_if(rt, alloc, counts.has_resolver)?;
        let (admin_poller, admin) = mailbox_if(rt, alloc, counts.has_admin)?;
        let (reload_poller, reloads) = mailbox_if(rt, alloc, counts.has_reloads)?;
        let mailboxes = Mailboxes {
            sources,
            ports,
            resolver: Resolver::new(alloc, resolver)?,
            admin,
            reloads: reloads_of(alloc, reloads),
        };
        let pollers = Pollers {
            sources: source_pollers,
            ports: port_pollers,
            resolver: resolver_poller,
            admin: admin_poller,
            reloads: reload_poller,
        };
        Ok((mailboxes, pollers))
    }

    /// The workers of these mailboxes, as others of the service reach them. `name` is the gateway's, `tick_ms` the milliseconds from tick to
    /// tick, and `stop` is set where all workers are to end.
    pub fn handle<'a>(
        &'a self,
        state: &'a SharedState,
        name: &'a str,
        tick_ms: u16,
        recorder: Option<&'a Recorder>,
        stop: &'a AtomicBool,
    ) -> ServiceHandle<'a> {
        ServiceHandle {
            sources: &self.sources,
            handles: WorkerHandles {
                ports: &self.ports,
                resolver: &self.resolver,
                journal: &state.journal,
                collector: &state.collector,
            },
            name,
            tick_ms,
            directory: &state.directory,
            admin: self.admin.as_ref(),
            reloads: self.reloads.as_ref(),
            recorder,
            stop,
        }
    }
}

/// No reload was asked for, where a worker with this mailbox does them.
fn reloads_of(alloc: Global, mailbox: Option<Mailbox<()>>) -> Option<Reloads> {
    match mailbox {
        Some(mailbox) => Some(Reloads::new(alloc, mailbox)),
        None => None,
    }
}

/// What a worker waits with, and its mailbox.
fn mailbox<R: Net, O: Drop>(rt: &R, alloc: Global) -> io::Result<(Poller, Mailbox<O>)> {
    let poller = Poller::new(rt, alloc)?;
    let mailbox = Mailbox::new(alloc, poller.poll())?;
    Ok((poller, mailbox))
}

/// The same for a worker that may be missing.
fn mailbox_if<R: Net, O: Drop>(
    rt: &R,
    alloc: Global,
    has_worker: bool,
) -> io::Result<(Option<Poller>, Option<Mailbox<O>>)>
    ensures poller { IfOk result (λ made. is_some made.0 ≡ has_worker) }
    ensures mailbox { IfOk result (λ made. is_some made.1 ≡ has_worker) }
{
    if !has_worker {
        return Ok((None, None));
    }
    let (poller, mailbox) = mailbox(rt, alloc)?;
    Ok((Some(poller), Some(mailbox)))
}

/// What so many workers wait with, and a mailbox for each.
fn mailboxes_for<R: Net, O: Drop>(
    rt: &R,
    alloc: Global,
    count: usize,
) -> io::Result<(Vec<Poller>, Vec<Mailbox<O>>)>
    ensures pollers { IfOk result (λ made. vec_len made.0 ≡ count) }
    ensures mailboxes { IfOk result (λ made. vec_len made.1 ≡ count) }
{
    let mut pollers = Vec::new(alloc);
    let mut boxes = Vec::new(alloc);
    for _place in 0..count {
        let (poller, mailbox) = mailbox(rt, alloc)?;
        pollers.push(poller)?;
        boxes.push(mailbox)?;
    }
    Ok((pollers, boxes))
}

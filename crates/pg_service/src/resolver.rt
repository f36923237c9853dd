//! Addresses of names, looked up apart from all workers.

use crate::mail::{Mailbox, SourceOrder};
use crate::poller::{LONGEST_WAIT_MS, Poller};
use pg_log::{Journal, LogEvent};
use pg_shared::Work;
use pg_wire::PmuId;
use std::alloc::{AllocError, Global};
use std::net::{Net, SocketAddr, TcpListener, TcpStream, ToSocketAddrs};
use std::rt::Clock;
use std::sync::atomic::{AtomicUsize, Ordering};
use std::sync::{Arc, Condvar, Mutex, Wait};
use std::thread::Threads;
use std::time::Duration;
use std::{mem, thread};

/// How many names are looked up at a time.
const LOOKUPS: usize = 4;

/// How many addresses of a name are called.
const FOUND: usize = 8;

/// How often it is looked for addresses while names are looked up, in milliseconds.
const LOOK_MS: u64 = 20;

/// A name to look up for a source's call.
#[derive(Drop)]
pub struct Lookup {
    /// The number of the worker that calls the source.
    pub worker: usize,
    /// The source.
    pub source: PmuId,
    /// The number of its dial.
    pub dial: u64,
    /// The place of the name among the targets of the dial.
    pub place: usize,
    /// Its name and port, `NAME:PORT`.
    pub name: String,
}

/// A name that was looked up.
#[derive(Drop)]
struct Found {
    worker: usize,
    source: PmuId,
    dial: u64,
    place: usize,
    // Its addresses, if it has any.
    addresses: Vec<SocketAddr>,
}

/// The names that wait to be looked up, and those that were. The threads that look names up hold this and nothing else of the service: the
/// system's look-up can't be ended, so that nobody waits for such a thread, and the program ends without it.
#[derive(Drop)]
struct Names {
    waiting: Mutex<Vec<Lookup>>,
    // A name waits.
    come: Condvar,
    found: Mutex<Vec<Found>>,
    // How many names there was no memory for.
    lost: AtomicUsize,
}

impl Names {
    /// The name that waits longest. Where none waits, one is waited for.
    fn next<R: Wait>(&self, rt: &R) -> Option<Lookup> {
        let waiting = self.waiting.lock(rt);
        let mut held = self
            .come
            .wait_while(rt, waiting, |waiting| waiting.is_empty());
        if held.is_empty() {
            None
        } else {
            Some(held.remove(0))
        }
    }

    /// Looks a name up, and leaves its addresses.
    fn look_up<R: Wait + Net>(&self, rt: &R, alloc: Global, lookup: Lookup) {
        let Lookup {
            worker,
            source,
            dial,
            place,
            name,
        } = lookup;
        let found = Found {
            worker,
            source,
            dial,
            place,
            addresses: addresses_of(rt, alloc, name.as_str()),
        };
        if self.found.lock(rt).push(found).is_err() {
            self.lost.fetch_add(1, Ordering::SeqCst);
        }
    }
}

/// The names that wait to be looked up, by all sources. Four are looked up at a time, so that a name that no server answers keeps
/// no other one waiting.
#[derive(Drop)]
pub struct Resolver {
    names: Arc<Names>,
    mailbox: Option<Mailbox<()>>,
    // How many names were asked for and not reported.
    under_way: AtomicUsize,
}

impl Resolver {
    /// No name waits. Its worker is woken by this mailbox; without a worker no address is reported.
    ///
    /// # Errors
    ///
    /// There is no memory.
    pub fn new(alloc: Global, mailbox: Option<Mailbox<()>>) -> Result<Resolver, AllocError> {
        let names = Names {
            waiting: Mutex::new(Vec::new(alloc)),
            come: Condvar::new(),
            found: Mutex::new(Vec::new(alloc)),
            lost: AtomicUsize::new(0),
        };
        Ok(Resolver {
            names: Arc::new(alloc, names)?,
            mailbox,
            under_way: AtomicUsize::new(0),
        })
    }

    /// Starts the threads that look names up. They end with the program.
    ///
    /// # Errors
    ///
    /// There is no memory, or a thread can't be started.
    pub fn start<R>(&self, rt: &R, alloc: Global) -> Result<(), AllocError>
    where
        R: Wait + Net<Listener = TcpListener, Stream = TcpStream> + Threads + Copy + Send + 'static,
    {
        for _ in 0..LOOKUPS {
            start_thread(rt, alloc, self.names.clone()?)?;
        }
        Ok(())
    }

    /// Has a name looked up, and reports whether there was memory for it.
    pub fn ask<R: Wait>(&self, rt: &R, journal: &Journal, lookup: Lookup) -> bool {
        let is_left = self.names.waiting.lock(rt).push(lookup).is_ok();
        if is_left {
            self.under_way.fetch_add(1, Ordering::SeqCst);
            self.names.come.notify_one();
            self.wake(journal);
        }
        is_left
    }

    /// Wakes its worker.
    pub fn wake(&self, journal: &Journal) {
        if let Some(mailbox) = &self.mailbox {
            mailbox.wake(journal);
        }
    }

    /// The names that were looked up and not reported. Where there was no memory for one, that is noted.
    fn take_found<R: Wait>(&self, rt: &R, alloc: Global, journal: &Journal) -> Vec<Found> {
        let lost = self.names.lost.swap(0, Ordering::SeqCst);
        for _ in 0..lost {
            journal.note(LogEvent::MailFault);
        }
        let mut held = self.names.found.lock(rt);
        let found = mem::replace(&mut *held, Vec::new(alloc));
        drop(held);
        self.under_way
            .fetch_sub(found.len().saturating_add(lost), Ordering::SeqCst);
        found
    }
}

/// Starts a thread that looks these names up, one after another.
fn start_thread<R>(rt: &R, alloc: Global, names: Arc<Names>) -> Result<(), AllocError>
where
    R: Wait + Net<Listener = TcpListener, Stream = TcpStream> + Threads + Copy + Send + 'static,
{
    let own = *rt;
    // Its handle is dropped, so that nobody waits for it.
    let _left = thread::spawn(rt, move || {
        for _ in 0..u64::MAX {
            if let Some(lookup) = names.next(&own) {
                names.look_up(&own, alloc, lookup);
            }
        }
    })?;
    Ok(())
}

/// A worker that reports the addresses of names that were looked up to the workers that asked.
#[derive(Drop)]
pub struct ResolverWorker<'a, R: Wait + Clock> {
    rt: &'a R,
    alloc: Global,
    waiting: Poller,
    resolver: &'a Resolver,
    sources: &'a [Mailbox<SourceOrder>],
    journal: &'a Journal,
}

impl<'a, R: Wait + Clock> ResolverWorker<'a, R> {
    /// The worker of this resolver, which waits by this and reports to these workers.
    pub fn new(
        rt: &'a R,
        alloc: Global,
        waiting: Poller,
        resolver: &'a Resolver,
        sources: &'a [Mailbox<SourceOrder>],
        journal: &'a Journal,
    ) -> ResolverWorker<'a, R> {
        ResolverWorker {
            rt,
            alloc,
            waiting,
            resolver,
            sources,
            journal,
        }
    }

    /// Reports addresses to the worker that asked for them.
    fn report(&self, found: Found) {
        let Found {
            worker,
            source,
            dial,
            place,
            addresses,
        } = found;
        if let Some(mailbox) = self.sources.get(worker) {
            let found = SourceOrder::Found {
                source,
                dial,
                place,
                addresses,
            };
            mailbox.send(self.rt, self.journal, found);
        }
    }

    /// How long a turn waits at most: a short time while names are looked up.
    fn timers(&self) -> Duration {
        let most = if self.resolver.under_way.load(Ordering::SeqCst) == 0 {
            LONGEST_WAIT_MS
        } else {
            LOOK_MS
        };
        Duration::from_millis(most)
    }
}

/// The addresses of a name, 8 at most: those of four numbers, or the others where there is none of these. Without memory for all, those that
/// there is memory for.
fn addresses_of<R: Net>(rt: &R, alloc: Global, name: &str) -> Vec<SocketAddr> {
    let mut found = Vec::new(alloc);
    let mut others = Vec::new(alloc);
    if let Ok(all) = name.to_socket_addrs(rt) {
        for address in all {
            let list = if address.is_ipv4() {
                &mut found
            } else {
                &mut others
            };
            if list.len() < FOUND && !list.contains(&address) {
                // The addresses before it are enough to call.
                let _ = list.push(address);
            }
        }
    }
    if found.is_empty() { others } else { found }
}

impl<R: Wait + Clock> Work for ResolverWorker<'_, R> {
    fn turn(&mut self) -> bool {
        let most = self.timers();
        self.waiting.wait(self.rt, self.journal, most);
        // A wake reports that a name was asked for, or that all workers are to end.
        if let Some(mailbox) = &self.resolver.mailbox {
            drop(mailbox.take(self.rt, self.alloc));
        }
        for found in self.resolver.take_found(self.rt, self.alloc, self.journal) {
            self.report(found);
        }
        true
    }
}

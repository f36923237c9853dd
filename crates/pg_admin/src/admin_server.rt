//! The worker that serves the control socket, the page and the metrics.

use crate::backend::AdminBackend;
use crate::control_server::{CLIENTS, ControlServer};
use crate::http_server::HttpServer;
use crate::snapshot_cache::SnapshotCache;
use mio::net::{TcpListener, UnixListener};
use pg_log::{Journal, LogEvent};
use pg_service::{Mailbox, Poller};
use pg_shared::Work;
use std::alloc::Global;
use std::io;
use std::net::Net;
use std::rt::Clock;
use std::sync::Wait;
use std::time::{Duration, Instant};

/// How long a turn waits at most, so that the worker does not miss that it is to stop.
const LONGEST_WAIT_MS: u64 = 1_000;

/// The token of the control socket; those of its connections follow it.
const LINES: usize = 0;

/// The token of the page; those of its connections follow it.
const PAGE: usize = LINES + 1 + CLIENTS;

/// A worker that serves the control socket and the page. A turn waits until a socket is ready, or it is woken, or a
/// connection has lasted as long as it may. Then each connection that is ready is served once. At most 8 clients write lines, and
/// at most 16 connections read the page or the metrics. For one more the client is closed that has been silent longest, and for 60 seconds at
/// least, or the connection that has been idle longest, and for a second at least; without such a one it is answered `Busy`, or 503, and
/// closed. Where the page is served, the backend is asked once a second for what it shows.
#[derive(Drop)]
pub struct AdminServer<'a, R: Wait + Clock + Net, C: AdminBackend + Drop> {
    rt: &'a R,
    alloc: Global,
    waiting: Poller,
    mailbox: &'a Mailbox<()>,
    journal: &'a Journal,
    backend: C,
    lines: ControlServer,
    pages: HttpServer,
    cache: SnapshotCache,
    now: Instant,
}

impl<'a, R: Wait + Clock + Net, C: AdminBackend + Drop> AdminServer<'a, R, C> {
    /// Nothing is served yet. By the mailbox, which is that of this wait, it is woken.
    ///
    /// # Errors
    ///
    /// `OutOfMemory`.
    pub fn new(
        rt: &'a R,
        alloc: Global,
        waiting: Poller,
        mailbox: &'a Mailbox<()>,
        journal: &'a Journal,
        backend: C,
        now: Instant,
    ) -> io::Result<AdminServer<'a, R, C>> {
        Ok(AdminServer {
            rt,
            alloc,
            waiting,
            mailbox,
            journal,
            backend,
            lines: ControlServer::new(alloc, LINES),
            pages: HttpServer::new(alloc, PAGE)?,
            cache: SnapshotCache::new(alloc, now),
            now,
        })
    }

    /// From now on lines are taken at this socket.
    ///
    /// # Errors
    ///
    /// That of the system, where it can't be waited for.
    pub fn take_lines(&mut self, listener: UnixListener) -> io::Result<()> {
        self.lines.open(listener, self.waiting.poll())
    }

    /// From now on the page, its state and the metrics are served here.
    ///
    /// # Errors
    ///
    /// That of the system, where it can't be waited for.
    pub fn show_page(&mut self, listener: TcpListener) -> io::Result<()> {
        self.pages.open(listener, self.waiting.poll())
    }

    /// Its backend. All its sockets are closed.
    pub fn into_backend(self) -> C {
        let AdminServer { backend, .. } = self;
        backend
    }

    /// How long a turn waits at most.
    fn next_timeout(&self) -> Duration {
        let mut most = Duration::from_millis(LONGEST_WAIT_MS);
        if let Some(left) = self.lines.left(self.now) {
            most = most.min(left);
        }
        if let Some(left) = self.pages.left(self.now) {
            most = most.min(left);
        }
        if self.pages.is_open() {
            most = most.min(self.cache.left(self.now));
        }
        most
    }

    /// Reads the clock. Where it can't be read, it is as late as it was.
    fn read_clock(&mut self) {
        match Instant::now(self.rt) {
            Ok(now) => self.now = now,
            Err(_) => self.journal.note(LogEvent::ClockFault),
        }
    }

    /// Marks the sockets that the system reports as ready.
    fn mark_named(&mut self) {
        for named in self.waiting.named() {
            if *named < PAGE {
                self.lines.named(*named);
            } else {
                self.pages.named(*named);
            }
        }
    }
}

impl<R: Wait + Clock + Net, C: AdminBackend + Drop> Work for AdminServer<'_, R, C> {
    fn turn(&mut self) -> bool {
        let most = self.next_timeout();
        self.waiting.wait(self.rt, self.journal, most);
        self.read_clock();
        if self.waiting.is_woken() {
            // It may be to stop, which is seen between turns, or an answer is there that a client awaits.
            drop(self.mailbox.take(self.rt, self.alloc));
            self.lines.wake_awaiting();
        }
        self.mark_named();
        let poll = self.waiting.poll();
        self.lines
            .turn(self.rt, poll, &mut self.backend, self.journal, self.now);
        if self.pages.is_open() && self.cache.look(&mut self.backend, self.now).is_err() {
            self.journal.note(LogEvent::MailFault);
        }
        self.pages
            .turn(self.rt, poll, &self.cache, self.journal, self.now);
        true
    }
}

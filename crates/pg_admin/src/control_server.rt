//! The clients that write lines at the control socket.

use crate::backend::AdminBackend;
use crate::events::{log_error, log_event};
use mio::net::{UnixListener, UnixStream};
use mio::{Interest, Poll, Token};
use pg_log::{Journal, LogEvent};
use pg_service::{ACCEPTED, Acceptor};
use pg_status::{BUSY, ControlProtocol, Turned, place_for};
use std::alloc::Global;
use std::io;
use std::io::Write;
use std::rt::Clock;
use std::sync::Wait;
use std::time::{Duration, Instant};

/// How many may write lines at a time.
pub(crate) const CLIENTS: usize = 8;

/// How long a client has to have sent nothing before it is closed for one that connects, in seconds.
const SILENT_SECONDS: u64 = 60;

/// A client that writes lines.
#[derive(Drop)]
struct ControlClient {
    stream: UnixStream,
    protocol: ControlProtocol,
    is_ready: bool,
}

impl ControlClient {
    /// Has its lines answered, and returns whether it stays.
    fn serve<C: AdminBackend>(&mut self, backend: &mut C, now: Instant) -> bool {
        let mut reader = &self.stream;
        let mut writer = &self.stream;
        match self.protocol.serve(&mut reader, &mut writer, backend, now) {
            Turned::Waits => {
                self.is_ready = false;
                true
            }
            Turned::More => true,
            Turned::Gone => false,
        }
    }
}

/// The control socket, and its clients.
#[derive(Drop)]
pub(crate) struct ControlServer {
    alloc: Global,
    acceptor: Option<Acceptor<UnixListener>>,
    clients: [Option<ControlClient>; CLIENTS],
    // The token of the listener; those of the connections follow it.
    first: usize,
}

impl ControlServer {
    /// No lines are taken.
    pub(crate) fn new(alloc: Global, first: usize) -> ControlServer {
        ControlServer {
            alloc,
            acceptor: None,
            clients: [None, None, None, None, None, None, None, None],
            first,
        }
    }

    /// From now on lines are taken at this socket.
    pub(crate) fn open(&mut self, mut listener: UnixListener, poll: &Poll) -> io::Result<()> {
        poll.registry()
            .register(&mut listener, Token(self.first), Interest::READABLE)?;
        self.acceptor = Some(Acceptor::new(listener));
        Ok(())
    }

    /// The system names this token.
    pub(crate) fn named(&mut self, token: usize) {
        if token == self.first {
            if let Some(acceptor) = &mut self.acceptor {
                acceptor.timer.named();
            }
            return;
        }
        let place = token.wrapping_sub(self.first).wrapping_sub(1);
        if let Some(Some(client)) = self.clients.get_mut(place) {
            client.is_ready = true;
        }
    }

    /// The worker was woken: answers that clients await may be there.
    pub(crate) fn wake_awaiting(&mut self) {
        for client in self.clients.iter_mut().flatten() {
            if client.protocol.is_awaiting() {
                client.is_ready = true;
            }
        }
    }

    /// How long until there is something to do though no socket is ready, if there is.
    pub(crate) fn left(&self, now: Instant) -> Option<Duration> {
        if self.clients.iter().flatten().any(|it| it.is_ready) {
            return Some(Duration::ZERO);
        }
        match &self.acceptor {
            Some(acceptor) => acceptor.timer.left(now),
            None => None,
        }
    }

    /// Serves each client that is ready once, and then accepts those that want to connect: so the place of one that has ended is free.
    pub(crate) fn turn<R: Wait + Clock, C: AdminBackend>(
        &mut self,
        rt: &R,
        poll: &Poll,
        backend: &mut C,
        journal: &Journal,
        now: Instant,
    ) {
        for place in self.clients.iter_mut() {
            let stays = match place {
                Some(client) if client.is_ready => client.serve(backend, now),
                _ => true,
            };
            if !stays {
                *place = None;
            }
        }
        self.accept(rt, poll, journal, now);
    }

    /// Accepts those that want to connect.
    fn accept<R: Wait + Clock>(&mut self, rt: &R, poll: &Poll, journal: &Journal, now: Instant) {
        for _ in 0..ACCEPTED {
            let Some(acceptor) = &mut self.acceptor else {
                return;
            };
            if !acceptor.timer.is_due(now) {
                return;
            }
            let outcome = acceptor.listener.accept();
            match acceptor.accepted(outcome, now) {
                Ok(Some((stream, _))) => self.admit(rt, poll, journal, stream, now),
                Ok(None) => return,
                Err(error) => {
                    log_error(rt, journal, LogEvent::NotAccepted, &error);
                    return;
                }
            }
        }
    }

    /// Lets a connection in. Where all places are taken, the client that has been silent longest, and for 60 seconds at least, is closed
    /// for it; where no client has been, the connection is answered `Busy` and closed.
    fn admit<R: Wait + Clock>(
        &mut self,
        rt: &R,
        poll: &Poll,
        journal: &Journal,
        mut stream: UnixStream,
        now: Instant,
    ) {
        let least = Duration::from_secs(SILENT_SECONDS);
        let Some(place) = place_for(&self.silent(now), least) else {
            log_event(rt, journal, LogEvent::ClientRefused);
            // A new connection has room for a line; one that has none is closed without it.
            let _ = (&stream).write(BUSY);
            return;
        };
        let token = Token(self.first.saturating_add(1).saturating_add(place));
        let both = Interest::READABLE | Interest::WRITABLE;
        if poll.registry().register(&mut stream, token, both).is_err() {
            log_event(rt, journal, LogEvent::SocketFault);
            return;
        }
        if let Some(taken) = self.clients.get_mut(place) {
            if taken.is_some() {
                log_event(rt, journal, LogEvent::SilentClientClosed);
            }
            *taken = Some(ControlClient {
                stream,
                protocol: ControlProtocol::new(self.alloc, now),
                is_ready: true,
            });
        }
    }

    /// For how long the client of each place has been silent.
    fn silent(&self, now: Instant) -> [Duration; CLIENTS] {
        let mut silent = [Duration::MAX; CLIENTS];
        for (silent, client) in silent.iter_mut().zip(self.clients.iter()) {
            if let Some(client) = client {
                *silent = client.protocol.silent(now);
            }
        }
        silent
    }
}

//! The connections that look at the page or read the metrics.

use crate::events::{log_error, log_event};
use crate::snapshot_cache::SnapshotCache;
use mio::net::{TcpListener, TcpStream};
use mio::{Interest, Poll, Token};
use pg_log::{Journal, LogEvent};
use pg_service::{ACCEPTED, Acceptor};
use pg_status::{HttpExchange, Step, place_for};
use std::alloc::{AllocError, Global};
use std::io;
use std::net::Shutdown;
use std::rt::Clock;
use std::sync::Wait;
use std::time::{Duration, Instant};

/// The connections that are served at a time.
const SERVED: usize = 16;

/// The connections that are answered 503 at a time. One more closes the first of them, which was given its answer in an earlier turn,
/// since a turn accepts no more than these.
const TURNED_AWAY: usize = ACCEPTED as usize;

/// How long a connection has to have been idle before it is closed for a new one, in milliseconds.
const IDLE_MS: u64 = 1_000;

/// The steps of one connection in one turn: what it asks for, and the answer.
const STEPS: u32 = 2;

/// A connection that looks.
#[derive(Drop)]
struct HttpConnection {
    stream: TcpStream,
    exchange: HttpExchange,
    is_ready: bool,
}

impl HttpConnection {
    /// Serves it, and returns whether it stays.
    fn serve(&mut self, cache: &SnapshotCache, now: Instant) -> bool {
        for _ in 0..STEPS {
            let mut reader = &self.stream;
            let mut writer = &self.stream;
            match self.exchange.serve(&mut reader, &mut writer, now) {
                Step::Waits => {
                    self.is_ready = false;
                    return true;
                }
                Step::More => return true,
                Step::Asks(shown) => {
                    let answered = match cache.contents(shown) {
                        Ok(contents) => self.exchange.answer(&contents),
                        Err(error) => Err(error),
                    };
                    if answered.is_err() {
                        return false;
                    }
                }
                Step::Sent => return self.stream.shutdown(Shutdown::Write).is_ok(),
                Step::Gone => return false,
            }
        }
        true
    }

    /// How long until it has lasted as long as it may, or is served again.
    fn left(&self, now: Instant) -> Duration {
        if self.is_ready {
            Duration::ZERO
        } else {
            self.exchange.left(now)
        }
    }
}

/// The page's listener, and its connections.
#[derive(Drop)]
pub(crate) struct HttpServer {
    alloc: Global,
    acceptor: Option<Acceptor<TcpListener>>,
    // Those that are served, and behind these those that are answered 503.
    connections: Vec<Option<HttpConnection>>,
    // Where the next one goes that is answered 503, counted behind those that are served.
    next: usize,
    // The token of the listener; those of the connections follow it.
    first: usize,
}

impl HttpServer {
    /// Nothing is shown.
    pub(crate) fn new(alloc: Global, first: usize) -> io::Result<HttpServer> {
        let mut connections = Vec::with_capacity(alloc, SERVED + TURNED_AWAY)?;
        for _ in 0..SERVED + TURNED_AWAY {
            connections.push(None)?;
        }
        Ok(HttpServer {
            alloc,
            acceptor: None,
            connections,
            next: 0,
            first,
        })
    }

    /// From now on the page is served here.
    pub(crate) fn open(&mut self, mut listener: TcpListener, poll: &Poll) -> io::Result<()> {
        poll.registry()
            .register(&mut listener, Token(self.first), Interest::READABLE)?;
        self.acceptor = Some(Acceptor::new(listener));
        Ok(())
    }

    /// Whether the page is served.
    pub(crate) fn is_open(&self) -> bool {
        self.acceptor.is_some()
    }

    /// The system names this token.
    pub(crate) fn named(&mut self, token: usize) {
        if token == self.first {
            if let Some(acceptor) = &mut self.acceptor {
                acceptor.timer.named();
            }
            return;
        }
        let place = token.wrapping_sub(self.first).wrapping_sub(1);
        if let Some(Some(connection)) = self.connections.get_mut(place) {
            connection.is_ready = true;
        }
    }

    /// How long until there is something to do though no socket is ready, if there is.
    pub(crate) fn left(&self, now: Instant) -> Option<Duration> {
        let waited = match &self.acceptor {
            Some(acceptor) => acceptor.timer.left(now),
            None => None,
        };
        let served = self
            .connections
            .iter()
            .flatten()
            .map(|it| it.left(now))
            .min();
        match (waited, served) {
            (Some(waited), Some(served)) => Some(waited.min(served)),
            (waited, None) => waited,
            (None, served) => served,
        }
    }

    /// Serves each connection that is ready or overdue once, and then accepts those that want to connect: so what has come of one is
    /// read before it counts as idle, and the place of one that has ended is free.
    pub(crate) fn turn<R: Wait + Clock>(
        &mut self,
        rt: &R,
        poll: &Poll,
        cache: &SnapshotCache,
        journal: &Journal,
        now: Instant,
    ) {
        for place in self.connections.iter_mut() {
            let stays = match place {
                Some(connection) if connection.left(now).is_zero() => connection.serve(cache, now),
                _ => true,
            };
            if !stays {
                *place = None;
            }
        }
        self.accept(rt, poll, journal, now);
    }

    /// Accepts those that want to connect.
    fn accept<R: Wait + Clock>(&mut self, rt: &R, poll: &Poll, journal: &Journal, now: Instant) {
        for _ in 0..ACCEPTED {
            let Some(acceptor) = &mut self.acceptor else {
                return;
            };
            if !acceptor.timer.is_due(now) {
                return;
            }
            let outcome = acceptor.listener.accept();
            match acceptor.accepted(outcome, now) {
                Ok(Some((stream, _))) => self.admit(rt, poll, journal, stream, now),
                Ok(None) => return,
                Err(error) => {
                    log_error(rt, journal, LogEvent::NotAccepted, &error);
                    return;
                }
            }
        }
    }

    /// Lets a connection in. Where all places are taken, the connection that has been idle longest, and for a second at least, is closed
    /// for it; where none has been, it is answered 503.
    fn admit<R: Wait + Clock>(
        &mut self,
        rt: &R,
        poll: &Poll,
        journal: &Journal,
        mut stream: TcpStream,
        now: Instant,
    ) {
        let Ok((place, exchange)) = self.place_of_new(now) else {
            // Without memory it is closed.
            return;
        };
        if place >= SERVED {
            log_event(rt, journal, LogEvent::PageBusy);
        }
        let token = Token(self.first.saturating_add(1).saturating_add(place));
        let both = Interest::READABLE | Interest::WRITABLE;
        if poll.registry().register(&mut stream, token, both).is_err() {
            log_event(rt, journal, LogEvent::SocketFault);
            return;
        }
        if let Some(taken) = self.connections.get_mut(place) {
            if place < SERVED && taken.is_some() {
                log_event(rt, journal, LogEvent::IdlePageClosed);
            }
            *taken = Some(HttpConnection {
                stream,
                exchange,
                is_ready: true,
            });
        }
    }

    /// The place of a new connection, and what is done with it there.
    fn place_of_new(&mut self, now: Instant) -> Result<(usize, HttpExchange), AllocError> {
        let least = Duration::from_millis(IDLE_MS);
        if let Some(place) = place_for(&self.idle(now), least) {
            return Ok((place, HttpExchange::new(self.alloc, now)));
        }
        let place = SERVED.saturating_add(self.next);
        self.next = self.next.saturating_add(1) % TURNED_AWAY;
        Ok((place, HttpExchange::turned_away(self.alloc, now)?))
    }

    /// For how long the connection of each place has been idle, of those that are served.
    fn idle(&self, now: Instant) -> [Duration; SERVED] {
        let mut idle = [Duration::MAX; SERVED];
        for (idle, connection) in idle.iter_mut().zip(self.connections.iter()) {
            if let Some(connection) = connection {
                *idle = connection.exchange.idle(now);
            }
        }
        idle
    }
}

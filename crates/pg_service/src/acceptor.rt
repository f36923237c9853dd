//! When a listener is asked for a connection.
ghost use Rattle.std.specs.Prelude.{◌≡◌, ◌≢◌, true, Ok, Err, Some, None, IfOk, IfErr, option_map};
ghost use Rattle.std.specs.Duration.{as_nanos};
ghost use Rattle.std.specs.Time.{instant_nanos};
ghost use Rattle.std.specs.IoError.{error_kind};
ghost use Rattle.pg_service.specs.Accepting.{failed, is_due, left_by, none_waits, one_may_wait};

use pg_limits::Deadline;
use std::io;
use std::io::ErrorKind;
use std::marker::Model;
use std::time::{Duration, Instant};

/// The connections that one turn accepts at most. The others wait for the next turn.
pub const ACCEPTED: u32 = 16;

/// When it is tried again to accept, where the system could not, in seconds: an edge-triggered poll does not report the same backlog again.
const RETRY_SECONDS: u64 = 1;

/// When a listener is asked for a connection: as long as one may wait, and a second after the system could not accept.
#[derive(Drop)]
pub struct AcceptTimer {
    // Whether a connection may wait.
    may_wait: bool,
    // The time until it is tried again, where the system could not accept.
    retry: Option<Deadline>,
}

impl Model for AcceptTimer {
    ghost use Rattle.std.specs.Prelude.{option_map};
    ghost use Rattle.std.specs.Duration.{as_nanos};
    ghost use Rattle.std.specs.Time.{instant_nanos};
    ghost use Rattle.pg_service.specs.Accepting.{Accepting};

    ghost Value = { Accepting };

    ghost view = { λ t. record { may_wait = t.may_wait; retry = option_map (λ d. record { since = instant_nanos d.last; limit = as_nanos d.limit }) t.retry } };
}

impl AcceptTimer {
    /// Of a new listener: a connection may have come before it was waited for.
    pub fn new() -> AcceptTimer
        ensures { result ≡ one_may_wait }
    {
        AcceptTimer {
            may_wait: true,
            retry: None,
        }
    }

    /// The system reports that a connection waits. If it could not accept one, that is still tried again later.
    pub fn named(&mut self)
        ensures { self.new ≡ record self.old { may_wait = true } }
    {
        self.may_wait = true;
    }

    /// Whether the listener is to be asked for a connection now.
    pub fn is_due(&self, now: Instant) -> bool
        ensures { result ≡ is_due (instant_nanos now) self.now }
    {
        match self.retry {
            Some(retry) => retry.is_over(now),
            None => self.may_wait,
        }
    }

    /// How long until it is to be asked; `None` where it waits for the system to report a connection.
    pub fn left(&self, now: Instant) -> Option<Duration>
        ensures { option_map as_nanos result ≡ left_by (instant_nanos now) self.now }
    {
        match self.retry {
            Some(retry) => Some(retry.left(now)),
            None if self.may_wait => Some(Duration::ZERO),
            None => None,
        }
    }

    /// A connection was accepted: another one may wait.
    pub fn accepted(&mut self)
        ensures { self.new ≡ one_may_wait }
    {
        *self = AcceptTimer::new();
    }

    /// No connection waits any more.
    pub fn rest(&mut self)
        ensures { self.new ≡ none_waits }
    {
        *self = AcceptTimer {
            may_wait: false,
            retry: None,
        };
    }

    /// The system could not accept: it is tried again in a second.
    pub fn failed(&mut self, now: Instant)
        ensures { self.new ≡ failed (instant_nanos now) }
    {
        *self = AcceptTimer {
            may_wait: true,
            retry: Some(Deadline {
                last: now,
                limit: Duration::from_secs(RETRY_SECONDS),
            }),
        };
    }
}

/// A listener, and when it is asked for a connection.
#[derive(Drop)]
pub struct Acceptor<L> {
    /// The listener.
    pub listener: L,
    /// When it is asked.
    pub timer: AcceptTimer,
}

impl<L> Acceptor<L> {
    /// Of a new listener.
    pub fn new(listener: L) -> Acceptor<L>
        ensures { result ≡ record { listener = listener; timer = one_may_wait } }
    {
        Acceptor {
            listener,
            timer: AcceptTimer::new(),
        }
    }

    /// What the listener's `accept` came to: a connection, or `None` where no more wait.
    ///
    /// # Errors
    ///
    /// Why the system could not accept. It is tried again in a second.
    pub fn accepted<C>(&mut self, outcome: io::Result<C>, now: Instant) -> io::Result<Option<C>>
        ensures listener { self.new.listener ≡ self.old.listener }
        ensures connection { IfOk outcome (λ c. (result ≡ Ok (Some c)) × (self.new.timer ≡ one_may_wait)) }
        ensures no_more { IfErr outcome (λ e. error_kind e ≡ ErrorKind.WouldBlock → (result ≡ Ok None) × (self.new.timer ≡ none_waits)) }
        ensures failed { IfErr outcome (λ e. error_kind e ≢ ErrorKind.WouldBlock → (result ≡ Err e) × (self.new.timer ≡ failed (instant_nanos now))) }
    {
        match outcome {
            Ok(connection) => {
                self.timer.accepted();
                Ok(Some(connection))
            }
            Err(error) if error.kind() == ErrorKind::WouldBlock => {
                self.timer.rest();
                Ok(None)
            }
            Err(error) => {
                self.timer.failed(now);
                Err(error)
            }
        }
    }
}

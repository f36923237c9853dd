//! When a source is called, and at which of its addresses; when it is asked again and called anew.

ghost use Rattle.std.specs.Prelude.{◌≡◌, option_map};
ghost use Rattle.std.specs.Duration.{as_nanos};
ghost use Rattle.std.specs.Time.{instant_nanos};
ghost use Rattle.pg_limits.specs.Plans.{addressed, announced, apart, ask_in, ask_left, asked, asking, begun, called, calling, due_by, ended, first_made, is_proven, left_by, listening, made, measured, next_address, received, renewed, rested, resting, sought, three_periods};

use crate::deadline::Deadline;
use crate::pause::Pause;
use std::marker::Model;
use std::time::{Duration, Instant};

/// How long a connection may take to be made, in seconds.
const CALL_SECONDS: u64 = 10;

/// How long a look-up of a name may take before it is reported, in seconds.
const LOOKUP_SECONDS: u64 = 5;

/// The least time from one call of a source to the next, and without a byte before a source is asked again, in seconds.
const APART_SECONDS: u64 = 1;

/// How long a connection may be without a measurement before its source is asked again.
const ASK_SECONDS: u64 = 3;

/// How long the measurements of a connection last that sets the pause back.
const PROVEN_SECONDS: u64 = 10;

/// What the line to a source is doing.
#[derive(Clone, Copy, Debug, PartialEq, Eq)]
pub enum Phase {
    /// There is no connection, and none was begun.
    Resting,
    /// A connection was begun.
    Calling,
    /// A connection stands.
    Up,
}

/// What is to be done with the line to a source.
#[derive(Clone, Copy, Debug, PartialEq, Eq)]
pub enum Action {
    /// Nothing by now.
    Nothing,
    /// It is to be called.
    Call,
    /// The connection that was begun was not made in time.
    GiveUp,
    /// It was silent for as long as it may be.
    Silent,
    /// It is to be asked again over its connection.
    Ask,
}

/// The first and the last measurement of a connection.
#[derive(Clone, Copy)]
struct Span {
    first: Instant,
    last: Instant,
}

/// When a source is called, asked again over its connection, and called anew:
///
/// - A connection may take 10 seconds to be made, and the look-up of a name 5.
/// - A connection without a measurement for 3 seconds, and without a byte in the last one, is asked again for configuration and data; again
///   after 6, 12 seconds and so on. Where three periods of the source's DATA_RATE are longer than 3 seconds, they stand in their place.
/// - After `silence` without a measurement, or three periods where these are longer, the source is called anew. An announcement counts as a
///   measurement only where it has no rate.
/// - Behind a call that failed and a connection that ended the next address is called at once, until all were tried. Then comes a pause of 1
///   second, and of 2, 4 and so on up to 30 the next times. A connection whose measurements lasted 10 seconds sets it back to none.
/// - Two calls of an address are a second apart at least.
#[derive(Drop)]
pub struct CallPlan {
    phase: Phase,
    pause: Pause,
    called: Option<Instant>,
    silence: Option<Duration>,
    periods: Duration,
    wait: Option<Deadline>,
    ask: Deadline,
    byte: Instant,
    measured: Option<Span>,
    // How many addresses the source has, the place of the one that is called, and how many were tried since the last pause.
    addresses: usize,
    at: usize,
    tried: usize,
}

impl Model for CallPlan {
    ghost use Rattle.std.specs.Prelude.{option_map};
    ghost use Rattle.std.specs.Duration.{as_nanos};
    ghost use Rattle.std.specs.Time.{instant_nanos};
    ghost use Rattle.pg_limits.specs.Plans.{Plan};

    ghost Value = { Plan };

    ghost view = { λ p. record { phase = p.phase; pause = p.pause; called = option_map instant_nanos p.called; silence = option_map as_nanos p.silence; periods = as_nanos p.periods; wait = option_map (λ d. record { since = instant_nanos d.last; limit = as_nanos d.limit }) p.wait; ask = record { since = instant_nanos p.ask.last; limit = as_nanos p.ask.limit }; byte = instant_nanos p.byte; measured = option_map (λ s. record { first = instant_nanos s.first; last = instant_nanos s.last }) p.measured; addresses = p.addresses; at = p.at; tried = p.tried } };
}

/// Three times the time from frame to frame of a DATA_RATE (C37.118.2, 6.4): frames per second where positive, seconds per
/// frame where negative; nothing where it is 0.
fn three_periods(rate: i16) -> Duration
    ensures { as_nanos result ≡ three_periods rate }
{
    let size = u64::from(rate.unsigned_abs());
    if rate < 0 {
        Duration::from_secs(3 * size)
    } else if rate == 0 {
        Duration::ZERO
    } else {
        Duration::from_nanos(3_000_000_000 / size)
    }
}

impl CallPlan {
    /// The plan of a source with one address that is to be called at once. A connection may be silent for `silence`; `None` for ever.
    pub fn new(now: Instant, silence: Option<Duration>) -> CallPlan
        ensures { result ≡ begun (instant_nanos now) (option_map as_nanos silence) }
    {
        CallPlan {
            phase: Phase::Resting,
            pause: Pause::none(),
            called: None,
            silence,
            periods: Duration::ZERO,
            wait: Some(Deadline {
                last: now,
                limit: Duration::ZERO,
            }),
            ask: Deadline {
                last: now,
                limit: Duration::from_secs(ASK_SECONDS),
            },
            byte: now,
            measured: None,
            addresses: 1,
            at: 0,
            tried: 0,
        }
    }

    /// The source has so many addresses, and this one is called, or is to be called next.
    pub fn set_addresses(&mut self, count: usize, at: usize)
        ensures { self.new ≡ addressed count at self.old }
    {
        self.addresses = count;
        self.at = at;
    }

    /// The place of the address that is called, or is to be called next, among those of the source.
    pub fn at(&self) -> usize
        ensures { result ≡ self.now.at }
    {
        self.at
    }

    /// What the line is doing.
    pub fn phase(&self) -> Phase
        ensures { result ≡ self.now.phase }
    {
        self.phase
    }

    /// What is to be done by now.
    pub fn due(&self, now: Instant) -> Action
        ensures { result ≡ due_by (instant_nanos now) self.now }
    {
        match self.wait {
            Some(wait) if wait.is_over(now) => match self.phase {
                Phase::Resting => Action::Call,
                Phase::Calling => Action::GiveUp,
                Phase::Up => Action::Silent,
            },
            _ => match self.ask_in(now) {
                Some(left) if left.is_zero() => Action::Ask,
                _ => Action::Nothing,
            },
        }
    }

    /// How long until something is to be done; `None` where nothing is waited for.
    pub fn left(&self, now: Instant) -> Option<Duration>
        ensures { option_map as_nanos result ≡ left_by (instant_nanos now) self.now }
    {
        match (self.wait, self.ask_in(now)) {
            (Some(wait), Some(ask)) => Some(wait.left(now).min(ask)),
            (Some(wait), None) => Some(wait.left(now)),
            (None, ask) => ask,
        }
    }

    /// How long until its connection is asked again, if one stands.
    fn ask_in(&self, now: Instant) -> Option<Duration>
        ensures { option_map as_nanos result ≡ ask_in self.now.phase (instant_nanos now) self.now }
    {
        match self.phase {
            Phase::Resting | Phase::Calling => None,
            Phase::Up => Some(self.ask_left(now)),
        }
    }

    /// How long until a measurement is overdue, and no byte has come for a second.
    fn ask_left(&self, now: Instant) -> Duration
        ensures { as_nanos result ≡ ask_left (instant_nanos now) self.now }
    {
        let byte = Deadline {
            last: self.byte,
            limit: Duration::from_secs(APART_SECONDS),
        };
        self.ask.left(now).max(byte.left(now))
    }

    /// A call was begun: the connection is waited for 10 seconds.
    pub fn called(&mut self, now: Instant)
        ensures { self.new ≡ called (instant_nanos now) self.old }
    {
        self.call(now, CALL_SECONDS);
    }

    /// The source's name is looked up for a call: its address is waited for 5 seconds.
    pub fn sought(&mut self, now: Instant)
        ensures { self.new ≡ sought (instant_nanos now) self.old }
    {
        self.call(now, LOOKUP_SECONDS);
    }

    /// A call was begun, which may take so many seconds.
    fn call(&mut self, now: Instant, seconds: u64)
        ensures { self.new ≡ calling seconds (instant_nanos now) self.old }
    {
        self.phase = Phase::Calling;
        self.called = Some(now);
        self.measured = None;
        self.wait = Some(Deadline {
            last: now,
            limit: Duration::from_secs(seconds),
        });
    }

    /// The connection was made: its first measurement is waited for.
    pub fn made(&mut self, now: Instant)
        ensures { self.new ≡ made (instant_nanos now) self.old }
    {
        self.phase = Phase::Up;
        self.periods = Duration::ZERO;
        self.byte = now;
        self.measured = None;
        self.expect(now);
        self.listen(now);
    }

    /// Bytes came, whatever they spell.
    pub fn received(&mut self, now: Instant)
        ensures { self.new ≡ received (instant_nanos now) self.old }
    {
        self.byte = now;
    }

    /// The source announced a configuration of this DATA_RATE: its periods count from now on.
    pub fn announced(&mut self, now: Instant, rate: i16)
        ensures { self.new ≡ announced (instant_nanos now) rate self.old }
    {
        self.periods = three_periods(rate);
        self.ask.limit = self.ask.limit.max(self.periods);
        let since = match self.wait {
            Some(wait) if rate != 0 => wait.last,
            _ => now,
        };
        self.listen(since);
    }

    /// A measurement came: the next one is waited for.
    pub fn measured(&mut self, now: Instant)
        ensures { self.new ≡ measured (instant_nanos now) self.old }
    {
        let first = match self.measured {
            Some(span) => span.first,
            None => now,
        };
        self.measured = Some(Span { first, last: now });
        self.expect(now);
        self.listen(now);
    }

    /// The source was asked again: the next time is twice as far from its last measurement.
    pub fn asked(&mut self)
        ensures { self.new ≡ asked self.old }
    {
        self.ask.limit = self.ask.limit.saturating_mul(2);
    }

    /// A connection to the first address was made, which takes the place of the one that stood.
    pub fn first_made(&mut self, now: Instant)
        ensures { self.new ≡ first_made (instant_nanos now) self.old }
    {
        self.called = Some(now);
        self.at = 0;
        self.tried = 0;
        self.made(now);
    }

    /// The call failed or was given up, or the connection ended: the next address is to be called, at once where not all were tried since the
    /// last pause. Else there is no pause where the connection's measurements lasted 10 seconds, and a longer one where they did not.
    pub fn ended(&mut self, now: Instant)
        ensures { self.new ≡ ended (instant_nanos now) self.old }
    {
        let is_proven = self.is_proven();
        let tried = if is_proven { 0 } else { self.tried };
        let others = self.addresses.saturating_sub(1);
        self.at = self.next_address();
        if is_proven {
            self.pause = Pause::none();
        }
        if tried < others {
            self.tried = tried + 1;
            self.phase = Phase::Resting;
            self.wait = Some(Deadline {
                last: now,
                limit: Duration::ZERO,
            });
        } else {
            self.tried = 0;
            if !is_proven {
                self.pause = self.pause.longer();
            }
            self.pause_from(now);
        }
    }

    /// The place of the next address: the first behind the last.
    fn next_address(&self) -> usize
        ensures { result ≡ next_address self.now }
    {
        if self.at < self.addresses.saturating_sub(1) {
            self.at + 1
        } else {
            0
        }
    }

    /// The source is to be called anew, a second after it was called last.
    pub fn renew(&mut self, now: Instant)
        ensures { self.new ≡ renewed (instant_nanos now) self.old }
    {
        self.pause = Pause::none();
        self.pause_from(now);
    }

    /// The source is not to be called any more.
    pub fn rest(&mut self)
        ensures { self.new ≡ rested self.old }
    {
        self.phase = Phase::Resting;
        self.pause = Pause::none();
        self.wait = None;
    }

    /// Whether the measurements of its connection lasted 10 seconds.
    fn is_proven(&self) -> bool
        ensures { result ≡ is_proven self.now.measured }
    {
        match self.measured {
            Some(span) => {
                let lasted = span.last.saturating_duration_since(span.first);
                lasted >= Duration::from_secs(PROVEN_SECONDS)
            }
            None => false,
        }
    }

    /// The line rests for the pause, and until a second after its last call.
    fn pause_from(&mut self, now: Instant)
        ensures { self.new ≡ resting (instant_nanos now) self.old }
    {
        let pause = Duration::from_secs(u64::from(self.pause.seconds()));
        self.phase = Phase::Resting;
        self.wait = Some(Deadline {
            last: now,
            limit: pause.max(self.apart(now)),
        });
    }

    /// What is left of a second after its last call.
    fn apart(&self, now: Instant) -> Duration
        ensures { as_nanos result ≡ apart (instant_nanos now) self.now.called }
    {
        match self.called {
            Some(last) => {
                let limit = Duration::from_secs(APART_SECONDS);
                Deadline { last, limit }.left(now)
            }
            None => Duration::ZERO,
        }
    }

    /// A measurement is expected within 3 seconds, or three periods.
    fn expect(&mut self, now: Instant)
        ensures { self.new ≡ asking (instant_nanos now) self.old }
    {
        self.ask = Deadline {
            last: now,
            limit: Duration::from_secs(ASK_SECONDS).max(self.periods),
        };
    }

    /// The source is silent since then.
    fn listen(&mut self, since: Instant)
        ensures { self.new ≡ listening (instant_nanos since) self.old }
    {
        self.wait = match self.silence {
            Some(silence) => Some(Deadline {
                last: since,
                limit: silence.max(self.periods),
            }),
            None => None,
        };
    }
}

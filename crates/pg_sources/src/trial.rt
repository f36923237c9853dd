//! A trial of the first address of a source, beside the connection to another one.

use mio::net::TcpStream;
use pg_gateway::{Event, Gate, Reply};
use pg_ingest::{End, Link, run_link};
use pg_limits::Budget;
use pg_log::Detail;
use pg_service::{READS, ended};
use pg_wire::{PmuId, Refusal};
use std::alloc::Global;
use std::io::{Read, Write};
use std::net::{Net, SocketAddr};
use std::time::{Duration, Instant};

/// The turns that a call of `run_link` takes at most. The budget of reads ends before.
const TURNS: u64 = 10_000;

/// How long a configuration is waited for, in seconds.
const TRIAL_SECONDS: u64 = 10;

/// A gate of a link that is not the source's: it posts nothing, and keeps whether a configuration was announced.
#[derive(Drop)]
struct AnnouncementGate {
    has_announced: bool,
}

impl Gate for AnnouncementGate {
    ghost frames = { λ _ _ e. absurd (cc e) };

    ghost stays = { λ _. tt };

    ghost joins = { λ _ _ _ _ _. tt };

    fn post(&mut self, event: Event) -> Reply {
        match event {
            Event::Drain(_, buf) => Reply::Drained {
                buf,
                out: Err(Refusal::NoSuchSub),
            },
            Event::Announce(_) => {
                self.has_announced = true;
                Reply::Done { made: 0, kept: 0 }
            }
            _ => Reply::Done { made: 0, kept: 0 },
        }
    }
}

/// What came of a trial.
pub(crate) enum Tried {
    /// Nothing yet.
    Waits,
    /// The source announced its configuration.
    Announced,
    /// The connection could not be made, or ended.
    Failed(Detail),
    /// No configuration came in time.
    Silent,
}

/// Serves the link of a trial until its socket would block: whether its source announced its configuration, and how the connection ended if it
/// did.
fn hear<R: Read, W: Write>(link: &mut Link, reader: &mut Budget<R>, writer: &mut W) -> (bool, End) {
    let mut gate = AnnouncementGate {
        has_announced: false,
    };
    let end = run_link(link, reader, writer, &mut gate, TURNS);
    (gate.has_announced, end)
}

/// A connection to the first address of a source, which asks for its configuration. Nothing of what it sends is posted.
#[derive(Drop)]
pub(crate) struct Trial {
    address: SocketAddr,
    stream: TcpStream,
    link: Link,
    since: Instant,
    is_made: bool,
}

impl Trial {
    /// Begins a connection to this address.
    ///
    /// # Errors
    ///
    /// Why it can't be begun.
    pub(crate) fn begin<R: Net>(
        rt: &R,
        alloc: Global,
        source: PmuId,
        address: SocketAddr,
        now: Instant,
    ) -> Result<Trial, Detail> {
        let stream = match TcpStream::connect(rt, address) {
            Ok(stream) => stream,
            Err(error) => return Err(Detail::of_call(Some(address), &error)),
        };
        match Link::new(alloc, source) {
            Ok(link) => Ok(Trial {
                address,
                stream,
                link,
                since: now,
                is_made: false,
            }),
            Err(refusal) => Err(Detail::Because(refusal)),
        }
    }

    /// Looks at what came.
    pub(crate) fn step(&mut self, now: Instant) -> Tried {
        if !self.is_made {
            match self.stream.take_error() {
                Ok(None) => {}
                Ok(Some(error)) | Err(error) => {
                    return Tried::Failed(Detail::of_call(Some(self.address), &error));
                }
            }
            if self.stream.peer_addr().is_err() {
                return self.waits(now);
            }
            self.is_made = true;
        }
        let stream = &self.stream;
        let mut reader = Budget::new(stream, READS);
        let mut writer = stream;
        match hear(&mut self.link, &mut reader, &mut writer) {
            (true, _) => Tried::Announced,
            (false, end @ (End::Closed | End::Fault(_))) => Tried::Failed(ended(end)),
            (false, _) => self.waits(now),
        }
    }

    /// It is waited for its configuration, for 10 seconds.
    fn waits(&self, now: Instant) -> Tried {
        let waited = now.saturating_duration_since(self.since);
        if waited < Duration::from_secs(TRIAL_SECONDS) {
            Tried::Waits
        } else {
            Tried::Silent
        }
    }

    /// Its address and its socket.
    pub(crate) fn into_parts(self) -> (SocketAddr, TcpStream) {
        let Trial {
            address,
            stream,
            ..
        } = self;
        (address, stream)
    }
}

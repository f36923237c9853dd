//! A request and its answer over one connection.

use crate::contents::Contents;
use crate::request::{HEAD_BYTES, HttpError, Request, Shown, read_request};
use crate::write_buffer::{Sending, WriteBuffer};
use pg_limits::Deadline;
use std::alloc::{AllocError, Global};
use std::io::{ErrorKind, Read, Write};
use std::time::{Duration, Instant};

/// How long a connection may last, in seconds.
const SECONDS: u64 = 5;

/// The reads, and the writes, of one call.
const TURNS: u32 = 16;

/// The bytes of one read.
const PIECE: usize = 1024;

/// The status where the gateway does not do its work, or serves no more connections.
const UNAVAILABLE: &str = "503 Service Unavailable";

/// The media type of an answer in words.
const PLAIN: &str = "text/plain; charset=utf-8";

/// How far a connection is.
#[derive(Clone, Copy, PartialEq, Eq)]
enum ExchangeState {
    /// The head has not come whole.
    Hears,
    /// This was asked for, and is awaited.
    Asks { shown: Shown, is_head: bool },
    /// The answer is being sent.
    Sends,
    /// The answer was sent.
    Sent,
}

/// What is to be done with a connection that was served.
#[derive(Clone, Copy)]
pub enum Step {
    /// Nothing, until its socket is ready.
    Waits,
    /// It is to be served once more at once: its reads or writes were used up.
    More,
    /// `answer` has to be called with this, and then it is served once more.
    Asks(Shown),
    /// The whole answer was sent: its write side is to be shut, and it is served until it ends. So the client gets all of the
    /// answer, though it may have sent more than was read.
    Sent,
    /// It ended, failed or took too long, and is to be closed.
    Gone,
}

/// How the reads of a call ended.
#[derive(Clone, Copy, PartialEq, Eq)]
enum Flow {
    Blocked,
    UsedUp,
    Ended,
    Failed,
}

/// A connection of HTTP/1.1 that asks once, gets one answer and is closed. It lasts 5 seconds at most. It is idle while it
/// has sent nothing, and once its answer was sent. It knows neither sockets nor clocks.
#[derive(Drop)]
pub struct HttpExchange {
    alloc: Global,
    state: ExchangeState,
    head: Vec<u8>,
    reply: WriteBuffer,
    deadline: Deadline,
    // When its answer was sent, or it was accepted.
    since: Instant,
}

impl HttpExchange {
    /// A connection that was accepted now.
    pub fn new(alloc: Global, now: Instant) -> HttpExchange {
        HttpExchange {
            alloc,
            state: ExchangeState::Hears,
            head: Vec::new(alloc),
            reply: WriteBuffer {
                bytes: Vec::new(alloc),
                sent: 0,
            },
            deadline: Deadline {
                last: now,
                limit: Duration::from_secs(SECONDS),
            },
            since: now,
        }
    }

    /// A connection that was accepted now and is served no further: it is answered 503, and to ask again in a second, whatever it sends.
    ///
    /// # Errors
    ///
    /// There is no memory: the connection is to be closed.
    pub fn turned_away(alloc: Global, now: Instant) -> Result<HttpExchange, AllocError> {
        let mut exchange = HttpExchange::new(alloc, now);
        let told = "16 connections are open, the most possible: try again in a second.\n";
        let status = "503 Service Unavailable\r\nRetry-After: 1";
        exchange.reply.bytes = reply_with(alloc, status, PLAIN, told.as_bytes(), false)?;
        exchange.state = ExchangeState::Sends;
        Ok(exchange)
    }

    /// For how long it has been idle: for none where it is not.
    pub fn idle(&self, now: Instant) -> Duration {
        match self.state {
            ExchangeState::Hears if self.head.is_empty() => now.saturating_duration_since(
                self.since,
            ),
            ExchangeState::Sent => now.saturating_duration_since(self.since),
            _ => Duration::ZERO,
        }
    }

    /// How long until it has lasted as long as it may.
    pub fn left(&self, now: Instant) -> Duration {
        self.deadline.left(now)
    }

    /// Reads what has come and sends what goes.
    pub fn serve<R: Read, W: Write>(
        &mut self,
        reader: &mut R,
        writer: &mut W,
        now: Instant,
    ) -> Step {
        if self.deadline.is_over(now) {
            return Step::Gone;
        }
        let flow = self.read(reader);
        if flow == Flow::Failed {
            return Step::Gone;
        }
        match self.state {
            ExchangeState::Hears | ExchangeState::Sent => match flow {
                Flow::Blocked => Step::Waits,
                Flow::UsedUp => Step::More,
                Flow::Ended | Flow::Failed => Step::Gone,
            },
            ExchangeState::Asks { shown, .. } => Step::Asks(shown),
            ExchangeState::Sends => self.send(writer, flow, now),
        }
    }

    /// Takes what was asked for. It is sent with the status 200, or 503 where the gateway does not do its work. Nothing changes where nothing was asked
    /// for.
    ///
    /// # Errors
    ///
    /// There is no memory: the connection is to be closed.
    pub fn answer(&mut self, contents: &Contents) -> Result<(), AllocError> {
        let ExchangeState::Asks { shown, is_head } = self.state else {
            return Ok(());
        };
        let status = if contents.is_well {
            "200 OK"
        } else {
            UNAVAILABLE
        };
        self.reply.bytes = reply_with(self.alloc, status, kind_of(shown), &contents.body, is_head)?;
        self.state = ExchangeState::Sends;
        Ok(())
    }

    /// Reads until nothing is there, so many times at most.
    fn read<R: Read>(&mut self, reader: &mut R) -> Flow {
        let mut piece = [0u8; PIECE];
        for _ in 0..TURNS {
            match reader.read(&mut piece) {
                Ok(0) => return Flow::Ended,
                Ok(size) => {
                    if self.take(&piece[..size]).is_err() {
                        return Flow::Failed;
                    }
                }
                Err(error) => match error.kind() {
                    ErrorKind::WouldBlock => return Flow::Blocked,
                    ErrorKind::Interrupted => {}
                    _ => return Flow::Failed,
                },
            }
        }
        Flow::UsedUp
    }

    /// Takes bytes of the head. What comes behind it is dropped.
    fn take(&mut self, bytes: &[u8]) -> Result<(), AllocError> {
        if self.state != ExchangeState::Hears {
            return Ok(());
        }
        let room = HEAD_BYTES.saturating_sub(self.head.len()).min(bytes.len());
        self.head.extend_from_slice(&bytes[..room])?;
        match read_request(self.head.as_slice()) {
            Request::Partial => {}
            Request::Show { shown, is_head } => self.state = ExchangeState::Asks { shown, is_head },
            Request::Deny { denial, is_head } => {
                self.reply.bytes = refusal(self.alloc, denial, is_head)?;
                self.state = ExchangeState::Sends;
            }
        }
        Ok(())
    }

    /// Sends what goes of the answer, after reads that ended so.
    fn send<W: Write>(&mut self, writer: &mut W, flow: Flow, now: Instant) -> Step {
        match self.reply.send(writer, TURNS) {
            Sending::Done => {
                self.state = ExchangeState::Sent;
                self.since = now;
                if flow == Flow::Ended {
                    Step::Gone
                } else {
                    Step::Sent
                }
            }
            Sending::Blocked => {
                if flow == Flow::UsedUp {
                    Step::More
                } else {
                    Step::Waits
                }
            }
            Sending::UsedUp => Step::More,
            Sending::Failed => Step::Gone,
        }
    }
}

/// The media type of what is shown.
fn kind_of(shown: Shown) -> &'static str {
    match shown {
        Shown::Page => "text/html; charset=utf-8",
        Shown::State => "application/json",
        Shown::Metrics => "text/plain; version=0.0.4; charset=utf-8",
        Shown::Health { .. } => PLAIN,
    }
}

/// A whole answer, or its head alone.
fn reply_with(
    alloc: Global,
    status: &str,
    kind: &str,
    body: &[u8],
    is_head: bool,
) -> Result<Vec<u8>, AllocError> {
    let head = format!(in alloc;
        "HTTP/1.1 {status}\r\nContent-Type: {kind}\r\nContent-Length: {}\r\nCache-Control: no-store\r\nConnection: close\r\n\r\n",
        body.len()
    )?;
    let mut reply = Vec::from_slice(alloc, head.as_bytes())?;
    if !is_head {
        reply.extend_from_slice(body)?;
    }
    Ok(reply)
}

/// The answer to a request that is refused.
fn refusal(alloc: Global, denial: HttpError, is_head: bool) -> Result<Vec<u8>, AllocError> {
    match denial {
        HttpError::NoRequest => {
            let told = "This is not a request of HTTP/1.1.\n";
            reply_with(alloc, "400 Bad Request", PLAIN, told.as_bytes(), is_head)
        }
        HttpError::Within => {
            let told = "/health takes ?within=SECONDS, 1 to 86400.\n";
            reply_with(alloc, "400 Bad Request", PLAIN, told.as_bytes(), is_head)
        }
        HttpError::NotFound => {
            let told = "Not found. There are /, /state, /metrics and /health.\n";
            reply_with(alloc, "404 Not Found", PLAIN, told.as_bytes(), is_head)
        }
        HttpError::Method => {
            let told = "Only GET and HEAD are allowed.\n";
            let status = "405 Method Not Allowed\r\nAllow: GET, HEAD";
            reply_with(alloc, status, PLAIN, told.as_bytes(), is_head)
        }
        HttpError::TooLarge => {
            let told = "The head of a request may have at most 8192 bytes and 64 fields.\n";
            let status = "431 Request Header Fields Too Large";
            reply_with(alloc, status, PLAIN, told.as_bytes(), is_head)
        }
    }
}

//! `pdcgw bridge`: the sockets and clocks around a converter.

use crate::bridge_options::BridgeOptions;
use crate::converter::{Converter, Ending, Instants};
use crate::fault::Fault;
use crate::output_poll::{OutputPoll, OutputState, STANDARD_ERROR, STANDARD_OUTPUT};
use crate::socket::{is_connected, send_due};
use crate::target::Target;
use crate::unix_time::UnixTime;
use mio::net::TcpStream;
use mio::{Events, Interest, Poll, Token};
use pg_limits::Pause;
use std::alloc::Global;
use std::io;
use std::io::{ErrorKind, Read, Write};
use std::net::{Net, SocketAddr, ToSocketAddrs};
use std::rt::Clock;
use std::time::{Duration, Instant};

/// How long one wait for bytes is at most, in milliseconds.
const TURN: u64 = 100;

/// The same while lines wait for standard output.
const FULL_TURN: u64 = 10;

/// How long a connection may take to be made, in milliseconds.
const CONNECTING: u64 = 5_000;

/// A second, in milliseconds.
const SECOND: u64 = 1_000;

/// How many bytes one read takes at most.
const PIECE: usize = 16_384;

/// How many bytes one write has at most: so many a pipe takes at once where it takes any (PIPE_BUF).
const WRITE: usize = 4_096;

/// The writes of a turn at most.
const WRITES: u32 = 4_096;

/// What a connection is doing.
#[derive(Clone, Copy, PartialEq, Eq)]
enum Phase {
    /// There is none; it is begun at `due`.
    Waits,
    /// It is begun, and given up at `due`.
    Begun,
    /// It stands.
    Made,
}

/// The connection of a bridge, and when it is made again.
#[derive(Drop)]
struct Link<'a> {
    target: Target<'a>,
    stream: Option<TcpStream>,
    phase: Phase,
    due: u64,
    pause: Pause,
    /// How many times it was begun, by which each address of a name is tried.
    tries: usize,
}

/// A bridge at work.
#[derive(Drop)]
struct Worker<'a> {
    alloc: Global,
    start: Instant,
    poll: Poll,
    events: Events<Global>,
    output: OutputPoll,
    error: OutputPoll,
    link: Link<'a>,
    converter: Converter<'a>,
    /// Whether bytes may be there that no wait reports again.
    has_more: bool,
    is_full: bool,
}

/// Takes a stream to standard output as lines. It goes on until standard output ends.
///
/// # Errors
///
/// `Output`, where standard output can't be written; `System`, where the system has no clock or can't wait.
pub fn bridge<R>(rt: &R, options: &BridgeOptions<'_>) -> Result<(), Fault>
where
    R: Net + Clock + Print + Eprint + Alloc<A = Global>,
{
    let mut worker = Worker::new(rt, rt.alloc(), options)?;
    for _ in 0..u64::MAX {
        worker.turn(rt)?;
    }
    Ok(())
}

impl<'a> Worker<'a> {
    /// A worker of this bridge, which has no connection yet.
    fn new<R: Net + Clock>(
        rt: &R,
        alloc: Global,
        options: &BridgeOptions<'a>,
    ) -> Result<Worker<'a>, Fault> {
        let start = Instant::now(rt)?;
        let at = Instants {
            millis: 0,
            time: UnixTime::now(rt)?,
        };
        let poll = Poll::new(rt)?;
        let events = Events::with_capacity(alloc, 4)?;
        let (output, error) = standard_polls(rt, alloc)?;
        Ok(Worker {
            alloc,
            start,
            poll,
            events,
            output,
            error,
            link: Link::new(options.address),
            converter: Converter::new(alloc, options, at),
            has_more: false,
            is_full: false,
        })
    }
}

/// What waits for standard output, and for standard error.
fn standard_polls<R: Net>(rt: &R, alloc: Global) -> io::Result<(OutputPoll, OutputPoll)> {
    let output = OutputPoll::new(rt, alloc, STANDARD_OUTPUT)?;
    let error = OutputPoll::new(rt, alloc, STANDARD_ERROR)?;
    Ok((output, error))
}

impl<'a> Link<'a> {
    /// A link to this address, which is to be connected at once.
    fn new(target: Target<'a>) -> Link<'a> {
        Link {
            target,
            stream: None,
            phase: Phase::Waits,
            due: 0,
            pause: Pause::none(),
            tries: 0,
        }
    }
}

impl Worker<'_> {
    /// Waits until something is to be done, and does it.
    fn turn<R: Net + Clock + Print + Eprint>(&mut self, rt: &R) -> Result<(), Fault> {
        self.serve_link(rt)?;
        self.send(rt)?;
        let wait = match (self.has_more, self.is_full) {
            (true, _) => 0,
            (false, true) => FULL_TURN,
            (false, false) => TURN,
        };
        self.poll
            .poll(&mut self.events, Some(Duration::from_millis(wait)))?;
        self.read(rt)?;
        let at = self.now(rt)?;
        match self.converter.tick(at) {
            Ok(None) => {}
            Ok(Some(ending)) => self.end_link(rt, ending)?,
            // The lines of this time are left out.
            Err(_) => {}
        }
        self.write(rt)
    }

    /// The time of both clocks.
    fn now<R: Clock>(&self, rt: &R) -> io::Result<Instants> {
        let millis = self.start.elapsed(rt)?.as_millis();
        Ok(Instants {
            millis: u64::try_from(millis).unwrap_or(u64::MAX),
            time: UnixTime::now(rt)?,
        })
    }

    /// Begins the connection, or gives it up, where that is due, and begins with one that is made.
    fn serve_link<R: Net + Clock + Eprint>(&mut self, rt: &R) -> Result<(), Fault> {
        let at = self.now(rt)?;
        match self.link.phase {
            Phase::Waits if at.millis >= self.link.due => self.begin_link(rt, at),
            Phase::Begun => self.await_link(rt, at),
            Phase::Waits | Phase::Made => Ok(()),
        }
    }

    /// Begins a connection.
    fn begin_link<R: Net + Clock + Eprint>(&mut self, rt: &R, at: Instants) -> Result<(), Fault> {
        let address = match next_address(rt, self.alloc, self.link.target, self.link.tries) {
            Ok(address) => address,
            Err(error) => return self.fail_link(rt, error),
        };
        self.link.tries = self.link.tries.wrapping_add(1);
        let mut stream = match TcpStream::connect(rt, address) {
            Ok(stream) => stream,
            Err(error) => return self.fail_link(rt, error),
        };
        let both = Interest::READABLE | Interest::WRITABLE;
        self.poll.registry().register(&mut stream, Token(0), both)?;
        self.link.stream = Some(stream);
        self.link.phase = Phase::Begun;
        self.link.due = at.millis.saturating_add(CONNECTING);
        Ok(())
    }

    /// Begins with the connection where it is made by now.
    fn await_link<R: Net + Clock + Eprint>(&mut self, rt: &R, at: Instants) -> Result<(), Fault> {
        let Some(stream) = &self.link.stream else {
            self.link.phase = Phase::Waits;
            return Ok(());
        };
        match is_connected(stream) {
            Ok(true) => {
                if self.converter.connect(at).is_err() {
                    return self.end_link(rt, Ending::NoMemory);
                }
                self.link.phase = Phase::Made;
                let target = self.link.target;
                self.report(rt, &format!(in self.alloc; "connected to {target}")?);
                Ok(())
            }
            Ok(false) if at.millis >= self.link.due => {
                self.fail_link(rt, io::Error::from(ErrorKind::TimedOut))
            }
            Ok(false) => Ok(()),
            Err(error) => self.fail_link(rt, error),
        }
    }

    /// No connection can be had. It is begun again after a pause.
    fn fail_link<R: Clock + Eprint>(&mut self, rt: &R, error: io::Error) -> Result<(), Fault> {
        let seconds = self.pause_link(rt)?;
        let target = self.link.target;
        let text = format!(in self.alloc;
            "{target} can't be reached: {error}; the next try is in {seconds} s"
        )?;
        self.report(rt, &text);
        Ok(())
    }

    /// The connection is closed for this reason, and made again after a pause.
    fn end_link<R: Clock + Eprint>(&mut self, rt: &R, ending: Ending) -> Result<(), Fault> {
        if self.converter.has_frame() {
            self.link.pause = Pause::none();
        }
        self.converter.disconnect(ending);
        let seconds = self.pause_link(rt)?;
        let text = format!(in self.alloc; "{ending}; the next try is in {seconds} s")?;
        self.report(rt, &text);
        Ok(())
    }

    /// Closes the connection, and answers after how many seconds it is begun again: 1, 2, 4, .. 30.
    fn pause_link<R: Clock>(&mut self, rt: &R) -> Result<u8, Fault> {
        self.link.stream = None;
        self.link.phase = Phase::Waits;
        self.has_more = false;
        self.link.pause = self.link.pause.longer();
        let seconds = self.link.pause.seconds();
        let at = self.now(rt)?;
        self.link.due = at.millis.saturating_add(SECOND * u64::from(seconds));
        Ok(seconds)
    }

    /// Sends the commands that are due.
    fn send<R: Clock + Eprint>(&mut self, rt: &R) -> Result<(), Fault> {
        let soc = UnixTime::now(rt)?.soc();
        let (Some(stream), Some(watcher)) = (&self.link.stream, self.converter.watcher()) else {
            return Ok(());
        };
        if send_due(stream, watcher, soc) {
            Ok(())
        } else {
            self.end_link(rt, Ending::Closed)
        }
    }

    /// Reads what is there, one piece at most, so that its lines are written before more is read.
    fn read<R: Clock + Eprint>(&mut self, rt: &R) -> Result<(), Fault> {
        self.has_more = false;
        if self.link.phase != Phase::Made {
            return Ok(());
        }
        let Some(stream) = &self.link.stream else {
            return Ok(());
        };
        let mut piece = [0; PIECE];
        let ending = match (&*stream).read(&mut piece) {
            Ok(0) => Some(Ending::Closed),
            Ok(read) => {
                self.has_more = true;
                let at = self.now(rt)?;
                self.converter.take(&piece[..read], at)
            }
            Err(error) if error.kind() == ErrorKind::WouldBlock => None,
            Err(error) if error.kind() == ErrorKind::Interrupted => None,
            Err(_) => Some(Ending::Closed),
        };
        match ending {
            Some(ending) => self.end_link(rt, ending),
            None => Ok(()),
        }
    }

    /// Writes the lines that wait, as far as standard output takes them at once.
    fn write<R: Print>(&mut self, rt: &R) -> Result<(), Fault> {
        for _ in 0..WRITES {
            let state = self.output.state(Duration::ZERO)?;
            if state == OutputState::Ended {
                return Err(Fault::Output);
            }
            self.is_full = state == OutputState::Full;
            let Ok(bytes) = self.converter.output() else {
                // (they are written once there is memory)
                return Ok(());
            };
            if bytes.is_empty() || self.is_full {
                return Ok(());
            }
            let piece = bytes.get(..WRITE).unwrap_or(bytes);
            match io::writer(rt).write(piece) {
                Ok(0) => return Err(Fault::Output),
                Ok(written) => self.converter.wrote(written),
                Err(error) if error.kind() == ErrorKind::WouldBlock => {
                    self.is_full = true;
                    return Ok(());
                }
                Err(error) if error.kind() == ErrorKind::Interrupted => {}
                Err(_) => return Err(Fault::Output),
            }
        }
        Ok(())
    }

    /// Prints a line on standard error, unless that takes none: then it is left out, since nothing is to wait for it.
    fn report<R: Eprint>(&mut self, rt: &R, text: &str) {
        if let Ok(OutputState::Ready) = self.error.state(Duration::ZERO) {
            // Where standard error can't be written, the state lines still report it.
            let _ = eprintln!(rt; "pdcgw: {text}");
        }
    }
}

/// The address that is tried next. Of a name's addresses it is each in turn.
fn next_address<R: Net>(
    rt: &R,
    alloc: Global,
    target: Target<'_>,
    tries: usize,
) -> io::Result<SocketAddr> {
    let (name, port) = match target {
        Target::Address(address) => return Ok(address),
        Target::Name(name, port) => (name, port),
    };
    let mut addresses = Vec::new(alloc);
    for address in (name, port).to_socket_addrs(rt)? {
        addresses.push(address)?;
    }
    let place = tries.checked_rem(addresses.len()).unwrap_or(0);
    match addresses.get(place) {
        Some(address) => Ok(*address),
        None => Err(io::Error::from(ErrorKind::NotFound)),
    }
}

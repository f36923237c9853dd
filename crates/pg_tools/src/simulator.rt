//! The sockets and the clock of a simulated source.

use crate::settings::Settings;
use crate::source::{CommandEvent, Source};
use crate::unix_time::UnixTime;
use mio::net::{TcpListener, TcpStream};
use mio::{Events, Interest, Poll, Token};
use pg_wire::Refusal;
use std::alloc::Global;
use std::io;
use std::io::{ErrorKind, Read, Write};
use std::net::{Net, SocketAddr};
use std::rt::Clock;
use std::time::Duration;

/// How many sockets one wait reports.
const EVENTS: usize = 16;

/// The one token: each turn serves the listener and all clients, whichever is ready.
const TOKEN: Token = Token(0);

/// How many bytes one read takes at most.
const PIECE: usize = 4_096;

/// The reads of a client, and the connections, of a turn at most.
const READS: u32 = 64;

/// The most bytes that wait for a slow client. Behind them no command is read, and data frames that come due are left out.
const WAITING: usize = 1_048_576;

/// What happened at a simulated source.
#[derive(Clone, Copy)]
pub enum SimulatorEvent {
    /// This client has connected.
    Connected(SocketAddr),
    /// The connection of this client was closed at once: so many are served, and no more may be.
    Refused(SocketAddr, u8),
    /// This client has closed the connection, or it failed; so many data frames were sent to it.
    Closed(SocketAddr, u64),
    /// Bytes of this client were read.
    Command(SocketAddr, CommandEvent),
    /// Data frames for this client are left out from here on, since it does not read.
    Stalled(SocketAddr),
}

/// A client that is connected, and what the source is to it.
#[derive(Drop)]
struct Client {
    peer: SocketAddr,
    stream: TcpStream,
    source: Source,
    out: Vec<u8>,
    written: usize,
    /// Whether frames are left out, since too much waits.
    is_stalled: bool,
    is_open: bool,
    /// Whether bytes may be there that no wait reports again: the system reports them once, when they come.
    has_more: bool,
}

/// A simulated source that listens on a port. Each client has data on or off for itself.
#[derive(Drop)]
pub struct Simulator {
    alloc: Global,
    poll: Poll,
    ready: Events<Global>,
    listener: TcpListener,
    settings: Settings,
    start: UnixTime,
    most: u8,
    clients: Vec<Client>,
    /// Whether a connection may be there that no wait reports again.
    has_more: bool,
}

impl Simulator {
    /// Listens at this address, and plays a source with these settings, which begins now, to so many clients at once at most.
    ///
    /// # Errors
    ///
    /// That of the system, where the address can't be bound, it has no clock or there is no memory.
    pub fn bind<R: Net + Clock>(
        rt: &R,
        alloc: Global,
        address: SocketAddr,
        settings: Settings,
        clients: u8,
    ) -> io::Result<Simulator> {
        let mut listener = TcpListener::bind(rt, address)?;
        let poll = Poll::new(rt)?;
        poll.registry()
            .register(&mut listener, TOKEN, Interest::READABLE)?;
        Ok(Simulator {
            alloc,
            poll,
            ready: Events::with_capacity(alloc, EVENTS)?,
            listener,
            settings,
            start: UnixTime::now(rt)?,
            most: clients,
            clients: Vec::new(alloc),
            has_more: false,
        })
    }

    /// Where it listens.
    ///
    /// # Errors
    ///
    /// That of the system, where it can't report it.
    pub fn address(&self) -> io::Result<SocketAddr> {
        self.listener.local_addr()
    }

    /// What it plays.
    pub fn settings(&self) -> Settings {
        self.settings
    }

    /// Whether data is on for a client.
    pub fn is_sending(&self) -> bool {
        self.clients.iter().any(|client| client.source.is_sending())
    }

    /// How many microseconds there are until the next data frame is due for a client, none while data is off for all.
    pub fn until_due(&self, now: UnixTime) -> Option<u64> {
        let mut least = None;
        for client in &self.clients {
            if let Some(micros) = client.source.until_due(now) {
                least = Some(micros.min(least.unwrap_or(u64::MAX)));
            }
        }
        least
    }

    /// Waits until something is to be done, so long at most, and does it: takes connections, obeys the commands of clients, sends
    /// the frames that are due. What happened is added to `events`.
    ///
    /// # Errors
    ///
    /// That of the system, where it can't wait for sockets or has no clock, and `OutOfMemory`.
    pub fn turn<R: Clock>(
        &mut self,
        rt: &R,
        longest: Duration,
        events: &mut Vec<SimulatorEvent>,
    ) -> io::Result<()> {
        let has_more = self.has_more || self.clients.iter().any(|client| client.has_more);
        let wait = match self.until_due(UnixTime::now(rt)?) {
            _ if has_more => Duration::ZERO,
            // A millisecond is the least wait, and a frame is not sent before its slot.
            Some(micros) => Duration::from_micros(micros).min(longest),
            None => longest,
        };
        self.poll.poll(&mut self.ready, Some(wait))?;
        self.serve_clients(UnixTime::now(rt)?, events)?;
        self.queue_due(UnixTime::now(rt)?, events)?;
        self.send(events)
    }

    /// Obeys the commands that have come, and takes connections. It waits for nothing. What happened is added to `events`.
    ///
    /// # Errors
    ///
    /// `OutOfMemory`, and that of the system, where a connection can't be waited for.
    pub fn serve_clients(
        &mut self,
        at: UnixTime,
        events: &mut Vec<SimulatorEvent>,
    ) -> io::Result<()> {
        self.read(at, events)?;
        self.has_more = false;
        for _ in 0..READS {
            let Ok((stream, peer)) = self.listener.accept() else {
                return Ok(());
            };
            if self.is_full() {
                // (one that has closed its connection leaves its place)
                self.read(at, events)?;
            }
            if self.is_full() {
                events.push(SimulatorEvent::Refused(peer, self.most))?;
            } else {
                self.add_client(stream, peer, events)?;
                self.read(at, events)?;
            }
        }
        self.has_more = true;
        Ok(())
    }

    /// Whether no more clients may be served.
    fn is_full(&self) -> bool {
        self.clients.len() >= usize::from(self.most)
    }

    /// Serves this client from now on.
    fn add_client(
        &mut self,
        mut stream: TcpStream,
        peer: SocketAddr,
        events: &mut Vec<SimulatorEvent>,
    ) -> io::Result<()> {
        let both = Interest::READABLE | Interest::WRITABLE;
        self.poll.registry().register(&mut stream, TOKEN, both)?;
        let _ = stream.set_nodelay(true);
        let source = io_result(Source::new(self.alloc, self.settings, self.start))?;
        self.clients.push(Client {
            peer,
            stream,
            source,
            out: Vec::new(self.alloc),
            written: 0,
            is_stalled: false,
            is_open: true,
            has_more: false,
        })?;
        events.push(SimulatorEvent::Connected(peer))?;
        Ok(())
    }

    /// Reads the bytes of all clients and obeys them. Those that have closed their connection are served no more.
    fn read(&mut self, at: UnixTime, events: &mut Vec<SimulatorEvent>) -> io::Result<()> {
        for client in self.clients.iter_mut() {
            client.is_open = client.read(at, events)?;
        }
        self.drop_closed(events)
    }

    /// Serves the clients no more whose connection has ended.
    fn drop_closed(&mut self, events: &mut Vec<SimulatorEvent>) -> io::Result<()> {
        for client in &self.clients {
            if !client.is_open {
                let sent = client.source.counts().sent;
                events.push(SimulatorEvent::Closed(client.peer, sent))?;
            }
        }
        self.clients.retain(|client| client.is_open);
        Ok(())
    }

    /// Adds the data frames that are due at an instant to what waits for each client, and to `frames`, one client after another.
    ///
    /// # Errors
    ///
    /// `OutOfMemory`.
    pub fn due(&mut self, at: UnixTime, frames: &mut Vec<u8>) -> io::Result<()> {
        for client in self.clients.iter_mut() {
            let before = client.out.len();
            io_result(client.source.due(at, &mut client.out))?;
            frames.extend_from_slice(client.out.get(before..).unwrap_or(&[]))?;
        }
        Ok(())
    }

    /// Skips the data frames that are due at an instant.
    pub fn skip_due(&mut self, at: UnixTime) {
        for client in self.clients.iter_mut() {
            client.source.skip_due(at);
        }
    }

    /// Adds the data frames that are due to what waits for each client.
    fn queue_due(&mut self, at: UnixTime, events: &mut Vec<SimulatorEvent>) -> io::Result<()> {
        for client in self.clients.iter_mut() {
            client.queue_due(at, events)?;
        }
        Ok(())
    }

    /// Sends what waits for each client, as far as it takes it; the rest waits. What happened is added to `events`.
    ///
    /// # Errors
    ///
    /// `OutOfMemory`.
    pub fn send(&mut self, events: &mut Vec<SimulatorEvent>) -> io::Result<()> {
        for client in self.clients.iter_mut() {
            client.is_open = client.send();
        }
        self.drop_closed(events)
    }
}

impl Client {
    /// Adds the data frames that are due to what waits. Where too much waits they are left out, which is reported once until the client
    /// reads again.
    fn queue_due(&mut self, at: UnixTime, events: &mut Vec<SimulatorEvent>) -> io::Result<()> {
        if self.out.len() <= WAITING {
            self.is_stalled = false;
            return io_result(self.source.due(at, &mut self.out));
        }
        self.source.skip_due(at);
        if !self.is_stalled {
            self.is_stalled = true;
            events.push(SimulatorEvent::Stalled(self.peer))?;
        }
        Ok(())
    }

    /// Reads its bytes and obeys them, and answers whether the connection stays open. A client that does not take its answers is not read
    /// any further.
    fn read(&mut self, at: UnixTime, events: &mut Vec<SimulatorEvent>) -> io::Result<bool> {
        self.has_more = false;
        for _ in 0..READS {
            // (once the client reads, a wait reports that)
            if self.out.len() > WAITING {
                return Ok(true);
            }
            let mut piece = [0; PIECE];
            match (&self.stream).read(&mut piece) {
                Ok(0) => return Ok(false),
                Ok(read) => {
                    if !self.obey(at, &piece[..read], events)? {
                        return Ok(false);
                    }
                }
                Err(error) if error.kind() == ErrorKind::WouldBlock => return Ok(true),
                Err(error) if error.kind() == ErrorKind::Interrupted => {}
                Err(_) => return Ok(false),
            }
        }
        self.has_more = true;
        Ok(true)
    }

    /// Obeys the commands in these bytes, and answers whether the connection stays open.
    fn obey(
        &mut self,
        now: UnixTime,
        bytes: &[u8],
        events: &mut Vec<SimulatorEvent>,
    ) -> io::Result<bool> {
        let mut at = 0;
        for _ in 0..=bytes.len() {
            if at < bytes.len() {
                at += self.source.feed(&bytes[at..]);
            }
            let event = io_result(self.source.next(now, &mut self.out))?;
            match event {
                CommandEvent::More if at >= bytes.len() => return Ok(true),
                CommandEvent::More => {}
                CommandEvent::Broken(_) => {
                    events.push(SimulatorEvent::Command(self.peer, event))?;
                    return Ok(false);
                }
                _ => events.push(SimulatorEvent::Command(self.peer, event))?,
            }
        }
        Ok(true)
    }

    /// Sends what waits, as far as the client takes it, and answers whether the connection stays open.
    fn send(&mut self) -> bool {
        for _ in 0..READS {
            let rest = self.out.get(self.written..).unwrap_or(&[]);
            if rest.is_empty() {
                self.out.clear();
                self.written = 0;
                return true;
            }
            match (&self.stream).write(rest) {
                Ok(0) => return false,
                Ok(sent) => self.written = self.written.saturating_add(sent),
                Err(error) if error.kind() == ErrorKind::WouldBlock => return true,
                Err(error) if error.kind() == ErrorKind::Interrupted => {}
                Err(_) => return false,
            }
        }
        true
    }
}

/// The answer of a source, of which only memory can be short.
fn io_result<T: Drop>(answer: Result<T, Refusal>) -> io::Result<T> {
    match answer {
        Ok(value) => Ok(value),
        Err(_) => Err(io::Error::from(ErrorKind::OutOfMemory)),
    }
}

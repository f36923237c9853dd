//! What the system's table says of TCP connections.

use crate::mail::{Mailbox, PortOrder};
use pg_limits::TcpRow;
use pg_log::{Detail, Entry, Journal, LogEvent, Subject};
use pg_shared::Work;
use std::alloc::Global;
use std::net::{IpAddr, SocketAddr};
use std::rt::Clock;
use std::sync::atomic::{AtomicBool, AtomicU64, Ordering};
use std::sync::{Mutex, Wait};
use std::time::Duration;
use std::{fs, io, str, thread};

/// Where Linux lists its TCP connections.
const TABLE: &str = "/proc/net/tcp";

/// How long is waited in one turn, so that the program ends soon, in milliseconds; and in how many of them the table is read once.
const WAIT_MS: u64 = 100;

const WAITS: u32 = 10;

/// The TCP connections of this machine over which bytes were sent that are not acknowledged, as the system's table listed them last (own
/// rule). So a subscriber's host that lost its power is found.
#[derive(Drop)]
pub struct Connections {
    rows: Mutex<Vec<TcpRow>>,
    // How often the table was read.
    reads: AtomicU64,
    // Whether bytes were sent since the table was read, or some of those that were sent before are not acknowledged.
    is_wanted: AtomicBool,
}

impl Connections {
    /// The table was not read.
    pub fn new(alloc: Global) -> Connections {
        Connections {
            rows: Mutex::new(Vec::new(alloc)),
            reads: AtomicU64::new(0),
            is_wanted: AtomicBool::new(false),
        }
    }

    /// Has the table read once more.
    pub fn ask(&self) {
        // Most often it is asked for already, and then nothing is written that other processors hold.
        if !self.is_wanted.load(Ordering::SeqCst) {
            self.is_wanted.store(true, Ordering::SeqCst);
        }
    }

    /// How often the table was read.
    pub fn reads(&self) -> u64 {
        self.reads.load(Ordering::SeqCst)
    }

    /// How many bytes are not acknowledged of those that were sent from this port to that peer.
    pub fn unacknowledged<R: Wait>(&self, rt: &R, port: u16, peer: SocketAddr) -> u32 {
        let IpAddr::V4(host) = peer.ip() else {
            return 0;
        };
        let ends = (host, peer.port());
        let rows = self.rows.lock(rt);
        let row = rows
            .iter()
            .find(|row| row.local.1 == port && row.remote == ends);
        row.map_or(0, |row| row.unacknowledged)
    }

    /// Keeps what the table lists now.
    fn replace<R: Wait>(&self, rt: &R, rows: Vec<TcpRow>) {
        let mut held = self.rows.lock(rt);
        *held = rows;
        drop(held);
        self.reads.fetch_add(1, Ordering::SeqCst);
    }
}

/// A worker that reads the system's table of TCP connections once a second while subscribers are sent bytes.
#[derive(Drop)]
pub struct ConnectionsWorker<'a, R: Wait + Clock> {
    rt: &'a R,
    files: &'a HostRuntime,
    alloc: Global,
    connections: &'a Connections,
    ports: &'a [Mailbox<PortOrder>],
    journal: &'a Journal,
    // How often it waited since the table was read.
    waits: u32,
    // Whether the log says already that the table can't be read.
    is_reported: bool,
}

impl<'a, R: Wait + Clock> ConnectionsWorker<'a, R> {
    /// A worker that wakes the workers of these mailboxes where it has read the table.
    pub fn new(
        rt: &'a R,
        files: &'a HostRuntime,
        alloc: Global,
        connections: &'a Connections,
        ports: &'a [Mailbox<PortOrder>],
        journal: &'a Journal,
    ) -> ConnectionsWorker<'a, R> {
        ConnectionsWorker {
            rt,
            files,
            alloc,
            connections,
            ports,
            journal,
            waits: 0,
            is_reported: false,
        }
    }

    /// Reads the table, and wakes those that serve subscribers.
    fn read(&mut self) {
        match fs::read(self.files, TABLE) {
            Ok(bytes) => {
                self.connections.replace(self.rt, self.rows_in(&bytes));
                for mailbox in self.ports {
                    mailbox.wake(self.journal);
                }
            }
            Err(error) => self.report(error),
        }
    }

    /// The connections of the table over which bytes were sent that are not acknowledged. Where there is no memory for one, that is noted.
    fn rows_in(&self, bytes: &[u8]) -> Vec<TcpRow> {
        let mut rows = Vec::new(self.alloc);
        let text = str::from_utf8(bytes).unwrap_or("");
        for line in text.lines() {
            match TcpRow::read(line) {
                Some(row) if row.unacknowledged > 0 => {
                    if rows.push(row).is_err() {
                        self.journal.note(LogEvent::MailFault);
                    }
                }
                _ => {}
            }
        }
        rows
    }

    /// Reports once that the table can't be read.
    fn report(&mut self, error: io::Error) {
        if !self.is_reported {
            self.is_reported = true;
            let detail = Detail::of_error(&error);
            let entry = Entry::new(LogEvent::NoTable, Subject::Nobody, detail);
            self.journal.log(self.rt, entry);
        }
    }
}

impl<R: Wait + Clock> Work for ConnectionsWorker<'_, R> {
    fn turn(&mut self) -> bool {
        thread::sleep(self.rt, Duration::from_millis(WAIT_MS));
        self.waits = self.waits.saturating_add(1);
        if self.waits >= WAITS {
            self.waits = 0;
            if self.connections.is_wanted.swap(false, Ordering::SeqCst) {
                self.read();
            }
        }
        true
    }
}

//! The orders that workers get while they run.

use crate::rules::ConnectionRules;
use crate::targets::Dial;
use mio::net::TcpListener;
use mio::{Poll, Token, Waker};
use pg_log::{Journal, LogEvent};
use pg_wire::{PmuId, StreamId, SubId};
use std::alloc::Global;
use std::net::SocketAddr;
use std::sync::atomic::{AtomicBool, AtomicUsize, Ordering};
use std::sync::{Mutex, Wait};
use std::{io, mem};

/// The token under which a worker is woken.
pub(crate) const WAKE: Token = Token(usize::MAX);

/// An order to a worker that calls sources.
#[derive(Drop)]
pub enum SourceOrder {
    /// This source is called from now on.
    Dial(Dial),
    /// This source is called no longer.
    Undial(PmuId),
    /// This source is called anew, so that it announces again.
    Renew(PmuId),
    /// This source has no PMU any more: it is left alone until one is added.
    Rest(PmuId),
    /// A source's name was looked up.
    Found {
        /// The source.
        source: PmuId,
        /// The dial for which it was.
        dial: u64,
        /// The place of the name among the targets of the dial.
        place: usize,
        /// The addresses that were found; none where the name has none, or no server answered.
        addresses: Vec<SocketAddr>,
    },
    /// Its worker reports how its sources stand, in answer to this asking.
    Report(u64),
    /// So many events of its sources may make frames before those that were made are handed out.
    Room(u32),
}

/// An order to a worker that serves subscribers.
#[derive(Drop)]
pub enum PortOrder {
    /// This port is served from now on.
    Open {
        /// The subscriber.
        sub: SubId,
        /// Its rules.
        rules: ConnectionRules,
        /// Its port.
        listener: TcpListener,
    },
    /// The subscriber's port can't be bound now: it is tried again each 30 seconds.
    Bind {
        /// The subscriber.
        sub: SubId,
        /// The hosts that may connect, and how long a subscriber that connected is waited for.
        rules: ConnectionRules,
        /// Where.
        address: SocketAddr,
    },
    /// The ports that could not be bound are tried again at once.
    BindAgain,
    /// The subscriber's port is closed, and the subscriber that connected is hung up.
    Close(SubId),
    /// The subscriber that connected is hung up.
    HangUp(SubId),
    /// A stream that was on is defined anew with the same members, and goes on: once what waits for its subscriber is handed out, it is
    /// sent CFG-2 and the stream is started. Nothing is done where the subscriber did not start it in the connection that stands.
    Resume(SubId, StreamId),
    /// Its worker reports how its ports stand, in answer to this asking.
    Report(u64),
}

/// The orders to one worker, of whichever thread, and how it is woken. Wakes that come together count as one.
#[derive(Drop)]
pub struct Mailbox<O> {
    orders: Mutex<Vec<O>>,
    pending: AtomicBool,
    waker: Waker,
    // The turns that the worker began by a wake, the last of them that it ended, and whether somebody waits for the end of one.
    begun: AtomicUsize,
    ended: AtomicUsize,
    is_awaited: AtomicBool,
}

impl<O: Drop> Mailbox<O> {
    /// The mailbox of the worker that waits for this poll. It is empty.
    ///
    /// # Errors
    ///
    /// That of the system, where it has no means to wake.
    pub fn new(alloc: Global, poll: &Poll) -> io::Result<Mailbox<O>> {
        Ok(Mailbox {
            orders: Mutex::new(Vec::new(alloc)),
            pending: AtomicBool::new(false),
            waker: Waker::new(poll.registry(), WAKE)?,
            begun: AtomicUsize::new(0),
            ended: AtomicUsize::new(0),
            is_awaited: AtomicBool::new(false),
        })
    }

    /// Wakes the worker. Where it was woken and has not begun its turn, it is not woken twice.
    pub fn wake(&self, journal: &Journal) {
        if self.pending.swap(true, Ordering::SeqCst) {
            return;
        }
        if self.waker.wake().is_err() {
            self.pending.store(false, Ordering::SeqCst);
            journal.note(LogEvent::MailFault);
        }
    }

    /// Leaves an order, and wakes the worker. Where there is no memory for it, that is noted.
    pub fn send<R: Wait>(&self, rt: &R, journal: &Journal, order: O) {
        let is_left = self.orders.lock(rt).push(order).is_ok();
        if !is_left {
            journal.note(LogEvent::MailFault);
        }
        self.wake(journal);
    }

    /// Whether the worker was woken since it took its orders last.
    pub fn is_pending(&self) -> bool {
        self.pending.load(Ordering::SeqCst)
    }

    /// The number of a turn that begins later than now, if the worker is woken now.
    pub fn next_turn(&self) -> usize {
        self.begun.load(Ordering::SeqCst).wrapping_add(1)
    }

    /// Whether the worker has ended the turn of this number.
    pub fn has_ended(&self, turn: usize) -> bool {
        self.ended.load(Ordering::SeqCst) >= turn
    }

    /// From now on somebody waits until the worker ends a turn.
    pub fn wait_for_end(&self) {
        self.is_awaited.store(true, Ordering::SeqCst);
    }

    /// The worker ends the turn that it began last, and learns whether somebody waits for that.
    pub fn end_turn(&self) -> bool {
        let begun = self.begun.load(Ordering::SeqCst);
        self.ended.store(begun, Ordering::SeqCst);
        self.is_awaited.load(Ordering::SeqCst) && self.is_awaited.swap(false, Ordering::SeqCst)
    }

    /// All orders that were left, in the order in which they came. From now on the worker can be woken again.
    pub fn take<R: Wait>(&self, rt: &R, alloc: Global) -> Vec<O> {
        self.pending.store(false, Ordering::SeqCst);
        self.begun.fetch_add(1, Ordering::SeqCst);
        let mut held = self.orders.lock(rt);
        mem::replace(&mut *held, Vec::new(alloc))
    }
}

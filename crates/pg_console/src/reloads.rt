//! Reloads that clients of the control socket asked for.

use pg_log::Journal;
use pg_service::Mailbox;
use pg_wire::Refusal;
use std::alloc::Global;
use std::sync::{Mutex, Wait};

/// How many reloads may wait to be begun: one for each client of the control socket.
const WAITING: usize = 8;

/// A reload whose answer is awaited.
#[derive(Drop)]
struct Awaited {
    number: u64,
    // Its answer, once it is done.
    answer: Option<Vec<u8>>,
}

/// The reloads that were asked for and are not begun, in their order, and those whose answers are awaited.
#[derive(Drop)]
struct Asked {
    last: u64,
    waiting: Vec<u64>,
    awaited: Vec<Awaited>,
}

/// The reloads that clients of the control socket asked for. A worker of its own does one after another and leaves the answers, so
/// that no other worker waits for the setup file or a port. Each answer is kept until it is taken, or the client has gone.
#[derive(Drop)]
pub struct Reloads {
    asked: Mutex<Asked>,
    worker: Mailbox<()>,
}

impl Reloads {
    /// No reload was asked for. The worker that does them is woken by this mailbox.
    pub fn new(alloc: Global, worker: Mailbox<()>) -> Reloads {
        Reloads {
            asked: Mutex::new(Asked {
                last: 0,
                waiting: Vec::new(alloc),
                awaited: Vec::new(alloc),
            }),
            worker,
        }
    }

    /// Wakes the worker that does them.
    pub fn wake(&self, journal: &Journal) {
        self.worker.wake(journal);
    }

    /// Asks for a reload, and gives the number by which its answer is taken.
    ///
    /// # Errors
    ///
    /// `Busy` where 8 reloads wait to be begun, of clients that have gone since; `NoMemory`.
    pub fn ask<R: Wait>(&self, rt: &R, journal: &Journal) -> Result<u64, Refusal> {
        let mut asked = self.asked.lock(rt);
        if asked.waiting.len() >= WAITING {
            return Err(Refusal::Busy);
        }
        let number = asked.last.wrapping_add(1);
        asked.waiting.push(number)?;
        let awaited = Awaited {
            number,
            answer: None,
        };
        if asked.awaited.push(awaited).is_err() {
            asked.waiting.pop();
            return Err(Refusal::NoMemory);
        }
        asked.last = number;
        drop(asked);
        self.wake(journal);
        Ok(number)
    }

    /// The next reload that is to be done, if one is. From now on its worker can be woken again.
    pub fn next<R: Wait>(&self, rt: &R, alloc: Global) -> Option<u64> {
        drop(self.worker.take(rt, alloc));
        let mut asked = self.asked.lock(rt);
        if asked.waiting.is_empty() {
            None
        } else {
            Some(asked.waiting.remove(0))
        }
    }

    /// The reload of this number is done, and answered so.
    pub fn answer<R: Wait>(&self, rt: &R, number: u64, answer: Vec<u8>) {
        let mut asked = self.asked.lock(rt);
        let place = asked.awaited.iter().position(|it| it.number == number);
        if let Some(place) = place {
            asked.awaited[place].answer = Some(answer);
        }
    }

    /// Takes the answer to the reload of this number, if it is done.
    pub fn take_answer<R: Wait>(&self, rt: &R, number: u64) -> Option<Vec<u8>> {
        let mut asked = self.asked.lock(rt);
        let place = asked
            .awaited
            .iter()
            .position(|it| it.number == number && it.answer.is_some())?;
        asked.awaited.remove(place).answer
    }

    /// Drops the answer to the reload of this number. It is done all the same.
    pub fn drop_answer<R: Wait>(&self, rt: &R, number: u64) {
        let mut asked = self.asked.lock(rt);
        asked.awaited.retain(|it| it.number != number);
    }
}

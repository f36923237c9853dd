//! What workers report of their sources and ports, for those that ask.

use crate::connections::Connections;
use crate::mail::{Mailbox, PortOrder, SourceOrder};
use pg_audit::PmuStats;
use pg_limits::{Clocks, LayoutChanges};
use pg_log::{Journal, LogEvent};
use pg_quality::{FrameSummary, Histogram as DelayHistogram, PmuSummary};
use pg_status::Histogram;
use pg_wire::{PmuId, SubId};
use std::alloc::Global;
use std::net::SocketAddr;
use std::rt::Clock;
use std::sync::{Mutex, Wait};
use std::time::Duration;
use std::{mem, thread};

/// How often it is looked whether all workers have answered, and how long is waited between: a second in all.
const LOOKS: u32 = 1_000;

const PAUSE_MS: u64 = 1;

/// How the connection to a source stands.
#[derive(Clone, Copy)]
pub enum LinkState {
    /// It is connected, and sent a data frame that counts.
    Up,
    /// It is connected, and sent no data frame that counts.
    Connected,
    /// A connection is being made, or its name looked up.
    Calling,
    /// It is called again after so long.
    Pause(Duration),
    /// It is not called.
    Rests,
}

/// A source, as its worker reports it.
#[derive(Drop)]
pub struct SourceReport {
    /// The source.
    pub source: PmuId,
    /// Where it is called, as its setup has it, if it is called.
    pub address: Option<String>,
    /// How its connection stands.
    pub reach: LinkState,
    /// What its link counted since it was dialed: events, and frames that were ignored, by their reasons.
    pub counts: PmuStats,
    /// Measurements since then that were too far from this machine's clock.
    pub far: u64,
    /// How long its last event is past, if there was one.
    pub last: Option<Duration>,
    /// How long its last data frame that counts is past, if there was one.
    pub last_data: Option<Duration>,
    /// How good its data frames are.
    pub quality: FrameSummary,
    /// How long its data frames took in the last 60 seconds.
    pub delays: DelayHistogram,
    /// How good the blocks are of the PMUs of its last configuration, in its order.
    pub pmus: Vec<PmuSummary>,
}

/// A subscriber's port, as its worker reports it.
#[derive(Clone, Copy)]
pub struct PortReport {
    /// The subscriber.
    pub sub: SubId,
    /// Where it listens, as far as the system says.
    pub address: Option<SocketAddr>,
    /// Where it is to listen once it can be bound, where it can't be now.
    pub unbound: Option<SocketAddr>,
    /// From where the subscriber is connected, if it is.
    pub peer: Option<SocketAddr>,
    /// Since when it is connected, or not.
    pub since: Duration,
    /// Data frames handed out since the port was opened.
    pub frames: u64,
    /// Data frames since the port was opened that were dropped before those that were handed out.
    pub gaps: u64,
}

/// What workers have reported.
#[derive(Drop)]
pub struct Reports {
    /// The sources of all workers that answered.
    pub sources: Vec<SourceReport>,
    /// The ports of all workers that answered.
    pub ports: Vec<PortReport>,
    /// How old the data frames were that their ports handed out, from the start on.
    pub ages: Histogram,
    /// How many workers did not answer in time.
    pub unanswered: usize,
    // Which asking is answered, and by how many workers so far.
    asking: u64,
    answers: usize,
}

impl Reports {
    /// Nothing was reported.
    fn new(alloc: Global, asking: u64) -> Reports {
        Reports {
            sources: Vec::new(alloc),
            ports: Vec::new(alloc),
            ages: Histogram::new(),
            unanswered: 0,
            asking,
            answers: 0,
        }
    }
}

/// Where workers report how their sources and ports stand, when somebody asks. A look costs those that serve one order a
/// look, and no look costs nothing.
#[derive(Drop)]
pub struct StatusCollector {
    // The number of the last asking: held while one asks.
    asking: Mutex<u64>,
    reports: Mutex<Reports>,
    // How the clocks of the sources of each worker stand, by the workers' numbers.
    clocks: Mutex<Vec<Clocks>>,
    // The newest times of the data of connected sources, each with the number of its worker.
    times: Mutex<Vec<(usize, u64)>>,
    // What the system's table of TCP connections lists.
    connections: Connections,
    // The edits and announcements that may change the layouts of streams.
    layout_changes: LayoutChanges,
}

impl StatusCollector {
    /// Nobody has asked.
    pub fn new(alloc: Global) -> StatusCollector {
        StatusCollector {
            asking: Mutex::new(0),
            reports: Mutex::new(Reports::new(alloc, 0)),
            clocks: Mutex::new(Vec::new(alloc)),
            times: Mutex::new(Vec::new(alloc)),
            connections: Connections::new(alloc),
            layout_changes: LayoutChanges::new(),
        }
    }

    /// The counts of edits and announcements that may change the layouts of streams.
    #[inline(always)]
    pub fn layout_changes(&self) -> &LayoutChanges {
        &self.layout_changes
    }

    /// The clocks of the sources of the worker of this number stand so. Where there is no memory for it, that is noted.
    pub fn put_up<R: Wait>(&self, rt: &R, journal: &Journal, worker: usize, own: Clocks) {
        let mut held = self.clocks.lock(rt);
        for _ in held.len()..worker.saturating_add(1) {
            if held.push(Clocks::none()).is_err() {
                journal.note(LogEvent::MailFault);
                return;
            }
        }
        if let Some(place) = held.get_mut(worker) {
            *place = own;
        }
    }

    /// How the clocks of the sources of all workers stand.
    pub fn clocks<R: Wait>(&self, rt: &R) -> Clocks {
        let mut all = Clocks::none();
        let held = self.clocks.lock(rt);
        for own in held.iter() {
            all = all.with(*own);
        }
        all
    }

    /// What the system's table of TCP connections lists.
    pub fn connections(&self) -> &Connections {
        &self.connections
    }

    /// The newest data of the sources of the worker of this number are of these times, in milliseconds since 1970-01-01 00:00 UTC. Those of the
    /// sources of all workers are put into `all`. Where there is no memory for one, that is noted.
    pub fn exchange_times<R: Wait>(
        &self,
        rt: &R,
        journal: &Journal,
        worker: usize,
        own: &[u64],
        all: &mut Vec<u64>,
    ) {
        let mut held = self.times.lock(rt);
        held.retain(|it| it.0 != worker);
        let mut is_kept = true;
        for time in own {
            is_kept &= held.push((worker, *time)).is_ok();
        }
        all.clear();
        for it in held.iter() {
            is_kept &= all.push(it.1).is_ok();
        }
        if !is_kept {
            journal.note(LogEvent::MailFault);
        }
    }

    /// Asks all these workers, and waits for their answers, a second at most. Where one does not answer in time, that is noted, and
    /// its sources or ports are missing.
    pub fn ask<R: Wait + Clock>(
        &self,
        rt: &R,
        alloc: Global,
        sources: &[Mailbox<SourceOrder>],
        ports: &[Mailbox<PortOrder>],
        journal: &Journal,
    ) -> Reports {
        let mut asking = self.asking.lock(rt);
        *asking = (*asking).wrapping_add(1);
        let number = *asking;
        self.replace(rt, Reports::new(alloc, number));
        for mailbox in sources {
            mailbox.send(rt, journal, SourceOrder::Report(number));
        }
        for mailbox in ports {
            mailbox.send(rt, journal, PortOrder::Report(number));
        }
        let workers = sources.len().saturating_add(ports.len());
        if !self.waits_for(rt, workers) {
            journal.note(LogEvent::Unanswered);
        }
        let mut reports = self.replace(rt, Reports::new(alloc, 0));
        reports.unanswered = workers.saturating_sub(reports.answers);
        drop(asking);
        reports
    }

    /// Puts these in the place of what was reported.
    fn replace<R: Wait>(&self, rt: &R, new: Reports) -> Reports {
        let mut held = self.reports.lock(rt);
        mem::replace(&mut *held, new)
    }

    /// Waits until so many workers have answered, and returns whether they have.
    fn waits_for<R: Wait + Clock>(&self, rt: &R, workers: usize) -> bool {
        for _ in 0..LOOKS {
            let answers = self.reports.lock(rt).answers;
            if answers >= workers {
                return true;
            }
            thread::sleep(rt, Duration::from_millis(PAUSE_MS));
        }
        false
    }

    /// A worker reports its sources, unless that asking is over. Where there is no memory for it, that is noted.
    pub fn report_sources<R: Wait>(
        &self,
        rt: &R,
        journal: &Journal,
        asking: u64,
        reports: Vec<SourceReport>,
    ) {
        let mut held = self.reports.lock(rt);
        if held.asking != asking {
            return;
        }
        held.answers = held.answers.saturating_add(1);
        for report in reports {
            if held.sources.push(report).is_err() {
                journal.note(LogEvent::MailFault);
            }
        }
    }

    /// A worker reports its ports, unless that asking is over. Where there is no memory for it, that is noted.
    pub fn report_ports<R: Wait>(
        &self,
        rt: &R,
        journal: &Journal,
        asking: u64,
        reports: Vec<PortReport>,
        ages: &Histogram,
    ) {
        let mut held = self.reports.lock(rt);
        if held.asking != asking {
            return;
        }
        held.answers = held.answers.saturating_add(1);
        held.ages.add(ages);
        for report in reports {
            if held.ports.push(report).is_err() {
                journal.note(LogEvent::MailFault);
            }
        }
    }
}

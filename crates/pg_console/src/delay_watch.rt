//! The worker that logs where data come later than a stream's `wait` allows.

use crate::advise::{delays_of, pace_of};
use crate::service_handle::ServiceHandle;
use pg_gateway::Edit;
use pg_log::{Detail, Entry, LogEvent, Subject};
use pg_service::{Reports, SourceReport, StreamPace, behind_of, is_late_after};
use pg_shared::Work;
use pg_sources::clock_ms;
use pg_stream::Definition;
use pg_wire::{PmuId, Refusal, StreamId, SubId};
use std::alloc::{AllocError, Global};
use std::rt::Clock;
use std::sync::Wait;
use std::time::{Duration, Instant};
use std::{mem, thread};

/// How long a turn waits, in milliseconds, and after how many it is looked at the delays: each 10 seconds.
const WAIT_MS: u64 = 500;

const WAITS: u32 = 20;

/// How many milliseconds this machine's clock may go on unlike the time that passes from turn to turn; if it is more, the clock was set.
const SET_MS: u64 = 200;

/// How many looks are left out then: delays of 70 seconds, by the clock before and behind that, are looked at together.
const LEFT_OUT: u32 = 8;

/// A source whose data come too late for a stream.
#[derive(Clone, Copy, PartialEq, Eq)]
struct LateSource {
    sub: SubId,
    stream: StreamId,
    source: PmuId,
}

/// A worker that looks each 10 seconds at the delays of the last minute, and logs where the 99th per cent of a source's has risen above what the `wait`
/// of a stream allows, and where it is well again. Where this machine's clock was set, it leaves out the looks at delays by both clocks.
#[derive(Drop)]
pub struct DelayWatch<'a, R> {
    rt: &'a R,
    alloc: Global,
    service: ServiceHandle<'a>,
    waits: u32,
    // Those that were late at the last look.
    late: Vec<LateSource>,
    // When the last turn was, and this machine's clock then: milliseconds since 1970-01-01 00:00 UTC. And how many looks are left out.
    seen: Option<(Instant, u64)>,
    left_out: u32,
}

impl<'a, R: Wait + Clock> DelayWatch<'a, R> {
    /// None was late so far.
    pub fn new(rt: &'a R, alloc: Global, service: ServiceHandle<'a>) -> DelayWatch<'a, R> {
        DelayWatch {
            rt,
            alloc,
            service,
            waits: 0,
            late: Vec::new(alloc),
            seen: None,
            left_out: 0,
        }
    }

    /// Whether this machine's clock was set since this was asked last.
    fn was_set(&mut self) -> bool {
        let (Ok(now), Some(clock)) = (Instant::now(self.rt), clock_ms(self.rt)) else {
            return false;
        };
        let Some((then, before)) = mem::replace(&mut self.seen, Some((now, clock))) else {
            return false;
        };
        let passed = now.saturating_duration_since(then).as_millis();
        let passed = u64::try_from(passed).unwrap_or(u64::MAX);
        clock.abs_diff(before.saturating_add(passed)) > SET_MS
    }

    /// It is time to look at the delays, unless looks are left out.
    fn look_if_due(&mut self) {
        if self.left_out > 0 {
            self.left_out -= 1;
        } else if self.look().is_err() {
            self.service.note(LogEvent::MailFault);
        }
    }

    /// Looks at the delays of all streams.
    fn look(&mut self) -> Result<(), Refusal> {
        let Reports { sources, .. } = self.service.ask(self.rt, self.alloc);
        let subscribers = self.service.edits_by_subscriber(self.rt, self.alloc)?;
        let was_late = mem::replace(&mut self.late, Vec::new(self.alloc));
        for edits in subscribers {
            for edit in &edits {
                if let Edit::Define(sub, definition) = edit {
                    self.look_at(*sub, definition, &edits, &sources, &was_late)?;
                }
            }
        }
        Ok(())
    }

    /// Looks at the delays of a stream of a subscriber with these edits.
    fn look_at(
        &mut self,
        sub: SubId,
        definition: &Definition,
        edits: &[Edit],
        sources: &[SourceReport],
        was_late: &[LateSource],
    ) -> Result<(), AllocError> {
        let pace = pace_of(definition, self.service.tick_ms);
        let delays = delays_of(self.alloc, definition, edits, sources)?;
        for member in &delays {
            let it = LateSource {
                sub,
                stream: definition.stream,
                source: member.source,
            };
            let was = was_late.contains(&it);
            let behind = behind_of(&delays, member);
            let is = is_late_after(was, behind, pace);
            if is {
                self.late.push(it)?;
            }
            if was != is {
                self.log(it, is, behind, pace);
            }
        }
        Ok(())
    }

    /// Logs that a source is late by so many milliseconds for a stream, or is not any more.
    fn log(&self, it: LateSource, is_late: bool, behind: u64, pace: StreamPace) {
        let event = if is_late {
            LogEvent::Late
        } else {
            LogEvent::Timely
        };
        let detail = Detail::Behind {
            sub: it.sub,
            stream: it.stream,
            behind,
            wait: pace.wait_ms(),
        };
        let entry = Entry::new(event, Subject::Source(it.source), detail);
        self.service.handles.journal.log(self.rt, entry);
    }
}

impl<R: Wait + Clock> Work for DelayWatch<'_, R> {
    fn turn(&mut self) -> bool {
        thread::sleep(self.rt, Duration::from_millis(WAIT_MS));
        if self.was_set() {
            self.left_out = LEFT_OUT;
        }
        self.waits = self.waits.saturating_add(1);
        if self.waits >= WAITS {
            self.waits = 0;
            self.look_if_due();
        }
        true
    }
}

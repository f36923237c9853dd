//! A gateway that is posted what was recorded, call after call, and that can be asked between them.

use crate::input::{four, measurement};
use crate::reader::Fault;
use indexmap::IndexMap;
use pg_audit::PmuStats;
use pg_command::Command;
use pg_gateway::{Event, Gateway, Reply};
use pg_ingest::{Link, LinkEvent};
use pg_record::{Record, RecordKind};
use pg_replay::{Line, read_line};
use pg_ring::OutQueue;
use pg_serve::Input;
use pg_session::{MemberPlace, StreamStanding};
use pg_shared::event_of;
use pg_wire::{PmuId, PmuKey, Refusal, SubId};
use std::alloc::Global;

/// The most bytes that a script's drain has room for.
const MOST_ROOM: u32 = 65_535;

/// A gateway, and what reads the frames of its sources.
#[derive(Drop)]
pub(crate) struct Replayed {
    alloc: Global,
    gateway: Gateway,
    links: IndexMap<PmuId, Link>,
}

impl Replayed {
    /// A gateway without PMUs and subscribers.
    pub(crate) fn new(alloc: Global) -> Result<Replayed, Fault> {
        match Gateway::new(alloc) {
            Ok(gateway) => Ok(Replayed {
                alloc,
                gateway,
                links: IndexMap::new(alloc),
            }),
            Err(_) => Err(Fault::NoMemory),
        }
    }

    /// The event that this record is; `None` where it is none: of a question, and of what no line of a script says.
    pub(crate) fn event_of(
        &mut self,
        record: &Record,
        body: &[u8],
    ) -> Result<Option<Event>, Fault> {
        let number = record.number;
        match record.kind {
            RecordKind::Measurement => match measurement(self.alloc, number, body)? {
                Some(frame) => self.read(number, frame.as_slice()),
                None => Ok(None),
            },
            RecordKind::Configuration => self.read(number, body),
            RecordKind::Edit => self.edit(body),
            RecordKind::Tick => Ok(match four(body) {
                Some(soc) => Some(Event::Tick(soc)),
                None => None,
            }),
            _ => match SubId::new(number) {
                Some(subscriber) => self.event_by(subscriber, record.kind, body),
                None => Ok(None),
            },
        }
    }

    /// The event of a subscriber that a record is.
    fn event_by(
        &self,
        subscriber: SubId,
        kind: RecordKind,
        body: &[u8],
    ) -> Result<Option<Event>, Fault> {
        match (kind, body) {
            (RecordKind::Connect, _) => Ok(Some(Event::Connect(subscriber))),
            (RecordKind::Hangup, _) => Ok(Some(Event::Hangup(subscriber))),
            (RecordKind::Command, [stream_high, stream_low, word_high, word_low]) => {
                let command = Command {
                    stream: u16::from_be_bytes([*stream_high, *stream_low]),
                    word: u16::from_be_bytes([*word_high, *word_low]),
                };
                Ok(Some(Event::Command(subscriber, command)))
            }
            (RecordKind::Drain, _) => match four(body) {
                Some(room) if room <= MOST_ROOM => {
                    let buffer = vec![in self.alloc; 0; room as usize]?;
                    Ok(Some(Event::Drain(subscriber, buffer)))
                }
                _ => Ok(None),
            },
            _ => Ok(None),
        }
    }

    /// The event that a frame of a source is.
    fn read(&mut self, source: u16, frame: &[u8]) -> Result<Option<Event>, Fault> {
        let Some(source) = PmuId::new(source) else {
            return Ok(None);
        };
        if self.links.get(&source).is_none() {
            let Ok(link) = Link::new(self.alloc, source) else {
                return Err(Fault::NoMemory);
            };
            if self.links.insert(source, link).is_err() {
                return Err(Fault::NoMemory);
            }
        }
        let Some(link) = self.links.get_mut(&source) else {
            return Ok(None);
        };
        if frame.len() > link.room() {
            return Ok(None);
        }
        link.feed(frame);
        Ok(match link.next_event() {
            LinkEvent::Announce(config) => Some(Event::Announce(config)),
            LinkEvent::Measure(measured) => Some(Event::Measure(measured)),
            _ => None,
        })
    }

    /// The event that an operator's line is.
    fn edit(&self, line: &[u8]) -> Result<Option<Event>, Fault> {
        match read_line(self.alloc, line) {
            Ok(Line::Handed(Input::Edit(edit))) => Ok(Some(event_of(edit))),
            Ok(_) | Err(Refusal::BadLine) => Ok(None),
            Err(_) => Err(Fault::NoMemory),
        }
    }

    /// Posts an event.
    pub(crate) fn post(&mut self, event: Event) -> Reply {
        self.gateway.step(event)
    }

    /// How a stream of a subscriber and a member of that stand, where there is such a stream.
    pub(crate) fn standing(
        &mut self,
        subscriber: SubId,
        stream: usize,
        member: usize,
    ) -> Option<StreamStanding> {
        let (Ok(stream), Ok(member)) = (u8::try_from(stream), u8::try_from(member)) else {
            return None;
        };
        let place = MemberPlace { stream, member };
        let reply = self.gateway.step(Event::Standing(subscriber, place));
        match &reply {
            Reply::Standing(standing) => standing.stream,
            _ => None,
        }
    }

    /// The counters of a registered PMU.
    pub(crate) fn pmu_stats(&mut self, key: PmuKey) -> Option<PmuStats> {
        let reply = self.gateway.step(Event::PmuStats(key));
        match &reply {
            Reply::PmuStats(stats) => Some(*stats),
            _ => None,
        }
    }

    /// What waits to be handed out to a subscriber.
    pub(crate) fn queue(&self, subscriber: SubId) -> Option<&OutQueue> {
        self.gateway.queue(subscriber)
    }
}

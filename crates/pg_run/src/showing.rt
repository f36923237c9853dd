//! The line `show`: what a subscriber has, as a setup file says it.

use crate::reloading::SetupManager;
use crate::running::port_rules_of;
use pg_console::ServiceHandle;
use pg_gateway::{Event, Gate, MemberPlace, Reply};
use pg_operator::{
    PortRules, PortSetup, PortState, Shown, StreamState, SubscriberSetup, print_subscriber,
};
use pg_service::{MeteredGate, PortReport, Reports, SourceReport};
use pg_wire::{PmuId, PmuKey, Refusal, SubId};
use std::alloc::Global;
use std::io;
use std::io::Write;
use std::net::{Ipv4Addr, Net, SocketAddr};
use std::rt::Clock;
use std::sync::Wait;

/// The streams that one subscriber may have.
const STREAMS: u8 = 8;

/// A subscriber that was found, with its state.
#[derive(Drop)]
pub(crate) struct FoundSubscriber {
    setup: SubscriberSetup,
    // The rules of its port by the setup file, where none is open.
    closed: Option<PortRules>,
    port: PortState,
    streams: Vec<StreamState>,
    registered: Vec<PmuKey>,
    announced: Vec<PmuKey>,
}

impl FoundSubscriber {
    /// Prints it.
    pub(crate) fn print<W: Write>(&self, out: &mut W) -> io::Result<()> {
        let shown = Shown {
            setup: &self.setup,
            closed: self.closed.as_ref(),
            port: self.port,
            streams: &self.streams,
            registered: &self.registered,
            announced: &self.announced,
        };
        print_subscriber(out, &shown)
    }
}

impl<R: Net + Clock> SetupManager<'_, R> {
    /// What a subscriber has now, and how that stands: the edits by which it has it, its port as its worker reports it, the rules of the port by the
    /// setup in force, its streams as the gateway answers, and the PMUs that sources announced, as their workers report them.
    ///
    /// # Errors
    ///
    /// `NoSuchSub`; `NoMemory`.
    pub(crate) fn found<Q: Wait + Clock, G: Gate>(
        &self,
        rt: &Q,
        alloc: Global,
        service: &ServiceHandle<'_>,
        gate: &mut MeteredGate<G>,
        sub: SubId,
    ) -> Result<FoundSubscriber, Refusal> {
        let edits = service.edits_of(rt, alloc, sub)?;
        let Some(mut setup) = SubscriberSetup::of_edits(alloc, &edits)? else {
            return Err(Refusal::NoSuchSub);
        };
        let streams = streams_of(alloc, gate, sub)?;
        let registered = service.registered(rt, alloc)?;
        let Reports { sources, ports, .. } = service.ask(rt, alloc);
        let announced = announced_by(alloc, &sources)?;
        let (bound, port) = port_of(&ports, sub);
        let closed = match bound {
            Some((number, address)) => {
                let rules = self.rules_on(rt, alloc, sub, Some(address))?;
                setup.port = port_setup(number, rules);
                None
            }
            None => self.rules_on(rt, alloc, sub, None)?,
        };
        Ok(FoundSubscriber {
            setup,
            closed,
            port,
            streams,
            registered,
            announced,
        })
    }

    /// The rules of a subscriber's port on this address, by the setup in force or else the defaults. Without an address those of the setup, if
    /// it has a port for the subscriber.
    fn rules_on<Q: Wait>(
        &self,
        rt: &Q,
        alloc: Global,
        sub: SubId,
        address: Option<Ipv4Addr>,
    ) -> Result<Option<PortRules>, Refusal> {
        let setup = self.setup.lock(rt);
        let rules = port_rules_of(&setup.subscribers, sub);
        let rules = match (rules, address) {
            (Some(rules), Some(address)) => rules.on(alloc, address)?,
            (Some(rules), None) => rules.on(alloc, rules.address)?,
            (None, Some(address)) => PortRules::default_of(sub, address),
            (None, None) => return Ok(None),
        };
        Ok(Some(rules))
    }
}

/// The port of this number with these rules.
fn port_setup(port: u16, rules: Option<PortRules>) -> Option<PortSetup> {
    Some(PortSetup {
        port,
        rules: rules?,
    })
}

/// Where a subscriber's port is, if it has one, and how it stands.
fn port_of(ports: &[PortReport], sub: SubId) -> (Option<(u16, Ipv4Addr)>, PortState) {
    let Some(report) = ports.iter().find(|it| it.sub == sub) else {
        return (None, PortState::Closed);
    };
    let state = match (report.unbound, report.peer) {
        (Some(_), _) => PortState::Unbound,
        (None, Some(peer)) => PortState::Connected(peer),
        (None, None) => PortState::Waiting,
    };
    match report.unbound.or(report.address) {
        Some(SocketAddr::V4(address)) => (Some((address.port(), *address.ip())), state),
        _ => (None, PortState::Closed),
    }
}

/// How the streams of a subscriber stand.
fn streams_of<G: Gate>(
    alloc: Global,
    gate: &mut MeteredGate<G>,
    sub: SubId,
) -> Result<Vec<StreamState>, Refusal> {
    let mut streams = Vec::new(alloc);
    for place in 0..STREAMS {
        let place = MemberPlace {
            stream: place,
            member: 0,
        };
        let Reply::Standing(standing) = gate.post(Event::Standing(sub, place)) else {
            break;
        };
        let Some(stream) = standing.stream else {
            break;
        };
        streams.push(StreamState {
            stream: stream.stream,
            is_on: stream.is_on,
            effective: stream.effective,
        })?;
    }
    Ok(streams)
}

/// The PMUs of the last configuration of each of these sources.
fn announced_by(alloc: Global, sources: &[SourceReport]) -> Result<Vec<PmuKey>, Refusal> {
    let mut announced = Vec::new(alloc);
    for source in sources {
        for pmu in &source.pmus {
            if let Some(pmu) = PmuId::new(pmu.id) {
                announced.push(PmuKey {
                    source: source.source,
                    pmu,
                })?;
            }
        }
    }
    Ok(announced)
}

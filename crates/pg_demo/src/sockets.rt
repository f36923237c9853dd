//! The sockets of a demo, on free ports of this host.

use crate::fault::Fault;
use crate::run_demo::TICK;
use crate::setup::{source_id, sub_id};
use mio::net::TcpListener as PortListener;
use pg_console::{AdminListeners, ServicePlan};
use pg_limits::{Allow, OnChange};
use pg_service::{Address, ConnectionRules, Dial, Guards};
use pg_subscribers::Port;
use pg_tools::{DEMO_SOURCES, Simulator, demo_settings};
use pg_wire::PmuId;
use std::alloc::{AllocError, Global};
use std::net::{Ipv4Addr, Net, SocketAddr};
use std::rt::Clock;
use std::time::Duration;

/// The sockets of a demo: its simulated sources, the ports of its subscribers, and that of the page.
#[derive(Drop)]
pub struct Sockets {
    /// Both sources.
    pub simulators: (Simulator, Simulator),
    /// How the gateway connects to them, and where it serves both subscribers and the page.
    pub plan: ServicePlan<'static>,
    /// All addresses.
    pub addresses: Addresses,
}

/// The addresses of a demo.
#[derive(Clone, Copy)]
pub struct Addresses {
    sources: [SocketAddr; 2],
    /// Where both subscribers connect.
    pub ports: [SocketAddr; 2],
    page: SocketAddr,
}

impl Sockets {
    /// All of them, on free ports.
    pub fn bind<R: Net + Clock>(rt: &R, alloc: Global) -> Result<Sockets, Fault> {
        let (page, shown) = listener(rt)?;
        let mut plan = ServicePlan {
            dials: Vec::new(alloc),
            ports: Vec::new(alloc),
            tick: Duration::from_millis(u64::from(TICK)),
            listeners: AdminListeners {
                lines: None,
                page: Some(page),
            },
            files: None,
        };
        let ports = [
            add_port(rt, 1, &mut plan.ports)?,
            add_port(rt, 2, &mut plan.ports)?,
        ];
        let simulators = both_sources(rt, alloc, &mut plan.dials)?;
        let addresses = Addresses {
            sources: [simulators.0.address()?, simulators.1.address()?],
            ports,
            page: shown,
        };
        Ok(Sockets {
            simulators,
            plan,
            addresses,
        })
    }
}

impl Addresses {
    /// The text below the screen: all addresses, and the lines that can be tried.
    pub fn intro(&self, alloc: Global, reads_lines: bool) -> Result<String, AllocError> {
        let mut text = String::new(alloc);
        let [one, other] = self.sources;
        let [first, second] = self.ports;
        let page = self.page;
        let [seven, eight] = DEMO_SOURCES;
        write!(
            text,
            "source {seven} {one}  source {eight} {other}\nsubscriber 1 {first}  subscriber 2 {second}\npage http://{page}/\n"
        )?;
        if reads_lines {
            text.push_str(
                "try: revoke 1 8 | grant 1 8 | droppmu 7 | addpmu 7 | stats 1 | q (ends it)\n",
            )?;
        }
        Ok(text)
    }
}

/// A simulated source; how the gateway connects to it is added to the others. `place` is its place in `DEMO_SOURCES`.
fn simulator<R: Net + Clock>(
    rt: &R,
    alloc: Global,
    place: u8,
    dials: &mut Vec<Dial>,
) -> Result<Simulator, Fault> {
    let settings = demo_settings(place)?;
    let free = SocketAddr::from((Ipv4Addr::LOCALHOST, 0));
    let simulator = match Simulator::bind(rt, alloc, free, settings, 1) {
        Ok(simulator) => simulator,
        Err(error) => return Err(Fault::Tool(pg_tools::Fault::Bind(free, error))),
    };
    let source = source_id(settings.numbers.first)?;
    dials.push(dial_to(alloc, source, simulator.address()?)?)?;
    Ok(simulator)
}

/// How the gateway connects to a source at this address.
fn dial_to(alloc: Global, source: PmuId, address: SocketAddr) -> Result<Dial, AllocError> {
    let mut addresses = Vec::new(alloc);
    addresses.push(Address::Known(address))?;
    Ok(Dial {
        source,
        addresses,
        prefer_first: false,
        silence: None,
        guards: Guards::none(),
    })
}

/// Both simulated sources; how the gateway connects to them is added.
fn both_sources<R: Net + Clock>(
    rt: &R,
    alloc: Global,
    dials: &mut Vec<Dial>,
) -> Result<(Simulator, Simulator), Fault> {
    let one = simulator(rt, alloc, 0, dials)?;
    Ok((one, simulator(rt, alloc, 1, dials)?))
}

/// A listener, and its address.
fn listener<R: Net>(rt: &R) -> Result<(PortListener, SocketAddr), Fault> {
    let free = SocketAddr::from((Ipv4Addr::LOCALHOST, 0));
    match PortListener::bind(rt, free) {
        Ok(listener) => {
            let address = listener.local_addr()?;
            Ok((listener, address))
        }
        Err(error) => Err(Fault::Tool(pg_tools::Fault::Bind(free, error))),
    }
}

/// Adds the port of a subscriber, and returns its address.
fn add_port<R: Net>(rt: &R, number: u16, ports: &mut Vec<Port>) -> Result<SocketAddr, Fault> {
    let sub = sub_id(number)?;
    let (listener, address) = listener(rt)?;
    let rules = ConnectionRules {
        allow: Allow { networks: None },
        takeover: false,
        stall: None,
        idle: None,
        change: OnChange::Safe,
    };
    ports.push(Port::new(sub, rules, listener))?;
    Ok(address)
}

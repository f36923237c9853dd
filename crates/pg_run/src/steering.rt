//! Lines about the sources and ports of the running service.

use crate::failure::refusal_of;
use crate::reloading::SetupManager;
use crate::running::{connection_rules, dial_to, port_rules_of};
use pg_console::{Console, ServiceCommands};
use pg_gateway::{Event, Gate, Reply};
use pg_lines::{NotPrinted, Steer, print_refusal};
use pg_log::system_words;
use pg_operator::PortRules;
use pg_service::{Address, MeteredGate};
use pg_wire::{PmuId, Refusal, SubId};
use std::alloc::Global;
use std::io::Write;
use std::net::{Ipv4Addr, Net, SocketAddr, SocketAddrV4};
use std::rt::Clock;
use std::sync::Wait;

impl<R: Net + Clock> SetupManager<'_, R> {
    /// Calls a registered source at this address from now on.
    fn dial<W: Write, Q: Wait>(
        &self,
        rt: &Q,
        console: &mut Console<'_, W>,
        source: PmuId,
        address: SocketAddrV4,
    ) -> Result<(), Refusal> {
        if !console.has_source(rt, source) {
            return Err(Refusal::NoSuchPmu);
        }
        let mut addresses = Vec::new(console.alloc());
        addresses.push(Address::Known(SocketAddr::V4(address)))?;
        let service = console.service();
        service.undial(rt, source);
        service.dial(rt, dial_to(addresses, &self.rules_of(rt, source)));
        Ok(())
    }

    /// The rules of a subscriber's port on this address: else those of the setup, so that `allow` holds for this port too; where
    /// the setup has no port for it, those of a port of which it says nothing.
    fn port_rules<Q: Wait>(
        &self,
        rt: &Q,
        alloc: Global,
        sub: SubId,
        address: Ipv4Addr,
    ) -> Result<PortRules, Refusal> {
        let setup = self.setup.lock(rt);
        match port_rules_of(&setup.subscribers, sub) {
            Some(rules) => rules.on(alloc, address),
            None => Ok(PortRules::default_of(sub, address)),
        }
    }

    /// Opens a port for a subscriber. Where it has one, that is closed, unless the new one can't be bound.
    fn listen<W: Write, Q: Wait, G: Gate>(
        &self,
        rt: &Q,
        console: &mut Console<'_, W>,
        gate: &mut MeteredGate<G>,
        sub: SubId,
        port: u16,
        host: Ipv4Addr,
    ) -> Result<Result<(), Refusal>, NotPrinted> {
        if let Reply::Refused(refusal) = gate.post(Event::Stats(sub)) {
            return Ok(Err(refusal));
        }
        let rules = match self.port_rules(rt, console.alloc(), sub, host) {
            Ok(rules) => rules,
            Err(refusal) => return Ok(Err(refusal)),
        };
        let address = SocketAddr::from((host, port));
        match self.bind(address) {
            Ok(listener) => {
                let service = console.service();
                service.close(rt, sub);
                service.open(rt, sub, connection_rules(rules), listener);
                Ok(Ok(()))
            }
            Err(error) => {
                let (number, why) = (sub.get(), system_words(error.kind()));
                writeln!(
                    console.out_mut(),
                    "subscriber {number}: port {address}: {why}"
                )?;
                Ok(Err(refusal_of(error)))
            }
        }
    }
}

impl<R: Net + Clock> ServiceCommands for SetupManager<'_, R> {
    fn reload<W: Write, Q: Wait + Clock, G: Gate>(
        &mut self,
        rt: &Q,
        console: &mut Console<'_, W>,
        gate: &mut MeteredGate<G>,
    ) -> Result<(), NotPrinted> {
        self.renew(rt, console, gate)
    }

    fn steer<W: Write, Q: Wait + Clock, G: Gate>(
        &mut self,
        rt: &Q,
        console: &mut Console<'_, W>,
        gate: &mut MeteredGate<G>,
        steer: Steer,
    ) -> Result<(), NotPrinted> {
        let mut done = Ok(());
        match steer {
            Steer::Dial(source, address) => done = self.dial(rt, console, source, address),
            Steer::Undial(source) => console.service().undial(rt, source),
            Steer::Listen(sub, port, host) => {
                done = self.listen(rt, console, gate, sub, port, host)?;
            }
            Steer::Unlisten(sub) => console.service().close(rt, sub),
            Steer::Disconnect(sub) => console.service().hang_up(rt, sub),
        }
        match done {
            Ok(()) => writeln!(console.out_mut(), "done 0 0")?,
            Err(refusal) => print_refusal(console.out_mut(), "refused", refusal)?,
        }
        Ok(())
    }

    fn show<W: Write, Q: Wait + Clock, G: Gate>(
        &mut self,
        rt: &Q,
        console: &mut Console<'_, W>,
        gate: &mut MeteredGate<G>,
        sub: SubId,
    ) -> Result<(), NotPrinted> {
        match self.found(rt, console.alloc(), &console.service(), gate, sub) {
            Ok(found) => found.print(console.out_mut())?,
            Err(refusal) => print_refusal(console.out_mut(), "refused", refusal)?,
        }
        Ok(())
    }

    fn version<W: Write>(&mut self, console: &mut Console<'_, W>) -> Result<(), NotPrinted> {
        writeln!(console.out_mut(), "pdcgw {}", self.version)?;
        Ok(())
    }
}

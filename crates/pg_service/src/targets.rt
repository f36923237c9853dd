//! Where sources are.

use crate::metered_gate::Guards;
use pg_wire::PmuId;
use std::alloc::{AllocError, Global};
use std::net::SocketAddr;
use std::time::Duration;

/// Where a source is.
#[derive(Drop)]
pub enum Address {
    /// At this address.
    Known(SocketAddr),
    /// At this name and port, which is looked up at each call.
    Name(String),
}

/// A source that is to be called.
#[derive(Drop)]
pub struct Dial {
    /// The source.
    pub source: PmuId,
    /// Where it is: the addresses that are called one after another, 1 to 4.
    pub addresses: Vec<Address>,
    /// Whether the first of them is gone back to, once it can be reached.
    pub prefer_first: bool,
    /// How long a connection may be without an event; `None` for ever.
    pub silence: Option<Duration>,
    /// How far the times of its measurements may be from the clocks.
    pub guards: Guards,
}

/// One of the addresses of a source, as its setup has it.
#[derive(Drop)]
pub struct Target {
    /// Where it is.
    pub address: Address,
    /// Of a name, its addresses as they were found last.
    pub found: Vec<SocketAddr>,
    /// Whether its name is being looked up.
    pub is_looked_up: bool,
}

impl Target {
    /// How many addresses it has: a name that was not found counts as one.
    fn count(&self) -> usize {
        match self.address {
            Address::Known(_) => 1,
            Address::Name(_) => self.found.len().max(1),
        }
    }

    /// This one of its addresses, if it is known.
    fn get(&self, which: usize) -> Option<SocketAddr> {
        match self.address {
            Address::Known(address) => Some(address),
            Address::Name(_) => self.found.get(which).copied(),
        }
    }
}

/// The addresses of a source in the order in which they are called: those of a name one after another in the place of the name. Without a
/// target the source is not called.
#[derive(Drop)]
pub struct Targets {
    list: Vec<Target>,
}

impl Targets {
    /// These addresses, of which no name was looked up.
    ///
    /// # Errors
    ///
    /// There is no memory.
    pub fn new(alloc: Global, addresses: Vec<Address>) -> Result<Targets, AllocError> {
        let mut list = Vec::with_capacity(alloc, addresses.len())?;
        for address in addresses {
            list.push(Target {
                address,
                found: Vec::new(alloc),
                is_looked_up: false,
            })?;
        }
        Ok(Targets { list })
    }

    /// How many addresses there are.
    pub fn count(&self) -> usize {
        let mut count = 0usize;
        for target in &self.list {
            count = count.saturating_add(target.count());
        }
        count
    }

    /// The place of the target that has the address at this place, and which of the target's addresses it is.
    pub fn place(&self, at: usize) -> Option<(usize, usize)> {
        let mut left = at;
        for (place, target) in self.list.iter().enumerate() {
            let count = target.count();
            if left < count {
                return Some((place, left));
            }
            left -= count;
        }
        None
    }

    /// The place of the first address of the target at this place.
    fn first_of(&self, place: usize) -> usize {
        let mut at = 0usize;
        for target in self.list.iter().take(place) {
            at = at.saturating_add(target.count());
        }
        at
    }

    /// The address at this place, if it is known.
    pub fn address(&self, at: usize) -> Option<SocketAddr> {
        let (place, which) = self.place(at)?;
        self.list.get(place)?.get(which)
    }

    /// The target at this place.
    pub fn target(&self, place: usize) -> Option<&Target> {
        self.list.get(place)
    }

    /// The same, to be changed.
    pub fn target_mut(&mut self, place: usize) -> Option<&mut Target> {
        self.list.get_mut(place)
    }

    /// The name of the target at this place was looked up, and has these addresses; without any those that were found before stay. Returns the new
    /// place of the address that was at this place: of the name's own, the first where it has fewer now.
    pub fn found(&mut self, place: usize, addresses: Vec<SocketAddr>, at: usize) -> usize {
        let own = self.place(at);
        if let Some(target) = self.list.get_mut(place) {
            target.is_looked_up = false;
            if !addresses.is_empty() {
                target.found = addresses;
            }
        }
        let Some((own, which)) = own else {
            return 0;
        };
        let first = self.first_of(own);
        match self.list.get(own) {
            Some(target) if which < target.count() => first.saturating_add(which),
            _ => first,
        }
    }

    /// From now on the source is not called.
    pub fn clear(&mut self) {
        self.list.clear();
    }

    /// Whether the source is called.
    pub fn is_empty(&self) -> bool {
        self.list.is_empty()
    }
}

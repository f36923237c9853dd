//! What a setup may say, and what is seldom meant.

use crate::listing::Listing;
use crate::report::key_text;
use pg_operator::{
    PortSetup, Setup, SetupLines, SetupTable, SourceAddress, SourceRules, SourceSetup,
    SubscriberSetup,
};
use pg_stream::Definition;
use pg_wire::{PmuId, PmuKey, SubId};
use std::alloc::{AllocError, Global};
use std::net::Ipv4Addr;

/// The bytes of a data frame without blocks, and the fewest of a block: STAT, FREQ and DFREQ, with no phasor, analog or digital
/// (C37.118.2, 6.3).
const FRAME_BYTES: u64 = 16;

const BLOCK_BYTES: u64 = 6;

/// The largest window of a stream.
const WINDOW_LIMIT: u64 = 64;

/// What in this setup is seldom meant.
///
/// # Errors
///
/// `AllocError` where out of memory.
pub(crate) fn warnings_of(
    alloc: Global,
    setup: &Setup,
    lines: &SetupLines<'_>,
) -> Result<Listing, AllocError> {
    let mut search = Search {
        alloc,
        setup,
        lines,
        told: Listing::new(alloc),
    };
    search.look_at_ports()?;
    search.look_at_sources()?;
    search.look_at_subscribers()?;
    Ok(search.told)
}

/// A search for what is seldom meant.
#[derive(Drop)]
struct Search<'a> {
    alloc: Global,
    setup: &'a Setup,
    lines: &'a SetupLines<'a>,
    told: Listing,
}

impl Search<'_> {
    /// Warns of a key of this table.
    fn warn(&mut self, table: SetupTable, key: &str, what: &str) -> Result<(), AllocError> {
        let told = format!(in self.alloc; "warning: {what}")?;
        self.told.add(self.lines.line_of(table, key), told)
    }

    /// Looks at each port of a subscriber.
    fn look_at_ports(&mut self) -> Result<(), AllocError> {
        let setup = self.setup;
        for (number, subscriber) in setup.subscribers.iter().enumerate() {
            if let Some(port) = &subscriber.port {
                self.look_at_port(number, port)?;
            }
        }
        Ok(())
    }

    /// Looks at the port of the subscriber with this number: whether one before it, or the page, is on the same.
    fn look_at_port(&mut self, number: usize, own: &PortSetup) -> Result<(), AllocError> {
        let setup = self.setup;
        let (sub, address, port) = (own.rules.sub.get(), own.rules.address, own.port);
        if let Some(other) = shared_before(setup, number, own) {
            let what = format!(in self.alloc;
                "subscriber {sub}: port {port} on {address} is the port of subscriber {} too, so one of them can't be bound; give each its \
                 own port",
                other.get()
            )?;
            self.warn(SetupTable::Subscriber(number), "port", what.as_str())?;
        }
        let page = setup
            .status
            .filter(|page| page.port() == port && meet(*page.ip(), address));
        if let Some(page) = page {
            let what = format!(in self.alloc;
                "status: {page} is the port of subscriber {sub} too, so one of them can't be bound; give the page its own port"
            )?;
            self.warn(SetupTable::File, "status", what.as_str())?;
        }
        Ok(())
    }

    /// Looks at each source: whether it is connected to, where, and how far its time may be off.
    fn look_at_sources(&mut self) -> Result<(), AllocError> {
        let setup = self.setup;
        for source in &setup.sources {
            let number = source.rules.source;
            let table = source_table(setup, number);
            if source.connect.is_empty() {
                let what = format!(in self.alloc;
                    "source {}: none of its tables has connect, so no connection is made; add connect to one",
                    number.get()
                )?;
                self.warn(table, "connect", what.as_str())?;
            }
            for (place, address) in source.connect.iter().enumerate() {
                self.look_at_address(table, source, place, address)?;
            }
            self.look_at_preference(table, source)?;
            self.look_at_clock(table, &source.rules)?;
        }
        Ok(())
    }

    /// Looks at whether a source that goes back to its first address has another one.
    fn look_at_preference(
        &mut self,
        table: SetupTable,
        source: &SourceSetup,
    ) -> Result<(), AllocError> {
        if source.rules.prefer_first && source.connect.len() < 2 {
            let what = format!(in self.alloc;
                "source {}: prefer_first without a second address in connect does nothing; add one, or leave prefer_first out",
                source.rules.source.get()
            )?;
            self.warn(table, "prefer_first", what.as_str())?;
        }
        Ok(())
    }

    /// Looks at an address of a source: whether it is there twice, or a source before it, or a port of this gateway, has the same.
    fn look_at_address(
        &mut self,
        table: SetupTable,
        own: &SourceSetup,
        place: usize,
        address: &SourceAddress,
    ) -> Result<(), AllocError> {
        let setup = self.setup;
        let source = own.rules.source;
        if own.connect.iter().take(place).any(|it| it == address) {
            let what = format!(in self.alloc;
                "source {}: {address} is in connect twice; give each address once",
                source.get()
            )?;
            self.warn(table, "connect", what.as_str())?;
        }
        let mut same = setup.sources.iter().filter(|it| has_address(it, address));
        let first = same.next().map(|it| it.rules.source);
        if let Some(other) = first.filter(|first| *first != source) {
            let what = format!(in self.alloc;
                "source {}: {address} is the address of source {} too; give each source its own",
                source.get(),
                other.get()
            )?;
            self.warn(table, "connect", what.as_str())?;
        }
        for subscriber in &setup.subscribers {
            if is_own_port(subscriber, address) {
                let what = format!(in self.alloc;
                    "source {}: {address} is the port of subscriber {} of this gateway itself; give the address of the PMU or PDC",
                    source.get(),
                    subscriber.sub.get()
                )?;
                self.warn(table, "connect", what.as_str())?;
            }
        }
        Ok(())
    }

    /// Looks at how far a source's time may be off: whether each stream that has data of it holds its frames as long.
    fn look_at_clock(&mut self, table: SetupTable, rules: &SourceRules) -> Result<(), AllocError> {
        let setup = self.setup;
        let Some(limit) = rules.clock_ms else {
            return Ok(());
        };
        let mut least = Hold {
            sub: 0,
            stream: 0,
            ms: u64::from(limit),
        };
        for subscriber in &setup.subscribers {
            for definition in &subscriber.streams {
                let ms = held_ms(setup, definition);
                if ms < least.ms && has_source(definition, rules.source) {
                    least = Hold {
                        sub: subscriber.sub.get(),
                        stream: definition.stream.get(),
                        ms,
                    };
                }
            }
        }
        if least.ms >= u64::from(limit) {
            return Ok(());
        }
        let what = format!(in self.alloc;
            "source {}: clock_ms {limit} is above the {} ms that stream {} of subscriber {} holds a frame (the less of wait x tick_ms and window \
             x 1000 / rate), so its clock can be so far ahead that the data of others come late; lower clock_ms, or raise wait and window",
            rules.source.get(),
            least.ms,
            least.stream,
            least.sub
        )?;
        self.warn(table, "clock_ms", what.as_str())
    }

    /// Looks at each subscriber and each stream.
    fn look_at_subscribers(&mut self) -> Result<(), AllocError> {
        let setup = self.setup;
        for (number, subscriber) in setup.subscribers.iter().enumerate() {
            let table = SetupTable::Subscriber(number);
            self.look_at_ring(table, subscriber)?;
            for (place, definition) in subscriber.streams.iter().enumerate() {
                let stream = SetupTable::Stream(number, place);
                self.look_at_members(stream, subscriber, definition)?;
                self.look_at_window(stream, subscriber.sub, definition)?;
                self.look_at_bytes(table, subscriber, definition)?;
            }
        }
        Ok(())
    }

    /// Looks at a subscriber's ring: whether it has room for a frame of each stream.
    fn look_at_ring(
        &mut self,
        table: SetupTable,
        subscriber: &SubscriberSetup,
    ) -> Result<(), AllocError> {
        let ring = usize::from(subscriber.ring.get());
        let streams = subscriber.streams.len();
        if ring >= streams {
            return Ok(());
        }
        let what = format!(in self.alloc;
            "subscriber {}: ring {ring} is too small for one frame of each of its {streams} streams; at least {streams}",
            subscriber.sub.get()
        )?;
        self.warn(table, "ring", what.as_str())
    }

    /// Looks at a stream's members: whether each has a table and is granted.
    fn look_at_members(
        &mut self,
        table: SetupTable,
        subscriber: &SubscriberSetup,
        definition: &Definition,
    ) -> Result<(), AllocError> {
        for key in definition.members.as_slice() {
            let lack = if !self.setup.pmus.iter().any(|own| own == key) {
                "no table [[pmu]] has it, so it is never in a frame; add the table, or correct the member"
            } else if !is_granted(subscriber, key) {
                "it is not granted, so it is never in a frame; add it to grants, or correct the member"
            } else {
                continue;
            };
            let member = key_text(self.alloc, key)?;
            let what = format!(in self.alloc;
                "subscriber {}: stream {}: member {member}: {lack}",
                subscriber.sub.get(),
                definition.stream.get()
            )?;
            self.warn(table, "members", what.as_str())?;
        }
        Ok(())
    }

    /// Looks at a stream's window: whether it holds the frames of its wait.
    fn look_at_window(
        &mut self,
        table: SetupTable,
        sub: SubId,
        definition: &Definition,
    ) -> Result<(), AllocError> {
        let frames = frames_of_wait(self.setup, definition);
        let window = u64::from(definition.window);
        if window >= frames {
            return Ok(());
        }
        let right = if frames > WINDOW_LIMIT {
            "64 is the most possible, so shorten wait"
        } else {
            "at least as many are needed"
        };
        let what = format!(in self.alloc;
            "subscriber {}: stream {}: window {window} is below rate x wait x tick_ms / 1000, {frames} frames, so frames are sent before \
             wait is over; {right}",
            sub.get(),
            definition.stream.get()
        )?;
        self.warn(table, "window", what.as_str())
    }

    /// Looks at a subscriber's bytes: whether a frame of this stream, with all its members that are granted, has no more.
    fn look_at_bytes(
        &mut self,
        table: SetupTable,
        subscriber: &SubscriberSetup,
        definition: &Definition,
    ) -> Result<(), AllocError> {
        let members = definition.members.as_slice();
        let granted = members.iter().filter(|key| is_granted(subscriber, key));
        let blocks = (granted.count() as u64).saturating_mul(BLOCK_BYTES);
        let least = blocks.saturating_add(FRAME_BYTES);
        let bytes = subscriber.bytes.get();
        if u64::from(bytes) >= least {
            return Ok(());
        }
        let what = format!(in self.alloc;
            "subscriber {}: bytes {bytes} is below one full frame of stream {} ({least} bytes or more), so its frames are dropped; at \
             least {least}",
            subscriber.sub.get(),
            definition.stream.get()
        )?;
        self.warn(table, "bytes", what.as_str())
    }
}

/// How long a stream of a subscriber holds a frame.
#[derive(Clone, Copy)]
struct Hold {
    sub: u16,
    stream: u16,
    ms: u64,
}

/// The first subscriber, before the one with this number, whose port can't be bound beside this one.
fn shared_before(setup: &Setup, number: usize, own: &PortSetup) -> Option<SubId> {
    for subscriber in setup.subscribers.iter().take(number) {
        if let Some(PortSetup { port, rules }) = &subscriber.port {
            if *port == own.port && meet(rules.address, own.rules.address) {
                return Some(subscriber.sub);
            }
        }
    }
    None
}

/// Whether a port can't be bound on both addresses.
fn meet(one: Ipv4Addr, other: Ipv4Addr) -> bool {
    one == other || one.is_unspecified() || other.is_unspecified()
}

/// Whether a source is connected to at this address.
fn has_address(source: &SourceSetup, address: &SourceAddress) -> bool {
    source.connect.iter().any(|own| own == address)
}

/// Whether this is the address of the subscriber's own port, on this host.
fn is_own_port(subscriber: &SubscriberSetup, address: &SourceAddress) -> bool {
    match (&subscriber.port, address) {
        (Some(own), SourceAddress::Endpoint(address)) => {
            *address.ip() == Ipv4Addr::LOCALHOST && address.port() == own.port
        }
        _ => false,
    }
}

/// The first table of this source.
fn source_table(setup: &Setup, source: PmuId) -> SetupTable {
    let place = setup.pmus.iter().position(|key| key.source == source);
    SetupTable::Pmu(place.unwrap_or(0))
}

/// Whether this PMU is granted to this subscriber.
fn is_granted(subscriber: &SubscriberSetup, key: &PmuKey) -> bool {
    subscriber.grants.iter().any(|granted| granted == key)
}

/// Whether a stream has a PMU of this source.
fn has_source(definition: &Definition, source: PmuId) -> bool {
    let members = definition.members.as_slice();
    members.iter().any(|key| key.source == source)
}

/// The milliseconds that a stream holds a frame: the less of its wait, and of the time of as many frames as its window has.
fn held_ms(setup: &Setup, definition: &Definition) -> u64 {
    let wait = u64::from(definition.wait).saturating_mul(u64::from(setup.tick_ms));
    let window = u64::from(definition.window).saturating_mul(1000);
    wait.min(window / u64::from(definition.rate).max(1))
}

/// The frames of the time that a frame of this stream waits, one more where it is no whole number of them.
fn frames_of_wait(setup: &Setup, definition: &Definition) -> u64 {
    let wait = u64::from(definition.wait).saturating_mul(u64::from(setup.tick_ms));
    wait.saturating_mul(u64::from(definition.rate))
        .div_ceil(1000)
}

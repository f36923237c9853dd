//! The words of a report.

use pg_gateway::Edit;
use pg_operator::{PortRules, PortSetup, Setup, SourceSetup, SubscriberSetup};
use pg_stream::Definition;
use pg_wire::{PmuKey, Refusal, SubId};
use std::alloc::{AllocError, Global};
use std::fmt;

/// So many of a thing with this name.
#[derive(Clone, Copy)]
struct Count(usize, &'static str);

impl fmt::Display for Count {
    fn fmt<W: fmt::Write>(&self, f: &mut fmt::Formatter<W>) -> fmt::Result {
        let (count, name) = (self.0, self.1);
        let plural = if count == 1 { "" } else { "s" };
        write!(f, "{count} {name}{plural}")
    }
}

/// A PMU's key as a person writes it: the source and the PMU.
pub(crate) fn key_text(alloc: Global, key: &PmuKey) -> Result<String, AllocError> {
    format!(in alloc; "{}/{}", key.source.get(), key.pmu.get())
}

/// Which edit it is, for a person: which one it concerns, and what of it.
///
/// # Errors
///
/// `AllocError` where out of memory.
pub(crate) fn edit_name(alloc: Global, edit: &Edit) -> Result<String, AllocError> {
    match edit {
        Edit::AddPmu(key) | Edit::DropPmu(key) | Edit::PmuStats(key) => {
            let key = key_text(alloc, key)?;
            format!(in alloc; "PMU {}", key.as_str())
        }
        Edit::Grant(sub, key) | Edit::Revoke(sub, key) => {
            let key = key_text(alloc, key)?;
            format!(in alloc; "subscriber {}: grant of PMU {}", sub.get(), key.as_str())
        }
        Edit::Define(sub, definition) => {
            let stream = definition.stream.get();
            format!(in alloc; "subscriber {}: stream {stream}", sub.get())
        }
        Edit::Remove(sub, stream) => {
            format!(in alloc; "subscriber {}: stream {}", sub.get(), stream.get())
        }
        Edit::AddSub(sub, ..) | Edit::DropSub(sub) | Edit::Stats(sub) | Edit::Audit(sub, _) => {
            format!(in alloc; "subscriber {}", sub.get())
        }
    }
}

/// Why a setup's edit is refused, and what would be right, for a person.
pub(crate) fn reason(refusal: Refusal) -> &'static str {
    match refusal {
        Refusal::PmuExists => "an earlier table has the same source and id; each PMU has one table",
        Refusal::PmusFull => "there are 256 PMUs already, the most possible",
        Refusal::NoSuchPmu => "no table [[pmu]] has it; add one, or remove the grant",
        Refusal::SubExists => "an earlier table has the same id; each subscriber has its own",
        Refusal::SubsFull => "there are 64 subscribers already, the most possible",
        Refusal::NoSuchSub => "the table of this subscriber is refused; correct that first",
        Refusal::GrantsFull => "the subscriber has 32 grants already, the most possible",
        Refusal::StreamExists =>
            "another stream of the subscriber has the same id; each stream has its own",
        Refusal::StreamsFull => "the subscriber has 8 streams already, the most possible",
        Refusal::BadDefinition => {
            "a stream has rate 1 to 120, base from its rate to 16777215, wait up to 60000, window 1 to 64, a header of ASCII up to \
             1024 bytes, and no member twice"
        }
        Refusal::NoMemory => "out of memory",
        _ => "the gateway refuses it",
    }
}

/// What would run, a line for each source, subscriber and stream.
pub(crate) fn report_of(alloc: Global, setup: &Setup) -> Result<String, AllocError> {
    let ports = setup.subscribers.iter().filter(|it| it.port.is_some());
    let mut report = format!(in alloc;
        "{}, {}; a tick every {} ms; threads: {} for sources, {} for subscribers\n",
        Count(setup.sources.len(), "source"),
        Count(ports.count(), "port"),
        setup.tick_ms,
        setup.ingest,
        setup.serve
    )?;
    for source in &setup.sources {
        let line = source_line(alloc, setup, source)?;
        report.push_str(line.as_str())?;
    }
    for subscriber in &setup.subscribers {
        let line = subscriber_line(alloc, subscriber)?;
        report.push_str(line.as_str())?;
        for definition in &subscriber.streams {
            let line = stream_line(alloc, subscriber.sub, definition)?;
            report.push_str(line.as_str())?;
        }
    }
    Ok(report)
}

/// Adds where a source is connected to, in the order in which its addresses are tried.
fn push_addresses(
    alloc: Global,
    line: &mut String,
    source: &SourceSetup,
) -> Result<(), AllocError> {
    if source.connect.is_empty() {
        return line.push_str("no connect");
    }
    let mut before = "connect ";
    for address in &source.connect {
        let connect = format!(in alloc; "{before}{address}")?;
        line.push_str(connect.as_str())?;
        before = ", ";
    }
    if source.rules.prefer_first {
        line.push_str("; prefer_first")?;
    }
    Ok(())
}

/// A source: its PMUs, its addresses, and its rules by their keys; `clock_ms` where it is given.
fn source_line(alloc: Global, setup: &Setup, source: &SourceSetup) -> Result<String, AllocError> {
    let rules = source.rules;
    let pmus = setup.pmus.iter().filter(|key| key.source == rules.source);
    let mut line = format!(in alloc;
        "source {}: {}; ",
        rules.source.get(),
        Count(pmus.count(), "PMU")
    )?;
    push_addresses(alloc, &mut line, source)?;
    let silence = match rules.silence {
        0 => format!(in alloc; "; silence 0 (never)")?,
        seconds => format!(in alloc; "; silence {seconds} s")?,
    };
    line.push_str(silence.as_str())?;
    if let Some(limit) = rules.clock_ms {
        let clock = format!(in alloc; ", clock_ms {limit}")?;
        line.push_str(clock.as_str())?;
    }
    let ahead = match rules.ahead_ms {
        0 => format!(in alloc; ", ahead_ms 0 (never)\n")?,
        limit => format!(in alloc; ", ahead_ms {limit}\n")?,
    };
    line.push_str(ahead.as_str())?;
    Ok(line)
}

/// A subscriber: where it connects, from where, and its ring.
fn subscriber_line(alloc: Global, subscriber: &SubscriberSetup) -> Result<String, AllocError> {
    let number = subscriber.sub.get();
    let mut line = match &subscriber.port {
        Some(PortSetup { port, rules }) => {
            let hosts = hosts_text(rules);
            format!(in alloc;
                "subscriber {number}: port {port} on {}, {hosts}",
                rules.address
            )?
        }
        None => format!(in alloc; "subscriber {number}: no port")?,
    };
    let ring = format!(in alloc;
        "; ring of {}, {} bytes\n",
        Count(usize::from(subscriber.ring.get()), "frame"),
        subscriber.bytes.get()
    )?;
    line.push_str(ring.as_str())?;
    Ok(line)
}

/// The hosts that may connect.
fn hosts_text(rules: &PortRules) -> &'static str {
    match &rules.allow.networks {
        None => "from any host",
        Some(networks) if networks.is_empty() => "from no host",
        Some(_) => "from the hosts in allow",
    }
}

/// A stream: its rate and its members.
fn stream_line(alloc: Global, sub: SubId, definition: &Definition) -> Result<String, AllocError> {
    let mut line = format!(in alloc;
        "subscriber {}: stream {}: {} frames/s of",
        sub.get(),
        definition.stream.get(),
        definition.rate
    )?;
    for key in definition.members.as_slice() {
        let key = key_text(alloc, key)?;
        line.push_str(" ")?;
        line.push_str(key.as_str())?;
    }
    line.push_str("\n")?;
    Ok(line)
}

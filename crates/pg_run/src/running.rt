//! `pdcgw run`: the gateway, served over sockets.

ghost use Rattle.std.specs.Prelude.{◌≡◌, IfOk, IfSome, Some, map, option_map};
ghost use Rattle.std.specs.Duration.{as_nanos};
ghost use Rattle.pg_operator.specs.Addresses.{address_value};
ghost use Rattle.pg_operator.specs.Setups.{port_rules_of, source_value, subscriber_value};
ghost use Rattle.pg_run.specs.OpenedPorts.{dial_value, dialled_by, dialled_of, opened_by, opened_of, target_value};
ghost use Rattle.pg_run.specs.Limits.{guards_by, limit_of};

use crate::admin_listeners::admin_listeners;
use crate::failure::{Failure, not_bound, refusal_of};
use crate::naming::name_of;
use crate::operator::StandardIo;
use crate::recording::{recorder_of, segments_of, write_last};
use crate::reloading::filter_of;
use crate::run_context::RunContext;
use crate::served::Served;
use crate::serving::{Plan, serve_all};
use crate::stoppable_stdin::StoppableStdin;
use log::Level;
use mio::net::TcpListener as PortListener;
use pg_console::{Runtime, ServicePlan, SetUp, SharedState, set_up};
use pg_gateway::Edit;
use pg_limits::{AheadGuard, ClockGuard};
use pg_log::Journal;
use pg_operator::{
    BoundBy, PortRules, PortSetup, Setup, SourceAddress, SourceRules, SourceSetup, SubscriberSetup,
    read_setup,
};
use pg_service::{Address, ConnectionRules, Dial, Guards, Logger};
use pg_setup::check_setup;
use pg_shared::{Named, Seat, Shared};
use pg_subscribers::Port;
use pg_wire::{PmuId, Refusal, SubId};
use std::alloc::Global;
use std::io::{BufReader, BufWriter};
use std::marker::Brand;
use std::net::{Net, SocketAddr};
use std::rt::Clock;
use std::sync::atomic::AtomicBool;
use std::sync::{Mutex, Wait};
use std::time::{Duration, Instant};
use std::{fs, io};

/// What the service is started with.
#[derive(Clone, Copy)]
pub struct Start<'a> {
    /// The setup file.
    pub file: &'a str,
    /// The program's version, for the log and the line `version`.
    pub version: &'static str,
    /// Whether the system's journal reads standard error, so that each line of the log begins with its priority.
    pub has_priority: bool,
}

/// The work of `pdcgw run`, with the lines of standard input, answered on standard output: reads the setup, posts its edits, listens
/// on the subscribers' ports and where an operator is served, and then serves until the line `quit` comes. The end of the
/// lines ends nothing. The log begins with what is served, and ends with the end.
///
/// # Errors
///
/// `ReadFault` where the file can't be read; `Unfit` where it is no setup, or an edit of it is refused, with its mistakes in words;
/// `NotBound` where a port, the control socket or the page can't be bound; `NoMemory` before the workers have started.
pub fn run<'a, R: Runtime + Alloc<A = Global>>(
    rt: &'a R,
    files: &'a HostRuntime,
    start: Start<'a>,
) -> Result<(), Failure> {
    let alloc = rt.alloc();
    let stop = AtomicBool::new(false);
    let Ok(output) = BufWriter::new(alloc, io::writer(rt)) else {
        return Err(Failure::Refused(Refusal::NoMemory));
    };
    let lines = match StoppableStdin::new(rt, alloc, &stop) {
        Ok(lines) => lines,
        Err(error) => return Err(Failure::Refused(refusal_of(error))),
    };
    match BufReader::new(alloc, lines) {
        Ok(input) => run_at(rt, files, start, StandardIo { input, output }, &stop),
        Err(error) => Err(Failure::Refused(refusal_of(error))),
    }
}

/// Serves by the setup of this file, with these lines, until it is to stop.
fn run_at<'a, R: Runtime + Alloc<A = Global>>(
    rt: &'a R,
    files: &'a HostRuntime,
    start: Start<'a>,
    lines: StandardIo<'a, R>,
    stop: &'a AtomicBool,
) -> Result<(), Failure> {
    let alloc = rt.alloc();
    let (setup, warnings) = setup_in(files, alloc, start.file)?;
    let name = name_of(files, alloc, setup.name.as_ref())?;
    let edits = setup.edits(alloc)?;
    let recorder = recorder_of(alloc, &setup)?;
    let setup = Mutex::new(setup);
    let turn = Mutex::new(());
    let context = RunContext {
        files,
        start,
        name: name.as_str(),
        setup: &setup,
        recorder: recorder.as_ref(),
        turn: &turn,
        stop,
    };
    run_by(rt, context, edits, warnings, lines)
}

/// Serves by the setup of this context, whose edits are posted before anything is listened to. The log has its warnings, a line each.
fn run_by<'a, R: Runtime + Alloc<A = Global>>(
    rt: &'a R,
    context: RunContext<'a>,
    edits: Vec<Edit>,
    warnings: String,
    lines: StandardIo<'a, R>,
) -> Result<(), Failure> {
    let alloc = rt.alloc();
    let SetUp {
        shared,
        seat,
        directory,
    } = set_up(rt, alloc, edits, context.recorder)?;
    let state = SharedState::new(alloc, directory)?;
    serve_logged::<R, Brand>(rt, alloc, &shared, seat, context, warnings, &state, lines)
}

/// Serves a gateway that is set up, from the first line of the log to the last.
fn serve_logged<'a, R: Runtime, N: Named + Send>(
    rt: &'a R,
    alloc: Global,
    shared: &'a Shared,
    seat: Seat,
    context: RunContext<'a>,
    warnings: String,
    state: &'a SharedState,
    lines: StandardIo<'a, R>,
) -> Result<(), Failure>
    requires shared { shared.now ≡ N.table }
    requires seat { seat.table ≡ N.table }
{
    let mut plan = bound_plan(rt, alloc, context)?;
    let (now, control) = (plan.now, plan.control.take());
    begin_log(rt, alloc, context, &state.journal, now, warnings.as_str())?;
    let ended = serve_all::<R, N>(rt, alloc, shared, seat, context, plan, state, lines);
    end_log(rt, alloc, context, &state.journal, now);
    remove_control(context.files, control);
    match ended {
        Ok(_) => Ok(()),
        Err(refusal) => Err(Failure::Refused(refusal)),
    }
}

/// What is served by the setup of this context, on ports and sockets that are bound.
fn bound_plan<'a, R: Net + Clock + Wait>(
    rt: &R,
    alloc: Global,
    context: RunContext<'a>,
) -> Result<Plan<'a>, Failure> {
    let setup = context.setup.lock(rt);
    plan_of(rt, context.files, alloc, &setup)
}

/// Begins the log: with what is served, and the warnings of the setup, a line each.
fn begin_log<R: Wait + Clock + Eprint + Net>(
    rt: &R,
    alloc: Global,
    context: RunContext<'_>,
    journal: &Journal,
    now: Instant,
    warnings: &str,
) -> Result<(), Refusal> {
    let mut log = logger_of(rt, alloc, journal, context.start.has_priority, now)?;
    let served = {
        let setup = context.setup.lock(rt);
        journal.set_filter(rt, filter_of(setup.log));
        Served::of(context.start, context.name, &setup)
    };
    log.write(Level::Info, None, &served);
    for warning in warnings.lines() {
        log.write(Level::Warn, None, &warning);
    }
    Ok(())
}

/// Writes what was recorded last, and ends the log.
fn end_log<R: Wait + Clock + Eprint + Net>(
    rt: &R,
    alloc: Global,
    context: RunContext<'_>,
    journal: &Journal,
    now: Instant,
) {
    write_last(rt, alloc, context, journal);
    match logger_of(rt, alloc, journal, context.start.has_priority, now) {
        Ok(mut log) => {
            log.write_rest();
            log.write(Level::Info, None, &"the gateway has ended");
        }
        Err(_) => {
            // Where this can't be written either, nothing is left to write to.
            let _ = eprintln!(rt;
                "the gateway has ended; there is no memory for the last lines of the log"
            );
        }
    }
}

/// Removes the control socket, if there is one. Where it can't be removed, the next start replaces it.
fn remove_control(files: &HostRuntime, control: Option<String>) {
    if let Some(path) = control {
        let _ = fs::remove_file(files, path.as_str());
    }
}

/// A copy of a text, where there is one.
fn copy_of(alloc: Global, text: &Option<String>) -> Result<Option<String>, Refusal> {
    match text {
        Some(text) => Ok(Some(String::from_str(alloc, text.as_str())?)),
        None => Ok(None),
    }
}

/// A log of what this journal keeps.
pub(crate) fn logger_of<'a, R: Wait + Clock + Eprint + Net>(
    rt: &'a R,
    alloc: Global,
    journal: &'a Journal,
    has_priority: bool,
    now: Instant,
) -> Result<Logger<'a, R>, Refusal> {
    match Logger::new(rt, alloc, journal, has_priority, now) {
        Ok(log) => Ok(log),
        Err(error) => Err(refusal_of(error)),
    }
}

/// What is served by this setup, on ports and sockets that are bound.
fn plan_of<'a, R: Net + Clock>(
    rt: &R,
    files: &'a HostRuntime,
    alloc: Global,
    setup: &Setup,
) -> Result<Plan<'a>, Failure> {
    let now = match Instant::now(rt) {
        Ok(now) => now,
        Err(error) => return Err(Failure::Refused(refusal_of(error))),
    };
    let service = ServicePlan {
        ports: ports_of(rt, alloc, setup.subscribers.as_slice())?,
        dials: dials_of(alloc, setup.sources.as_slice())?,
        tick: Duration::from_millis(u64::from(setup.tick_ms)),
        listeners: admin_listeners(rt, files, &setup.control, setup.status)?,
        files: Some(files),
    };
    let control = copy_of(alloc, &setup.control)?;
    Ok(Plan {
        service,
        control,
        ingest: usize::from(setup.ingest),
        serve: usize::from(setup.serve),
        tick_ms: setup.tick_ms,
        now,
        segments: segments_of(files, alloc, setup)?,
    })
}

/// The setup that a file has, and a line for each thing in it that is allowed and seldom meant.
fn setup_in(files: &HostRuntime, alloc: Global, file: &str) -> Result<(Setup, String), Failure> {
    let bytes = match fs::read(files, file) {
        Ok(bytes) => bytes,
        Err(error) => return Err(Failure::Refused(refusal_of(error))),
    };
    let Ok(text) = str::from_utf8(bytes.as_slice()) else {
        return Err(Failure::Refused(Refusal::BadSetup));
    };
    match check_setup(alloc, file, text) {
        Ok(checked) => Ok((read_setup(alloc, text)?, checked.warnings)),
        Err(trouble) => Err(Failure::Unfit(trouble)),
    }
}

/// A limit of so many seconds; 0 is none.
fn limit_of(seconds: u16) -> Option<Duration>
    ensures { option_map as_nanos result ≡ limit_of seconds }
{
    match seconds {
        0 => None,
        some => Some(Duration::from_secs(u64::from(some))),
    }
}

/// How a port is served by the rules of the setup.
pub(crate) fn connection_rules(rules: PortRules) -> ConnectionRules
    ensures allow { result.allow ≡ rules.allow }
    ensures takeover { result.takeover ≡ rules.takeover }
    ensures stall { option_map as_nanos result.stall ≡ limit_of rules.stall }
    ensures idle { option_map as_nanos result.idle ≡ limit_of rules.idle }
    ensures change { result.change ≡ rules.change }
{
    ConnectionRules {
        allow: rules.allow,
        takeover: rules.takeover,
        stall: limit_of(rules.stall),
        idle: limit_of(rules.idle),
        change: rules.change,
    }
}

/// Listens on a port.
fn port_of<R: Net>(rt: &R, alloc: Global, port: &PortSetup) -> Result<Port, Failure>
    ensures { IfOk result (λ opened. opened ≡ opened_by (port_rules_of port.now.rules)) }
{
    let rules = port.rules.on(alloc, port.rules.address)?;
    let (sub, address) = (rules.sub, SocketAddr::from((rules.address, port.port)));
    match PortListener::bind(rt, address) {
        Ok(listener) => Ok(Port::new(sub, connection_rules(rules), listener)),
        Err(error) => Err(not_bound(BoundBy::Port(sub), Some(address), error)),
    }
}

/// Listens on the subscribers' ports, in their order.
fn ports_of<R: Net>(
    rt: &R,
    alloc: Global,
    subscribers: &[SubscriberSetup],
) -> Result<Vec<Port>, Failure>
    ensures { IfOk result (λ bound. bound.items ≡ opened_of (map subscriber_value subscribers.now)) }
{
    let mut bound = Vec::new(alloc);
    'subscribers: for subscriber in subscribers {
        if let Some(port) = &subscriber.port {
            match bound.push(port_of(rt, alloc, port)?) {
                Ok(()) => {}
                Err(_) => return Err(Failure::Refused(Refusal::NoMemory)),
            }
        }
    }
    Ok(bound)
}

/// How this source is watched, by the setup.
pub(crate) fn rules_of(sources: &[SourceSetup], source: PmuId) -> Option<SourceRules>
    ensures own { IfSome result (λ rules. rules.source ≡ source) }
{
    let setup = sources.iter().find(|it| it.rules.source == source)?;
    Some(setup.rules)
}

/// The rules of this subscriber's port, by the setup.
pub(crate) fn port_rules_of(subscribers: &[SubscriberSetup], sub: SubId) -> Option<&PortRules>
    ensures own { IfSome result (λ rules. rules.now.sub ≡ sub) }
{
    'subscribers: for subscriber in subscribers {
        match &subscriber.port {
            Some(port) if port.rules.sub == sub => return Some(&port.rules),
            _ => {}
        }
    }
    None
}

/// The sources that are connected to, in their order, each at its addresses and by its rules.
fn dials_of(alloc: Global, sources: &[SourceSetup]) -> Result<Vec<Dial>, Refusal>
    ensures { IfOk result (λ dials. map dial_value dials.items ≡ dialled_of (map source_value sources.now)) }
{
    let mut dials = Vec::new(alloc);
    'sources: for source in sources {
        if let Some(dial) = dial_of(alloc, source.try_clone(alloc)?)? {
            dials.push(dial)?;
        }
    }
    Ok(dials)
}

/// A source that is connected to, at its addresses and by its rules; `None` where it is not.
///
/// # Errors
///
/// `NoMemory`.
pub(crate) fn dial_of(alloc: Global, source: SourceSetup) -> Result<Option<Dial>, Refusal>
    ensures { IfOk result (λ dial. option_map dial_value dial ≡ dialled_by (source_value source)) }
{
    let SourceSetup { connect, rules } = source;
    if connect.is_empty() {
        return Ok(None);
    }
    let addresses = targets_of(alloc, connect.as_slice())?;
    Ok(Some(dial_to(addresses, &rules)))
}

/// The addresses of a source.
fn targets_of(alloc: Global, connect: &[SourceAddress]) -> Result<Vec<Address>, Refusal>
    ensures { IfOk result (λ targets. map target_value targets.items ≡ map (λ a. Some a) (map address_value connect.now)) }
{
    let mut targets = Vec::new(alloc);
    'connect: for address in connect {
        let target = match address {
            SourceAddress::Endpoint(address) => Address::Known(SocketAddr::V4(*address)),
            SourceAddress::Name(name) => Address::Name(String::from_str(alloc, name.as_str())?),
        };
        targets.push(target)?;
    }
    Ok(targets)
}

/// A source that is connected to at these addresses and by its rules.
pub(crate) fn dial_to(addresses: Vec<Address>, rules: &SourceRules) -> Dial
    ensures source { result.source ≡ rules.now.source }
    ensures addresses { result.addresses ≡ addresses }
    ensures first { result.prefer_first ≡ rules.now.prefer_first }
    ensures silence { option_map as_nanos result.silence ≡ limit_of rules.now.silence }
    ensures guards { result.guards ≡ guards_by rules.now }
{
    Dial {
        source: rules.source,
        addresses,
        prefer_first: rules.prefer_first,
        silence: limit_of(rules.silence),
        guards: guards_by(rules),
    }
}

/// How far the times of a source's measurements may be from the clocks by its rules.
fn guards_by(rules: &SourceRules) -> Guards
    ensures { result ≡ guards_by rules.now }
{
    let near = match rules.clock_ms {
        Some(limit) => Some(ClockGuard { limit }),
        None => None,
    };
    let ahead = match rules.ahead_ms {
        0 => None,
        limit => Some(AheadGuard { limit }),
    };
    Guards { near, ahead }
}

//! The workers that a demo has besides those of the gateway.

ghost use Rattle.std.specs.Prelude.{◌≡◌, None};

use crate::fault::Fault;
use crate::keyboard::Keyboard;
use crate::run_demo::DemoOptions;
use crate::setup::{FIRST_STREAM, SECOND_STREAM, source_id};
use crate::simulators::Simulators;
use crate::sockets::Addresses;
use crate::state::DemoState;
use crate::subscribers::TestSubscriber;
use pg_console::{Console, HoldsSeat, ServiceBuilder};
use pg_recorder::{Unrecorded, WorkerGate};
use pg_shared::{Named, Seat, Work};
use pg_tools::{PhaseMachine, Simulator, Style};
use std::io::StdinLock;
use std::net::Net;
use std::rt::Clock;
use std::sync::Wait;

/// A worker that a demo has besides those of the gateway.
#[derive(Drop)]
pub enum Worker<'a, R: Wait + Net + Clock + Input<Reader = StdinLock<'static>>, N: Named> {
    Simulators(Simulators<'a, R>),
    TestSubscriber(TestSubscriber<'a, R, N>),
}

impl<R, N: Named> Work for Worker<'_, R, N>
where
    R: Wait + Net + Clock + Input<Reader = StdinLock<'static>> + Print + Eprint,
{
    fn turn(&mut self) -> bool {
        match self {
            Worker::Simulators(worker) => worker.turn(),
            Worker::TestSubscriber(worker) => worker.turn(),
        }
    }
}

impl<R: Wait + Net + Clock + Input<Reader = StdinLock<'static>>, N: Named> HoldsSeat<N>
    for Worker<'_, R, N> {
    // None: the seat of the keyboard ends with it.
    ghost gives = { λ worker seat. seat ≡ None };

    fn into_seat(self) -> Option<Seat> {
        None
    }
}

/// The worker that simulates both sources, and both subscribers.
pub fn own_workers<
    'a,
    R: Wait + Net + Clock + Input<Reader = StdinLock<'static>> + Print,
    N: Named,
>(
    builder: &ServiceBuilder<'a, R>,
    state: &'a DemoState<'a>,
    seat: Seat,
    options: DemoOptions,
    simulators: (Simulator, Simulator),
    addresses: Addresses,
) -> Result<Vec<Worker<'a, R, N>>, Fault>
    requires shared { builder.now.shared.now ≡ N.table }
    requires seat { seat.table ≡ N.table }
{
    let mut workers = Vec::new(builder.alloc);
    add_simulators(builder, state, options, simulators, &mut workers)?;
    add_first(builder, state, seat, options, addresses, &mut workers)?;
    add_second(builder, state, addresses, &mut workers)?;
    Ok(workers)
}

/// Adds the worker that simulates both sources.
fn add_simulators<'a, R: Wait + Net + Clock + Input<Reader = StdinLock<'static>> + Print, N: Named>(
    builder: &ServiceBuilder<'a, R>,
    state: &'a DemoState<'a>,
    options: DemoOptions,
    simulators: (Simulator, Simulator),
    workers: &mut Vec<Worker<'a, R, N>>,
) -> Result<(), Fault> {
    let (rt, alloc) = (builder.rt, builder.alloc);
    // Its times are counted from the start of the demo.
    let phases = PhaseMachine::new(options.seconds, 0);
    let (one, other) = simulators;
    let simulators = Simulators::new(rt, alloc, state, phases, one, other);
    workers.push(Worker::Simulators(simulators))?;
    Ok(())
}

/// Adds the first subscriber, which has the screen, with all addresses below it, and reads lines where the demo has no end.
fn add_first<'a, R: Wait + Net + Clock + Input<Reader = StdinLock<'static>> + Print, N: Named>(
    builder: &ServiceBuilder<'a, R>,
    state: &'a DemoState<'a>,
    seat: Seat,
    options: DemoOptions,
    addresses: Addresses,
    workers: &mut Vec<Worker<'a, R, N>>,
) -> Result<(), Fault>
    requires shared { builder.now.shared.now ≡ N.table }
    requires seat { seat.table ≡ N.table }
{
    let (rt, alloc) = (builder.rt, builder.alloc);
    let [port, _] = addresses.ports;
    let stream = source_id(FIRST_STREAM)?;
    let text = addresses.intro(alloc, options.seconds.is_none())?;
    let keyboard = keyboard::<R, N>(builder, seat, options)?;
    let style = options.style;
    let subscriber = TestSubscriber::new(rt, alloc, state, port, stream, style, text, keyboard);
    workers.push(Worker::TestSubscriber(subscriber))?;
    Ok(())
}

/// Adds the second subscriber, which prints nothing.
fn add_second<'a, R: Wait + Net + Clock + Input<Reader = StdinLock<'static>> + Print, N: Named>(
    builder: &ServiceBuilder<'a, R>,
    state: &'a DemoState<'a>,
    addresses: Addresses,
    workers: &mut Vec<Worker<'a, R, N>>,
) -> Result<(), Fault> {
    let (rt, alloc) = (builder.rt, builder.alloc);
    let [_, port] = addresses.ports;
    let (stream, nothing) = (source_id(SECOND_STREAM)?, String::new(alloc));
    let style = Style::Quiet;
    let subscriber = TestSubscriber::new(rt, alloc, state, port, stream, style, nothing, None);
    workers.push(Worker::TestSubscriber(subscriber))?;
    Ok(())
}

/// The lines that are typed, where the demo has no end. They are posted at this seat.
fn keyboard<'a, R: Wait + Net + Clock + Input<Reader = StdinLock<'static>>, N: Named>(
    builder: &ServiceBuilder<'a, R>,
    seat: Seat,
    options: DemoOptions,
) -> Result<Option<Keyboard<'a, R, N>>, Fault>
    requires shared { builder.now.shared.now ≡ N.table }
    requires seat { seat.table ≡ N.table }
{
    if options.seconds.is_some() {
        return Ok(None);
    }
    let (rt, alloc) = (builder.rt, builder.alloc);
    let gate = WorkerGate::<R, N, Unrecorded>::new(rt, builder.shared, seat, Unrecorded);
    let console = Console::new(alloc, Vec::new(alloc), builder.service);
    Ok(Some(Keyboard::new(rt, alloc, gate, console)?))
}

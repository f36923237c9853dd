//! `pdcgw simulate`: a source that is played until the program is ended.

use crate::fault::Fault;
use crate::settings::SimulateOptions;
use crate::simulator::{Simulator, SimulatorEvent};
use crate::source::CommandEvent;
use pg_command::Word;
use std::alloc::Global;
use std::net::Net;
use std::rt::Clock;
use std::time::Duration;
use std::{fmt, io};

/// The longest wait for something to happen, in milliseconds.
const LONGEST: u64 = 1_000;

/// Plays a source by these options, and prints each event as a line. It goes on until the program is ended.
///
/// # Errors
///
/// `Bind`, where the address can't be bound; `Output`, where standard output can't be written; `System`.
pub fn simulate<R: Net + Clock + Print + Alloc<A = Global>>(
    rt: &R,
    options: &SimulateOptions,
) -> Result<(), Fault> {
    let alloc = rt.alloc();
    let (settings, clients) = (options.settings, options.clients);
    let mut simulator = match Simulator::bind(rt, alloc, options.listen, settings, clients) {
        Ok(simulator) => simulator,
        Err(error) => return Err(Fault::Bind(options.listen, error)),
    };
    report_start(rt, &simulator)?;
    let longest = Duration::from_millis(LONGEST);
    let mut events = Vec::new(alloc);
    for _ in 0..u64::MAX {
        events.clear();
        simulator.turn(rt, longest, &mut events)?;
        for what in events.iter() {
            report_event(rt, *what)?;
        }
    }
    Ok(())
}

/// Prints where a source listens, and what it is.
fn report_start<R: Print>(rt: &R, simulator: &Simulator) -> Result<(), Fault> {
    let address = simulator.address()?;
    let settings = simulator.settings();
    let first = settings.numbers.first;
    let pmus = settings.numbers.pmus;
    let rate = settings.rate.frames;
    let s = if pmus == 1 { "" } else { "s" };
    output_result(println!(rt;
        "source {first} listens at {address}: {pmus} PMU{s} from {first} on, {rate} frames a second"
    ))
}

/// Prints an event.
fn report_event<R: Print>(rt: &R, what: SimulatorEvent) -> Result<(), Fault> {
    output_result(match what {
        SimulatorEvent::Connected(peer) => println!(rt; "{peer} has connected"),
        SimulatorEvent::Refused(peer, clients) => {
            let s = if clients == 1 { " is" } else { "s are" };
            println!(rt;
                "{peer} is refused: {clients} client{s} connected, and --clients (1 to 8) allows no more"
            )
        }
        SimulatorEvent::Closed(peer, sent) => println!(rt;
            "{peer}: the connection is closed; {sent} data frames were sent"
        ),
        SimulatorEvent::Command(peer, event) => println!(rt; "{peer}: {}", EventText(event)),
        SimulatorEvent::Stalled(peer) => println!(rt;
            "{peer}: the client does not read: frames are left out"
        ),
    })
}

/// An event as text.
#[derive(Clone, Copy)]
struct EventText(CommandEvent);

impl fmt::Display for EventText {
    fn fmt<W: fmt::Write>(&self, f: &mut fmt::Formatter<W>) -> fmt::Result {
        match &self.0 {
            CommandEvent::Obeyed(word) => {
                let number = word.number();
                let does = meaning(*word);
                write!(f, "command {number}: {does}")
            }
            CommandEvent::NotAnswered(word) => {
                let number = word.number();
                write!(f, "command {number} is not answered")
            }
            CommandEvent::Ignored(refusal) => {
                let name = refusal.name();
                write!(f, "a frame is ignored: {name}")
            }
            CommandEvent::More => f.write_str("nothing"),
            CommandEvent::Broken(refusal) => {
                let name = refusal.name();
                write!(f, "the bytes are no frames: {name}")
            }
        }
    }
}

/// What a command asks for.
fn meaning(word: Word) -> &'static str {
    match word {
        Word::StopData => "data is off",
        Word::StartData => "data is on",
        Word::SendHeader => "the header is sent",
        Word::SendCfgOne => "CFG-1 is sent",
        Word::SendCfgTwo => "CFG-2 is sent",
        Word::SendCfgThree => "CFG-3",
        Word::Extended => "an extended frame",
    }
}

/// Standard output was written, or can't be.
pub fn output_result(done: io::Result<()>) -> Result<(), Fault> {
    match done {
        Ok(()) => Ok(()),
        Err(_) => Err(Fault::Output),
    }
}

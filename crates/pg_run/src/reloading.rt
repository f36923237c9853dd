//! The line `reload`: the setup file is read again, and what changed is done.

use crate::failure::refusal_of;
use crate::redefined::{Started, started_streams};
use crate::running::{connection_rules, dial_of, rules_of};
use log::LevelFilter;
use mio::net::TcpListener as PortListener;
use pg_console::{Console, ServiceHandle};
use pg_gateway::{Gate, Reply};
use pg_lines::{NotPrinted, print_refusal};
use pg_log::{Asked, Detail, Entry, Journal, LogEvent, Subject, system_words};
use pg_operator::{LogLevel, PortSetup, Setup, SourceRules, read_setup};
use pg_service::MeteredGate;
use pg_setup::{Changes, Order, Restart, changes_between, check_setup};
use pg_wire::{PmuId, Refusal, SubId};
use std::alloc::Global;
use std::io::{ErrorKind, Read, Write};
use std::net::{Net, SocketAddr};
use std::rt::Clock;
use std::sync::{Mutex, Wait};
use std::time::Duration;
use std::{fs, io, thread};

/// How often it is tried to bind a port that another one of ours has not left yet, and how long is waited between.
const TRIES: u32 = 100;

const PAUSE_MS: u64 = 10;

/// The setup by which the gateway runs, the file that it stands in, and the program's version.
#[derive(Drop)]
pub struct SetupManager<'a, R: Net + Clock> {
    rt: &'a R,
    files: &'a HostRuntime,
    file: &'a str,
    pub(crate) version: &'a str,
    // It is held while it is read or replaced, and not while a reload waits for a port.
    pub(crate) setup: &'a Mutex<Setup>,
    // It is held while a reload does what changed.
    turn: &'a Mutex<()>,
}

impl<'a, R: Net + Clock> SetupManager<'a, R> {
    /// The program of this version runs by this setup of this file. A reload that changes it holds `turn`, so that one is done after another.
    pub fn new(
        rt: &'a R,
        files: &'a HostRuntime,
        file: &'a str,
        version: &'a str,
        setup: &'a Mutex<Setup>,
        turn: &'a Mutex<()>,
    ) -> SetupManager<'a, R> {
        SetupManager {
            rt,
            files,
            file,
            version,
            setup,
            turn,
        }
    }
}

impl<R: Net + Clock> SetupManager<'_, R> {
    /// The bytes of the file.
    fn contents(&self, alloc: Global) -> io::Result<Vec<u8>> {
        let mut file = fs::open(self.files, self.file)?;
        let mut bytes = Vec::new(alloc);
        file.read_to_end(&mut bytes)?;
        Ok(bytes)
    }

    /// The setup that the file has now. Where it has none that can run, that is answered.
    fn read<W: Write>(&self, alloc: Global, out: &mut W) -> Result<Option<NewSetup>, NotPrinted> {
        let bytes = match self.contents(alloc) {
            Ok(bytes) => bytes,
            Err(error) => {
                let why = system_words(error.kind());
                writeln!(out, "{}: can't be read: {why}", self.file)?;
                print_refusal(out, "refused", refusal_of(error))?;
                return Ok(None);
            }
        };
        let Ok(text) = str::from_utf8(bytes.as_slice()) else {
            writeln!(
                out,
                "{}: is no text; a setup file is TOML in UTF-8",
                self.file
            )?;
            print_refusal(out, "refused", Refusal::BadSetup)?;
            return Ok(None);
        };
        let has_warnings = match check_setup(alloc, self.file, text) {
            Ok(checked) => !checked.warnings.is_empty(),
            Err(trouble) => {
                write!(out, "{}", trouble.told.as_str())?;
                print_refusal(out, "refused", trouble.refusal)?;
                return Ok(None);
            }
        };
        match read_setup(alloc, text) {
            Ok(setup) => Ok(Some(NewSetup {
                setup,
                has_warnings,
            })),
            Err(refusal) => {
                print_refusal(out, "refused", refusal)?;
                Ok(None)
            }
        }
    }

    /// What changes where this setup takes the place of the one in force, and the streams that are on and are removed by that.
    ///
    /// # Errors
    ///
    /// `NoMemory`.
    fn compare<Q: Wait + Clock, G: Gate>(
        &self,
        rt: &Q,
        alloc: Global,
        gate: &mut MeteredGate<G>,
        new: &Setup,
    ) -> Result<(Changes, Vec<Started>), Refusal> {
        let setup = self.setup.lock(rt);
        let changes = changes_between(alloc, &setup, new)?;
        let started = started_streams(alloc, gate, &setup, &changes.edits)?;
        Ok((changes, started))
    }

    /// Does what changes, and reports what was done. Once all workers are to end, the orders that are left are not done: no worker would carry them out.
    fn change<W: Write, Q: Wait + Clock, G: Gate>(
        &self,
        rt: &Q,
        console: &mut Console<'_, W>,
        gate: &mut MeteredGate<G>,
        changes: Changes,
        started: Vec<Started>,
    ) -> Report {
        let Changes {
            edits,
            orders,
            restarts,
        } = changes;
        let service = console.service();
        let alloc = console.alloc();
        let mut report = Report::new(alloc);
        for edit in edits {
            let asked = Asked::of(&edit);
            let reply = console.post_edit(rt, gate, edit);
            report.edited(asked, &reply);
        }
        for stream in started {
            stream.follow(rt, service);
        }
        service.bind_again(rt);
        for order in orders {
            if service.is_over() {
                break;
            }
            self.carry_out(rt, alloc, service, order, &mut report);
        }
        for restart in restarts {
            report.restarted(restart);
        }
        report
    }
}

/// A setup that was read again and can run.
#[derive(Drop)]
struct NewSetup {
    setup: Setup,
    // Whether something in it is seldom meant.
    has_warnings: bool,
}

/// What was done by a reload.
#[derive(Drop)]
struct Report {
    edits: u64,
    orders: u64,
    lines: Vec<u8>,
    // Whether there was memory for all lines.
    is_whole: bool,
}

impl Report {
    /// Nothing was done.
    fn new(alloc: Global) -> Report {
        Report {
            edits: 0,
            orders: 0,
            lines: Vec::new(alloc),
            is_whole: true,
        }
    }

    /// An edit that asks for this was answered so. Where it was refused, a line says which one it concerns, what was asked for, and why.
    fn edited(&mut self, asked: Option<(Subject, Asked)>, reply: &Reply) {
        let (Reply::Refused(refusal), Some((subject, asked))) = (reply, asked) else {
            self.edits = self.edits.saturating_add(1);
            return;
        };
        let entry = Entry::new(LogEvent::NotDone, subject, Detail::Edit(asked, *refusal));
        let written = writeln!(self.lines, "{entry}");
        self.refused(written, *refusal);
    }

    /// Something was refused, which was reported in words.
    fn refused(&mut self, written: io::Result<()>, refusal: Refusal) {
        let printed = print_refusal(&mut self.lines, "refused", refusal);
        self.is_whole = self.is_whole && written.is_ok() && printed.is_ok();
    }

    /// A port can't be bound: that is reported, here and in the log.
    fn not_bound<Q: Wait + Clock>(
        &mut self,
        rt: &Q,
        journal: &Journal,
        sub: SubId,
        address: SocketAddr,
        error: io::Error,
    ) {
        let detail = Detail::of_error(&error);
        journal.log(
            rt,
            Entry::new(LogEvent::NotBound, Subject::Subscriber(sub), detail),
        );
        let (number, why) = (sub.get(), system_words(error.kind()));
        let written = writeln!(self.lines, "subscriber {number}: port {address}: {why}");
        self.refused(written, refusal_of(error));
    }

    /// A change of this key takes effect at the next restart.
    fn restarted(&mut self, restart: Restart) {
        let key = key_of(restart);
        let written = writeln!(self.lines, "{key}: takes effect at the next restart");
        self.is_whole = self.is_whole && written.is_ok();
    }

    /// Prints what was done, and in the lines before it what was not.
    fn print<W: Write>(&self, out: &mut W) -> Result<(), NotPrinted> {
        out.write_all(&self.lines)?;
        if !self.is_whole {
            print_refusal(out, "refused", Refusal::NoMemory)?;
        }
        let (edits, orders) = (self.edits, self.orders);
        let edit = if edits == 1 { "edit" } else { "edits" };
        let change = if orders == 1 { "change" } else { "changes" };
        writeln!(
            out,
            "reloaded: {edits} {edit}, {orders} {change} of connections and ports"
        )?;
        Ok(())
    }
}

impl<R: Net + Clock> SetupManager<'_, R> {
    /// Has workers do what is to be done about a source or a port.
    fn carry_out<Q: Wait + Clock>(
        &self,
        rt: &Q,
        alloc: Global,
        service: ServiceHandle<'_>,
        order: Order,
        report: &mut Report,
    ) {
        match order {
            Order::Undial(source) => service.undial(rt, source),
            Order::Dial(source) => match dial_of(alloc, source) {
                Ok(Some(dial)) => service.dial(rt, dial),
                Ok(None) => {}
                Err(refusal) => {
                    report.refused(Ok(()), refusal);
                    return;
                }
            },
            Order::Unlisten(sub) => service.close(rt, sub),
            Order::Listen(port) => {
                let PortSetup { port, rules } = port;
                let address = SocketAddr::from((rules.address, port));
                match self.bind(address) {
                    Ok(listener) => service.open(rt, rules.sub, connection_rules(rules), listener),
                    Err(error) => {
                        let journal = service.handles.journal;
                        let sub = rules.sub;
                        report.not_bound(rt, journal, sub, address, error);
                        service.bind_later(rt, sub, connection_rules(rules), address);
                        return;
                    }
                }
            }
        }
        report.orders = report.orders.saturating_add(1);
    }

    /// Listens here. A port of ours that is to be closed may not be closed yet: then it is tried again for a second.
    pub(crate) fn bind(&self, address: SocketAddr) -> io::Result<PortListener> {
        for _ in 0..TRIES {
            match PortListener::bind(self.rt, address) {
                Err(error) if error.kind() == ErrorKind::AddrInUse => {
                    thread::sleep(self.rt, Duration::from_millis(PAUSE_MS));
                }
                bound => return bound,
            }
        }
        PortListener::bind(self.rt, address)
    }
}

impl<R: Net + Clock> SetupManager<'_, R> {
    /// Reads the setup again and does what changed; answers it when all is done, so that a writer that fails keeps nothing from
    /// being done.
    ///
    /// # Errors
    ///
    /// Those of `print_refusal` where an answer can't be printed.
    pub(crate) fn renew<W: Write, Q: Wait + Clock, G: Gate>(
        &self,
        rt: &Q,
        console: &mut Console<'_, W>,
        gate: &mut MeteredGate<G>,
    ) -> Result<(), NotPrinted> {
        let alloc = console.alloc();
        let journal = console.service().handles.journal;
        let Some(
            NewSetup {
                setup: new,
                has_warnings,
            },
        ) = self.read(alloc, console.out_mut())?
        else {
            journal.log(
                rt,
                Entry::new(LogEvent::NotReloaded, Subject::Nobody, Detail::Nothing),
            );
            return Ok(());
        };
        let turn = self.turn.lock(rt);
        match self.compare(rt, alloc, gate, &new) {
            Ok((changes, started)) => {
                let report = self.change(rt, console, gate, changes, started);
                journal.set_filter(rt, filter_of(new.log));
                *self.setup.lock(rt) = new;
                drop(turn);
                journal.log(
                    rt,
                    Entry::new(LogEvent::Reloaded, Subject::Nobody, Detail::Nothing),
                );
                if has_warnings {
                    let entry = Entry::new(LogEvent::Warned, Subject::Nobody, Detail::Nothing);
                    journal.log(rt, entry);
                }
                report.print(console.out_mut())
            }
            Err(refusal) => {
                journal.log(
                    rt,
                    Entry::new(LogEvent::NotReloaded, Subject::Nobody, Detail::Nothing),
                );
                print_refusal(console.out_mut(), "refused", refusal)?;
                Ok(())
            }
        }
    }

    /// How a source is watched, by the setup; by its defaults, where it does not name it.
    pub(crate) fn rules_of<Q: Wait>(&self, rt: &Q, source: PmuId) -> SourceRules {
        let setup = self.setup.lock(rt);
        rules_of(&setup.sources, source).unwrap_or(SourceRules::default_of(source))
    }
}

/// What the log has by a setup.
pub(crate) fn filter_of(level: LogLevel) -> LevelFilter {
    match level {
        LogLevel::Error => LevelFilter::Error,
        LogLevel::Warn => LevelFilter::Warn,
        LogLevel::Info => LevelFilter::Info,
        LogLevel::Debug => LevelFilter::Debug,
    }
}

/// The key of a setup.
fn key_of(restart: Restart) -> &'static str {
    match restart {
        Restart::TickMs => "tick_ms",
        Restart::Ingest => "ingest",
        Restart::Serve => "serve",
        Restart::Control => "control",
        Restart::Status => "status",
        Restart::Name => "name",
        Restart::Record => "record",
        Restart::RecordMb => "record_mb",
        Restart::RecordHours => "record_hours",
    }
}

//! `pdcgw watch`: a subscriber that shows what comes.

use crate::fault::Fault;
use crate::lines::{FrameTime, NO_PMU, write_heading, write_second, write_values};
use crate::screen::{History, LastScreen, View, draw};
use crate::settings::{BadOption, number};
use crate::simulate_source::output_result;
use crate::socket::{is_connected, send_due};
use crate::target::{Target, WRONG_STREAM, read_stream, read_target};
use crate::unix_time::UnixTime;
use crate::watcher::{Violation, WatchEvent, Watcher, is_same};
use mio::net::TcpStream;
use mio::{Events, Interest, Poll, Token};
use pg_config::SourceConfig;
use pg_data::DataFrame;
use pg_wire::PmuId;
use std::alloc::{AllocError, Global};
use std::io::{ErrorKind, Read, Write};
use std::net::{Net, Shutdown, SocketAddr, ToSocketAddrs};
use std::rt::{Clock, Files};
use std::sync::Arc;
use std::time::{Duration, Instant};
use std::{fs, io};

/// How long one wait for bytes is at most, in milliseconds.
const TURN: u64 = 100;

/// A tenth of a second, in microseconds. A screen is drawn once in each.
const TENTH: u64 = 100_000;

/// How many turns a connection is waited for.
const CONNECTING: u32 = 50;

/// How many turns an end of the stream is waited for.
const ENDING: u32 = 5;

/// How long a configuration may take, in seconds, before its absence is reported.
const CONFIG_TIMEOUT: u64 = 5;

/// How many bytes one read takes at most.
const PIECE: usize = 16_384;

/// The reads of a turn at most.
const READS: u32 = 256;

/// A second, in microseconds.
const SECOND: u64 = 1_000_000;

/// The most lines a second that name what is wrong with frames. The others are counted.
const LINES: u32 = 50;

/// How what comes is shown.
#[derive(Clone, Copy, PartialEq, Eq)]
pub enum Style {
    /// A screen, which is drawn again and again.
    Screen,
    /// A line a second.
    Plain,
    /// A line for each data frame, of values with commas between.
    Csv,
    /// Nothing, but for what is wrong.
    Quiet,
}

/// What observes a stream while it is watched.
pub trait Observer {
    /// A data frame was taken.
    fn frame(&mut self, frame: &DataFrame);

    /// A turn begins, of which there are ten a second or more, with what has come so far. Answers whether to go on.
    fn turn(&mut self, watcher: &Watcher) -> bool;

    /// The lines that stand below the screen.
    fn notes(&self) -> &str;

    /// How many lines were typed below the screen since the last call. None where no lines are read.
    fn take_typed(&mut self) -> Option<usize>;
}

/// An observer that does nothing.
#[derive(Clone, Copy)]
struct NoObserver;

impl Observer for NoObserver {
    fn frame(&mut self, frame: &DataFrame) {}

    fn turn(&mut self, watcher: &Watcher) -> bool {
        true
    }

    fn notes(&self) -> &str {
        ""
    }

    fn take_typed(&mut self) -> Option<usize> {
        None
    }
}

/// What is watched, and how.
#[derive(Clone, Copy)]
pub struct WatchOptions<'a> {
    /// Where the gateway listens, or a source.
    pub address: Target<'a>,
    /// The IDCODE of the stream.
    pub stream: PmuId,
    /// How it is shown.
    pub style: Style,
    /// The file that keeps the bytes as they come.
    pub raw: Option<&'a str>,
    /// After how many data frames it ends.
    pub frames: Option<u32>,
    /// After how many seconds it ends.
    pub seconds: Option<u32>,
}

/// The values of the words of `watch`, as they were typed.
#[derive(Clone, Copy)]
pub struct WatchArgs<'a> {
    /// The address.
    pub address: &'a str,
    /// `--stream`
    pub stream: &'a str,
    /// `--csv`
    pub is_csv: bool,
    /// `--plain`
    pub is_plain: bool,
    /// Whether standard output is a terminal.
    pub is_terminal: bool,
    /// `--raw`
    pub raw: Option<&'a str>,
    /// `--frames`
    pub frames: Option<&'a str>,
    /// `--seconds`
    pub seconds: Option<&'a str>,
}

/// What `watch` is asked for.
///
/// # Errors
///
/// The first option that can't be taken, with what it takes.
pub fn read_watch_options<'a>(words: &WatchArgs<'a>) -> Result<WatchOptions<'a>, BadOption> {
    let address = read_target(words.address, "ADDRESS")?;
    let Some(stream) = read_stream(words.stream) else {
        return Err(WRONG_STREAM);
    };
    let style = if words.is_csv {
        Style::Csv
    } else if words.is_plain || !words.is_terminal {
        Style::Plain
    } else {
        Style::Screen
    };
    Ok(WatchOptions {
        address,
        stream,
        style,
        raw: words.raw,
        frames: limit(words.frames, "--frames")?,
        seconds: limit(words.seconds, "--seconds")?,
    })
}

/// A limit, where there is one.
fn limit(word: Option<&str>, option: &'static str) -> Result<Option<u32>, BadOption> {
    let Some(word) = word else {
        return Ok(None);
    };
    match number(word, 1, u32::MAX) {
        Some(limit) => Ok(Some(limit)),
        None => Err(BadOption {
            option,
            takes: "a number of 1 to 4294967295",
        }),
    }
}

/// What `watch` shows, apart from the socket.
#[derive(Drop)]
struct WatchState {
    alloc: Global,
    watcher: Watcher,
    latest: Option<Arc<DataFrame>>,
    histories: Vec<History>,
    frames_before: u64,
    measured: u64,
    delay: Option<i64>,
    trouble: Option<Violation>,
    /// Of this second, how many troubles of frames have a line of their own, and how many have none.
    printed: u32,
    more: u64,
    lines: usize,
    /// The tenth of a second, counted from the start, in which the screen was drawn last.
    drawn: Option<u64>,
    /// The configuration by whose channels values are shown.
    shown_config: Option<Arc<SourceConfig>>,
    /// Whether the last configuration had no PMU, which was printed.
    is_waiting: bool,
    is_over: bool,
}

/// Watches a stream until it ends, or as many frames or seconds as are asked for have come, and stops it. It answers whether
/// nothing was wrong with what came.
///
/// # Errors
///
/// `Name`, where the name has no address; `Reach`, where no connection can be had; `File`, where the file for the bytes can't be written; `Output`; `System`.
pub fn watch<R>(rt: &R, options: &WatchOptions<'_>) -> Result<bool, Fault>
where
    R: Net + Clock + Files + Print + Eprint + Alloc<A = Global>,
{
    let mut raw = match options.raw {
        None => None,
        Some(path) => match fs::create(rt, path) {
            Ok(file) => Some(file),
            Err(error) => return Err(Fault::File(error)),
        },
    };
    watch_with(rt, rt.alloc(), options, &mut raw, &mut NoObserver)
}

/// As `watch`, with an observer, which ends it too. The bytes that come are kept by `raw`; no file is opened.
///
/// # Errors
///
/// As `watch`; `File`, where `raw` can't be written.
pub fn watch_with<R, W: Write, A: Observer>(
    rt: &R,
    alloc: Global,
    options: &WatchOptions<'_>,
    raw: &mut Option<W>,
    observer: &mut A,
) -> Result<bool, Fault>
where
    R: Net + Clock + Print + Eprint,
{
    let mut connection = Connection::open(rt, alloc, options.address)?;
    let mut state = WatchState::new(alloc, options.stream)?;
    let goes_on = watch_turns(rt, &mut connection, &mut state, options, raw, observer)?;
    connection.stop_stream(rt, &state)?;
    if goes_on {
        // That no data frame came, where that is so.
        if let Some(trouble) = state.watcher.close() {
            state.show_violation(rt, options, trouble);
        }
    }
    state.end(rt, options)?;
    Ok(state.watcher.tally().troubles == 0)
}

/// Watches until the stream ends, all has come that was asked for, or the observer ends it. It answers whether the observer would go on.
fn watch_turns<R, W: Write, A: Observer>(
    rt: &R,
    connection: &mut Connection,
    state: &mut WatchState,
    options: &WatchOptions<'_>,
    raw: &mut Option<W>,
    observer: &mut A,
) -> Result<bool, Fault>
where
    R: Net + Clock + Print + Eprint,
{
    let start = Instant::now(rt)?;
    let mut ended = 0u64;
    for _ in 0..u64::MAX {
        send_commands(rt, &connection.stream, state)?;
        connection.wait()?;
        read_all(rt, &connection.stream, state, options, raw, observer)?;
        let micros = u64::try_from(start.elapsed(rt)?.as_micros()).unwrap_or(u64::MAX);
        if micros.saturating_sub(ended) >= SECOND {
            ended = ended.saturating_add(SECOND);
            state.end_second(rt, options, micros)?;
        }
        let goes_on = observer.turn(&state.watcher);
        let is_last = state.is_over || !goes_on || has_all(state, options, micros);
        if options.style == Style::Screen {
            state.draw(rt, options, observer, micros, is_last)?;
        }
        if is_last {
            return Ok(goes_on);
        }
    }
    Ok(true)
}

/// Whether as much has come as was asked for.
fn has_all(state: &WatchState, options: &WatchOptions<'_>, micros: u64) -> bool {
    let frames = state.watcher.tally().frames;
    let by_frames = matches!(options.frames, Some(most) if frames >= u64::from(most));
    let by_time = matches!(options.seconds, Some(most) if micros / SECOND >= u64::from(most));
    by_frames || by_time
}

/// The connection of `watch`, and what waits for it.
#[derive(Drop)]
struct Connection {
    poll: Poll,
    events: Events<Global>,
    stream: TcpStream,
}

impl Connection {
    /// Connects.
    fn open<R: Net>(rt: &R, alloc: Global, target: Target<'_>) -> Result<Connection, Fault> {
        let mut poll = Poll::new(rt)?;
        let mut events = Events::with_capacity(alloc, 4)?;
        let stream = connect_target(rt, alloc, target, &mut poll, &mut events)?;
        Ok(Connection {
            poll,
            events,
            stream,
        })
    }

    /// Waits a turn at most, until something can be read.
    fn wait(&mut self) -> Result<(), Fault> {
        let turn = Some(Duration::from_millis(TURN));
        self.poll.poll(&mut self.events, turn)?;
        Ok(())
    }

    /// Stops the stream, and waits a little until the peer has closed, so that it reads the command.
    fn stop_stream<R: Clock>(&mut self, rt: &R, state: &WatchState) -> Result<(), Fault> {
        let _ = (&self.stream).write(&state.watcher.stop(UnixTime::now(rt)?.soc()));
        let _ = self.stream.shutdown(Shutdown::Write);
        for _ in 0..ENDING {
            self.wait()?;
            if self.is_closed() {
                return Ok(());
            }
        }
        Ok(())
    }

    /// Whether the peer has closed, once what came before is read.
    fn is_closed(&self) -> bool {
        let mut piece = [0; PIECE];
        for _ in 0..READS {
            match (&self.stream).read(&mut piece) {
                Ok(0) => return true,
                Ok(_) => {}
                Err(error) => return error.kind() != ErrorKind::WouldBlock,
            }
        }
        false
    }
}

/// Connects. Of the addresses of a name it is the first one that can be had.
fn connect_target<R: Net>(
    rt: &R,
    alloc: Global,
    target: Target<'_>,
    poll: &mut Poll,
    events: &mut Events<Global>,
) -> Result<TcpStream, Fault> {
    let (name, port) = match target {
        Target::Address(address) => return connect(rt, address, poll, events),
        Target::Name(name, port) => (name, port),
    };
    let mut fault = None;
    match (name, port).to_socket_addrs(rt) {
        Ok(addresses) => {
            for address in addresses {
                match connect(rt, address, poll, events) {
                    Ok(stream) => return Ok(stream),
                    Err(error) => fault = Some(error),
                }
            }
        }
        Err(error) => fault = Some(name_error(alloc, target, error)),
    }
    match fault {
        Some(fault) => Err(fault),
        None => Err(name_error(alloc, target, io::Error::from(ErrorKind::NotFound))),
    }
}

/// A name has no address.
fn name_error(alloc: Global, target: Target<'_>, error: io::Error) -> Fault {
    match format!(in alloc; "{target}") {
        Ok(name) => Fault::Name(name, error),
        Err(_) => no_memory(),
    }
}

/// Connects to an address.
fn connect<R: Net>(
    rt: &R,
    address: SocketAddr,
    poll: &mut Poll,
    events: &mut Events<Global>,
) -> Result<TcpStream, Fault> {
    let mut stream = match TcpStream::connect(rt, address) {
        Ok(stream) => stream,
        Err(error) => return Err(Fault::Reach(address, error)),
    };
    let both = Interest::READABLE | Interest::WRITABLE;
    poll.registry().register(&mut stream, Token(0), both)?;
    for _ in 0..CONNECTING {
        poll.poll(events, Some(Duration::from_millis(TURN)))?;
        match is_connected(&stream) {
            Ok(true) => return Ok(stream),
            Ok(false) => {}
            Err(error) => return Err(Fault::Reach(address, error)),
        }
    }
    Err(Fault::Reach(address, io::Error::from(ErrorKind::TimedOut)))
}

/// Sends the commands that are due.
fn send_commands<R: Clock>(
    rt: &R,
    stream: &TcpStream,
    state: &mut WatchState,
) -> Result<(), Fault> {
    let soc = UnixTime::now(rt)?.soc();
    if !send_due(stream, &mut state.watcher, soc) {
        state.watcher.note(Violation::Closed);
        state.trouble = Some(Violation::Closed);
    }
    Ok(())
}

/// Reads what is there, keeps it and shows it.
fn read_all<R: Clock + Print + Eprint, W: Write, A: Observer>(
    rt: &R,
    stream: &TcpStream,
    state: &mut WatchState,
    options: &WatchOptions<'_>,
    raw: &mut Option<W>,
    observer: &mut A,
) -> Result<(), Fault> {
    let mut piece = [0; PIECE];
    for _ in 0..READS {
        match (&*stream).read(&mut piece) {
            Ok(0) => {
                state.report(rt, options, Violation::Closed);
                state.is_over = true;
                return Ok(());
            }
            Ok(read) => {
                let bytes = &piece[..read];
                if let Some(file) = raw {
                    if let Err(error) = file.write_all(bytes) {
                        return Err(Fault::File(error));
                    }
                }
                state.take(rt, options, bytes, observer)?;
                state.delay = delay_of(state.latest.as_ref(), UnixTime::now(rt)?);
            }
            Err(error) if error.kind() == ErrorKind::WouldBlock => return Ok(()),
            Err(error) if error.kind() == ErrorKind::Interrupted => {}
            Err(_) => {
                state.report(rt, options, Violation::Closed);
                state.is_over = true;
                return Ok(());
            }
        }
        if state.is_over || has_all(state, options, 0) {
            return Ok(());
        }
    }
    Ok(())
}

impl WatchState {
    fn new(alloc: Global, stream: PmuId) -> Result<WatchState, Fault> {
        let watcher = match Watcher::new(alloc, stream) {
            Ok(watcher) => watcher,
            Err(_) => return Err(no_memory()),
        };
        Ok(WatchState {
            alloc,
            watcher,
            latest: None,
            histories: Vec::new(alloc),
            frames_before: 0,
            measured: 0,
            delay: None,
            trouble: None,
            printed: 0,
            more: 0,
            lines: 0,
            drawn: None,
            shown_config: None,
            is_waiting: false,
            is_over: false,
        })
    }

    /// Takes the bytes that came.
    fn take<R: Print + Eprint, A: Observer>(
        &mut self,
        rt: &R,
        options: &WatchOptions<'_>,
        bytes: &[u8],
        observer: &mut A,
    ) -> Result<(), Fault> {
        let mut at = 0;
        for _ in 0..=bytes.len() {
            if at < bytes.len() {
                at += self.watcher.feed(&bytes[at..]);
            }
            match self.watcher.next() {
                WatchEvent::More if at >= bytes.len() => return Ok(()),
                WatchEvent::More | WatchEvent::Header => {}
                WatchEvent::Config(config) => self.begin(rt, options, config)?,
                WatchEvent::NoPmu => self.report_no_pmu(rt, options),
                WatchEvent::Frame(frame) => {
                    observer.frame(&frame);
                    if options.style == Style::Csv {
                        let mut line = String::new(self.alloc);
                        write_values(&mut line, &frame)?;
                        output_result(print!(rt; "{line}"))?;
                    }
                    self.latest = Some(frame);
                }
                WatchEvent::Violation(trouble) => {
                    if trouble.is_set_back() {
                        self.watcher.forget_stamp();
                    }
                    self.report_frame(rt, options, trouble);
                }
                WatchEvent::Ended => {
                    self.is_over = true;
                    return Ok(());
                }
                WatchEvent::NoMemory => return Err(no_memory()),
            }
            if has_all(self, options, 0) {
                return Ok(());
            }
        }
        Ok(())
    }

    /// Begins with a configuration. One that is as the last one changes nothing.
    fn begin<R: Print>(
        &mut self,
        rt: &R,
        options: &WatchOptions<'_>,
        config: Arc<SourceConfig>,
    ) -> Result<(), Fault> {
        self.is_waiting = false;
        if let Some(shown_config) = &self.shown_config {
            if is_same(&**shown_config, &*config) {
                return Ok(());
            }
        }
        self.histories.clear();
        for _ in 0..config.count() {
            let history = History::new(self.alloc);
            if self.histories.push(history).is_err() {
                return Err(no_memory());
            }
        }
        if options.style == Style::Csv {
            let mut line = String::new(self.alloc);
            write_heading(&mut line, &*config)?;
            output_result(print!(rt; "{line}"))?;
        }
        self.shown_config = Some(config);
        Ok(())
    }

    /// Counts it, and shows it.
    fn report<R: Eprint>(&mut self, rt: &R, options: &WatchOptions<'_>, trouble: Violation) {
        self.watcher.note(trouble);
        self.show_violation(rt, options, trouble);
    }

    /// Shows what is wrong: on the screen, or else on standard error.
    fn show_violation<R: Eprint>(
        &mut self,
        rt: &R,
        options: &WatchOptions<'_>,
        trouble: Violation,
    ) {
        self.report_more(rt);
        self.trouble = Some(trouble);
        if options.style != Style::Screen {
            // Where standard error can't be written either, the status still reports it.
            let _ = eprintln!(rt; "pdcgw: {trouble}");
        }
    }

    /// The same of a frame. A peer may send any number of them: 50 a second have a line, and the others are counted.
    fn report_frame<R: Eprint>(&mut self, rt: &R, options: &WatchOptions<'_>, trouble: Violation) {
        if self.printed < LINES || options.style == Style::Screen {
            self.printed = self.printed.saturating_add(1);
            self.show_violation(rt, options, trouble);
        } else {
            self.trouble = Some(trouble);
            self.more = self.more.saturating_add(1);
        }
    }

    /// Prints how many troubles of frames have no line of their own, and the last of them.
    fn report_more<R: Eprint>(&mut self, rt: &R) {
        let more = self.more;
        self.more = 0;
        if let Some(trouble) = self.trouble {
            if more > 0 {
                let s = if more == 1 { "" } else { "s" };
                let _ = eprintln!(rt; "pdcgw: {more} trouble{s} more; the last: {trouble}");
            }
        }
    }

    /// Prints once that no PMU of the stream is announced yet, where no screen or line of a second shows it.
    fn report_no_pmu<R: Eprint>(&mut self, rt: &R, options: &WatchOptions<'_>) {
        if options.style == Style::Csv && !self.is_waiting {
            let _ = eprintln!(rt; "pdcgw: {NO_PMU}; it is asked again");
        }
        self.is_waiting = true;
    }

    /// Ends a second: its rate, its frequencies, its line.
    fn end_second<R: Print + Eprint>(
        &mut self,
        rt: &R,
        options: &WatchOptions<'_>,
        micros: u64,
    ) -> Result<(), Fault> {
        self.report_more(rt);
        self.printed = 0;
        let tally = self.watcher.tally();
        self.measured = tally.frames.saturating_sub(self.frames_before);
        self.frames_before = tally.frames;
        if tally.configs == 0 && !self.watcher.has_no_pmu() && micros / SECOND == CONFIG_TIMEOUT {
            self.report(rt, options, Violation::Silent);
        }
        self.watcher.second();
        self.keep_frequencies()?;
        if options.style == Style::Plain {
            let mut line = String::new(self.alloc);
            let latest = self.latest.as_ref().map(|frame| &**frame);
            write_second(&mut line, latest, self.measured, self.delay, &self.watcher)?;
            output_result(print!(rt; "{line}"))?;
        }
        Ok(())
    }

    /// Adds the last frequency of each PMU to its history.
    fn keep_frequencies(&mut self) -> Result<(), AllocError> {
        let Some(frame) = &self.latest else {
            return Ok(());
        };
        for (i, history) in self.histories.iter_mut().enumerate() {
            let value = match frame.config.parts.get(i) {
                Some(part) if i < frame.count() && self.measured > 0 => {
                    crate::reading::Reading::new(part, frame.block(i)).millihertz()
                }
                _ => None,
            };
            history.push(value)?;
        }
        Ok(())
    }

    /// Draws the screen, so many microseconds behind the start, unless that was done in this tenth of a second. The last screen is drawn in any case.
    fn draw<R: Print, A: Observer>(
        &mut self,
        rt: &R,
        options: &WatchOptions<'_>,
        observer: &mut A,
        micros: u64,
        is_last: bool,
    ) -> Result<(), Fault> {
        let tenth = Some(micros / TENTH);
        if tenth == self.drawn && !is_last {
            return Ok(());
        }
        self.drawn = tenth;
        let before = LastScreen {
            lines: self.lines,
            typed: observer.take_typed(),
        };
        let view = View {
            address: options.address,
            stream: self.watcher.stream().get(),
            measured: self.measured,
            tally: self.watcher.tally(),
            header: self.watcher.header(),
            config: self.watcher.config().map(|config| &**config),
            has_no_pmu: self.watcher.has_no_pmu(),
            frame: self.latest.as_ref().map(|frame| &**frame),
            histories: &self.histories,
            delay: self.delay,
            trouble: self.trouble,
            notes: observer.notes(),
        };
        let (text, lines) = draw(self.alloc, &view, before)?;
        self.lines = lines;
        output_result(print!(rt; "{text}"))
    }

    /// Prints at the end what was counted: on standard error, where values stand on standard output.
    fn end<R: Print + Eprint>(&mut self, rt: &R, options: &WatchOptions<'_>) -> Result<(), Fault> {
        self.report_more(rt);
        let tally = self.watcher.tally();
        let frames = tally.frames;
        let missing = tally.missing;
        let fillers = tally.fillers;
        let troubles = tally.troubles;
        let wrong = tally.wrong_checks;
        let order = tally.not_rising;
        let misfits = tally.misfits;
        let counted = format!(in self.alloc;
            "{frames} frames, {missing} missing, {fillers} fillers, {troubles} troubles ({wrong} CHK, {order} order, {misfits} misfit)"
        )?;
        match options.style {
            Style::Quiet => Ok(()),
            Style::Csv => {
                // Where standard error can't be written either, the status still reports it.
                let _ = eprintln!(rt; "pdcgw: {counted}");
                Ok(())
            }
            Style::Screen | Style::Plain => output_result(println!(rt; "{counted}")),
        }
    }
}

/// How many milliseconds behind its stamp the latest frame came, below 0 where it came before.
fn delay_of(frame: Option<&Arc<DataFrame>>, at: UnixTime) -> Option<i64> {
    Some(FrameTime::of(&**frame?).millis_behind(at))
}

/// There is no memory.
fn no_memory() -> Fault {
    Fault::System(io::Error::from(ErrorKind::OutOfMemory))
}

//! How an explanation is printed.

ghost use Rattle.std.specs.Prelude.{◌≡◌, ◌&&◌, nat_eq};

use crate::fates::{Cause, Fate, Handing, MadeFrame};
use crate::reader::Fault;
use crate::script::{print_line, time_text};
use pg_wire::PmuKey;
use std::alloc::{AllocError, Global};
use std::io::Write;

/// The heading of comma-separated values.
const COLUMNS: &str = "slot,stream,cause,left_ms,handing,handed_ms,gap,pmu,fate,came_ms,reason";

/// How an explanation is printed.
#[derive(Clone, Copy, PartialEq, Eq)]
pub(crate) enum Form {
    /// A line for each frame.
    Text,
    /// Comma-separated values: a line for each member of a frame.
    Csv,
}

/// What an explanation counted.
#[derive(Clone, Copy, PartialEq, Eq)]
pub struct Totals {
    /// Whether the recording has a stream of the subscriber.
    pub is_known: bool,
    /// The frames, and those of them that left complete, since their slot had waited long enough, since more slots than the window were
    /// open, and since the members changed.
    pub frames: u64,
    pub complete: u64,
    pub waited: u64,
    pub pushed: u64,
    pub changed: u64,
    /// The fillers, by what became of the block: none came, it came late, it was refused, its frame was ignored.
    pub nothing: u64,
    pub late: u64,
    pub refused: u64,
    pub ignored: u64,
    /// The frames that were not handed out: dropped, cleared, and still in the queue at the end.
    pub dropped: u64,
    pub cleared: u64,
    pub waiting: u64,
    /// The frames that left and were dropped at once, of which no slot is known.
    pub unseen: u64,
    /// The places without a record, and what is not as it was written in a file.
    pub missing: u64,
    /// The calls that no line of a script says.
    pub unspelled: u64,
}

impl Totals {
    /// Nothing was counted.
    pub(crate) fn none() -> Totals {
        Totals {
            is_known: false,
            frames: 0,
            complete: 0,
            waited: 0,
            pushed: 0,
            changed: 0,
            nothing: 0,
            late: 0,
            refused: 0,
            ignored: 0,
            dropped: 0,
            cleared: 0,
            waiting: 0,
            unseen: 0,
            missing: 0,
            unspelled: 0,
        }
    }

    /// Whether the recording was whole as far as it was read.
    pub fn is_whole(&self) -> bool
        ensures { result ≡ (nat_eq self.now.missing 0 && nat_eq self.now.unspelled 0) }
    {
        self.missing == 0 && self.unspelled == 0
    }

    /// Counts a frame.
    pub(crate) fn count(&mut self, frame: &MadeFrame) {
        raise(&mut self.frames);
        raise(match frame.cause {
            Cause::Complete => &mut self.complete,
            Cause::Waited => &mut self.waited,
            Cause::Pushed => &mut self.pushed,
            Cause::Changed => &mut self.changed,
        });
        match frame.handing {
            Handing::Handed(..) => {}
            Handing::Dropped => raise(&mut self.dropped),
            Handing::Cleared => raise(&mut self.cleared),
            Handing::Waiting => raise(&mut self.waiting),
        }
        for (_, fate) in &frame.fates {
            match fate {
                Fate::Nothing => raise(&mut self.nothing),
                Fate::Late(_) => raise(&mut self.late),
                Fate::Refused(..) => raise(&mut self.refused),
                Fate::Ignored(..) => raise(&mut self.ignored),
                _ => {}
            }
        }
    }

    /// Prints the counts.
    pub(crate) fn print<W: Write>(
        &self,
        alloc: Global,
        form: Form,
        out: &mut W,
    ) -> Result<(), Fault> {
        let Totals {
            frames,
            complete,
            waited,
            pushed,
            changed,
            nothing,
            late,
            refused,
            ignored,
            dropped,
            cleared,
            waiting,
            unseen,
            missing,
            unspelled,
            ..
        } = *self;
        let mark = if form == Form::Csv { "# " } else { "" };
        let made = format!(in alloc;
            "frames {frames} complete {complete} waited {waited} pushed {pushed} changed {changed}"
        )?;
        let fillers = format!(in alloc;
            "nothing {nothing} late {late} refused {refused} ignored {ignored}"
        )?;
        let lost = format!(in alloc;
            "dropped {dropped} cleared {cleared} waiting {waiting} unseen {unseen}"
        )?;
        let line = format!(in alloc;
            "{mark}{} {} {} missing {missing} unspelled {unspelled}",
            made.as_str(),
            fillers.as_str(),
            lost.as_str()
        )?;
        print_line(line.as_str(), out)
    }
}

/// Counts one more.
fn raise(count: &mut u64) {
    *count = count.saturating_add(1);
}

/// Prints what stands before the frames.
pub(crate) fn print_heading<W: Write>(form: Form, out: &mut W) -> Result<(), Fault> {
    match form {
        Form::Csv => print_line(COLUMNS, out),
        Form::Text => Ok(()),
    }
}

/// Prints a frame.
pub(crate) fn print_frame<W: Write>(
    alloc: Global,
    form: Form,
    frame: &MadeFrame,
    out: &mut W,
) -> Result<(), Fault> {
    match form {
        Form::Text => print_text(alloc, frame, out),
        Form::Csv => print_csv(alloc, frame, out),
    }
}

/// Prints a frame as a line.
fn print_text<W: Write>(alloc: Global, frame: &MadeFrame, out: &mut W) -> Result<(), Fault> {
    let time = time_text(alloc, frame.time)?;
    let left = after(alloc, frame.left, frame.time)?;
    let mut line = format!(in alloc;
        "{} stream {} {} left {}",
        time.as_str(),
        frame.stream.get(),
        cause_word(frame.cause),
        left.as_str()
    )?;
    line.push_str(" ")?;
    line.push_str(handing_word(frame.handing))?;
    if let Handing::Handed(at, gap) = frame.handing {
        let handed = after(alloc, at, frame.time)?;
        line.push_str(format!(in alloc; " {} gap {gap}", handed.as_str())?.as_str())?;
    }
    let mut separator = ": ";
    for (key, fate) in &frame.fates {
        let name = name_of(alloc, *key)?;
        let fate = fate_text(alloc, *fate, frame.time)?;
        line.push_str(separator)?;
        line.push_str(name.as_str())?;
        line.push_str(" ")?;
        line.push_str(fate.as_str())?;
        separator = ", ";
    }
    print_line(line.as_str(), out)
}

/// Prints a frame as comma-separated values.
fn print_csv<W: Write>(alloc: Global, frame: &MadeFrame, out: &mut W) -> Result<(), Fault> {
    let time = time_text(alloc, frame.time)?;
    let left = signed(frame.left, frame.time);
    let handed = match frame.handing {
        Handing::Handed(at, gap) => {
            format!(in alloc; "handed,{},{gap}", signed(at, frame.time))?
        }
        other => format!(in alloc; "{},,", handing_word(other))?,
    };
    for (key, fate) in &frame.fates {
        let name = name_of(alloc, *key)?;
        let came = match fate {
            Fate::Came(at) | Fate::Late(at) | Fate::Refused(at, _) | Fate::Ignored(at, _) => {
                format!(in alloc; "{}", signed(*at, frame.time))?
            }
            _ => String::new(alloc),
        };
        let reason = match fate {
            Fate::Refused(_, refusal) | Fate::Ignored(_, refusal) => refusal.name(),
            _ => "",
        };
        let line = format!(in alloc;
            "{},{},{},{left},{},{},{},{},{reason}",
            time.as_str(),
            frame.stream.get(),
            cause_word(frame.cause),
            handed.as_str(),
            name.as_str(),
            fate_word(*fate),
            came.as_str()
        )?;
        print_line(line.as_str(), out)?;
    }
    Ok(())
}

/// A PMU as its number, behind that of its source where they differ.
fn name_of(alloc: Global, key: PmuKey) -> Result<String, AllocError> {
    let (source, pmu) = (key.source.get(), key.pmu.get());
    if source == pmu {
        format!(in alloc; "{pmu}")
    } else {
        format!(in alloc; "{source}/{pmu}")
    }
}

/// How many milliseconds a time lies after another.
fn signed(at: u64, from: u64) -> i64 {
    let later = i64::try_from(at.saturating_sub(from)).unwrap_or(i64::MAX);
    let earlier = i64::try_from(from.saturating_sub(at)).unwrap_or(i64::MAX);
    later.saturating_sub(earlier)
}

/// The same as text, with its sign.
fn after(alloc: Global, at: u64, from: u64) -> Result<String, AllocError> {
    let ms = signed(at, from);
    if ms < 0 {
        format!(in alloc; "{ms} ms")
    } else {
        format!(in alloc; "+{ms} ms")
    }
}

/// Why a frame left, as a word.
fn cause_word(cause: Cause) -> &'static str {
    match cause {
        Cause::Complete => "complete",
        Cause::Waited => "waited",
        Cause::Pushed => "pushed",
        Cause::Changed => "changed",
    }
}

/// What became of a frame, as a word.
fn handing_word(handing: Handing) -> &'static str {
    match handing {
        Handing::Waiting => "waiting",
        Handing::Handed(..) => "handed",
        Handing::Dropped => "dropped",
        Handing::Cleared => "cleared",
    }
}

/// What became of a block, as a word.
fn fate_word(fate: Fate) -> &'static str {
    match fate {
        Fate::Came(_) => "came",
        Fate::Late(_) => "late",
        Fate::Refused(..) => "refused",
        Fate::Ignored(..) => "ignored",
        Fate::Nothing => "nothing",
        Fate::NotGranted => "not-granted",
        Fate::NotAnnounced => "not-announced",
    }
}

/// What became of a block, as text.
fn fate_text(alloc: Global, fate: Fate, time: u64) -> Result<String, AllocError> {
    let word = fate_word(fate);
    match fate {
        Fate::Came(at) => after(alloc, at, time),
        Fate::Late(at) => {
            let came = after(alloc, at, time)?;
            format!(in alloc; "filler, {word} {}", came.as_str())
        }
        Fate::Refused(at, refusal) | Fate::Ignored(at, refusal) => {
            let came = after(alloc, at, time)?;
            format!(in alloc; "filler, {word} {} {}", refusal.name(), came.as_str())
        }
        Fate::Nothing => format!(in alloc; "filler, nothing came"),
        Fate::NotGranted | Fate::NotAnnounced => format!(in alloc; "absent, {word}"),
    }
}

//! The screen of `watch`: plain ANSI sequences, which move the cursor up and wipe the rest of a line, and nothing that would
//! have to be undone.

use crate::lines::{FrameTime, NO_PMU};
use crate::reading::{Quality, Reading, Status, shown};
use crate::target::Target;
use crate::watcher::{Tally, Violation};
use pg_config::{PmuConfig, SourceConfig};
use pg_data::DataFrame;
use std::alloc::{AllocError, Global};
use std::fmt;

/// The columns of the screen that are used.
const COLUMNS: usize = 79;

/// The lines of the screen that are used at most.
const LINES: usize = 23;

/// The seconds that a plot shows.
const SECONDS: usize = 60;

/// The least difference of frequencies that fills a plot, in millihertz.
const LEAST_RANGE: i32 = 8;

/// Eighths of a cell.
const BLOCKS: [char; 9] = [' ', '▁', '▂', '▃', '▄', '▅', '▆', '▇', '█'];

/// The frequencies of one PMU in the last minute, in millihertz, a value a second.
#[derive(Drop)]
pub struct History {
    values: Vec<Option<i32>>,
}

impl History {
    /// No values yet.
    pub fn new(alloc: Global) -> History {
        History {
            values: Vec::new(alloc),
        }
    }

    /// Adds the value of a second, or that there is none.
    pub fn push(&mut self, value: Option<i32>) -> Result<(), AllocError> {
        if self.values.len() >= SECONDS {
            self.values.remove(0);
        }
        self.values.push(value)?;
        Ok(())
    }

    /// The least and the greatest value, with some room between them.
    fn range(&self) -> (i32, i32) {
        let mut least = i32::MAX;
        let mut most = i32::MIN;
        for value in self.values.iter() {
            if let Some(value) = value {
                least = least.min(*value);
                most = most.max(*value);
            }
        }
        if least > most {
            return (0, LEAST_RANGE);
        }
        let lack = LEAST_RANGE
            .saturating_sub(most.saturating_sub(least))
            .max(0);
        (
            least.saturating_sub(lack / 2),
            most.saturating_add(lack - lack / 2),
        )
    }

    /// Row `row` of a plot of so many rows, the lowest one 0: a cell for each second.
    fn write_row(&self, out: &mut String, row: i64, rows: i64) -> Result<(), AllocError> {
        let (least, most) = self.range();
        let span = i64::from(most).saturating_sub(i64::from(least)).max(1);
        for value in self.values.iter() {
            let filled = match value {
                Some(value) => {
                    let above = i64::from(*value).saturating_sub(i64::from(least));
                    filled_of(above, span, row, rows)
                }
                None => 0,
            };
            out.push(BLOCKS.get(filled).copied().unwrap_or(' '))?;
        }
        Ok(())
    }
}

/// How many eighths of its cell in a row are filled, for a value so far above the least one.
fn filled_of(above: i64, span: i64, row: i64, rows: i64) -> usize {
    let level = above
        .saturating_mul(rows.saturating_mul(8).saturating_sub(1))
        .checked_div(span)
        .unwrap_or(0)
        .saturating_add(1)
        .saturating_sub(row.saturating_mul(8));
    usize::try_from(level).unwrap_or(0).min(8)
}

/// What a screen shows.
#[derive(Drop)]
pub struct View<'a> {
    /// The address of the gateway or source.
    pub address: Target<'a>,
    /// The stream's IDCODE.
    pub stream: u16,
    /// The frames of the last second.
    pub measured: u64,
    /// What was counted.
    pub tally: Tally,
    /// The header's text.
    pub header: &'a [u8],
    /// The configuration, if it is known.
    pub config: Option<&'a SourceConfig>,
    /// Whether the last configuration had no PMU.
    pub has_no_pmu: bool,
    /// The latest data frame.
    pub frame: Option<&'a DataFrame>,
    /// The last minute of each PMU.
    pub histories: &'a [History],
    /// How many milliseconds behind its stamp that frame came.
    pub delay: Option<i64>,
    /// What was wrong last.
    pub trouble: Option<Violation>,
    /// What stands below it all.
    pub notes: &'a str,
}

/// What stands on the terminal before a screen is drawn.
#[derive(Clone, Copy)]
pub struct LastScreen {
    /// The lines of the last screen.
    pub lines: usize,
    /// How many lines were typed below it; `None` where no lines are read.
    pub typed: Option<usize>,
}

/// The lines of a screen, as they are made.
#[derive(Drop)]
struct Page {
    text: String,
    line: String,
    lines: usize,
    /// The lines that it has at most.
    most: usize,
}

impl Page {
    /// Ends the line that is written, cut to the columns; the rest of it is wiped. Past the last line nothing is added.
    fn end_line(&mut self) -> Result<(), AllocError> {
        if self.lines < self.most {
            for letter in self.line.chars().take(COLUMNS) {
                self.text.push(letter)?;
            }
            self.text.push_str("\x1b[K\n")?;
            self.lines = self.lines.saturating_add(1);
        }
        self.line.clear();
        Ok(())
    }
}

/// The text that draws a screen over the last one, and how many lines it has. The cursor stands in the line below it, so that
/// whatever ends the program leaves the terminal as it was. Where lines are read, that one is left as it is while it is typed.
pub fn draw(
    alloc: Global,
    view: &View<'_>,
    before: LastScreen,
) -> Result<(String, usize), AllocError> {
    let mut page = Page {
        text: String::new(alloc),
        line: String::new(alloc),
        lines: 0,
        most: LINES.saturating_sub(view.notes.lines().count()),
    };
    draw_head(&mut page, view)?;
    if let Some(frame) = view.frame {
        draw_pmus(&mut page, view, frame)?;
    }
    page.most = LINES;
    for note in view.notes.lines() {
        page.line.push_str(note)?;
        page.end_line()?;
    }
    let Page { text, lines, .. } = page;
    Ok((over(alloc, &text, lines, before)?, lines))
}

/// The text that draws these lines over what stands there.
fn over(
    alloc: Global,
    lines_text: &String,
    lines: usize,
    before: LastScreen,
) -> Result<String, AllocError> {
    let keeps_input = before.typed == Some(0) && before.lines == lines;
    let mut text = String::new(alloc);
    if keeps_input {
        text.push_str("\x1b7")?;
    }
    let up = before.lines.saturating_add(before.typed.unwrap_or(0));
    if up > 0 {
        write!(text, "\x1b[{up}A\r")?;
    }
    text.push_str(lines_text)?;
    // What is left of a longer screen, or was typed.
    text.push_str(if keeps_input { "\x1b8" } else { "\x1b[J" })?;
    Ok(text)
}

/// The head: address, stream, time and counts.
fn draw_head(page: &mut Page, view: &View<'_>) -> Result<(), AllocError> {
    draw_time(page, view)?;
    draw_counts(page, view)?;
    for byte in view.header.iter().take(COLUMNS) {
        page.line.push(shown(*byte))?;
    }
    page.end_line()?;
    if let Some(trouble) = view.trouble {
        write!(page.line, "last trouble: {trouble}")?;
    }
    page.end_line()
}

/// The line of the address, the stream, and the time of the last frame.
fn draw_time(page: &mut Page, view: &View<'_>) -> Result<(), AllocError> {
    write!(page.line, "{}  stream {}  ", view.address, view.stream)?;
    if view.has_no_pmu {
        page.line.push_str(NO_PMU)?;
    } else if let Some(frame) = view.frame {
        let (time, quality) = (FrameTime::of(frame), Quality(frame.quality));
        write!(page.line, "{time}  {quality}")?;
        if let Some(delay) = view.delay {
            write!(page.line, "  {delay} ms behind")?;
        }
    }
    page.end_line()
}

/// The line of the rates and the counts.
fn draw_counts(page: &mut Page, view: &View<'_>) -> Result<(), AllocError> {
    match view.config.and_then(|config| config.parts.first()) {
        Some(part) => write!(page.line, "rate {} configured, ", part.rate)?,
        None => page.line.push_str("rate unknown, ")?,
    }
    write!(page.line, "{} measured", view.measured)?;
    for (word, count) in [
        ("frames", view.tally.frames),
        ("missing", view.tally.missing),
        ("fillers", view.tally.fillers),
        ("troubles", view.tally.troubles),
    ] {
        write!(page.line, "  {word} {count}")?;
    }
    page.end_line()
}

/// The PMUs of a frame, as far as there are lines for whole ones; of the first one as much as there is room for. Where that is
/// not all, the last line says so.
fn draw_pmus(page: &mut Page, view: &View<'_>, frame: &DataFrame) -> Result<(), AllocError> {
    let count = frame.count();
    let rows = if count == 1 { 4 } else { 1 };
    for (i, part) in frame.config.parts.iter().enumerate() {
        if i >= count {
            return Ok(());
        }
        // A line is kept to tell of those that do not fit.
        let kept = if i.saturating_add(1) < count { 1 } else { 0 };
        let phasor_lines = usize::from(part.phasors).div_ceil(2);
        let needed = (2 + usize::from(rows) + kept).saturating_add(phasor_lines);
        let fits = needed <= page.most.saturating_sub(page.lines);
        if fits || i == 0 {
            let reading = Reading::new(part, frame.block(i));
            page.most = page.most.saturating_sub(usize::from(!fits));
            draw_pmu(page, part, &reading, view.histories.get(i), rows)?;
            page.most = page.most.saturating_add(usize::from(!fits));
        }
        if !fits {
            page.line
                .push_str("there is no room for more here; --csv has all of it")?;
            return page.end_line();
        }
    }
    Ok(())
}

/// One PMU: its name and state, the last minute of its frequency, its channels.
fn draw_pmu(
    page: &mut Page,
    part: &PmuConfig,
    reading: &Reading<'_>,
    history: Option<&History>,
    rows: u8,
) -> Result<(), AllocError> {
    let station = reading.station();
    let status = Status(reading.stat());
    write!(page.line, "{station}  {status}  ")?;
    match reading.millihertz() {
        Some(millihertz) => {
            let hertz = f64::from(millihertz) / 1_000.0;
            write!(page.line, "{hertz:.3} Hz  ")?;
        }
        None => write!(page.line, "frequency absent  ")?,
    }
    if let Some(change) = reading.change() {
        let change = f64::from(change) / 100.0;
        write!(page.line, "{change:.2} Hz/s")?;
    }
    page.end_line()?;
    if let Some(history) = history {
        draw_history(page, history, rows)?;
    }
    draw_phasors(page, reading, usize::from(part.phasors))?;
    draw_others(
        page,
        reading,
        usize::from(part.phasors),
        usize::from(part.analogs),
        usize::from(part.digitals),
    )
}

/// The plot of a history, with so many rows, its greatest value at the top and its least one at the bottom.
fn draw_history(page: &mut Page, history: &History, rows: u8) -> Result<(), AllocError> {
    let (least, most) = history.range();
    for down in 0..rows {
        let row = rows - 1 - down;
        if down == 0 {
            write_hertz(&mut page.line, most)?;
        } else if row == 0 {
            write_hertz(&mut page.line, least)?;
        } else {
            page.line.push_str("         ")?;
        }
        history.write_row(&mut page.line, i64::from(row), i64::from(rows))?;
        page.end_line()?;
    }
    Ok(())
}

/// A frequency in mHz, left of a plot.
fn write_hertz(line: &mut String, millihertz: i32) -> Result<(), AllocError> {
    let hertz = f64::from(millihertz) / 1_000.0;
    write!(line, "  {hertz:.3} ")
}

/// The phasors, two in a line.
fn draw_phasors(page: &mut Page, reading: &Reading<'_>, phasors: usize) -> Result<(), AllocError> {
    for k in 0..phasors {
        let name = Padded(reading.channel(k));
        match reading.phasor(k) {
            Some(phasor) => {
                let degrees = phasor.degrees;
                if phasor.is_current {
                    let amperes = phasor.magnitude;
                    write!(page.line, "  {name} {amperes:9.1} A {degrees:7.2}°")?;
                } else {
                    let kilovolts = phasor.magnitude / 1_000.0;
                    write!(page.line, "  {name} {kilovolts:8.3} kV {degrees:7.2}°")?;
                }
            }
            None => write!(page.line, "  {name}    absent         ")?,
        }
        if k % 2 == 1 || k + 1 == phasors {
            page.end_line()?;
        }
    }
    Ok(())
}

/// Analog values and digital words.
fn draw_others(
    page: &mut Page,
    reading: &Reading<'_>,
    phasors: usize,
    analogs: usize,
    digitals: usize,
) -> Result<(), AllocError> {
    for k in 0..analogs {
        let name = reading.channel(phasors.saturating_add(k));
        match reading.analog(k) {
            Some(value) => write!(page.line, "  {name} {value}")?,
            None => write!(page.line, "  {name} absent")?,
        }
    }
    for k in 0..digitals {
        let word = reading.digital(k);
        write!(page.line, "  digital {k}: {word:04X}")?;
    }
    page.end_line()
}

/// A name with spaces behind it, of sixteen letters.
#[derive(Clone, Copy)]
struct Padded(crate::reading::Name);

impl fmt::Display for Padded {
    fn fmt<W: fmt::Write>(&self, f: &mut fmt::Formatter<W>) -> fmt::Result {
        let name = self.0;
        write!(f, "{name}")?;
        for _ in name.len()..16 {
            f.write_str(" ")?;
        }
        Ok(())
    }
}

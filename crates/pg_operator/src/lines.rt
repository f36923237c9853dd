//! The lines of the tables and keys of a setup file, found in one pass over its text. The text is TOML, so its values are passed over by
//! their strings and brackets alone.

ghost use Rattle.std.specs.Prelude.{◌≡◌, IfErr};

use pg_wire::Refusal;
use std::alloc::Global;

/// A table of a setup file. Tables of a list are counted from 0, in the order of the file.
#[derive(Clone, Copy, PartialEq, Eq)]
pub enum SetupTable {
    /// The file itself.
    File,
    /// The table `[[pmu]]` with this number.
    Pmu(usize),
    /// The table `[[subscriber]]` with this number.
    Subscriber(usize),
    /// Of the subscriber with the first number, the table `[[subscriber.stream]]` with the second.
    Stream(usize, usize),
}

impl SetupTable {
    /// What stands before the names of its keys, for a person.
    pub(crate) fn prefix(self) -> &'static str {
        match self {
            SetupTable::File => "",
            SetupTable::Pmu(_) => "pmu.",
            SetupTable::Subscriber(_) => "subscriber.",
            SetupTable::Stream(..) => "subscriber.stream.",
        }
    }

    /// The table and the key that a table in a value, as `pmu = [{ id = 7 }]`, stands in.
    fn holder(self) -> (SetupTable, &'static str) {
        match self {
            SetupTable::File | SetupTable::Pmu(_) => (SetupTable::File, "pmu"),
            SetupTable::Subscriber(_) => (SetupTable::File, "subscriber"),
            SetupTable::Stream(number, _) => (SetupTable::Subscriber(number), "stream"),
        }
    }
}

/// A key and its line. Tables are counted in the order of their headings, the file itself is 0.
#[derive(Clone, Copy)]
struct KeyLine<'a> {
    table: usize,
    name: &'a str,
    line: usize,
}

/// A subscriber's table, and how many streams are before its own.
#[derive(Clone, Copy)]
struct SubscriberLines {
    table: usize,
    streams: usize,
}

/// The lines of the tables and keys of a setup file.
#[derive(Drop)]
pub struct SetupLines<'a> {
    // The line of each table's heading.
    tables: Vec<usize>,
    // By table and name.
    keys: Vec<KeyLine<'a>>,
    pmus: Vec<usize>,
    subscribers: Vec<SubscriberLines>,
    streams: Vec<usize>,
    // The table whose keys are read, if it is one of a setup.
    current: Option<usize>,
}

impl<'a> SetupLines<'a> {
    /// The lines of a text, which is TOML (of another text, any lines).
    ///
    /// # Errors
    ///
    /// `NoMemory`.
    pub fn of(alloc: Global, text: &'a str) -> Result<SetupLines<'a>, Refusal>
        ensures memory { IfErr result (λ refusal. refusal ≡ Refusal.NoMemory) }
    {
        let mut lines = SetupLines {
            tables: Vec::new(alloc),
            keys: Vec::new(alloc),
            pmus: Vec::new(alloc),
            subscribers: Vec::new(alloc),
            streams: Vec::new(alloc),
            current: Some(0),
        };
        lines.read_text(text)?;
        Ok(lines)
    }

    /// Reads the lines of a file.
    fn read_text(&mut self, text: &'a str) -> Result<(), Refusal>
        ensures memory { IfErr result (λ refusal. refusal ≡ Refusal.NoMemory) }
    {
        self.tables.push(1)?;
        let mut passed = Passed::START;
        for (number, line) in text.split('\n').enumerate() {
            if passed == Passed::START {
                self.read_line(line, number.saturating_add(1))?;
            }
            passed = passed.line(line);
        }
        self.keys.sort_by_key(|key| (key.table, key.name))?;
        Ok(())
    }

    /// The line, from 1, of a key of a table. Where the key is not there it is that of the table's heading, or of the value that
    /// the table stands in.
    pub fn line_of(&self, table: SetupTable, key: &str) -> usize {
        let (table, key) = self.headed(table, key);
        let (table, key) = self.headed(table, key);
        let number = self.number_of(table).unwrap_or(0);
        match self.line_in(number, key) {
            Some(line) => line,
            None => self.tables.get(number).copied().unwrap_or(1),
        }
    }

    /// The table and the key, or those of the value that the table stands in, where it has no heading.
    fn headed<'k>(&self, table: SetupTable, key: &'k str) -> (SetupTable, &'k str) {
        match self.number_of(table) {
            Some(_) => (table, key),
            None => table.holder(),
        }
    }

    /// Which table it is in the order of the headings, if it has one.
    fn number_of(&self, table: SetupTable) -> Option<usize> {
        match table {
            SetupTable::File => Some(0),
            SetupTable::Pmu(number) => self.pmus.get(number).copied(),
            SetupTable::Subscriber(number) => Some(self.subscribers.get(number)?.table),
            SetupTable::Stream(number, stream) => {
                let first = self.subscribers.get(number)?.streams;
                let place = first.saturating_add(stream);
                let end = match self.subscribers.get(number.saturating_add(1)) {
                    Some(next) => next.streams,
                    None => self.streams.len(),
                };
                if place < end {
                    self.streams.get(place).copied()
                } else {
                    None
                }
            }
        }
    }

    /// The first line of a key of the table with this number.
    fn line_in(&self, table: usize, name: &str) -> Option<usize> {
        let place = self
            .keys
            .partition_point(|key| (key.table, key.name) < (table, name));
        match self.keys.get(place) {
            Some(key) if key.table == table && key.name == name => Some(key.line),
            _ => None,
        }
    }

    /// Reads a line that begins with a key, a heading or neither.
    fn read_line(&mut self, text: &'a str, line: usize) -> Result<(), Refusal>
        ensures memory { IfErr result (λ refusal. refusal ≡ Refusal.NoMemory) }
    {
        let text = text.strip_prefix('\u{feff}').unwrap_or(text).trim_start();
        if text.is_empty() || text.starts_with('#') {
            return Ok(());
        }
        let Some(heading) = text.strip_prefix('[') else {
            return self.add_key(self.current, name_of(text), line);
        };
        match heading.strip_prefix('[') {
            Some(names) => self.read_heading(names, true, line),
            None => self.read_heading(heading, false, line),
        }
    }

    /// Adds a key of this table, where there are both.
    fn add_key(
        &mut self,
        table: Option<usize>,
        name: Option<(&'a str, &'a str)>,
        line: usize,
    ) -> Result<(), Refusal>
        ensures memory { IfErr result (λ refusal. refusal ≡ Refusal.NoMemory) }
    {
        if let (Some(table), Some((name, _))) = (table, name) {
            self.keys.push(KeyLine { table, name, line })?;
        }
        Ok(())
    }

    /// Reads a heading of these names, of a list or of a table alone. Each name is a key of the table that the names before it say.
    fn read_heading(&mut self, names: &'a str, is_list: bool, line: usize) -> Result<(), Refusal>
        ensures memory { IfErr result (λ refusal. refusal ≡ Refusal.NoMemory) }
    {
        let outer = name_of(names);
        let inner = name_behind(outer);
        let innermost = name_behind(inner);
        self.add_key(Some(0), outer, line)?;
        let table = self.last_of(outer);
        self.add_key(table, inner, line)?;
        let stream = match inner {
            Some(("stream", _)) if table.is_some() => self.last_stream(),
            _ => None,
        };
        self.add_key(stream, innermost, line)?;
        self.current = None;
        if is_list {
            match (outer, inner, innermost) {
                (Some((name, _)), None, None) => self.add_table(name, line)?,
                (Some(("subscriber", _)), Some(("stream", _)), None) => {
                    self.add_table("stream", line)?;
                }
                _ => {}
            }
        }
        Ok(())
    }

    /// The last table of the list of this name.
    fn last_of(&self, name: Option<(&str, &str)>) -> Option<usize> {
        match name {
            Some(("pmu", _)) => self.pmus.last().copied(),
            Some(("subscriber", _)) => Some(self.subscribers.last()?.table),
            _ => None,
        }
    }

    /// The last stream of the last subscriber.
    fn last_stream(&self) -> Option<usize> {
        let own = self.subscribers.last()?.streams;
        if own < self.streams.len() {
            self.streams.last().copied()
        } else {
            None
        }
    }

    /// Adds a table of the list of this name, if it is a list of a setup. The keys that follow are its own.
    fn add_table(&mut self, name: &str, line: usize) -> Result<(), Refusal>
        ensures memory { IfErr result (λ refusal. refusal ≡ Refusal.NoMemory) }
    {
        let table = self.tables.len();
        let streams = self.streams.len();
        match name {
            "pmu" => self.pmus.push(table)?,
            "subscriber" => self.subscribers.push(SubscriberLines { table, streams })?,
            "stream" => self.streams.push(table)?,
            _ => return Ok(()),
        }
        self.tables.push(line)?;
        self.current = Some(table);
        Ok(())
    }
}

/// The first name of a dotted key, and what is behind it. A name in quotes is given as it is written.
fn name_of(text: &str) -> Option<(&str, &str)> {
    let text = text.trim_start();
    if let Some(rest) = text.strip_prefix('\'') {
        return rest.split_once('\'');
    }
    if let Some(rest) = text.strip_prefix('"') {
        let end = end_of_quoted(rest)?;
        return Some((rest.get(..end)?, rest.get(end.saturating_add(1)..)?));
    }
    let end = text.bytes().position(|byte| !is_bare(byte));
    let end = end.unwrap_or(text.len());
    Some((text.get(..end)?, text.get(end..)?))
}

/// The name behind this one and a dot.
fn name_behind<'a>(name: Option<(&'a str, &'a str)>) -> Option<(&'a str, &'a str)> {
    let (_, rest) = name?;
    name_of(rest.trim_start().strip_prefix('.')?)
}

/// Whether a name without quotes may have this byte.
fn is_bare(byte: u8) -> bool {
    byte.is_ascii_alphanumeric() || byte == b'-' || byte == b'_'
}

/// Where the quote is that ends a name.
fn end_of_quoted(text: &str) -> Option<usize> {
    let mut is_escaped = false;
    for (place, byte) in text.bytes().enumerate() {
        if byte == b'"' && !is_escaped {
            return Some(place);
        }
        is_escaped = byte == b'\\' && !is_escaped;
    }
    None
}

/// What a part of a text was passed over to: how many brackets are open, and whether a string or a comment is.
#[derive(Clone, Copy, PartialEq, Eq)]
struct Passed {
    brackets: usize,
    within: Within,
}

/// What a byte is in.
#[derive(Clone, Copy, PartialEq, Eq)]
enum Within {
    /// Neither a string nor a comment.
    Neither,
    Comment,
    /// Behind the first of these quotes.
    First(u8),
    /// Behind two of these quotes.
    Second(u8),
    /// A string of one line between these quotes.
    Short(u8),
    /// The same, behind a backslash.
    ShortEscape,
    /// A string of several lines between these quotes, behind so many of them in a row.
    Long(u8, u8),
    /// The same, behind a backslash.
    LongEscape,
}

impl Passed {
    /// The begin of a text, and of each line that begins with a key or a heading.
    const START: Passed = Passed {
        brackets: 0,
        within: Within::Neither,
    };

    /// After a line, with its end.
    fn line(self, line: &str) -> Passed {
        let mut passed = self;
        for byte in line.bytes() {
            passed = passed.byte(byte);
        }
        passed.byte(b'\n')
    }

    /// After a byte.
    fn byte(self, byte: u8) -> Passed {
        match self.within.byte(byte) {
            Some(within) => Passed { within, ..self },
            None => self.plain(byte),
        }
    }

    /// After a byte that is in no string or comment.
    fn plain(self, byte: u8) -> Passed {
        let brackets = match byte {
            b'[' | b'{' => self.brackets.saturating_add(1),
            b']' | b'}' => self.brackets.saturating_sub(1),
            _ => self.brackets,
        };
        let within = match byte {
            b'#' => Within::Comment,
            b'"' | b'\'' => Within::First(byte),
            _ => Within::Neither,
        };
        Passed { brackets, within }
    }
}

impl Within {
    /// The string or comment after a byte, `None` where the byte is in neither.
    fn byte(self, byte: u8) -> Option<Within> {
        match self {
            Within::Comment if byte != b'\n' => Some(Within::Comment),
            Within::First(quote) if byte == quote => Some(Within::Second(quote)),
            Within::First(quote) => Some(short(quote, byte)),
            Within::Second(quote) if byte == quote => Some(Within::Long(quote, 0)),
            Within::Short(quote) => Some(short(quote, byte)),
            Within::ShortEscape => Some(Within::Short(b'"')),
            Within::Long(quote, count) => long(quote, count, byte),
            Within::LongEscape => Some(Within::Long(b'"', 0)),
            Within::Neither | Within::Comment | Within::Second(_) => None,
        }
    }
}

/// After a byte of a string of one line.
fn short(quote: u8, byte: u8) -> Within {
    if byte == quote {
        Within::Neither
    } else if byte == b'\\' && quote == b'"' {
        Within::ShortEscape
    } else {
        Within::Short(quote)
    }
}

/// After a byte of a string of several lines, which ends behind three quotes or more.
fn long(quote: u8, count: u8, byte: u8) -> Option<Within> {
    if byte == quote {
        Some(Within::Long(quote, count.saturating_add(1)))
    } else if count >= 3 {
        None
    } else if byte == b'\\' && quote == b'"' {
        Some(Within::LongEscape)
    } else {
        Some(Within::Long(quote, 0))
    }
}

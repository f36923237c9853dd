//! What is wrong with a setup file, for a person: each fault with its line.

ghost use Rattle.std.specs.Prelude.{◌≡◌, IfErr};

use crate::keys::{Absent, SetupKey};
use crate::kind::{Heading, Kind, Misfit};
use crate::lines::{SetupLines, SetupTable};
use crate::pmu::{PmuTable, pmu_in};
use pg_wire::{PmuId, Refusal};
use std::alloc::Global;
use std::collections::BTreeMap;
use std::fmt;
use thiserror::Error;
use toml::{Table, Value};

/// A fault of a setup file. It is printed as `LINE: KEY: what is wrong; what would be right`.
#[derive(Debug, Drop, Error)]
#[error(fmt = write_fault)]
pub struct Fault {
    /// The line where it stands, from 1: that of the key, or of the table where a key is missing.
    pub line: usize,
    /// The key behind the tables that it stands in, as `subscriber.stream.rate`; empty where the text is not TOML.
    pub key: String,
    /// What is wrong.
    pub wrong: Wrong,
}

/// What is wrong with a setup file.
#[derive(Debug, Drop, Error)]
pub enum Wrong {
    /// The text is not TOML, for what the reader of TOML says.
    #[error("{0}; a setup file is TOML")]
    Syntax(String),
    /// A table of this kind has no such key.
    #[error(fmt = write_unknown)]
    Unknown(Heading),
    /// The key has to be there, with such a value.
    #[error("is missing; it has to be {0}")]
    Missing(Kind),
    /// The value is another than such a one.
    #[error("{0}; it has to be {1}")]
    Is(Misfit, Kind),
    /// Another table of this source gives its address too.
    #[error("is given twice for source {}; only one of its tables may have it", .0.get())]
    Twice(PmuId),
    /// Another table of this source says otherwise.
    #[error("differs from another table of source {}; all its tables have to agree", .0.get())]
    Differs(PmuId),
}

/// The fault's line, its key if there is one, and what is wrong.
fn write_fault<W: fmt::Write>(
    line: &usize,
    key: &String,
    wrong: &Wrong,
    f: &mut fmt::Formatter<W>,
) -> fmt::Result {
    write!(f, "{line}: ")?;
    if !key.is_empty() {
        write!(f, "{key}: ")?;
    }
    write!(f, "{wrong}")
}

/// The keys that are right in such a table.
fn write_unknown<W: fmt::Write>(heading: &Heading, f: &mut fmt::Formatter<W>) -> fmt::Result {
    f.write_str("unknown key; known keys: ")?;
    write_names(f, keys_of(*heading))
}

static FILE_KEYS: [SetupKey; 12] = SetupKey::FILE_KEYS;

static PMU_KEYS: [SetupKey; 7] = SetupKey::PMU_KEYS;

static SUBSCRIBER_KEYS: [SetupKey; 12] = SetupKey::SUBSCRIBER_KEYS;

static STREAM_KEYS: [SetupKey; 7] = SetupKey::STREAM_KEYS;

/// The keys of such a table.
fn keys_of(heading: Heading) -> &'static [SetupKey] {
    match heading {
        Heading::File => &FILE_KEYS,
        Heading::Pmu => &PMU_KEYS,
        Heading::Subscriber => &SUBSCRIBER_KEYS,
        Heading::Stream => &STREAM_KEYS,
    }
}

/// The names of keys, parted by commas.
fn write_names<W: fmt::Write>(f: &mut fmt::Formatter<W>, keys: &[SetupKey]) -> fmt::Result {
    let mut is_first = true;
    for key in keys {
        if !is_first {
            f.write_str(", ")?;
        }
        is_first = false;
        f.write_str(key.name)?;
    }
    Ok(())
}

/// What is wrong with a setup file: each fault, in the order of their lines. Where `read_setup` takes the text they are the
/// numbers of streams that are beyond a definition's ranges, which the gateway refuses. The time that it takes grows with the length of
/// the text.
///
/// # Errors
///
/// `NoMemory`.
pub fn setup_faults(alloc: Global, text: &str) -> Result<Vec<Fault>, Refusal>
    ensures memory { IfErr result (λ refusal. refusal ≡ Refusal.NoMemory) }
{
    let table = match toml::table_from_str(alloc, text) {
        Ok(table) => table,
        Err(error) => return syntax_fault(alloc, text, &error),
    };
    let mut search = Search {
        alloc,
        lines: SetupLines::of(alloc, text)?,
        faults: Vec::new(alloc),
    };
    search.look_at(&table)?;
    let mut faults = search.faults;
    faults.sort_by_key(|fault| fault.line)?;
    Ok(faults)
}

/// The text is not TOML.
fn syntax_fault(alloc: Global, text: &str, error: &toml::de::Error) -> Result<Vec<Fault>, Refusal>
    ensures memory { IfErr result (λ refusal. refusal ≡ Refusal.NoMemory) }
{
    let Some(span) = error.span() else {
        return Err(Refusal::NoMemory);
    };
    let mut line = 1usize;
    for (place, byte) in text.bytes().enumerate() {
        if place < span.start && byte == b'\n' {
            line = line.saturating_add(1);
        }
    }
    let message = String::from_str(alloc, error.message())?;
    let mut faults = Vec::new(alloc);
    faults.push(Fault {
        line,
        key: String::new(alloc),
        wrong: Wrong::Syntax(message),
    })?;
    Ok(faults)
}

/// A search for faults.
#[derive(Drop)]
struct Search<'a> {
    alloc: Global,
    lines: SetupLines<'a>,
    faults: Vec<Fault>,
}

impl Search<'_> {
    /// Something is wrong with a key of this table.
    fn tell(&mut self, table: SetupTable, key: &str, wrong: Wrong) -> Result<(), Refusal>
        ensures memory { IfErr result (λ refusal. refusal ≡ Refusal.NoMemory) }
    {
        let mut name = String::from_str(self.alloc, table.prefix())?;
        name.push_str(key)?;
        self.faults.push(Fault {
            line: self.lines.line_of(table, key),
            key: name,
            wrong,
        })?;
        Ok(())
    }

    /// Looks at the file's table.
    fn look_at(&mut self, table: &Table) -> Result<(), Refusal>
        ensures memory { IfErr result (λ refusal. refusal ≡ Refusal.NoMemory) }
    {
        let place = SetupTable::File;
        self.look_at_keys(table, Heading::File, place)?;
        self.look_at_pmus(tables_at(table, &SetupKey::PMU))?;
        let subscribers = tables_at(table, &SetupKey::SUBSCRIBER);
        for (number, item) in subscribers.iter().enumerate() {
            if let Some(subscriber) = item.as_table() {
                self.look_at_subscriber(subscriber, number)?;
            }
        }
        Ok(())
    }

    /// Looks at the table of the subscriber with this number, and at those of its streams.
    fn look_at_subscriber(&mut self, table: &Table, number: usize) -> Result<(), Refusal>
        ensures memory { IfErr result (λ refusal. refusal ≡ Refusal.NoMemory) }
    {
        let place = SetupTable::Subscriber(number);
        self.look_at_keys(table, Heading::Subscriber, place)?;
        let streams = tables_at(table, &SetupKey::STREAM);
        for (stream, item) in streams.iter().enumerate() {
            if let Some(table) = item.as_table() {
                let place = SetupTable::Stream(number, stream);
                self.look_at_keys(table, Heading::Stream, place)?;
            }
        }
        Ok(())
    }

    /// Looks at the tables of the PMUs, and at what those of one source say together.
    fn look_at_pmus(&mut self, items: &[Value]) -> Result<(), Refusal>
        ensures memory { IfErr result (λ refusal. refusal ≡ Refusal.NoMemory) }
    {
        let mut sources = BTreeMap::new(self.alloc);
        for (number, item) in items.iter().enumerate() {
            if let Some(table) = item.as_table() {
                let place = SetupTable::Pmu(number);
                self.look_at_keys(table, Heading::Pmu, place)?;
            }
            if let Some(pmu) = pmu_in(item) {
                let own = Said::by(&pmu);
                self.look_at_source(&mut sources, number, pmu.key.source, own)?;
            }
        }
        Ok(())
    }

    /// Looks at what the PMU's table with this number says of its source, after what the tables before it say.
    fn look_at_source(
        &mut self,
        sources: &mut BTreeMap<u16, Said>,
        number: usize,
        source: PmuId,
        own: Said,
    ) -> Result<(), Refusal>
        ensures memory { IfErr result (λ refusal. refusal ≡ Refusal.NoMemory) }
    {
        let place = SetupTable::Pmu(number);
        let before = sources.get(&source.get()).copied().unwrap_or(Said::NOTHING);
        if before.is_called && own.is_called {
            self.tell(place, SetupKey::CONNECT.name, Wrong::Twice(source))?;
        }
        if before.prefers_otherwise(own) {
            self.tell(place, SetupKey::PREFER_FIRST.name, Wrong::Differs(source))?;
        }
        if differ(before.silence, own.silence) {
            self.tell(place, SetupKey::SILENCE.name, Wrong::Differs(source))?;
        }
        if differ(before.clock_ms, own.clock_ms) {
            self.tell(place, SetupKey::CLOCK_MS.name, Wrong::Differs(source))?;
        }
        if differ(before.ahead_ms, own.ahead_ms) {
            self.tell(place, SetupKey::AHEAD_MS.name, Wrong::Differs(source))?;
        }
        sources.insert(source.get(), before.and(own))?;
        Ok(())
    }

    /// Looks at the keys of a table: those that are no keys of it, those that are missing, and their values.
    fn look_at_keys(
        &mut self,
        table: &Table,
        heading: Heading,
        place: SetupTable,
    ) -> Result<(), Refusal>
        ensures memory { IfErr result (λ refusal. refusal ≡ Refusal.NoMemory) }
    {
        let keys = keys_of(heading);
        for key in table.keys() {
            if !keys.iter().any(|known| known.name == key.as_str()) {
                self.tell(place, key.as_str(), Wrong::Unknown(heading))?;
            }
        }
        for key in keys {
            match (table.get(key.name), key.absent) {
                (Some(value), _) => {
                    if let Some(misfit) = key.kind.misfit(self.alloc, value)? {
                        self.tell(place, key.name, Wrong::Is(misfit, key.kind))?;
                    }
                }
                (None, Absent::Required) => {
                    self.tell(place, key.name, Wrong::Missing(key.kind))?;
                }
                (None, _) => {}
            }
        }
        Ok(())
    }
}

/// What tables of PMUs say of their source, as far as two of them may not say it otherwise: the first value of each.
#[derive(Clone, Copy)]
struct Said {
    is_called: bool,
    prefer_first: Option<bool>,
    silence: Option<u16>,
    clock_ms: Option<u16>,
    ahead_ms: Option<u16>,
}

impl Said {
    const NOTHING: Said = Said {
        is_called: false,
        prefer_first: None,
        silence: None,
        clock_ms: None,
        ahead_ms: None,
    };

    /// What this table says.
    fn by(pmu: &PmuTable<'_>) -> Said {
        Said {
            is_called: pmu.connect.is_some(),
            prefer_first: pmu.prefer_first,
            silence: pmu.silence,
            clock_ms: pmu.clock_ms,
            ahead_ms: pmu.ahead_ms,
        }
    }

    /// Whether both say something of `prefer_first`, and not the same.
    fn prefers_otherwise(self, later: Said) -> bool {
        match (self.prefer_first, later.prefer_first) {
            (Some(one), Some(other)) => one != other,
            _ => false,
        }
    }

    /// What is said by both.
    fn and(self, later: Said) -> Said {
        Said {
            is_called: self.is_called || later.is_called,
            prefer_first: self.prefer_first.or(later.prefer_first),
            silence: self.silence.or(later.silence),
            clock_ms: self.clock_ms.or(later.clock_ms),
            ahead_ms: self.ahead_ms.or(later.ahead_ms),
        }
    }
}

/// Whether both say something, and not the same.
fn differ(one: Option<u16>, other: Option<u16>) -> bool {
    match (one, other) {
        (Some(one), Some(other)) => one != other,
        _ => false,
    }
}

/// The items of a list at a key; none where there is no such list.
fn tables_at<'a>(table: &'a Table, key: &SetupKey) -> &'a [Value] {
    match table.get(key.name) {
        Some(Value::Array(items)) => items.as_slice(),
        _ => &[],
    }
}

//! The line of a script that is an operator's edit.

use pg_gateway::Event;
use pg_stream::Definition;
use pg_wire::{PmuKey, SubId};
use std::alloc::Global;
use std::fmt;
use std::fmt::Display;

/// A PMU as a line has it: `SOURCE/PMU`.
#[derive(Clone, Copy)]
struct Key(PmuKey);

impl Display for Key {
    fn fmt<W: fmt::Write>(&self, f: &mut fmt::Formatter<W>) -> fmt::Result {
        let PmuKey { source, pmu } = self.0;
        write!(f, "{}/{}", source.get(), pmu.get())
    }
}

/// The words of a definition.
#[derive(Clone, Copy)]
struct Words<'a>(&'a Definition);

impl Display for Words<'_> {
    fn fmt<W: fmt::Write>(&self, f: &mut fmt::Formatter<W>) -> fmt::Result {
        let definition = self.0;
        let stream = definition.stream.get();
        let (rate, base) = (definition.rate, definition.base);
        let (wait, window) = (definition.wait, definition.window);
        write!(f, "{stream} {rate} {base} {wait} {window} ")?;
        let header = definition.header.as_slice();
        if header.is_empty() {
            write!(f, "none")?;
        }
        for byte in header {
            write!(f, "{byte:02x}")?;
        }
        for member in definition.members.as_slice() {
            write!(f, " {}", Key(*member))?;
        }
        Ok(())
    }
}

/// The line of an edit; `None` for any other event, and where there is no memory.
pub fn edit_line(alloc: Global, event: &Event) -> Option<String> {
    let mut line = String::new(alloc);
    let is_written = match event {
        Event::AddPmu(key) => write!(line, "addpmu {}", Key(*key)),
        Event::DropPmu(key) => write!(line, "droppmu {}", Key(*key)),
        Event::AddSub(sub, ring, bytes) => {
            write!(line, "addsub {} {} {}", sub.get(), ring.get(), bytes.get())
        }
        Event::DropSub(sub) => write!(line, "dropsub {}", sub.get()),
        Event::Grant(sub, key) => write!(line, "grant {} {}", sub.get(), Key(*key)),
        Event::Revoke(sub, key) => write!(line, "revoke {} {}", sub.get(), Key(*key)),
        Event::Define(sub, definition) => {
            write!(line, "define {} {}", sub.get(), Words(definition))
        }
        Event::Remove(sub, stream) => write!(line, "remove {} {}", sub.get(), stream.get()),
        _ => return None,
    };
    match is_written {
        Ok(()) => Some(line),
        Err(_) => None,
    }
}

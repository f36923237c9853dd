//! Edits as text.

use pg_gateway::Edit;
use pg_wire::{PmuKey, SubId};
use std::alloc::{AllocError, Global};

/// Words, and behind them a subscriber and a key, where there is one.
fn words(
    alloc: Global,
    before: &str,
    sub: Option<&SubId>,
    key: Option<&PmuKey>,
) -> Result<String, AllocError> {
    let mut text = String::from_str(alloc, before)?;
    if let Some(sub) = sub {
        text.push_str(&format!(in alloc; " {}", sub.get())?)?;
    }
    if let Some(key) = key {
        text.push_str(&format!(in alloc; " {}/{}", key.source.get(), key.pmu.get())?)?;
    }
    Ok(text)
}

/// An edit as its operator line, with each key as `S/P`, the limit in bytes, and an empty header as `none`. Err is want of memory.
pub fn edit_line(alloc: Global, edit: &Edit) -> Result<String, AllocError> {
    match edit {
        Edit::AddPmu(pmu) => words(alloc, "addpmu", None, Some(pmu)),
        Edit::DropPmu(pmu) => words(alloc, "droppmu", None, Some(pmu)),
        Edit::PmuStats(pmu) => words(alloc, "pmustats", None, Some(pmu)),
        Edit::AddSub(sub, ring, bytes) => {
            let text = words(alloc, "addsub", Some(sub), None)?;
            format!(in alloc; "{text} {} {}", ring.get(), bytes.get())
        }
        Edit::DropSub(sub) => words(alloc, "dropsub", Some(sub), None),
        Edit::Stats(sub) => words(alloc, "stats", Some(sub), None),
        Edit::Grant(sub, pmu) => words(alloc, "grant", Some(sub), Some(pmu)),
        Edit::Revoke(sub, pmu) => words(alloc, "revoke", Some(sub), Some(pmu)),
        Edit::Define(sub, made) => {
            let text = words(alloc, "define", Some(sub), None)?;
            let mut header = hex::encode_upper(alloc, made.header.as_slice())?;
            if header.is_empty() {
                header.push_str("none")?;
            }
            let (stream, rate, base) = (made.stream.get(), made.rate, made.base);
            let (wait, window) = (made.wait, made.window);
            let mut text = format!(in alloc;
                "{text} {stream} {rate} {base} {wait} {window} {header}"
            )?;
            for pmu in made.members.as_slice() {
                text = words(alloc, text.as_str(), None, Some(pmu))?;
            }
            Ok(text)
        }
        Edit::Remove(sub, stream) => {
            let text = words(alloc, "remove", Some(sub), None)?;
            format!(in alloc; "{text} {}", stream.get())
        }
        Edit::Audit(sub, index) => {
            let text = words(alloc, "audit", Some(sub), None)?;
            format!(in alloc; "{text} {index}")
        }
    }
}

//! A setup is read, and its edits are tried on a gateway of their own.

use crate::listing::{LISTED, Listing, others};
use crate::misfits::misfits_of;
use crate::places::Places;
use crate::report::{edit_name, reason, report_of};
use crate::warnings::warnings_of;
use pg_gateway::{Edit, Gate, Gateway, Reply};
use pg_operator::{Fault, SetupLines, SetupTable, Wrong, read_setup, setup_edits, setup_faults};
use pg_shared::event_of;
use pg_wire::Refusal;
use std::alloc::{AllocError, Global};
use thiserror::Error;

/// Why a setup can't run.
#[derive(Debug, Drop, Error)]
#[error("{told}")]
pub struct Trouble {
    /// The refusal that the program ends with.
    pub refusal: Refusal,
    /// What is printed, a line for each fault or refused edit; empty where memory ran out.
    pub told: String,
}

/// A setup that can run.
#[derive(Drop)]
pub struct Checked {
    /// What would run, a line for each source, subscriber and stream.
    pub report: String,
    /// A line `FILE:LINE: warning: ..` for each thing that is allowed and seldom meant.
    pub warnings: String,
}

/// A refusal of which no more is known.
fn bare(alloc: Global, refusal: Refusal) -> Trouble {
    Trouble {
        refusal,
        told: String::new(alloc),
    }
}

/// What would run by the setup of this text, and what in it is seldom meant. Nothing is bound or called. The time that it takes
/// to refuse a text grows with its length alone.
///
/// # Errors
///
/// `BadSetup` with a line `FILE:LINE: KEY: ..` for each of the first 100 faults; the refusal of the first edit that a new gateway refuses,
/// with a line `FILE:LINE: ..` for each of the first 100 of them; in both cases in the order of the file, and with a line `FILE: ..` that
/// counts the others. `NoMemory`.
pub fn check_setup(alloc: Global, file: &str, text: &str) -> Result<Checked, Trouble> {
    match refused(alloc, file, text) {
        Ok(None) => {}
        Ok(Some(trouble)) => return Err(trouble),
        Err(refusal) => return Err(bare(alloc, refusal)),
    }
    match would_run(alloc, file, text) {
        Ok(checked) => Ok(checked),
        Err(refusal) => Err(bare(alloc, refusal)),
    }
}

/// What would run by a setup that is not refused.
fn would_run(alloc: Global, file: &str, text: &str) -> Result<Checked, Refusal> {
    let setup = read_setup(alloc, text)?;
    let lines = SetupLines::of(alloc, text)?;
    Ok(Checked {
        report: report_of(alloc, &setup)?,
        warnings: warnings_of(alloc, &setup, &lines)?.text(alloc, file, "warning")?,
    })
}

/// Why the setup of this text is refused, if it is.
fn refused(alloc: Global, file: &str, text: &str) -> Result<Option<Trouble>, Refusal> {
    let faults = setup_faults(alloc, text)?;
    match setup_edits(alloc, text) {
        Ok(edits) if !has_clash(&faults) => try_edits(alloc, file, text, edits),
        Ok(_) | Err(Refusal::BadSetup) => Ok(Some(Trouble {
            refusal: Refusal::BadSetup,
            told: fault_lines(alloc, file, &faults)?,
        })),
        Err(refusal) => Err(refusal),
    }
}

/// A line for each of the first faults, and one that counts the others.
fn fault_lines(alloc: Global, file: &str, faults: &[Fault]) -> Result<String, AllocError> {
    let mut told = String::new(alloc);
    for fault in faults.iter().take(LISTED) {
        let line = format!(in alloc; "{file}:{fault}\n")?;
        told.push_str(line.as_str())?;
    }
    let others = others(alloc, file, faults.len(), "mistake")?;
    told.push_str(others.as_str())?;
    Ok(told)
}

/// Whether tables of one source contradict each other.
fn has_clash(faults: &[Fault]) -> bool {
    faults.iter().any(|fault| matches!(fault.wrong, Wrong::Twice(_) | Wrong::Differs(_)))
}

/// Posts the edits, in their order, and returns those that are refused.
fn try_edits(
    alloc: Global,
    file: &str,
    text: &str,
    edits: Vec<Edit>,
) -> Result<Option<Trouble>, Refusal> {
    let mut trial = Trial::new(alloc, text)?;
    trial.post_all(edits)?;
    trial.refused(file)
}

/// Edits that are tried.
#[derive(Drop)]
struct Trial<'a> {
    alloc: Global,
    gateway: Gateway,
    lines: SetupLines<'a>,
    places: Places,
    first: Option<Refusal>,
    told: Listing,
}

impl<'a> Trial<'a> {
    /// No edit was tried yet.
    fn new(alloc: Global, text: &'a str) -> Result<Trial<'a>, Refusal> {
        let lines = SetupLines::of(alloc, text)?;
        Ok(Trial {
            alloc,
            gateway: Gateway::new(alloc)?,
            lines,
            places: Places::new(),
            first: None,
            told: Listing::new(alloc),
        })
    }

    /// Posts these edits, in their order.
    fn post_all(&mut self, edits: Vec<Edit>) -> Result<(), AllocError> {
        for edit in edits {
            self.post(edit)?;
        }
        Ok(())
    }

    /// The edits that were refused, if any was.
    fn refused(self, file: &str) -> Result<Option<Trouble>, Refusal> {
        let Trial {
            alloc,
            first,
            told,
            ..
        } = self;
        let Some(refusal) = first else {
            return Ok(None);
        };
        let told = told.text(alloc, file, "refused edit")?;
        Ok(Some(Trouble { refusal, told }))
    }

    /// Posts an edit, and returns why it is refused, if it is: of a stream each value that is.
    fn post(&mut self, edit: Edit) -> Result<(), AllocError> {
        let (table, key) = self.places.next(&edit);
        let name = edit_name(self.alloc, &edit)?;
        let misfits = match &edit {
            Edit::Define(_, definition) => misfits_of(self.alloc, definition)?,
            _ => Vec::new(self.alloc),
        };
        let Reply::Refused(refusal) = self.gateway.post(event_of(edit)) else {
            return Ok(());
        };
        self.first = self.first.or(Some(refusal));
        if refusal != Refusal::BadDefinition || misfits.is_empty() {
            return self.tell(table, key, name.as_str(), refusal, reason(refusal));
        }
        for misfit in &misfits {
            self.tell(
                table,
                misfit.key,
                name.as_str(),
                refusal,
                misfit.why.as_str(),
            )?;
        }
        Ok(())
    }

    /// Reports that an edit of this name is refused, for what is at a key of this table.
    fn tell(
        &mut self,
        table: SetupTable,
        key: &str,
        name: &str,
        refusal: Refusal,
        why: &str,
    ) -> Result<(), AllocError> {
        let told = format!(in self.alloc; "{name}: refused {}: {why}", refusal.name())?;
        self.told.add(self.lines.line_of(table, key), told)
    }
}

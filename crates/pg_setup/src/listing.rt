//! Lines of a file, with what is said of each.

use std::alloc::{AllocError, Global};

/// So many lines are listed; the others are counted.
pub(crate) const LISTED: usize = 100;

/// What is said of lines of a file.
#[derive(Drop)]
pub(crate) struct Listing {
    lines: Vec<(usize, String)>,
}

impl Listing {
    /// Nothing is said.
    pub(crate) fn new(alloc: Global) -> Listing {
        Listing {
            lines: Vec::new(alloc),
        }
    }

    /// This is said of this line.
    pub(crate) fn add(&mut self, line: usize, told: String) -> Result<(), AllocError> {
        self.lines.push((line, told))?;
        Ok(())
    }

    /// A line `FILE:LINE: ..` for each of the first, in the order of the file, and one that counts the others, by what they are called.
    pub(crate) fn text(
        mut self,
        alloc: Global,
        file: &str,
        name: &str,
    ) -> Result<String, AllocError> {
        self.lines.sort_by_key(|told| told.0)?;
        let mut text = String::new(alloc);
        for (line, told) in self.lines.iter().take(LISTED) {
            let line = format!(in alloc; "{file}:{line}: {told}\n")?;
            text.push_str(line.as_str())?;
        }
        let others = others(alloc, file, self.lines.len(), name)?;
        text.push_str(others.as_str())?;
        Ok(text)
    }
}

/// A line that counts those behind the first, where there are any.
pub(crate) fn others(
    alloc: Global,
    file: &str,
    count: usize,
    name: &str,
) -> Result<String, AllocError> {
    match count.saturating_sub(LISTED) {
        0 => Ok(String::new(alloc)),
        1 => format!(in alloc; "{file}: 1 more {name}\n"),
        more => format!(in alloc; "{file}: {more} more {name}s\n"),
    }
}

//! What in a stream's definition the gateway refuses.

use crate::report::key_text;
use pg_stream::Definition;
use pg_wire::PmuKey;
use std::alloc::{AllocError, Global};

/// A key of a stream whose value is refused, and what would be right.
#[derive(Drop)]
pub(crate) struct Misfit {
    pub(crate) key: &'static str,
    pub(crate) why: String,
}

/// The keys of a definition whose values are beyond the limits of one.
pub(crate) fn misfits_of(
    alloc: Global,
    definition: &Definition,
) -> Result<Vec<Misfit>, AllocError> {
    let mut misfits = Vec::new(alloc);
    let rate = u32::from(definition.rate);
    let numbers = [
        ("rate", rate, 1, 120),
        ("base", definition.base, rate.max(1), 16_777_215),
        ("wait", definition.wait, 0, 60_000),
        ("window", definition.window, 1, 64),
    ];
    for (key, number, least, most) in numbers {
        if number < least || number > most {
            let why = format!(in alloc;
                "{key} is {number}; it has to be a whole number from {least} to {most}"
            )?;
            misfits.push(Misfit { key, why })?;
        }
    }
    let header = definition.header.as_slice();
    if header.len() > 1024 || !header.is_ascii() {
        let why = format!(in alloc;
            "header has {} bytes; it has to be ASCII of at most 1024 bytes",
            header.len()
        )?;
        misfits.push(Misfit { key: "header", why })?;
    }
    if let Some(key) = first_twice(definition.members.as_slice()) {
        let key = key_text(alloc, key)?;
        let why = format!(in alloc; "members has PMU {key} twice; once is allowed")?;
        misfits.push(Misfit {
            key: "members",
            why,
        })?;
    }
    Ok(misfits)
}

/// The first key that was there before.
fn first_twice(keys: &[PmuKey]) -> Option<&PmuKey> {
    for (place, key) in keys.iter().enumerate() {
        if keys.iter().take(place).any(|before| before == key) {
            return Some(key);
        }
    }
    None
}

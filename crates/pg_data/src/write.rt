//! The writer of data frames.

ghost use Rattle.std.specs.Prelude.{◌≡◌, IfOk, IfErr};
ghost use Rattle.pg_data.specs.Reading.{spelling_of, ReadsBack};

use crate::frame::DataFrame;
use pg_wire::{Head, Kind, Refusal, end_frame, start_frame};
use std::alloc::Global;

/// How many bytes a data frame has beside its blocks.
const AROUND_BODY: u16 = 16;

/// The data frame of version 2 that says just this: by the configuration that it carries it is read as the same value (C37.118.2,
/// 6.3). The one refusal is `NoMemory`.
pub fn write_data(alloc: Global, frame: &DataFrame) -> Result<Vec<u8>, Refusal>
    ensures bytes { IfOk result (λ v. v.items ≡ spelling_of frame.now) }
    ensures read { ReadsBack frame.now }
    ensures memory { IfErr result (λ refusal. refusal ≡ Refusal.NoMemory) }
{
    let _count = frame.count();
    let head = Head {
        kind: Kind::Measured,
        version: 2,
        size: AROUND_BODY + frame.body.len() as u16,
        id: frame.source.get(),
        soc: frame.soc,
        quality: frame.quality,
        frac: frame.frac,
    };
    let mut bytes = start_frame(alloc, &head)?;
    bytes.extend_from_slice(frame.body.as_slice())?;
    end_frame(&mut bytes);
    Ok(bytes)
}

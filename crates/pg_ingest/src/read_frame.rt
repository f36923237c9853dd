//! A frame of a source, read.

ghost use Rattle.std.specs.Prelude.{◌≡◌, ◌/◌, option_map, slice_index, MatchResult};
ghost use Rattle.std.specs.Arc.{arc_value};
ghost use Rattle.pg_wire.specs.Head.{IsFrame};
ghost use Rattle.pg_data.specs.Reading.{IsDataFrame};
ghost use Rattle.pg_ingest.specs.Items.{announces, rejects_config, Tells};
ghost use Rattle.pg_ingest.specs.Reading.{item_read, IsPaired, TellsConfig, TellsData};

use pg_config::{SourceConfig, read_config};
use pg_data::{DataFrame, read_data_over};
use pg_wire::{Kind, PmuId, Refusal, read_head};
use std::alloc::Global;
use std::sync::Arc;

/// What a frame is to the link of its source, once it is read.
#[derive(Drop)]
pub(crate) enum ReadFrame {
    /// A CFG-2 frame that is accepted: its configuration, one reference for the link and one for the event.
    Config(Arc<SourceConfig>, Arc<SourceConfig>),
    /// A data frame that is read.
    Data(Arc<DataFrame>),
    /// A frame that is skipped.
    Skipped(Refusal),
    /// A CFG-2 frame that is not accepted.
    BadConfig(Refusal),
    /// A data frame that is not read.
    BadData(Refusal),
    /// A frame of another kind.
    Other,
}

/// Reads a frame of a source, by the configuration that it announced last. Each frame is read once, into memory that all its readers
/// share: that of `spare`, a data frame that is done with, if it can.
#[inline(always)]
pub(crate) fn read_source_frame(
    alloc: Global,
    source: PmuId,
    known: &Option<Arc<SourceConfig>>,
    frame: &[u8],
    spare: Option<Arc<DataFrame>>,
) -> ReadFrame
    requires { IsFrame frame.now }
    ensures item { Tells source (option_map arc_value known.now) frame.now (item_read result) }
    ensures paired { IsPaired result }
{
    match read_head(frame).kind {
        Kind::CfgTwo => read_source_config(alloc, source, frame),
        Kind::Measured => read_source_data(alloc, known, frame, spare),
        _ => ReadFrame::Other,
    }
}

/// Reads a CFG-2 frame.
#[inline(never)]
fn read_source_config(alloc: Global, source: PmuId, frame: &[u8]) -> ReadFrame
    requires { IsFrame frame.now }
    ensures item { TellsConfig source frame.now (item_read result) }
    ensures paired { IsPaired result }
{
    match accepted_config(alloc, source, frame) {
        Ok((kept, given)) => ReadFrame::Config(kept, given),
        Err(refusal) => ReadFrame::BadConfig(refusal),
    }
}

/// The configuration that a frame announces, twice. The refusals are those of `read_config`, then `WrongId` for another
/// source's IDCODE, then `NoMemory`.
fn accepted_config(
    alloc: Global,
    source: PmuId,
    frame: &[u8],
) -> Result<(Arc<SourceConfig>, Arc<SourceConfig>), Refusal>
    requires { IsFrame frame.now }
    ensures { MatchResult result
        (λ pair. TellsConfig source frame.now (announces (arc_value pair.1)) × (arc_value pair.0 ≡ arc_value pair.1))
        (λ refusal. TellsConfig source frame.now (rejects_config refusal)) }
{
    let announced = read_config(alloc, frame)?;
    if announced.config.source != source {
        return Err(Refusal::WrongId);
    }
    let given = Arc::new(alloc, announced.config)?;
    let kept = Arc::try_clone(&given)?;
    Ok((kept, given))
}

/// Reads a data frame.
#[inline(always)]
fn read_source_data(
    alloc: Global,
    known: &Option<Arc<SourceConfig>>,
    frame: &[u8],
    spare: Option<Arc<DataFrame>>,
) -> ReadFrame
    requires { IsDataFrame frame.now }
    ensures item { TellsData (option_map arc_value known.now) frame.now (item_read result) }
    ensures paired { IsPaired result }
{
    let Some(config) = known else {
        return ReadFrame::BadData(Refusal::NoConfig);
    };
    match read_data_over(alloc, config, frame, spare) {
        Ok(measured) => ReadFrame::Data(measured),
        Err(refusal) => ReadFrame::BadData(refusal),
    }
}

//! The reader of data frames.

ghost use Rattle.std.specs.Prelude.{◌≡◌, ◌≤◌, length, IfOk, IsOk, IsTrue, MatchResult};
ghost use Rattle.std.specs.Arc.{arc_value};
ghost use Rattle.pg_wire.specs.Head.{three_at};
ghost use Rattle.pg_data.specs.Measurements.{Measurement};
ghost use Rattle.pg_data.specs.Reading.{SpellsData, IsDataFrame, ReadsAs, Checks, data_of, measurement_of};
ghost use Rattle.pg_data.specs.Sharing.{HasOwnBytes};

use crate::frame::{DataFrame, alone_in, resolution_of};
use pg_config::SourceConfig;
use pg_wire::Refusal;
use std::alloc::Global;
use std::sync::Arc;

/// The bytes of a frame before its body: SYNC, FRAMESIZE, IDCODE, SOC and FRACSEC.
const HEAD: usize = 14;

/// The bytes of CHK.
const TAIL: usize = 2;

/// FRACSEC's numerator: its low 24 bits.
fn numerator(frame: &[u8]) -> u32
    requires { 16 ≤ length frame.now }
    ensures { result ≡ three_at frame.now 11 }
{
    u32::from_be_bytes([0, frame[11], frame[12], frame[13]])
}

/// Looks for a refusal before memory is taken.
fn check_data(config: &SourceConfig, frame: &[u8]) -> Result<(), Refusal>
    requires { IsDataFrame frame.now }
    ensures { Checks result (data_of config.now frame.now) }
{
    if u16::from_be_bytes([frame[4], frame[5]]) != config.source.get() {
        return Err(Refusal::WrongId);
    }
    if frame.len() - (HEAD + TAIL) != config.start(config.count()) {
        return Err(Refusal::BadLength);
    }
    if numerator(frame) >= resolution_of(config) {
        return Err(Refusal::BadFraction);
    }
    Ok(())
}

/// Takes memory for a data frame that nothing was found against. That is seldom, so it is a function of its own.
#[inline(never)]
fn make(alloc: Global, config: &Arc<SourceConfig>, frame: &[u8]) -> Result<Arc<DataFrame>, Refusal>
    requires frame { IsDataFrame frame.now }
    requires sound { IsOk (data_of (arc_value config.now) frame.now) }
    ensures { ReadsAs result (data_of (arc_value config.now) frame.now) }
{
    let shared = Arc::try_clone(config)?;
    let body = Vec::from_slice(alloc, &frame[HEAD..frame.len() - TAIL])?;
    let alone = alone_in(config, frame, body.as_slice());
    let data = DataFrame {
        source: config.source,
        soc: u32::from_be_bytes([frame[6], frame[7], frame[8], frame[9]]),
        quality: frame[10],
        frac: numerator(frame),
        config: shared,
        body,
        alone,
    };
    Ok(Arc::new(alloc, data)?)
}

/// Reads a data frame: looks at it, and then takes memory.
fn decode(
    alloc: Global,
    config: &Arc<SourceConfig>,
    frame: &[u8],
) -> Result<Arc<DataFrame>, Refusal>
    requires { IsDataFrame frame.now }
    ensures { ReadsAs result (data_of (arc_value config.now) frame.now) }
{
    check_data(config, frame)?;
    make(alloc, config, frame)
}

impl DataFrame {
    /// Becomes a data frame that nothing was found against, if the body has the room for it. No memory is taken.
    #[inline(always)]
    fn refill(&mut self, config: &Arc<SourceConfig>, frame: &[u8]) -> bool
        requires frame { IsDataFrame frame.now }
        requires sound { IsOk (data_of (arc_value config.now) frame.now) }
        ensures { IsTrue result → self.new ≡ measurement_of (arc_value config.now) frame.now }
    {
        let body = &frame[HEAD..frame.len() - TAIL];
        if self.body.capacity() < body.len() {
            return false;
        }
        let Ok(shared) = Arc::try_clone(config) else {
            return false;
        };
        self.body.clear();
        // There is room, so it cannot fail.
        let _ = self.body.extend_from_slice(body);
        self.alone = alone_in(config, frame, body);
        self.source = config.source;
        self.soc = u32::from_be_bytes([frame[6], frame[7], frame[8], frame[9]]);
        self.quality = frame[10];
        self.frac = numerator(frame);
        self.config = shared;
        true
    }
}

/// Writes a data frame that nothing was found against over one that is done with, if nobody else holds that one and it has the room.
#[inline(always)]
fn overwrite(done: &mut Arc<DataFrame>, config: &Arc<SourceConfig>, frame: &[u8]) -> bool
    requires frame { IsDataFrame frame.now }
    requires sound { IsOk (data_of (arc_value config.now) frame.now) }
    ensures { IsTrue result → arc_value done.new ≡ measurement_of (arc_value config.now) frame.now }
{
    match Arc::get_mut(done) {
        Some(data) => data.refill(config, frame),
        None => false,
    }
}

/// Reads a data frame, in the memory of one that is done with if it can.
#[inline(always)]
fn decode_over(
    alloc: Global,
    config: &Arc<SourceConfig>,
    frame: &[u8],
    done: Option<Arc<DataFrame>>,
) -> Result<Arc<DataFrame>, Refusal>
    requires { IsDataFrame frame.now }
    ensures { ReadsAs result (data_of (arc_value config.now) frame.now) }
{
    check_data(config, frame)?;
    if let Some(mut measured) = done {
        if overwrite(&mut measured, config, frame) {
            return Ok(measured);
        }
    }
    make(alloc, config, frame)
}

/// Reads a data frame by its source's configuration. It is decoded once, and whoever needs it shares it.
///
/// The first that holds is refused: WrongId, the IDCODE is not the configuration's source; BadLength, FRAMESIZE is not 16
/// and all data blocks; BadFraction, the numerator is not below the resolution; NoMemory.
pub fn read_data(
    alloc: Global,
    config: &Arc<SourceConfig>,
    frame: &[u8],
) -> Result<Arc<DataFrame>, Refusal>
    requires { IsDataFrame frame.now }
    // Which value or refusal it is. Want of memory comes last.
    ensures gives { ReadsAs result (data_of (arc_value config.now) frame.now) }
    ensures found { IfOk result (λ measured. SpellsData frame.now (arc_value config.now) (arc_value measured)) }
    // Whatever the frame spells is read, but for want of memory.
    ensures only { (m : Measurement) → SpellsData frame.now (arc_value config.now) m
        → MatchResult result (λ measured. arc_value measured ≡ m) (λ refusal. refusal ≡ Refusal.NoMemory) }
    // Each PMU's block is the frame's own bytes at its place.
    ensures own { IfOk result (λ measured. HasOwnBytes (arc_value config.now) frame.now (arc_value measured)) }
{
    decode(alloc, config, frame)
}

/// The same as `read_data`, in the memory of a frame that is done with: where nobody else holds that one and its body has the room, no
/// memory is taken.
#[inline(always)]
pub fn read_data_over(
    alloc: Global,
    config: &Arc<SourceConfig>,
    frame: &[u8],
    done: Option<Arc<DataFrame>>,
) -> Result<Arc<DataFrame>, Refusal>
    requires { IsDataFrame frame.now }
    // Which value or refusal it is. Want of memory comes last.
    ensures gives { ReadsAs result (data_of (arc_value config.now) frame.now) }
    ensures found { IfOk result (λ measured. SpellsData frame.now (arc_value config.now) (arc_value measured)) }
    // Whatever the frame spells is read, but for want of memory.
    ensures only { (m : Measurement) → SpellsData frame.now (arc_value config.now) m
        → MatchResult result (λ measured. arc_value measured ≡ m) (λ refusal. refusal ≡ Refusal.NoMemory) }
    // Each PMU's block is the frame's own bytes at its place.
    ensures own { IfOk result (λ measured. HasOwnBytes (arc_value config.now) frame.now (arc_value measured)) }
{
    decode_over(alloc, config, frame, done)
}

//! Slots that leave become data frames.

ghost use Rattle.std.specs.Prelude.{◌≡◌, ◌+◌, ◌/◌, ◌<◌, ◌≤◌, ◌^◌, ◌∷◌, [], length, map};
ghost use Rattle.pg_stream.specs.Limits.{IsWithinLimits};
ghost use Rattle.pg_align.specs.Slots.{all_leaving, all_flushed, head_with};
ghost use Rattle.pg_session.specs.Streams.{slot_frame};
ghost use Rattle.pg_session.specs.Sending.{Sending, Sends};
ghost use Rattle.pg_session.specs.Fields.{AreTimed};

use crate::output::Output;
use pg_align::Align;
use pg_data::SharedBlock;
use pg_outcfg::{ConfigList, HeadPrefix, StampCache, data_frame_near};
use pg_stream::Definition;
use std::alloc::Global;

/// Makes the frame of a slot that left, and sends it. Where a frame of the event was lost this one is not composed. `prefix` is
/// that of the stream's last frame: this one mostly has the same.
fn send_slot(
    alloc: Global,
    definition: &Definition,
    listed: &ConfigList,
    slot: u64,
    parts: &[Option<SharedBlock>],
    prefix: &mut HeadPrefix,
    stamps: &mut StampCache,
    output: &mut Output,
)
    requires limits { IsWithinLimits definition.now }
    requires time { slot / definition.now.rate < 2 ^ 32 }
    requires parts { length parts.now ≡ length definition.now.members }
    requires few { output.old.kept ≤ output.old.made }
    requires bounded { output.old.made < 2 ^ 32 }
    ensures sends { Sends (slot_frame definition.now listed.now (head_with slot parts.now) ∷ []) output.old output.new }
{
    if output.is_lost() {
        output.lose();
    } else {
        let spare = output.take_spare(alloc);
        output.send(data_frame_near(
            alloc, definition, slot, listed, parts, prefix, stamps, spare,
        ));
    }
}

/// While the least open slot is to leave, it leaves and its frame is made.
#[inline(always)]
pub(crate) fn leave_all(
    alloc: Global,
    definition: &Definition,
    listed: &ConfigList,
    align: &mut Align,
    prefix: &mut HeadPrefix,
    stamps: &mut StampCache,
    output: &mut Output,
)
    requires limits { IsWithinLimits definition.now }
    requires places { length align.old.effective ≡ length definition.now.members }
    requires timed { AreTimed definition.now.rate align.old.slots }
    requires few { output.old.kept ≤ output.old.made }
    requires bounded { output.old.made + length align.old.slots < 2 ^ 32 }
    ensures slots { align.new ≡ (all_leaving align.old).after }
    ensures sends { Sends (map (slot_frame definition.now listed.now) (all_leaving align.old).frames) output.old output.new }
    ensures few { output.new.made + length align.new.slots ≤ output.old.made + length align.old.slots }
{
    if align.is_leaving() {
        leave_each(alloc, definition, listed, align, prefix, stamps, output);
    }
}

/// The same, mostly called where the least open slot is to leave.
#[inline(never)]
fn leave_each(
    alloc: Global,
    definition: &Definition,
    listed: &ConfigList,
    align: &mut Align,
    prefix: &mut HeadPrefix,
    stamps: &mut StampCache,
    output: &mut Output,
)
    requires limits { IsWithinLimits definition.now }
    requires places { length align.old.effective ≡ length definition.now.members }
    requires timed { AreTimed definition.now.rate align.old.slots }
    requires few { output.old.kept ≤ output.old.made }
    requires bounded { output.old.made + length align.old.slots < 2 ^ 32 }
    ensures slots { align.new ≡ (all_leaving align.old).after }
    ensures sends { Sends (map (slot_frame definition.now listed.now) (all_leaving align.old).frames) output.old output.new }
    ensures few { output.new.made + length align.new.slots ≤ output.old.made + length align.old.slots }
{
    while let Some(left) = align.leave_next() {
        send_slot(
            alloc, definition, listed, left.slot, left.parts, prefix, stamps, output,
        );
    }
}

/// All open slots leave, by rising slot, and their frames are made.
pub(crate) fn flush_all(
    alloc: Global,
    definition: &Definition,
    listed: &ConfigList,
    align: &mut Align,
    prefix: &mut HeadPrefix,
    stamps: &mut StampCache,
    output: &mut Output,
)
    requires limits { IsWithinLimits definition.now }
    requires places { length align.old.effective ≡ length definition.now.members }
    requires timed { AreTimed definition.now.rate align.old.slots }
    requires few { output.old.kept ≤ output.old.made }
    requires bounded { output.old.made + length align.old.slots < 2 ^ 32 }
    ensures slots { align.new ≡ (all_flushed align.old).after }
    ensures sends { Sends (map (slot_frame definition.now listed.now) (all_flushed align.old).frames) output.old output.new }
    ensures few { output.new.made + length align.new.slots ≤ output.old.made + length align.old.slots }
{
    while let Some(left) = align.flush_next() {
        send_slot(
            alloc, definition, listed, left.slot, left.parts, prefix, stamps, output,
        );
    }
}

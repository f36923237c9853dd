//! What a source's registered PMUs announced is put into the registry.

ghost use Rattle.std.specs.Prelude.{◌≡◌, ◌+◌, ◌<◌, ◌≤◌, ◌++◌, [], ◌∷◌, length, map, vec_capacity, OnOk, IfOk, IfErr};
ghost use Rattle.std.specs.Arc.{arc_value};
ghost use Rattle.indexmap.specs.IndexMap.{index_map_len};
ghost use Rattle.pg_registry.specs.Registered.{changed, refusing};
ghost use Rattle.pg_session.specs.Events.{announced_at, config_of};
ghost use Rattle.pg_session.specs.Ready.{AreRising};
ghost use Rattle.pg_gateway.specs.Judging.{all_announced, memory_counted};
ghost use Rattle.pg_gateway.specs.Related.{Related};
ghost use Rattle.pg_gateway.specs.Sharing.{SubscriberSlots};
ghost use Rattle.pg_gateway.specs.Shown.{SlotShows};
ghost use Rattle.pg_gateway.specs.Taking.{broadcast_of, IsNoFrame, IsRising, Awaits, HasNone, Fits};
ghost use Rattle.pg_gateway.specs.Frugal.{AllSlots};

use crate::broadcast::prepare_copies;
use crate::event::Event;
use crate::slot::SubscriberSlot;
use circular_buffer::HeapCircularBuffer;
use indexmap::IndexMap;
use pg_config::{PmuConfig, SourceConfig};
use pg_registry::Registry;
use pg_session::copy_parts;
use pg_wire::{PmuKey, Refusal, SubId};
use std::sync::Arc;

/// Prepares all references that an announcement needs: to what each of those PMUs announced, for the registry, and those that the
/// subscribers' shares need. Nothing that they show changes.
///
/// # Errors
///
/// `NoMemory`, and then no references lie ready at any subscriber.
pub(crate) fn copy_announced(
    subs: &mut IndexMap<SubId, SubscriberSlot>,
    event: &Event,
    config: &SourceConfig,
    places: &[usize],
    held: &mut Vec<usize>,
    copies: &mut HeapCircularBuffer<Arc<PmuConfig>>,
) -> Result<(), Refusal>
    requires event { IsNoFrame event.now }
    requires places { IsRising event.now places.now }
    requires rising { AreRising 0 (length config.now.parts) places.now }
    requires room { 16 ≤ vec_capacity held.old }
    requires capacity { copies.old.capacity ≡ 16 }
    requires none { AllSlots HasNone subs.old.entries }
    requires fits { AllSlots (Fits (broadcast_of event.now places.now)) subs.old.entries }
    ensures copied { OnOk result (map arc_value copies.new.items ≡ map config_of (announced_at config.now places.now)) }
    ensures prepared { IfOk result (λ u. AllSlots (Awaits (broadcast_of event.now places.now)) subs.new.entries) }
    ensures none { IfErr result (λ refusal. AllSlots HasNone subs.new.entries) }
    ensures memory { IfErr result (λ refusal. refusal ≡ Refusal.NoMemory) }
    ensures shows { (slots : SubscriberSlots) → Related SlotShows subs.old.entries slots → Related SlotShows subs.new.entries slots }
    ensures len { index_map_len subs.new ≡ index_map_len subs.old }
    ensures room { 16 ≤ vec_capacity held.new }
    ensures capacity { copies.new.capacity ≡ 16 }
{
    copies.clear();
    copy_parts(config, places, copies)?;
    prepare_copies(subs, event, places, held)?;
    Ok(())
}

/// Each of those PMUs announced what lies ready for it. Nothing is counted.
pub(crate) fn announce_all(
    registry: &mut Registry,
    config: &SourceConfig,
    places: &[usize],
    copies: &mut HeapCircularBuffer<Arc<PmuConfig>>,
)
    requires rising { AreRising 0 (length config.now.parts) places.now }
    requires copied { map arc_value copies.old.items ≡ map config_of (announced_at config.now places.now) }
    ensures announced { registry.new ≡ all_announced registry.old (announced_at config.now places.now) }
    ensures capacity { copies.new.capacity ≡ copies.old.capacity }
{
    for place in places {
        let key = config.key(*place);
        let Some(copy) = copies.pop_front() else {
            unreachable!();
        };
        let _listed = registry.announce(key, copy);
    }
}

/// Counts at a PMU that memory was refused. Nothing changes where it is not registered.
fn count_memory_of(registry: &mut Registry, key: &PmuKey)
    ensures { registry.new ≡ changed (refusing Refusal.NoMemory) key.now registry.old }
{
    if let Some(place) = registry.place_of(*key) {
        registry.count_refusal_at(place, Refusal::NoMemory);
    }
}

/// Counts at the first of those PMUs that memory was refused.
pub(crate) fn count_first(registry: &mut Registry, config: &SourceConfig, places: &[usize])
    requires rising { AreRising 0 (length config.now.parts) places.now }
    ensures { registry.new ≡ memory_counted registry.old (map (λ a. a.key) (announced_at config.now places.now)) }
{
    if let Some(first) = places.first() {
        count_memory_of(registry, &config.key(*first));
    }
}

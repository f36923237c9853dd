//! Configurations are put into the CFG-1 list of a subscriber, after the flush of the streams whose shape they change.

ghost use Rattle.std.specs.Prelude.{◌≡◌, ◌+◌, ◌<◌, ◌≤◌, [], length, map, All};
ghost use Rattle.std.specs.Arc.{arc_value};
ghost use Rattle.pg_outcfg.specs.Listing.{with_config};
ghost use Rattle.pg_session.specs.Events.{announced_at, config_of};
ghost use Rattle.pg_session.specs.Private.{put_all};
ghost use Rattle.pg_session.specs.Streams.{reshape_turn};
ghost use Rattle.pg_session.specs.Sending.{Sending};
ghost use Rattle.pg_session.specs.Taking.{Taken};
ghost use Rattle.pg_session.specs.Kept.{by_slots};
ghost use Rattle.pg_session.specs.Fields.{stream_after};

use crate::change::Change;
use crate::output::Output;
use crate::stream::Stream;
use crate::streams::reshape_all;
use circular_buffer::HeapCircularBuffer;
use pg_config::{PmuConfig, SourceConfig};
use pg_outcfg::ConfigList;
use pg_wire::PmuKey;
use std::alloc::Global;
use std::sync::Arc;

/// A PMU has this configuration from now on.
pub(crate) fn list_one(
    alloc: Global,
    key: &PmuKey,
    config: Arc<PmuConfig>,
    listed: &mut ConfigList,
    streams: &mut [Stream],
    output: &mut Output,
)
    requires room { length listed.old < 32 }
    requires streams { length streams.old ≤ 8 }
    requires few { output.old.kept ≤ output.old.made }
    requires bounded { output.old.made ≤ 1000 }
    ensures listed { listed.new ≡ with_config listed.old key.now (arc_value config) }
    ensures streams { streams.new ≡ map (λ s. stream_after (reshape_turn by_slots listed.old (with_config listed.old key.now (arc_value config)) s)) streams.old }
    ensures taken { Taken (map (reshape_turn by_slots listed.old (with_config listed.old key.now (arc_value config))) streams.old) output.old output.new }
    ensures bounded { output.new.made ≤ output.old.made + 640 }
{
    let change = Change::Put(*key, &config);
    let counts = change.counts(listed);
    reshape_all(alloc, listed, &change, counts, streams, output);
    listed.put(*key, config);
}

/// Those PMUs of a source have what it says of them from now on: all at once, as every stream is flushed before.
pub(crate) fn list_all(
    alloc: Global,
    config: &SourceConfig,
    places: &[usize],
    configs: &mut HeapCircularBuffer<Arc<PmuConfig>>,
    listed: &mut ConfigList,
    streams: &mut [Stream],
    output: &mut Output,
)
    requires places { All (λ i. i < length config.now.parts) places.now }
    requires ready { map arc_value configs.old.items ≡ map config_of (announced_at config.now places.now) }
    requires room { length (put_all listed.old (announced_at config.now places.now)) ≤ 32 }
    requires streams { length streams.old ≤ 8 }
    requires few { output.old.kept ≤ output.old.made }
    requires bounded { output.old.made ≤ 1000 }
    ensures listed { listed.new ≡ put_all listed.old (announced_at config.now places.now) }
    ensures streams { streams.new ≡ map (λ s. stream_after (reshape_turn by_slots listed.old (put_all listed.old (announced_at config.now places.now)) s)) streams.old }
    ensures taken { Taken (map (reshape_turn by_slots listed.old (put_all listed.old (announced_at config.now places.now))) streams.old) output.old output.new }
    ensures configs { configs.new.items ≡ [] }
    ensures capacity { configs.new.capacity ≡ configs.old.capacity }
    ensures bounded { output.new.made ≤ output.old.made + 640 }
{
    let change = Change::PutAll(config, places);
    let counts = change.counts(listed);
    reshape_all(alloc, listed, &change, counts, streams, output);
    put_ready(config, places, configs, listed);
}

/// Puts the copies that lie ready into the list, the last one first: so the first of a key would count, as it would in a
/// look-up by the frame's order.
fn put_ready(
    config: &SourceConfig,
    places: &[usize],
    configs: &mut HeapCircularBuffer<Arc<PmuConfig>>,
    listed: &mut ConfigList,
)
    requires places { All (λ i. i < length config.now.parts) places.now }
    requires ready { map arc_value configs.old.items ≡ map config_of (announced_at config.now places.now) }
    requires room { length (put_all listed.old (announced_at config.now places.now)) ≤ 32 }
    ensures listed { listed.new ≡ put_all listed.old (announced_at config.now places.now) }
    ensures configs { configs.new.items ≡ [] }
    ensures capacity { configs.new.capacity ≡ configs.old.capacity }
{
    while let Some(copy) = configs.pop_back() {
        let key = config.key(places[configs.len()]);
        listed.put(key, copy);
    }
}

//! Which blocks of a source's frame are taken.

ghost use Rattle.std.specs.Prelude.{◌≡◌, ◌<◌, ◌≤◌, ◌+◌, length, filter, vec_capacity, vec_len, ◌++◌, option_map, slice_get, All, Some, None, if◌then◌else◌, [], ◌∷◌, true, false};
ghost use Rattle.std.specs.Arc.{arc_value};
ghost use Rattle.pg_registry.specs.Registered.{has_key, changed_at};
ghost use Rattle.pg_session.specs.Events.{announced_at, samples_at};
ghost use Rattle.pg_session.specs.Ready.{AreRising};
ghost use Rattle.pg_gateway.specs.Judging.{is_far as far, block_refusal as refusal_of, registered_of, judged, taken_of, block_counted};
ghost use Rattle.pg_gateway.specs.Taking.{part_passes};
ghost use Rattle.pg_gateway.specs.Placing.{block_judged, place_taken, Judges, ArePlaced, placed_counted, placed_memory, placed_refusal};

use pg_config::{PmuConfig, SourceConfig};
use pg_data::DataFrame;
use pg_registry::Registry;
use pg_wire::Refusal;
use std::sync::Arc;

/// How far a SOC may be off the last tick's, in seconds.
const MOST_SECONDS: u32 = 30;

/// Whether a SOC is too far off the last tick's.
fn is_far(last: Option<u32>, soc: u32) -> bool
    ensures { result ≡ far last soc }
{
    match last {
        None => false,
        Some(last) => soc.abs_diff(last) > MOST_SECONDS,
    }
}

/// Why a registered PMU's block is refused, by what the PMU announced last, if it is.
fn block_refusal(
    held: Option<&Arc<PmuConfig>>,
    last: Option<u32>,
    soc: u32,
    config: &PmuConfig,
) -> Option<Refusal>
    ensures { result ≡ refusal_of (option_map (λ c. arc_value c.now) held.entry) last soc config.now }
{
    let Some(held) = held else {
        return Some(Refusal::NoConfig);
    };
    if !held.is_same(config) {
        return Some(Refusal::StaleConfig);
    }
    if is_far(last, soc) {
        return Some(Refusal::FarClock);
    }
    None
}

/// The configuration of a source's PMU.
fn part_of(config: &SourceConfig, place: usize) -> &PmuConfig
    requires place { place < length config.now.parts }
    ensures { slice_get config.now.parts place ≡ Some result.now }
{
    &config.parts[place]
}

/// The configuration by which a frame was read.
fn source_of(frame: &DataFrame) -> &SourceConfig
    ensures { result.now ≡ frame.now.config }
{
    &frame.config
}

/// The SOC of a frame.
fn soc_of(frame: &DataFrame) -> u32
    ensures { result ≡ frame.now.soc }
{
    frame.soc
}

/// The judgement of a block of a source's PMU: the PMU's place in the registry, and the refusal, if there is one. `None` where the PMU is not
/// registered. The places `near` and the one before it are searched first; `near` becomes the place behind the one that was found.
fn judge_block(
    config: &SourceConfig,
    soc: u32,
    place: usize,
    registry: &Registry,
    last: Option<u32>,
    near: &mut usize,
) -> Option<(usize, Option<Refusal>)>
    requires place { place < length config.now.parts }
    ensures { Judges registry.now last config.now soc place result }
{
    let Some(at) = registry.place_near(config.key(place), *near) else {
        return None;
    };
    *near = at.wrapping_add(1);
    let part = part_of(config, place);
    let refusal = block_refusal(registry.config_at(at), last, soc, part);
    Some((at, refusal))
}

/// Puts what became of the block at a place behind what became of those before it.
fn note_judged(
    judged: Option<(usize, Option<Refusal>)>,
    place: usize,
    blocks: &mut Vec<(usize, Option<Refusal>)>,
    taken: &mut Vec<usize>,
)
    requires blocks { vec_len blocks.old < vec_capacity blocks.old }
    requires taken { vec_len taken.old < vec_capacity taken.old }
    ensures blocks { blocks.new.items ≡ blocks.old.items ++ block_judged judged }
    ensures taken { taken.new.items ≡ taken.old.items ++ place_taken judged place }
    ensures few { vec_len blocks.new ≤ vec_len blocks.old + 1 }
    ensures few_taken { vec_len taken.new ≤ vec_len taken.old + 1 }
    ensures room { vec_capacity blocks.new ≡ vec_capacity blocks.old }
    ensures room_taken { vec_capacity taken.new ≡ vec_capacity taken.old }
{
    let Some(block) = judged else {
        return;
    };
    if block.1.is_none() {
        taken.push_reserved(place);
    }
    blocks.push_reserved(block);
}

/// The places of a frame's accepted blocks, and the judgement of each registered one: its PMU's place in the registry, and the refusal, if there
/// is one. The registry is searched first at `near` and the place before it, then each time behind the last PMU; `near` becomes the place
/// behind the last one.
pub(crate) fn judge(
    frame: &DataFrame,
    registry: &Registry,
    last: Option<u32>,
    near: &mut usize,
    blocks: &mut Vec<(usize, Option<Refusal>)>,
    taken: &mut Vec<usize>,
)
    requires blocks { 16 ≤ vec_capacity blocks.old }
    requires taken { 16 ≤ vec_capacity taken.old }
    ensures blocks { ArePlaced registry.now blocks.new.items (judged registry.now last frame.now) }
    ensures taken { samples_at frame.now taken.new.items ≡ taken_of registry.now last frame.now }
    ensures rising { AreRising 0 (length frame.now.config.parts) taken.new.items }
    ensures few { vec_len blocks.new ≤ 16 }
    ensures few_taken { vec_len taken.new ≤ 16 }
    ensures room { 16 ≤ vec_capacity blocks.new }
    ensures places { 16 ≤ vec_capacity taken.new }
{
    blocks.clear();
    taken.clear();
    let config = source_of(frame);
    let soc = soc_of(frame);
    let mut next = *near;
    for place in 0..config.count() {
        let judged = judge_block(config, soc, place, registry, last, &mut next);
        note_judged(judged, place, blocks, taken);
    }
    *near = next;
}

/// Whether a source's PMU is registered.
fn is_registered(config: &SourceConfig, place: usize, registry: &Registry) -> bool
    requires place { place < length config.now.parts }
    ensures { result ≡ part_passes (has_key registry.now) config.now (slice_get config.now.parts place) }
{
    registry.has(config.key(place))
}

/// Puts a place behind the others, if it is to be kept.
pub(crate) fn keep_place(places: &mut Vec<usize>, place: usize, keeps: bool)
    requires room { vec_len places.old < vec_capacity places.old }
    ensures places { places.new.items ≡ places.old.items ++ (if keeps then place ∷ [] else []) }
    ensures few { vec_len places.new ≤ vec_len places.old + 1 }
    ensures room { vec_capacity places.new ≡ vec_capacity places.old }
{
    if keeps {
        places.push_reserved(place);
    }
}

/// Which PMUs of a source's configuration are registered, by their places in it.
fn registered(config: &SourceConfig, registry: &Registry, places: &mut Vec<usize>)
    requires room { 16 ≤ vec_capacity places.old }
    ensures registered { announced_at config.now places.new.items ≡ registered_of registry.now config.now }
    ensures rising { AreRising 0 (length config.now.parts) places.new.items }
    ensures room { 16 ≤ vec_capacity places.new }
{
    places.clear();
    for place in 0..config.count() {
        let there = is_registered(config, place, registry);
        keep_place(places, place, there);
    }
}

/// The same. It answers whether there are any.
pub(crate) fn has_registered(
    config: &SourceConfig,
    registry: &Registry,
    places: &mut Vec<usize>,
) -> bool
    requires room { 16 ≤ vec_capacity places.old }
    ensures some { result ≡ true → 0 < length places.new.items }
    ensures none { result ≡ false → length places.new.items ≡ 0 }
    ensures registered { announced_at config.now places.new.items ≡ registered_of registry.now config.now }
    ensures rising { AreRising 0 (length config.now.parts) places.new.items }
    ensures room { 16 ≤ vec_capacity places.new }
{
    registered(config, registry, places);
    !places.is_empty()
}

/// Counts what became of blocks at their PMUs.
pub(crate) fn count_blocks(registry: &mut Registry, blocks: &[(usize, Option<Refusal>)])
    requires within { All (λ b. b.0 < length registry.old) blocks.now }
    ensures { registry.new ≡ placed_counted registry.old blocks.now }
{
    for block in blocks {
        count_block(registry, block.0, block.1);
    }
}

/// Counts what became of a block at its PMU.
fn count_block(registry: &mut Registry, place: usize, refusal: Option<Refusal>)
    requires within { place < length registry.old }
    ensures { registry.new ≡ changed_at (block_counted refusal) place registry.old }
{
    match refusal {
        None => registry.count_taken_at(place),
        Some(refusal) => registry.count_refusal_at(place, refusal),
    }
}

/// The same of a frame that is shared. It answers whether a block is taken.
pub(crate) fn judge_shared(
    frame: &Arc<DataFrame>,
    registry: &Registry,
    last: Option<u32>,
    near: &mut usize,
    blocks: &mut Vec<(usize, Option<Refusal>)>,
    taken: &mut Vec<usize>,
) -> bool
    requires blocks { 16 ≤ vec_capacity blocks.old }
    requires taken { 16 ≤ vec_capacity taken.old }
    ensures some { result ≡ true → 0 < length taken.new.items }
    ensures none { result ≡ false → length taken.new.items ≡ 0 }
    ensures blocks { ArePlaced registry.now blocks.new.items (judged registry.now last (arc_value frame.now)) }
    ensures taken { samples_at (arc_value frame.now) taken.new.items ≡ taken_of registry.now last (arc_value frame.now) }
    ensures rising { AreRising 0 (length (arc_value frame.now).config.parts) taken.new.items }
    ensures few { vec_len blocks.new ≤ 16 }
    ensures few_taken { vec_len taken.new ≤ 16 }
    ensures room { 16 ≤ vec_capacity blocks.new }
    ensures places { 16 ≤ vec_capacity taken.new }
{
    judge(frame, registry, last, near, blocks, taken);
    !taken.is_empty()
}

/// Counts that memory was refused, at the first of these PMUs.
pub(crate) fn count_memory(registry: &mut Registry, blocks: &[(usize, Option<Refusal>)])
    requires within { All (λ b. b.0 < length registry.old) blocks.now }
    ensures { registry.new ≡ placed_memory registry.old blocks.now }
{
    if let Some(first) = blocks.first() {
        registry.count_refusal_at(first.0, Refusal::NoMemory);
    }
}

/// The first refusal of a block, and `NoSuchPmu` where no PMU is registered.
pub(crate) fn first_refusal(blocks: &[(usize, Option<Refusal>)]) -> Refusal
    ensures { result ≡ placed_refusal blocks.now }
{
    for block in blocks {
        if let Some(refusal) = block.1 {
            return refusal;
        }
    }
    Refusal::NoSuchPmu
}

//! Which subscribers each registered PMU is granted to.

ghost use Rattle.std.specs.Prelude.{◌≡◌, ◌≢◌, ◌<◌, ◌≤◌, ℕ, nat_eq, All, None, true, false, get_or, length, vec_capacity, if◌then◌else◌, IfOk, IfErr};
ghost use Rattle.std.specs.Int.{bit_at};
ghost use Rattle.std.specs.Map.{keys_of};
ghost use Rattle.indexmap.specs.IndexMap.{index_map_len};
ghost use Rattle.pg_entitle.specs.Grants.{has_key};
ghost use Rattle.pg_gateway.specs.Routes.{IsMask, AreMasks, AreRoutes, masks_taken, AreGrantedAll, AreGranted};

use crate::slot::SubscriberSlot;
use crate::state::MOST_SUBS;
use indexmap::IndexMap;
use pg_registry::Registry;
use pg_wire::{PmuKey, Refusal, SubId};
use std::alloc::Global;
use std::marker::Model;

/// The most registered PMUs.
const MOST_PMUS: usize = 256;

/// For each registered PMU a mask of the subscribers that it is granted to. The lowest bit is the subscriber that was added first.
///
/// The masks are computed again before the first data frame that follows an event which may have changed them.
#[derive(Drop)]
pub(crate) struct Routes {
    fresh: bool,
    masks: Vec<u64>,
}

impl Model for Routes {
    ghost use Rattle.std.specs.Prelude.{◌≤◌, vec_capacity};
    ghost use Rattle.pg_gateway.specs.Routes.{RoutesValue};

    ghost Value = { RoutesValue };

    ghost view = { λ r. record { fresh = r.fresh; masks = r.masks.items } };

    ghost invariant = { λ r. 256 ≤ vec_capacity r.masks };
}

/// The mask with one more bit set where `on`.
fn with_bit(mask: u64, place: usize, on: bool) -> u64
    requires place { place < 64 }
    requires unset { bit_at mask place ≡ 0 }
    ensures bit { bit_at result place ≡ (if on then 1 else 0) }
    ensures others { (j : ℕ) → j ≢ place → bit_at result j ≡ bit_at mask j }
{
    if on {
        return mask | (1u64 << place);
    }
    mask
}

/// Sets a block's bit in the mask of each subscriber that is granted its PMU.
fn note_holders(granted_blocks: &mut [u16; MOST_SUBS], holders: u64, block: usize)
    requires block { block < 16 }
    ensures set { (j : ℕ) → bit_at holders j ≡ 1 → bit_at (get_or granted_blocks.new j 0) block ≡ 1 }
    ensures unset { (j : ℕ) → bit_at holders j ≡ 0 → get_or granted_blocks.new j 0 ≡ get_or granted_blocks.old j 0 }
    ensures others { (j i : ℕ) → i ≢ block → bit_at (get_or granted_blocks.new j 0) i ≡ bit_at (get_or granted_blocks.old j 0) i }
{
    let mut left = holders;
    'holders: while left != 0 {
        let holder = left.trailing_zeros();
        left &= !(1u64 << holder);
        granted_blocks[holder as usize] |= 1u16 << block;
    }
}

/// Whether a PMU is granted to a subscriber.
fn is_holder(slot: &SubscriberSlot, key: &PmuKey) -> bool
    ensures value { result ≡ has_key slot.now.subscriber.own.grants key.now }
{
    slot.subscriber.holds(*key)
}

/// The mask of the subscribers that a PMU is granted to.
fn mask_of(key: &PmuKey, subs: &IndexMap<SubId, SubscriberSlot>) -> u64
    requires few { index_map_len subs.now ≤ 64 }
    ensures mask { IsMask subs.now.entries key.now result }
{
    let mut mask = 0u64;
    for i in 0..subs.len() {
        mask = with_bit(mask, i, is_holder(&subs[i], key));
    }
    mask
}

impl Routes {
    /// None, with room reserved for 256 PMUs. The one refusal is `NoMemory`.
    pub(crate) fn new(alloc: Global) -> Result<Routes, Refusal>
        ensures stale { IfOk result (λ r. r.fresh ≡ false) }
        ensures memory { IfErr result (λ refusal. refusal ≡ Refusal.NoMemory) }
    {
        Ok(Routes {
            fresh: false,
            masks: Vec::with_capacity(alloc, MOST_PMUS)?,
        })
    }

    /// Keeps the masks across an event that changes none of them; else they are to be computed again.
    pub(crate) fn keep(&mut self, kept: bool)
        ensures masks { self.new.masks ≡ self.old.masks }
        ensures fresh { self.new.fresh ≡ true → (kept ≡ true) × (self.old.fresh ≡ true) }
    {
        if !kept {
            self.fresh = false;
        }
    }

    /// Computes the masks again if they are not fresh.
    pub(crate) fn refresh(&mut self, registry: &Registry, subs: &IndexMap<SubId, SubscriberSlot>)
        requires few { index_map_len subs.now ≤ 64 }
        requires routes { AreRoutes subs.now.entries registry.now self.old }
        ensures masks { AreMasks subs.now.entries (keys_of registry.now) self.new.masks }
    {
        if !self.fresh {
            self.recompute(registry, subs);
            self.fresh = true;
        }
    }

    /// Computes the masks again.
    fn recompute(&mut self, registry: &Registry, subs: &IndexMap<SubId, SubscriberSlot>)
        requires few { index_map_len subs.now ≤ 64 }
        ensures masks { AreMasks subs.now.entries (keys_of registry.now) self.new.masks }
    {
        self.masks.clear();
        let _len = registry.len();
        for key in registry.list() {
            self.masks.push_reserved(mask_of(key, subs));
        }
    }

    /// Masks of the subscribers that are granted an accepted block of a frame, and of those that are granted every accepted block; equal where
    /// one block was accepted. For each subscriber of the first mask alone, `granted_blocks` gets the mask of its blocks: the block that was
    /// accepted first is the lowest bit.
    pub(crate) fn shares_of(
        &self,
        blocks: &[(usize, Option<Refusal>)],
        granted_blocks: &mut [u16; MOST_SUBS],
    ) -> (u64, u64)
        requires within { All (λ b. b.0 < length self.now.masks) blocks.now }
        requires few { length blocks.now ≤ 16 }
        ensures covers { (j : ℕ) → bit_at result.0 j ≡ 0 → All (λ b. b.1 ≡ None → bit_at (get_or self.now.masks b.0 0) j ≡ 0) blocks.now }
        ensures none { (j : ℕ) → All (λ b. bit_at (get_or self.now.masks b.0 0) j ≡ 0) blocks.now → bit_at result.0 j ≡ 0 }
        ensures granted_all { AreGrantedAll result.1 (masks_taken self.now.masks blocks.now) }
        ensures alone { length (masks_taken self.now.masks blocks.now) ≡ 1 → result.0 ≡ result.1 }
        ensures granted_blocks { (j : ℕ) → bit_at result.0 j ≡ 1 → nat_eq (bit_at result.1 j) 1 ≡ false
            → (i : ℕ) → bit_at (get_or granted_blocks.new j 0) i ≡ bit_at (get_or (masks_taken self.now.masks blocks.now) i 0) j }
    {
        let (granted_some, granted_all) = self.granted_to(blocks);
        let some = granted_some & !granted_all;
        if some != 0 {
            self.note_granted(blocks, some, granted_blocks);
        }
        (granted_some, granted_all)
    }

    /// Masks of the subscribers that are granted an accepted block, and of those that are granted every accepted block; equal where one block
    /// was accepted.
    fn granted_to(&self, blocks: &[(usize, Option<Refusal>)]) -> (u64, u64)
        requires within { All (λ b. b.0 < length self.now.masks) blocks.now }
        ensures covers { (j : ℕ) → bit_at result.0 j ≡ 0 → All (λ b. b.1 ≡ None → bit_at (get_or self.now.masks b.0 0) j ≡ 0) blocks.now }
        ensures none { (j : ℕ) → All (λ b. bit_at (get_or self.now.masks b.0 0) j ≡ 0) blocks.now → bit_at result.0 j ≡ 0 }
        ensures granted_all { AreGrantedAll result.1 (masks_taken self.now.masks blocks.now) }
        ensures alone { length (masks_taken self.now.masks blocks.now) ≡ 1 → result.0 ≡ result.1 }
    {
        let mut granted_some = 0u64;
        let mut granted_all = u64::MAX;
        for block in blocks {
            if block.1.is_none() {
                let mask = self.masks[block.0];
                granted_some |= mask;
                granted_all &= mask;
            }
        }
        (granted_some, granted_all)
    }

    /// Masks of the accepted blocks that each subscriber of the mask `some` is granted. The block that was accepted first is the lowest bit.
    fn note_granted(
        &self,
        blocks: &[(usize, Option<Refusal>)],
        some: u64,
        granted_blocks: &mut [u16; MOST_SUBS],
    )
        requires within { All (λ b. b.0 < length self.now.masks) blocks.now }
        requires few { length blocks.now ≤ 16 }
        ensures { AreGranted some (masks_taken self.now.masks blocks.now) granted_blocks.new }
    {
        *granted_blocks = [0; MOST_SUBS];
        let mut taken = 0;
        for block in blocks {
            if block.1.is_none() {
                note_holders(granted_blocks, self.masks[block.0] & some, taken);
                taken += 1;
            }
        }
    }
}

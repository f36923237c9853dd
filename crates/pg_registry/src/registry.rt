//! The registry. A clause sees it as the list of keys, in order of registration, each with its PMU.
ghost use Rattle.std.specs.Prelude.{◌≡◌, ◌<◌, ◌≤◌, ◌++◌, [], ◌∷◌, true, false, if◌then◌else◌, length, Ok, Err, None, Some, is_some, IfOk, IfErr, IfSome, OnOk, OnErr, option_map, option_and_then};
ghost use Rattle.std.specs.Arc.{arc_value};
ghost use Rattle.std.specs.Map.{keys_of, remove_entry};
ghost use Rattle.pg_wire.specs.Keys.{key_eq};
ghost use Rattle.pg_wire.specs.declared.ids.PmuKey.{PmuKey as KeyValue};
ghost use Rattle.pg_registry.specs.Registered.{Pmu as PmuValue, IsRegistry, pmu_of, has_key, config_in, place_in, pmu_at, has_source, unannounced, announcing, taking, refusing, changed, changed_at};

use crate::pmu::Pmu;
use indexmap::IndexMap;
use pg_audit::PmuStats;
use pg_config::PmuConfig;
use pg_wire::{PmuId, PmuKey, Refusal};
use std::alloc::Global;
use std::marker::Model;
use std::sync::Arc;

/// The most registered PMUs.
const PMU_LIMIT: usize = 256;

/// The registered PMUs in order of registration, at most 256, each with the configuration that it announced
/// last and with its counters. Only `new` and `add` take memory.
///
/// A PMU stands at a place, the first at 0, which `place_of` finds by its key: what is asked or changed at a place needs
/// no second look-up. A place is good until a PMU is dropped.
#[derive(Drop)]
pub struct Registry {
    pmus: IndexMap<PmuKey, Pmu>,
}

impl Model for Registry {
    ghost use Rattle.std.specs.Prelude.{◌≤◌, length};
    ghost use Rattle.pg_registry.specs.Registered.{Pmus};

    ghost Value = { Pmus };

    ghost view = { λ r. r.pmus.entries };

    ghost invariant = { λ r. length r.pmus.entries ≤ 256 };
}

impl Registry {
    /// No PMUs, with room reserved for 256. Refused with `NoMemory` alone.
    pub fn new(alloc: Global) -> Result<Registry, Refusal>
        ensures empty { IfOk result (λ registry. registry ≡ []) }
        ensures memory { IfErr result (λ refusal. refusal ≡ Refusal.NoMemory) }
    {
        let pmus = IndexMap::with_capacity(alloc, PMU_LIMIT)?;
        // Contracts see a registry as its list, and so none of them speaks of room.
        let room = pmus.capacity();
        prove!(room >= PMU_LIMIT);
        Ok(Registry { pmus })
    }

    /// Registers a PMU behind the others, with no configuration and all counters at 0.
    ///
    /// # Errors
    ///
    /// `PmuExists` exactly where there is one with this key; else `PmusFull` exactly where there are 256; else
    /// `NoMemory` where there is no memory for its place. Nothing changes then.
    pub fn add(&mut self, key: PmuKey) -> Result<(), Refusal>
        ensures exists { has_key self.old key ≡ true → result ≡ Err Refusal.PmuExists }
        ensures full { has_key self.old key ≡ false → 256 ≤ length self.old → result ≡ Err Refusal.PmusFull }
        ensures memory { has_key self.old key ≡ false → length self.old < 256 → IfErr result (λ refusal. refusal ≡ Refusal.NoMemory) }
        ensures added { OnOk result (self.new ≡ self.old ++ (key, unannounced) ∷ []) }
        ensures refused { OnErr result (self.new ≡ self.old) }
    {
        if self.pmus.contains_key(&key) {
            return Err(Refusal::PmuExists);
        }
        if self.pmus.len() >= PMU_LIMIT {
            return Err(Refusal::PmusFull);
        }
        self.pmus.insert(key, Pmu::new())?;
        Ok(())
    }

    /// Takes a PMU out, with its configuration and its counters. The others keep their order.
    ///
    /// # Errors
    ///
    /// `NoSuchPmu` exactly where there is none with this key; nothing changes then.
    pub fn drop_pmu(&mut self, key: PmuKey) -> Result<(), Refusal>
        ensures answer { result ≡ (if has_key self.old key then Ok tt else Err Refusal.NoSuchPmu) }
        ensures list { self.new ≡ remove_entry (key_eq key) self.old }
        ensures found { (k : KeyValue) → pmu_of self.new k ≡ (if key_eq key k then None else pmu_of self.old k) }
    {
        match self.pmus.shift_remove(&key) {
            Some(_) => Ok(()),
            None => Err(Refusal::NoSuchPmu),
        }
    }

    /// Puts what a PMU announced in the place of what it had announced before.
    ///
    /// # Errors
    ///
    /// `NoSuchPmu` exactly where there is none with this key; nothing changes then.
    pub fn announce(&mut self, key: PmuKey, config: Arc<PmuConfig>) -> Result<(), Refusal>
        ensures answer { result ≡ (if has_key self.old key then Ok tt else Err Refusal.NoSuchPmu) }
        ensures list { self.new ≡ changed (announcing (arc_value config)) key self.old }
    {
        match self.pmus.get_index_of(&key) {
            Some(place) => {
                self.pmus[place].announce(config);
                Ok(())
            }
            None => Err(Refusal::NoSuchPmu),
        }
    }

    /// Whether a PMU is registered.
    pub fn has(&self, key: PmuKey) -> bool
        ensures value { result ≡ has_key self.now key }
    {
        self.pmus.contains_key(&key)
    }

    /// Whether a PMU of a source is registered. It looks through the keys.
    pub fn has_source(&self, source: PmuId) -> bool
        ensures value { result ≡ has_source self.now source }
    {
        self.list().iter().any(|key| key.source == source)
    }

    /// The keys, in order of registration.
    pub fn list(&self) -> &[PmuKey]
        ensures value { result.now ≡ keys_of self.now }
        ensures keeps { IsRegistry self.now }
    {
        self.pmus.keys().as_slice()
    }

    /// How many PMUs are registered, at most 256.
    pub fn len(&self) -> usize
        ensures value { result ≡ length self.now }
        ensures few { result ≤ 256 }
    {
        self.pmus.len()
    }

    /// What a PMU announced last; `None` where it announced nothing or is not registered.
    pub fn config_of(&self, key: PmuKey) -> Option<&Arc<PmuConfig>>
        ensures value { option_map (λ config. arc_value config.now) result ≡ config_in self.now key }
    {
        match self.pmus.get(&key) {
            Some(pmu) => pmu.config(),
            None => None,
        }
    }

    /// A PMU's counters; `None` where it is not registered.
    pub fn stats_of(&self, key: PmuKey) -> Option<&PmuStats>
        ensures value { option_map (λ stats. stats.now) result ≡ option_map (λ (pmu : PmuValue). pmu.stats) (pmu_of self.now key) }
    {
        match self.pmus.get(&key) {
            Some(pmu) => Some(pmu.stats()),
            None => None,
        }
    }

    /// The place at which a PMU stands.
    pub fn place_of(&self, key: PmuKey) -> Option<usize>
        ensures value { result ≡ place_in self.now key }
        ensures found { is_some result ≡ has_key self.now key }
        ensures within { IfSome result (λ place. place < length self.now) }
        ensures pmu { IfSome result (λ place. pmu_at self.now place ≡ pmu_of self.now key) }
    {
        self.pmus.get_index_of(&key)
    }

    /// The same of a PMU that is guessed to stand at the place `guess` or at the one before it: where it does there is no search.
    #[inline(always)]
    pub fn place_near(&self, key: PmuKey, guess: usize) -> Option<usize>
        ensures value { result ≡ place_in self.now key }
        ensures found { is_some result ≡ has_key self.now key }
        ensures within { IfSome result (λ place. place < length self.now) }
        ensures pmu { IfSome result (λ place. pmu_at self.now place ≡ pmu_of self.now key) }
    {
        let before = guess.wrapping_sub(1);
        if self.stands_at(&key, guess) {
            Some(guess)
        } else if self.stands_at(&key, before) {
            Some(before)
        } else {
            self.place_of(key)
        }
    }

    /// Whether a PMU stands at a place.
    #[inline(always)]
    fn stands_at(&self, key: &PmuKey, place: usize) -> bool
        ensures value { result ≡ true → place_in self.now key.now ≡ Some place }
        ensures found { result ≡ true → has_key self.now key.now ≡ true }
        ensures within { result ≡ true → place < length self.now }
        ensures pmu { result ≡ true → pmu_at self.now place ≡ pmu_of self.now key.now }
    {
        let keys = self.list();
        place < keys.len() && *key == keys[place]
    }

    /// What the PMU at a place announced last.
    pub fn config_at(&self, place: usize) -> Option<&Arc<PmuConfig>>
        requires { place < length self.now }
        ensures value { option_map (λ config. arc_value config.now) result ≡ option_and_then (λ (pmu : PmuValue). pmu.config) (pmu_at self.now place) }
        ensures keyed { (key : KeyValue) → place_in self.now key ≡ Some place → option_map (λ config. arc_value config.now) result ≡ config_in self.now key }
    {
        self.pmus[place].config()
    }

    /// The counters of the PMU at a place.
    pub fn stats_at(&self, place: usize) -> &PmuStats
        requires { place < length self.now }
        ensures value { option_map (λ (pmu : PmuValue). pmu.stats) (pmu_at self.now place) ≡ Some result.now }
        ensures keyed { (key : KeyValue) → place_in self.now key ≡ Some place → option_map (λ (pmu : PmuValue). pmu.stats) (pmu_of self.now key) ≡ Some result.now }
    {
        self.pmus[place].stats()
    }

    /// Puts what the PMU at a place announced in the place of what it had announced before.
    pub fn announce_at(&mut self, place: usize, config: Arc<PmuConfig>)
        requires { place < length self.old }
        ensures list { self.new ≡ changed_at (announcing (arc_value config)) place self.old }
        ensures keyed { (key : KeyValue) → place_in self.old key ≡ Some place → self.new ≡ changed (announcing (arc_value config)) key self.old }
    {
        self.pmus[place].announce(config);
    }

    /// Counts a block that was taken of the PMU at a place.
    pub fn count_taken_at(&mut self, place: usize)
        requires { place < length self.old }
        ensures list { self.new ≡ changed_at taking place self.old }
        ensures keyed { (key : KeyValue) → place_in self.old key ≡ Some place → self.new ≡ changed taking key self.old }
    {
        self.pmus[place].count_taken();
    }

    /// Counts a refusal of the PMU at a place under the number of its reason.
    pub fn count_refusal_at(&mut self, place: usize, refusal: Refusal)
        requires { place < length self.old }
        ensures list { self.new ≡ changed_at (refusing refusal) place self.old }
        ensures keyed { (key : KeyValue) → place_in self.old key ≡ Some place → self.new ≡ changed (refusing refusal) key self.old }
    {
        self.pmus[place].count_refusal(refusal);
    }
}

//! The configurations that a subscriber may see. A contract sees them as the list of keys and configurations.
ghost use Rattle.std.specs.Prelude.{◌≡◌, ◌<◌, ◌≤◌, None, Some, [], length, map, insert, option_map, IfOk, IfErr, if◌then◌else◌, vec_len, vec_capacity};
ghost use Rattle.std.specs.Arc.{arc_value};
ghost use Rattle.pg_wire.specs.declared.ids.PmuKey.{PmuKey as Key};
ghost use Rattle.pg_wire.specs.Keys.{key_eq};
ghost use Rattle.pg_outcfg.specs.Listing.{IsRising, config_at, with_config, without_config};
ghost use Rattle.pg_outcfg.specs.Places.{shown, StandsAt, FitsAt};

use pg_config::PmuConfig;
use pg_wire::{PmuKey, Refusal};
use std::alloc::Global;
use std::marker::Model;
use std::sync::Arc;

/// The most PMUs that a subscriber may see.
const MOST_LISTED: usize = 32;

/// A PMU that a subscriber may see.
#[derive(Drop)]
pub struct Listed {
    /// Its source, and its number there.
    pub key: PmuKey,
    /// What it announced last.
    pub config: Arc<PmuConfig>,
}

/// The PMUs that are granted to one subscriber and announced, by rising key: what CFG-1 lists. At most 32, no
/// key twice. Only `new` takes memory.
#[derive(Drop)]
pub struct ConfigList {
    entries: Vec<Listed>,
}

impl Model for ConfigList {
    ghost use Rattle.std.specs.Prelude.{map};
    ghost use Rattle.pg_outcfg.specs.Listing.{Listing};

    ghost Value = { Listing };

    ghost use Rattle.pg_outcfg.specs.Places.{shown, ListIsKept};

    ghost view = { λ l. map shown l.entries.items };

    ghost invariant = { λ l. ListIsKept l.entries };
}

impl ConfigList {
    /// No PMU, with room for 32. The one refusal is `NoMemory`.
    pub fn new(alloc: Global) -> Result<ConfigList, Refusal>
        ensures empty { IfOk result (λ list. list ≡ []) }
        ensures memory { IfErr result (λ refusal. refusal ≡ Refusal.NoMemory) }
    {
        Ok(ConfigList {
            entries: Vec::with_capacity(alloc, MOST_LISTED)?,
        })
    }

    /// How many PMUs it has: 0 to 32.
    pub fn len(&self) -> usize
        ensures value { result ≡ length self.now }
        ensures few { length self.now ≤ 32 }
        ensures rising { IsRising self.now }
    {
        self.entries.len()
    }

    /// The PMUs by rising key.
    pub fn as_slice(&self) -> &[Listed]
        ensures value { map shown result.now ≡ self.now }
        ensures few { length result.now ≤ 32 }
    {
        self.entries.as_slice()
    }

    /// The configuration of the PMU with this key, if it is there. A binary search.
    pub fn get(&self, key: &PmuKey) -> Option<&Arc<PmuConfig>>
        ensures value { option_map (λ config. arc_value config.now) result ≡ config_at self.now key.now }
    {
        match place_of(&self.entries, key) {
            Ok(place) => Some(&self.entries[place].config),
            Err(_) => None,
        }
    }

    /// The same for a key that is guessed to stand at the place `next`: where it does there is no search. `next` is then
    /// the place behind the one where the key was found, so that keys which are asked for in their order are found at once,
    /// also where they go on from the first place.
    #[inline(always)]
    pub fn get_next(&self, key: &PmuKey, next: &mut usize) -> Option<&Arc<PmuConfig>>
        ensures value { option_map (λ config. arc_value config.now) result ≡ config_at self.now key.now }
    {
        match place_near(&self.entries, key, *next) {
            Ok(place) => {
                *next = place + 1;
                Some(&self.entries[place].config)
            }
            Err(_) => None,
        }
    }

    /// Puts a configuration at its key's place, or in place of the one that stands there. It asks for fewer than 32 PMUs
    /// where the key is not there yet. It takes no memory.
    pub fn put(&mut self, key: PmuKey, config: Arc<PmuConfig>)
        requires room { config_at self.old key ≡ None → length self.old < 32 }
        ensures list { self.new ≡ with_config self.old key (arc_value config) }
        // As a finite map: this key has this configuration, and each other key has what it had.
        ensures map { (k : Key) → config_at self.new k ≡ (if key_eq k key then Some (arc_value config) else config_at self.old k) }
    {
        match place_of(&self.entries, &key) {
            Ok(place) => self.entries[place] = Listed { key, config },
            Err(place) => put_at(&mut self.entries, place, Listed { key, config }),
        }
    }

    /// Takes a PMU out, if it is there. It takes no memory.
    pub fn remove(&mut self, key: &PmuKey)
        ensures list { self.new ≡ without_config self.old key.now }
        // As a finite map: this key has nothing, and each other key has what it had.
        ensures map { (k : Key) → config_at self.new k ≡ (if key_eq k key.now then None else config_at self.old k) }
    {
        if let Ok(place) = place_of(&self.entries, key) {
            let _removed = self.entries.remove(place);
        }
    }

    /// Takes all PMUs out.
    pub fn clear(&mut self)
        ensures list { self.new ≡ [] }
    {
        self.entries.clear();
    }
}

/// Where the key stands, or where it would.
#[inline(never)]
fn place_of(entries: &[Listed], key: &PmuKey) -> Result<usize, usize>
    requires { IsRising (map shown entries.now) }
    ensures there { IfOk result (λ place. place < length entries.now) }
    ensures within { IfErr result (λ place. place ≤ length entries.now) }
    ensures found { IfOk result (StandsAt (map shown entries.now) key.now) }
    ensures absent { IfErr result (FitsAt (map shown entries.now) key.now) }
{
    entries.binary_search_by_key(key, |listed| listed.key)
}

/// The same, for a key that may well stand at the place `guess`, or else at the first one.
#[inline(always)]
fn place_near(entries: &[Listed], key: &PmuKey, guess: usize) -> Result<usize, usize>
    requires { IsRising (map shown entries.now) }
    ensures there { IfOk result (λ place. place < length entries.now) }
    ensures found { IfOk result (StandsAt (map shown entries.now) key.now) }
    ensures absent { IfErr result (FitsAt (map shown entries.now) key.now) }
{
    if guess < entries.len() && *key == entries[guess].key {
        return Ok(guess);
    }
    if !entries.is_empty() && *key == entries[0].key {
        return Ok(0);
    }
    place_of(entries, key)
}

/// Puts an entry at a place, in room that is there.
fn put_at(entries: &mut Vec<Listed>, place: usize, listed: Listed)
    requires within { place ≤ vec_len entries.old }
    requires room { vec_len entries.old < vec_capacity entries.old }
    ensures items { entries.new.items ≡ insert entries.old.items place listed }
    ensures room { vec_capacity entries.old ≤ vec_capacity entries.new }
{
    // It fits, by what is asked for.
    let _ = entries.insert(place, listed);
}

//! The grants of a subscriber. A clause sees them as the list of their keys, which rises.
ghost use Rattle.std.specs.Prelude.{insert, vec_len, vec_capacity, ◌≡◌, ◌<◌, ◌≤◌, ◌&&◌, ◌||◌, not, nat_le, if◌then◌else◌, [], length, Ok, Err, IfOk, IfErr};
ghost use Rattle.pg_wire.specs.Keys.{key_eq};
ghost use Rattle.pg_wire.specs.declared.ids.PmuKey.{PmuKey as KeyValue};
ghost use Rattle.pg_entitle.specs.Grants.{IsRising, IsGrantList, has_key, has_room, granted, without_key};
ghost use Rattle.pg_entitle.specs.Places.{IsAt, IsGapFor};

use pg_wire::{PmuKey, Refusal};
use std::alloc::Global;
use std::marker::Model;

/// The most grants of a subscriber.
const GRANT_LIMIT: usize = 32;

/// The PMUs that a subscriber was granted: at most 32. Only `new` takes memory.
#[derive(Drop)]
pub struct Grants {
    keys: Vec<PmuKey>,
}

impl Model for Grants {
    ghost use Rattle.std.specs.Prelude.{List, ◌≤◌, vec_capacity};
    ghost use Rattle.pg_wire.specs.declared.ids.PmuKey.{PmuKey as KeyValue};
    ghost use Rattle.pg_entitle.specs.Grants.{IsGrantList};

    ghost Value = { List KeyValue };

    ghost view = { λ g. g.keys.items };

    ghost invariant = { λ g. IsGrantList g.keys.items × (32 ≤ vec_capacity g.keys) };
}

impl Grants {
    /// No grants, with room reserved for 32. Refused with `NoMemory` alone.
    pub fn new(alloc: Global) -> Result<Grants, Refusal>
        ensures empty { IfOk result (λ grants. grants ≡ []) }
        ensures memory { IfErr result (λ refusal. refusal ≡ Refusal.NoMemory) }
    {
        Ok(Grants {
            keys: Vec::with_capacity(alloc, GRANT_LIMIT)?,
        })
    }

    /// Grants a PMU. One that is held changes nothing.
    ///
    /// # Errors
    ///
    /// `GrantsFull` exactly where 32 others are held; nothing changes then.
    pub fn grant(&mut self, key: PmuKey) -> Result<(), Refusal>
        ensures answer { result ≡ (if has_room self.old key then Ok tt else Err Refusal.GrantsFull) }
        ensures list { self.new ≡ granted self.old key }
        ensures set { (k : KeyValue) → has_key self.new k ≡ (has_key self.old k || (has_room self.old key && key_eq k key)) }
        ensures keeps { IsGrantList self.new }
    {
        match place_of(&self.keys, &key) {
            Ok(_) => Ok(()),
            Err(gap) => {
                if self.keys.len() >= GRANT_LIMIT {
                    return Err(Refusal::GrantsFull);
                }
                put(&mut self.keys, gap, key);
                Ok(())
            }
        }
    }

    /// Takes the grant of a PMU back.
    ///
    /// # Errors
    ///
    /// `NotGranted` exactly where it is not held; nothing changes then.
    pub fn revoke(&mut self, key: PmuKey) -> Result<(), Refusal>
        ensures answer { result ≡ (if has_key self.old key then Ok tt else Err Refusal.NotGranted) }
        ensures list { self.new ≡ without_key self.old key }
        ensures set { (k : KeyValue) → has_key self.new k ≡ (not (key_eq k key) && has_key self.old k) }
        ensures keeps { IsGrantList self.new }
    {
        match place_of(&self.keys, &key) {
            Ok(place) => {
                let _revoked = self.keys.remove(place);
                Ok(())
            }
            Err(_) => Err(Refusal::NotGranted),
        }
    }

    /// Whether a PMU is granted.
    pub fn holds(&self, key: PmuKey) -> bool
        ensures value { result ≡ has_key self.now key }
    {
        place_of(&self.keys, &key).is_ok()
    }

    /// The granted PMUs, by source and then by PMU.
    pub fn sorted(&self) -> &[PmuKey]
        ensures value { result.now ≡ self.now }
        ensures keeps { IsGrantList self.now }
    {
        self.keys.as_slice()
    }

    /// How many PMUs are granted, at most 32.
    pub fn len(&self) -> usize
        ensures value { result ≡ length self.now }
        ensures few { result ≤ 32 }
    {
        self.keys.len()
    }

    /// Whether 32 PMUs are granted, so that no other one can be.
    pub fn is_full(&self) -> bool
        ensures value { result ≡ nat_le 32 (length self.now) }
    {
        self.keys.len() >= GRANT_LIMIT
    }
}

/// Where a key stands among keys that rise, or else where it would go.
fn place_of(keys: &[PmuKey], key: &PmuKey) -> Result<usize, usize>
    requires rising { IsRising keys.now }
    ensures found { IfOk result (IsAt keys.now key.now) }
    ensures absent { IfErr result (IsGapFor keys.now key.now) }
{
    keys.binary_search(key)
}

/// Puts a key at a place, in room that is there.
fn put(keys: &mut Vec<PmuKey>, place: usize, key: PmuKey)
    requires within { place ≤ vec_len keys.old }
    requires room { vec_len keys.old < vec_capacity keys.old }
    ensures keys { keys.new.items ≡ insert keys.old.items place key }
    ensures capacity { vec_capacity keys.old ≤ vec_capacity keys.new }
{
    let Ok(()) = keys.insert(place, key) else {
        unreachable!();
    };
}

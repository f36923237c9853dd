//! Laws of grants as lists and as sets, as contracts of functions that do nothing: a caller that needs one calls it.
ghost use Rattle.std.specs.Prelude.{◌≡◌, ◌&&◌, ◌||◌, not, List};
ghost use Rattle.pg_wire.specs.Keys.{key_eq};
ghost use Rattle.pg_wire.specs.declared.ids.PmuKey.{PmuKey};
ghost use Rattle.pg_entitle.specs.Grants.{IsRising, IsGrantList, has_key, has_room, granted, without_key};

/// The list says no more than the set: keys that rise and hold the same keys are one list.
pub fn grants_are_sets()
    ensures same { (keys other : List PmuKey) → IsRising keys → IsRising other
        → ((key : PmuKey) → has_key keys key ≡ has_key other key) → keys ≡ other }
{}

/// A grant and a revocation keep the keys in order and at most 32, and add and take away just the one key.
pub fn grants_stay_sorted()
    ensures granted { (keys : List PmuKey) (key : PmuKey) → IsGrantList keys → IsGrantList (granted keys key) }
    ensures held { (keys : List PmuKey) (key k : PmuKey)
        → has_key (granted keys key) k ≡ (has_key keys k || (has_room keys key && key_eq k key)) }
    ensures revoked { (keys : List PmuKey) (key : PmuKey) → IsGrantList keys → IsGrantList (without_key keys key) }
    ensures left { (keys : List PmuKey) (key k : PmuKey) → IsRising keys
        → has_key (without_key keys key) k ≡ (not (key_eq k key) && has_key keys k) }
{}

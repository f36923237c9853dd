//! Laws of the list of registered PMUs, as contracts of functions that do nothing: a caller that needs one calls it.
ghost use Rattle.std.specs.Prelude.{◌≡◌, ◌<◌, ◌++◌, [], ◌∷◌, ℕ, false, if◌then◌else◌, length, Some, None, option_map};
ghost use Rattle.std.specs.Map.{remove_entry};
ghost use Rattle.pg_wire.specs.declared.ids.PmuKey.{PmuKey};
ghost use Rattle.pg_wire.specs.Keys.{key_eq};
ghost use Rattle.pg_registry.specs.Registered.{Pmu, Pmus, IsRegistry, pmu_of, has_key, place_in, unannounced, changed};

/// No key stands twice and at most 256 stand, whatever is registered, changed and dropped.
pub fn keys_stay_apart()
    ensures none { IsRegistry [] }
    ensures added { (pmus : Pmus) (key : PmuKey) → IsRegistry pmus → has_key pmus key ≡ false → length pmus < 256
        → IsRegistry (pmus ++ (key, unannounced) ∷ []) }
    ensures changed { (pmus : Pmus) (change : Pmu → Pmu) (key : PmuKey) → IsRegistry pmus
        → IsRegistry (changed change key pmus) }
    ensures dropped { (pmus : Pmus) (key : PmuKey) → IsRegistry pmus → IsRegistry (remove_entry (key_eq key) pmus) }
{}

/// What is registered, changed or dropped is so at its own key alone.
pub fn others_stay()
    ensures added { (pmus : Pmus) (key k : PmuKey) → has_key pmus key ≡ false
        → pmu_of (pmus ++ (key, unannounced) ∷ []) k ≡ (if key_eq k key then Some unannounced else pmu_of pmus k) }
    ensures changed { (pmus : Pmus) (change : Pmu → Pmu) (key k : PmuKey)
        → pmu_of (changed change key pmus) k ≡ (if key_eq k key then option_map change (pmu_of pmus k) else pmu_of pmus k) }
    ensures dropped { (pmus : Pmus) (key k : PmuKey) → IsRegistry pmus
        → pmu_of (remove_entry (key_eq key) pmus) k ≡ (if key_eq k key then None else pmu_of pmus k) }
{}

/// A place is good until a PMU is dropped: neither a change nor a PMU that is registered later moves it.
pub fn places_stay()
    ensures added { (pmus : Pmus) (key k : PmuKey) (pmu : Pmu) (place : ℕ) → place_in pmus k ≡ Some place
        → place_in (pmus ++ (key, pmu) ∷ []) k ≡ Some place }
    ensures changed { (pmus : Pmus) (change : Pmu → Pmu) (key k : PmuKey)
        → place_in (changed change key pmus) k ≡ place_in pmus k }
{}

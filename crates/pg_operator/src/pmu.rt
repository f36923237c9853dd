//! The tables `[[pmu]]` of the setup file.
ghost use Rattle.std.specs.Prelude.{◌≡◌, ◌⊎◌, IfOk, IfErr, map, option_map, codes, Some, None};
ghost use Rattle.toml.specs.View.{view, table_view};
ghost use Rattle.pg_operator.specs.Setups.{absent_or, addresses_in, called_values, list_of, only, optional, pmu_by, pmu_in, pmu_names, required, told, whole_in};

use crate::address::CalledAddresses;
use crate::keys::SetupKey;
use crate::{address, table};
use pg_wire::{PmuId, PmuKey, Refusal};
use std::alloc::Global;
use toml::{Table, Value};

/// A PMU, and what its table says of its source.
#[derive(Clone, Copy)]
pub(crate) struct PmuTable<'a> {
    pub(crate) key: PmuKey,
    pub(crate) connect: Option<CalledAddresses<'a>>,
    pub(crate) prefer_first: Option<bool>,
    pub(crate) silence: Option<u16>,
    pub(crate) clock_ms: Option<u16>,
    pub(crate) ahead_ms: Option<u16>,
}

/// The PMUs, in order.
pub(crate) fn pmus_at(alloc: Global, table: &Table) -> Result<Vec<PmuTable<'_>>, Refusal>
    ensures ok { IfOk result (λ v. required (list_of pmu_in) (codes "pmu") (table_view table.now) ≡ Some (map told v.items)) }
    ensures err { IfErr result (λ r. (r ≡ Refusal.NoMemory) ⊎ ((r ≡ Refusal.BadSetup) × (required (list_of pmu_in) (codes "pmu") (table_view table.now) ≡ None))) }
{
    match table::value_at(table, SetupKey::PMU.name) {
        Some(value) => pmus_in(alloc, value),
        None => Err(Refusal::BadSetup),
    }
}

/// The PMUs' tables.
fn pmus_in(alloc: Global, value: &Value) -> Result<Vec<PmuTable<'_>>, Refusal>
    ensures ok { IfOk result (λ v. list_of pmu_in (view value.now) ≡ Some (map told v.items)) }
    ensures err { IfErr result (λ r. (r ≡ Refusal.NoMemory) ⊎ ((r ≡ Refusal.BadSetup) × (list_of pmu_in (view value.now) ≡ None))) }
{
    let Some(items) = value.as_array() else {
        return Err(Refusal::BadSetup);
    };
    let mut pmus = Vec::new(alloc);
    'items: for item in items {
        let Some(pmu) = pmu_in(item) else {
            return Err(Refusal::BadSetup);
        };
        if pmus.push(pmu).is_err() {
            return Err(Refusal::NoMemory);
        }
    }
    Ok(pmus)
}

/// A PMU's table.
pub(crate) fn pmu_in(value: &Value) -> Option<PmuTable<'_>>
    ensures { option_map told result ≡ pmu_in (view value.now) }
{
    pmu_by(value.as_table()?)
}

/// What a PMU's table says.
fn pmu_by(table: &Table) -> Option<PmuTable<'_>>
    ensures { option_map told result ≡ only pmu_names pmu_by (table_view table.now) }
{
    if !table::keys_within(&SetupKey::PMU_KEYS, table) {
        return None;
    }
    let pmu = pmu_id(table)?;
    let source = source_of(table, pmu)?;
    let connect = connect_at(table)?;
    let prefer_first = table::truth_or_none(table, SetupKey::PREFER_FIRST.name)?;
    let silence = table::number_or_none(table, &SetupKey::SILENCE)?;
    let clock_ms = table::number_or_none(table, &SetupKey::CLOCK_MS)?;
    let ahead_ms = table::number_or_none(table, &SetupKey::AHEAD_MS)?;
    Some(PmuTable {
        key: PmuKey { source, pmu },
        connect,
        prefer_first,
        silence,
        clock_ms,
        ahead_ms,
    })
}

/// The number of a PMU.
fn pmu_id(table: &Table) -> Option<PmuId>
    ensures { result ≡ required (whole_in 1 65534) (codes "id") (table_view table.now) }
{
    PmuId::new(table::required(table, &SetupKey::PMU_ID)? as u16)
}

/// The source of a PMU, which has its number where it is left out.
fn source_of(table: &Table, pmu: PmuId) -> Option<PmuId>
    ensures { result ≡ optional pmu (whole_in 1 65534) (codes "source") (table_view table.now) }
{
    match table::value_at(table, SetupKey::SOURCE.name) {
        Some(value) => PmuId::new(table::number(value, &SetupKey::SOURCE)? as u16),
        None => Some(pmu),
    }
}

/// The addresses of a source, or none where they are left out.
fn connect_at(table: &Table) -> Option<Option<CalledAddresses<'_>>>
    ensures { option_map (λ o. option_map called_values o) result ≡ absent_or addresses_in (codes "connect") (table_view table.now) }
{
    match table::value_at(table, SetupKey::CONNECT.name) {
        Some(value) => Some(Some(address::called_all(value)?)),
        None => Some(None),
    }
}

/// The keys of the PMUs.
pub(crate) fn keys_of(alloc: Global, pmus: &[PmuTable<'_>]) -> Result<Vec<PmuKey>, Refusal>
    ensures ok { IfOk result (λ v. v.items ≡ map (λ p. p.key) (map told pmus.now)) }
    ensures err { IfErr result (λ r. r ≡ Refusal.NoMemory) }
{
    let mut keys = Vec::new(alloc);
    'pmus: for pmu in pmus {
        keys.push(pmu.key)?;
    }
    Ok(keys)
}

//! The rules of sources, as the tables of their PMUs say them.
ghost use Rattle.std.specs.Prelude.{◌≡◌, ◌==◌, ◌⊎◌, ◌++◌, false, IfOk, IfErr, map, option_map, option_to_list, Some, None};
ghost use Rattle.std.specs.List.{list_any};
ghost use Rattle.std.specs.Option.{option_map_or};
ghost use Rattle.pg_operator.specs.Addresses.{address_value};
ghost use Rattle.pg_operator.specs.Setups.{agreed, bit, called_values, rules_of, said, single, source_by, source_value, sources_of, told};

use crate::address::{CalledAddresses, SourceAddress, owned_all};
use crate::keys::{AHEAD_MS, SILENCE};
use crate::pmu::PmuTable;
use pg_wire::{PmuId, Refusal};
use std::alloc::Global;

/// How a source is watched.
#[derive(Clone, Copy)]
pub struct SourceRules {
    /// The source.
    pub source: PmuId,
    /// Its link is reset, and it is called again, after so many seconds without an event: 1 to 3600, or 0 for never.
    pub silence: u16,
    /// Its measurements may be so many milliseconds from this machine's clock: 1 to 30000; `None` for no such guard.
    pub clock_ms: Option<u16>,
    /// Its measurements may be so many milliseconds ahead of the reference, the later of this machine's clock and the lower median of the
    /// newest times of all connected sources: 1 to 30000, or 0 for no such guard.
    pub ahead_ms: u16,
    /// Whether the first of its addresses is gone back to, once it can be reached and announces a configuration.
    pub prefer_first: bool,
}

impl SourceRules {
    /// Those of a source of which a setup says nothing.
    pub fn default_of(source: PmuId) -> SourceRules
        ensures { result ≡ record { source = source; silence = 10; clock_ms = None; ahead_ms = 200; prefer_first = false } }
    {
        SourceRules {
            source,
            silence: SILENCE,
            clock_ms: None,
            ahead_ms: AHEAD_MS,
            prefer_first: false,
        }
    }
}

/// A source of a setup's PMUs.
#[derive(Drop)]
pub struct SourceSetup {
    /// Where it is connected to: its addresses, which are called one after another, 4 at most. Without one no connection is made.
    pub connect: Vec<SourceAddress>,
    /// How it is watched.
    pub rules: SourceRules,
}

impl SourceSetup {
    /// The same source.
    ///
    /// # Errors
    ///
    /// `NoMemory`.
    pub fn try_clone(&self, alloc: Global) -> Result<SourceSetup, Refusal>
        ensures ok { IfOk result (λ copy. source_value copy ≡ source_value self.now) }
        ensures err { IfErr result (λ r. r ≡ Refusal.NoMemory) }
    {
        match copies_of(alloc, self.connect.as_slice()) {
            Ok(connect) => Ok(SourceSetup {
                connect,
                rules: self.rules,
            }),
            Err(refusal) => Err(refusal),
        }
    }
}

/// The same addresses.
fn copies_of(alloc: Global, addresses: &[SourceAddress]) -> Result<Vec<SourceAddress>, Refusal>
    ensures ok { IfOk result (λ copies. map address_value copies.items ≡ map address_value addresses.now) }
    ensures err { IfErr result (λ r. r ≡ Refusal.NoMemory) }
{
    let mut copies = Vec::new(alloc);
    'addresses: for address in addresses {
        let copy = match address.try_clone(alloc) {
            Ok(copy) => copy,
            Err(refusal) => return Err(refusal),
        };
        copies.push(copy)?;
    }
    Ok(copies)
}

/// Each source of the PMUs, in the order in which they first name it.
pub(crate) fn sources_of(alloc: Global, pmus: &[PmuTable<'_>]) -> Result<Vec<SourceSetup>, Refusal>
    ensures ok { IfOk result (λ v. sources_of (map told pmus.now) ≡ Some (map source_value v.items)) }
    ensures err { IfErr result (λ r. (r ≡ Refusal.NoMemory) ⊎ ((r ≡ Refusal.BadSetup) × (sources_of (map told pmus.now) ≡ None))) }
{
    let mut sources = Vec::new(alloc);
    'pmus: for pmu in pmus {
        if !is_there(sources.as_slice(), pmu.key.source) {
            let source = match source_by(alloc, pmus, pmu.key.source) {
                Ok(source) => source,
                Err(refusal) => return Err(refusal),
            };
            sources.push(source)?;
        }
    }
    Ok(sources)
}

/// Whether one of the sources is this one.
fn is_there(sources: &[SourceSetup], source: PmuId) -> bool
    ensures { result ≡ list_any (λ s. s.rules.source == source) sources.now }
{
    sources.iter().any(|it| it.rules.source == source)
}

/// A source, as its tables say it.
fn source_by(alloc: Global, pmus: &[PmuTable<'_>], source: PmuId) -> Result<SourceSetup, Refusal>
    ensures ok { IfOk result (λ s. source_by (map told pmus.now) source ≡ Some (source_value s)) }
    ensures err { IfErr result (λ r. (r ≡ Refusal.NoMemory) ⊎ ((r ≡ Refusal.BadSetup) × (source_by (map told pmus.now) source ≡ None))) }
{
    let Some(addresses) = addresses_of(pmus, source) else {
        return Err(Refusal::BadSetup);
    };
    let Some(rules) = rules_of(pmus, source) else {
        return Err(Refusal::BadSetup);
    };
    match addresses {
        Some(addresses) => match owned_all(alloc, addresses) {
            Ok(connect) => Ok(SourceSetup { connect, rules }),
            Err(refusal) => Err(refusal),
        },
        None => Ok(SourceSetup {
            connect: Vec::new(alloc),
            rules,
        }),
    }
}

/// The addresses of a source, or nothing where two of its tables have some.
fn addresses_of<'a>(pmus: &[PmuTable<'a>], source: PmuId) -> Option<Option<CalledAddresses<'a>>>
    ensures { option_map (λ o. option_map called_values o) result ≡ single (said (λ p. p.connect) source (map told pmus.now)) }
{
    let mut addresses = None;
    'pmus: for pmu in pmus {
        if pmu.key.source == source {
            addresses = only_one(addresses, pmu.connect)?;
        }
    }
    Some(addresses)
}

/// The addresses that are there; nothing where both are.
fn only_one<'a>(
    one: Option<CalledAddresses<'a>>,
    other: Option<CalledAddresses<'a>>,
) -> Option<Option<CalledAddresses<'a>>>
    ensures { option_map (λ o. option_map called_values o) result ≡ single (option_to_list (option_map called_values one.entry) ++ option_to_list (option_map called_values other.entry)) }
{
    match (one, other) {
        (Some(_), Some(_)) => None,
        (Some(one), None) => Some(Some(one)),
        (None, other) => Some(other),
    }
}

/// The rules of a source, or nothing where two of its tables differ.
fn rules_of(pmus: &[PmuTable<'_>], source: PmuId) -> Option<SourceRules>
    ensures { result ≡ rules_of (map told pmus.now) source }
{
    let mut silence = None;
    let mut clock_ms = None;
    let mut ahead_ms = None;
    let mut first = None;
    'pmus: for pmu in pmus {
        if pmu.key.source == source {
            silence = together(silence, pmu.silence)?;
            clock_ms = together(clock_ms, pmu.clock_ms)?;
            ahead_ms = together(ahead_ms, pmu.ahead_ms)?;
            first = together(first, bit_of(pmu.prefer_first))?;
        }
    }
    Some(SourceRules {
        source,
        silence: silence.unwrap_or(SILENCE),
        clock_ms,
        ahead_ms: ahead_ms.unwrap_or(AHEAD_MS),
        prefer_first: is_true(first),
    })
}

/// A truth value as a number: 1 for true, 0 for false.
fn bit_of(truth: Option<bool>) -> Option<u16>
    ensures { result ≡ option_map bit truth }
{
    match truth {
        Some(true) => Some(1),
        Some(false) => Some(0),
        None => None,
    }
}

/// Whether this number says true.
fn is_true(bit: Option<u16>) -> bool
    ensures { result ≡ option_map_or (λ b. b == 1) bit false }
{
    match bit {
        Some(bit) => bit == 1,
        None => false,
    }
}

/// What two tables say together: nothing where they say different values.
fn together(one: Option<u16>, other: Option<u16>) -> Option<Option<u16>>
    ensures { result ≡ agreed (option_to_list one ++ option_to_list other) }
{
    match (one, other) {
        (Some(one), Some(other)) if one != other => None,
        (Some(one), _) => Some(Some(one)),
        (None, other) => Some(other),
    }
}

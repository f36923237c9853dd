//! The rules of a subscriber's port.
ghost use Rattle.std.specs.Prelude.{◌≡◌, ◌⊎◌, IfOk, IfErr, option_map, codes, Some, None, false};
ghost use Rattle.std.specs.Net.Addr.{ipv4_bits};
ghost use Rattle.toml.specs.View.{view, table_view};
ghost use Rattle.pg_operator.specs.Setups.{absent_or, change_in, change_of, port_rules_by, port_rules_of, port_value, host_text_in, list_of, network_text_in, optional, whole_in};

use crate::keys::{STALL, SetupKey};
use crate::{address, table};
use pg_limits::{Allow, Network, OnChange};
use pg_wire::{Refusal, SubId};
use std::alloc::Global;
use std::net::Ipv4Addr;
use toml::{Table, Value};

/// The hosts that may connect to a subscriber's port, when it is hung up, and what is done where the blocks of a stream change.
#[derive(Drop)]
pub struct PortRules {
    /// The subscriber.
    pub sub: SubId,
    /// The address of this machine that the port is bound on; 0.0.0.0 for all of them.
    pub address: Ipv4Addr,
    /// The hosts that may connect.
    pub allow: Allow,
    /// Whether a new connection takes the place of the one that stands; else the new one is refused.
    pub takeover: bool,
    /// It is hung up where bytes wait and its socket took none for so many seconds: 1 to 3600, or 0 for never.
    pub stall: u16,
    /// It is hung up where it neither sent nor was sent a byte for so many seconds: 1 to 3600, or 0 for never.
    pub idle: u16,
    /// What is done where the effective blocks of a stream change while it is on.
    pub change: OnChange,
}

/// The port of a subscriber.
#[derive(Drop)]
pub struct PortSetup {
    /// Its number: 1 to 65535.
    pub port: u16,
    /// Its rules.
    pub rules: PortRules,
}

impl PortSetup {
    /// The same port.
    ///
    /// # Errors
    ///
    /// `NoMemory`.
    pub fn try_clone(&self, alloc: Global) -> Result<PortSetup, Refusal>
        ensures ok { IfOk result (λ copy. port_value copy ≡ port_value self.now) }
        ensures err { IfErr result (λ r. r ≡ Refusal.NoMemory) }
    {
        match self.rules.on(alloc, self.rules.address) {
            Ok(rules) => Ok(PortSetup {
                port: self.port,
                rules,
            }),
            Err(refusal) => Err(refusal),
        }
    }
}

impl PortRules {
    /// Those of a subscriber's port on this address, of which a setup says nothing: every host may connect, none takes the place of another,
    /// and it is hung up after 30 seconds in which it accepts nothing.
    pub fn default_of(sub: SubId, address: Ipv4Addr) -> PortRules
        ensures { port_rules_of result ≡ record { sub = sub; address = ipv4_bits address; allow = None; takeover = false; stall = 30; idle = 0; change = OnChange.Safe } }
    {
        PortRules {
            sub,
            address,
            allow: Allow { networks: None },
            takeover: false,
            stall: STALL,
            idle: 0,
            change: OnChange::Safe,
        }
    }

    /// The same rules, for a port on this address.
    ///
    /// # Errors
    ///
    /// `NoMemory`.
    pub fn on(&self, alloc: Global, address: Ipv4Addr) -> Result<PortRules, Refusal>
        ensures ok { IfOk result (λ copy. port_rules_of copy ≡ record (port_rules_of self.now) { address = ipv4_bits address }) }
        ensures err { IfErr result (λ r. r ≡ Refusal.NoMemory) }
    {
        match copied(alloc, &self.allow) {
            Ok(allow) => Ok(PortRules {
                sub: self.sub,
                address,
                allow,
                takeover: self.takeover,
                stall: self.stall,
                idle: self.idle,
                change: self.change,
            }),
            Err(refusal) => Err(refusal),
        }
    }
}

/// A copy of the hosts that may connect.
fn copied(alloc: Global, allow: &Allow) -> Result<Allow, Refusal>
    ensures ok { IfOk result (λ copy. option_map (λ v. v.items) copy.networks ≡ option_map (λ v. v.items) allow.now.networks) }
    ensures err { IfErr result (λ r. r ≡ Refusal.NoMemory) }
{
    match &allow.networks {
        None => Ok(Allow { networks: None }),
        Some(networks) => {
            let copy = networks.as_slice().to_vec(alloc)?;
            Ok(Allow {
                networks: Some(copy),
            })
        }
    }
}

/// The rules in a subscriber's table.
pub(crate) fn port_rules_at(alloc: Global, sub: SubId, table: &Table) -> Result<PortRules, Refusal>
    ensures ok { IfOk result (λ r. port_rules_by sub (table_view table.now) ≡ Some (port_rules_of r)) }
    ensures err { IfErr result (λ r. (r ≡ Refusal.NoMemory) ⊎ ((r ≡ Refusal.BadSetup) × (port_rules_by sub (table_view table.now) ≡ None))) }
{
    let Some(address) = address_at(table) else {
        return Err(Refusal::BadSetup);
    };
    let Some(takeover) = table::truth(table, SetupKey::TAKEOVER.name, false) else {
        return Err(Refusal::BadSetup);
    };
    let Some(stall) = stall_at(table) else {
        return Err(Refusal::BadSetup);
    };
    let Some(idle) = idle_at(table) else {
        return Err(Refusal::BadSetup);
    };
    let Some(change) = change_at(table) else {
        return Err(Refusal::BadSetup);
    };
    match allow_at(alloc, table) {
        Ok(allow) => Ok(PortRules {
            sub,
            address,
            allow,
            takeover,
            stall,
            idle,
            change,
        }),
        Err(refusal) => Err(refusal),
    }
}

/// The address that the port is bound on, 0.0.0.0 where it is left out.
fn address_at(table: &Table) -> Option<Ipv4Addr>
    ensures { option_map (λ h. ipv4_bits h) result ≡ optional 0 host_text_in (codes "address") (table_view table.now) }
{
    match table::value_at(table, SetupKey::ADDRESS.name) {
        Some(value) => address::bound(value),
        None => Some(Ipv4Addr::new(0, 0, 0, 0)),
    }
}

/// After how many seconds a connection that accepts nothing is closed.
fn stall_at(table: &Table) -> Option<u16>
    ensures { result ≡ optional 30 (whole_in 0 3600) (codes "stall") (table_view table.now) }
{
    Some(table::optional(table, &SetupKey::STALL)? as u16)
}

/// After how many seconds a connection without traffic is closed.
fn idle_at(table: &Table) -> Option<u16>
    ensures { result ≡ optional 0 (whole_in 0 3600) (codes "idle") (table_view table.now) }
{
    Some(table::optional(table, &SetupKey::IDLE)? as u16)
}

/// The word for what is done where the blocks of a stream change.
fn change_of(word: &str) -> Option<OnChange>
    ensures { result ≡ change_of word.now }
{
    match word {
        "safe" => Some(OnChange::Safe),
        "hangup" => Some(OnChange::HangUp),
        "keep" => Some(OnChange::Keep),
        _ => None,
    }
}

/// A value that is such a word.
pub(crate) fn change(value: &Value) -> Option<OnChange>
    ensures { result ≡ change_in (view value.now) }
{
    match value {
        Value::String(word) => change_of(word.as_str()),
        _ => None,
    }
}

/// What is done where the blocks of a stream change, `"safe"` where it is left out.
fn change_at(table: &Table) -> Option<OnChange>
    ensures { result ≡ optional OnChange.Safe change_in (codes "change") (table_view table.now) }
{
    match table::value_at(table, SetupKey::CHANGE.name) {
        Some(value) => change(value),
        None => Some(OnChange::Safe),
    }
}

/// The hosts that may connect, every host where the list is left out.
fn allow_at(alloc: Global, table: &Table) -> Result<Allow, Refusal>
    ensures ok { IfOk result (λ a. absent_or (list_of network_text_in) (codes "allow") (table_view table.now) ≡ Some (option_map (λ v. v.items) a.networks)) }
    ensures err { IfErr result (λ r. (r ≡ Refusal.NoMemory) ⊎ ((r ≡ Refusal.BadSetup) × (absent_or (list_of network_text_in) (codes "allow") (table_view table.now) ≡ None))) }
{
    let Some(value) = table::value_at(table, SetupKey::ALLOW.name) else {
        return Ok(Allow { networks: None });
    };
    match networks_in(alloc, value) {
        Ok(networks) => Ok(Allow {
            networks: Some(networks),
        }),
        Err(refusal) => Err(refusal),
    }
}

/// The networks of a list.
fn networks_in(alloc: Global, value: &Value) -> Result<Vec<Network>, Refusal>
    ensures ok { IfOk result (λ v. list_of network_text_in (view value.now) ≡ Some v.items) }
    ensures err { IfErr result (λ r. (r ≡ Refusal.NoMemory) ⊎ ((r ≡ Refusal.BadSetup) × (list_of network_text_in (view value.now) ≡ None))) }
{
    let Some(items) = value.as_array() else {
        return Err(Refusal::BadSetup);
    };
    let mut networks = Vec::new(alloc);
    'items: for item in items {
        let Some(network) = address::network(item) else {
            return Err(Refusal::BadSetup);
        };
        networks.push(network)?;
    }
    Ok(networks)
}

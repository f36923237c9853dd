//! Sources that are connected to by one setup and not, or otherwise, by another.
ghost use Rattle.std.specs.Prelude.{◌≡◌, ◌++◌, IfOk, IfErr, OnOk, map};
ghost use Rattle.std.specs.List.{filter_map, list_any};
ghost use Rattle.std.specs.Cmp.Lexicographic.{pointwise};
ghost use Rattle.pg_operator.specs.Addresses.{address_value};
ghost use Rattle.pg_operator.specs.Setups.{source_value};
ghost use Rattle.pg_setup.specs.Orders.{address_eq, begun, called_eq, calls_of, connected, ended, orders_between, order_value, rules_eq};

use crate::restarts::is_same_endpoint;
use pg_operator::{PortSetup, Setup, SourceAddress, SourceRules, SourceSetup};
use pg_wire::{PmuId, Refusal, SubId};
use std::alloc::Global;

/// What is to be done about a source or a port.
#[derive(Drop)]
pub enum Order {
    /// The connection of a source ends, and it is connected to no longer.
    Undial(PmuId),
    /// A source is connected to, where its setup says.
    Dial(SourceSetup),
    /// A subscriber's port is closed, and the subscriber that is connected is hung up.
    Unlisten(SubId),
    /// A port is opened for its subscriber.
    Listen(PortSetup),
}

/// The sources that are connected to.
fn calls_of(alloc: Global, sources: &[SourceSetup]) -> Result<Vec<SourceSetup>, Refusal>
    ensures ok { IfOk result (λ calls. map source_value calls.items ≡ calls_of (map source_value sources.now)) }
    ensures err { IfErr result (λ r. r ≡ Refusal.NoMemory) }
{
    let mut calls = Vec::new(alloc);
    'sources: for source in sources {
        if !source.connect.is_empty() {
            let call = match source.try_clone(alloc) {
                Ok(call) => call,
                Err(refusal) => return Err(refusal),
            };
            calls.push(call)?;
        }
    }
    Ok(calls)
}

/// Whether two sources are watched alike.
fn are_rules_alike(one: &SourceRules, other: &SourceRules) -> bool
    ensures { result ≡ rules_eq one.now other.now }
{
    one.source == other.source
        && one.silence == other.silence
        && one.clock_ms == other.clock_ms
        && one.ahead_ms == other.ahead_ms
        && one.prefer_first == other.prefer_first
}

/// Whether both are one address.
fn is_same_address(one: &SourceAddress, other: &SourceAddress) -> bool
    ensures { result ≡ address_eq (address_value one.now) (address_value other.now) }
{
    match (one, other) {
        (SourceAddress::Endpoint(one), SourceAddress::Endpoint(other)) => {
            is_same_endpoint(*one, *other)
        }
        (SourceAddress::Name(one), SourceAddress::Name(other)) => one.as_str() == other.as_str(),
        _ => false,
    }
}

/// Whether both are the same addresses in the same order.
fn is_same_connect(one: &[SourceAddress], other: &[SourceAddress]) -> bool
    ensures { result ≡ pointwise address_eq (map address_value one.now) (map address_value other.now) }
{
    let mut rest = other;
    'addresses: for address in one {
        let Some((beside, behind)) = rest.split_first() else {
            return false;
        };
        if !is_same_address(address, beside) {
            return false;
        }
        rest = behind;
    }
    rest.is_empty()
}

/// Whether both are one source, connected to and watched alike.
fn is_same_call(one: &SourceSetup, other: &SourceSetup) -> bool
    ensures { result ≡ called_eq (source_value one.now) (source_value other.now) }
{
    is_same_connect(one.connect.as_slice(), other.connect.as_slice())
        && are_rules_alike(&one.rules, &other.rules)
}

/// Whether one of the calls is this one.
fn is_called(calls: &[SourceSetup], call: &SourceSetup) -> bool
    ensures { result ≡ list_any (λ d. called_eq (source_value d) (source_value call.now)) calls.now }
{
    calls.iter().any(|other| is_same_call(other, call))
}

/// Ends the calls that are not among the others.
fn end_calls(
    orders: &mut Vec<Order>,
    calls: &[SourceSetup],
    others: &[SourceSetup],
) -> Result<(), Refusal>
    ensures ok { OnOk result (map order_value orders.new.items ≡ map order_value orders.old.items ++ filter_map (λ c. ended (map source_value others.now) (source_value c)) calls.now) }
    ensures err { IfErr result (λ r. r ≡ Refusal.NoMemory) }
{
    'calls: for call in calls {
        if !is_called(others, call) {
            orders.push(Order::Undial(call.rules.source))?;
        }
    }
    Ok(())
}

/// Begins the calls that are not among the others.
fn begin_calls(
    alloc: Global,
    orders: &mut Vec<Order>,
    calls: &[SourceSetup],
    others: &[SourceSetup],
) -> Result<(), Refusal>
    ensures ok { OnOk result (map order_value orders.new.items ≡ map order_value orders.old.items ++ filter_map (λ c. begun (map source_value others.now) (source_value c)) calls.now) }
    ensures err { IfErr result (λ r. r ≡ Refusal.NoMemory) }
{
    'calls: for call in calls {
        if !is_called(others, call) {
            let copy = match call.try_clone(alloc) {
                Ok(copy) => copy,
                Err(refusal) => return Err(refusal),
            };
            orders.push(Order::Dial(copy))?;
        }
    }
    Ok(())
}

/// Adds the orders about sources.
pub(crate) fn add_orders(
    alloc: Global,
    orders: &mut Vec<Order>,
    old: &Setup,
    new: &Setup,
) -> Result<(), Refusal>
    ensures ok { OnOk result (map order_value orders.new.items ≡ map order_value orders.old.items ++ orders_between (connected old.now) (connected new.now)) }
    ensures err { IfErr result (λ r. r ≡ Refusal.NoMemory) }
{
    let before = calls_of(alloc, old.sources.as_slice())?;
    let after = calls_of(alloc, new.sources.as_slice())?;
    end_calls(orders, before.as_slice(), after.as_slice())?;
    begin_calls(alloc, orders, after.as_slice(), before.as_slice())?;
    Ok(())
}

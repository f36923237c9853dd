//! Ports that are open by one setup and not, or otherwise, by another.
ghost use Rattle.std.specs.Prelude.{◌≡◌, ◌++◌, IfOk, IfErr, OnOk, map, option_map};
ghost use Rattle.std.specs.List.{filter_map, list_any};
ghost use Rattle.pg_operator.specs.Setups.{port_rules_of, port_value, subscriber_value};
ghost use Rattle.pg_setup.specs.Orders.{closed, listened_of, port_orders_between, order_value};
ghost use Rattle.pg_setup.specs.Ports.{allow_eq, change_eq, open_ports, opened_eq, port_rules_eq, ports_of};

use crate::orders::Order;
use pg_limits::{Allow, OnChange};
use pg_operator::{PortRules, PortSetup, Setup, SubscriberSetup};
use pg_wire::Refusal;
use std::alloc::Global;

/// The ports of subscribers.
fn ports_of(alloc: Global, subscribers: &[SubscriberSetup]) -> Result<Vec<PortSetup>, Refusal>
    ensures ok { IfOk result (λ v. map port_value v.items ≡ ports_of (map subscriber_value subscribers.now)) }
    ensures err { IfErr result (λ r. r ≡ Refusal.NoMemory) }
{
    let mut ports = Vec::new(alloc);
    'subscribers: for subscriber in subscribers {
        if let Some(port) = &subscriber.port {
            let copy = match port.try_clone(alloc) {
                Ok(copy) => copy,
                Err(refusal) => return Err(refusal),
            };
            ports.push(copy)?;
        }
    }
    Ok(ports)
}

/// Whether the same hosts may connect, by the same networks in the same order.
fn is_same_allow(one: &Allow, other: &Allow) -> bool
    ensures { result ≡ allow_eq (option_map (λ v. v.items) one.now.networks) (option_map (λ v. v.items) other.now.networks) }
{
    match (&one.networks, &other.networks) {
        (None, None) => true,
        (Some(one), Some(other)) => one.as_slice() == other.as_slice(),
        _ => false,
    }
}

/// Whether the same is done where the blocks of a stream change.
fn is_same_change(one: OnChange, other: OnChange) -> bool
    ensures { result ≡ change_eq one other }
{
    matches!(
        (one, other),
        (OnChange::Safe, OnChange::Safe)
            | (OnChange::HangUp, OnChange::HangUp)
            | (OnChange::Keep, OnChange::Keep)
    )
}

/// Whether every field is the same.
fn are_rules_alike(one: &PortRules, other: &PortRules) -> bool
    ensures { result ≡ port_rules_eq (port_rules_of one.now) (port_rules_of other.now) }
{
    one.sub == other.sub
        && one.address.to_bits() == other.address.to_bits()
        && is_same_allow(&one.allow, &other.allow)
        && one.takeover == other.takeover
        && one.stall == other.stall
        && one.idle == other.idle
        && is_same_change(one.change, other.change)
}

/// Whether both are one port.
fn is_same_port(one: &PortSetup, other: &PortSetup) -> bool
    ensures { result ≡ opened_eq (port_value one.now) (port_value other.now) }
{
    one.port == other.port && are_rules_alike(&one.rules, &other.rules)
}

/// Whether one of the ports is this one.
fn is_open(ports: &[PortSetup], port: &PortSetup) -> bool
    ensures { result ≡ list_any (λ q. opened_eq (port_value q) (port_value port.now)) ports.now }
{
    ports.iter().any(|other| is_same_port(other, port))
}

/// Closes the ports that are not among the others.
fn close_ports(
    orders: &mut Vec<Order>,
    ports: &[PortSetup],
    others: &[PortSetup],
) -> Result<(), Refusal>
    ensures ok { OnOk result (map order_value orders.new.items ≡ map order_value orders.old.items ++ filter_map (λ p. closed (map port_value others.now) (port_value p)) ports.now) }
    ensures err { IfErr result (λ r. r ≡ Refusal.NoMemory) }
{
    'ports: for port in ports {
        if !is_open(others, port) {
            orders.push(Order::Unlisten(port.rules.sub))?;
        }
    }
    Ok(())
}

/// Opens the ports that are not among the others.
fn open_ports(
    alloc: Global,
    orders: &mut Vec<Order>,
    ports: &[PortSetup],
    others: &[PortSetup],
) -> Result<(), Refusal>
    ensures ok { OnOk result (map order_value orders.new.items ≡ map order_value orders.old.items ++ filter_map (λ p. listened_of (map port_value others.now) (port_value p)) ports.now) }
    ensures err { IfErr result (λ r. r ≡ Refusal.NoMemory) }
{
    'ports: for port in ports {
        if !is_open(others, port) {
            let copy = match port.try_clone(alloc) {
                Ok(copy) => copy,
                Err(refusal) => return Err(refusal),
            };
            orders.push(Order::Listen(copy))?;
        }
    }
    Ok(())
}

/// Adds the orders about ports.
pub(crate) fn add_orders(
    alloc: Global,
    orders: &mut Vec<Order>,
    old: &Setup,
    new: &Setup,
) -> Result<(), Refusal>
    ensures ok { OnOk result (map order_value orders.new.items ≡ map order_value orders.old.items ++ port_orders_between
        (open_ports old.now) (open_ports new.now)) }
    ensures err { IfErr result (λ r. r ≡ Refusal.NoMemory) }
{
    let before = ports_of(alloc, old.subscribers.as_slice())?;
    let after = ports_of(alloc, new.subscribers.as_slice())?;
    close_ports(orders, before.as_slice(), after.as_slice())?;
    open_ports(alloc, orders, after.as_slice(), before.as_slice())?;
    Ok(())
}

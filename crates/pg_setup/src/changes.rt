//! What is to be done so that a gateway that runs by one setup runs by another.
ghost use Rattle.std.specs.Prelude.{◌≡◌, ◌==◌, ◌++◌, ℕ, false, true, [], IfOk, IfErr, map};
ghost use Rattle.std.specs.List.{list_any};
ghost use Rattle.pg_setup.specs.Apart.{Agree, AgreeOn, touches};
ghost use Rattle.pg_setup.specs.Edits.{edits_between};
ghost use Rattle.pg_setup.specs.Leading.{IsSound, LeadsFrom};
ghost use Rattle.pg_setup.specs.Orders.{SameCalls, SamePorts, connected, is_about, is_of, orders_between, port_orders_between, order_value};
ghost use Rattle.pg_setup.specs.Ports.{open_ports};
ghost use Rattle.pg_operator.specs.Setups.{setup_edits};
ghost use Rattle.pg_setup.specs.Restarts.{keys_of, restarts_between};

use crate::orders::{self, Order};
use crate::restarts::{self, Restart};
use crate::{ports, steps};
use pg_gateway::Edit;
use pg_operator::Setup;
use pg_wire::Refusal;
use std::alloc::Global;

/// What is to be done so that a gateway that runs by one setup runs by another.
#[derive(Drop)]
pub struct Changes {
    /// The edits, in the order in which they are posted.
    pub edits: Vec<Edit>,
    /// What is done about sources and ports, in order, after the edits.
    pub orders: Vec<Order>,
    /// The keys that differ and need a new start.
    pub restarts: Vec<Restart>,
}

/// What is to be done so that a gateway that runs by the old setup runs by the new one.
///
/// The edits are, in this order:
///
/// 1. subscribers that are gone, or whose ring or bytes changed, are dropped;
/// 2. of the other subscribers, streams that are gone or changed are removed, before anything that could make a frame of another layout
///    in them;
/// 3. PMUs that are gone are dropped, which revokes them from each subscriber that holds them;
/// 4. new PMUs are registered;
/// 5. subscribers that are new, or whose ring or bytes changed, are added, with all their grants and streams;
/// 6. of the other subscribers, grants that are gone are revoked, 7. new ones granted, and 8. new and changed streams defined.
///
/// It does not matter in which order a setup has its PMUs, subscribers, grants and streams; a stream's members have theirs. A source
/// is called anew where its address, `silence`, `clock_ms` or `ahead_ms` changed; a port is closed and opened anew where its number or a rule of it
/// changed, and stays where its subscriber is dropped and added again.
///
/// The keys that need a new start are named in the order `tick_ms`, `ingest`, `serve`, `control`, `status`, `name`, `record`, `record_mb`,
/// `record_hours`; `log` needs none.
///
/// # Errors
///
/// `NoMemory` alone.
pub fn changes_between(alloc: Global, old: &Setup, new: &Setup) -> Result<Changes, Refusal>
    ensures edits { IfOk result (λ c. c.edits.items ≡ edits_between (setup_edits old.now) (setup_edits new.now)) }
    ensures neighbours { IfOk result (λ c. (u : ℕ) → AgreeOn (touches (setup_edits old.now) u) (setup_edits old.now) (setup_edits new.now)
        → list_any (touches (setup_edits old.now) u) c.edits.items ≡ false) }
    ensures nothing { IfOk result (λ c. Agree (setup_edits old.now) (setup_edits new.now) → c.edits.items ≡ []) }
    ensures leads { IfOk result (λ c. IsSound (setup_edits old.now) → IsSound (setup_edits new.now)
        → LeadsFrom (setup_edits old.now) (setup_edits new.now) c.edits.items) }
    ensures orders { IfOk result (λ c. map order_value c.orders.items
        ≡ orders_between (connected old.now) (connected new.now) ++ port_orders_between (open_ports old.now) (open_ports new.now)) }
    ensures sources { IfOk result (λ c. (s : ℕ) → SameCalls (λ call. call.rules.source == s) (connected old.now) (connected new.now)
        → list_any (is_about s) (map order_value c.orders.items) ≡ false) }
    ensures ports { IfOk result (λ c. (u : ℕ) → SamePorts (λ port. port.rules.sub == u) (open_ports old.now) (open_ports new.now)
        → list_any (is_of u) (map order_value c.orders.items) ≡ false) }
    ensures quiet { IfOk result (λ c. SameCalls (λ call. true) (connected old.now) (connected new.now)
        → SamePorts (λ port. true) (open_ports old.now) (open_ports new.now) → map order_value c.orders.items ≡ []) }
    ensures restarts { IfOk result (λ c. c.restarts.items ≡ restarts_between (keys_of old.now) (keys_of new.now)) }
    ensures refused { IfErr result (λ r. r ≡ Refusal.NoMemory) }
{
    let before = old.edits(alloc)?;
    let after = new.edits(alloc)?;
    let edits = steps::edits_between(alloc, before.as_slice(), after.as_slice())?;
    let mut orders = Vec::new(alloc);
    orders::add_orders(alloc, &mut orders, old, new)?;
    ports::add_orders(alloc, &mut orders, old, new)?;
    let restarts = restarts::restarts_between(alloc, old, new)?;
    Ok(Changes {
        edits,
        orders,
        restarts,
    })
}

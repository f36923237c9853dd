//! Callers of public calls: what can be concluded from the clauses of these alone. `ring` calls a subscriber's output queue, `turn` the
//! turnstile, `world` the world of all inputs, `service` the loops of the running service; `session` has a law of whole runs of a
//! subscriber's events. What no clause of IEEE C37.118.2 is named for is a rule of this project.
#![tactic(auto)]

mod counter;
mod ring;
mod service;
mod session;
mod turn;
mod world;

pub use counter::{Add, Counter};
pub use ring::three_into_one;
pub use service::{
    Connection, Served, compare_services, link_at, link_calls, serve_at, serve_both, serve_calls,
};
pub use session::lengths_are_known;
pub use turn::{add_both, call_both, call_twice};
pub use world::{Pair, Ran, compare, queues, replay, run_anew};

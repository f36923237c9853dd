//! A turnstile: one value that many threads step in turn, with one legal history for all of their calls.
//!
//! `Machine` is the value, `Turnstile` holds it, and a `Seat` is what one caller knows of the calls so far. All of it is a
//! rule of this project; no standard speaks of it.
#![tactic(auto)]

mod counted;
mod machine;
mod plays;
mod seat;
mod turnstile;
mod view;

pub use machine::Machine;
pub use seat::Seat;
pub use turnstile::Turnstile;

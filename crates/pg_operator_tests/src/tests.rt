//! The tests, by what they test.

mod asserts;
mod lines;
mod reloads;
mod setups;
mod shown;
mod told;

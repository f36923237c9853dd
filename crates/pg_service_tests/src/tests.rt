//! The tests, by what they test.

mod advice;
mod asserts;
mod endpoints;
mod ends;
mod errors;
mod frames;
mod late_looks;
mod lines;
mod logging;
mod registering;
mod reloads;
mod sources;
mod stamping;
mod targets;
mod waking;

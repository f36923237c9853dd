//! The tests, by what they test.

mod ages;
mod asserts;
mod bridges;
mod conversations;
mod dialogues;
mod expected_frames;
mod expected_streams;
mod faults;
mod layouts;
mod limits;
mod passing;
mod phases;
mod plans;
mod signals;
mod state;
mod times;
mod wires;

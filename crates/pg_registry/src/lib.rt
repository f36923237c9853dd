//! The registered PMUs in order of registration, each with the configuration that it announced last and with its counters.
//! What no clause of IEEE C37.118.2 is named for is a rule of this project.
#![tactic(auto)]

mod laws;
mod pmu;
mod registry;

pub use laws::{keys_stay_apart, others_stay, places_stay};
pub use registry::Registry;

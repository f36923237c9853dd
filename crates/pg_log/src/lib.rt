//! What the service logs: the events with their levels and texts, how many of them wait for the log, and how often alike ones are written. It
//! knows neither standard error nor clocks. All of it is a rule of this project.
#![tactic(auto)]

mod asked;
mod change;
mod hold;
mod journal;
mod messages;
mod throttle;

pub use asked::Asked;
pub use change::ConfigChange;
pub use journal::{Detail, Entry, Journal, LogEvent, MOST_PMUS, Subject};
pub use messages::system_words;
pub use throttle::LogThrottle;

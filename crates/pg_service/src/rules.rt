//! The hosts that may connect as a subscriber, and for how long.

use pg_limits::{Allow, OnChange};
use std::time::Duration;

/// The hosts that may connect, and how long a subscriber that connected is waited for.
#[derive(Drop)]
pub struct ConnectionRules {
    /// The hosts that may connect.
    pub allow: Allow,
    /// Whether a new connection takes the place of one that stands for 5 seconds.
    pub takeover: bool,
    /// How long the socket may take none of the bytes that wait; `None` for ever.
    pub stall: Option<Duration>,
    /// How long no byte may go either way; `None` for ever.
    pub idle: Option<Duration>,
    /// What is done where the effective blocks of a stream change while it is on.
    pub change: OnChange,
}

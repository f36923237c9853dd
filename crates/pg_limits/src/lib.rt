//! What the running service decides by time, by address and by counts of bytes, apart from sockets, clocks and the gateway: when a source is
//! called, how long a subscriber is waited for, a limit of reads, hosts that may connect, measurements that are too far from the clock, layouts
//! of data frames that are as long as each other, by which layout a subscriber reads its streams, and bytes that were sent and not acknowledged. All of
//! it is a rule of this project.
#![tactic(auto)]

mod allow;
mod budget;
mod clocks;
mod credit;
mod deadline;
mod guard;
mod held_writer;
mod io;
mod known_layout;
mod known_layouts;
mod laws;
mod layout_changes;
mod layouts;
mod pause;
mod plan;
mod portion;
mod room;
mod switches;
mod tcp;
mod timers;
mod unacknowledged;

pub use allow::{Allow, Network};
pub use budget::Budget;
pub use clocks::Clocks;
pub use credit::Credit;
pub use deadline::Deadline;
pub use guard::{AheadGuard, ClockGuard, Stamp, is_clock_wrong, lower_median, reference};
pub use held_writer::HeldWriter;
pub use io::{AlwaysBlocked, CountingIo, StopAfterShortRead};
pub use known_layout::{FoundStream, KnownLayout, LAYOUTS, ServedOnce, Verdict};
pub use known_layouts::{Judged, KnownLayouts};
pub use laws::{
    floor_rises, never_misread, one_layout, read_right, reading_goes_on, verdicts_keep_the_window,
};
pub use layout_changes::LayoutChanges;
pub use layouts::{OnChange, are_unlike};
pub use pause::Pause;
pub use plan::{Action, CallPlan, Phase};
pub use portion::Portion;
pub use room::least_room;
pub use switches::{STREAMS, Switches};
pub use tcp::TcpRow;
pub use timers::{ConnectionTimers, Timeout};
pub use unacknowledged::Unacknowledged;

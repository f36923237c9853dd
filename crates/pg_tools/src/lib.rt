//! Tools to try a gateway with, and to take its streams elsewhere: a source that is simulated, a subscriber that shows what comes, and one that
//! prints it as lines. They know nothing of the gateway. Of the demo: what its sources play, which data frames have to come, and when each phase ends.
//! What no clause of IEEE C37.118.2 is named for is a rule of this project.
#![tactic(auto)]

mod bridge_options;
mod bridge_stream;
mod command_line;
mod converter;
mod csv_lines;
mod demo_phases;
mod demo_sources;
mod demo_verdict;
mod expected_frames;
mod expected_streams;
mod fault;
mod help;
mod holdover;
mod influx_lines;
mod json_lines;
mod layout;
mod line_parts;
mod line_queue;
mod line_writer;
mod lines;
mod measuring;
mod name_text;
mod options;
mod output_poll;
mod reading;
mod repeat;
mod retry;
mod screen;
mod settings;
mod signal;
mod simulate_source;
mod simulator;
mod slots;
mod socket;
mod source;
mod source_faults;
mod target;
mod unix_time;
mod watch_stream;
mod watcher;
mod wave;

pub use bridge_options::{BridgeArgs, BridgeOptions, Format, read_bridge_options};
pub use bridge_stream::bridge;
pub use command_line::{
    PLAIN, ToolError, bridge_by, bridge_words, simulate_by, simulate_words, watch_by, watch_words,
};
pub use converter::{BridgeCounts, Converter, Ending, Instants};
pub use demo_phases::{DemoFacts, DemoPhase, PhaseMachine};
pub use demo_sources::{DEMO_RATE, DEMO_SOURCES, demo_settings, frame_len};
pub use demo_verdict::DemoVerdict;
pub use expected_frames::{ExpectedFrame, ExpectedFrames, WrongFrame};
pub use expected_streams::ExpectedStreams;
pub use fault::Fault;
pub use line_queue::{Content, Entry, Gap, LineQueue, Why};
pub use measuring::add_measured;
pub use options::{OptionWord, valued, with_options};
pub use retry::{RETRY_TIMEOUT, Retry};
pub use settings::{
    BadOption, Channels, Nominal, Numbers, Settings, SimulateArgs, SimulateOptions, address,
    number, read_simulate_options,
};
pub use simulate_source::simulate;
pub use simulator::{Simulator, SimulatorEvent};
pub use slots::{DataRate, Slots};
pub use source::{CommandEvent, Source, SourceCounts};
pub use source_faults::Faults;
pub use target::Target;
pub use unix_time::{Rate, TIME_BASE, UnixTime};
pub use watch_stream::{
    Observer, Style, WatchArgs, WatchOptions, read_watch_options, watch, watch_with,
};
pub use watcher::{Stamp, Tally, Violation, WatchEvent, Watcher};

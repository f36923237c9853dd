//! What an operator sees of the running service: lines of status, metrics, a page with its state and history, and the connections
//! that ask for them. It knows neither sockets nor clocks. All of it is a rule of this project.
#![tactic(auto)]

mod asking;
mod contents;
mod control_protocol;
mod health;
mod histogram;
mod history;
mod http_exchange;
mod json;
mod lines;
mod metrics;
mod page;
mod places;
mod pmu_text;
mod quality_json;
mod quality_metrics;
mod request;
mod snapshot;
mod station;
mod status;
mod stream_json;
mod stream_metrics;
mod stream_text;
mod write_buffer;

pub use asking::{Answered, BUSY, converse};
pub use contents::{Contents, contents_of};
pub use control_protocol::{Answer, ControlProtocol, LineAnswer, OWED_BYTES, Turned};
pub use health::{Health, health_of};
pub use histogram::{BOUNDS, BUCKETS, Histogram};
pub use history::{Frames, History, Past, SECONDS, Total};
pub use http_exchange::{HttpExchange, Step};
pub use json::state_json;
pub use lines::{END, LINE_BYTES, LineKind, Lines, kind_of};
pub use metrics::print_metrics;
pub use page::page_text;
pub use places::place_for;
pub use request::{HEAD_BYTES, HttpError, Request, Shown, read_request};
pub use snapshot::{
    Call, Ignored, MemberState, Membership, PmuState, Presence, Queue, RecordingState, Snapshot,
    SourceState, StreamState, SubscriberState,
};
pub use station::shown_name;
pub use status::print_status;

//! What the threads of a service record of their calls, and how that comes to whoever writes it. A thread that records waits for nobody:
//! where the writer is too slow, a record is missing, and shows as a gap.
//! What no clause of IEEE C37.118.2 is named for is a rule of this project.
#![tactic(auto)]

mod call_records;
mod exchange;
mod prelude;
mod script_lines;
mod segments;
mod worker_gate;
mod worker_tape;
mod writer;

pub use call_records::{CallRecords, Recorded, RecordedAtOnce, Unrecorded};
pub use exchange::{Handed, Recorder, TapeSlot};
pub use script_lines::edit_line;
pub use segments::Segments;
pub use worker_gate::WorkerGate;
pub use writer::RecordWriter;

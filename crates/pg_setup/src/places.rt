//! Where the edits of a setup are in its file.

use pg_gateway::Edit;
use pg_operator::SetupTable;

/// How many edits were passed, by their tables: the edits of a setup are in the order of its tables.
#[derive(Drop)]
pub(crate) struct Places {
    pmus: usize,
    subscribers: usize,
    streams: usize,
}

impl Places {
    /// None was passed.
    pub(crate) fn new() -> Places {
        Places {
            pmus: 0,
            subscribers: 0,
            streams: 0,
        }
    }

    /// The table and the key of the next edit.
    pub(crate) fn next(&mut self, edit: &Edit) -> (SetupTable, &'static str) {
        match edit {
            Edit::AddPmu(_) => {
                let number = self.pmus;
                self.pmus = number.saturating_add(1);
                (SetupTable::Pmu(number), "id")
            }
            Edit::AddSub(..) => {
                self.subscribers = self.subscribers.saturating_add(1);
                self.streams = 0;
                (self.subscriber(), "id")
            }
            Edit::Define(..) => {
                let stream = self.streams;
                self.streams = stream.saturating_add(1);
                let number = self.subscribers.saturating_sub(1);
                (SetupTable::Stream(number, stream), "id")
            }
            _ => (self.subscriber(), "grants"),
        }
    }

    /// The table of the last subscriber.
    fn subscriber(&self) -> SetupTable {
        SetupTable::Subscriber(self.subscribers.saturating_sub(1))
    }
}

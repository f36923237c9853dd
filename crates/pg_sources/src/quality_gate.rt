//! A gate that measures the data that go through it.

ghost use Rattle.std.specs.Prelude.{◌≡◌};

use crate::measures::Measures;
use pg_gateway::{Event, Gate, Reply};

/// A gate that notes each announcement and each data frame of the source that is served, before it is posted. All is answered as by the gate inside.
#[derive(Drop)]
pub struct QualityGate<G> {
    /// The gate inside.
    pub gate: G,
    /// What it notes.
    pub measures: Measures,
}

impl<G> QualityGate<G> {
    /// A gate before this one.
    pub fn new(gate: G, measures: Measures) -> QualityGate<G>
        ensures gate { result.gate ≡ gate }
    {
        QualityGate { gate, measures }
    }

    /// The gate inside.
    pub fn into_inner(self) -> G
        ensures { result ≡ self.gate }
    {
        let QualityGate { gate, .. } = self;
        gate
    }

    /// Notes an event of the source that is served.
    #[inline(always)]
    fn note(&mut self, event: &Event)
        ensures gate { self.new.gate ≡ self.old.gate }
    {
        if let Event::Measure(frame) = event {
            self.measures.note(frame);
        } else if let Event::Announce(config) = event {
            self.measures.announce(config);
        }
    }
}

impl<G: Gate> Gate for QualityGate<G> {
    ghost posts = { λ s. G.posts s.gate };

    ghost takes = { λ s. G.takes s.gate };

    ghost goes_on = { λ s t. G.goes_on s.gate t.gate };

    ghost frames = { λ s. G.frames s.gate };

    ghost stays = { λ s. G.stays s.gate };

    ghost joins = { λ s t u. G.joins s.gate t.gate u.gate };

    #[inline(always)]
    fn post(&mut self, event: Event) -> Reply {
        self.note(&event);
        self.gate.post(event)
    }
}

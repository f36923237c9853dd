//! A gate that counts announcements.

ghost use Rattle.std.specs.Prelude.{◌≡◌};

use pg_gateway::{Event, Gate, Reply};
use pg_limits::LayoutChanges;

/// A gate that counts each announcement as a change of layouts that is begun before it is posted, and done behind that. All is
/// answered as by the gate inside.
#[derive(Drop)]
pub struct CountedAnnouncements<'a, G> {
    /// The gate inside.
    pub gate: G,
    changes: &'a LayoutChanges,
}

impl<'a, G: Gate> CountedAnnouncements<'a, G> {
    /// A gate before this one, with these counts.
    pub fn new(gate: G, changes: &'a LayoutChanges) -> CountedAnnouncements<'a, G>
        ensures gate { result.gate ≡ gate }
    {
        CountedAnnouncements { gate, changes }
    }

    /// The gate inside.
    pub fn into_inner(self) -> G
        ensures { result ≡ self.entry.gate }
    {
        let CountedAnnouncements { gate, .. } = self;
        gate
    }
}

impl<G: Gate> Gate for CountedAnnouncements<'_, G> {
    ghost posts = { λ s. G.posts s.gate };

    ghost takes = { λ s. G.takes s.gate };

    ghost goes_on = { λ s t. G.goes_on s.gate t.gate };

    ghost frames = { λ s. G.frames s.gate };

    ghost stays = { λ s. G.stays s.gate };

    ghost joins = { λ s t u. G.joins s.gate t.gate u.gate };

    #[inline(always)]
    fn post(&mut self, event: Event) -> Reply {
        let Event::Announce(_) = &event else {
            return self.gate.post(event);
        };
        self.changes.begin();
        let reply = self.gate.post(event);
        self.changes.end();
        reply
    }
}

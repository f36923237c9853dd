//! Where events are posted.

ghost use Rattle.std.specs.Prelude.{◌≡◌, Bool, true, false, List, Option, None};
ghost use Rattle.pg_gateway.specs.GatewayEvents.{GatewayEvent, gateway_event, told};
ghost use Rattle.pg_gateway.specs.Posting.{Answers, IsMeasured, Posted, Notes, posted_if};

use crate::event::{Event, Reply};
use pg_wire::Refusal;

/// Where events are posted, one at a time: a gateway, or one that is shared with others.
pub trait Gate {
    // What was posted to it and answered, in order, where it says so.
    ghost posts: { Self → Option (List Posted) } = { λ _. None };

    // Which events it takes. It refuses the others with FarClock (21), and does not post them: they are data frames of sources.
    ghost takes: { Self → GatewayEvent → Bool } = { λ _ _. true };

    // How it goes on from one value to a later one, whatever it was posted.
    ghost goes_on: { Self → Self → Type 0 } = { λ _ _. Unit {0} };

    /// Posts an event that it takes, and gives its reply. A drain is answered with a drain's reply, and a buffer as long as the event's; all
    /// other events without a buffer.
    fn post(&mut self, event: Event) -> Reply
        ensures answers { Answers event result }
        ensures posted { Notes (posts self.old) (posts self.new) (posted_if (takes self.old (gateway_event event)) (gateway_event event) (told result)) }
        ensures takes { takes self.new ≡ takes self.old }
        ensures refused { takes self.old (gateway_event event) ≡ false → result ≡ Reply.Refused Refusal.FarClock }
        ensures goes_on { goes_on self.old self.new };

    ghost frames: { (g : Self) (o : GatewayEvent) → takes g o ≡ false → IsMeasured o };

    ghost stays: { (g : Self) → goes_on g g };

    ghost joins: { (g h k : Self) → goes_on g h → goes_on h k → goes_on g k };
}

//! The gateway as a machine that slots share, and as a gate.

ghost use Rattle.std.specs.Prelude.{[], ◌∷◌, None};
ghost use Rattle.pg_gateway.specs.GatewayEvents.{gateway_event, told};
ghost use Rattle.pg_gateway.specs.Posting.{Answers, Notes};
ghost use Rattle.pg_gateway.specs.Shown.{Goes};

use crate::event::{Event, Reply};
use crate::gate::Gate;
use crate::gateway::Gateway;
use pg_turn::Machine;

impl Machine for Gateway {
    ghost use Rattle.pg_gateway.specs.Histories.{ShowsCalls, MayCall};

    type Event = Event;

    type Reply = Reply;

    ghost shows = { λ g calls. ShowsCalls g calls };

    ghost may = { λ calls event reply. MayCall calls event reply };

    #[inline(always)]
    fn step(&mut self, event: Event) -> Reply {
        Gateway::step(self, event)
    }
}

impl Gate for Gateway {
    ghost frames = { λ _ _ e. absurd (cc e) };

    ghost stays = { λ _. tt };

    ghost joins = { λ _ _ _ _ _. tt };

    fn post(&mut self, event: Event) -> Reply
        ensures goes { Goes self.old (gateway_event event) (told result) self.new }
        ensures answers { Answers event result }
        ensures posted { Notes None None ((gateway_event event, told result) ∷ []) }
    {
        Gateway::step(self, event)
    }
}

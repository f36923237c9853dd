//! Lemmas about the loops over a shared gateway: contracts of functions that do nothing.
ghost use Rattle.std.specs.Prelude.{◌≡◌, ℕ, true, List, [], ◌++◌, ◌∷◌, Option, Some};
ghost use Rattle.std.specs.List.{flat_map};
ghost use mathlib.Core.List.{IsPrefix};
ghost use Rattle.pg_ingest.specs.declared.run.End.{End};
ghost use Rattle.pg_gateway.specs.GatewayEvents.{Answer};
ghost use Rattle.pg_gateway.specs.Posting.{Posted};
ghost use Rattle.pg_session.specs.Commands.{Hearing, Item, ShowsHearing};
ghost use Rattle.pg_shared.specs.Serving.{Call as Post, drains, handed_by, AreWritten, Ran, Served};
ghost use Rattle.pg_turn.specs.Known.{Known};
ghost use Rattle.pg_gateway.specs.declared.event.Event.{Event};
ghost use Rattle.pg_gateway.specs.declared.event.Reply.{Reply};
ghost use Rattle.pg_ingest.specs.Linking.{Linking};
ghost use Rattle.pg_ingest.specs.Runs.{wires};
ghost use Rattle.pg_ingest.specs.Shown.{LinkPast, asked_again, ShowsLink as ShowsPast};
ghost use Rattle.pg_ingest.specs.Served.{IsFresh, IsCall};
ghost use Rattle.pg_shared.specs.Gates.{said_at};
ghost use Rattle.pg_shared.specs.Onward.{own_in, GoesOn};
ghost use Rattle.pg_shared.specs.Telling.{Tells, HasTold};
ghost use Rattle.pg_shared.specs.Delivery.{NoneDrains, ArePassed, Delivers, Hears, HasHeard};
ghost use Rattle.pg_shared.specs.Sharing.{Call};
ghost use Rattle.pg_shared.specs.Both.{DecidedByViews, DeliverAlike, DeliversIn};

/// Calls of `serve_session`, one after another, are one run from the first session to the last: so what is said of a call is
/// said of all calls since the session was new, when nothing was left to write. And wherever a drain was posted, what had been
/// left and was handed out before it begins what is written.
pub fn serving_goes_on()
    ensures call { (end : End) (v v' : Hearing) (r r' w w' : Option (List ℕ)) (p p' : Option (List Posted))
        → Served end v v' r r' w w' p p' → Ran v v' r r' w w' p p' }
    ensures calls { (v v' v'' : Hearing) (r r' r'' w w' w'' : Option (List ℕ)) (p p' p'' : Option (List Posted))
        → Ran v v' r r' w w' p p' → Ran v' v'' r' r'' w' w'' p' p'' → Ran v v'' r r'' w w'' p p'' }
    ensures drained { (out left : List ℕ) (first then : List Post) (a : Answer)
        → AreWritten out left (first ++ (drains, a) ∷ then) → IsPrefix (left ++ flat_map handed_by first) out }
{}

/// A call of `serve_session` over a gate that holds a seat delivers to the subscriber what the private gateway of its view
/// hands out, and posts the commands of the bytes that it reads. While the gate is posted to without a drain of the subscriber
/// nothing is delivered. And what is delivered over two spans, one after the other, is delivered over both; and so of what is
/// heard: all calls of a session since it was new post the commands of all bytes that were read in them.
pub fn deliveries_go_on()
    ensures call { (end : End) (s s' : Known Event Reply) (v v' : Hearing) (stream : List ℕ) (given : List Item)
        (r r' w w' : Option (List ℕ)) → ShowsHearing v stream given
        → Served end v v' r r' w w' (Some (said_at s.seen s.own)) (Some (said_at s'.seen s'.own)) → GoesOn s s'
        → Delivers v.sub s s' v.left v'.left w w' }
    ensures heard { (end : End) (s s' : Known Event Reply) (v v' : Hearing) (stream : List ℕ) (given : List Item)
        (r r' w w' : Option (List ℕ)) → ShowsHearing v stream given
        → Served end v v' r r' w w' (Some (said_at s.seen s.own)) (Some (said_at s'.seen s'.own)) → GoesOn s s'
        → Hears stream given v v' s s' r r' }
    ensures meanwhile { (u : ℕ) (s s' : Known Event Reply) (left : List ℕ) (w : Option (List ℕ)) (on : GoesOn s s')
        → NoneDrains u (own_in on.pieces) → Delivers u s s' left left w w }
    ensures joins { (u : ℕ) (s t x : Known Event Reply) (l l' l'' : List ℕ) (w w' w'' : Option (List ℕ))
        → Delivers u s t l l' w w' → Delivers u t x l' l'' w' w'' → Delivers u s x l l'' w w'' }
    ensures heard_joins { (stream : List ℕ) (given : List Item) (v v' v'' : Hearing) (s t x : Known Event Reply)
        (r r' r'' : Option (List ℕ)) → (one : Hears stream given v v' s t r r')
        → Hears (stream ++ one.bytes) (given ++ one.items) v' v'' t x r' r'' → Hears stream given v v'' s x r r'' }
    ensures heard_none { (u : ℕ) (v : Hearing) (s s' : Known Event Reply) (r : Option (List ℕ)) (on : GoesOn s s')
        → v.sub ≡ u → ShowsHearing v [] [] → ArePassed u (own_in on.pieces) [] → HasHeard u v s s' r r }
    ensures heard_more { (u : ℕ) (v v' : Hearing) (s t x : Known Event Reply) (r r' r'' : Option (List ℕ))
        → HasHeard u v s t r r'
        → ((stream : List ℕ) (given : List Item) → ShowsHearing v stream given → Hears stream given v v' t x r' r'')
        → HasHeard u v' s x r r'' }
{}

/// Two services in which a subscriber sees the same give its sockets the same bytes, also where that is said of its views of
/// their two histories alone. And what was delivered to it is what the
/// private gateway of its view of the whole history hands out, also where that goes on behind the seat's last call: so what
/// several threads delivered holds of one history.
pub fn deliveries_agree()
    ensures alike { (u : ℕ) (s s' t t' : Known Event Reply) (left left' : List ℕ) (w w' x x' : Option (List ℕ))
        → Delivers u s s' [] left w w' → Delivers u t t' [] left' x x' → DeliverAlike u s s' t t' left left' w w' x x' }
    ensures views { (u : ℕ) (s s' t t' : Known Event Reply) (left left' : List ℕ) (w w' x x' : Option (List ℕ))
        → (one : Delivers u s s' [] left w w') → (other : Delivers u t t' [] left' x x')
        → DecidedByViews u s s' t t' left left' w w' x x' one other }
    ensures whole { (history : List Call) (u : ℕ) (v v' : Known Event Reply) (left left' : List ℕ) (w w' : Option (List ℕ))
        → IsPrefix v'.seen history → Delivers u v v' left left' w w' → DeliversIn history u v v' left left' w w' }
{}

/// A call of `run_link` over a gate that holds a seat posts at the seat's own places just the events of the bytes that it
/// reads. And so do all calls since the link was new or reset, whether or not its source was asked again between them.
pub fn links_tell_on()
    ensures call { (end : End) (turns : ℕ) (s s' : Known Event Reply) (v v' : Linking) (r r' w w' : Option (List ℕ))
        → IsCall end turns v v' (wires r w (Some (said_at s.seen s.own)) (λ o. true)) (wires r' w' (Some (said_at s'.seen s'.own)) (λ o. true))
        → GoesOn s s' → Tells v v' s s' r r' }
    ensures none { (v : Linking) (s : Known Event Reply) (r : Option (List ℕ)) (past : LinkPast)
        → ShowsPast v past → IsFresh past → HasTold past.source v s s r r }
    ensures more { (source : ℕ) (v v' : Linking) (s t x : Known Event Reply) (r r' r'' : Option (List ℕ))
        → HasTold source v s t r r' → Tells v v' t x r' r'' → HasTold source v' s x r r'' }
    ensures again { (source : ℕ) (v v' : Linking) (s t : Known Event Reply) (r r' : Option (List ℕ))
        → HasTold source v s t r r' → ((past : LinkPast) → ShowsPast v past → ShowsPast v' (asked_again past)) → HasTold source v' s t r r' }
{}

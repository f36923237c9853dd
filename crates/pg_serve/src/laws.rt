//! Lemmas about the world: contracts of functions that do nothing.
ghost use Rattle.pg_serve.specs.Full.{InputsIsolate, SharedFrame, view_of};
ghost use Rattle.std.specs.Prelude.{◌≡◌, ◌≤◌, ℕ, List};
ghost use Rattle.pg_serve.specs.Inputs.{InputValue};
ghost use Rattle.pg_serve.specs.Others.{adds_in, NeighboursChangeNothing};
ghost use Rattle.pg_serve.specs.Framed.{FramesAreEvents, SameButUngranted};
ghost use Rattle.pg_serve.specs.Replaying.{ReplaysAlike};

/// Two lists of inputs that give a subscriber equal views leave it alike, queue the same for it, and hand it the same bytes,
/// where no memory is refused.
pub fn equal_views_queue_alike()
    ensures { InputsIsolate }
{}

/// Of a frame of several PMUs a subscriber has its granted blocks alone: where two worlds take bytes that agree on these and
/// differ otherwise in any way, it goes on alike, where no memory is refused.
pub fn own_blocks_alone()
    ensures { SharedFrame }
{}

/// Two lists of inputs that differ only in inputs which name other subscribers give a subscriber equal views, where neither
/// adds subscribers more than 64 times.
pub fn neighbours_change_nothing()
    ensures { NeighboursChangeNothing }
{}

/// The bytes of a data frame with a right CHK, by the configuration of their link, are one event: the measurement of just the
/// frame's blocks (C37.118.2, 6.3).
pub fn frames_are_events()
    ensures { FramesAreEvents }
{}

/// Two lists of inputs that are the same, but for the bytes of data frames which differ in blocks that a subscriber is not
/// granted, give it equal views, where they add subscribers at most 64 times.
pub fn ungranted_bytes_change_nothing()
    ensures { (u : ℕ) (is js : List InputValue) → adds_in is ≤ 64 → SameButUngranted u is js → view_of u is ≡ view_of u js }
{}

/// A script makes just the events that it spells; and where it spells all events of a gateway's history but those that concern nobody, its
/// replay hands each subscriber the bytes that the history's drains handed it, and leaves its queue alike. The history tells no loss and no
/// want of memory, and neither does the replay.
pub fn replays_alike()
    ensures { ReplaysAlike }
{}

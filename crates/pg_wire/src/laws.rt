//! Laws of checks, frames and streams, as contracts of functions that do nothing.

ghost use Rattle.std.specs.Prelude.{◌≡◌, ◌<◌, ◌+◌, ◌^◌, ℕ, List, [], ◌++◌, length, slice_index};
ghost use Rattle.pg_wire.specs.Check.{IsRemainder};
ghost use Rattle.pg_wire.specs.Frame.{IsWhole};
ghost use Rattle.pg_wire.specs.Head.{Heading, HeadFits, IsFrame, IsSpelled, SpellsBack, frame_of};
ghost use Rattle.pg_wire.specs.Heads.{ended, start_of};
ghost use Rattle.pg_wire.specs.Split.{frames_in, rest_in};
ghost use Rattle.pg_wire.specs.Stream.{Splits};

/// A division leaves one remainder only, so the check of some bytes is one number.
pub fn one_remainder()
    ensures { (p r s : ℕ) → IsRemainder p r → IsRemainder p s → r ≡ s }
{}

/// There is only one way to cut a stream into frames.
pub fn one_split()
    ensures { (stream : List ℕ) (fs gs : List (List ℕ)) (x y : List ℕ) → Splits stream fs x → Splits stream gs y → (fs ≡ gs) × (x ≡ y) }
{}

/// Each stream is cut into frames, and there is a function that says how.
pub fn stream_is_split()
    ensures splits { (stream : List ℕ) → Splits stream (frames_in stream) (rest_in stream) }
    ensures only { (stream : List ℕ) (frames : List (List ℕ)) (rest : List ℕ) → Splits stream frames rest → (frames ≡ frames_in stream) × (rest ≡ rest_in stream) }
{}

/// More bytes only append: to the frames there were come those of the rest with these bytes behind it.
pub fn split_appends()
    ensures frames { (stream more : List ℕ) → frames_in (stream ++ more) ≡ frames_in stream ++ frames_in (rest_in stream ++ more) }
    ensures rest { (stream more : List ℕ) → rest_in (stream ++ more) ≡ rest_in (rest_in stream ++ more) }
{}

/// A stream that goes on keeps its frames.
pub fn goes_on()
    ensures { (stream more : List ℕ) (fs gs : List (List ℕ)) (x y : List ℕ) → Splits stream fs x → Splits (stream ++ more) gs y
        → (hs : List (List ℕ)) × (gs ≡ fs ++ hs) }
{}

/// No frame is a proper prefix of another.
pub fn no_frame_begins_another()
    ensures { (frame more : List ℕ) → IsWhole frame → IsWhole (frame ++ more) → more ≡ [] }
{}

/// Each frame is the spelling of its head and its body.
pub fn frame_is_spelled()
    ensures { (bytes : List ℕ) → IsFrame bytes → ((i : ℕ) → slice_index bytes i < 256) → IsSpelled bytes }
{}

/// What a head and a body spell is a frame, and it is read as that head and that body.
pub fn spelling_is_frame()
    ensures { (h : Heading) (body : List ℕ) → HeadFits h → 16 + length body < 2 ^ 16 → ((i : ℕ) → slice_index body i < 256) → SpellsBack h body }
{}

/// A frame that was started for a body of this length, with that body behind it, ends as their spelling.
pub fn started_is_spelled()
    ensures { (h : Heading) (body : List ℕ) → ended (start_of h (16 + length body) ++ body) ≡ frame_of h body }
{}

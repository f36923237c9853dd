//! Lemmas about the events of a source's bytes and the commands that are due: contracts of functions that do nothing.

ghost use Rattle.std.specs.Prelude.{◌≡◌, ◌<◌, ◌↔◌, ℕ, true, false, if◌then◌else◌, List, [], ◌∷◌, ◌++◌, reverse, All, Some, None};
ghost use Rattle.std.specs.List.{list_any};
ghost use Rattle.pg_wire.specs.Split.{frames_in};
ghost use Rattle.pg_command.specs.declared.word.Word.{Word};
ghost use Rattle.pg_command.specs.declared.word.Word.TheVariants.{SendCfgTwo, StartData};
ghost use Rattle.pg_ingest.specs.declared.run.End.{End};
ghost use Rattle.pg_ingest.specs.Items.{Item, AreTold, IsOwn, is_want, told_of};
ghost use Rattle.pg_ingest.specs.Commands.{Act, asks, told_in, is_accepted, is_unanswered, owes_config};
ghost use Rattle.pg_ingest.specs.Owed.{HasUnanswered, HasOwed};
ghost use Rattle.pg_ingest.specs.Linking.{Linking};
ghost use Rattle.pg_ingest.specs.Runs.{Wires};
ghost use Rattle.pg_ingest.specs.Shown.{LinkPast, ShowsLink, IsAllTold, doing, asked_again, word_due};
ghost use Rattle.pg_ingest.specs.Served.{IsFresh, IsCall, SoFar, Served, words_due};

/// Where no memory is wanted, the stream alone says what is told of it.
pub fn told_is_a_function()
    ensures { (source : ℕ) (stream : List ℕ) (items : List Item)
        → AreTold source (reverse (frames_in stream)) (reverse items) → list_any is_want items ≡ false → items ≡ told_of source stream }
{}

/// More bytes only append to what is told.
pub fn told_goes_on()
    ensures { (source : ℕ) (stream more : List ℕ) → (items : List Item) × (told_of source (stream ++ more) ≡ told_of source stream ++ items) }
{}

/// Whatever is announced or measured is the source's own, by the IDCODE of its frame.
pub fn told_is_own()
    ensures { (source : ℕ) (frames : List (List ℕ)) (items : List Item) → AreTold source frames items → All (IsOwn source) items }
{}

/// Command 5 is unanswered where it fell due at an item and no item since is an answer; it is owed where it fell due and
/// was not given since.
pub fn command_is_owed()
    ensures unanswered { (items : List Item) → (is_unanswered items ≡ true) ↔ HasUnanswered items }
    ensures owed { (acts : List Act) → (owes_config acts ≡ true) ↔ HasOwed acts }
{}

/// Asking `next_out` until it gives none gives the words that are due: none where none is owed, else the one that is owed and
/// then those that are due behind it. Where the source is asked again these are 5, and 2 where a configuration was accepted.
pub fn words_are_due()
    ensures none { (past : LinkPast) → word_due past ≡ None → words_due past ≡ [] }
    ensures some { (past : LinkPast) (word : Word) → word_due past ≡ Some word → words_due past ≡ word ∷ words_due (doing past (asks word)) }
    ensures again { (past : LinkPast) → words_due (asked_again past) ≡ SendCfgTwo ∷ (if list_any is_accepted (told_in past.acts) then StartData ∷ [] else []) }
{}

/// Calls of `run_link` one after another are one run: a first call on a link with nothing left to write, and then call after
/// call, each where the one before it ended, its reader, writer and gate as that one left them.
pub fn calls_are_one_run()
    ensures first { (end : End) (turns : ℕ) (past : LinkPast) (v v' : Linking) (before after : Wires)
        → 0 < turns → ShowsLink v past → v.left ≡ [] → IsCall end turns v v' before after → SoFar end past v' before after }
    ensures next { (end end' : End) (turns : ℕ) (past : LinkPast) (v v' : Linking) (first before after : Wires)
        → 0 < turns → SoFar end past v first before → IsCall end' turns v v' before after → SoFar end' past v' first after }
{}

/// All calls of `run_link` since a link was new, was reset or asked its source again posted what the bytes tell that they read,
/// behind those that were read before, and wrote a prefix of the link's commands, `next_out` being asked until none before each
/// piece of these bytes: the whole of it, unless the last call ended as `Stalled` or `Fault(40)`.
pub fn calls_serve_the_source()
    ensures served { (end : End) (past : LinkPast) (v : Linking) (before after : Wires)
        → IsAllTold past → SoFar end past v before after → Served end past v.left before after }
    ensures fresh { (past : LinkPast) → IsFresh past → IsAllTold past }
    ensures again { (past : LinkPast) → IsAllTold past → IsAllTold (asked_again past) }
{}

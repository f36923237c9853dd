//! Laws of slots that leave, as contracts of functions that do nothing: a caller that needs one calls it.
ghost use Rattle.std.specs.Prelude.{◌≡◌, ◌≤◌, ℕ, List, [], length, map, Some, None, false};
ghost use Rattle.pg_data.specs.Pieces.{Piece};
ghost use Rattle.pg_align.specs.declared.answer.Arrived.{Arrived};
ghost use Rattle.pg_align.specs.Histories.{Departed, StreamHistory, RiseTo, answer_to, flush_all, flush_one, is_above, leave_all, leave_one, next_to_flush, next_to_leave, open_slots, slot_left, take_arrival, with_first, with_late};
ghost use Rattle.pg_align.specs.Slots.{Aligned, OpenSlot, after_leaving, all_flushed, all_leaving, flushed_of, leaving_of, others_than, after_flush};
ghost use Rattle.pg_align.specs.Counts.{LookBack};
ghost use Rattle.pg_align.specs.Shown.{Shows};

/// What `leave_next` does, by the list of all arrivals: whatever history an alignment shows, the slot that leaves is that
/// history's, and afterwards it shows that history with this slot gone. The same of all slots that leave, one after
/// another.
pub fn leaving_shows_history()
    ensures next { (align : Aligned Piece) (h : StreamHistory Piece) → Shows align h → leaving_of align ≡ next_to_leave h }
    ensures after { (align : Aligned Piece) (h : StreamHistory Piece) → Shows align h
        → Shows (after_leaving align) (leave_one h) }
    ensures frames { (align : Aligned Piece) (h : StreamHistory Piece) → Shows align h
        → (all_leaving align).frames ≡ (leave_all h).frames }
    ensures end { (align : Aligned Piece) (h : StreamHistory Piece) → Shows align h
        → Shows (all_leaving align).after (leave_all h).after }
{}

/// What `flush_next` does, by the list of all arrivals, and the same of all open slots.
pub fn flushing_shows_history()
    ensures next { (align : Aligned Piece) (h : StreamHistory Piece) → Shows align h → flushed_of align ≡ next_to_flush h }
    ensures after { (align : Aligned Piece) (h : StreamHistory Piece) → Shows align h
        → Shows (after_flush align) (flush_one h) }
    ensures frames { (align : Aligned Piece) (h : StreamHistory Piece) → Shows align h
        → (all_flushed align).frames ≡ (flush_all h).frames }
    ensures end { (align : Aligned Piece) (h : StreamHistory Piece) → Shows align h
        → Shows (all_flushed align).after (flush_all h).after }
{}

/// The slots that leave are the next one and those that leave after it: what a loop over `leave_next` carries along.
pub fn all_leaving_in_steps()
    ensures some { (align : Aligned Piece) (first : Departed Piece) → leaving_of align ≡ Some first
        → all_leaving align ≡ with_first first (all_leaving (after_leaving align)) }
    ensures none { (align : Aligned Piece) → leaving_of align ≡ None
        → all_leaving align ≡ record { frames = []; after = align } }
{}

/// The slots of a flush are the next one and those that leave after it: what a loop over `flush_next` carries along.
pub fn all_flushed_in_steps()
    ensures some { (align : Aligned Piece) (first : Departed Piece) → flushed_of align ≡ Some first
        → all_flushed align ≡ with_first first (all_flushed (after_flush align)) }
    ensures none { (align : Aligned Piece) → flushed_of align ≡ None
        → all_flushed align ≡ record { frames = []; after = align } }
{}

/// By the list of all arrivals: while a slot is to leave it leaves, and what leaves after it is what the history then lets
/// leave; where none is to leave, nothing changes.
pub fn leaving_repeats()
    ensures some { (h : StreamHistory Piece) (first : Departed Piece) → next_to_leave h ≡ Some first
        → leave_all h ≡ with_first first (leave_all (leave_one h)) }
    ensures none { (h : StreamHistory Piece) → next_to_leave h ≡ None → leave_all h ≡ record { frames = []; after = h } }
    ensures ends { (h : StreamHistory Piece) → next_to_leave (leave_all h).after ≡ None }
    ensures flushed { (h : StreamHistory Piece) (first : Departed Piece) → next_to_flush h ≡ Some first
        → flush_all h ≡ with_first first (flush_all (flush_one h)) }
    ensures none_open { (h : StreamHistory Piece) → open_slots (flush_all h).after ≡ [] }
{}

/// Once all that are to leave have left, at most the window's slots are open; after a flush none is. So there is room for
/// an arrival.
pub fn few_stay_open()
    ensures others { (slots : List (OpenSlot Piece)) (slot : ℕ) → others_than slot slots ≤ length slots }
    ensures left { (align : Aligned Piece) → length (all_leaving align).after.slots ≤ align.window }
    ensures flushed { (align : Aligned Piece) → (all_flushed align).after.slots ≡ [] }
    ensures count { (align : Aligned Piece) (h : StreamHistory Piece) → Shows align h
        → length align.slots ≡ length (open_slots h) }
{}

/// By the list of all arrivals: the slots that leave rise strictly, each above the last one that had left in this on-period, and the
/// last of them is afterwards the last one that left. What arrives for that slot or an earlier one is late, and changes nothing but the count of its member's late blocks. So
/// no slot leaves twice in an on-period.
pub fn slots_rise()
    ensures left { (h : StreamHistory Piece) → RiseTo (leave_all h).after.last h.last (map slot_left (leave_all h).frames) }
    ensures flushed { (h : StreamHistory Piece) → RiseTo (flush_all h).after.last h.last (map slot_left (flush_all h).frames) }
    ensures late { (h : StreamHistory Piece) (slot place : ℕ) (part : Piece) → is_above h.last slot ≡ false
        → (answer_to h slot place ≡ Arrived.Late) × (take_arrival h slot place part ≡ with_late h place) }
{}

/// What the counts of a stream are, looking back over all slots that left since it was defined, and over the blocks that came too late.
pub fn counts_look_back()
    ensures { LookBack Piece }
{}

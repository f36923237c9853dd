//! Lemmas about the shared machine: contracts of functions that do nothing.
ghost use Rattle.pg_gateway.specs.Laws.{Isolation, EqualViews, SharedFrame, NothingLost};

/// After any events each subscriber is what a private gateway makes of that subscriber's view of them alone, and is handed
/// what that gateway hands out, where no memory is refused.
pub fn each_goes_by_its_view()
    ensures { Isolation }
{}

/// So two lists of events that give a subscriber equal views leave it alike and hand it the same bytes.
pub fn equal_views_leave_alike()
    ensures { EqualViews }
{}

/// Of a frame of several PMUs a subscriber has its granted blocks alone.
pub fn own_blocks_alone()
    ensures { SharedFrame }
{}

/// Replies that report no loss and no want of memory are those of a run in which no memory is refused.
pub fn nothing_lost_is_full()
    ensures { NothingLost }
{}

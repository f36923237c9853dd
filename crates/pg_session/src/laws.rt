//! Lemmas about whole runs of private events: contracts of functions that do nothing.

ghost use Rattle.pg_session.specs.Counts.{ChangesAreTold};
ghost use Rattle.pg_session.specs.Laws.{NeedsNoMemory, NumbersAreKept, OnlyTimeEnds, RunsGoOn};
ghost use Rattle.pg_session.specs.Stamps.{StampsRise};

/// A longer run of private events goes on where the shorter one ends: in its state, in its replies where no memory is refused, and
/// in what it hands out.
pub fn runs_go_on()
    ensures { RunsGoOn }
{}

/// After any run each number that was given to a data frame has one fate: the frame was begun or is queued, it was or is in the
/// gap of such a frame, it is pending, or a hang-up found it waiting.
pub fn numbers_are_kept()
    ensures { NumbersAreKept }
{}

/// A measurement that completes no slot is answered `Done` with no frame made, whatever memory there is.
pub fn no_slot_needs_no_memory()
    ensures { NeedsNoMemory }
{}

/// The stamps of a stream rise strictly within an on-period: of any two data frames that it makes between its switch on and its switch
/// off, the earlier carries the earlier stamp. They are frames of slots that rise strictly. A stream that is off makes none.
pub fn stamps_rise()
    ensures { StampsRise }
{}

/// Which changes of the CFG-1 list count, by keys and by blocks without CFGCNT, and which of them flush a stream: those of its own
/// members alone.
pub fn changes_are_told()
    ensures { ChangesAreTold }
{}

/// A block that a stream counts as past the end of time is so: of a data frame that was read, a slot is refused for `TimeEnd` alone.
pub fn only_time_ends()
    ensures { OnlyTimeEnds }
{}

//! Laws of recordings, as contracts of functions that do nothing.

ghost use Rattle.pg_recordings.specs.Recorded.{RecordsAreSpelled};

/// The input of a world that a record is spells the event that was recorded: so where the records of a recording are those of a history,
/// `replays_alike` of pg_serve holds of its replay.
pub fn records_are_spelled()
    ensures { RecordsAreSpelled }
{}

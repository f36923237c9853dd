//! A law of whole runs of private events: how long a stream's data frames are. It follows from the definitions of pg_session.

ghost use Rattle.pg_laws.specs.Lengths.{LengthsAreKnown};

/// Each data frame that a stream makes is as long as the stream's layouts say: the first of their lengths is that of the
/// present layout, and where an event changes the layout, the frames that leave by it are still of the layout before. Behind more events
/// each length stands as many places further back as there were changes, as far as 32 are kept.
pub fn lengths_are_known()
    ensures { LengthsAreKnown }
{}

//! Laws of what is known of the layouts of a connection, as contracts of functions that do nothing.
ghost use Rattle.pg_limits.specs.Misreading.{FloorRises, NeverMisread, OneLayout, VerdictsKeepTheWindow};
ghost use Rattle.pg_limits.specs.Reading.{ReadRight, ReadingGoesOn};

/// Whatever is found, commanded and drained in a connection, by whatever rule: a reader that goes by a layout of a stream's window takes no data
/// frame of another one of the window for one of it, as far as its length says. That is so where the lengths that are found are those of the
/// layouts.
pub fn never_misread()
    ensures { NeverMisread }
{}

/// A CFG-2 is sent where the window grows, and nowhere else, and is owed from then on. A connection goes on only where the window ends at the layout
/// that was found, or while the stream is off; it is closed only where the window does not end there, and may not grow up to it.
pub fn verdicts_keep_the_window()
    ensures { VerdictsKeepTheWindow }
{}

/// By the rules `HangUp` and `Keep` no window ever has two layouts.
pub fn one_layout()
    ensures { OneLayout }
{}

/// The floor rises behind the question about what was drained, and no further than to the layout that was the newest at the drain.
pub fn floor_rises()
    ensures { FloorRises }
{}

/// A subscriber starts and stops a stream and asks for its CFG-2, and the stream's layout changes at any time: the reader of the connection takes no data
/// frame for one of another layout. That is so where the port asks about the streams behind each drain, writes what was drained by the verdict, and lets
/// the floor rise behind that.
pub fn read_right()
    ensures { ReadRight }
{}

/// Connections as `read_right` takes them there are: in one, frames of two layouts are written.
pub fn reading_goes_on()
    ensures { ReadingGoesOn }
{}

//! What becomes of an arrival.

/// What became of an arrival.
#[derive(Clone, Copy, Debug, PartialEq, Eq)]
pub enum Arrived {
    /// Its block stands in its slot.
    Kept,
    /// Its slot is at or below the last one that left in this on-period; it is ignored.
    Late,
    /// Its member's block stands in this slot already; it is ignored.
    Twice,
}

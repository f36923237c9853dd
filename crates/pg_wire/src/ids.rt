//! The numbers that name sources, PMUs, streams and subscribers.

ghost use Rattle.std.specs.Prelude.{◌≡◌, ◌<◌, ◌&&◌, nat_lt, if◌then◌else◌, Some, None};

use std::marker::Model;

/// The number of a source, or of a PMU in it: 1 to 65534. An IDCODE of 0 or 65535 is reserved (C37.118.2, 6.2).
#[derive(Clone, Copy, Debug, PartialEq, Eq, PartialOrd, Ord, Hash)]
pub struct PmuId {
    id: u16,
}

impl Model for PmuId {
    ghost use Rattle.std.specs.Prelude.{ℕ, ◌<◌};

    ghost Value = { ℕ };

    ghost view = { λ p. p.id };

    ghost inverse = { λ n. record { id = n } };

    ghost invariant = { λ p. (0 < p.id) × (p.id < 65535) };
}

impl PmuId {
    /// The number, unless it is one of the two reserved ones.
    pub fn new(id: u16) -> Option<PmuId>
        ensures { result ≡ (if nat_lt 0 id && nat_lt id 65535 then Some id else None) }
    {
        if id > 0 && id < 65535 {
            Some(PmuId { id })
        } else {
            None
        }
    }

    /// The number itself.
    pub fn get(&self) -> u16
        ensures value { result ≡ self.now }
        ensures least { 0 < result }
        ensures most { result < 65535 }
    {
        self.id
    }
}

/// The number of a stream, which a subscriber's commands and output frames carry as IDCODE: 1 to 65534.
#[derive(Clone, Copy, Debug, PartialEq, Eq, PartialOrd, Ord, Hash)]
pub struct StreamId {
    id: u16,
}

impl Model for StreamId {
    ghost use Rattle.std.specs.Prelude.{ℕ, ◌<◌};

    ghost Value = { ℕ };

    ghost view = { λ s. s.id };

    ghost inverse = { λ n. record { id = n } };

    ghost invariant = { λ s. (0 < s.id) × (s.id < 65535) };
}

impl StreamId {
    /// The number, unless it is one of the two reserved ones.
    pub fn new(id: u16) -> Option<StreamId>
        ensures { result ≡ (if nat_lt 0 id && nat_lt id 65535 then Some id else None) }
    {
        if id > 0 && id < 65535 {
            Some(StreamId { id })
        } else {
            None
        }
    }

    /// The number itself.
    pub fn get(&self) -> u16
        ensures value { result ≡ self.now }
        ensures least { 0 < result }
        ensures most { result < 65535 }
    {
        self.id
    }
}

/// The number of a subscriber: 1 to 65535.
#[derive(Clone, Copy, Debug, PartialEq, Eq, PartialOrd, Ord, Hash)]
pub struct SubId {
    id: u16,
}

impl Model for SubId {
    ghost use Rattle.std.specs.Prelude.{ℕ, ◌<◌};

    ghost Value = { ℕ };

    ghost view = { λ s. s.id };

    ghost inverse = { λ n. record { id = n } };

    ghost invariant = { λ s. 0 < s.id };
}

impl SubId {
    /// The number, unless it is 0.
    pub fn new(id: u16) -> Option<SubId>
        ensures { result ≡ (if nat_lt 0 id then Some id else None) }
    {
        if id > 0 { Some(SubId { id }) } else { None }
    }

    /// The number itself.
    pub fn get(&self) -> u16
        ensures value { result ≡ self.now }
        ensures least { 0 < result }
    {
        self.id
    }
}

/// A PMU by its source and its number there. Keys are ordered by source, then PMU.
#[derive(Clone, Copy, Debug, PartialEq, Eq, PartialOrd, Ord, Hash)]
pub struct PmuKey {
    /// The source: the IDCODE of the frames in which the PMU comes.
    pub source: PmuId,
    /// The PMU in it: the IDCODE of its configuration block.
    pub pmu: PmuId,
}

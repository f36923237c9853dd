//! The bounds of a ring.
ghost use Rattle.std.specs.Prelude.{◌≡◌, ◌≤◌, ◌<◌, ◌&&◌, nat_le, if◌then◌else◌, Some, None};

use std::marker::Model;

/// How many data frames a subscriber's ring holds: 1 to 1,024.
#[derive(Clone, Copy, PartialEq, Eq)]
pub struct RingSize {
    count: u16,
}

impl Model for RingSize {
    ghost use Rattle.std.specs.Prelude.{ℕ, ◌<◌, ◌≤◌};

    ghost Value = { ℕ };

    ghost view = { λ s. s.count };

    ghost inverse = { λ n. record { count = n } };

    ghost invariant = { λ s. (0 < s.count) × (s.count ≤ 1024) };
}

impl RingSize {
    /// The size, unless it is out of range: `None` for 0 and for more than 1,024.
    pub fn new(count: u16) -> Option<RingSize>
        ensures { result ≡ (if nat_le 1 count && nat_le count 1024 then Some count else None) }
    {
        if 1 <= count && count <= 1024 {
            Some(RingSize { count })
        } else {
            None
        }
    }

    /// The number of frames itself.
    pub fn get(&self) -> u16
        ensures value { result ≡ self.now }
        ensures least { 0 < result }
        ensures most { result ≤ 1024 }
    {
        self.count
    }
}

/// How many bytes the data frames in a subscriber's ring have together at most: 16 to 16,777,216. The
/// frame in hand and the replies don't count.
#[derive(Clone, Copy, PartialEq, Eq)]
pub struct RingBytes {
    count: u32,
}

impl Model for RingBytes {
    ghost use Rattle.std.specs.Prelude.{ℕ, ◌≤◌};

    ghost Value = { ℕ };

    ghost view = { λ b. b.count };

    ghost inverse = { λ n. record { count = n } };

    ghost invariant = { λ b. (16 ≤ b.count) × (b.count ≤ 16777216) };
}

impl RingBytes {
    /// The limit, unless it is out of range: `None` for less than 16 and for more than 16,777,216.
    pub fn new(count: u32) -> Option<RingBytes>
        ensures { result ≡ (if nat_le 16 count && nat_le count 16777216 then Some count else None) }
    {
        if 16 <= count && count <= 16_777_216 {
            Some(RingBytes { count })
        } else {
            None
        }
    }

    /// The number of bytes itself.
    pub fn get(&self) -> u32
        ensures value { result ≡ self.now }
        ensures least { 16 ≤ result }
        ensures most { result ≤ 16777216 }
    {
        self.count
    }
}

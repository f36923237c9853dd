//! The slots of a stream: which slot a stamp is of, and how many slots before a frame have no frame.

ghost use Rattle.std.specs.Prelude.{◌≡◌, ◌+◌, ◌^◌, ◌<◌};
ghost use Rattle.std.specs.Option.{unwrap_or};
ghost use Rattle.pg_tools.specs.Slots.{gap_before, last_after, rate_in, slot_of};

/// DATA_RATE (C37.118.2, 6.4).
#[derive(Clone, Copy, PartialEq, Eq)]
pub enum DataRate {
    /// So many frames a second.
    Frames(u16),
    /// So many seconds a frame. 0 counts as 1.
    Seconds(u16),
}

impl DataRate {
    /// The rate of a configuration: frames per second where it is positive, else seconds per frame.
    pub fn new(rate: i16) -> DataRate
        ensures { result ≡ rate_in rate }
    {
        if rate > 0 {
            DataRate::Frames(rate.unsigned_abs())
        } else {
            DataRate::Seconds(rate.unsigned_abs())
        }
    }

    /// The slot of SOC and the numerator of FRACSEC, where TIME_BASE is `base`: the nearest one (own rule of the gateway).
    pub fn slot(self, soc: u32, frac: u32, base: u32) -> u64
        requires { 0 < base }
        ensures value { result ≡ slot_of self soc frac base }
        ensures below { result < 2 ^ 49 }
    {
        let soc = u64::from(soc);
        match self {
            DataRate::Frames(rate) => {
                let rate = u64::from(rate);
                let base = u64::from(base);
                soc * rate + (2 * u64::from(frac) * rate + base) / (2 * base)
            }
            DataRate::Seconds(0) => soc,
            DataRate::Seconds(seconds) => soc / u64::from(seconds),
        }
    }
}

/// The slots of one rate from the first frame to the last one: each is that of a frame or is in a gap, and none is both.
#[derive(Clone, Copy)]
pub struct Slots {
    /// The rate by which they are counted.
    pub rate: DataRate,
    /// The slot of the first frame.
    pub first: u64,
    /// The slot of the last frame.
    pub last: u64,
    /// How many frames were taken.
    pub frames: u64,
    /// How many slots between them have none.
    pub gaps: u64,
    ghost all: { first + (frames + gaps) ≡ last + 1 },
    ghost below: { last < 2 ^ 49 },
}

impl Slots {
    /// The first frame, of this slot.
    pub fn begin(rate: DataRate, slot: u64) -> Slots
        requires { slot < 2 ^ 49 }
        ensures rate { result.rate ≡ rate }
        ensures slot { (result.first ≡ slot) × (result.last ≡ slot) }
        ensures frames { (result.frames ≡ 1) × (result.gaps ≡ 0) }
    {
        Slots {
            rate,
            first: slot,
            last: slot,
            frames: 1,
            gaps: 0,
        }
    }

    /// Takes the frame of a slot. Answers how many slots between the last frame and this one have none; where the slot is not above the last one the
    /// frame is not taken, and the answer is none.
    pub fn take(&mut self, slot: u64) -> Option<u64>
        requires { slot < 2 ^ 49 }
        ensures gap { result ≡ gap_before self.old.last slot }
        ensures last { self.new.last ≡ last_after self.old.last slot }
        ensures same { (self.new.rate ≡ self.old.rate) × (self.new.first ≡ self.old.first) }
        ensures gaps { self.new.gaps ≡ self.old.gaps + unwrap_or result 0 }
    {
        let Slots {
            rate,
            first,
            last,
            frames,
            gaps,
        } = *self;
        if slot <= last {
            return None;
        }
        let gap = slot - last - 1;
        *self = Slots {
            rate,
            first,
            last: slot,
            frames: frames + 1,
            gaps: gaps + gap,
        };
        Some(gap)
    }
}

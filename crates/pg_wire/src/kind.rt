//! The kinds of frames.

ghost use Rattle.std.specs.Prelude.{◌≡◌, ◌<◌};
ghost use Rattle.pg_wire.specs.Kinds.{kind_number};

/// What a frame is: bits 6 to 4 of the second byte of SYNC (C37.118.2, 6.2).
#[derive(Clone, Copy, Debug, PartialEq, Eq)]
pub enum Kind {
    /// A data frame, with measured values: number 0.
    Measured,
    /// A header frame, with text for people: number 1.
    Header,
    /// Configuration frame 1, what the sender is capable of reporting: number 2.
    CfgOne,
    /// Configuration frame 2, what the sender reports now: number 3.
    CfgTwo,
    /// A command frame: number 4.
    Cmd,
    /// Configuration frame 3, which this product does not read: number 5.
    CfgThree,
}

impl Kind {
    /// Its number in a frame, 0 to 5.
    pub fn number(self) -> u8
        ensures { result ≡ kind_number self }
    {
        match self {
            Kind::Measured => 0,
            Kind::Header => 1,
            Kind::CfgOne => 2,
            Kind::CfgTwo => 3,
            Kind::Cmd => 4,
            Kind::CfgThree => 5,
        }
    }

    /// The kind with this number. It asks for one from 0 to 5: 6 and 7 are no kind, and a stream breaks there.
    pub fn of(number: u8) -> Kind
        requires { number < 6 }
        ensures { kind_number result ≡ number }
    {
        match number {
            0 => Kind::Measured,
            1 => Kind::Header,
            2 => Kind::CfgOne,
            3 => Kind::CfgTwo,
            4 => Kind::Cmd,
            _ => Kind::CfgThree,
        }
    }
}

//! Why something was refused.

ghost use Rattle.std.specs.Prelude.{◌≡◌};

use std::alloc::{AllocError, AllocFailed};
use thiserror::Error;

/// Why something was refused: each reason with the number and the name by which it is counted and printed.
#[derive(Clone, Copy, Debug, PartialEq, Eq, Error)]
pub enum Refusal {
    /// Memory was asked for, and there was none.
    #[error("NoMemory")]
    NoMemory = 1,
    /// A frame's first byte is not 0xAA: the stream breaks.
    #[error("BadFirst")]
    BadFirst = 2,
    /// A frame's second byte has bit 7 set, or type 6 or 7: the stream breaks.
    #[error("BadSecond")]
    BadSecond = 3,
    /// FRAMESIZE is under 16: the stream breaks.
    #[error("ShortSize")]
    ShortSize = 4,
    /// A whole frame's CHK is not that of its other bytes: it is skipped.
    #[error("BadCheck")]
    BadCheck = 5,
    /// A whole frame's version is neither 1 nor 2: it is skipped.
    #[error("BadVersion")]
    BadVersion = 6,
    /// The frame is not of a type that is read here.
    #[error("WrongType")]
    WrongType = 7,
    /// The frame is shorter or longer than its contents.
    #[error("BadLength")]
    BadLength = 8,
    /// The subscriber has no stream with this IDCODE.
    #[error("NoSuchStream")]
    NoSuchStream = 9,
    /// The word of a command is none of 1 to 6 and 8.
    #[error("UnknownCommand")]
    UnknownCommand = 10,
    /// The word of a command is 6 (send CFG-3) or 8 (extended frame), which are not served.
    #[error("Unsupported")]
    Unsupported = 11,
    /// Eight replies wait already.
    #[error("ReplyFull")]
    ReplyFull = 12,
    /// FORMAT has floating point: this is a fixed-point unit.
    #[error("FloatFormat")]
    FloatFormat = 13,
    /// NUM_PMU is 0 or above 16.
    #[error("BadCounts")]
    BadCounts = 14,
    /// A configuration block has more than 2,000 bytes.
    #[error("ConfigTooLarge")]
    ConfigTooLarge = 15,
    /// Two blocks of one frame have the same IDCODE.
    #[error("DuplicatePmu")]
    DuplicatePmu = 16,
    /// An IDCODE is reserved (0 or 65535), or is not that of the source.
    #[error("WrongId")]
    WrongId = 17,
    /// No configuration was announced before the data.
    #[error("NoConfig")]
    NoConfig = 18,
    /// The fraction's numerator is not below its denominator, TIME_BASE.
    #[error("BadFraction")]
    BadFraction = 19,
    /// The slot lies past the last second that SOC can say.
    #[error("TimeEnd")]
    TimeEnd = 20,
    /// SOC differs by more than 30 seconds from that of the last tick.
    #[error("FarClock")]
    FarClock = 21,
    /// The block was read by another configuration than the one announced last.
    #[error("StaleConfig")]
    StaleConfig = 22,
    /// There is no PMU with this key, or no source with this number.
    #[error("NoSuchPmu")]
    NoSuchPmu = 23,
    /// There is a PMU with this key already.
    #[error("PmuExists")]
    PmuExists = 24,
    /// There are as many PMUs as there may be.
    #[error("PmusFull")]
    PmusFull = 25,
    /// There is no subscriber with this number.
    #[error("NoSuchSub")]
    NoSuchSub = 26,
    /// There is a subscriber with this number already.
    #[error("SubExists")]
    SubExists = 27,
    /// There are as many subscribers as there may be.
    #[error("SubsFull")]
    SubsFull = 28,
    /// The subscriber has as many grants as it may.
    #[error("GrantsFull")]
    GrantsFull = 29,
    /// The subscriber has a stream with this IDCODE already.
    #[error("StreamExists")]
    StreamExists = 30,
    /// The subscriber has as many streams as it may.
    #[error("StreamsFull")]
    StreamsFull = 31,
    /// A stream's definition is outside the limits of one.
    #[error("BadDefinition")]
    BadDefinition = 32,
    /// The subscriber is not connected.
    #[error("NotConnected")]
    NotConnected = 33,
    /// The subscriber is connected already.
    #[error("Busy")]
    Busy = 34,
    /// The PMU is not granted to the subscriber.
    #[error("NotGranted")]
    NotGranted = 35,
    /// A line of a script, or of an operator, has none of the forms of one.
    #[error("BadLine")]
    BadLine = 36,
    /// The setup file is no text of a setup.
    #[error("BadSetup")]
    BadSetup = 37,
    /// The resolution in TIME_BASE is 0.
    #[error("BadTimeBase")]
    BadTimeBase = 38,
    /// Input can't be read, or a port can't be bound.
    #[error("ReadFault")]
    ReadFault = 39,
    /// Output can't be written.
    #[error("WriteFault")]
    WriteFault = 40,
}

impl Refusal {
    /// Each refusal, by its number from 1.
    pub const ALL: [Refusal; 40] = [
        Refusal::NoMemory,
        Refusal::BadFirst,
        Refusal::BadSecond,
        Refusal::ShortSize,
        Refusal::BadCheck,
        Refusal::BadVersion,
        Refusal::WrongType,
        Refusal::BadLength,
        Refusal::NoSuchStream,
        Refusal::UnknownCommand,
        Refusal::Unsupported,
        Refusal::ReplyFull,
        Refusal::FloatFormat,
        Refusal::BadCounts,
        Refusal::ConfigTooLarge,
        Refusal::DuplicatePmu,
        Refusal::WrongId,
        Refusal::NoConfig,
        Refusal::BadFraction,
        Refusal::TimeEnd,
        Refusal::FarClock,
        Refusal::StaleConfig,
        Refusal::NoSuchPmu,
        Refusal::PmuExists,
        Refusal::PmusFull,
        Refusal::NoSuchSub,
        Refusal::SubExists,
        Refusal::SubsFull,
        Refusal::GrantsFull,
        Refusal::StreamExists,
        Refusal::StreamsFull,
        Refusal::BadDefinition,
        Refusal::NotConnected,
        Refusal::Busy,
        Refusal::NotGranted,
        Refusal::BadLine,
        Refusal::BadSetup,
        Refusal::BadTimeBase,
        Refusal::ReadFault,
        Refusal::WriteFault,
    ];

    ghost use Rattle.pg_wire.specs.Number.{name_of, number_of};

    /// Its number, from 1 to 40.
    pub fn number(self) -> u8
        ensures { result ≡ number_of self }
    {
        self as u8
    }

    /// Its name, as it is printed.
    pub fn name(self) -> &'static str
        ensures { result.now ≡ name_of self }
    {
        match self {
            Refusal::NoMemory => "NoMemory",
            Refusal::BadFirst => "BadFirst",
            Refusal::BadSecond => "BadSecond",
            Refusal::ShortSize => "ShortSize",
            Refusal::BadCheck => "BadCheck",
            Refusal::BadVersion => "BadVersion",
            Refusal::WrongType => "WrongType",
            Refusal::BadLength => "BadLength",
            Refusal::NoSuchStream => "NoSuchStream",
            Refusal::UnknownCommand => "UnknownCommand",
            Refusal::Unsupported => "Unsupported",
            Refusal::ReplyFull => "ReplyFull",
            Refusal::FloatFormat => "FloatFormat",
            Refusal::BadCounts => "BadCounts",
            Refusal::ConfigTooLarge => "ConfigTooLarge",
            Refusal::DuplicatePmu => "DuplicatePmu",
            Refusal::WrongId => "WrongId",
            Refusal::NoConfig => "NoConfig",
            Refusal::BadFraction => "BadFraction",
            Refusal::TimeEnd => "TimeEnd",
            Refusal::FarClock => "FarClock",
            Refusal::StaleConfig => "StaleConfig",
            Refusal::NoSuchPmu => "NoSuchPmu",
            Refusal::PmuExists => "PmuExists",
            Refusal::PmusFull => "PmusFull",
            Refusal::NoSuchSub => "NoSuchSub",
            Refusal::SubExists => "SubExists",
            Refusal::SubsFull => "SubsFull",
            Refusal::GrantsFull => "GrantsFull",
            Refusal::StreamExists => "StreamExists",
            Refusal::StreamsFull => "StreamsFull",
            Refusal::BadDefinition => "BadDefinition",
            Refusal::NotConnected => "NotConnected",
            Refusal::Busy => "Busy",
            Refusal::NotGranted => "NotGranted",
            Refusal::BadLine => "BadLine",
            Refusal::BadSetup => "BadSetup",
            Refusal::BadTimeBase => "BadTimeBase",
            Refusal::ReadFault => "ReadFault",
            Refusal::WriteFault => "WriteFault",
        }
    }
}

impl From<AllocError> for Refusal {
    ghost use Rattle.pg_wire.specs.declared.refusal.Refusal.TheVariants.{NoMemory};

    ghost from_gives = { λ _ e. e ≡ NoMemory };

    fn from(_e: AllocError) -> Refusal {
        Refusal::NoMemory
    }
}

impl<T: Drop> From<AllocFailed<T>> for Refusal {
    ghost use Rattle.pg_wire.specs.declared.refusal.Refusal.TheVariants.{NoMemory};

    ghost from_gives = { λ _ e. e ≡ NoMemory };

    fn from(_e: AllocFailed<T>) -> Refusal {
        Refusal::NoMemory
    }
}

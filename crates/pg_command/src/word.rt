//! The words of commands.

ghost use Rattle.std.specs.Prelude.{◌≡◌, ◌↔◌, IsSome, IfSome};
ghost use Rattle.pg_command.specs.Words.{IsKnown, word_number, word_of};

/// The word of a command, CMD (C37.118.2, 6.6).
#[derive(Clone, Copy, PartialEq, Eq)]
pub enum Word {
    /// Stop sending data frames: 1.
    StopData,
    /// Start sending data frames: 2.
    StartData,
    /// Send the header frame: 3.
    SendHeader,
    /// Send configuration frame 1: 4.
    SendCfgOne,
    /// Send configuration frame 2: 5.
    SendCfgTwo,
    /// Send configuration frame 3: 6.
    SendCfgThree,
    /// Extended frame, with more data behind the word: 8.
    Extended,
}

impl Word {
    /// Its number: what stands as CMD in a command frame.
    pub fn number(self) -> u16
        ensures { result ≡ word_number self }
    {
        match self {
            Word::StopData => 1,
            Word::StartData => 2,
            Word::SendHeader => 3,
            Word::SendCfgOne => 4,
            Word::SendCfgTwo => 5,
            Word::SendCfgThree => 6,
            Word::Extended => 8,
        }
    }

    /// The word with this number, or none: known are 1 to 6 and 8.
    pub fn of(number: u16) -> Option<Word>
        ensures known { IsSome result ↔ IsKnown number }
        ensures word { IfSome result (λ word. word_number word ≡ number) }
        ensures exact { result ≡ word_of number }
    {
        match number {
            1 => Some(Word::StopData),
            2 => Some(Word::StartData),
            3 => Some(Word::SendHeader),
            4 => Some(Word::SendCfgOne),
            5 => Some(Word::SendCfgTwo),
            6 => Some(Word::SendCfgThree),
            8 => Some(Word::Extended),
            _ => None,
        }
    }
}

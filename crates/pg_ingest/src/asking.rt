//! What a link asks its source for.

ghost use Rattle.std.specs.Prelude.{◌≡◌, [], Option, Some, None};
ghost use Rattle.pg_ingest.specs.Asked.{asking_of, asking_config, answered, accepted, measured, mismatched, next_word, asking_less, asking_again};

use pg_command::Word;
use pg_wire::Refusal;

/// Where command 2, start data, stands.
#[derive(Clone, Copy)]
pub(crate) enum Start {
    /// No configuration was accepted yet.
    NotDue,
    /// It is owed.
    Due,
    /// It was given.
    Given,
}

/// What a link asks its source for: its configuration at the start and wherever it may have changed, and data
/// once a configuration was accepted.
#[derive(Clone, Copy)]
pub(crate) struct Asking {
    config: bool,
    unanswered: bool,
    changing: bool,
    start: Start,
}

impl Asking {
    /// A new link owes command 5, send CFG-2.
    pub(crate) fn new() -> Asking
        ensures { result ≡ asking_of [] }
    {
        Asking {
            config: true,
            unanswered: true,
            changing: false,
            start: Start::NotDue,
        }
    }

    /// Asks for the configuration, unless an earlier question is unanswered.
    fn ask(&mut self)
        ensures { self.new ≡ asking_config self.old }
    {
        if !self.unanswered {
            self.config = true;
            self.unanswered = true;
        }
    }

    /// All that was asked for is owed anew: command 5, and behind it 2 where a configuration was accepted.
    pub(crate) fn ask_again(&mut self, is_accepted: bool)
        ensures { self.new ≡ asking_again is_accepted self.old }
    {
        self.config = true;
        self.start = if is_accepted {
            Start::Due
        } else {
            Start::NotDue
        };
    }

    /// A CFG-2 frame that was not accepted, or a frame that was skipped: it may have been the answer.
    pub(crate) fn answer(&mut self)
        ensures { self.new ≡ answered self.old }
    {
        self.unanswered = false;
    }

    /// A configuration was accepted. The first one makes the link ask for data.
    pub(crate) fn accept(&mut self)
        ensures { self.new ≡ accepted self.old }
    {
        self.unanswered = false;
        if matches!(self.start, Start::NotDue) {
            self.start = Start::Due;
        }
    }

    /// A data frame was read, with STAT bit 10 set or not. Where it is clear again the configuration has changed
    /// (C37.118.2, 6.3).
    pub(crate) fn measure(&mut self, changing: bool)
        ensures { self.new ≡ measured self.old changing }
    {
        if self.changing && !changing {
            self.ask();
        }
        self.changing = changing;
    }

    /// A data frame was refused. One of another length may have been made by another configuration.
    pub(crate) fn reject(&mut self, refusal: Refusal)
        ensures { self.new ≡ mismatched self.old refusal }
    {
        if refusal.number() == Refusal::BadLength.number() {
            self.ask();
        }
    }

    /// The command that is owed, if any, which is then given: 5, send CFG-2, before 2, start data.
    pub(crate) fn next_word(&mut self) -> Option<Word>
        ensures word { result ≡ next_word self.old }
        ensures state { self.new ≡ asking_less self.old }
    {
        if self.config {
            self.config = false;
            return Some(Word::SendCfgTwo);
        }
        if matches!(self.start, Start::Due) {
            self.start = Start::Given;
            return Some(Word::StartData);
        }
        None
    }
}

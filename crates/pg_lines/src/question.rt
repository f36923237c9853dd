//! Lines by which an operator asks what the running service has.
ghost use Rattle.std.specs.Prelude.{◌≡◌, IfOk, IfErr, map};
ghost use Rattle.pg_lines.specs.Questions.{asked_by, nothing_in, question_of, question_of_words, topic_of};

use crate::line::{subscriber, words_of};
use pg_wire::{Refusal, SubId};
use std::alloc::Global;

/// What a line asks about the running service.
#[derive(Clone, Copy, Debug, PartialEq, Eq)]
pub enum Question {
    /// Which version of the program runs.
    Version,
    /// What the subscriber has, as a setup file says it.
    Show(SubId),
    /// Which `wait` and `window` the delays of the last minute ask for.
    Advise,
}

/// The first word of such a line.
#[derive(Clone, Copy, PartialEq, Eq)]
pub(crate) enum Topic {
    Version,
    Show,
    Advise,
}

impl Topic {
    /// The topic that is written so.
    fn of(word: &str) -> Option<Topic>
        ensures value { result ≡ topic_of word.now }
    {
        let topic = match word {
            "version" => Topic::Version,
            "show" => Topic::Show,
            "advise" => Topic::Advise,
            _ => return None,
        };
        Some(topic)
    }
}

/// What a line asks about the running service, or `None` for a line that is none of these:
///
/// | Line | Question |
/// |---|---|
/// | `version` | `Version` |
/// | `show U` | `Show` |
/// | `advise` | `Advise` |
///
/// Words are separated by one or more spaces; spaces at either end are ignored. `U` is 1 to 65535, without a leading zero.
///
/// # Errors
///
/// `NoMemory`.
pub fn parse_question(alloc: Global, line: &str) -> Result<Option<Question>, Refusal>
    ensures value { IfOk result (λ o. o ≡ question_of line.now) }
    ensures memory { IfErr result (λ r. r ≡ Refusal.NoMemory) }
{
    let words = words_of(alloc, line)?;
    Ok(question_of_words(words.as_slice()))
}

/// What words ask.
fn question_of_words(words: &[&str]) -> Option<Question>
    ensures { result ≡ question_of_words (map (λ w. w.now) words.now) }
{
    let [word, args @ ..] = words else {
        return None;
    };
    asked_by(Topic::of(word)?, args)
}

/// What a first word asks with the words after it.
fn asked_by(topic: Topic, args: &[&str]) -> Option<Question>
    ensures { result ≡ asked_by topic (map (λ w. w.now) args.now) }
{
    match topic {
        Topic::Version => nothing_more(Question::Version, args),
        Topic::Show => Some(Question::Show(subscriber(args)?)),
        Topic::Advise => nothing_more(Question::Advise, args),
    }
}

/// A question that takes no more words.
fn nothing_more(question: Question, args: &[&str]) -> Option<Question>
    ensures { result ≡ nothing_in question (map (λ w. w.now) args.now) }
{
    match args {
        [] => Some(question),
        _ => None,
    }
}

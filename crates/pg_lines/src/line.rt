//! An operator's line: its words are split at spaces, taken apart by `clap`, and read one by one.
ghost use Rattle.std.specs.Prelude.{◌≡◌, ◌≢◌, ◌<◌, ◌⊎◌, length, codes, IfOk, option_map, IfErr, Some, None, [], map, true, false, drop, fold};
ghost use Rattle.clap.specs.Words.{all_of, app_of, fault_of, found_of, rows_of, rule_of, subcommand_of, subcommand_rows_of};
ghost use Rattle.clap.specs.declared.builder.command.Command.TheViews.{out-Command};
ghost use Rattle.pg_lines.specs.Lines.{words_of, is_plain, all_plain, edit_of, edit_of_words, edit_asked, edit_by, add_sub, limit_in, one, two};
ghost use Rattle.pg_lines.specs.Words.{number_in, stream_id_in, subscriber_in, key_in};
ghost use Rattle.pg_lines.specs.Clap.{asked_in, line_app, verb_app, with_verb, words_rule};

use crate::define::define;
use crate::verb::{VERBS, Verb};
use crate::words;
use clap::error::ErrorKind;
use clap::{Arg, ArgMatches, Command};
use pg_gateway::Edit;
use pg_ring::RingBytes;
use pg_wire::{PmuKey, Refusal, StreamId, SubId};
use std::alloc::{AllocError, Global};

/// The edit that a line asks for. A line is a verb and its words:
///
/// | Line | Edit |
/// |---|---|
/// | `addpmu P`, `droppmu P` | `AddPmu`, `DropPmu` |
/// | `addsub U RING`, `addsub U RING BYTES` | `AddSub`; without BYTES 16,777,216 |
/// | `dropsub U` | `DropSub` |
/// | `grant U P`, `revoke U P` | `Grant`, `Revoke` |
/// | `define U STREAM RATE BASE WAIT WINDOW HEADER MEMBER..` | `Define` |
/// | `remove U STREAM` | `Remove` |
/// | `stats U`, `pmustats P`, `audit U I` | `Stats`, `PmuStats`, `Audit` |
///
/// Words are separated by one or more spaces; spaces at either end are ignored. A number is `0`, or one to ten digits
/// without a leading zero. `U` is 1 to 65535, STREAM 1 to 65534; `P` and MEMBER are a key `S/P`, or `P` alone, which is
/// `P/P`, of numbers 1 to 65534; RING is 1 to 1024, BYTES 16 to 16777216, RATE 0 to 255, BASE, WAIT and WINDOW 0 to
/// 4294967295, `I` 0 to 63. HEADER is the text in hexadecimal, of either case, or `none` for the empty one. There are 1
/// to 32 members. The limits of a definition are not looked at here.
///
/// # Errors
///
/// `BadLine` for any other line, and so for one with a word that begins with `-`; `NoMemory`.
pub fn parse_line(alloc: Global, line: &str) -> Result<Edit, Refusal>
    ensures found { IfOk result (λ edit. edit_of line.now ≡ Some edit) }
    ensures refused { IfErr result (λ r. (r ≡ Refusal.NoMemory) ⊎ ((r ≡ Refusal.BadLine) × (edit_of line.now ≡ None))) }
{
    let words = words_of(alloc, line)?;
    if !all_plain(words.as_slice()) {
        return Err(Refusal::BadLine);
    }
    edit_of_words(alloc, words.as_slice())
}

/// The words of a line: what stands between spaces.
///
/// # Errors
///
/// `AllocError` where there is no memory for their list.
pub fn words_of<'a>(alloc: Global, line: &'a str) -> Result<Vec<&'a str>, AllocError>
    ensures { IfOk result (λ v. map (λ w. w.now) v.items ≡ words_of line.now) }
{
    line.split(' ')
        .filter(|word| !word.is_empty())
        .collect(alloc)
}

/// Whether the word does not begin with a hyphen.
fn is_plain(word: &str) -> bool
    ensures { result ≡ is_plain word.now }
{
    !matches!(word.as_bytes(), [b'-', ..])
}

fn all_plain(words: &[&str]) -> bool
    ensures { result ≡ all_plain (map (λ w. w.now) words.now) }
{
    words.iter().all(|word| is_plain(word))
}

/// The edit that words ask for, of which none begins with a hyphen.
fn edit_of_words<'a>(alloc: Global, words: &'a [&'a str]) -> Result<Edit, Refusal>
    requires { all_plain (map (λ w. w.now) words.now) ≡ true }
    ensures ok { IfOk result (λ e. edit_of_words (map (λ w. w.now) words.entry.now) ≡ Some e) }
    ensures err { IfErr result (λ r. (r ≡ Refusal.NoMemory) ⊎ ((r ≡ Refusal.BadLine) × (edit_of_words (map (λ w. w.now) words.entry.now) ≡ None))) }
{
    let matches = match matched(alloc, words) {
        Ok(matches) => matches,
        Err(refusal) => return Err(refusal),
    };
    match asked(&matches) {
        Some((verb, args)) => edit_asked(alloc, verb, args),
        None => Err(Refusal::BadLine),
    }
}

/// The verb that was found, and the words after it.
fn asked<'a, 'm>(matches: &'m ArgMatches<'a>) -> Option<(&'a str, &'m [&'a str])>
    ensures { option_map (λ p. (p.0.now, map (λ w. w.now) p.1.now)) result ≡ asked_in (subcommand_rows_of matches.now) }
{
    let (verb, inner) = matches.subcommand()?;
    let args = words_found(inner)?;
    Some((verb, args))
}

/// The words that were found in their place.
fn words_found<'a, 'm>(matches: &'m ArgMatches<'a>) -> Option<&'m [&'a str]>
    ensures { option_map (λ s. map (λ w. w.now) s.now) result ≡ all_of (codes "words") (rows_of (found_of matches.now)) }
{
    matches.get_strs(WORDS)
}

/// The edit of a verb, as it is written, and the words after it.
fn edit_asked(alloc: Global, verb: &str, args: &[&str]) -> Result<Edit, Refusal>
    ensures ok { IfOk result (λ e. edit_asked verb.now (map (λ w. w.now) args.now) ≡ Some e) }
    ensures err { IfErr result (λ r. (r ≡ Refusal.NoMemory) ⊎ ((r ≡ Refusal.BadLine) × (edit_asked verb.now (map (λ w. w.now) args.now) ≡ None))) }
{
    match Verb::of(verb) {
        Some(verb) => edit_by(alloc, verb, args),
        None => Err(Refusal::BadLine),
    }
}

/// The name of the place of a verb's words.
const WORDS: &str = "words";

/// The most words after a verb: those of a definition with 32 members.
const WORD_LIMIT: usize = 39;

/// What `clap` makes of the words.
fn matched<'a>(alloc: Global, words: &'a [&'a str]) -> Result<ArgMatches<'a>, Refusal>
    ensures ok { IfOk result (λ m. (fault_of line_app (map (λ w. w.now) words.entry.now) ≡ [])
        × (subcommand_rows_of m ≡ subcommand_of line_app (map (λ w. w.now) words.entry.now))) }
    ensures err { IfErr result (λ r. (r ≡ Refusal.NoMemory) ⊎ ((r ≡ Refusal.BadLine)
        × (0 < length (fault_of line_app (map (λ w. w.now) words.entry.now))))) }
{
    let command = command(alloc)?;
    match command.try_get_matches_from(words) {
        Ok(matches) => Ok(matches),
        Err(error) => match error.kind() {
            ErrorKind::OutOfMemory => Err(Refusal::NoMemory),
            _ => Err(Refusal::BadLine),
        },
    }
}

/// The command with a subcommand for each verb. It takes no word for help.
fn command<'a>(alloc: Global) -> Result<Command<'a>, AllocError>
    ensures { IfOk result (λ c. app_of c ≡ line_app) }
{
    let start = Command::new(alloc, "line")
        .no_binary_name(true)
        .disable_help_flag(true)
        .disable_help_subcommand(true)
        .subcommand_required(true);
    with_verbs(alloc, start, &VERBS)
}

/// The command with a further subcommand for each of these verbs.
fn with_verbs<'a>(
    alloc: Global,
    start: Command<'a>,
    verbs: &[&'a str],
) -> Result<Command<'a>, AllocError>
    ensures { IfOk result (λ c. app_of c ≡ fold with_verb (app_of start.entry) (map (λ v. v.now) verbs.now)) }
{
    let mut command = start;
    'verbs: for verb in verbs {
        command = command.subcommand(verb_command(alloc, verb)?)?;
    }
    Ok(command)
}

/// The subcommand of a verb: its name, and then its words.
fn verb_command<'a>(alloc: Global, verb: &'a str) -> Result<Command<'a>, AllocError>
    ensures shape { IfOk result (λ c. app_of c ≡ verb_app verb.entry.now) }
    ensures local { IfOk result (λ c. (out-Command c).has_globals ≡ false) }
{
    Command::new(alloc, verb).arg(words_arg(alloc))
}

/// The place of one to 39 words.
fn words_arg<'a>(alloc: Global) -> Arg<'a>
    ensures rule { rule_of result ≡ words_rule }
    ensures local { result.global ≡ false }
{
    Arg::new(alloc, WORDS)
        .required(true)
        .num_args(1..=WORD_LIMIT)
}

/// The edit that a verb makes of the words after it.
fn edit_by(alloc: Global, verb: Verb, args: &[&str]) -> Result<Edit, Refusal>
    ensures ok { IfOk result (λ e. edit_by verb (map (λ w. w.now) args.now) ≡ Some e) }
    ensures err { IfErr result (λ r. (r ≡ Refusal.NoMemory) ⊎ ((r ≡ Refusal.BadLine) × (edit_by verb (map (λ w. w.now) args.now) ≡ None))) }
{
    if verb == Verb::Define {
        return define(alloc, args);
    }
    match short_edit(verb, args) {
        Some(edit) => Ok(edit),
        None => Err(Refusal::BadLine),
    }
}

/// The same for each verb but `define`; it takes no memory.
fn short_edit(verb: Verb, args: &[&str]) -> Option<Edit>
    ensures { verb ≢ Verb.Define → result ≡ edit_by verb (map (λ w. w.now) args.now) }
{
    let edit = match verb {
        Verb::AddPmu => Edit::AddPmu(pmu(args)?),
        Verb::DropPmu => Edit::DropPmu(pmu(args)?),
        Verb::AddSub => return add_sub(args),
        Verb::DropSub => Edit::DropSub(subscriber(args)?),
        Verb::Grant => {
            let (subscriber, key) = subscriber_and_pmu(args)?;
            Edit::Grant(subscriber, key)
        }
        Verb::Revoke => {
            let (subscriber, key) = subscriber_and_pmu(args)?;
            Edit::Revoke(subscriber, key)
        }
        Verb::Define => return None,
        Verb::Remove => {
            let (subscriber, stream) = subscriber_and_stream(args)?;
            Edit::Remove(subscriber, stream)
        }
        Verb::Stats => Edit::Stats(subscriber(args)?),
        Verb::PmuStats => Edit::PmuStats(pmu(args)?),
        Verb::Audit => {
            let (subscriber, index) = subscriber_and_index(args)?;
            Edit::Audit(subscriber, index)
        }
    };
    Some(edit)
}

/// The words `P`.
fn pmu(args: &[&str]) -> Option<PmuKey>
    ensures { result ≡ one key_in (map (λ w. w.now) args.now) }
{
    let [key] = args else {
        return None;
    };
    words::key(key)
}

/// The words `U`.
pub(crate) fn subscriber(args: &[&str]) -> Option<SubId>
    ensures { result ≡ one subscriber_in (map (λ w. w.now) args.now) }
{
    let [subscriber] = args else {
        return None;
    };
    words::subscriber(subscriber)
}

/// The words `U P`.
fn subscriber_and_pmu(args: &[&str]) -> Option<(SubId, PmuKey)>
    ensures { result ≡ two subscriber_in key_in (map (λ w. w.now) args.now) }
{
    let [subscriber, key] = args else {
        return None;
    };
    Some((words::subscriber(subscriber)?, words::key(key)?))
}

/// The words `U STREAM`.
fn subscriber_and_stream(args: &[&str]) -> Option<(SubId, StreamId)>
    ensures { result ≡ two subscriber_in stream_id_in (map (λ w. w.now) args.now) }
{
    let [subscriber, stream] = args else {
        return None;
    };
    Some((words::subscriber(subscriber)?, words::stream_id(stream)?))
}

/// The words `U I`.
fn subscriber_and_index(args: &[&str]) -> Option<(SubId, u8)>
    ensures { result ≡ two subscriber_in (number_in 0 63) (map (λ w. w.now) args.now) }
{
    let [subscriber, index] = args else {
        return None;
    };
    let subscriber = words::subscriber(subscriber)?;
    Some((subscriber, words::number(index, 0, 63)? as u8))
}

/// The edit of `U RING` or `U RING BYTES`.
fn add_sub(args: &[&str]) -> Option<Edit>
    ensures { result ≡ add_sub (map (λ w. w.now) args.now) }
{
    let [subscriber, size, limit @ ..] = args else {
        return None;
    };
    let subscriber = words::subscriber(subscriber)?;
    let size = words::ring_size(size)?;
    Some(Edit::AddSub(subscriber, size, limit_in(limit)?))
}

/// The limit in bytes of a ring, where it is given or not.
fn limit_in(args: &[&str]) -> Option<RingBytes>
    ensures { result ≡ limit_in (map (λ w. w.now) args.now) }
{
    match args {
        [] => RingBytes::new(16_777_216),
        [limit] => words::ring_bytes(limit),
        _ => None,
    }
}

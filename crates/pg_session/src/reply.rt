//! The replies to a subscriber's commands (C37.118.2, 6.6).

ghost use Rattle.std.specs.Prelude.{◌≡◌, ◌<◌, ◌==◌, true, Some, None, length, IfOk, IfErr, if◌then◌else◌};
ghost use Rattle.pg_command.specs.Words.{word_number};
ghost use Rattle.pg_ring.specs.Steps.{takes_reply};
ghost use Rattle.pg_session.specs.Kept.{by_slots, by_gaps};
ghost use Rattle.pg_session.specs.Private.{with_reply, frame_asked, asks_reply, order_refusal};

use crate::output::Output;
use crate::stream::Stream;
use pg_command::Word;
use pg_outcfg::ConfigList;
use pg_wire::Refusal;
use std::alloc::Global;

/// The word of a number, of those that a subscriber may command. Refused with `UnknownCommand` or `Unsupported`.
pub(crate) fn word_at(number: u16) -> Result<Word, Refusal>
    ensures word { IfOk result (λ word. word_number word ≡ number) }
    ensures known { IfOk result (λ word. order_refusal number ≡ None) }
    ensures refused { IfErr result (λ refusal. order_refusal number ≡ Some refusal) }
{
    match Word::of(number) {
        None => Err(Refusal::UnknownCommand),
        Some(Word::SendCfgThree) => Err(Refusal::Unsupported),
        Some(Word::Extended) => Err(Refusal::Unsupported),
        Some(word) => Ok(word),
    }
}

/// Whether a command asks for a reply.
pub(crate) fn is_question(word: Word) -> bool
    ensures { result ≡ asks_reply (word_number word) }
{
    match word {
        Word::SendHeader => true,
        Word::SendCfgOne => true,
        Word::SendCfgTwo => true,
        _ => false,
    }
}

/// The frame that a command asks for: the stream's header, its CFG-1, or else its CFG-2. The one refusal is `NoMemory`.
fn frame_for(
    alloc: Global,
    stream: &Stream,
    word: Word,
    soc: u32,
    listed: &ConfigList,
) -> Result<Vec<u8>, Refusal>
    ensures frame { IfOk result (λ v. v.items ≡ frame_asked listed.now soc (word_number word) stream.now) }
    ensures bytes { IfOk result (λ v. 0 < length v.items) }
    ensures memory { IfErr result (λ refusal. refusal ≡ Refusal.NoMemory) }
{
    match word {
        Word::SendHeader => stream.header(alloc, soc),
        Word::SendCfgOne => stream.cfg1(alloc, soc, listed),
        _ => stream.cfg2(alloc, soc, listed),
    }
}

/// Puts the frame that a command asks for into the queue. Refused with `ReplyFull` where 8 replies stand, and else where no
/// memory is there; the queue is then unchanged.
pub(crate) fn send_reply(
    alloc: Global,
    stream: &Stream,
    word: Word,
    soc: u32,
    listed: &ConfigList,
    output: &mut Output,
) -> Result<(), Refusal>
    ensures room { IfOk result (λ u. takes_reply output.old.output.queue ≡ true) }
    ensures sent { IfOk result (λ u. output.new ≡ record output.old {
      output = with_reply by_slots by_gaps output.old.output (Some (frame_asked listed.now soc (word_number word) stream.now));
    }) }
    ensures refused { IfErr result (λ refusal. refusal ≡ (if takes_reply output.old.output.queue then Refusal.NoMemory else Refusal.ReplyFull)) }
    ensures unchanged { IfErr result (λ refusal. output.new ≡ output.old) }
{
    if !output.takes_reply() {
        return Err(Refusal::ReplyFull);
    }
    let frame = frame_for(alloc, stream, word, soc, listed)?;
    output.reply(frame);
    Ok(())
}

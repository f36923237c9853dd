//! Command frames, read and written.

ghost use Rattle.std.specs.Prelude.{◌≡◌, IfOk, Ok};
ghost use Rattle.pg_wire.specs.Head.{IsFrame};
ghost use Rattle.pg_command.specs.declared.command.Command.{Command};
ghost use Rattle.pg_command.specs.Reading.{command_of};
ghost use Rattle.pg_command.specs.Spelling.{SpellsCommand, written};

use pg_wire::{Head, Kind, PmuId, Refusal, check, read_head};

/// A command of a subscriber, or to a source.
#[derive(Clone, Copy, PartialEq, Eq)]
pub struct Command {
    /// IDCODE: the number of the stream that is commanded, or in a command to a source that of the source.
    pub stream: u16,
    /// CMD: what is commanded. `Word::of` says whether it is a known word.
    pub word: u16,
}

/// How many bytes a command frame has that is not extended.
const COMMAND_SIZE: usize = 18;

/// The word of an extended frame, behind which more data may stand.
const EXTENDED: u16 = 8;

/// What a frame commands. It asks for bytes of which `is_frame` holds (C37.118.2, 6.6).
///
/// It answers `WrongType` for a frame that is no command, and else `BadLength` for one under 18 bytes, or over 18 with
/// a word other than 8. The bytes behind the word 8 are forgotten, as are version, time and quality.
pub fn read_command(frame: &[u8]) -> Result<Command, Refusal>
    requires { IsFrame frame.now }
    // What is read is spelled so, and what is spelled so is read.
    ensures found { IfOk result (SpellsCommand frame.now) }
    ensures only { (c : Command) → SpellsCommand frame.now c → result ≡ Ok c }
    // Which refusal it is.
    ensures exact { result ≡ command_of frame.now }
{
    command_in(frame)
}

/// The body of `read_command`.
fn command_in(frame: &[u8]) -> Result<Command, Refusal>
    requires { IsFrame frame.now }
    ensures { result ≡ command_of frame.now }
{
    let Head {
        kind: Kind::Cmd,
        id: stream,
        ..
    } = read_head(frame)
    else {
        return Err(Refusal::WrongType);
    };
    if frame.len() < COMMAND_SIZE {
        return Err(Refusal::BadLength);
    }
    let word = u16::from_be_bytes([frame[14], frame[15]]);
    if frame.len() > COMMAND_SIZE && word != EXTENDED {
        return Err(Refusal::BadLength);
    }
    Ok(Command { stream, word })
}

/// The frame that commands this word to a source: version 2, and a FRACSEC of 0x0F000000, which says that the clock is not reliable.
pub fn write_command(id: PmuId, soc: u32, word: u16) -> [u8; 18]
    ensures { result ≡ written id soc word }
{
    let [id_high, id_low] = id.get().to_be_bytes();
    let [soc_0, soc_1, soc_2, soc_3] = soc.to_be_bytes();
    let [word_high, word_low] = word.to_be_bytes();
    let mut frame = [
        0xAA, 0x42, 0, 18, id_high, id_low, soc_0, soc_1, soc_2, soc_3, 0x0F, 0, 0, 0, word_high,
        word_low, 0, 0,
    ];
    let [check_high, check_low] = check(&frame[..16]).to_be_bytes();
    frame[16] = check_high;
    frame[17] = check_low;
    frame
}

//! Laws of command frames, as contracts of functions that do nothing.

ghost use Rattle.std.specs.Prelude.{◌≡◌, ◌<◌, ◌^◌, ℕ, List, Ok};
ghost use Rattle.pg_wire.specs.Head.{IsFrame};
ghost use Rattle.pg_command.specs.declared.command.Command.{Command};
ghost use Rattle.pg_command.specs.Reading.{command_of};
ghost use Rattle.pg_command.specs.Spelling.{SpellsCommand, written};

/// The same bytes are the frame of one command only.
pub fn one_command()
    ensures { (bytes : List ℕ) (c d : Command) → SpellsCommand bytes c → SpellsCommand bytes d → c ≡ d }
{}

/// What is written for a command is a frame of that command, and is read as it.
pub fn written_is_read()
    ensures frame { (id soc word : ℕ) → id < 2 ^ 16 → soc < 2 ^ 32 → word < 2 ^ 16 → IsFrame (written id soc word) }
    ensures spelled { (id soc word : ℕ) → id < 2 ^ 16 → soc < 2 ^ 32 → word < 2 ^ 16 → SpellsCommand (written id soc word) (record { stream = id; word = word }) }
    ensures read { (id soc word : ℕ) → id < 2 ^ 16 → soc < 2 ^ 32 → word < 2 ^ 16 → command_of (written id soc word) ≡ Ok (record { stream = id; word = word }) }
{}

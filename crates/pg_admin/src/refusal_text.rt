//! Words for a refusal.

ghost use Rattle.std.specs.Prelude.{◌≡◌};
ghost use Rattle.pg_admin.specs.Said.{said_of};

use pg_wire::Refusal;
use std::fmt;

/// What is said of a refusal by which the program ends, where nothing else says more: what is wrong, and what would be right. The
/// program ends by no other refusal than those that have words of their own.
pub fn say(refusal: Refusal) -> &'static str
    ensures { result.now ≡ said_of refusal }
{
    match refusal {
        Refusal::NoMemory => "out of memory; give this machine more, or let the setup need less",
        Refusal::PmuExists =>
            "two tables [[pmu]] have the same source and id; each PMU has one table",
        Refusal::PmusFull => "more than 256 PMUs; at most 256 are allowed",
        Refusal::NoSuchPmu =>
            "a grant names a PMU that no table [[pmu]] has; add the table, or remove the grant",
        Refusal::SubExists =>
            "two tables [[subscriber]] have the same id; each subscriber has its own",
        Refusal::SubsFull => "more than 64 subscribers; at most 64 are allowed",
        Refusal::NoSuchSub =>
            "a table belongs to a subscriber that was refused; correct the table of that subscriber",
        Refusal::GrantsFull => "a subscriber has more than 32 grants; at most 32 are allowed",
        Refusal::StreamExists =>
            "two streams of a subscriber have the same id; each stream has its own",
        Refusal::StreamsFull => "a subscriber has more than 8 streams; at most 8 are allowed",
        Refusal::BadDefinition => {
            "a value of a stream is outside its range: rate 1 to 120, base from its rate to 16777215, wait 0 to 60000, window 1 to 64, a header \
             of ASCII up to 1024 bytes, and no member twice"
        }
        Refusal::Busy =>
            "8 clients are connected to the control socket, the most possible; try again when one has left",
        Refusal::BadSetup => "the setup file has mistakes; `pdcgw check --setup FILE` lists them",
        Refusal::ReadFault =>
            "input can't be read; it has to be a file, a pipe or a terminal that is open",
        Refusal::WriteFault =>
            "output can't be written; it has to be a file, a pipe or a terminal that takes it",
        _ => "the gateway refuses this; `pdcgw help` lists what it does",
    }
}

/// The last line that is printed: the number and the name of the refusal by which the program ends.
#[derive(Clone, Copy, PartialEq, Eq)]
pub struct Signed(pub Refusal);

impl fmt::Display for Signed {
    fn fmt<W: fmt::Write>(&self, f: &mut fmt::Formatter<W>) -> fmt::Result {
        let number = self.0.number();
        let name = self.0.name();
        write!(f, "pdcgw: {number} {name}")
    }
}

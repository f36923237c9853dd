//! What the rule of the turnstile knows of each seat.
ghost use Rattle.std.specs.Prelude.{List, []};

use std::collections::LinkedList;
use std::marker::Brand;

/// What a seat knows. No value of it is made: it stands in proofs alone.
pub struct View<E, R> {
    /// The history, as far as the seat has seen it.
    pub seen: LinkedList<(E, R)>,
    /// What a seat that was joined to it has seen, until the two are compared.
    pub other: LinkedList<(E, R)>,
    /// The places of its own calls in the history.
    pub own: LinkedList<u64>,
    /// It has the value.
    pub holds: bool,
}

/// The call that a step notes, as a list of at most one. Each call of a function picks it: a step on a word has no
/// parameter of its own, and a value that crosses threads can hold no snapshot.
pub trait Telling<E, R> {
    ghost calls: { List (E × R) };
}

impl<E, R> Telling<E, R> for Brand {
    ghost calls = { [] };
}

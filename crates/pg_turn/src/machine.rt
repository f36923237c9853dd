//! What a turnstile holds: a value that answers one event after another.
ghost use Rattle.std.specs.Prelude.{List, [], ◌∷◌, ◌++◌};

/// A value that answers one event after another.
///
/// Its state is given by histories, and so the trait has no type of states. A history is the list of all events so far,
/// each with its reply, the oldest first. An `impl` says which histories a value shows and which replies may come after a
/// history, and its `step` keeps the one law, which is the clause of `step`.
pub trait Machine {
    /// What the machine is asked. It is moved into the step.
    type Event;

    /// What the machine answers.
    type Reply;

    // The value is one that such a history can have left.
    ghost shows: { Self → List (Self.Event × Self.Reply) → Type 0 };

    // After this history, the event may get this reply.
    ghost may: { List (Self.Event × Self.Reply) → Self.Event → Self.Reply → Type 0 };

    /// Answers the event. The law: after each history that the value showed before, the event may get this reply, and the
    /// value now shows that history with this call as its last.
    fn step(&mut self, event: Self::Event) -> Self::Reply
        ensures law { (history : List (Self.Event × Self.Reply)) → shows self.old history → may history event result × shows self.new (history ++ (event, result) ∷ []) };
}

//! What an operator's line asks for, by its first word.
ghost use Rattle.std.specs.Prelude.{◌≡◌};
ghost use Rattle.pg_lines.specs.Verbs.{verb_of};

/// The first word of an operator's line.
#[derive(Clone, Copy, PartialEq, Eq)]
pub(crate) enum Verb {
    AddPmu,
    DropPmu,
    AddSub,
    DropSub,
    Grant,
    Revoke,
    Define,
    Remove,
    Stats,
    PmuStats,
    Audit,
}

/// The verbs, as they are written.
pub(crate) const VERBS: [&str; 11] = [
    "addpmu", "droppmu", "addsub", "dropsub", "grant", "revoke", "define", "remove", "stats",
    "pmustats", "audit",
];

impl Verb {
    /// The verb that is written so.
    pub(crate) fn of(word: &str) -> Option<Verb>
        ensures value { result ≡ verb_of word.now }
    {
        let verb = match word {
            "addpmu" => Verb::AddPmu,
            "droppmu" => Verb::DropPmu,
            "addsub" => Verb::AddSub,
            "dropsub" => Verb::DropSub,
            "grant" => Verb::Grant,
            "revoke" => Verb::Revoke,
            "define" => Verb::Define,
            "remove" => Verb::Remove,
            "stats" => Verb::Stats,
            "pmustats" => Verb::PmuStats,
            "audit" => Verb::Audit,
            _ => return None,
        };
        Some(verb)
    }
}

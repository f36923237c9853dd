//! Layouts of a stream's data frames, and what is done where they change.
ghost use Rattle.std.specs.Prelude.{◌≡◌, ◌≤◌, ◌==◌, not};
ghost use Rattle.std.specs.List.{list_all};
ghost use Rattle.pg_limits.specs.Layouts.{are_apart, are_unlike};
ghost use Rattle.pg_limits.specs.Windows.{is_keep, is_safe};

/// What is done where the effective blocks of a stream change while it is on.
#[derive(Clone, Copy, Debug, PartialEq, Eq)]
pub enum OnChange {
    /// Its subscriber is hung up where a data frame could be read by the layout of another one; else a CFG-2 is put among its replies.
    Safe,
    /// Its subscriber is hung up.
    HangUp,
    /// Nothing.
    Keep,
}

impl OnChange {
    /// Whether it sends a CFG-2 where that is safe.
    pub(crate) fn is_safe(self) -> bool
        ensures { result ≡ is_safe self }
    {
        match self {
            OnChange::Safe => true,
            OnChange::HangUp | OnChange::Keep => false,
        }
    }

    /// Whether it does nothing.
    pub(crate) fn is_keep(self) -> bool
        ensures { result ≡ is_keep self }
    {
        match self {
            OnChange::Keep => true,
            OnChange::Safe | OnChange::HangUp => false,
        }
    }
}

/// Whether this length is none of these.
fn is_none_of(len: u16, others: &[u16]) -> bool
    ensures { result ≡ list_all (λ other. not (other == len)) others.now }
{
    others.iter().all(|other| *other != len)
}

/// Whether no two of these lengths are the same.
fn are_apart(lengths: &[u16]) -> bool
    ensures { result ≡ are_apart lengths.now }
{
    for (at, len) in lengths.iter().enumerate() {
        if !is_none_of(*len, &lengths[at + 1..]) {
            return false;
        }
    }
    true
}

/// Whether no two of a stream's layouts from number `floor` to number `newest` have data frames that are as long as each other. `lengths` has
/// those of its last layouts, the newest first: where they do not go back as far as `floor`, two may be.
pub fn are_unlike(lengths: &[u16], floor: u64, newest: u64) -> bool
    requires { floor ≤ newest }
    ensures { result ≡ are_unlike lengths.now floor newest }
{
    let more = newest - floor;
    if more >= lengths.len() as u64 {
        return false;
    }
    are_apart(&lengths[..more as usize + 1])
}

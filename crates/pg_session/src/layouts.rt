//! The layouts of a stream's data frames.

ghost use Rattle.std.specs.Prelude.{◌≡◌, ◌≤◌, length, option_map, unwrap_or};
ghost use Rattle.pg_config.specs.Parts.{data_len};
ghost use Rattle.pg_session.specs.Changing.{IsOfParts, list_after};
ghost use Rattle.pg_session.specs.Streams.{first_layout, frame_len, next_layout};

use crate::change::{Change, config_of};
use pg_config::PmuConfig;
use pg_outcfg::ConfigList;
use pg_wire::PmuKey;

/// The bytes of a data frame before and behind its blocks (C37.118.2, 6.3).
const AROUND: u16 = 16;

/// How many of the last layouts of a stream are kept.
const LAYOUTS: usize = 32;

/// The layouts of a stream's data frames. A data frame does not say which blocks it carries: its reader knows that by the CFG-2 of
/// its layout.
#[derive(Clone, Copy, PartialEq, Eq)]
pub struct Layouts {
    /// The number of the stream's definition among those of its subscriber, modulo 2^64: a stream that is defined anew has another one.
    pub definition: u64,
    /// The number of its present layout: how often its effective blocks changed since it was defined, modulo 2^64.
    pub number: u64,
    /// The bytes of a data frame of each of its last layouts, the present one first; 0 behind its first one.
    pub lengths: [u16; LAYOUTS],
}

impl Layouts {
    /// The layouts of a stream that was just defined.
    pub(crate) fn first(definition: u64, len: u16) -> Layouts
        ensures { result ≡ first_layout definition len }
    {
        let mut lengths = [0; LAYOUTS];
        lengths[0] = len;
        Layouts {
            definition,
            number: 0,
            lengths,
        }
    }

    /// Its effective blocks have become others, with data frames of this length.
    pub(crate) fn change_to(&mut self, len: u16)
        ensures { self.new ≡ next_layout len self.old }
    {
        self.number = self.number.wrapping_add(1);
        self.lengths.copy_within(..LAYOUTS - 1, 1);
        self.lengths[0] = len;
    }
}

/// How many bytes stand for a member in a data frame: none where it is not effective.
fn len_of(config: Option<&PmuConfig>) -> u16
    ensures value { result ≡ unwrap_or (option_map (λ c. data_len c.now) config.entry) 0 }
    ensures most { result ≤ 398 }
{
    match config {
        Some(config) => config.block_len() as u16,
        None => 0,
    }
}

/// How many bytes a data frame of these members has.
pub(crate) fn frame_len(listed: &ConfigList, members: &[PmuKey]) -> u16
    requires { length members.now ≤ 32 }
    ensures { result ≡ frame_len listed.now members.now }
{
    let mut len = AROUND;
    for key in members {
        len += len_of(config_of(listed, key));
    }
    len
}

/// The same after a change of the CFG-1 list.
pub(crate) fn frame_len_after<'a>(
    listed: &'a ConfigList,
    change: &'a Change<'a>,
    members: &[PmuKey],
) -> u16
    requires few { length members.now ≤ 32 }
    requires places { IsOfParts change.now }
    ensures { result ≡ frame_len (list_after listed.now change.now) members.now }
{
    let mut len = AROUND;
    for key in members {
        len += len_of(change.after(listed, key));
    }
    len
}

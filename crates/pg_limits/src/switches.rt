//! Streams that were started and stopped.
ghost use Rattle.std.specs.Prelude.{◌≡◌, ◌<◌, IfSome};
ghost use Rattle.pg_limits.specs.Switched.{at, find, find_named, is_empty, none, place_for, switched};

use std::marker::Model;

/// The streams that a subscriber has at most.
pub const STREAMS: usize = 8;

/// The streams that commands started or stopped, each with the last of these commands.
#[derive(Clone, Copy, PartialEq, Eq)]
pub struct Switches {
    // The streams in the order in which they were named first, 0 behind the last, and whether each is on.
    streams: [(u16, bool); STREAMS],
}

impl Model for Switches {
    ghost use Rattle.std.specs.Prelude.{List, ℕ, Bool};

    ghost Value = { List (ℕ × Bool) };

    ghost view = { λ s. s.streams };

    ghost inverse = { λ l. record { streams = l } };
}

impl Switches {
    /// No stream was started or stopped.
    pub fn none() -> Switches
        ensures { result ≡ none }
    {
        Switches {
            streams: [(0, false); STREAMS],
        }
    }

    /// Whether no stream was started or stopped.
    pub fn is_empty(&self) -> bool
        ensures { result ≡ is_empty self.now }
    {
        self.streams[0].0 == 0
    }

    /// A stream was started, or stopped. A ninth is left out: no subscriber has one.
    pub fn switch(&mut self, stream: u16, is_on: bool)
        ensures { self.new ≡ switched stream is_on self.old }
    {
        if let Some(place) = self.place_for(stream) {
            self.streams[place] = (stream, is_on);
        }
    }

    /// The first place that is this stream's or nobody's.
    fn place_for(&self, stream: u16) -> Option<usize>
        ensures value { result ≡ place_for stream self.now }
        ensures within { IfSome result (λ place. place < 8) }
    {
        self.streams
            .iter()
            .position(|it| it.0 == stream || it.0 == 0)
    }

    /// Whether a stream was started, by the last of its commands; `None` where there was none.
    pub fn find(&self, stream: u16) -> Option<bool>
        ensures { result ≡ find stream self.now }
    {
        if stream == 0 {
            None
        } else {
            self.find_named(stream)
        }
    }

    /// Whether the first place of this number is on.
    fn find_named(&self, stream: u16) -> Option<bool>
        ensures { result ≡ find_named stream self.now }
    {
        let switch = self.streams.iter().find(|it| it.0 == stream)?;
        Some(switch.1)
    }

    /// All places.
    pub(crate) fn places(&self) -> &[(u16, bool)]
        ensures { result.now ≡ self.now }
    {
        &self.streams
    }

    /// The stream at this place, and whether it was started; `None` behind the last.
    pub fn at(&self, place: usize) -> Option<(u16, bool)>
        ensures { result ≡ at place self.now }
    {
        match self.streams.get(place) {
            Some(switch) if switch.0 != 0 => Some(*switch),
            _ => None,
        }
    }
}

//! What is known of the layouts of one stream of a connection.
ghost use Rattle.std.specs.Prelude.{◌≡◌, false};
ghost use Rattle.pg_limits.specs.Switched.{none};
ghost use Rattle.pg_limits.specs.Windows.{begun_at, drained, is_at, is_keep, is_safe, is_unlike, judged, judged_off, judged_read, noted, reads_anew, resumed, settled, unknown, was_idle};

use crate::layouts::{OnChange, are_unlike};
use crate::switches::Switches;

/// How many of the last layouts of a stream are found.
pub const LAYOUTS: usize = 32;

/// What is found of a stream.
#[derive(Clone, Copy, PartialEq, Eq)]
pub struct FoundStream {
    /// Its number, 1 to 65534.
    pub stream: u16,
    /// The number of its definition: a stream that is defined anew has another one.
    pub definition: u64,
    /// The number of its present layout.
    pub layout: u64,
    /// The bytes of a data frame of each of its last layouts, the present one first; 0 behind its first one.
    pub lengths: [u16; LAYOUTS],
    /// Whether it is on.
    pub is_on: bool,
}

/// What is to be done about a stream.
#[derive(Clone, Copy, Debug, PartialEq, Eq)]
pub enum Verdict {
    /// Nothing.
    Nothing,
    /// Nothing while it is off. But its subscriber would misread it, were it started: it is to be asked about behind each drain.
    AskAgain,
    /// A CFG-2 is to be put among the replies.
    SendConfig,
    /// The connection is to be closed.
    Disconnect,
}

/// What happened while a subscriber was served once.
#[derive(Clone, Copy)]
pub struct ServedOnce {
    /// The streams whose CFG-2 was put among the replies.
    pub configured: Switches,
    /// The streams that were started and stopped.
    pub switched: Switches,
    /// Whether no edit and no announcement was under way, from before until behind the question about the streams.
    pub is_quiet: bool,
    /// Whether its last drain handed out all that waited.
    pub is_emptied: bool,
}

impl ServedOnce {
    /// Nothing was asked for, and nothing drained.
    pub fn nothing() -> ServedOnce
        ensures { result ≡ record { configured = none; switched = none; is_quiet = false; is_emptied = false } }
    {
        ServedOnce {
            configured: Switches::none(),
            switched: Switches::none(),
            is_quiet: false,
            is_emptied: false,
        }
    }
}

/// What is known of the layouts of one stream. Its subscriber reads it by one of the layouts from number `floor` on, and so is each
/// of its frames that wait. Number `newest` is that of the last answer.
#[derive(Clone, Copy, PartialEq, Eq)]
pub struct KnownLayout {
    /// Its number; 0 where it is none.
    pub stream: u16,
    /// The number of its definition.
    pub definition: u64,
    /// The oldest layout of which a frame may wait, or by which its subscriber may read.
    pub floor: u64,
    /// The layout of the last answer.
    pub newest: u64,
    /// Whether its CFG-2 was handed out, or it was started or stopped, in this connection.
    pub is_read: bool,
    /// Whether its subscriber started it, and did not stop it.
    pub is_started: bool,
    /// Whether it is off, and none of its frames waits.
    pub is_idle: bool,
    /// Whether its CFG-2 is to be put among the replies.
    pub owes_config: bool,
    /// Whether it was defined anew, and is to be started again.
    pub resumes: bool,
    /// The floor to be, once what was drained was found to be safe.
    pub next_floor: Option<u64>,
}

impl KnownLayout {
    /// A stream that was not asked about.
    pub fn unknown(stream: u16) -> KnownLayout
        ensures { result ≡ unknown stream }
    {
        KnownLayout {
            stream,
            definition: 0,
            floor: 0,
            newest: 0,
            is_read: false,
            is_started: false,
            is_idle: true,
            owes_config: false,
            resumes: false,
            next_floor: None,
        }
    }

    /// Its subscriber reads it by the present one of these layouts or a later one, and so is each of its frames that wait.
    fn begin_at(&mut self, found: &FoundStream)
        ensures { self.new ≡ begun_at found.now self.old }
    {
        self.definition = found.definition;
        self.floor = found.layout;
        self.newest = found.layout;
        self.owes_config = false;
        self.next_floor = None;
    }

    /// Keeps what its subscriber commanded.
    pub fn note(&mut self, served: &ServedOnce)
        ensures { self.new ≡ noted served.now self.old }
    {
        if let Some(is_on) = served.switched.find(self.stream) {
            self.is_read = true;
            self.is_started = is_on;
            self.is_idle = false;
            self.resumes = false;
        }
        if served.configured.find(self.stream).is_some() {
            self.is_read = true;
            self.owes_config = false;
        }
        if !self.is_started && served.is_emptied {
            self.is_idle = true;
        }
    }

    /// Whether the layouts are those of the last answer.
    fn is_at(&self, found: &FoundStream) -> bool
        ensures { result ≡ is_at found.now self.now }
    {
        self.definition == found.definition && self.newest == found.layout
    }

    /// Whether no two of the layouts from the floor up to the present one of these have data frames of one length.
    fn is_unlike(&self, found: &FoundStream) -> bool
        ensures { result ≡ is_unlike found.now self.now }
    {
        self.definition == found.definition
            && self.floor <= found.layout
            && are_unlike(&found.lengths, self.floor, found.layout)
    }

    /// What is to be done about it by this rule, where it was found so behind what was served.
    pub fn judge(&mut self, found: &FoundStream, served: &ServedOnce, rule: OnChange) -> Verdict
        ensures { (self.new, result) ≡ judged found.now served.now rule self.old }
    {
        let begins = rule.is_keep() || self.reads_anew(found, served, rule);
        let was_idle = self.was_idle(served);
        self.note(served);
        if begins || !self.is_read {
            self.begin_at(found);
            return Verdict::Nothing;
        }
        if self.is_at(found) {
            return Verdict::Nothing;
        }
        if found.is_on || served.configured.find(self.stream).is_some() {
            self.judge_read(found, rule)
        } else {
            self.judge_off(found, served, was_idle)
        }
    }

    /// Whether none of its frames was handed out while its subscriber was served: none waited before that, and it was not started meanwhile.
    fn was_idle(&self, served: &ServedOnce) -> bool
        ensures { result ≡ was_idle served.now self.now }
    {
        self.is_idle && served.switched.find(self.stream).is_none()
    }

    /// Whether all that its subscriber reads from now on is of the layout that was found. Where nothing changed meanwhile, that is so where it
    /// was not read before; and where its CFG-2 was handed out, unless a frame of another layout came behind that which is as long.
    fn reads_anew(&self, found: &FoundStream, served: &ServedOnce, rule: OnChange) -> bool
        ensures { result ≡ reads_anew found.now served.now rule self.now }
    {
        if !served.is_quiet {
            return false;
        }
        if !self.is_read {
            return true;
        }
        if served.configured.find(self.stream).is_none() {
            return false;
        }
        if self.is_idle {
            return true;
        }
        served.is_emptied && (self.is_at(found) || (rule.is_safe() && self.is_unlike(found)))
    }

    /// What is to be done where its layout changed, and its subscriber reads it.
    fn judge_read(&mut self, found: &FoundStream, rule: OnChange) -> Verdict
        ensures { (self.new, result) ≡ judged_read found.now rule self.old }
    {
        if !rule.is_safe() || !self.is_unlike(found) {
            return Verdict::Disconnect;
        }
        self.newest = found.layout;
        self.owes_config = true;
        Verdict::SendConfig
    }

    /// What is to be done where its layout changed, and it is off. Frames of it may wait from before that, or have been handed out by the drain
    /// before this question, unless it was idle all the while.
    fn judge_off(&mut self, found: &FoundStream, served: &ServedOnce, was_idle: bool) -> Verdict
        ensures { (self.new, result) ≡ judged_off found.now served.now was_idle self.old }
    {
        if self.definition != found.definition {
            // It was removed before it was found off, so that no frame of it is made: where nothing changed meanwhile, none waits.
            self.is_idle = self.is_idle || (served.is_emptied && served.is_quiet);
            return Verdict::AskAgain;
        }
        if was_idle || self.is_unlike(found) {
            Verdict::AskAgain
        } else {
            Verdict::Disconnect
        }
    }

    /// Where a drain handed out all that waited, what comes behind is of the layout of the last answer or of a later one; what it handed out is
    /// to be judged by the old floor yet.
    pub(crate) fn drain(&mut self, is_emptied: bool)
        ensures { self.new ≡ drained is_emptied self.old }
    {
        self.next_floor = if is_emptied && !self.owes_config {
            Some(self.newest)
        } else {
            None
        };
    }

    /// What was drained was found to be safe.
    pub(crate) fn settle(&mut self)
        ensures { self.new ≡ settled self.old }
    {
        if let Some(floor) = self.next_floor {
            self.floor = self.floor.max(floor);
            self.next_floor = None;
        }
    }

    /// It is started again behind its CFG-2, while nothing waits.
    pub(crate) fn go_on(&mut self, found: &FoundStream)
        ensures { self.new ≡ resumed found.now self.old }
    {
        self.begin_at(found);
        self.is_read = true;
        self.is_started = true;
        self.is_idle = false;
        self.resumes = false;
    }
}

//! What the subscriber of a connection knows of the layouts of its streams.
ghost use Rattle.std.specs.Prelude.{◌≡◌, ◌<◌, IfSome, false, map};
ghost use Rattle.pg_limits.specs.Connections.{changed, first_of, forgotten, is_among, is_found, judged_all, judged_at, judged_each, judged_in, judged_one, known_at, none, noted_all_gone, noted_gone, noted_one, place_for, place_of, unkept, with_verdict};
ghost use Rattle.pg_limits.specs.Windows.{drained, noted, resumed, resuming, settled};

use crate::known_layout::{FoundStream, KnownLayout, ServedOnce, Verdict};
use crate::layouts::OnChange;
use crate::switches::{STREAMS, Switches};
use std::marker::Model;

/// What is to be done about the streams of a subscriber.
#[derive(Clone, Copy, PartialEq, Eq)]
pub struct Judged {
    /// The stream for which the connection is to be closed, if there is one.
    pub misread: Option<u16>,
    /// Whether the streams are to be asked about behind each drain.
    pub asks_again: bool,
}

impl Judged {
    /// The same, with what is to be done about one more stream.
    fn with(self, stream: u16, verdict: Verdict) -> Judged
        ensures { result ≡ with_verdict stream verdict self }
    {
        let mut judged = self;
        match verdict {
            Verdict::Nothing | Verdict::SendConfig => {}
            Verdict::AskAgain => judged.asks_again = true,
            Verdict::Disconnect => judged.misread = Some(stream),
        }
        judged
    }
}

/// What the subscriber of one connection knows of the layouts of its streams. A data frame does not say which blocks it carries: its
/// reader knows that by the last CFG-2.
#[derive(Clone, Copy)]
pub struct KnownLayouts {
    streams: [KnownLayout; STREAMS],
}

impl Model for KnownLayouts {
    ghost use Rattle.std.specs.Prelude.{◌≡◌, length};
    ghost use Rattle.pg_limits.specs.Connections.{Known};

    ghost Value = { Known };

    ghost view = { λ k. k.streams };

    ghost inverse = { λ l. record { streams = l } };

    ghost invariant = { λ k. length k.streams ≡ 8 };
}

impl KnownLayouts {
    /// Those of a connection whose streams were not asked about.
    pub fn new() -> KnownLayouts
        ensures { result ≡ none }
    {
        KnownLayouts {
            streams: [KnownLayout::unknown(0); STREAMS],
        }
    }

    /// The place of a stream, if it is known.
    fn place_of(&self, stream: u16) -> Option<usize>
        ensures value { result ≡ place_of stream self.now }
        ensures within { IfSome result (λ place. place < 8) }
    {
        self.streams.iter().position(|it| it.stream == stream)
    }

    /// The place of a stream, or the first that is free if it is not known; `None` where there is no room for it.
    fn place_for(&self, stream: u16) -> Option<usize>
        ensures value { result ≡ place_for stream self.now }
        ensures within { IfSome result (λ place. place < 8) }
    {
        match self.place_of(stream) {
            Some(place) => Some(place),
            None => self.place_of(0),
        }
    }

    /// What is known of a stream, which stands at this place if it is known.
    fn known_at(&self, place: usize, stream: u16) -> KnownLayout
        ensures { result ≡ known_at place stream self.now }
    {
        match self.streams.get(place) {
            Some(known) if known.stream == stream => *known,
            _ => KnownLayout::unknown(stream),
        }
    }

    /// What is to be done about these streams by this rule, where they were found so behind what was served.
    pub fn judge_all(
        &mut self,
        found: &[Option<FoundStream>; STREAMS],
        served: &ServedOnce,
        rule: OnChange,
    ) -> Judged
        ensures { (self.new, result) ≡ judged_all found.now served.now rule self.old }
    {
        // In this order, so that there is room for what was commanded to streams that are there no more.
        self.forget_others(found);
        self.note_gone(&served.configured, found, served);
        self.note_gone(&served.switched, found, served);
        self.judge_each(found, served, rule)
    }

    /// What is to be done about each of these streams, the first one first.
    fn judge_each(
        &mut self,
        found: &[Option<FoundStream>; STREAMS],
        served: &ServedOnce,
        rule: OnChange,
    ) -> Judged
        ensures { (self.new, result) ≡ judged_each found.now served.now rule self.old }
    {
        let mut judged = Judged {
            misread: None,
            asks_again: false,
        };
        for one in found.iter() {
            judged = self.judge_one(one, served, rule, judged);
        }
        judged
    }

    /// What is to be done where this stream, if it is one, is judged behind others.
    fn judge_one(
        &mut self,
        found: &Option<FoundStream>,
        served: &ServedOnce,
        rule: OnChange,
        judged: Judged,
    ) -> Judged
        ensures { (self.new, result) ≡ judged_one served.now rule (self.old, judged) found.now }
    {
        match found {
            Some(found) => {
                let verdict = self.judge(found, served, rule);
                judged.with(found.stream, verdict)
            }
            None => judged,
        }
    }

    /// Keeps what was commanded to streams that are there no more, behind what was served: they may be defined anew, and are then read by what
    /// was handed out before.
    fn note_gone(
        &mut self,
        commanded: &Switches,
        found: &[Option<FoundStream>; STREAMS],
        served: &ServedOnce,
    )
        ensures { self.new ≡ noted_all_gone found.now served.now commanded.now self.old }
    {
        for command in commanded.places() {
            self.note_if_gone(command.0, found, served);
        }
    }

    /// Keeps what was commanded to this stream, if it is one, where it is there no more.
    fn note_if_gone(
        &mut self,
        stream: u16,
        found: &[Option<FoundStream>; STREAMS],
        served: &ServedOnce,
    )
        ensures { self.new ≡ noted_gone found.now served.now self.old stream }
    {
        if stream != 0 && !is_among(found, stream) {
            self.note_one(stream, served);
        }
    }

    /// Keeps what was commanded to this stream, from now on if nothing is known of it.
    fn note_one(&mut self, stream: u16, served: &ServedOnce)
        ensures { self.new ≡ noted_one stream served.now self.old }
    {
        if let Some(place) = self.place_for(stream) {
            let mut known = self.known_at(place, stream);
            known.note(served);
            self.streams[place] = known;
        }
    }

    /// Forgets streams that are not among these and that were not read in this connection, so that there is room for others.
    fn forget_others(&mut self, found: &[Option<FoundStream>; STREAMS])
        ensures { self.new ≡ map (forgotten found.now) self.old }
    {
        for entry in self.streams.iter_mut() {
            forget(entry, found);
        }
    }

    /// Keeps what its subscriber commanded while the last answer was valid.
    pub fn note(&mut self, served: &ServedOnce)
        ensures { self.new ≡ map (noted served.now) self.old }
    {
        for entry in self.streams.iter_mut() {
            entry.note(served);
        }
    }

    /// What is to be done about a stream by this rule, where it was found so behind what was served.
    pub fn judge(&mut self, found: &FoundStream, served: &ServedOnce, rule: OnChange) -> Verdict
        ensures { (self.new, result) ≡ judged_in found.now served.now rule self.old }
    {
        let Some(place) = self.place_for(found.stream) else {
            return unkept(found, rule);
        };
        let mut known = self.known_at(place, found.stream);
        let verdict = known.judge(found, served, rule);
        self.streams[place] = known;
        verdict
    }

    /// Its subscriber was served once. Where the last drain handed out all that waited, what comes behind is of the layout of the last answer or
    /// of a later one; what it handed out is to be judged by the old floor yet.
    pub fn drained(&mut self, is_emptied: bool)
        ensures { self.new ≡ map (drained is_emptied) self.old }
    {
        for entry in self.streams.iter_mut() {
            entry.drain(is_emptied);
        }
    }

    /// What was drained was found to be safe.
    pub fn settle(&mut self)
        ensures { self.new ≡ map settled self.old }
    {
        for entry in self.streams.iter_mut() {
            entry.settle();
        }
    }

    /// The first stream whose CFG-2 is to be put among the replies.
    pub fn owed(&self) -> Option<u16>
        ensures { result ≡ first_of (λ k. k.owes_config) self.now }
    {
        let entry = self.streams.iter().find(|it| it.owes_config)?;
        Some(entry.stream)
    }

    /// The CFG-2 of this stream was put among the replies, or there is no such stream any more.
    pub fn paid(&mut self, stream: u16)
        ensures { self.new ≡ changed stream (λ k. record k { owes_config = false }) self.old }
    {
        if let Some(place) = self.place_of(stream) {
            let mut known = self.known_at(place, stream);
            known.owes_config = false;
            self.streams[place] = known;
        }
    }

    /// This stream was defined anew with the same members in the same order: where its subscriber had started it, it is to be started again.
    pub fn resume(&mut self, stream: u16)
        ensures { self.new ≡ changed stream resuming self.old }
    {
        if let Some(place) = self.place_of(stream) {
            let mut known = self.known_at(place, stream);
            known.resumes = known.is_started;
            self.streams[place] = known;
        }
    }

    /// The first stream that is to be started again.
    pub fn resuming(&self) -> Option<u16>
        ensures { result ≡ first_of (λ k. k.resumes) self.now }
    {
        let entry = self.streams.iter().find(|it| it.resumes)?;
        Some(entry.stream)
    }

    /// This stream is not to be started again any more.
    pub fn give_up(&mut self, stream: u16)
        ensures { self.new ≡ changed stream (λ k. record k { resumes = false }) self.old }
    {
        if let Some(place) = self.place_of(stream) {
            let mut known = self.known_at(place, stream);
            known.resumes = false;
            self.streams[place] = known;
        }
    }

    /// A stream that was found so is started again behind its CFG-2, while nothing waits.
    pub fn resumed(&mut self, found: &FoundStream)
        ensures { self.new ≡ changed found.now.stream (resumed found.now) self.old }
    {
        if let Some(place) = self.place_of(found.stream) {
            let mut known = self.known_at(place, found.stream);
            known.go_on(found);
            self.streams[place] = known;
        }
    }
}

/// What is to be done about a stream for which there is no room: more streams were read in this connection than are kept, so that it may be read
/// by a CFG-2 that is not known.
fn unkept(found: &FoundStream, rule: OnChange) -> Verdict
    ensures { result ≡ unkept found.now rule }
{
    if rule.is_keep() {
        Verdict::Nothing
    } else if found.is_on {
        Verdict::Disconnect
    } else {
        Verdict::AskAgain
    }
}

/// Forgets a stream that is not among these and that was not read in this connection.
fn forget(known: &mut KnownLayout, found: &[Option<FoundStream>])
    ensures { known.new ≡ forgotten found.now known.old }
{
    if !is_among(found, known.stream) && !known.is_read {
        *known = KnownLayout::unknown(0);
    }
}

/// Whether this is the stream.
fn is_found(found: &Option<FoundStream>, stream: u16) -> bool
    ensures { result ≡ is_found stream found.now }
{
    match found {
        Some(found) => found.stream == stream,
        None => false,
    }
}

/// Whether a stream is among these.
fn is_among(found: &[Option<FoundStream>], stream: u16) -> bool
    ensures { result ≡ is_among found.now stream }
{
    found.iter().any(|it| is_found(it, stream))
}

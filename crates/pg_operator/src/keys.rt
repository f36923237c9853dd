//! The keys of a setup file: one table of their names, values and defaults. The reader, the list of mistakes and the help of `pdcgw run` take
//! them from it, and `tools/setup_page.py` writes the tables of docs/SETUP.md from it, with what key_texts.rt says of each.
ghost use Rattle.std.specs.Prelude.{◌≡◌};
ghost use Rattle.pg_operator.specs.Ranges.{least_of, most_of, otherwise_of};

use crate::kind::Kind;
use std::fmt;

/// What holds where a key is left out.
#[derive(Clone, Copy)]
pub(crate) enum Absent {
    /// Nothing: it has to be there.
    Required,
    /// Its number is this one.
    Number(u32),
    /// What these words say.
    Words(&'static str),
}

impl fmt::Display for Absent {
    fn fmt<W: fmt::Write>(&self, f: &mut fmt::Formatter<W>) -> fmt::Result {
        match self {
            Absent::Required => f.write_str("required"),
            Absent::Number(number) => write!(f, "default {number}"),
            Absent::Words(words) => write!(f, "default {words}"),
        }
    }
}

/// A key of a table of a setup file.
#[derive(Clone, Copy)]
pub(crate) struct SetupKey {
    /// Its name.
    pub(crate) name: &'static str,
    /// What its value has to be.
    pub(crate) kind: Kind,
    /// What holds where it is left out.
    pub(crate) absent: Absent,
}

/// After how many seconds without data a source is connected again, where its tables do not say it.
pub(crate) const SILENCE: u16 = 10;

/// How many milliseconds a source may be ahead of the reference, where its tables do not say it.
pub(crate) const AHEAD_MS: u16 = 200;

/// After how many seconds in which a subscriber accepts nothing it is disconnected, where its table does not say it.
pub(crate) const STALL: u16 = 30;

/// The keys, those of a table in the order in which they are listed. The kinds of a stream's numbers are the ranges of a definition: the
/// reader takes each number of 32 bits (of 8 as `rate`), and the gateway refuses a definition that is out of them.
#[rattlefmt::skip]
impl SetupKey {
    pub(crate) const TICK_MS: SetupKey = SetupKey { name: "tick_ms", kind: Kind::Whole(1, 1000), absent: Absent::Number(10) };
    pub(crate) const INGEST: SetupKey = SetupKey { name: "ingest", kind: Kind::Whole(1, 8), absent: Absent::Number(1) };
    pub(crate) const SERVE: SetupKey = SetupKey { name: "serve", kind: Kind::Whole(1, 8), absent: Absent::Number(1) };
    pub(crate) const LOG: SetupKey = SetupKey { name: "log", kind: Kind::Level, absent: Absent::Words("\"info\"") };
    pub(crate) const CONTROL: SetupKey = SetupKey { name: "control", kind: Kind::Path, absent: Absent::Words("none") };
    pub(crate) const STATUS: SetupKey = SetupKey { name: "status", kind: Kind::Served, absent: Absent::Words("none") };
    pub(crate) const NAME: SetupKey = SetupKey { name: "name", kind: Kind::Name, absent: Absent::Words("the host's name, or pdcgw") };
    pub(crate) const RECORD: SetupKey = SetupKey { name: "record", kind: Kind::Folder, absent: Absent::Words("no recording") };
    pub(crate) const RECORD_MB: SetupKey = SetupKey { name: "record_mb", kind: Kind::Whole(16, 10_000_000), absent: Absent::Number(4000) };
    pub(crate) const RECORD_HOURS: SetupKey = SetupKey { name: "record_hours", kind: Kind::Whole(1, 100_000), absent: Absent::Number(168) };
    pub(crate) const PMU: SetupKey = SetupKey { name: "pmu", kind: Kind::Tables("[[pmu]]"), absent: Absent::Required };
    pub(crate) const SUBSCRIBER: SetupKey = SetupKey { name: "subscriber", kind: Kind::Tables("[[subscriber]]"), absent: Absent::Required };
    pub(crate) const FILE_KEYS: [SetupKey; 12] = [
        SetupKey::TICK_MS, SetupKey::INGEST, SetupKey::SERVE, SetupKey::LOG, SetupKey::CONTROL, SetupKey::STATUS, SetupKey::NAME,
        SetupKey::RECORD, SetupKey::RECORD_MB, SetupKey::RECORD_HOURS, SetupKey::PMU, SetupKey::SUBSCRIBER,
    ];

    pub(crate) const PMU_ID: SetupKey = SetupKey { name: "id", kind: Kind::Whole(1, 65534), absent: Absent::Required };
    pub(crate) const SOURCE: SetupKey = SetupKey { name: "source", kind: Kind::Whole(1, 65534), absent: Absent::Words("`id`") };
    pub(crate) const CONNECT: SetupKey = SetupKey { name: "connect", kind: Kind::Called, absent: Absent::Words("no connection") };
    pub(crate) const PREFER_FIRST: SetupKey = SetupKey { name: "prefer_first", kind: Kind::Truth, absent: Absent::Words("false") };
    pub(crate) const SILENCE: SetupKey = SetupKey { name: "silence", kind: Kind::Whole(0, 3600), absent: Absent::Number(SILENCE as u32) };
    pub(crate) const CLOCK_MS: SetupKey = SetupKey { name: "clock_ms", kind: Kind::Whole(1, 30000), absent: Absent::Words("30 seconds") };
    pub(crate) const AHEAD_MS: SetupKey = SetupKey { name: "ahead_ms", kind: Kind::Whole(0, 30000), absent: Absent::Number(AHEAD_MS as u32) };
    pub(crate) const PMU_KEYS: [SetupKey; 7] = [
        SetupKey::PMU_ID, SetupKey::SOURCE, SetupKey::CONNECT, SetupKey::PREFER_FIRST, SetupKey::SILENCE, SetupKey::CLOCK_MS, SetupKey::AHEAD_MS,
    ];

    pub(crate) const SUBSCRIBER_ID: SetupKey = SetupKey { name: "id", kind: Kind::Whole(1, 65535), absent: Absent::Required };
    pub(crate) const PORT: SetupKey = SetupKey { name: "port", kind: Kind::Whole(1, 65535), absent: Absent::Words("none") };
    pub(crate) const RING: SetupKey = SetupKey { name: "ring", kind: Kind::Whole(1, 1024), absent: Absent::Required };
    pub(crate) const BYTES: SetupKey = SetupKey { name: "bytes", kind: Kind::Whole(16, 16_777_216), absent: Absent::Number(16_777_216) };
    pub(crate) const GRANTS: SetupKey = SetupKey { name: "grants", kind: Kind::Grants, absent: Absent::Words("none") };
    pub(crate) const STREAM: SetupKey = SetupKey { name: "stream", kind: Kind::Tables("[[subscriber.stream]]"), absent: Absent::Words("none") };
    pub(crate) const ADDRESS: SetupKey = SetupKey { name: "address", kind: Kind::Bound, absent: Absent::Words("\"0.0.0.0\", all") };
    pub(crate) const ALLOW: SetupKey = SetupKey { name: "allow", kind: Kind::Networks, absent: Absent::Words("every host") };
    pub(crate) const TAKEOVER: SetupKey = SetupKey { name: "takeover", kind: Kind::Truth, absent: Absent::Words("false") };
    pub(crate) const STALL: SetupKey = SetupKey { name: "stall", kind: Kind::Whole(0, 3600), absent: Absent::Number(STALL as u32) };
    pub(crate) const IDLE: SetupKey = SetupKey { name: "idle", kind: Kind::Whole(0, 3600), absent: Absent::Number(0) };
    pub(crate) const CHANGE: SetupKey = SetupKey { name: "change", kind: Kind::Change, absent: Absent::Words("\"safe\"") };
    pub(crate) const SUBSCRIBER_KEYS: [SetupKey; 12] = [
        SetupKey::SUBSCRIBER_ID, SetupKey::PORT, SetupKey::RING, SetupKey::BYTES, SetupKey::GRANTS, SetupKey::STREAM, SetupKey::ADDRESS,
        SetupKey::ALLOW, SetupKey::TAKEOVER, SetupKey::STALL, SetupKey::IDLE, SetupKey::CHANGE,
    ];

    pub(crate) const STREAM_ID: SetupKey = SetupKey { name: "id", kind: Kind::Whole(1, 65534), absent: Absent::Required };
    pub(crate) const RATE: SetupKey = SetupKey { name: "rate", kind: Kind::Whole(1, 120), absent: Absent::Required };
    pub(crate) const BASE: SetupKey = SetupKey { name: "base", kind: Kind::Whole(1, 16_777_215), absent: Absent::Required };
    pub(crate) const WAIT: SetupKey = SetupKey { name: "wait", kind: Kind::Whole(0, 60_000), absent: Absent::Required };
    pub(crate) const WINDOW: SetupKey = SetupKey { name: "window", kind: Kind::Whole(1, 64), absent: Absent::Required };
    pub(crate) const HEADER: SetupKey = SetupKey { name: "header", kind: Kind::Text, absent: Absent::Words("empty") };
    pub(crate) const MEMBERS: SetupKey = SetupKey { name: "members", kind: Kind::Members, absent: Absent::Required };
    pub(crate) const STREAM_KEYS: [SetupKey; 7] = [
        SetupKey::STREAM_ID, SetupKey::RATE, SetupKey::BASE, SetupKey::WAIT, SetupKey::WINDOW, SetupKey::HEADER, SetupKey::MEMBERS,
    ];
}

impl SetupKey {
    /// The least number that it may have. Where its values are no numbers, it is above the most.
    pub(crate) fn least(&self) -> u32
        ensures { result ≡ least_of self.now.kind }
    {
        match self.kind {
            Kind::Whole(least, _) => least,
            _ => 1,
        }
    }

    /// The most.
    pub(crate) fn most(&self) -> u32
        ensures { result ≡ most_of self.now.kind }
    {
        match self.kind {
            Kind::Whole(_, most) => most,
            _ => 0,
        }
    }

    /// The number that it has where it is left out, if it is one.
    pub(crate) fn otherwise(&self) -> u32
        ensures { result ≡ otherwise_of self.now.absent }
    {
        match self.absent {
            Absent::Number(number) => number,
            _ => 0,
        }
    }
}

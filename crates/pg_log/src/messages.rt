//! What the log says.

use crate::asked::{why, write_asked, write_done};
use crate::journal::{Detail, Entry, LogEvent, MOST_PMUS, Subject};
use pg_wire::Refusal;
use std::fmt;
use std::io::ErrorKind;

impl fmt::Display for Entry {
    fn fmt<W: fmt::Write>(&self, f: &mut fmt::Formatter<W>) -> fmt::Result {
        match self.subject {
            Subject::Nobody => {}
            Subject::Source(source) => {
                let number = source.get();
                write!(f, "source {number}: ")?;
            }
            Subject::Subscriber(sub) => {
                let number = sub.get();
                write!(f, "subscriber {number}: ")?;
            }
        }
        if let Detail::OfStream(stream) = self.detail {
            write!(f, "stream {stream}: ")?;
        }
        match self.event {
            LogEvent::Gap | LogEvent::EntriesLost | LogEvent::RecordsMissed => {
                return write_count(self, f);
            }
            _ => {}
        }
        let said = said(self.event);
        write!(f, "{said}")?;
        write_detail(self.event, &self.detail, f)?;
        f.write_str(after(self.event))?;
        if self.times > 1 {
            let times = self.times;
            match self.event {
                LogEvent::Ignored | LogEvent::FarMeasurement => write!(f, " ({times} frames)")?,
                _ => write!(f, " ({times} times)")?,
            }
        }
        Ok(())
    }
}

/// The text of a notice that begins with its count.
fn write_count<W: fmt::Write>(entry: &Entry, f: &mut fmt::Formatter<W>) -> fmt::Result {
    let count = entry.times;
    match (entry.event, count) {
        (LogEvent::Gap, 1) => f.write_str("1 data frame dropped")?,
        (LogEvent::Gap, _) => write!(f, "{count} data frames dropped")?,
        (LogEvent::RecordsMissed, 1) => f.write_str("1 record is missing in the recording")?,
        (LogEvent::RecordsMissed, _) => write!(f, "{count} records are missing in the recording")?,
        (_, 1) => f.write_str("1 log entry was lost")?,
        _ => write!(f, "{count} log entries were lost")?,
    }
    f.write_str(match entry.event {
        LogEvent::Gap => ": the subscriber reads too slowly, or its `ring` or `bytes` is too small",
        LogEvent::RecordsMissed => ": the disk is too slow",
        _ => ": too many at once",
    })
}

/// What a notice says, apart from what is known beside.
fn said(event: LogEvent) -> &'static str {
    match event {
        LogEvent::Called => "connecting",
        LogEvent::Made | LogEvent::Connected => "connected",
        LogEvent::NotMade => "can't connect",
        LogEvent::GivenUp => "can't connect: no answer within 10 s; retrying",
        LogEvent::NoAddress => "the name in `connect` has no address; retrying",
        LogEvent::NotFound =>
            "the name in `connect` is not found: no answer of a name server for 5 s; still waiting",
        LogEvent::SourceEnded => "connection lost",
        LogEvent::SubscriberEnded => "the connection ended",
        LogEvent::Silent => "no data for the time that `silence` allows; connecting again",
        LogEvent::FarMeasurement => "data refused (21 FarClock): their timestamps are",
        LogEvent::AskedAgain => "sends no data; asking again for its configuration and data",
        LogEvent::Reconfigured => "its configuration changed:",
        LogEvent::WrongClock =>
            "this machine's clock is probably wrong: the timestamps of most sources are",
        LogEvent::Foreign => "refused: `allow` does not list this host",
        LogEvent::Refused => "connection refused",
        LogEvent::Stalled => "disconnected: it accepted no data for the time that `stall` allows",
        LogEvent::Idle => "disconnected: no traffic for the time that `idle` allows",
        LogEvent::HungUp => "disconnected by a command",
        LogEvent::Replaced => "disconnected: replaced by a new connection",
        LogEvent::NotBound => "its port can't be bound",
        // What is known beside says it, or the count.
        LogEvent::NotDone
        | LogEvent::Edited
        | LogEvent::Gap
        | LogEvent::EntriesLost
        | LogEvent::RecordsMissed => "",
        LogEvent::NotAccepted => "a connection can't be accepted",
        LogEvent::SocketFault => "a connection's socket can't be waited for",
        LogEvent::NoDelayFault => "TCP_NODELAY can't be set, what is sent may be late",
        LogEvent::NotServed => "its port is open, but its socket can't be waited for",
        LogEvent::PollFault => "waiting for sockets failed; retrying",
        LogEvent::ClockFault => "this machine's clock can't be read; retrying",
        LogEvent::MailFault =>
            "an internal message was delayed or lost (out of memory?); restart the gateway if this repeats",
        LogEvent::ConsoleFault => "a command can't be read, or its answer can't be written",
        LogEvent::Announced => "announced its configuration",
        LogEvent::Ignored => "frames are ignored",
        LogEvent::Started => "started stream",
        LogEvent::Stopped => "stopped stream",
        LogEvent::Listening => "may connect",
        LogEvent::Undialed => "no longer connected, and not connecting again",
        LogEvent::Unlistened => "its port is closed",
        LogEvent::Shown => "page and metrics are served",
        LogEvent::Opened => "commands are accepted at the control socket",
        LogEvent::Reloaded => "`reload`: the setup was read, and its changes are done",
        LogEvent::NotReloaded => "`reload` failed, nothing was changed: its answer says why",
        LogEvent::Warned => "the setup has warnings, which `pdcgw check` lists",
        LogEvent::Quit => "`quit`: the gateway ends",
        LogEvent::Unanswered => "`status` is incomplete: a worker did not answer within 1 s",
        LogEvent::Misread =>
            "disconnected: its layout changed, and a data frame could be read by the old CFG-2",
        LogEvent::Unacknowledged =>
            "disconnected: its host acknowledged no data for the time that `stall` allows",
        LogEvent::NoTable => "/proc/net/tcp can't be read",
        LogEvent::ConfigSent => "its layout changed; CFG-2 sent unasked",
        LogEvent::SilentClientClosed =>
            "control socket: a client that was silent for 60 s was disconnected to accept another",
        LogEvent::ClientRefused =>
            "control socket: a client was refused (34 Busy): 8 are connected",
        LogEvent::IdlePageClosed => "page: an idle connection was closed to accept another",
        LogEvent::PageBusy => "page: a connection was answered 503: 16 are open",
        LogEvent::OutOfSync => "out of sync with UTC (STAT bit 13): PMU",
        LogEvent::InSync => "in sync with UTC again: PMU",
        LogEvent::DataError => "data error (STAT bits 15, 14): PMU",
        LogEvent::DataGood => "no data error any more: PMU",
        LogEvent::Incomplete => "data frames are missing:",
        LogEvent::Complete => "data frames come again:",
        LogEvent::Late => "data come later than `wait` allows:",
        LogEvent::Timely => "data come within `wait` again:",
        LogEvent::FirstPreferred => "the first address answers again, and is used from now on",
        LogEvent::FirstNotMade => "can't go back",
        LogEvent::NotRecorded => "the recording can't be written",
        LogEvent::SetupNotRecorded =>
            "a file of the recording is replayed only behind those before it: what set the gateway up takes more than half of it (raise `record_mb`) or 16 MB (restart the gateway)",
        LogEvent::SetBack =>
            "disconnected, so that its streams begin anew: for 20 s all data were older than the frames that it was sent (was a clock set back?)",
        LogEvent::FirstSilent =>
            "can't go back: the first address sent no configuration within 10 s; retrying in 60 s",
    }
}

/// What a notice says behind what is known beside.
fn after(event: LogEvent) -> &'static str {
    match event {
        LogEvent::NotMade => "; retrying",
        LogEvent::FirstNotMade => "; retrying in 60 s",
        LogEvent::SocketFault => "; the connection is closed",
        LogEvent::SourceEnded => "; connecting again",
        LogEvent::NotAccepted => "; retrying in 1 s",
        LogEvent::NotBound => "; retrying every 30 s",
        LogEvent::Incomplete | LogEvent::Complete => " came in the last minute",
        LogEvent::NotRecorded => "; what happens meanwhile is missing in it",
        LogEvent::NoTable => "; a subscriber's host that lost power is noticed late",
        _ => "",
    }
}

/// What is known beside.
fn write_detail<W: fmt::Write>(
    event: LogEvent,
    detail: &Detail,
    f: &mut fmt::Formatter<W>,
) -> fmt::Result {
    match detail {
        // It is written before.
        Detail::Nothing | Detail::OfStream(_) => Ok(()),
        Detail::At(address) => {
            let joined = match event {
                LogEvent::Called => " to ",
                LogEvent::Listening | LogEvent::Shown => " at ",
                LogEvent::Connected | LogEvent::Replaced => " from ",
                _ => ": ",
            };
            write!(f, "{joined}{address}")
        }
        Detail::Because(refusal) => write_refusal(*refusal, f),
        Detail::ClosedByPeer => f.write_str(": closed by the other side"),
        Detail::Fault(number) => write_fault(*number, f),
        Detail::System(kind) => write_system(*kind, f),
        Detail::Errno(number) => write_errno(*number, f),
        Detail::OfCall(address, kind) => {
            write!(f, " to {address}")?;
            write_system(*kind, f)
        }
        Detail::ErrnoOfCall(address, number) => {
            write!(f, " to {address}")?;
            write_errno(*number, f)
        }
        Detail::Config(rate, pmus) => write_config(*rate, pmus, f),
        Detail::Stream(number) | Detail::Pmu(number) => write!(f, " {number}"),
        Detail::Came(tenths) => write!(f, " {}.{}%", tenths / 10, tenths % 10),
        Detail::Behind {
            sub,
            stream,
            behind,
            wait,
        } => {
            let (sub, stream) = (sub.get(), stream.get());
            write!(
                f,
                " subscriber {sub}, stream {stream}: 99% within {behind} ms of the first member, `wait` is {wait} ms"
            )
        }
        Detail::Off(millis) => write_off(*millis, f),
        Detail::Differs(change) => write!(f, " {change}"),
        Detail::Between(refused, standing) => {
            write!(
                f,
                " from {refused}: {standing} is connected already (34 Busy)"
            )
        }
        Detail::Done(asked) => write_done(*asked, f),
        Detail::Edit(asked, refusal) => {
            write_asked(*asked, f)?;
            let (why, number, name) = (why(*refusal), refusal.number(), refusal.name());
            write!(f, ": {why} ({number} {name})")
        }
    }
}

/// How far a time is from this machine's clock, in seconds.
fn write_off<W: fmt::Write>(millis: i64, f: &mut fmt::Formatter<W>) -> fmt::Result {
    let size = millis.unsigned_abs();
    let (seconds, rest) = (size / 1_000, size % 1_000);
    let way = if millis < 0 { "behind" } else { "ahead of" };
    write!(f, " {seconds}.{rest:03} s {way} this machine's clock")
}

/// The rate and the PMUs of a configuration.
fn write_config<W: fmt::Write>(
    rate: i16,
    pmus: &[u16; MOST_PMUS],
    f: &mut fmt::Formatter<W>,
) -> fmt::Result {
    write!(f, ", DATA_RATE {rate}, PMUs")?;
    for pmu in pmus {
        if *pmu != 0 {
            write!(f, " {pmu}")?;
        }
    }
    Ok(())
}

/// A reason, by its number and name.
fn write_refusal<W: fmt::Write>(refusal: Refusal, f: &mut fmt::Formatter<W>) -> fmt::Result {
    let number = refusal.number();
    let name = refusal.name();
    write!(f, ": {number} {name}")
}

/// Why a connection ended, by the number of a reason.
fn write_fault<W: fmt::Write>(number: u8, f: &mut fmt::Formatter<W>) -> fmt::Result {
    let text = match number {
        2 => "not C37.118: no frame begins here (2 BadFirst)",
        3 => "not C37.118: no frame begins here (3 BadSecond)",
        4 => "not C37.118: no frame has this length (4 ShortSize)",
        39 => "reading failed",
        40 => "writing failed",
        _ => return write!(f, ": reason {number}"),
    };
    write!(f, ": {text}")
}

/// What the system said.
fn write_system<W: fmt::Write>(kind: ErrorKind, f: &mut fmt::Formatter<W>) -> fmt::Result {
    let words = system_words(kind);
    write!(f, ": {words}")
}

/// What the system said, in words.
pub fn system_words(kind: ErrorKind) -> &'static str {
    match kind {
        ErrorKind::NotFound => "there is no such file",
        ErrorKind::InvalidFilename => "the path is too long",
        ErrorKind::NotADirectory => "a part of the path is no folder",
        ErrorKind::IsADirectory => "it is a folder",
        ErrorKind::ReadOnlyFilesystem => "the file system is read-only",
        ErrorKind::StorageFull => "the disk is full",
        ErrorKind::PermissionDenied => "not permitted",
        ErrorKind::AddrInUse => "address in use",
        ErrorKind::AddrNotAvailable => "this machine has no such address",
        ErrorKind::ConnectionRefused => "connection refused",
        ErrorKind::ConnectionReset => "connection reset",
        ErrorKind::BrokenPipe => "closed by the other side",
        ErrorKind::HostUnreachable => "host unreachable",
        ErrorKind::NetworkUnreachable => "network unreachable",
        ErrorKind::NetworkDown => "network down",
        ErrorKind::TimedOut => "timed out",
        ErrorKind::OutOfMemory => "out of memory",
        // Of the calls that are made here it is nearly always that no file descriptors are left (EMFILE, ENFILE).
        ErrorKind::Uncategorized => "an error without a name (out of file descriptors?)",
        other => seldom_words(other),
    }
}

/// What the system seldom says here, by the standard library's names.
fn seldom_words(kind: ErrorKind) -> &'static str {
    match kind {
        ErrorKind::ConnectionAborted => "connection aborted",
        ErrorKind::NotConnected => "not connected",
        ErrorKind::AlreadyExists => "entity already exists",
        ErrorKind::WouldBlock => "operation would block",
        ErrorKind::DirectoryNotEmpty => "directory not empty",
        ErrorKind::FilesystemLoop => "filesystem loop",
        ErrorKind::StaleNetworkFileHandle => "stale network file handle",
        ErrorKind::InvalidInput => "invalid input parameter",
        ErrorKind::InvalidData => "invalid data",
        ErrorKind::WriteZero => "write zero",
        ErrorKind::NotSeekable => "seek on unseekable file",
        ErrorKind::QuotaExceeded => "quota exceeded",
        ErrorKind::FileTooLarge => "file too large",
        ErrorKind::ResourceBusy => "resource busy",
        ErrorKind::ExecutableFileBusy => "executable file busy",
        ErrorKind::Deadlock => "deadlock",
        ErrorKind::CrossesDevices => "cross-device link",
        ErrorKind::TooManyLinks => "too many links",
        ErrorKind::ArgumentListTooLong => "argument list too long",
        ErrorKind::Interrupted => "operation interrupted",
        ErrorKind::Unsupported => "unsupported",
        ErrorKind::UnexpectedEof => "unexpected end of file",
        ErrorKind::InProgress => "in progress",
        _ => "other error",
    }
}

/// An error of the system that has no kind, by its number on Linux.
fn write_errno<W: fmt::Write>(number: i32, f: &mut fmt::Formatter<W>) -> fmt::Result {
    match number {
        23 | 24 => write!(f, ": out of file descriptors (errno {number})"),
        105 => write!(f, ": out of buffers for sockets (errno {number})"),
        _ => write!(f, ": errno {number}"),
    }
}

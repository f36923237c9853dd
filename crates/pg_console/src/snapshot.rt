//! What the service shows of itself.

ghost use Rattle.std.specs.Prelude.{◌≡◌, IfSome};

use crate::service_handle::ServiceHandle;
use pg_audit::{PmuStats, Stats};
use pg_gateway::{Event, Gate, MemberPlace, MemberStanding, Reply, Standing, StreamStanding};
use pg_quality::PmuSummary;
use pg_recorder::Recorder;
use pg_service::{LinkState, MeteredGate, PortReport, Reports, SourceReport};
use pg_status::{
    Call, Histogram, Ignored, MemberState, Membership, PmuState, Presence, Queue, RecordingState,
    Snapshot, SourceState, StreamState, SubscriberState,
};
use pg_wire::{PmuId, PmuKey, Refusal, StreamId, SubId};
use std::alloc::{AllocError, Global};
use std::rt::Clock;
use std::sync::Wait;
use std::time::Duration;

/// What the calls were recorded by so far.
fn recording_state(recorder: &Recorder) -> RecordingState {
    RecordingState {
        written: recorder.written(),
        unwritten: recorder.unwritten(),
        missed: recorder.missed(),
        unspelled: recorder.unspelled(),
    }
}

/// What the service shows of itself now, and how old the data frames were that it handed out: its workers are asked for their sources
/// and ports, and the gateway for its subscribers. Each list stands in the order of the numbers.
pub(crate) fn seen_by<R: Wait + Clock, G: Gate>(
    rt: &R,
    alloc: Global,
    service: &ServiceHandle<'_>,
    gate: &mut MeteredGate<G>,
) -> Result<(Snapshot, Histogram), AllocError> {
    let reports = service.ask(rt, alloc);
    let mut snapshot = Snapshot {
        name: String::from_str(alloc, service.name)?,
        sources: Vec::new(alloc),
        subscribers: Vec::new(alloc),
        streams: Vec::new(alloc),
        unanswered: reports.unanswered,
        recording: service.recorder.map(recording_state),
    };
    let (pmus, subs) = registered_at(rt, alloc, service)?;
    let Reports {
        sources,
        ports,
        ages,
        ..
    } = reports;
    sources_into(alloc, sources, &pmus, &mut snapshot.sources)?;
    for sub in subs {
        let port = port_of(&ports, sub);
        subscriber_into(alloc, gate, sub, port, &pmus, &mut snapshot)?;
    }
    Ok((snapshot, ages))
}

/// Adds the sources that are reported, and those of these PMUs that no worker connects to.
fn sources_into(
    alloc: Global,
    reported: Vec<SourceReport>,
    pmus: &[PmuKey],
    sources: &mut Vec<SourceState>,
) -> Result<(), AllocError> {
    for key in pmus {
        let source = key.source;
        let is_known = sources.iter().any(|it| it.source == source);
        if !is_known && !reported.iter().any(|it| it.source == source) {
            sources.push(uncalled(alloc, source, pmus)?)?;
        }
    }
    for report in reported {
        sources.push(source_state(alloc, report, pmus)?)?;
    }
    sources.sort_unstable_by_key(|it| it.source.get());
    Ok(())
}

/// What is reported of this subscriber's port, if it has one.
fn port_of(ports: &[PortReport], sub: SubId) -> Option<&PortReport>
    ensures own { IfSome result (λ port. port.now.sub ≡ sub) }
{
    ports.iter().find(|it| it.sub == sub)
}

/// The registered PMUs and the subscribers, in the order of their numbers.
fn registered_at<R: Wait>(
    rt: &R,
    alloc: Global,
    service: &ServiceHandle<'_>,
) -> Result<(Vec<PmuKey>, Vec<SubId>), AllocError> {
    let mut pmus = Vec::new(alloc);
    let mut subs = Vec::new(alloc);
    let directory = service.directory.lock(rt);
    pmus.extend_from_slice(directory.pmus())?;
    subs.extend_from_slice(directory.subscribers())?;
    drop(directory);
    pmus.sort_unstable_by_key(|it| it.pmu.get());
    subs.sort_unstable_by_key(|it| it.get());
    Ok((pmus, subs))
}

/// The registered PMUs of a source, with what is reported of their blocks.
fn pmus_of(
    alloc: Global,
    source: PmuId,
    pmus: &[PmuKey],
    reported: &[PmuSummary],
) -> Result<Vec<PmuState>, AllocError> {
    let mut found = Vec::new(alloc);
    for key in pmus {
        if key.source == source {
            let pmu = key.pmu;
            let blocks = reported.iter().find(|it| it.id == pmu.get()).copied();
            found.push(PmuState { pmu, blocks })?;
        }
    }
    Ok(found)
}

/// A source that is called by nobody.
fn uncalled(alloc: Global, source: PmuId, pmus: &[PmuKey]) -> Result<SourceState, AllocError> {
    Ok(SourceState {
        source,
        address: None,
        call: Call::Rests,
        frames: 0,
        events: 0,
        ignored: Vec::new(alloc),
        last: None,
        last_data: None,
        quality: None,
        pmus: pmus_of(alloc, source, pmus, &[])?,
    })
}

/// A source, as its worker reports it.
fn source_state(
    alloc: Global,
    report: SourceReport,
    registered: &[PmuKey],
) -> Result<SourceState, AllocError> {
    let SourceReport {
        source,
        address,
        reach,
        counts,
        far,
        last,
        last_data,
        quality,
        pmus,
        ..
    } = report;
    let ignored = ignored_in(alloc, &counts, far)?;
    let mut frames = counts.taken;
    for it in &ignored {
        if it.reason != Refusal::FarClock {
            frames = frames.saturating_add(it.count);
        }
    }
    Ok(SourceState {
        source,
        address,
        call: call_of(reach),
        frames,
        events: counts.taken.saturating_sub(far),
        ignored,
        last: seconds_of(last),
        last_data: seconds_of(last_data),
        quality: Some(quality),
        pmus: pmus_of(alloc, source, registered, pmus.as_slice())?,
    })
}

/// Whole seconds.
fn seconds_of(past: Option<Duration>) -> Option<u64> {
    match past {
        Some(past) => Some(past.as_secs()),
        None => None,
    }
}

/// What of a source was ignored, by its reasons, and of its measurements because they were too far from the clock.
fn ignored_in(alloc: Global, counts: &PmuStats, far: u64) -> Result<Vec<Ignored>, AllocError> {
    let mut ignored = Vec::new(alloc);
    for reason in Refusal::ALL {
        let mut count = match counts.by_reason.get(usize::from(reason.number())) {
            Some(count) => *count,
            None => 0,
        };
        if reason == Refusal::FarClock {
            count = count.saturating_add(far);
        }
        if count > 0 {
            ignored.push(Ignored { reason, count })?;
        }
    }
    Ok(ignored)
}

/// How a source's connection stands.
fn call_of(reach: LinkState) -> Call {
    match reach {
        LinkState::Up => Call::Up,
        LinkState::Connected => Call::Connected,
        LinkState::Calling => Call::Calling,
        LinkState::Pause(left) => Call::Pause(u32::try_from(whole_seconds(left)).unwrap_or(
            u32::MAX,
        )),
        LinkState::Rests => Call::Rests,
    }
}

/// So many seconds, the last one begun.
fn whole_seconds(left: Duration) -> u64 {
    let rest = u64::from(left.subsec_nanos() > 0);
    left.as_secs().saturating_add(rest)
}

/// A subscriber and its streams, behind those that are there. One that has left meanwhile is passed over.
fn subscriber_into<G: Gate>(
    alloc: Global,
    gate: &mut MeteredGate<G>,
    sub: SubId,
    port: Option<&PortReport>,
    registered: &[PmuKey],
    snapshot: &mut Snapshot,
) -> Result<(), AllocError> {
    let Reply::Stats(stats) = gate.post(Event::Stats(sub)) else {
        return Ok(());
    };
    let queue = streams_into(alloc, gate, sub, registered, &mut snapshot.streams)?;
    let state = subscriber_state(alloc, sub, &stats, port, queue)?;
    snapshot.subscribers.push(state)?;
    Ok(())
}

/// A subscriber, as the gateway counts for it and its port's worker reports it.
fn subscriber_state(
    alloc: Global,
    sub: SubId,
    stats: &Stats,
    port: Option<&PortReport>,
    queue: Queue,
) -> Result<SubscriberState, AllocError> {
    let (number, presence, frames, gaps) = match port {
        Some(report) => {
            let number = match report.address {
                Some(address) => Some(address.port()),
                None => None,
            };
            let presence = match report.peer {
                Some(peer) => Presence::Connected(format!(in alloc; "{peer}")?),
                None => Presence::Waiting(report.since.as_secs()),
            };
            (number, presence, report.frames, report.gaps)
        }
        None => (None, Presence::Waiting(0), 0, 0),
    };
    Ok(SubscriberState {
        sub,
        port: number,
        presence,
        made: stats.made,
        dropped: stats.dropped,
        lost: stats.lost,
        late: stats.late,
        twice: stats.twice,
        handed: stats.handed,
        frames,
        gaps,
        queue,
    })
}

/// The streams that one subscriber may have.
const STREAMS: u8 = 8;

/// The subscriber's streams in the order in which they were defined, behind those that are there, and what waits for it.
fn streams_into<G: Gate>(
    alloc: Global,
    gate: &mut MeteredGate<G>,
    sub: SubId,
    registered: &[PmuKey],
    streams: &mut Vec<StreamState>,
) -> Result<Queue, AllocError> {
    let mut queue = Queue {
        frames: 0,
        bytes: 0,
    };
    for place in 0..STREAMS {
        let Some(standing) = standing_at(gate, sub, place, 0) else {
            break;
        };
        queue = Queue {
            frames: standing.frames,
            bytes: standing.bytes,
        };
        let Some(stream) = standing.stream else {
            break;
        };
        streams.push(StreamState {
            sub,
            stream: stream.stream,
            on: stream.is_on,
            effective: u32::from(stream.effective),
            complete: stream.complete,
            waited: stream.waited,
            pushed: stream.pushed,
            changed: stream.changed,
            members: members_of(alloc, gate, sub, place, &stream, registered)?,
        })?;
    }
    Ok(queue)
}

/// How a subscriber, its stream and that stream's member at these places stand.
fn standing_at<G: Gate>(
    gate: &mut MeteredGate<G>,
    sub: SubId,
    stream: u8,
    member: u8,
) -> Option<Standing> {
    let place = MemberPlace { stream, member };
    let Reply::Standing(standing) = gate.post(Event::Standing(sub, place)) else {
        return None;
    };
    Some(standing)
}

/// How a member of the stream of this number stands, by places; `None` where the stream or the member is gone.
fn member_at<G: Gate>(
    gate: &mut MeteredGate<G>,
    sub: SubId,
    place: MemberPlace,
    number: StreamId,
) -> Option<MemberStanding> {
    let standing = standing_at(gate, sub, place.stream, place.member)?;
    let stream = standing.stream?;
    if stream.stream == number {
        stream.member
    } else {
        None
    }
}

/// The members of the stream at a place. A stream that was removed meanwhile has those that were asked for by then.
fn members_of<G: Gate>(
    alloc: Global,
    gate: &mut MeteredGate<G>,
    sub: SubId,
    place: u8,
    first: &StreamStanding,
    registered: &[PmuKey],
) -> Result<Vec<MemberState>, AllocError> {
    let mut members = Vec::new(alloc);
    let mut next = first.member;
    let count = u8::try_from(first.members).unwrap_or(u8::MAX);
    for at in 1..=count {
        let Some(member) = next else {
            break;
        };
        members.push(member_state(&member, registered))?;
        let place = MemberPlace {
            stream: place,
            member: at,
        };
        next = member_at(gate, sub, place, first.stream);
    }
    Ok(members)
}

/// A member, which is one of the registered PMUs or not.
fn member_state(member: &MemberStanding, registered: &[PmuKey]) -> MemberState {
    let membership = if member.is_effective {
        Membership::Carried
    } else if !registered.contains(&member.key) {
        Membership::NotRegistered
    } else if !member.is_granted {
        Membership::NotGranted
    } else {
        Membership::NotAnnounced
    };
    MemberState {
        key: member.key,
        membership,
        missing: member.missing,
        late: member.late,
    }
}

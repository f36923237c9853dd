//! State and history as JSON, for the page.

use crate::history::{History, Past};
use crate::quality_json::{put_pmus, put_quality};
use crate::snapshot::{Call, Ignored, Presence, Snapshot, SourceState, SubscriberState};
use crate::stream_json::put_streams;
use std::alloc::{AllocError, Global};

/// A snapshot and what is remembered of its subscribers, as one JSON text: an object with `name`, and the lists
/// `sources`, `subscribers` and `streams`. The members are named as the fields of the states; what is not there is `null`. `call` is one of
/// `up`, `connected`, `calling`, `pause` and `rests`, and `seconds` holds the lists `handed` and `dropped`, of the frames in each of the last 300
/// seconds, the oldest first.
///
/// # Errors
///
/// There is no memory.
pub fn state_json(
    alloc: Global,
    snapshot: &Snapshot,
    history: &History,
) -> Result<String, AllocError> {
    let mut json = String::new(alloc);
    match put_state(alloc, &mut json, snapshot, history) {
        Ok(()) => Ok(json),
        Err(error) => Err(error),
    }
}

fn put_state(
    alloc: Global,
    json: &mut String,
    snapshot: &Snapshot,
    history: &History,
) -> Result<(), AllocError> {
    put_text(alloc, json, "{\"name\":", snapshot.name.as_str())?;
    put_sources(alloc, json, snapshot.sources.as_slice())?;
    put_subscribers(alloc, json, snapshot.subscribers.as_slice(), history)?;
    put_streams(alloc, json, snapshot.streams.as_slice())
}

/// What stands before an element of a list: a comma, but before the first.
pub(crate) fn comma(place: usize) -> &'static str {
    if place == 0 { "" } else { "," }
}

/// Puts numbers, each behind what names it. What is not there is `null`.
pub(crate) fn put_numbers(
    alloc: Global,
    json: &mut String,
    numbers: &[(&str, Option<u64>)],
) -> Result<(), AllocError> {
    for (name, number) in numbers {
        json.push_str(name)?;
        match number {
            Some(number) => json.push_str(&format!(in alloc; "{number}")?)?,
            None => json.push_str("null")?,
        }
    }
    Ok(())
}

/// Puts a text, behind what names it.
pub(crate) fn put_text(
    alloc: Global,
    json: &mut String,
    name: &str,
    text: &str,
) -> Result<(), AllocError> {
    json.push_str(name)?;
    match serde_json::to_string(alloc, &text) {
        Ok(text) => json.push_str(&text),
        // A text is always JSON, so that memory alone can be missing.
        Err(_) => Err(AllocError),
    }
}

/// Puts an address, behind what names it.
fn put_address(alloc: Global, json: &mut String, address: Option<&str>) -> Result<(), AllocError> {
    match address {
        Some(address) => put_text(alloc, json, ",\"address\":", address),
        None => json.push_str(",\"address\":null"),
    }
}

fn put_sources(
    alloc: Global,
    json: &mut String,
    sources: &[SourceState],
) -> Result<(), AllocError> {
    json.push_str(",\"sources\":[")?;
    for (place, source) in sources.iter().enumerate() {
        json.push_str(comma(place))?;
        put_source(alloc, json, source)?;
    }
    json.push_str("]")
}

fn put_source(alloc: Global, json: &mut String, source: &SourceState) -> Result<(), AllocError> {
    let (call, pause) = match source.call {
        Call::Up => (",\"call\":\"up\"", None),
        Call::Connected => (",\"call\":\"connected\"", None),
        Call::Calling => (",\"call\":\"calling\"", None),
        Call::Pause(seconds) => (",\"call\":\"pause\"", Some(u64::from(seconds))),
        Call::Rests => (",\"call\":\"rests\"", None),
    };
    let number = [("{\"source\":", Some(u64::from(source.source.get())))];
    put_numbers(alloc, json, &number)?;
    put_address(alloc, json, source.address.as_deref())?;
    json.push_str(call)?;
    let numbers = [
        (",\"pause\":", pause),
        (",\"frames\":", Some(source.frames)),
        (",\"events\":", Some(source.events)),
    ];
    put_numbers(alloc, json, &numbers)?;
    put_ignored(alloc, json, source.ignored.as_slice())?;
    put_numbers(alloc, json, &[(",\"last\":", source.last)])?;
    put_quality(alloc, json, source.quality.as_ref())?;
    put_pmus(alloc, json, source.pmus.as_slice())?;
    json.push_str("}")
}

fn put_ignored(alloc: Global, json: &mut String, ignored: &[Ignored]) -> Result<(), AllocError> {
    json.push_str(",\"ignored\":[")?;
    for (place, ignored) in ignored.iter().enumerate() {
        json.push_str(comma(place))?;
        put_text(alloc, json, "{\"reason\":", ignored.reason.name())?;
        put_numbers(alloc, json, &[(",\"count\":", Some(ignored.count))])?;
        json.push_str("}")?;
    }
    json.push_str("]")
}

fn put_subscribers(
    alloc: Global,
    json: &mut String,
    subscribers: &[SubscriberState],
    history: &History,
) -> Result<(), AllocError> {
    json.push_str(",\"subscribers\":[")?;
    for (place, subscriber) in subscribers.iter().enumerate() {
        json.push_str(comma(place))?;
        put_subscriber(alloc, json, subscriber)?;
        put_seconds(alloc, json, history.past_of(subscriber.sub))?;
    }
    json.push_str("]")
}

fn put_subscriber(
    alloc: Global,
    json: &mut String,
    subscriber: &SubscriberState,
) -> Result<(), AllocError> {
    let (address, waiting) = match &subscriber.presence {
        Presence::Connected(address) => (Some(address.as_str()), None),
        Presence::Waiting(seconds) => (None, Some(*seconds)),
    };
    let numbers = [
        ("{\"subscriber\":", Some(u64::from(subscriber.sub.get()))),
        (",\"port\":", subscriber.port.map(u64::from)),
    ];
    put_numbers(alloc, json, &numbers)?;
    put_address(alloc, json, address)?;
    let numbers = [
        (",\"waiting\":", waiting),
        (",\"made\":", Some(subscriber.made)),
        (",\"dropped\":", Some(subscriber.dropped)),
        (",\"lost\":", Some(subscriber.lost)),
        (",\"late\":", Some(subscriber.late)),
        (",\"twice\":", Some(subscriber.twice)),
        (",\"handed\":", Some(subscriber.handed)),
        (",\"gaps\":", Some(subscriber.gaps)),
        (",\"queue_frames\":", Some(subscriber.queue.frames)),
        (",\"queue_bytes\":", Some(subscriber.queue.bytes)),
    ];
    put_numbers(alloc, json, &numbers)
}

/// Puts what is remembered of a subscriber, and ends its object.
fn put_seconds(alloc: Global, json: &mut String, past: Option<&Past>) -> Result<(), AllocError> {
    json.push_str(",\"seconds\":{\"handed\":[")?;
    put_side(alloc, json, past, false)?;
    json.push_str("],\"dropped\":[")?;
    put_side(alloc, json, past, true)?;
    json.push_str("]}}")
}

/// Puts the frames of each second that were handed out, or dropped.
fn put_side(
    alloc: Global,
    json: &mut String,
    past: Option<&Past>,
    is_dropped: bool,
) -> Result<(), AllocError> {
    let Some(past) = past else {
        return Ok(());
    };
    let seconds = past.seconds(alloc)?;
    for (place, second) in seconds.iter().enumerate() {
        let frames = if is_dropped {
            second.dropped
        } else {
            second.handed
        };
        put_numbers(alloc, json, &[(comma(place), Some(frames))])?;
    }
    Ok(())
}

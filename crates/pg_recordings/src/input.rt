//! The input of a world that a record is.

ghost use Rattle.std.specs.Prelude.{◌≡◌, IfOk, option_map};
ghost use Rattle.pg_record.specs.Numbers.{four_in};
ghost use Rattle.pg_serve.specs.Inputs.{input_value};
ghost use Rattle.pg_replay.specs.Lines.{asked_in};
ghost use Rattle.pg_recordings.specs.Inputs.{frame_in, measured_frame, command_frame, measured, commanded, edited, drained, input_in};

use pg_record::{Record, RecordKind};
use pg_replay::{Line, read_line};
use pg_serve::Input;
use pg_wire::{PmuId, Refusal, SubId, end_frame};
use std::alloc::{AllocError, Global};

/// The first byte of a frame, and the second of a data frame and of a command frame of 2011 (C37.118.2, 6.2).
const SYNC: u8 = 0xAA;

const DATA: u8 = 0x02;

const COMMAND: u8 = 0x42;

/// How many bytes SOC and FRACSEC have, and how many a frame has before and behind them and its body.
const TIME_BYTES: usize = 8;

const AROUND_TIME: usize = 8;

/// The time quality of a frame that is no measurement: an unlocked clock.
const UNLOCKED: u8 = 0x0F;

/// What a world is handed for this record; `None` where it is nothing: of a question, of a call that no line of a script says, and of a body
/// that is not as the kind has it.
///
/// # Errors
///
/// There is no memory.
pub fn input_of(alloc: Global, record: &Record, body: &[u8]) -> Result<Option<Input>, AllocError>
    ensures exact { IfOk result (λ found. option_map (λ i. input_value i) found ≡ input_in record.now.kind record.now.number body.now) }
{
    let number = record.number;
    match record.kind {
        RecordKind::Measurement => match PmuId::new(number) {
            Some(source) => measured(alloc, source, body),
            None => Ok(None),
        },
        RecordKind::Configuration => match PmuId::new(number) {
            Some(source) => Ok(Some(Input::PmuBytes(source, body.to_vec(alloc)?))),
            None => Ok(None),
        },
        RecordKind::Command => match SubId::new(number) {
            Some(subscriber) => commanded(alloc, subscriber, body),
            None => Ok(None),
        },
        RecordKind::Edit => edited(alloc, body),
        RecordKind::Tick => Ok(match four(body) {
            Some(soc) => Some(Input::Tick(soc)),
            None => None,
        }),
        RecordKind::Connect => Ok(match SubId::new(number) {
            Some(subscriber) => Some(Input::Connect(subscriber)),
            None => None,
        }),
        RecordKind::Hangup => Ok(match SubId::new(number) {
            Some(subscriber) => Some(Input::Hangup(subscriber)),
            None => None,
        }),
        RecordKind::Drain => Ok(match SubId::new(number) {
            Some(subscriber) => drained(subscriber, body),
            None => None,
        }),
        RecordKind::Question | RecordKind::Unspelled => Ok(None),
    }
}

/// The data frame of a measurement.
fn measured(alloc: Global, source: PmuId, body: &[u8]) -> Result<Option<Input>, AllocError>
    ensures exact { IfOk result (λ found. option_map (λ i. input_value i) found ≡ measured source body.now) }
{
    match measurement(alloc, source.get(), body)? {
        Some(frame) => Ok(Some(Input::PmuBytes(source, frame))),
        None => Ok(None),
    }
}

/// The command frame of a record.
fn commanded(alloc: Global, subscriber: SubId, body: &[u8]) -> Result<Option<Input>, AllocError>
    ensures exact { IfOk result (λ found. option_map (λ i. input_value i) found ≡ commanded subscriber body.now) }
{
    match command(alloc, body)? {
        Some(frame) => Ok(Some(Input::SubBytes(subscriber, frame))),
        None => Ok(None),
    }
}

/// What an operator's line hands to a world.
fn edited(alloc: Global, line: &[u8]) -> Result<Option<Input>, AllocError>
    ensures exact { IfOk result (λ found. option_map (λ i. input_value i) found ≡ edited (asked_in line.now)) }
{
    match read_line(alloc, line) {
        Ok(Line::Handed(input)) => Ok(Some(input)),
        Ok(_) | Err(Refusal::BadLine) => Ok(None),
        Err(_) => Err(AllocError),
    }
}

/// A drain into a buffer of so many bytes.
fn drained(subscriber: SubId, body: &[u8]) -> Option<Input>
    ensures exact { option_map (λ i. input_value i) result ≡ drained subscriber (four_in body.now) }
{
    let room = four(body)?;
    match u16::try_from(room) {
        Ok(room) => Some(Input::Drain(subscriber, room)),
        Err(_) => None,
    }
}

/// The number that four bytes are.
pub(crate) fn four(body: &[u8]) -> Option<u32>
    ensures exact { result ≡ option_map (λ x. x.0) (four_in body.now) }
{
    let (number, _) = body.split_first_chunk::<4>()?;
    Some(u32::from_be_bytes(*number))
}

/// The data frame of a measurement: its SOC, its FRACSEC, and its blocks (C37.118.2, 6.3).
pub(crate) fn measurement(
    alloc: Global,
    source: u16,
    body: &[u8],
) -> Result<Option<Vec<u8>>, AllocError>
    ensures exact { IfOk result (λ found. option_map (λ v. v.items) found ≡ measured_frame source body.now) }
{
    if body.len() < TIME_BYTES {
        return Ok(None);
    }
    frame(alloc, DATA, source, body)
}

/// The command frame of a record: IDCODE and CMD (C37.118.2, 6.6).
pub(crate) fn command(alloc: Global, body: &[u8]) -> Result<Option<Vec<u8>>, AllocError>
    ensures exact { IfOk result (λ found. option_map (λ v. v.items) found ≡ command_frame body.now) }
{
    if body.len() != 4 {
        return Ok(None);
    }
    let stream = u16::from_be_bytes([body[0], body[1]]);
    let behind = [0, 0, 0, 0, UNLOCKED, 0, 0, 0, body[2], body[3]];
    frame(alloc, COMMAND, stream, &behind)
}

/// The frame of this kind with these bytes from its SOC on (C37.118.2, 6.2); `None` where FRAMESIZE can't say how long it is.
fn frame(alloc: Global, kind: u8, id: u16, behind: &[u8]) -> Result<Option<Vec<u8>>, AllocError>
    ensures exact { IfOk result (λ found. option_map (λ v. v.items) found ≡ frame_in kind id behind.now) }
{
    let Ok(size) = u16::try_from(behind.len().saturating_add(AROUND_TIME)) else {
        return Ok(None);
    };
    let mut bytes = Vec::with_capacity(alloc, usize::from(size))?;
    bytes.extend_from_slice(&[SYNC, kind])?;
    bytes.extend_from_slice(&size.to_be_bytes())?;
    bytes.extend_from_slice(&id.to_be_bytes())?;
    bytes.extend_from_slice(behind)?;
    bytes.try_reserve(2)?;
    end_frame(&mut bytes);
    Ok(Some(bytes))
}

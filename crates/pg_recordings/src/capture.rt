//! What was handed out as packets that Wireshark reads: IPv4 and TCP between a gateway at 192.0.2.1, port 4712, and a subscriber at
//! 192.0.2.2 (RFC 5737, 791, 9293), in the format of libpcap.

use crate::reader::Fault;
use std::alloc::{AllocError, Global};
use std::io::Write;

/// Magic number with times in microseconds, version 2.4, zone, accuracy, longest packet, and link type: raw IP.
const FILE_HEAD: [u8; 24] = [
    0xA1, 0xB2, 0xC3, 0xD4, 0, 2, 0, 4, 0, 0, 0, 0, 0, 0, 0, 0, 0, 4, 0, 0, 0, 0, 0, 101,
];

const GATEWAY: [u8; 4] = [192, 0, 2, 1];

const SUBSCRIBER: [u8; 4] = [192, 0, 2, 2];

/// The port of C37.118.2, annex E.
const GATEWAY_PORT: u16 = 4712;

const SUBSCRIBER_PORT: u16 = 50_000;

/// The bits of TCP.
const FIN: u8 = 0x01;

const SYN: u8 = 0x02;

const PUSH: u8 = 0x08;

const ACK: u8 = 0x10;

/// How many bytes stand before those of a packet.
const HEADS: usize = 40;

/// How many configurations are kept from before the time that is asked for.
const MOST_KEPT: usize = 8;

/// A frame that was handed out.
#[derive(Drop)]
struct Kept {
    at: u64,
    frame: Vec<u8>,
}

/// A file of packets. Its only connection is open or not.
#[derive(Drop)]
pub(crate) struct Capture<C> {
    file: C,
    is_open: bool,
    // The next number of each side.
    sent: u32,
    received: u32,
    // The last configuration of each stream, from before the time that is asked for.
    kept: Option<Vec<Kept>>,
}

impl<C: Write + Drop> Capture<C> {
    /// A file without packets.
    pub(crate) fn new(file: C) -> Result<Capture<C>, Fault> {
        let mut capture = Capture {
            file,
            is_open: false,
            sent: 0,
            received: 0,
            kept: None,
        };
        capture.write(&FILE_HEAD)?;
        Ok(capture)
    }

    /// The subscriber connects.
    pub(crate) fn open(&mut self, at: u64) -> Result<(), Fault> {
        if self.is_open {
            return Ok(());
        }
        self.is_open = true;
        self.packet(at, false, SYN, &[])?;
        self.packet(at, true, SYN | ACK, &[])?;
        self.packet(at, false, ACK, &[])
    }

    /// The connection ends.
    pub(crate) fn close(&mut self, at: u64) -> Result<(), Fault> {
        self.kept = None;
        if !self.is_open {
            return Ok(());
        }
        self.is_open = false;
        self.packet(at, true, FIN | ACK, &[])?;
        self.packet(at, false, FIN | ACK, &[])?;
        self.packet(at, true, ACK, &[])
    }

    /// A frame is handed out.
    pub(crate) fn send(&mut self, at: u64, frame: &[u8]) -> Result<(), Fault> {
        self.send_kept()?;
        self.open(at)?;
        self.packet(at, true, PUSH | ACK, frame)
    }

    /// A frame of the subscriber comes.
    pub(crate) fn receive(&mut self, at: u64, frame: &[u8]) -> Result<(), Fault> {
        self.send_kept()?;
        self.open(at)?;
        self.packet(at, false, PUSH | ACK, frame)
    }

    /// Keeps a frame that is a configuration, in place of an earlier one of its stream: without it nobody can read what follows.
    pub(crate) fn keep_configuration(
        &mut self,
        alloc: Global,
        at: u64,
        frame: &[u8],
    ) -> Result<(), AllocError> {
        let (Some(kind), Some(id)) = (frame.get(1), frame.get(4..6)) else {
            return Ok(());
        };
        if kind & 0x70 != 0x30 {
            return Ok(());
        }
        let mut kept = match self.kept.take() {
            Some(kept) => kept,
            None => Vec::new(alloc),
        };
        kept.retain(|it| it.frame.get(4..6) != Some(id));
        if kept.len() >= MOST_KEPT {
            kept.remove(0);
        }
        let frame = frame.to_vec(alloc)?;
        kept.push(Kept { at, frame })?;
        self.kept = Some(kept);
        Ok(())
    }

    /// Writes the configurations that were kept.
    fn send_kept(&mut self) -> Result<(), Fault> {
        let Some(kept) = self.kept.take() else {
            return Ok(());
        };
        for it in &kept {
            self.open(it.at)?;
            self.packet(it.at, true, PUSH | ACK, &it.frame)?;
        }
        Ok(())
    }

    /// The file ends.
    pub(crate) fn end(&mut self) -> Result<(), Fault> {
        match self.file.flush() {
            Ok(()) => Ok(()),
            Err(_) => Err(Fault::NotCaptured),
        }
    }

    /// Writes a packet of the gateway or of the subscriber. `at` is in milliseconds since 1970-01-01 00:00 UTC.
    fn packet(&mut self, at: u64, is_sent: bool, bits: u8, bytes: &[u8]) -> Result<(), Fault> {
        let Ok(size) = u16::try_from(bytes.len().saturating_add(HEADS)) else {
            return Ok(());
        };
        let seconds = u32::try_from(at / 1_000).unwrap_or(u32::MAX);
        let micros = (at % 1_000) as u32 * 1_000;
        self.write(&seconds.to_be_bytes())?;
        self.write(&micros.to_be_bytes())?;
        self.write(&u32::from(size).to_be_bytes())?;
        self.write(&u32::from(size).to_be_bytes())?;
        let (number, expected) = if is_sent {
            (self.sent, self.received)
        } else {
            (self.received, self.sent)
        };
        self.write(&ip_head(size, is_sent))?;
        self.write(&tcp_head(is_sent, number, expected, bits, bytes))?;
        self.write(bytes)?;
        let is_numbered = bits & (SYN | FIN) != 0;
        let past = number
            .wrapping_add(bytes.len() as u32)
            .wrapping_add(u32::from(is_numbered));
        if is_sent {
            self.sent = past;
        } else {
            self.received = past;
        }
        Ok(())
    }

    /// Writes bytes.
    fn write(&mut self, bytes: &[u8]) -> Result<(), Fault> {
        match self.file.write_all(bytes) {
            Ok(()) => Ok(()),
            Err(_) => Err(Fault::NotCaptured),
        }
    }
}

/// The addresses of who sends and of who receives.
fn addresses(is_sent: bool) -> ([u8; 4], [u8; 4]) {
    if is_sent {
        (GATEWAY, SUBSCRIBER)
    } else {
        (SUBSCRIBER, GATEWAY)
    }
}

/// The head of a packet of so many bytes (RFC 791, 3.1).
fn ip_head(size: u16, is_sent: bool) -> [u8; 20] {
    let ([from_0, from_1, from_2, from_3], [to_0, to_1, to_2, to_3]) = addresses(is_sent);
    let [size_high, size_low] = size.to_be_bytes();
    let head = |sum_high, sum_low| {
        [
            0x45, 0, size_high, size_low, 0, 0, 0x40, 0, 64, 6, sum_high, sum_low, from_0, from_1,
            from_2, from_3, to_0, to_1, to_2, to_3,
        ]
    };
    let [sum_high, sum_low] = complement(words_of(0, &head(0, 0)));
    head(sum_high, sum_low)
}

/// The head of a segment with these bytes (RFC 9293, 3.1).
fn tcp_head(is_sent: bool, number: u32, expected: u32, bits: u8, bytes: &[u8]) -> [u8; 20] {
    let (from, to) = addresses(is_sent);
    let ports = if is_sent {
        (GATEWAY_PORT, SUBSCRIBER_PORT)
    } else {
        (SUBSCRIBER_PORT, GATEWAY_PORT)
    };
    let ([from_high, from_low], [to_high, to_low]) = (ports.0.to_be_bytes(), ports.1.to_be_bytes());
    let [number_0, number_1, number_2, number_3] = number.to_be_bytes();
    let acknowledged = if bits & ACK == 0 { 0 } else { expected };
    let [expected_0, expected_1, expected_2, expected_3] = acknowledged.to_be_bytes();
    let head = |sum_high, sum_low| {
        [
            from_high, from_low, to_high, to_low, number_0, number_1, number_2, number_3,
            expected_0, expected_1, expected_2, expected_3, 0x50, bits, 0xFF, 0xFF, sum_high,
            sum_low, 0, 0,
        ]
    };
    let length = bytes.len() as u64 + 20;
    let around = words_of(words_of(length + 6, &from), &to);
    let sum = words_of(words_of(around, &head(0, 0)), bytes);
    let [sum_high, sum_low] = complement(sum);
    head(sum_high, sum_low)
}

/// A sum with these bytes added as words of 16 bits (RFC 1071).
fn words_of(sum: u64, bytes: &[u8]) -> u64 {
    let mut sum = sum;
    for pair in bytes.chunks(2) {
        let high = pair.first().copied().unwrap_or(0);
        let low = pair.get(1).copied().unwrap_or(0);
        sum = sum.saturating_add(u64::from(u16::from_be_bytes([high, low])));
    }
    sum
}

/// The checksum of such a sum.
fn complement(sum: u64) -> [u8; 2] {
    let folded = (sum & 0xFFFF) + (sum >> 16 & 0xFFFF) + (sum >> 32 & 0xFFFF);
    let folded = (folded & 0xFFFF) + (folded >> 16);
    let folded = (folded & 0xFFFF) + (folded >> 16);
    (!(folded as u16)).to_be_bytes()
}

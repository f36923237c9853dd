//! The ages of data frames as they go out.

use pg_status::Histogram;
use std::io;
use std::io::Write;
use std::rt::Clock;
use std::time::SystemTime;

/// The bytes of a frame's head (C37.118.2, table 2), and those of a configuration frame up to its TIME_BASE (table 9).
const HEAD: usize = 14;

const CONFIG_HEAD: usize = 18;

/// The streams of a subscriber whose time bases are known at most.
const STREAMS: usize = 8;

/// Bits 6 to 4 of the second byte of SYNC: the frame's type (C37.118.2, 6.2, table 2).
const DATA: u8 = 0;

const CFG_TWO: u8 = 3;

/// Where the fields of a head stand.
const SIZE_AT: usize = 2;

const STREAM_AT: usize = 4;

const SOC_AT: usize = 6;

const FRACSEC_AT: usize = 10;

/// The ticks of FRACSEC and of TIME_BASE: the other byte is the clock's quality.
const TICKS: u32 = 0x00ff_ffff;

/// The microseconds of a second, and the usual TIME_BASE: FRACSEC is microseconds then.
const MICROS: u32 = 1_000_000;

/// TIME_BASE of a stream.
#[derive(Clone, Copy)]
struct Base {
    stream: u16,
    resolution: u32,
}

/// The frames that go out over a connection, of which each data frame shows its age: this machine's clock less the stamp,
/// at the moment at which its head goes out. FRACSEC is read by the TIME_BASE of the stream's last CFG-2 that went out; before one did,
/// its frames show none, since nobody could read their stamps.
#[derive(Drop)]
pub struct LatencyMeter {
    // The first bytes of the frame that goes out, how many of them have, and how many bytes behind them are to come.
    head: [u8; CONFIG_HEAD],
    held: usize,
    left: usize,
    bases: [Base; STREAMS],
    // Whose place the next new stream takes.
    oldest: usize,
    frames: u64,
}

impl LatencyMeter {
    /// Nothing has gone out.
    pub fn new() -> LatencyMeter {
        LatencyMeter {
            head: [0; CONFIG_HEAD],
            held: 0,
            left: 0,
            bases: [Base {
                stream: 0,
                resolution: 0,
            }; STREAMS],
            oldest: 0,
            frames: 0,
        }
    }

    /// How many data frames have begun to go out, over all connections.
    pub fn frames(&self) -> u64 {
        self.frames
    }

    /// A new connection begins: what goes out next begins a frame.
    pub fn restart(&mut self) {
        self.held = 0;
        self.left = 0;
    }

    /// These bytes go out now. `clock` is this machine's: microseconds since 1970-01-01 00:00 UTC.
    pub fn pass(&mut self, bytes: &[u8], clock: u64, ages: &mut Histogram) {
        let mut rest = bytes;
        for _ in 0..bytes.len() {
            if self.left == 0 && self.held == 0 {
                rest = self.pass_whole(rest, clock, ages);
            }
            if rest.is_empty() {
                return;
            }
            let size = self.pass_some(rest, clock, ages);
            rest = rest.get(size..).unwrap_or(b"");
        }
    }

    /// The data frames go out that begin these bytes and lie whole: their fields are read where they lie. It gives the bytes behind them.
    #[inline(always)]
    fn pass_whole<'b>(&mut self, bytes: &'b [u8], clock: u64, ages: &mut Histogram) -> &'b [u8] {
        let mut rest = bytes;
        let mut frames = 0;
        for at in 0..bytes.len() {
            let [_, kind, s0, s1, n0, n1, t0, t1, t2, t3, f0, f1, f2, f3, ..] = rest else {
                break;
            };
            let size = usize::from(u16::from_be_bytes([*s0, *s1]));
            let Some(behind) = rest.get(size..) else {
                break;
            };
            if kind_of(*kind) != DATA || size < HEAD {
                break;
            }
            let stream = u16::from_be_bytes([*n0, *n1]);
            let stamp = u64::from_be_bytes([*t0, *t1, *t2, *t3, *f0, *f1, *f2, *f3]);
            self.observe(stream, stamp, clock, ages);
            frames = at + 1;
            rest = behind;
        }
        self.frames = self.frames.saturating_add(frames as u64);
        rest
    }

    /// The first of these bytes go out: what is left of a frame, or what is wanted of its head. It returns how many that were.
    fn pass_some(&mut self, bytes: &[u8], clock: u64, ages: &mut Histogram) -> usize {
        if self.left > 0 {
            let size = self.left.min(bytes.len());
            self.left = self.left.saturating_sub(size);
            return size;
        }
        let size = self.hold(bytes);
        if self.held >= self.wanted() {
            self.meet(clock, ages);
        }
        size
    }

    /// How many bytes of the frame have to be held.
    fn wanted(&self) -> usize {
        if self.held >= HEAD && self.kind() == CFG_TWO {
            CONFIG_HEAD
        } else {
            HEAD
        }
    }

    /// The type of the frame.
    fn kind(&self) -> u8 {
        kind_of(self.head[1])
    }

    /// The four bytes at this place, as one number.
    fn word_at(&self, place: usize) -> u32 {
        match self.head.get(place..) {
            Some([a, b, c, d, ..]) => u32::from_be_bytes([*a, *b, *c, *d]),
            _ => 0,
        }
    }

    /// The two bytes at this place, as one number.
    fn half_at(&self, place: usize) -> u16 {
        match self.head.get(place..) {
            Some([a, b, ..]) => u16::from_be_bytes([*a, *b]),
            _ => 0,
        }
    }

    /// Holds what is wanted of these bytes, and returns how many that were.
    fn hold(&mut self, bytes: &[u8]) -> usize {
        let size = self.wanted().saturating_sub(self.held).min(bytes.len());
        let free = self.head.iter_mut().skip(self.held);
        for (place, byte) in free.zip(bytes.iter().take(size)) {
            *place = *byte;
        }
        self.held = self.held.saturating_add(size);
        size
    }

    /// The head of a frame is whole.
    fn meet(&mut self, clock: u64, ages: &mut Histogram) {
        match self.kind() {
            DATA => {
                let soc = u64::from(self.word_at(SOC_AT));
                let stamp = soc << 32 | u64::from(self.word_at(FRACSEC_AT));
                self.observe(self.half_at(STREAM_AT), stamp, clock, ages);
                self.frames = self.frames.saturating_add(1);
            }
            CFG_TWO => self.learn(),
            _ => {}
        }
        self.left = usize::from(self.half_at(SIZE_AT)).saturating_sub(self.held);
        self.held = 0;
    }

    /// A data frame of this stream goes out, which has this stamp, SOC and behind it FRACSEC: its age is counted where it is known.
    #[inline(always)]
    fn observe(&self, stream: u16, stamp: u64, clock: u64, ages: &mut Histogram) {
        let Some(base) = self.bases.iter().find(|it| it.stream == stream) else {
            return;
        };
        if let Some(age) = age_of(stamp, base.resolution, clock) {
            ages.observe(age);
        }
    }

    /// Keeps TIME_BASE of a stream.
    fn learn(&mut self) {
        let base = Base {
            stream: self.half_at(STREAM_AT),
            resolution: self.word_at(HEAD) & TICKS,
        };
        let known = self.bases.iter().position(|it| it.stream == base.stream);
        if let Some(place) = self.bases.get_mut(known.unwrap_or(self.oldest)) {
            *place = base;
        }
        if known.is_none() {
            self.oldest = self.oldest.saturating_add(1) % STREAMS;
        }
    }
}

/// The type of a frame, by the second byte of its SYNC.
fn kind_of(sync: u8) -> u8 {
    sync / 16 % 8
}

/// The age in microseconds of a stamp, 0 where it is not past; `None` where FRACSEC is none of this base.
fn age_of(stamp: u64, base: u32, clock: u64) -> Option<u64> {
    let (soc, frac) = (stamp >> 32, stamp & u64::from(TICKS));
    if frac >= u64::from(base) {
        return None;
    }
    let micros = if base == MICROS {
        frac
    } else {
        frac.saturating_mul(u64::from(MICROS)) / u64::from(base.max(1))
    };
    let stamp = soc.saturating_mul(u64::from(MICROS)).saturating_add(micros);
    Some(clock.saturating_sub(stamp))
}

/// A writer that has the ages counted of what it takes. Its bytes are those of the one inside.
#[derive(Drop)]
pub(crate) struct LatencyWriter<'a, R: Clock, W: Write> {
    pub(crate) rt: &'a R,
    pub(crate) inner: W,
    pub(crate) stamps: &'a mut LatencyMeter,
    pub(crate) ages: &'a mut Histogram,
}

impl<R: Clock, W: Write> Write for LatencyWriter<'_, R, W> {
    ghost contents = { λ c. W.contents c.inner };

    fn write(&mut self, buf: &[u8]) -> io::Result<usize> {
        let size = self.inner.write(buf)?;
        let clock = clock_micros(self.rt);
        if let (Some(taken), Some(clock)) = (buf.get(..size), clock) {
            self.stamps.pass(taken, clock, self.ages);
        }
        Ok(size)
    }

    fn flush(&mut self) -> io::Result<()> {
        self.inner.flush()
    }
}

/// This machine's clock: microseconds since 1970-01-01 00:00 UTC, as far as it is known.
fn clock_micros<R: Clock>(rt: &R) -> Option<u64> {
    let now = SystemTime::now(rt).ok()?;
    let since = now.duration_since(SystemTime::UNIX_EPOCH).ok()?;
    u64::try_from(since.as_micros()).ok()
}

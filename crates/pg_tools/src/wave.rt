//! Sine and decay by tables of whole numbers. There is no rounding of floating point in them, so that a second has the same
//! numbers on every machine.

ghost use Rattle.std.specs.Prelude.{◌≤◌};

/// A right angle, where a whole turn is 2^32.
const RIGHT_ANGLE: u32 = 0x4000_0000;

/// How far two entries of `QUARTER` are apart: 256 of them are a right angle.
const STEP: u32 = 0x0040_0000;

/// What a sine of 1 is.
pub const UNIT: i64 = 32_767;

/// The sine from 0 to a right angle.
const QUARTER: [u16; 257] = [
    0, 201, 402, 603, 804, 1005, 1206, 1407, 1608, 1809, 2009, 2210, 2410, 2611, 2811, 3012, 3212,
    3412, 3612, 3811, 4011, 4210, 4410, 4609, 4808, 5007, 5205, 5404, 5602, 5800, 5998, 6195, 6393,
    6590, 6786, 6983, 7179, 7375, 7571, 7767, 7962, 8157, 8351, 8545, 8739, 8933, 9126, 9319, 9512,
    9704, 9896, 10087, 10278, 10469, 10659, 10849, 11039, 11228, 11417, 11605, 11793, 11980, 12167,
    12353, 12539, 12725, 12910, 13094, 13279, 13462, 13645, 13828, 14010, 14191, 14372, 14553,
    14732, 14912, 15090, 15269, 15446, 15623, 15800, 15976, 16151, 16325, 16499, 16673, 16846,
    17018, 17189, 17360, 17530, 17700, 17869, 18037, 18204, 18371, 18537, 18703, 18868, 19032,
    19195, 19357, 19519, 19680, 19841, 20000, 20159, 20317, 20475, 20631, 20787, 20942, 21096,
    21250, 21403, 21554, 21705, 21856, 22005, 22154, 22301, 22448, 22594, 22739, 22884, 23027,
    23170, 23311, 23452, 23592, 23731, 23870, 24007, 24143, 24279, 24413, 24547, 24680, 24811,
    24942, 25072, 25201, 25329, 25456, 25582, 25708, 25832, 25955, 26077, 26198, 26319, 26438,
    26556, 26674, 26790, 26905, 27019, 27133, 27245, 27356, 27466, 27575, 27683, 27790, 27896,
    28001, 28105, 28208, 28310, 28411, 28510, 28609, 28706, 28803, 28898, 28992, 29085, 29177,
    29268, 29358, 29447, 29534, 29621, 29706, 29791, 29874, 29956, 30037, 30117, 30195, 30273,
    30349, 30424, 30498, 30571, 30643, 30714, 30783, 30852, 30919, 30985, 31050, 31113, 31176,
    31237, 31297, 31356, 31414, 31470, 31526, 31580, 31633, 31685, 31736, 31785, 31833, 31880,
    31926, 31971, 32014, 32057, 32098, 32137, 32176, 32213, 32250, 32285, 32318, 32351, 32382,
    32412, 32441, 32469, 32495, 32521, 32545, 32567, 32589, 32609, 32628, 32646, 32663, 32678,
    32692, 32705, 32717, 32728, 32737, 32745, 32752, 32757, 32761, 32765, 32766, 32767,
];

/// What is left of a swing after each whole second, of 65,536 at first: its time constant is 8 seconds.
const DECAY: [u32; 61] = [
    65536, 57835, 51039, 45042, 39750, 35079, 30957, 27319, 24109, 21276, 18776, 16570, 14623,
    12905, 11388, 10050, 8869, 7827, 6907, 6096, 5380, 4747, 4190, 3697, 3263, 2879, 2541, 2243,
    1979, 1746, 1541, 1360, 1200, 1059, 935, 825, 728, 642, 567, 500, 442, 390, 344, 303, 268, 236,
    209, 184, 162, 143, 127, 112, 99, 87, 77, 68, 60, 53, 47, 41, 36,
];

/// The sine of an angle, of which 2^32 are a whole turn: -32,767 to 32,767, straight between the entries of a table.
pub fn sine(angle: u32) -> i64 {
    let within = angle % RIGHT_ANGLE;
    let (place, is_below) = match angle / RIGHT_ANGLE {
        0 => (within, false),
        1 => (RIGHT_ANGLE - within, false),
        2 => (within, true),
        _ => (RIGHT_ANGLE - within, true),
    };
    let value = i64::from(quarter(place));
    if is_below { -value } else { value }
}

/// The cosine of an angle, as `sine`.
pub fn cosine(angle: u32) -> i64 {
    sine(angle.wrapping_add(RIGHT_ANGLE))
}

/// The sine of an angle up to a right angle.
fn quarter(place: u32) -> u16
    ensures { result ≤ 32767 }
{
    let at = (place / STEP) as usize;
    let rest = place % STEP;
    let low = u32::from(QUARTER.get(at).copied().unwrap_or(32_767));
    let high = u32::from(QUARTER.get(at + 1).copied().unwrap_or(32_767));
    let rise = high.saturating_sub(low).saturating_mul(rest / 64) / (STEP / 64);
    low.saturating_add(rise).min(32_767) as u16
}

/// What is left of a swing that began so many seconds and microseconds ago: 65,536 at first, and nothing once a minute is over.
pub fn decay(seconds: u32, micros: u32) -> i64 {
    let at = seconds as usize;
    let before = DECAY.get(at).copied().unwrap_or(0);
    let after = DECAY.get(at.saturating_add(1)).copied().unwrap_or(0);
    let fall = u64::from(before.saturating_sub(after)).saturating_mul(u64::from(micros))
        / 1_000_000;
    i64::from(before).saturating_sub(i64::from(fall.min(65_536) as u32))
}

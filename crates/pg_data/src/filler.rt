//! What stands for a missing data block.

ghost use Rattle.std.specs.Prelude.{◌≡◌, ◌+◌, ◌*◌, ◌≤◌, ◌++◌, vec_len, vec_capacity};
ghost use Rattle.pg_config.specs.Parts.{data_len};
ghost use Rattle.pg_data.specs.Filler.{words, filler_of};

use pg_config::PmuConfig;

/// STAT of a missing block: bits 15 and 14 are 10, the values are not to be used (C37.118.2, 6.3).
const MISSING: u16 = 0x8000;

/// A value that is missing.
const ABSENT: u16 = 0x8000;

/// Appends that many words of one value.
fn push_words(out: &mut Vec<u8>, count: usize, word: u16)
    requires { vec_len out.old + 2 * count ≤ vec_capacity out.old }
    ensures items { out.new.items ≡ out.old.items ++ words count word }
    ensures len { vec_len out.new ≡ vec_len out.old + 2 * count }
    ensures capacity { vec_capacity out.new ≡ vec_capacity out.old }
{
    let [high, low] = word.to_be_bytes();
    for _ in 0..count {
        out.push_reserved(high);
        out.push_reserved(low);
    }
}

/// Appends what stands for the PMU's missing data block: STAT 0x8000, every phasor word, FREQ, DFREQ and
/// analog value 0x8000, every digital word 0. It takes no memory.
pub fn filler_into(config: &PmuConfig, out: &mut Vec<u8>)
    requires { vec_len out.old + data_len config.now ≤ vec_capacity out.old }
    ensures items { out.new.items ≡ out.old.items ++ filler_of config.now }
    ensures len { vec_len out.new ≡ vec_len out.old + data_len config.now }
    ensures capacity { vec_capacity out.new ≡ vec_capacity out.old }
{
    push_words(out, 1, MISSING);
    push_words(out, 2 * usize::from(config.phasors), ABSENT);
    push_words(out, 1, ABSENT); // FREQ
    push_words(out, 1, ABSENT); // DFREQ
    push_words(out, usize::from(config.analogs), ABSENT);
    push_words(out, usize::from(config.digitals), 0);
}

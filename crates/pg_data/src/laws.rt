//! Laws of data frames, as contracts of functions that do nothing.

ghost use Rattle.std.specs.Prelude.{◌≡◌, ℕ, ◌<◌, ◌^◌, List, [], All, length, map, slice_index, slice_index_or};
ghost use Rattle.pg_wire.specs.Head.{two_at};
ghost use Rattle.pg_wire.specs.Stream.{joined};
ghost use Rattle.pg_config.specs.Parts.{Part, Source, IsSource, data_len};
ghost use Rattle.pg_data.specs.Measurements.{Measurement, IsMeasurement, block_in, resolution};
ghost use Rattle.pg_data.specs.Reading.{SpellsData, ReadsBack};
ghost use Rattle.pg_data.specs.Filler.{filler_of};
ghost use Rattle.pg_data.specs.Sharing.{AgreeOnOne, share_of};

/// What is written for a measurement is a data frame of it, and is read as that measurement.
pub fn written_is_read()
    ensures { (m : Measurement) → IsMeasurement m → ReadsBack m }
{}

/// Of data blocks that stand one behind another, each of its PMU's length, the block of PMU i is the i-th.
pub fn block_is_spelled()
    ensures { (parts : List Part) (blocks : List (List ℕ)) (i : ℕ) → map length blocks ≡ map data_len parts
        → block_in parts (joined blocks) i ≡ slice_index_or blocks i [] }
{}

/// Isolation inside a shared frame: where two data frames, each by its own configuration, agree on IDCODE, SOC, quality,
/// numerator, one PMU's configuration and the bytes of its block, that PMU's parts of what they say are equal, whatever
/// the other blocks hold.
pub fn own_block_alone()
    ensures { (config other : Source) (frame another : List ℕ) (m n : Measurement) (i j : ℕ)
        → SpellsData frame config m → SpellsData another other n
        → AgreeOnOne config other frame another i j → share_of m i ≡ share_of n j }
{}

/// All PMUs of a source have the resolution of its frames.
pub fn one_resolution()
    ensures { (config : Source) → IsSource config → All (λ part. part.base ≡ resolution config) config.parts }
{}

/// A filler is as long as the block for which it stands, and its STAT says that the values are not to be used.
pub fn filler_is_block()
    ensures size { (part : Part) → length (filler_of part) ≡ data_len part }
    ensures stat { (part : Part) → two_at (filler_of part) 0 ≡ 0x8000 }
    ensures octets { (part : Part) (i : ℕ) → slice_index (filler_of part) i < 2 ^ 8 }
{}

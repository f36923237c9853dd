//! Laws of output frames, as contracts of functions that do nothing: a caller that needs one calls it.
ghost use Rattle.std.specs.Prelude.{◌≡◌, ℕ, ◌/◌, ◌<◌, ◌^◌, List, Option};
ghost use Rattle.std.specs.Map.{values_of};
ghost use Rattle.pg_wire.specs.declared.kind.Kind.{Kind};
ghost use Rattle.pg_wire.specs.declared.kind.Kind.TheVariants.{CfgOne, CfgTwo};
ghost use Rattle.pg_config.specs.Writing.{IsReadable};
ghost use Rattle.pg_data.specs.Pieces.{Piece};
ghost use Rattle.pg_stream.specs.declared.definition.Definition.{Definition};
ghost use Rattle.pg_outcfg.specs.Listing.{Listing};
ghost use Rattle.pg_outcfg.specs.Quality.{leap_flags, quality_code, joined_flags, greatest_code, joined_quality};
ghost use Rattle.pg_outcfg.specs.Frames.{effective_of, cfg1_frame, cfg2_frame, data_blocks, data_frame_of};
ghost use Rattle.pg_outcfg.specs.Reading.{CanTell, TellsConfig, AreBlocks, TellsData, told_measurement};

/// CFG-1 and CFG-2 are read as the PMUs that they name, with the stream's count, resolution and rate, where a reader takes
/// these: 1 to 16 PMUs, each with an IDCODE of its own.
pub fn config_is_read()
    ensures cfg1 { (d : Definition) (count soc : ℕ) (listed : Listing) → CanTell d listed → count < 2 ^ 16 → soc < 2 ^ 32
        → IsReadable d.stream (values_of listed)
        → TellsConfig (cfg1_frame d count soc listed) CfgOne d count (values_of listed) }
    ensures cfg2 { (d : Definition) (count soc : ℕ) (listed : Listing) → CanTell d listed → count < 2 ^ 16 → soc < 2 ^ 32
        → IsReadable d.stream (effective_of listed d.members)
        → TellsConfig (cfg2_frame d count soc listed) CfgTwo d count (effective_of listed d.members) }
{}

/// A data frame is read, by the configuration in CFG-2, as the slot's stamp, the joined quality, and for each
/// effective member its block or the filler.
pub fn data_is_read()
    ensures { (d : Definition) (count slot : ℕ) (listed : Listing) (pieces : List (Option Piece)) → CanTell d listed
        → slot / d.rate < 2 ^ 32 → IsReadable d.stream (effective_of listed d.members) → AreBlocks listed d.members pieces
        → TellsData (data_frame_of d slot listed pieces) (told_measurement d count slot listed pieces)
        (data_blocks listed d.members pieces) }
{}

/// The three fields of a joined quality: bit 7 is 0, the leap second flags are the or of all, and the code is the greatest.
pub fn quality_is_joined()
    ensures below { (qualities : List ℕ) → joined_quality qualities < 2 ^ 7 }
    ensures leap { (qualities : List ℕ) → leap_flags (joined_quality qualities) ≡ joined_flags qualities }
    ensures code { (qualities : List ℕ) → quality_code (joined_quality qualities) ≡ greatest_code qualities }
{}

//! Laws of configuration frames, as contracts of functions that do nothing.

ghost use Rattle.std.specs.Prelude.{◌≡◌, ℕ, ◌<◌, ◌^◌, pos, List, ◌++◌, length, map, All, Ok, slice_index};
ghost use Rattle.std.specs.Int.{w16, to_be_bytes};
ghost use Rattle.pg_wire.specs.declared.kind.Kind.{Kind};
ghost use Rattle.pg_wire.specs.Head.{IsFrame};
ghost use Rattle.pg_wire.specs.Heads.{ended};
ghost use Rattle.pg_wire.specs.Stream.{joined};
ghost use Rattle.pg_config.specs.declared.source.Announced.{Announced};
ghost use Rattle.pg_config.specs.Parts.{Part, Source, IsSource};
ghost use Rattle.pg_config.specs.Sourced.{source_frame, IsOfRate};
ghost use Rattle.pg_config.specs.Reading.{base_at, rate_at, frame_blocks, config_of};
ghost use Rattle.pg_config.specs.Spelling.{SpellsConfig};
ghost use Rattle.pg_config.specs.Writing.{CanWrite, IsReadable, ReadsAsWritten, ReadsBack, block_with_count, config_start, config_frame, written_part, announced_with};
ghost use Rattle.pg_config.specs.Own.{own_block, own_part};

/// A frame that was started for these PMUs, filled with their blocks and ended is their configuration frame.
pub fn filled_is_frame()
    ensures { (kind : Kind) (id soc base rate count : ℕ) (parts : List Part)
        → ended (config_start kind id soc base (length parts) (length (joined (map (block_with_count count) parts)))
        ++ joined (map (block_with_count count) parts) ++ to_be_bytes w16 rate)
        ≡ config_frame kind id soc base rate count parts }
{}

/// What is written is spelled: the blocks of all PMUs, each with the new CFGCNT, at the stream's resolution and rate.
pub fn written_is_spelled()
    ensures { (kind : Kind) (id soc base rate count : ℕ) (parts : List Part)
        → CanWrite kind id soc base rate count parts
        → SpellsConfig (config_frame kind id soc base rate count parts)
        (announced_with kind id (map (written_part base rate count) parts)) }
{}

/// What is written of a source's PMUs is a frame, and is read as the same configuration but for CFGCNT.
pub fn written_is_read()
    ensures { (kind : Kind) (id soc base rate count : ℕ) (parts : List Part)
        → CanWrite kind id soc base rate count parts → IsSource (record { source = id; parts = parts })
        → All (λ p. (p.base ≡ base) × (p.rate ≡ pos rate)) parts
        → ReadsBack kind id soc base rate count parts }
{}

/// What is written of a stream's PMUs is a frame, and is read as their blocks with the new CFGCNT at the stream's resolution
/// and rate, whatever resolution and rate they came with.
pub fn output_is_read()
    ensures { (kind : Kind) (id soc base rate count : ℕ) (parts : List Part)
        → CanWrite kind id soc base rate count parts → 0 < base → IsReadable id parts
        → ReadsAsWritten kind id soc base rate count parts }
{}

/// Of two frames that are read, with one resolution, one rate and one block of a PMU, that PMU's configuration is the same,
/// whatever the other blocks are.
pub fn own_block_alone()
    ensures { (f g : List ℕ) (a b : Announced) (blocks others : List (List ℕ)) (pmu : ℕ)
        → config_of f ≡ Ok a → config_of g ≡ Ok b
        → frame_blocks f ≡ Ok blocks → frame_blocks g ≡ Ok others
        → base_at f ≡ base_at g → rate_at f ≡ rate_at g → own_block pmu blocks ≡ own_block pmu others
        → own_part pmu a.config.parts ≡ own_part pmu b.config.parts }
{}

/// What is written of a source's own configuration, each block with its own CFGCNT, is a frame, and is read as that
/// configuration, whatever its rate.
pub fn source_is_read()
    ensures read { (base rate : ℕ) (s : Source) → IsSource s → s.source < 2 ^ 16 → IsOfRate base rate s
        → config_of (source_frame base rate s) ≡ Ok (announced_with Kind.CfgTwo s.source s.parts) }
    ensures frame { (base rate : ℕ) (s : Source) → IsSource s → s.source < 2 ^ 16
        → All (λ p. (i : ℕ) → slice_index p.block i < 256) s.parts → IsFrame (source_frame base rate s) }
{}

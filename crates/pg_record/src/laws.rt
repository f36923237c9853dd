//! Laws of records, as contracts of functions that do nothing.

ghost use Rattle.std.specs.Prelude.{◌≡◌, ◌++◌, ◌<◌, ◌^◌, List, ℕ, length, Some};
ghost use Rattle.pg_record.specs.declared.record.Record.{Record};
ghost use Rattle.pg_record.specs.declared.block.BlockHead.{BlockHead};
ghost use Rattle.pg_record.specs.Records.{Fits, record_bytes, record_in};
ghost use Rattle.pg_record.specs.Blocks.{HeadFits, head_bytes, head_in};

/// What is written for a record is read as it, whatever stands behind it.
pub fn record_is_read()
    ensures { (r : Record) (body rest : List ℕ) → Fits r body → record_in (record_bytes r body ++ rest) ≡ Some (r, body, rest) }
{}

/// What is written for the head of a block is read as it, whatever stands behind it.
pub fn block_head_is_read()
    ensures { (h : BlockHead) (rest : List ℕ) → HeadFits h → head_in (head_bytes h ++ rest) ≡ Some (h, rest) }
{}

//! What is read of a command and of a configuration, or why nothing is, row by row.

use crate::fixtures::framed;
use pg_command::read_command;
use pg_config::{Announced, read_config};
use pg_wire::{Kind, Refusal, is_frame};
use std::alloc::{AllocError, Global};
use std::process::Abort;
use std::test::*;

/// A name, what the frame is read as, the frame without its CHK (`one` and `three` are the configurations of `fixtures`), and what is
/// read or the refusal. Of a command these are stream and word; of a configuration kind and source, then of each PMU its number,
/// resolution, rate, and the sizes of its configuration block and its data block.
const ROWS: &str = "\
word 1|command|aa420012006500000064000000000001|101 1\n\
word 2|command|aa420012006500000064000000000002|101 2\n\
word 3|command|aa420012006500000064000000000003|101 3\n\
word 4|command|aa420012006500000064000000000004|101 4\n\
word 5|command|aa420012006500000064000000000005|101 5\n\
word 6|command|aa420012006500000064000000000006|101 6\n\
breaks-and-sizes|command|aa42001000650000006400000000|BadLength\n\
breaks-and-sizes|command|aa4200140065000000640000000000020000|BadLength\n\
breaks-and-sizes|command|aa4200140065000000640000000000080000|101 8\n\
no command|command|aa02001a0007000000640000823500001000200000000000|WrongType\n\
first-path|config|one|2 7 7/1000000/30/50/10\n\
CFG-1|config|one 1=34|1 7 7/1000000/30/50/10\n\
polar phasors|config|one 39=1|2 7 7/1000000/30/50/10\n\
limits-and-refusals|config|one 39=2|FloatFormat\n\
link-refusals-and-triggers|config|one 37=8|2 7 8/1000000/30/50/10\n\
link-refusals-and-triggers|config|one 19=2|BadLength\n\
link-refusals-and-triggers|config|one 19=0|BadCounts\n\
link-refusals-and-triggers|config|one 15=0 16=0 17=0|BadTimeBase\n\
no configuration|config|one 1=2|WrongType\n\
source 0|config|one 5=0|WrongId\n\
shared-frame|config|three|2 9 7/1000000/30/50/10 8/1000000/30/290/8 11/1000000/30/50/10\n\
shared-frame|config|three 377=7|DuplicatePmu";

fn config_told(alloc: Global, announced: &Announced) -> Result<String, AllocError> {
    let kind = if matches!(announced.kind, Kind::CfgOne) {
        1
    } else {
        2
    };
    let source = announced.config.source.get();
    let mut text = format!(in alloc; "{kind} {source}")?;
    for part in &announced.config.parts {
        let (id, base, rate) = (part.id(), part.base, part.rate);
        let (config, data) = (part.config_len(), part.block_len());
        text.push_str(&format!(in alloc; " {id}/{base}/{rate}/{config}/{data}")?)?;
    }
    Ok(text)
}

/// What is read of a row's frame.
fn told(rt: &impl Abort, alloc: Global, reader: &str, frame: &[u8]) -> Result<String, Refusal> {
    assert!(rt; is_frame(frame));
    if reader == "config" {
        return Ok(config_told(alloc, &read_config(alloc, frame)?)?);
    }
    let command = read_command(frame)?;
    let (stream, word) = (command.stream, command.word);
    Ok(format!(in alloc; "{stream} {word}")?)
}

#[test]
fn rows(rt: HostRuntime) {
    let alloc = rt.alloc();
    for row in ROWS.split('\n') {
        let (name, row) = row.split_once('|').expect(&rt, "a name");
        let (reader, row) = row.split_once('|').expect(&rt, "a reader");
        let (frame, wanted) = row.split_once('|').expect(&rt, "a frame");
        let came = match told(&rt, alloc, reader, &framed(&rt, alloc, frame)) {
            Ok(text) => text,
            Err(refusal) => String::from_str(alloc, refusal.name()).expect(&rt, "memory"),
        };
        assert!(rt; came.as_str() == wanted, "{name}: {came}");
    }
}

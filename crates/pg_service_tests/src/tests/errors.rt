//! Texts of the errors by which a script, or the answer to a line, ends.

use crate::tests::asserts::same;
use pg_lines::NotPrinted;
use pg_replay::Fault;
use std::test::*;

#[test]
fn error_texts(rt: HostRuntime) {
    let (memory, read, write) = (Fault::NoMemory, Fault::Read, Fault::Write);
    let (no_answer, no_output) = (NotPrinted::NoMemory, NotPrinted::Write);
    let told = format!(in rt.alloc(); "{memory}; {read}; {write}; {no_answer}; {no_output}");
    same(
        &rt,
        told.expect(&rt, "memory").as_str(),
        "there is no memory; the input can't be read; the output can't be written; there is no memory for an answer; an answer can't be written",
    );
}

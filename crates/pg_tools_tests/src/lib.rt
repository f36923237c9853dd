//! Tests of pg_limits, pg_status and pg_tools, as their callers see them: over memory, with a clock that the test sets and values that were
//! written by hand from the rules. They stand in a crate of their own, so that the gate proves each of these once. What the page, its metrics, `simulate`,
//! `watch` and `bridge` do is tested over sockets, in tests/.
#![tactic(auto)]

#[cfg(test)]
mod tests;

//! Tests of pg_lines, pg_operator and pg_setup, as their callers see them. They stand in a crate of their own, so that the gate proves each of these once.
//! What `check` says of a setup file is tested in tests/test_setups.py, lines about sources and ports in tests/test_lines.py.
#![tactic(auto)]

#[cfg(test)]
mod tests;

//! Tests of pg_admin, pg_log, pg_service, pg_sources, pg_subscribers and pg_console, as their callers see them: over memory, with a clock that the test
//! moves. They stand in a crate of their own, so that the gate proves those crates once.
#![tactic(auto)]

#[cfg(test)]
mod tests;

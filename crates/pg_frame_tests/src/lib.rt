//! Tests of pg_wire, pg_command, pg_config, pg_data, pg_stream, pg_entitle, pg_align, pg_outcfg, pg_ring, pg_audit, pg_registry and
//! pg_quality, as their callers see them. They stand in a crate of their own, so that the gate proves those crates once.
#![tactic(auto)]

#[cfg(test)]
mod align;
#[cfg(test)]
mod asserts;
#[cfg(test)]
mod deframer;
#[cfg(test)]
mod fixtures;
#[cfg(test)]
mod keys;
#[cfg(test)]
mod output;
#[cfg(test)]
mod plain;
#[cfg(test)]
mod quality;
#[cfg(test)]
mod queue;
#[cfg(test)]
mod rows;
#[cfg(test)]
mod stream;
#[cfg(test)]
mod writers;

//! Tests of pg_record, pg_session, pg_gateway, pg_ingest, pg_shared and pg_laws, as their callers see them. They stand in a crate of their
//! own, so that the gate proves those crates once.
#![tactic(auto)]

#[cfg(test)]
mod asserts;
#[cfg(test)]
mod counts;
#[cfg(test)]
mod fixtures;
#[cfg(test)]
mod laws;
#[cfg(test)]
mod links;
#[cfg(test)]
mod memory;
#[cfg(test)]
mod records;
#[cfg(test)]
mod services;
#[cfg(test)]
mod sessions;
#[cfg(test)]
mod sharing;
#[cfg(test)]
mod standings;
#[cfg(test)]
mod workers;

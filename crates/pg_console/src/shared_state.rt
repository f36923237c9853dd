//! What the workers of a service share.

use pg_log::Journal;
use pg_service::{Directory, StatusCollector};
use pg_wire::Refusal;
use std::alloc::Global;
use std::sync::Mutex;

/// What the workers of a service share, besides the gateway and their mailboxes.
#[derive(Drop)]
pub struct SharedState {
    /// What they note for the log.
    pub journal: Journal,
    /// Where they report how their sources and ports stand.
    pub collector: StatusCollector,
    /// The PMUs and subscribers that are registered, and which worker has which source or subscriber.
    pub directory: Mutex<Directory>,
}

impl SharedState {
    /// Nothing was noted or reported, and this is registered.
    ///
    /// # Errors
    ///
    /// `NoMemory`.
    pub fn new(alloc: Global, directory: Directory) -> Result<SharedState, Refusal> {
        Ok(SharedState {
            journal: Journal::new(alloc)?,
            collector: StatusCollector::new(alloc),
            directory: Mutex::new(directory),
        })
    }
}

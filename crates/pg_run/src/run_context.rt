//! What the workers of `run` need besides what those of each service do.

use crate::reloading::SetupManager;
use crate::running::Start;
use pg_operator::Setup;
use pg_recorder::Recorder;
use std::net::Net;
use std::rt::Clock;
use std::sync::Mutex;
use std::sync::atomic::AtomicBool;

/// What the workers of `run` need besides what those of each service do: the setup by which it runs, and how it ends.
#[derive(Clone, Copy)]
pub(crate) struct RunContext<'a> {
    pub(crate) files: &'a HostRuntime,
    pub(crate) start: Start<'a>,
    // The gateway's name.
    pub(crate) name: &'a str,
    pub(crate) setup: &'a Mutex<Setup>,
    // What calls are recorded by, if they are.
    pub(crate) recorder: Option<&'a Recorder>,
    // It is held while a reload does what changed.
    pub(crate) turn: &'a Mutex<()>,
    // Set where all workers are to end.
    pub(crate) stop: &'a AtomicBool,
}

impl<'a> RunContext<'a> {
    /// For the answers to lines.
    pub(crate) fn in_force<R: Net + Clock>(self, rt: &'a R) -> SetupManager<'a, R> {
        SetupManager::new(
            rt,
            self.files,
            self.start.file,
            self.start.version,
            self.setup,
            self.turn,
        )
    }
}

//! What the log begins with.

use crate::running::Start;
use pg_operator::Setup;
use std::fmt;

/// What is served by a setup, in numbers.
#[derive(Clone, Copy)]
pub(crate) struct Served<'a> {
    start: Start<'a>,
    name: &'a str,
    pmus: usize,
    sources: usize,
    subscribers: usize,
    streams: usize,
}

impl<'a> Served<'a> {
    /// What is served by this setup.
    pub(crate) fn of(start: Start<'a>, name: &'a str, setup: &Setup) -> Served<'a> {
        let streams = setup.subscribers.iter().map(|it| it.streams.len());
        Served {
            start,
            name,
            pmus: setup.pmus.len(),
            sources: setup
                .sources
                .iter()
                .filter(|it| !it.connect.is_empty())
                .count(),
            subscribers: setup.subscribers.len(),
            streams: streams.fold(0, usize::saturating_add),
        }
    }
}

impl fmt::Display for Served<'_> {
    fn fmt<W: fmt::Write>(&self, f: &mut fmt::Formatter<W>) -> fmt::Result {
        let Start { file, version, .. } = self.start;
        write!(
            f,
            "the gateway starts: pdcgw {version}, name {}, setup {file}, ",
            self.name
        )?;
        let (pmus, sources) = (self.pmus, self.sources);
        write!(f, "PMUs: {pmus}, sources with connect: {sources}, ")?;
        let (subscribers, streams) = (self.subscribers, self.streams);
        write!(f, "subscribers: {subscribers}, streams: {streams}")
    }
}

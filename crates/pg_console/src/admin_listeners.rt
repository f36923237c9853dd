//! Where an operator is served besides the lines of the program.

use mio::net::{TcpListener as PageListener, UnixListener};
use pg_admin::{AdminBackend, AdminServer};
use pg_log::{Detail, Entry, Journal, LogEvent, Subject};
use std::io;
use std::net::Net;
use std::rt::Clock;
use std::sync::Wait;

/// Where an operator is served besides the lines of the program.
#[derive(Drop)]
pub struct AdminListeners {
    /// The control socket.
    pub lines: Option<UnixListener>,
    /// The page.
    pub page: Option<PageListener>,
}

impl AdminListeners {
    /// Has this server serve what these listen for, and writes it to the log.
    pub(crate) fn open<R: Wait + Clock + Net, C: AdminBackend + Drop>(
        self,
        rt: &R,
        admin: &mut AdminServer<'_, R, C>,
        journal: &Journal,
    ) -> io::Result<()> {
        let AdminListeners { lines, page } = self;
        if let Some(listener) = lines {
            admin.take_lines(listener)?;
            let entry = Entry::new(LogEvent::Opened, Subject::Nobody, Detail::Nothing);
            journal.log(rt, entry);
        }
        if let Some(listener) = page {
            let detail = Detail::At(listener.local_addr()?);
            admin.show_page(listener)?;
            journal.log(rt, Entry::new(LogEvent::Shown, Subject::Nobody, detail));
        }
        Ok(())
    }
}

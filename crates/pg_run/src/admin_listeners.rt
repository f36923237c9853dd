//! Where an operator is served besides the lines of the program, as it is bound.

use crate::failure::{Failure, not_bound};
use mio::net::{TcpListener as PageListener, UnixListener};
use pg_admin::listen_at;
use pg_console::AdminListeners;
use pg_operator::BoundBy;
use std::net::{Net, SocketAddr, SocketAddrV4};

/// Listens at the control socket and for the page, as far as the setup names them.
pub(crate) fn admin_listeners<R: Net>(
    rt: &R,
    files: &HostRuntime,
    control: &Option<String>,
    status: Option<SocketAddrV4>,
) -> Result<AdminListeners, Failure> {
    let lines = match control {
        Some(path) => match listen_at(files, path.as_str()) {
            Ok(listener) => Some(listener),
            Err(error) => return Err(not_bound(BoundBy::Control, None, error)),
        },
        None => None,
    };
    let page = match status {
        Some(address) => {
            let address = SocketAddr::V4(address);
            match PageListener::bind(rt, address) {
                Ok(listener) => Some(listener),
                Err(error) => return Err(not_bound(BoundBy::Status, Some(address), error)),
            }
        }
        None => None,
    };
    Ok(AdminListeners { lines, page })
}

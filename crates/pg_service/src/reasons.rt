//! How connections end.

use pg_ingest::End;
use pg_log::Detail;

/// How a connection ended, for the log.
pub fn ended(end: End) -> Detail {
    match end {
        End::Closed => Detail::ClosedByPeer,
        End::Quiet | End::Stalled => Detail::Nothing,
        End::Fault(number) => Detail::Fault(number),
    }
}

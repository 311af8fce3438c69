//! Why there is no connection, or why one failed.
ghost use Rattle.std.specs.Prelude.{◌≡◌};
ghost use Rattle.rje_net.specs.LineCause.{cause_of_kind};

use crate::first_bytes::FirstBytes;
use std::io::ErrorKind;
use std::net::SocketAddr;
use thiserror::Error;

/// Why there is no connection, or why one failed.
#[derive(Clone, Copy, Debug, PartialEq, Eq, Error)]
pub enum LineCause {
    /// The other end, at this address, can't be called.
    #[error("can't connect to {0}: {1}")]
    NotCalled(SocketAddr, ErrorKind),
    /// Nobody can be awaited at this address.
    #[error("can't listen on {0}: {1}")]
    NotAwaited(SocketAddr, ErrorKind),
    /// The other end hung up.
    #[error("peer hung up")]
    HungUp,
    /// It hung up after what isn't the beginning of a transmission: its first bytes.
    #[error("peer sent what is no transmission: {0}")]
    NoTransmission(FirstBytes),
    /// It took no bytes for as long as a hearing waits.
    #[error("peer takes no bytes")]
    TakesNothing,
    /// The connection failed so.
    #[error("connection failed: {0}")]
    Failed(ErrorKind),
}

impl LineCause {
    /// Why a connection failed of which a call failed so: the system reports in three ways that the other end is gone, and in two that it took
    /// nothing in time.
    pub fn of_kind(kind: ErrorKind) -> LineCause
        ensures { result ≡ cause_of_kind kind }
    {
        match kind {
            ErrorKind::BrokenPipe | ErrorKind::ConnectionReset | ErrorKind::ConnectionAborted =>
                LineCause::HungUp,
            ErrorKind::WouldBlock | ErrorKind::TimedOut => LineCause::TakesNothing,
            kind => LineCause::Failed(kind),
        }
    }
}

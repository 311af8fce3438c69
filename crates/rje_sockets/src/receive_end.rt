//! How a station left the transmission that it received.

/// How a receiving station left a transmission.
#[derive(Clone, Copy, Debug, PartialEq, Eq)]
pub enum ReceiveEnd {
    /// The other station ended it.
    Ended,
    /// It gave up hope of the other station.
    Abandoned,
}

//! Where a receiver stands.

/// Where the receiver stands.
#[derive(Clone, Copy, Debug, PartialEq, Eq)]
pub enum ReceiverPlace {
    /// No bid was heard yet.
    Idle,
    /// A bid was heard.
    InTransmission,
    /// EOT was heard, or the receiver left.
    Ended,
}

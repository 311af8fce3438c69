//! What a receiver replies.

/// What the receiver replies.
#[derive(Clone, Copy, Debug, PartialEq, Eq)]
pub enum Reply {
    /// An even number of blocks was accepted; the bid is granted.
    Ack0,
    /// An odd number of blocks was accepted.
    Ack1,
    /// Send that again.
    Nak,
    /// Wait before going on: after a block, which was accepted, and after a bid, which isn't granted yet.
    Wack,
    /// Accepted, and please stop.
    Rvi,
}

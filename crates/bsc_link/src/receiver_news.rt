//! What a receiver does at a hearing.
use crate::Reply;

/// What one hearing of the receiver gave.
#[derive(Clone, Copy, Debug, PartialEq, Eq)]
pub struct ReceiverNews {
    /// The block that was heard is accepted.
    pub accepted: bool,
    /// The reply that is due; None where the receiver is silent.
    pub reply: Option<Reply>,
    /// The transmission ended here.
    pub ended: bool,
}

//! What a sender learns at a hearing.

/// What one hearing of the sender gave.
#[derive(Clone, Copy, Debug, PartialEq, Eq)]
pub struct SenderNews {
    /// The outstanding block was counted.
    pub counted: bool,
}

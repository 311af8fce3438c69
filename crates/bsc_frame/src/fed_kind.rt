//! What a listener did with a piece of bytes, except a block's text.
use crate::FrameKind;

/// What a listener did with a piece of bytes, where the text of a block is in its caller's room.
#[derive(Clone, Copy, Debug, PartialEq, Eq)]
pub struct FedKind {
    /// How many bytes of the piece were used: with a frame, those up to its last byte; without one, all.
    pub used: usize,
    /// The kind of the frame that became whole.
    pub kind: Option<FrameKind>,
}

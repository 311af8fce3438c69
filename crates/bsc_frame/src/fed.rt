//! What a listener did with a piece of bytes.
use crate::Frame;

/// What a listener did with a piece of bytes.
#[derive(Debug, PartialEq, Eq, Drop)]
pub struct Fed {
    /// How many bytes of the piece were used: with a frame, those up to its last byte; without one, all.
    pub used: usize,
    /// The frame that became whole.
    pub frame: Option<Frame>,
}

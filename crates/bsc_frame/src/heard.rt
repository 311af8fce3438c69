//! What was heard between two turnarounds of the line.
use crate::Frame;

/// What was heard between two turnarounds of the line.
#[derive(Debug, PartialEq, Eq, Drop)]
pub enum Heard {
    /// A transmission of this frame.
    Frame(Frame),
    /// No frame, but a text was started.
    Bad,
    /// No frame and no text: other bytes than pads and SYN.
    Noise,
    /// Nothing but pads and SYN, if anything.
    Quiet,
}

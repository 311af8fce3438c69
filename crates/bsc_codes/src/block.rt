//! A block of text, as it stands between its framing.
use arrayvec::ArrayVec;

/// The most bytes that a block's text holds.
pub const MAX_TEXT: usize = 512;

/// What ends a block.
#[derive(Clone, Copy, Debug, PartialEq, Eq)]
pub enum Closing {
    /// More blocks of the job follow.
    Etb,
    /// The block is its job's last.
    Etx,
}

/// A block: its text without framing, fill and check, what ends it, and whether its text is transparent.
#[derive(Debug, PartialEq, Eq, Drop)]
pub struct Block {
    pub text: ArrayVec<u8, MAX_TEXT>,
    pub closing: Closing,
    pub transparent: bool,
}

//! One turn of a conversation.
use bsc_link::{Reply, Say, Sound, Wish};

/// One turn of a conversation: what was said and replied, what of it came through, and what both ends were asked to do.
#[derive(Clone, Copy, Debug, PartialEq, Eq)]
pub struct SpokenTurn {
    /// What the sender said.
    pub said: Say,
    /// What the receiver heard.
    pub arrived: Sound,
    /// A whole block arrived and found no memory at the receiver.
    pub refused: bool,
    /// What the receiver replied; None where it was silent.
    pub reply: Option<Reply>,
    /// What the sender heard.
    pub heard: Sound,
    /// What the receiver's operator wanted.
    pub wish: Wish,
    /// The sender's next block had to wait.
    pub pause: bool,
}

//! One turn of a schedule of losses and damage.
use crate::Fate;
use bsc_link::Wish;

/// One turn of a schedule: what the line will do, and what both ends are told.
#[derive(Debug, Drop)]
pub struct Turn {
    /// What the line does to the sender's transmission.
    pub up: Fate,
    /// What the line does to the receiver's reply.
    pub down: Fate,
    /// What the receiver's operator asks for.
    pub wish: Wish,
    /// The sender's next block has to wait.
    pub pause: bool,
}

//! One turn of a schedule of sounds.
use crate::SoundFate;
use bsc_link::Wish;

/// One turn of a schedule: what the line will do, and what both ends are asked to do.
#[derive(Clone, Copy, Debug, PartialEq, Eq)]
pub struct SoundTurn {
    /// What the line does to what the sender says.
    pub up: SoundFate,
    /// What the line does to the reply.
    pub down: SoundFate,
    /// A block that arrives finds no memory at the receiver.
    pub refused: bool,
    /// What the receiver's operator asks for.
    pub wish: Wish,
    /// The sender's next block has to wait.
    pub pause: bool,
}

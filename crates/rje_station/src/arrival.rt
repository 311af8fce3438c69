//! What a hearing brought.
use bsc_link::Sound;

/// What a hearing brought, and what was made of it.
#[derive(Clone, Copy, Debug, PartialEq, Eq)]
pub struct Arrival {
    /// What was heard.
    pub sound: Sound,
    /// Whether it was a block that couldn't be read, or for which there was no memory.
    pub refused: bool,
}

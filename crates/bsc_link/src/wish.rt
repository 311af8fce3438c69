//! What a receiver's operator asks for.

/// What the receiver's operator asks for at a hearing.
#[derive(Clone, Copy, Debug, PartialEq, Eq)]
pub enum Wish {
    /// Go on.
    Go,
    /// Wait: the next block can't be taken yet.
    Hold,
    /// Stop sending at the end of the job, so that the line can be turned round.
    Turn,
}

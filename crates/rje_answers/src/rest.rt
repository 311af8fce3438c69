//! What else was heard where no answer came.

/// What was heard where no answer came.
#[derive(Clone, Copy, PartialEq, Eq)]
pub enum Rest {
    /// Nothing but pads and SYN, if anything.
    Quiet,
    /// Bytes that are no transmission.
    Noise,
    /// A text that is spoiled.
    Bad,
}

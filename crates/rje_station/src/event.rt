//! What a station did.
use bsc_link::{Reply, Say, Sound};

/// What a station did, or what happened to it.
#[derive(Clone, Copy, Debug, PartialEq, Eq)]
pub enum Event {
    /// The sender sent this.
    Said(Say),
    /// This was heard.
    Heard(Sound),
    /// The outstanding block was counted.
    Counted,
    /// The block that was heard was accepted.
    Accepted,
    /// The block that was heard couldn't be read, or there was no memory for it.
    Refused,
    /// The receiver sent this.
    Replied(Reply),
    /// The line failed or babbled, or the receiver was told to end.
    Over,
}

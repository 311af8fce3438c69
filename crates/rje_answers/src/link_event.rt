//! What happens at an end of a connection.
use crate::{Rest, Said};

/// What happens at an end of a connection that awaits answers of type `A`.
#[derive(Clone, Copy)]
pub enum LinkEvent<A> {
    /// It says this.
    Says(Said),
    /// An answer comes: ACK0, ACK1, NAK, WACK or RVI.
    Answer(A),
    /// ENQ comes.
    Bid,
    /// EOT comes.
    End,
    /// A text comes, or a delay of one, or a text that its sender broke off.
    Text,
    /// A hearing in which no more came is over; after the last frame this was heard.
    Vain(Rest),
}

//! What became of a record that was pushed.
use crate::Record;

/// What became of a record that can be sent.
#[derive(Debug, PartialEq, Eq, Drop)]
pub enum Pushed {
    /// It is in the block in hand.
    Taken,
    /// The block in hand has no room for it; here it is back.
    Full(Record),
}

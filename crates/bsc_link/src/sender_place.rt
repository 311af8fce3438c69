//! Where a sender stands.
use crate::Outcome;

/// Where the sender stands. The table's place Block is three here, by what is due of the outstanding block.
#[derive(Clone, Copy, Debug, PartialEq, Eq)]
pub enum SenderPlace {
    /// The bid isn't granted yet.
    Bid,
    /// A block is outstanding: it is due for the first time.
    Block,
    /// A block is outstanding: it is due once more.
    Again,
    /// A block is outstanding: its reply is to be asked for.
    Ask,
    /// The next block has to wait.
    Delay,
    /// EOT is due.
    End(Outcome),
    /// Nothing is due any more.
    Over(Outcome),
}

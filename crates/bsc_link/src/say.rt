//! What a sender says.

/// What the sender is due to say.
#[derive(Clone, Copy, Debug, PartialEq, Eq)]
pub enum Say {
    /// ENQ, to bid for the line.
    Bid,
    /// The outstanding block, for the first time.
    Block,
    /// The outstanding block once more.
    Again,
    /// TTD: the next block has to wait.
    Delay,
    /// ENQ, to ask for the last reply again.
    Ask,
    /// EOT.
    End,
    /// Nothing: the transmission is over.
    Nothing,
}

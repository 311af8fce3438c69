//! What is heard on the line.

/// What one hearing gave.
#[derive(Clone, Copy, Debug, PartialEq, Eq)]
pub enum Sound {
    /// ENQ: a bid, or an inquiry after the last reply.
    Enq,
    /// The acknowledgement of an even number of blocks.
    Ack0,
    /// The acknowledgement of an odd number of blocks.
    Ack1,
    /// The block is to be sent again; or, after a TTD, go on.
    Nak,
    /// Wait before going on: the block is acknowledged; or the bid isn't granted yet.
    Wack,
    /// Reverse interrupt: acknowledged, and please stop.
    Rvi,
    /// Temporary text delay: the sender has nothing to send yet.
    Ttd,
    /// A text that its sender broke off.
    Abort,
    /// End of transmission.
    Eot,
    /// A whole block whose check is right.
    Block,
    /// A text that is spoiled.
    Bad,
    /// Bytes that are no transmission.
    Noise,
    /// Nothing but pads and SYN, or nothing at all, until the time was over.
    Quiet,
}

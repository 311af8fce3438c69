//! What a transmission says (GA27-3004). A transmission is pads FF and 55, if any, then two or more SYN, then a body:
//!
//! | Frame | Body | Means |
//! |---|---|---|
//! | Enq | 2D | a bid for the line; or a question for the last answer again |
//! | Ack0, Ack1 | 10 70, 10 61 | the last block arrived; a bid is granted by Ack0; at a question the parity says whether the last block arrived |
//! | Nak | 3D | the last block didn't arrive; also the answer to Ttd |
//! | Wack | 10 6B | the last block arrived, or the bid isn't granted yet; wait |
//! | Rvi | 10 7C | the last block arrived; please stop |
//! | Ttd | 02, fill, 2D | the sender isn't ready |
//! | Abort | 02, data and fill, 2D, with data; or 10 02, data and fill, 10 2D | a block is given up |
//! | Eot | 37, or 10 37 | the transmission is over |
//! | Block | 02, data and fill, 26 or 03, check | a block of normal text |
//! | Block | 10 02, data and fill, 10, 26 or 03, check | a block of transparent text |
//!
//! Fill is 32 in normal text, 10 32 in transparent text, where a data byte 10 stands as 10 10.
use bsc_codes::Block;

/// The second byte of ACK0; the first is DLE, as of the next three.
pub(crate) const ACK0: u8 = 0x70;
/// The second byte of ACK1.
pub(crate) const ACK1: u8 = 0x61;
/// The second byte of WACK.
pub(crate) const WACK: u8 = 0x6B;
/// The second byte of RVI.
pub(crate) const RVI: u8 = 0x7C;
/// The pad that may come before a transmission, as FF may.
pub(crate) const LEADING_PAD: u8 = 0x55;

/// What a transmission says.
#[derive(Debug, PartialEq, Eq, Drop)]
pub enum Frame {
    /// Enquiry: a bid for the line, or a question for the last answer again.
    Enq,
    /// Acknowledgement of a block with an even number, and the grant of a bid.
    Ack0,
    /// Acknowledgement of a block with an odd number.
    Ack1,
    /// Negative acknowledgement.
    Nak,
    /// Wait: an acknowledgement that holds the sender.
    Wack,
    /// Reverse interrupt: an acknowledgement that asks the sender to stop.
    Rvi,
    /// Temporary text delay: the sender isn't ready.
    Ttd,
    /// A block that its sender gave up. It is heard and never written.
    Abort,
    /// End of transmission.
    Eot,
    /// A block of text.
    Block(Block),
}

//! Which frame became whole.
ghost use Rattle.std.specs.Prelude.{◌≡◌, true, false, []};
ghost use Rattle.bsc_frame.specs.FrameKind.{frame_of, is_block};

use crate::Frame;
use arrayvec::ArrayVec;
use bsc_codes::{Block, Closing, MAX_TEXT};

/// Which frame became whole, each by the name that it has as a `Frame`, but without the data bytes of a block: it is small, and costs little
/// to give back.
#[derive(Clone, Copy, Debug, PartialEq, Eq)]
pub enum FrameKind {
    Enq,
    Ack0,
    Ack1,
    Nak,
    Wack,
    Rvi,
    Ttd,
    Abort,
    Eot,
    /// A block: whether its text is transparent, and what ends it.
    Block(bool, Closing),
}

impl FrameKind {
    /// The frame of this kind. A block takes the text with it; another frame leaves it.
    pub fn into_frame(self, text: &mut ArrayVec<u8, MAX_TEXT>) -> Frame
        ensures frame { result ≡ frame_of self text.old.items }
        ensures taken { is_block self ≡ true → text.new.items ≡ [] }
        ensures kept { is_block self ≡ false → text.new ≡ text.old }
    {
        match self {
            FrameKind::Enq => Frame::Enq,
            FrameKind::Ack0 => Frame::Ack0,
            FrameKind::Ack1 => Frame::Ack1,
            FrameKind::Nak => Frame::Nak,
            FrameKind::Wack => Frame::Wack,
            FrameKind::Rvi => Frame::Rvi,
            FrameKind::Ttd => Frame::Ttd,
            FrameKind::Abort => Frame::Abort,
            FrameKind::Eot => Frame::Eot,
            FrameKind::Block(transparent, closing) => Frame::Block(Block {
                text: text.take(),
                closing,
                transparent,
            }),
        }
    }
}

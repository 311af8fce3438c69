//! The words for what was heard.
ghost use Rattle.std.specs.Prelude.{◌≡◌, ◌++◌, List, ℕ, drop, codes, OnOk};
ghost use Rattle.rje_monitor.specs.Words.{hex};
ghost use Rattle.bsc_frame.specs.Heard.{IsHeard};
ghost use Rattle.bsc_frame.specs.declared.heard.Heard.TheVariants as heard;
ghost use Rattle.rje_monitor.specs.Reasons.{reason_name};
ghost use Rattle.rje_monitor.specs.Hearing.{AreBadWords, AreFrameWords, AreWords, pads_before as pads_of};

use crate::block_words::push_block;
use crate::pads::pads_before;
use crate::reason::Reason;
use crate::words::push_hex;
use bsc_frame::{Frame, Heard};
use rje_text::Mode;
use std::alloc::{AllocError, Global};

/// Puts the words for what was heard of these bytes after a text. `so_far` is the mode of the job's earlier blocks.
pub(crate) fn push_heard(
    alloc: Global,
    text: &mut Vec<u8>,
    so_far: Option<Mode>,
    heard: &Heard,
    bytes: &[u8],
) -> Result<(), AllocError>
    requires { IsHeard bytes.now heard.now }
    ensures { OnOk result ((words : List ℕ) × AreWords so_far heard.now bytes.now words
        × (text.new.items ≡ text.old.items ++ words)) }
{
    match heard {
        Heard::Frame(frame) => push_frame(alloc, text, so_far, frame),
        Heard::Bad => push_bad(text, bytes),
        Heard::Noise => push_noise(text, bytes),
        Heard::Quiet => text.extend_from_slice(b"quiet"),
    }
}

fn push_frame(
    alloc: Global,
    text: &mut Vec<u8>,
    so_far: Option<Mode>,
    frame: &Frame,
) -> Result<(), AllocError>
    ensures { OnOk result ((words : List ℕ) × AreFrameWords so_far frame.now words
        × (text.new.items ≡ text.old.items ++ words)) }
{
    match frame {
        Frame::Enq => text.extend_from_slice(b"enq"),
        Frame::Ack0 => text.extend_from_slice(b"ack0"),
        Frame::Ack1 => text.extend_from_slice(b"ack1"),
        Frame::Nak => text.extend_from_slice(b"nak"),
        Frame::Wack => text.extend_from_slice(b"wack"),
        Frame::Rvi => text.extend_from_slice(b"rvi"),
        Frame::Ttd => text.extend_from_slice(b"ttd"),
        Frame::Abort => text.extend_from_slice(b"abort"),
        Frame::Eot => text.extend_from_slice(b"eot"),
        Frame::Block(block) => push_block(alloc, text, so_far, block),
    }
}

/// Puts the words for bytes that are heard as bad after a text: why they are no transmission.
fn push_bad(text: &mut Vec<u8>, bytes: &[u8]) -> Result<(), AllocError>
    requires { IsHeard bytes.now heard.Bad }
    ensures { OnOk result ((words : List ℕ) × AreBadWords bytes.now words
        × (text.new.items ≡ text.old.items ++ words)) }
{
    let reason = Reason::of(bytes);
    text.extend_from_slice(b"bad ")?;
    text.extend_from_slice(reason_text(reason))
}

fn reason_text(reason: Reason) -> &'static [u8]
    ensures { result.now ≡ reason_name reason }
{
    match reason {
        Reason::Cut => b"cut",
        Reason::Check => b"check",
        Reason::TooLong => b"too long",
        Reason::Spoiled => b"spoiled",
    }
}

/// Puts the bytes of noise after a text, without the pads in front.
fn push_noise(text: &mut Vec<u8>, bytes: &[u8]) -> Result<(), AllocError>
    ensures { OnOk result (text.new.items ≡ text.old.items
        ++ (codes "noise " ++ hex (drop (pads_of bytes.now) bytes.now))) }
{
    text.extend_from_slice(b"noise ")?;
    let (_, noise) = bytes.split_at(pads_before(bytes));
    push_hex(text, noise)
}

//! The text of a stream.
ghost use Rattle.std.specs.Prelude.{◌≡◌, ◌+◌, ◌<◌, ◌^◌, ◌++◌, List, ℕ, length, IfOk, OnOk};
ghost use Rattle.bsc_frame.specs.Heard.{IsHeard};
ghost use Rattle.rje_monitor.specs.Stream.{IsStreamLine, IsStreamText};

use crate::heard_words::push_heard;
use crate::hearing::{Hearing, mode_after};
use crate::pads::pads_before;
use crate::words::push_number;
use bsc_frame::Heard;
use rje_text::Mode;
use std::alloc::{AllocError, Global};

/// The text of a stream in which a frame's end turns the line: a line for each frame, with the place from 0 of the first byte of its
/// transmission that is no pad, and one for what is left after the last frame, where that is bad or noise. Fails where memory runs out.
pub fn stream_text(alloc: Global, capture: &[u8]) -> Result<Vec<u8>, AllocError>
    ensures text { IfOk result (λ text. IsStreamText capture.now text.items) }
{
    let mut text = Vec::new(alloc);
    let mut so_far = None;
    let mut place = 0;
    let mut rest = capture;
    while !rest.is_empty() {
        let Hearing { heard, used } = Hearing::of(rest);
        let (front, more) = rest.split_at(used);
        push_line(alloc, &mut text, place, so_far, &heard, front)?;
        so_far = mode_after(so_far, &heard);
        place += used;
        rest = more;
    }
    Ok(text)
}

/// Puts the line for what was heard of these bytes, which are at this place, after a text.
fn push_line(
    alloc: Global,
    text: &mut Vec<u8>,
    place: usize,
    so_far: Option<Mode>,
    heard: &Heard,
    bytes: &[u8],
) -> Result<(), AllocError>
    requires heard { IsHeard bytes.now heard.now }
    requires fits { place + length bytes.now < 2 ^ 64 }
    ensures { OnOk result ((line : List ℕ) × IsStreamLine place so_far heard.now bytes.now line
        × (text.new.items ≡ text.old.items ++ line)) }
{
    if *heard == Heard::Quiet {
        return Ok(());
    }
    push_number(text, place + pads_before(bytes))?;
    text.extend_from_slice(b" ")?;
    push_heard(alloc, text, so_far, heard, bytes)?;
    text.extend_from_slice(b"\n")
}

//! Bytes of a text and of a block's end.
ghost use Rattle.std.specs.Prelude.{◌≡◌, true, false};
ghost use Rattle.bsc_check.specs.Check.{IsCheckOf};
ghost use Rattle.bsc_frame.specs.Body.{covered};
ghost use Rattle.bsc_frame.specs.Inside.Listening.HeardSoFar.{
  next,
  Text,
  TextDle,
  AwaitsSecondCheck,
  On,
  with_byte,
  block_of,
  closed,
  frame_of_enq,
};
ghost use Rattle.bsc_frame.specs.Inside.Listening.Stage.{so_far_of, progress_of, CheckRuns};
ghost use Rattle.bsc_frame.specs.FrameKind.{frame_of};

use super::stage::Stage;
use crate::FrameKind;
use crate::closing::closing_byte;
use crate::normal_text::is_normal;
use arrayvec::ArrayVec;
use bsc_check::Check;
use bsc_codes::{Closing, DLE, ENQ, ETB, ETX, MAX_TEXT, SYN};

/// Takes a byte in normal text.
pub(crate) fn at_normal(
    stage: &mut Stage,
    text: &mut ArrayVec<u8, MAX_TEXT>,
    check: &mut Check,
    byte: u8,
) -> Option<FrameKind>
    requires { IsCheckOf check.old text.old.items }
    ensures next { progress_of result stage.new text.new.items
        ≡ next (Text false text.old.items) byte }
    ensures runs { CheckRuns stage.new text.new.items check.new }
{
    if is_normal(byte) {
        keep(stage, text, check, false, byte);
        return None;
    }
    match byte {
        SYN => *stage = Stage::Text(false),
        ENQ => {
            *stage = Stage::Pads;
            return Some(kind_at_enq(false, text));
        }
        ETB => close(stage, text, check, false, Closing::Etb),
        ETX => close(stage, text, check, false, Closing::Etx),
        _ => *stage = Stage::BadText,
    }
    None
}

/// Takes a byte in transparent text.
pub(crate) fn at_transparent(
    stage: &mut Stage,
    text: &mut ArrayVec<u8, MAX_TEXT>,
    check: &mut Check,
    byte: u8,
)
    requires { IsCheckOf check.old text.old.items }
    ensures next { On (so_far_of stage.new text.new.items) ≡ next (Text true text.old.items) byte }
    ensures runs { CheckRuns stage.new text.new.items check.new }
{
    if byte == DLE {
        *stage = Stage::TextDle;
    } else {
        keep(stage, text, check, true, byte);
    }
}

/// Takes the byte after a DLE in transparent text.
pub(crate) fn at_text_dle(
    stage: &mut Stage,
    text: &mut ArrayVec<u8, MAX_TEXT>,
    check: &mut Check,
    byte: u8,
) -> Option<FrameKind>
    requires { IsCheckOf check.old text.old.items }
    ensures next { progress_of result stage.new text.new.items
        ≡ next (TextDle text.old.items) byte }
    ensures runs { CheckRuns stage.new text.new.items check.new }
{
    match byte {
        DLE => keep(stage, text, check, true, byte),
        SYN => *stage = Stage::Text(true),
        ENQ => {
            *stage = Stage::Pads;
            return Some(kind_at_enq(true, text));
        }
        ETB => close(stage, text, check, true, Closing::Etb),
        ETX => close(stage, text, check, true, Closing::Etx),
        _ => *stage = Stage::BadText,
    }
    None
}

/// Keeps one more data byte, where there is room for it.
fn keep(
    stage: &mut Stage,
    text: &mut ArrayVec<u8, MAX_TEXT>,
    check: &mut Check,
    transparent: bool,
    byte: u8,
)
    requires { IsCheckOf check.old text.old.items }
    ensures next { On (so_far_of stage.new text.new.items)
        ≡ with_byte transparent text.old.items byte }
    ensures runs { CheckRuns stage.new text.new.items check.new }
{
    if text.len() < MAX_TEXT {
        text.push(byte);
        check.add(byte);
        *stage = Stage::Text(transparent);
    } else {
        *stage = Stage::BadText;
    }
}

/// Which frame a text is that an ENQ ends.
fn kind_at_enq(transparent: bool, text: &ArrayVec<u8, MAX_TEXT>) -> FrameKind
    ensures { frame_of result text.now.items ≡ frame_of_enq transparent text.now.items }
{
    if transparent || !text.is_empty() {
        FrameKind::Abort
    } else {
        FrameKind::Ttd
    }
}

/// Closes a text.
fn close(
    stage: &mut Stage,
    text: &ArrayVec<u8, MAX_TEXT>,
    check: &mut Check,
    transparent: bool,
    closing: Closing,
)
    requires { IsCheckOf check.old text.now.items }
    ensures next { On (so_far_of stage.new text.now.items)
        ≡ closed transparent text.now.items closing }
    ensures runs { CheckRuns stage.new text.now.items check.new }
{
    check.add(closing_byte(closing));
    *stage = Stage::AwaitsCheck(transparent, closing);
}

/// Takes the second byte of a check.
pub(crate) fn at_second_check(
    stage: &mut Stage,
    text: &ArrayVec<u8, MAX_TEXT>,
    check: &Check,
    transparent: bool,
    closing: Closing,
    first: u8,
    byte: u8,
) -> Option<FrameKind>
    requires { IsCheckOf check.now (covered text.now.items closing) }
    ensures next { progress_of result stage.new text.now.items
        ≡ next (AwaitsSecondCheck (block_of transparent text.now.items closing) first) byte }
    ensures runs { CheckRuns stage.new text.now.items check.now }
{
    if check.bytes() == [first, byte] {
        *stage = Stage::Pads;
        Some(FrameKind::Block(transparent, closing))
    } else {
        *stage = Stage::BadText;
        None
    }
}

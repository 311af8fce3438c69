//! Bytes in front of a text: the synchronization pattern, control sequences, and bytes that belong to neither.
ghost use Rattle.std.specs.Prelude.{◌≡◌, ℕ, List};
ghost use Rattle.bsc_frame.specs.Inside.Listening.HeardSoFar.{next, Pads, OneSyn, Syns, Dle, On, is_pad as is_pad_of, after_no_sync as no_sync};
ghost use Rattle.bsc_frame.specs.Inside.Listening.Stage.{so_far_of, progress_of, CheckRuns};

use super::stage::Stage;
use crate::FrameKind;
use crate::frame::{ACK0, ACK1, LEADING_PAD, RVI, WACK};
use arrayvec::ArrayVec;
use bsc_check::Check;
use bsc_codes::{DLE, ENQ, EOT, MAX_TEXT, NAK, PAD, STX, SYN};

fn is_pad(byte: u8) -> bool
    ensures { result ≡ is_pad_of byte }
{
    byte == PAD || byte == LEADING_PAD
}

/// The stage after a byte in front of the first SYN.
pub(crate) fn after_pads(byte: u8) -> Stage
    ensures next { (text : List ℕ) → On (so_far_of result text) ≡ next Pads byte }
    ensures runs { (text : List ℕ) (check : ℕ) → CheckRuns result text check }
{
    if byte == SYN {
        Stage::OneSyn
    } else if is_pad(byte) {
        Stage::Pads
    } else {
        Stage::OnlyNoise
    }
}

/// The stage after a byte that follows the first SYN.
pub(crate) fn after_one_syn(byte: u8) -> Stage
    ensures next { (text : List ℕ) → On (so_far_of result text) ≡ next OneSyn byte }
    ensures runs { (text : List ℕ) (check : ℕ) → CheckRuns result text check }
{
    if byte == SYN {
        Stage::Syns
    } else {
        after_no_sync(byte)
    }
}

/// The stage after a byte that belongs to no synchronization pattern.
pub(crate) fn after_no_sync(byte: u8) -> Stage
    ensures next { (text : List ℕ) → On (so_far_of result text) ≡ no_sync byte }
    ensures runs { (text : List ℕ) (check : ℕ) → CheckRuns result text check }
{
    if is_pad(byte) || byte == SYN {
        Stage::OnlyPads
    } else {
        Stage::OnlyNoise
    }
}

/// Takes the first byte of a body, or one more SYN.
pub(crate) fn at_body(
    stage: &mut Stage,
    text: &mut ArrayVec<u8, MAX_TEXT>,
    check: &mut Check,
    byte: u8,
) -> Option<FrameKind>
    requires { CheckRuns stage.old text.old.items check.old }
    ensures next { progress_of result stage.new text.new.items ≡ next Syns byte }
    ensures runs { CheckRuns stage.new text.new.items check.new }
{
    match byte {
        SYN => *stage = Stage::Syns,
        STX => {
            text.clear();
            *check = Check::new();
            *stage = Stage::Text(false);
        }
        DLE => *stage = Stage::Dle,
        ENQ => return Some(FrameKind::Enq),
        NAK => return Some(FrameKind::Nak),
        EOT => return Some(FrameKind::Eot),
        _ => *stage = after_no_sync(byte),
    }
    None
}

/// Takes the byte after a DLE in a body's first place.
pub(crate) fn at_dle(
    stage: &mut Stage,
    text: &mut ArrayVec<u8, MAX_TEXT>,
    check: &mut Check,
    byte: u8,
) -> Option<FrameKind>
    requires { CheckRuns stage.old text.old.items check.old }
    ensures next { progress_of result stage.new text.new.items ≡ next Dle byte }
    ensures runs { CheckRuns stage.new text.new.items check.new }
{
    match byte {
        STX => {
            text.clear();
            *check = Check::new();
            *stage = Stage::Text(true);
        }
        ACK0 => return Some(FrameKind::Ack0),
        ACK1 => return Some(FrameKind::Ack1),
        WACK => return Some(FrameKind::Wack),
        RVI => return Some(FrameKind::Rvi),
        EOT => return Some(FrameKind::Eot),
        _ => *stage = Stage::OnlyNoise,
    }
    None
}

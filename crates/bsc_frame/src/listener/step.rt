//! One byte.
ghost use Rattle.std.specs.Prelude.{◌≡◌};
ghost use Rattle.bsc_frame.specs.Inside.Listening.HeardSoFar.{next};
ghost use Rattle.bsc_frame.specs.Inside.Listening.Stage.{so_far_of, progress_of, CheckRuns};

use super::stage::Stage;
use super::sync::{after_no_sync, after_one_syn, after_pads, at_body, at_dle};
use super::text::{at_normal, at_second_check, at_text_dle, at_transparent};
use crate::FrameKind;
use arrayvec::ArrayVec;
use bsc_check::Check;
use bsc_codes::MAX_TEXT;

/// Takes one byte: which frame it makes whole, or more has come.
pub(crate) fn step(
    stage: &mut Stage,
    text: &mut ArrayVec<u8, MAX_TEXT>,
    check: &mut Check,
    byte: u8,
) -> Option<FrameKind>
    requires { CheckRuns stage.old text.old.items check.old }
    ensures next { progress_of result stage.new text.new.items
        ≡ next (so_far_of stage.old text.old.items) byte }
    ensures runs { CheckRuns stage.new text.new.items check.new }
{
    match *stage {
        Stage::Pads => *stage = after_pads(byte),
        Stage::OneSyn => *stage = after_one_syn(byte),
        Stage::Syns => return at_body(stage, text, check, byte),
        Stage::Dle => return at_dle(stage, text, check, byte),
        Stage::Text(false) => return at_normal(stage, text, check, byte),
        Stage::Text(true) => at_transparent(stage, text, check, byte),
        Stage::TextDle => return at_text_dle(stage, text, check, byte),
        Stage::AwaitsCheck(transparent, closing) => {
            *stage = Stage::AwaitsSecondCheck(transparent, closing, byte);
        }
        Stage::AwaitsSecondCheck(transparent, closing, first) => {
            return at_second_check(stage, text, check, transparent, closing, first, byte);
        }
        Stage::BadText | Stage::OnlyNoise => {}
        Stage::OnlyPads => *stage = after_no_sync(byte),
    }
    None
}

//! The bytes of a piece, up to the last byte of a frame.
ghost use Rattle.std.specs.Prelude.{◌≡◌, ◌≤◌, false, length, drop, IfSome, IfNone};
ghost use Rattle.bsc_frame.specs.FrameKind.{frame_of, is_block};
ghost use Rattle.bsc_frame.specs.Inside.Listening.Run.{Waits, Hears, run};
ghost use Rattle.bsc_frame.specs.Inside.Listening.Stage.{so_far_of, CheckRuns};

use super::data::keep_data;
use super::stage::Stage;
use super::step::step;
use crate::FrameKind;
use arrayvec::ArrayVec;
use bsc_check::Check;
use bsc_codes::MAX_TEXT;

/// Takes bytes up to the last byte of a frame, or all of them where no frame becomes whole: how many, and which frame.
pub(crate) fn take_bytes(
    stage: &mut Stage,
    text: &mut ArrayVec<u8, MAX_TEXT>,
    check: &mut Check,
    piece: &[u8],
) -> (usize, Option<FrameKind>)
    requires { CheckRuns stage.old text.old.items check.old }
    ensures used { result.0 ≤ length piece.now }
    ensures frame { IfSome result.1 (λ kind. run (so_far_of stage.old text.old.items) piece.now
        ≡ Hears (frame_of kind text.new.items) (drop result.0 piece.now)) }
    ensures as_new { IfSome result.1 (λ kind. stage.new ≡ Stage.Pads) }
    ensures whole { IfNone result.1 (result.0 ≡ length piece.now) }
    ensures on { IfNone result.1 (run (so_far_of stage.old text.old.items) piece.now
        ≡ Waits (so_far_of stage.new text.new.items)) }
    ensures runs { CheckRuns stage.new text.new.items check.new }
{
    // Locals stay in registers from byte to byte.
    let mut now = *stage;
    let mut sum = *check;
    let mut used = 0;
    while used < piece.len() {
        let kept = keep_data(now, text, &mut sum, &piece[used..]);
        used += kept;
        if kept == 0 {
            let byte = piece[used];
            used += 1;
            if let Some(kind) = step(&mut now, text, &mut sum, byte) {
                *stage = Stage::Pads;
                return (used, Some(kind));
            }
        }
    }
    *stage = now;
    *check = sum;
    (piece.len(), None)
}

/// Puts the data bytes of a block into a room, in place of what it held. Another frame leaves the room as it is.
pub(crate) fn put_text(
    kind: FrameKind,
    text: &ArrayVec<u8, MAX_TEXT>,
    room: &mut ArrayVec<u8, MAX_TEXT>,
)
    ensures frame { frame_of kind room.new.items ≡ frame_of kind text.now.items }
    ensures kept { is_block kind ≡ false → room.new ≡ room.old }
{
    match kind {
        FrameKind::Enq
        | FrameKind::Ack0
        | FrameKind::Ack1
        | FrameKind::Nak
        | FrameKind::Wack
        | FrameKind::Rvi
        | FrameKind::Ttd
        | FrameKind::Abort
        | FrameKind::Eot => {}
        FrameKind::Block(..) => {
            room.clear();
            let Ok(()) = room.try_extend_from_slice(text.as_slice()) else {
                unreachable!()
            };
        }
    }
}

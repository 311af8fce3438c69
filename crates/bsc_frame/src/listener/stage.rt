//! What has come of a transmission.
ghost use Rattle.std.specs.Prelude.{◌≡◌, ◌≢◌, ℕ, List};
ghost use Rattle.bsc_frame.specs.Inside.Listening.HeardSoFar.{heard_at};
ghost use Rattle.bsc_frame.specs.Inside.Listening.Stage.{so_far_of};

use crate::{Frame, Heard};
use bsc_codes::Closing;

/// What has come of a transmission, except the data bytes.
#[derive(Clone, Copy)]
pub(crate) enum Stage {
    /// Pads, if anything.
    Pads,
    /// Pads and one SYN.
    OneSyn,
    /// Pads and two or more SYN.
    Syns,
    /// A DLE in a body's first place.
    Dle,
    /// The start of a text; whether it is transparent.
    Text(bool),
    /// A DLE in transparent text.
    TextDle,
    /// A block except its check: whether it is transparent, and what closed it.
    AwaitsCheck(bool, Closing),
    /// A block except the second byte of its check: as above, and the first byte.
    AwaitsSecondCheck(bool, Closing, u8),
    /// A text that can't become a frame.
    BadText,
    /// Pads and SYN that can't become a frame.
    OnlyPads,
    /// Other bytes that can't become a frame.
    OnlyNoise,
}

/// What was heard, where the line goes quiet at this stage.
pub(crate) fn heard_in(stage: Stage) -> Heard
    ensures heard { (text : List ℕ) → result ≡ heard_at (so_far_of stage text) }
    ensures never { (f : Frame) → result ≢ Heard.Frame f }
{
    match stage {
        Stage::Pads | Stage::OneSyn | Stage::Syns | Stage::OnlyPads => Heard::Quiet,
        Stage::Dle | Stage::OnlyNoise => Heard::Noise,
        Stage::Text(_)
        | Stage::TextDle
        | Stage::AwaitsCheck(..)
        | Stage::AwaitsSecondCheck(..)
        | Stage::BadText => Heard::Bad,
    }
}

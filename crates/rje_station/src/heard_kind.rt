//! What was heard, except a block's text.
ghost use Rattle.std.specs.Prelude.{◌≡◌, ◌≢◌, ℕ, List};
ghost use Rattle.bsc_frame.specs.FrameKind.{frame_of};
ghost use Rattle.rje_station.specs.Hearing.{sound_heard, sound_of_frame};
ghost use Rattle.rje_station.specs.Inside.Hearing.{heard_of};

use arrayvec::ArrayVec;
use bsc_codes::MAX_TEXT;
use bsc_frame::{Frame, FrameKind, Heard};
use bsc_link::Sound;

/// What was heard between two turnarounds of the line, except a block's text.
#[derive(Clone, Copy)]
pub(crate) enum HeardKind {
    Frame(FrameKind),
    Bad,
    Noise,
    Quiet,
}

impl HeardKind {
    /// What was heard without a frame.
    pub(crate) fn without_frame(heard: Heard) -> HeardKind
        requires never { (f : Frame) → heard ≢ Heard.Frame f }
        ensures { (text : List ℕ) → heard ≡ heard_of result text }
    {
        match heard {
            Heard::Frame(_) => unreachable!(),
            Heard::Bad => HeardKind::Bad,
            Heard::Noise => HeardKind::Noise,
            Heard::Quiet => HeardKind::Quiet,
        }
    }

    /// What was heard, as the link cores take it.
    pub(crate) fn sound(self) -> Sound
        ensures sound { (text : List ℕ) → result ≡ sound_heard (heard_of self text) }
    {
        match self {
            HeardKind::Frame(kind) => sound_of_kind(kind),
            HeardKind::Bad => Sound::Bad,
            HeardKind::Noise => Sound::Noise,
            HeardKind::Quiet => Sound::Quiet,
        }
    }

    /// What was heard; a block takes the text with it.
    pub(crate) fn into_heard(self, text: &mut ArrayVec<u8, MAX_TEXT>) -> Heard
        ensures heard { result ≡ heard_of self text.old.items }
    {
        match self {
            HeardKind::Frame(kind) => Heard::Frame(kind.into_frame(text)),
            HeardKind::Bad => Heard::Bad,
            HeardKind::Noise => Heard::Noise,
            HeardKind::Quiet => Heard::Quiet,
        }
    }
}

fn sound_of_kind(kind: FrameKind) -> Sound
    ensures { (text : List ℕ) → result ≡ sound_of_frame (frame_of kind text) }
{
    match kind {
        FrameKind::Enq => Sound::Enq,
        FrameKind::Ack0 => Sound::Ack0,
        FrameKind::Ack1 => Sound::Ack1,
        FrameKind::Nak => Sound::Nak,
        FrameKind::Wack => Sound::Wack,
        FrameKind::Rvi => Sound::Rvi,
        FrameKind::Ttd => Sound::Ttd,
        FrameKind::Abort => Sound::Abort,
        FrameKind::Eot => Sound::Eot,
        FrameKind::Block(..) => Sound::Block,
    }
}

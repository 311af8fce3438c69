//! The kind of what was heard.
ghost use Rattle.std.specs.Prelude.{◌≡◌};
ghost use Rattle.rje_station.specs.Hearing.{sound_of_frame as frame_sound, sound_heard};

use bsc_frame::{Frame, Heard};
use bsc_link::Sound;

/// What was heard, as the link cores take it.
pub(crate) fn sound_of(heard: &Heard) -> Sound
    ensures { result ≡ sound_heard heard.now }
{
    match heard {
        Heard::Frame(frame) => sound_of_frame(frame),
        Heard::Bad => Sound::Bad,
        Heard::Noise => Sound::Noise,
        Heard::Quiet => Sound::Quiet,
    }
}

fn sound_of_frame(frame: &Frame) -> Sound
    ensures { result ≡ frame_sound frame.now }
{
    match frame {
        Frame::Enq => Sound::Enq,
        Frame::Ack0 => Sound::Ack0,
        Frame::Ack1 => Sound::Ack1,
        Frame::Nak => Sound::Nak,
        Frame::Wack => Sound::Wack,
        Frame::Rvi => Sound::Rvi,
        Frame::Ttd => Sound::Ttd,
        Frame::Abort => Sound::Abort,
        Frame::Eot => Sound::Eot,
        Frame::Block(_) => Sound::Block,
    }
}

//! What both ends say, as sounds.
ghost use Rattle.std.specs.Prelude.{◌≡◌};
ghost use Rattle.bsc_history.specs.Fate.{sound_of, sound_of_reply};

use bsc_link::{Reply, Say, Sound};

/// What the sender says, as a sound: a bid and an inquiry are ENQ, a delay is TTD, the end is EOT.
pub fn sound_of(said: Say) -> Sound
    ensures { result ≡ sound_of said }
{
    match said {
        Say::Bid | Say::Ask => Sound::Enq,
        Say::Block | Say::Again => Sound::Block,
        Say::Delay => Sound::Ttd,
        Say::End => Sound::Eot,
        Say::Nothing => Sound::Quiet,
    }
}

/// What the receiver replies, as a sound.
pub fn sound_of_reply(reply: Option<Reply>) -> Sound
    ensures { result ≡ sound_of_reply reply }
{
    match reply {
        None => Sound::Quiet,
        Some(Reply::Ack0) => Sound::Ack0,
        Some(Reply::Ack1) => Sound::Ack1,
        Some(Reply::Nak) => Sound::Nak,
        Some(Reply::Wack) => Sound::Wack,
        Some(Reply::Rvi) => Sound::Rvi,
    }
}

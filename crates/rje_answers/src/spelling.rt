//! What a station is given, in bytes of the line.
ghost use Rattle.std.specs.Prelude.{◌≡◌, [], ◌∷◌};
ghost use Rattle.bsc_codes.specs.Bytes.{DLE as THE_DLE, STX as THE_STX, SYN as THE_SYN};
ghost use Rattle.bsc_frame.specs.Heard.{IsHeard};
ghost use Rattle.bsc_frame.specs.Written.{Written};
ghost use Rattle.rje_answers.specs.Spelling.{IsControl, Spells, frame_of as the_frame_of, heard_of};

use crate::{Given, Rest};
use arrayvec::ArrayVec;
use bsc_codes::{DLE, STX, SYN};
use bsc_frame::{Frame, MAX_TRANSMISSION, write_frame};
use bsc_link::Reply;

/// Writes the bytes by which a station hears what it is given, whatever the buffer held before.
pub(crate) fn spell(given: Given<Reply>, out: &mut ArrayVec<u8, MAX_TRANSMISSION>)
    ensures { Spells given out.new.items }
{
    match given {
        Given::Nothing => out.clear(),
        Given::Answer(reply) => put_frame(&frame_of(reply), out),
        Given::Bid => put_frame(&Frame::Enq, out),
        Given::End => put_frame(&Frame::Eot, out),
        Given::InVain(rest) => spell_rest(rest, out),
    }
}

/// Writes the bytes by which this is heard.
#[tactic(auto, using(crate::proofs::Spelled::nothing_is_quiet))]
fn spell_rest(rest: Rest, out: &mut ArrayVec<u8, MAX_TRANSMISSION>)
    ensures { IsHeard out.new.items (heard_of rest) }
{
    match rest {
        Rest::Quiet => out.clear(),
        Rest::Noise => put_noise(out),
        Rest::Bad => put_start_of_text(out),
    }
}

/// The frame of an answer.
fn frame_of(reply: Reply) -> Frame
    ensures { result ≡ the_frame_of reply }
{
    match reply {
        Reply::Ack0 => Frame::Ack0,
        Reply::Ack1 => Frame::Ack1,
        Reply::Nak => Frame::Nak,
        Reply::Wack => Frame::Wack,
        Reply::Rvi => Frame::Rvi,
    }
}

/// Writes a frame, where it is one that is written.
fn put_frame(frame: &Frame, out: &mut ArrayVec<u8, MAX_TRANSMISSION>)
    requires written { IsControl frame.now }
    ensures { Written frame.now out.new.items }
{
    let Ok(()) = write_frame(frame, out) else {
        unreachable!()
    };
}

/// Writes a byte that is no transmission.
fn put_noise(out: &mut ArrayVec<u8, MAX_TRANSMISSION>)
    ensures { out.new.items ≡ THE_DLE ∷ [] }
{
    out.clear();
    out.push(DLE);
}

/// Writes the start of a text, and no more of it.
fn put_start_of_text(out: &mut ArrayVec<u8, MAX_TRANSMISSION>)
    ensures { out.new.items ≡ THE_SYN ∷ THE_SYN ∷ THE_STX ∷ [] }
{
    out.clear();
    out.push(SYN);
    out.push(SYN);
    out.push(STX);
}

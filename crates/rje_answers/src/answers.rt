//! Hears what comes over a connection, in any pieces.
ghost use Rattle.std.specs.Prelude.{◌≡◌, ◌≤◌, [], length, take};
ghost use Rattle.bsc_frame.specs.Listener.{HasTaken};
ghost use Rattle.rje_answers.specs.Awaiting.{first_kept, given_at, has_answer, kept_after};
ghost use Rattle.rje_answers.specs.declared.link_event.LinkEvent.TheVariants.{Says};
ghost use Rattle.rje_answers.specs.Hearing.{GoesQuiet, Hears, Takes, event_in, rest_in};

use crate::awaiting::Awaiting;
use crate::taken::Taken;
use crate::{Given, LinkEvent, Rest, Said};
use bsc_frame::{Fed, Frame, Heard, Listener};
use bsc_link::Reply;
use std::marker::Model;

/// Hears what comes over a connection, and says what of it is given to the station, which awaits an answer. It takes no memory.
#[derive(Drop)]
pub struct Answers {
    listener: Listener,
    awaiting: Awaiting,
}

impl Model for Answers {
    ghost use Rattle.rje_answers.specs.Hearing.{HeardAndKept};

    ghost Value = { HeardAndKept };

    ghost view = { λ a. record {
      listener = a.listener;
      kept = a.awaiting;
    } };
}

impl Answers {
    /// Nothing was said and nothing has come. A secondary yields to a bid that crosses its own; a primary doesn't.
    pub fn new(gives_way: bool) -> Self
        ensures kept { result.kept ≡ first_kept gives_way }
        ensures listens { HasTaken result.listener [] }
    {
        Answers {
            listener: Listener::new(),
            awaiting: Awaiting::new(gives_way),
        }
    }

    /// This was said, and what came before it is no answer to it.
    pub fn say(&mut self, said: Said)
        ensures kept { self.new.kept ≡ kept_after (Says said) self.old.kept }
        ensures listens { HasTaken self.new.listener [] }
    {
        self.listener.reset();
        self.awaiting.meet(LinkEvent::Says(said));
    }

    /// Whether an answer is awaited.
    pub fn awaits(&self) -> bool
        ensures { result ≡ has_answer self.now.kept.said }
    {
        self.awaiting.awaits()
    }

    /// Whether EOT was said.
    pub fn has_ended(&self) -> bool
        ensures { result ≡ self.now.kept.has_ended }
    {
        self.awaiting.has_ended()
    }

    /// Whether an answer came after EOT was said: the answers were taken for those to something else.
    pub fn strayed(&self) -> bool
        ensures { result ≡ self.now.kept.strayed }
    {
        self.awaiting.strayed()
    }

    /// Takes bytes that came, up to the end of a frame, or all.
    fn take(&mut self, piece: &[u8]) -> Taken
        ensures used { result.used ≤ length piece.now }
        ensures takes { Takes self.old piece.now result self.new }
    {
        let Fed { used, frame } = self.listener.feed(piece);
        let given = match frame {
            Some(frame) => self.awaiting.meet(event_of(&frame)),
            None => Given::Nothing,
        };
        Taken { used, given }
    }

    /// Takes a piece that came, up to the end of the first frame that gives the station something, or all.
    pub fn hear(&mut self, piece: &[u8]) -> Given<Reply>
        ensures { Hears self.old piece.now result self.new }
    {
        let mut place = 0;
        while place < piece.len() {
            let (_, rest) = piece.split_at(place);
            let Taken { used, given } = self.take(rest);
            // No part is empty.
            if used == 0 {
                return given;
            }
            match given {
                Given::Nothing => place += used,
                _ => return given,
            }
        }
        Given::Nothing
    }

    /// A hearing in which no more came is over.
    pub fn quiet(&mut self) -> Given<Reply>
        ensures quiet { GoesQuiet self.old result self.new }
    {
        let heard = rest_of(&self.listener.quiet());
        self.awaiting.meet(LinkEvent::Vain(heard))
    }
}

/// What happens where this frame comes.
fn event_of(frame: &Frame) -> LinkEvent<Reply>
    ensures { result ≡ event_in frame.now }
{
    match frame {
        Frame::Enq => LinkEvent::Bid,
        Frame::Ack0 => LinkEvent::Answer(Reply::Ack0),
        Frame::Ack1 => LinkEvent::Answer(Reply::Ack1),
        Frame::Nak => LinkEvent::Answer(Reply::Nak),
        Frame::Wack => LinkEvent::Answer(Reply::Wack),
        Frame::Rvi => LinkEvent::Answer(Reply::Rvi),
        Frame::Eot => LinkEvent::End,
        Frame::Ttd | Frame::Abort | Frame::Block(_) => LinkEvent::Text,
    }
}

/// What was heard where no frame came.
fn rest_of(heard: &Heard) -> Rest
    ensures { result ≡ rest_in heard.now }
{
    match heard {
        Heard::Bad => Rest::Bad,
        Heard::Noise => Rest::Noise,
        Heard::Quiet | Heard::Frame(_) => Rest::Quiet,
    }
}

//! The receiver of one transmission. The bid, the parity of acknowledgements, NAK, WACK and the last reply again at an ENQ are those of
//! IBM GA27-3004. What it does with RVI and TTD, and that it is silent on noise, are this project's profile, and so (own).
//!
//! | Place | Sound | What follows |
//! |---|---|---|
//! | idle | Enq | in a transmission; WACK with wish Hold, else ACK0 |
//! | idle | Eot | ended, silent, `ended` true |
//! | idle | any other | silent, nothing changes |
//! | in a transmission | Block | accepted; with Hold WACK; with Turn and no RVI made before RVI; else the due ACK |
//! | same | Enq, last reply WACK | with Hold WACK, else the due ACK |
//! | same | Enq, another last reply | the last reply again |
//! | same | Bad, Ttd, Abort | NAK |
//! | same | Eot | ended, silent, `ended` true |
//! | same | Ack0, Ack1, Nak, Wack, Rvi, Noise, Quiet | silent, nothing changes |
//! | ended | any | silent, nothing changes |
//!
//! The due ACK is ACK0 where an even number of blocks was accepted and ACK1 where an odd number was, the new block included. Each
//! reply becomes the last reply. `quiet_long` goes to ended from every place.
ghost use Rattle.std.specs.Prelude.{◌≡◌};
ghost use Rattle.bsc_link.specs.Receiver.{silent, answered, accepted_with, ended_now, due_ack, line_when_idle};

use crate::{ReceiverNews, ReceiverPlace, Reply, Sound, Wish};
use std::marker::Model;

/// The receiver of one transmission, from the bid to the end.
#[derive(Clone, Copy, Debug, PartialEq, Eq)]
pub struct Receiver {
    place: ReceiverPlace,
    odd_accepted: bool,
    last_reply: Option<Reply>,
    rvi_made: bool,
}

impl Model for Receiver {
    ghost use Rattle.bsc_link.specs.Receiver.{ReceiverState};

    ghost Value = { ReceiverState };

    ghost view = { λ r. record {
      place = r.place;
      odd_accepted = r.odd_accepted;
      last_reply = r.last_reply;
      rvi_made = r.rvi_made;
    } };

    ghost inverse = { λ r. record {
      place = r.place;
      odd_accepted = r.odd_accepted;
      last_reply = r.last_reply;
      rvi_made = r.rvi_made;
    } };
}

impl Receiver {
    ghost use Rattle.bsc_link.specs.Receiver.{first_receiver_state, receiver_hears, receiver_news, line_at, line_in_transmission, reply_to_block, reply_to_enq, receiver_quiet_long};

    /// A receiver that waits for a bid.
    pub fn new() -> Self
        ensures { result ≡ first_receiver_state }
    {
        Receiver {
            place: ReceiverPlace::Idle,
            odd_accepted: false,
            last_reply: None,
            rvi_made: false,
        }
    }

    /// One hearing: what was heard, and what the operator asks for.
    pub fn hear(&mut self, sound: Sound, wish: Wish) -> ReceiverNews
        ensures state { self.new ≡ receiver_hears self.old sound wish }
        ensures news { result ≡ receiver_news self.old sound wish }
    {
        let (place, news) = self.line(sound, wish);
        self.place = place;
        if news.accepted {
            self.odd_accepted = !self.odd_accepted;
        }
        if news.reply.is_some() {
            self.last_reply = news.reply;
        }
        if news.reply == Some(Reply::Rvi) {
            self.rvi_made = true;
        }
        news
    }

    /// The sender was silent for long: the transmission ends.
    pub fn quiet_long(&mut self)
        ensures { self.new ≡ receiver_quiet_long self.old }
    {
        self.place = ReceiverPlace::Ended;
    }

    /// The line of the table for this state, sound and wish: the place after it, and the news.
    fn line(&self, sound: Sound, wish: Wish) -> (ReceiverPlace, ReceiverNews)
        ensures { result ≡ line_at self.now sound wish }
    {
        match self.place {
            ReceiverPlace::Idle => line_when_idle(sound, wish),
            ReceiverPlace::InTransmission => self.line_in_transmission(sound, wish),
            ReceiverPlace::Ended => (ReceiverPlace::Ended, silent()),
        }
    }

    /// A bid was heard before.
    fn line_in_transmission(&self, sound: Sound, wish: Wish) -> (ReceiverPlace, ReceiverNews)
        ensures { result ≡ line_in_transmission self.now sound wish }
    {
        match sound {
            Sound::Block => (
                ReceiverPlace::InTransmission,
                accepted_with(self.reply_to_block(wish)),
            ),
            Sound::Enq => (
                ReceiverPlace::InTransmission,
                answered(self.reply_to_enq(wish)),
            ),
            Sound::Bad | Sound::Ttd | Sound::Abort => {
                (ReceiverPlace::InTransmission, answered(Some(Reply::Nak)))
            }
            Sound::Eot => (ReceiverPlace::Ended, ended_now()),
            _ => (ReceiverPlace::InTransmission, silent()),
        }
    }

    /// The reply to a block that is accepted.
    fn reply_to_block(&self, wish: Wish) -> Reply
        ensures { result ≡ reply_to_block self.now wish }
    {
        match wish {
            Wish::Hold => Reply::Wack,
            Wish::Turn if !self.rvi_made => Reply::Rvi,
            _ => due_ack(!self.odd_accepted),
        }
    }

    /// The last reply again, but after a WACK the hold may be over.
    fn reply_to_enq(&self, wish: Wish) -> Option<Reply>
        ensures { result ≡ reply_to_enq self.now wish }
    {
        match self.last_reply {
            Some(Reply::Wack) if wish != Wish::Hold => Some(due_ack(self.odd_accepted)),
            last_reply => last_reply,
        }
    }
}

/// No bid was heard yet.
fn line_when_idle(sound: Sound, wish: Wish) -> (ReceiverPlace, ReceiverNews)
    ensures { result ≡ line_when_idle sound wish }
{
    match sound {
        Sound::Enq if wish == Wish::Hold => {
            (ReceiverPlace::InTransmission, answered(Some(Reply::Wack)))
        }
        Sound::Enq => (ReceiverPlace::InTransmission, answered(Some(Reply::Ack0))),
        Sound::Eot => (ReceiverPlace::Ended, ended_now()),
        _ => (ReceiverPlace::Idle, silent()),
    }
}

fn due_ack(odd_accepted: bool) -> Reply
    ensures { result ≡ due_ack odd_accepted }
{
    if odd_accepted {
        Reply::Ack1
    } else {
        Reply::Ack0
    }
}

fn silent() -> ReceiverNews
    ensures { result ≡ silent }
{
    answered(None)
}

fn answered(reply: Option<Reply>) -> ReceiverNews
    ensures { result ≡ answered reply }
{
    ReceiverNews {
        accepted: false,
        reply,
        ended: false,
    }
}

fn accepted_with(reply: Reply) -> ReceiverNews
    ensures { result ≡ accepted_with reply }
{
    ReceiverNews {
        accepted: true,
        reply: Some(reply),
        ended: false,
    }
}

fn ended_now() -> ReceiverNews
    ensures { result ≡ ended_now }
{
    ReceiverNews {
        accepted: false,
        reply: None,
        ended: true,
    }
}

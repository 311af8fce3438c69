//! The sender of one transmission. The bid, the parity of acknowledgements, NAK, WACK and the ENQ that asks for the last reply are
//! those of IBM GA27-3004. What RVI and TTD do, that a block is counted only at the ACK after a WACK, and when the sender gives up
//! are this project's profile, and so (own).
//!
//! | Place, last said | Sound | What follows |
//! |---|---|---|
//! | Bid | Ack0 | progress |
//! | Bid | Wack | holds + 1, Bid |
//! | Bid | Eot | Over, outcome Ended |
//! | Bid | any other | tries + 1, Bid |
//! | Block, said Block or Again | the right ACK | counted, progress |
//! | same | new Rvi | counted, RVI noted, progress |
//! | same | Nak | tries + 1, Again |
//! | same | Wack | holds + 1, Ask |
//! | same | Eot | Over, outcome Ended |
//! | same | any other (wrong ACK, old Rvi too) | tries + 1, Ask |
//! | Block, said Ask | the right ACK | counted, progress |
//! | same | new Rvi | counted, RVI noted, progress |
//! | same | Nak, the wrong ACK, old Rvi | tries + 1, Again |
//! | same | Wack | holds + 1, Ask |
//! | same | Eot | Over, outcome Ended |
//! | same | any other | tries + 1, Ask |
//! | Delay | Nak | holds + 1; Delay with pause, else Block |
//! | Delay | Wack | holds + 1, Delay |
//! | Delay | Eot | Over, outcome Ended |
//! | Delay | any other | tries + 1, Delay |
//! | End, Over | any | nothing changes |
//!
//! The right ACK is ACK1 for an outstanding block with an odd number and ACK0 for one with an even number. A new RVI is one heard in
//! place Block while none is noted, an old one is one heard there while one is (own).
//!
//! Progress sets tries and holds to 0. Then: Next Done goes to End with outcome Done; Next NewJob after a noted RVI goes to End with
//! outcome Turned; otherwise pause goes to Delay and no pause to a new Block.
//!
//! `yielded` sets tries and holds to 0 at Bid, and changes nothing elsewhere (own).
//!
//! Where a step would make tries 7 or holds 300, the sender goes to End with outcome GaveUp in place of what the line says (own).
ghost use Rattle.std.specs.Prelude.{◌≡◌};
ghost use Rattle.bsc_link.specs.Sender.{line_at_bid, line_at_block, line_at_ask, line_at_delay, place_after_progress};

use crate::{Next, Outcome, Say, SenderNews, SenderPlace, Sound, TableLine};
use std::marker::Model;

/// How many tries without progress make the sender give up.
const MAX_TRIES: u8 = 7;

/// How many holds without progress make the sender give up.
const MAX_HOLDS: u16 = 300;

/// The sender of one transmission, from the bid to the end.
#[derive(Clone, Copy, Debug, PartialEq, Eq)]
pub struct Sender {
    place: SenderPlace,
    odd_counted: bool,
    rvi_noted: bool,
    tries: u8,
    holds: u16,
}

impl Model for Sender {
    ghost use Rattle.std.specs.Prelude.{◌<◌};
    ghost use Rattle.bsc_link.specs.Sender.{SenderState};

    ghost Value = { SenderState };

    ghost view = { λ s. record {
      place = s.place;
      odd_counted = s.odd_counted;
      rvi_noted = s.rvi_noted;
      tries = s.tries;
      holds = s.holds;
    } };

    ghost invariant = { λ s. (s.tries < 7) × (s.holds < 300) };

    ghost inverse = { λ s. record {
      place = s.place;
      odd_counted = s.odd_counted;
      rvi_noted = s.rvi_noted;
      tries = s.tries;
      holds = s.holds;
    } };
}

impl Sender {
    ghost use Rattle.bsc_link.specs.Sender.{first_sender_state, say_in, outcome_in, sender_sent_end, sender_yielded, line_for, sender_hears, counts_block, after_progress, after_wait};

    /// A sender that is due to bid.
    pub fn new() -> Self
        ensures { result ≡ first_sender_state }
    {
        Sender {
            place: SenderPlace::Bid,
            odd_counted: false,
            rvi_noted: false,
            tries: 0,
            holds: 0,
        }
    }

    /// What is due.
    pub fn say(&self) -> Say
        ensures { result ≡ say_in self.now.place }
    {
        match self.place {
            SenderPlace::Bid => Say::Bid,
            SenderPlace::Block => Say::Block,
            SenderPlace::Again => Say::Again,
            SenderPlace::Ask => Say::Ask,
            SenderPlace::Delay => Say::Delay,
            SenderPlace::End(_) => Say::End,
            SenderPlace::Over(_) => Say::Nothing,
        }
    }

    /// How the transmission ends, once that is known.
    pub fn outcome(&self) -> Option<Outcome>
        ensures { result ≡ outcome_in self.now.place }
    {
        match self.place {
            SenderPlace::End(outcome) | SenderPlace::Over(outcome) => Some(outcome),
            _ => None,
        }
    }

    /// EOT was sent.
    pub fn sent_end(&mut self)
        ensures { self.new ≡ sender_sent_end self.old }
    {
        if let SenderPlace::End(outcome) = self.place {
            self.place = SenderPlace::Over(outcome);
        }
    }

    /// The sender gave way to the other station's bid: its own bid begins anew. Where it no longer bids nothing changes.
    pub fn yielded(&mut self)
        ensures { self.new ≡ sender_yielded self.old }
    {
        if self.place == SenderPlace::Bid {
            self.tries = 0;
            self.holds = 0;
        }
    }

    /// One hearing: what was heard, what follows the outstanding block, and whether the next block has to wait.
    pub fn hear(&mut self, sound: Sound, next: Next, pause: bool) -> SenderNews
        ensures state { self.new ≡ sender_hears self.old sound next pause }
        ensures counted { result.counted ≡ counts_block (line_for self.old sound pause) }
    {
        let line = self.line(sound, pause);
        match line {
            TableLine::Progress => self.progress(self.odd_counted, self.rvi_noted, next, pause),
            TableLine::Count => self.progress(!self.odd_counted, self.rvi_noted, next, pause),
            TableLine::CountByRvi => self.progress(!self.odd_counted, true, next, pause),
            TableLine::Try(place) => self.wait(place, self.tries + 1, self.holds),
            TableLine::Hold(place) => self.wait(place, self.tries, self.holds + 1),
            TableLine::HearsEot => self.place = SenderPlace::Over(Outcome::Ended),
            TableLine::NoChange => {}
        }
        SenderNews {
            counted: matches!(line, TableLine::Count | TableLine::CountByRvi),
        }
    }

    /// The line of the table for this state and sound.
    fn line(&self, sound: Sound, pause: bool) -> TableLine
        ensures { result ≡ line_for self.now sound pause }
    {
        match self.place {
            SenderPlace::Bid => line_at_bid(sound),
            SenderPlace::Block | SenderPlace::Again => {
                line_at_block(self.odd_counted, self.rvi_noted, sound)
            }
            SenderPlace::Ask => line_at_ask(self.odd_counted, self.rvi_noted, sound),
            SenderPlace::Delay => line_at_delay(pause, sound),
            SenderPlace::End(_) | SenderPlace::Over(_) => TableLine::NoChange,
        }
    }

    /// The bid was granted, or a block counted.
    fn progress(&mut self, odd_counted: bool, rvi_noted: bool, next: Next, pause: bool)
        ensures { self.new ≡ after_progress odd_counted rvi_noted next pause }
    {
        *self = Sender {
            place: place_after_progress(next, rvi_noted, pause),
            odd_counted,
            rvi_noted,
            tries: 0,
            holds: 0,
        };
    }

    /// A turn without progress: on with these counts, unless they reach a limit.
    fn wait(&mut self, place: SenderPlace, tries: u8, holds: u16)
        ensures { self.new ≡ after_wait self.old place tries holds }
    {
        if tries >= MAX_TRIES || holds >= MAX_HOLDS {
            self.place = SenderPlace::End(Outcome::GaveUp);
        } else {
            self.place = place;
            self.tries = tries;
            self.holds = holds;
        }
    }
}

/// A bid was said.
fn line_at_bid(sound: Sound) -> TableLine
    ensures { result ≡ line_at_bid sound }
{
    match sound {
        Sound::Ack0 => TableLine::Progress,
        Sound::Wack => TableLine::Hold(SenderPlace::Bid),
        Sound::Eot => TableLine::HearsEot,
        _ => TableLine::Try(SenderPlace::Bid),
    }
}

/// A block was said, for the first time or again. The right ACK is ACK0 where the blocks counted before it are odd in number.
fn line_at_block(odd_counted: bool, rvi_noted: bool, sound: Sound) -> TableLine
    ensures { result ≡ line_at_block odd_counted rvi_noted sound }
{
    match sound {
        Sound::Ack0 if odd_counted => TableLine::Count,
        Sound::Ack1 if !odd_counted => TableLine::Count,
        Sound::Rvi if !rvi_noted => TableLine::CountByRvi,
        Sound::Nak => TableLine::Try(SenderPlace::Again),
        Sound::Wack => TableLine::Hold(SenderPlace::Ask),
        Sound::Eot => TableLine::HearsEot,
        _ => TableLine::Try(SenderPlace::Ask),
    }
}

/// The last reply was asked for.
fn line_at_ask(odd_counted: bool, rvi_noted: bool, sound: Sound) -> TableLine
    ensures { result ≡ line_at_ask odd_counted rvi_noted sound }
{
    match sound {
        Sound::Ack0 if odd_counted => TableLine::Count,
        Sound::Ack1 if !odd_counted => TableLine::Count,
        Sound::Rvi if !rvi_noted => TableLine::CountByRvi,
        Sound::Nak | Sound::Ack0 | Sound::Ack1 | Sound::Rvi => TableLine::Try(SenderPlace::Again),
        Sound::Wack => TableLine::Hold(SenderPlace::Ask),
        Sound::Eot => TableLine::HearsEot,
        _ => TableLine::Try(SenderPlace::Ask),
    }
}

/// A TTD was said.
fn line_at_delay(pause: bool, sound: Sound) -> TableLine
    ensures { result ≡ line_at_delay pause sound }
{
    match sound {
        Sound::Nak if pause => TableLine::Hold(SenderPlace::Delay),
        Sound::Nak => TableLine::Hold(SenderPlace::Block),
        Sound::Wack => TableLine::Hold(SenderPlace::Delay),
        Sound::Eot => TableLine::HearsEot,
        _ => TableLine::Try(SenderPlace::Delay),
    }
}

/// Where progress leads.
fn place_after_progress(next: Next, rvi_noted: bool, pause: bool) -> SenderPlace
    ensures { result ≡ place_after_progress next rvi_noted pause }
{
    match next {
        Next::Done => SenderPlace::End(Outcome::Done),
        Next::NewJob if rvi_noted => SenderPlace::End(Outcome::Turned),
        _ if pause => SenderPlace::Delay,
        _ => SenderPlace::Block,
    }
}

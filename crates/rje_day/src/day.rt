//! The day of a station that stays on the line, transmission after transmission (own).
//!
//! What is next, the first line that fits:
//!
//! | Place | Where | What is next |
//! |---|---|---|
//! | Apart | drained; or its one connection is over | End |
//! | Apart | it is called | Listen |
//! | Apart | the time to call again has come; or it calls again after a connection that broke; or something may be sent, and the last attempt didn't fail | Call |
//! | Apart | else | Wait |
//! | Free | drained; or the line is wanted for another call; or patience is over | HangUp |
//! | Free | something may be sent, and it isn't the other end's turn | Bid |
//! | Free | else | Hear |
//! | Sending, Receiving | any | GoOn |
//!
//! What an event comes to:
//!
//! | Event | Place | What follows |
//! |---|---|---|
//! | Connected | Apart | Free; nothing has failed |
//! | NoConnection | Apart | the attempt failed |
//! | Quiet | Free, Sending, Receiving | one hearing of patience less; it isn't the other end's turn any more |
//! | Heard | Free, Sending, Receiving | a word was said; it isn't the other end's turn any more |
//! | OwnBegan | Free | Sending |
//! | OtherBegan | Free, Sending | Receiving; a word was said; it isn't the other end's turn any more |
//! | OwnEnded | Sending | Free; it is the other end's turn; a word was said if a job was counted or is in doubt; the attempt failed except after Done |
//! | OtherEnded | Receiving | Free; a word was said |
//! | Disconnected | Free, Sending, Receiving | Apart, as the day began; the attempt failed where no word was said or a transmission was in hand |
//!
//! In every other place nothing changes. A word said begins patience anew. A connection broke where it ended with a transmission in hand: after
//! the first that broke since a transmission ended well (OwnEnded with Done, OtherEnded) a station that calls calls again at once; and where its
//! own transmission was in hand, it is the other end's turn first on the next connection.
ghost use Rattle.std.specs.Prelude.{◌≡◌, ◌↔◌, true, false};

use crate::{DayEvent, DayPlace, Ended, Inputs, NextAction, Settings};
use std::marker::Model;

/// The day of a station that stays on the line.
#[derive(Debug, Drop)]
pub struct Day {
    settings: Settings,
    place: DayPlace,
    others_turn: bool,
    has_spoken: bool,
    patience: u32,
    failed: bool,
    served: bool,
    broke: bool,
    redials: bool,
}

impl Model for Day {
    ghost use Rattle.rje_day.specs.Day.{DayState};

    ghost Value = { DayState };

    ghost view = { λ d. record {
      settings = d.settings;
      place = d.place;
      others_turn = d.others_turn;
      has_spoken = d.has_spoken;
      patience = d.patience;
      failed = d.failed;
      served = d.served;
      broke = d.broke;
      redials = d.redials;
    } };
}

impl Day {
    ghost use Rattle.rje_day.specs.Day.{first_day_state, duty_of, duty_apart, duty_free, after, coming_of, can_come, with_word};
    ghost use Rattle.rje_day.specs.Duties.{MustBid, MustCall, seeks_connection, IsInHand, MustHangUp, MustEnd};

    /// A day that begins, with no connection.
    pub fn new(settings: Settings) -> Self
        ensures { result ≡ first_day_state settings }
    {
        Day {
            settings,
            place: DayPlace::Apart,
            others_turn: false,
            has_spoken: false,
            patience: settings.patience,
            failed: false,
            served: false,
            broke: false,
            redials: false,
        }
    }

    /// What is next, as things stand and by what is seen.
    pub fn next(&self, seen: Inputs) -> NextAction
        ensures exact { result ≡ duty_of self.now seen }
        ensures bids { (result ≡ NextAction.Bid) ↔ MustBid self.now seen }
        ensures calls { (result ≡ NextAction.Call) ↔ MustCall self.now seen }
        ensures one_connection { seeks_connection result ≡ true → self.now.place ≡ DayPlace.Apart }
        ensures goes_on { (result ≡ NextAction.GoOn) ↔ IsInHand self.now.place }
        ensures hangs_up { (result ≡ NextAction.HangUp) ↔ MustHangUp self.now seen }
        ensures ends { (result ≡ NextAction.End) ↔ MustEnd self.now seen }
    {
        match self.place {
            DayPlace::Apart => self.next_apart(seen),
            DayPlace::Free => self.next_free(seen),
            DayPlace::Sending | DayPlace::Receiving => NextAction::GoOn,
        }
    }

    /// Something happened. What can't happen where the station stands changes nothing.
    pub fn note(&mut self, event: DayEvent)
        ensures exact { self.new ≡ after event self.old }
        ensures stays { can_come event self.old.place ≡ false → self.new ≡ self.old }
    {
        match (event, self.place) {
            (DayEvent::Connected, DayPlace::Apart) => self.connected(),
            (DayEvent::NoConnection, DayPlace::Apart) => self.not_connected(),
            (DayEvent::OwnBegan, DayPlace::Free) => self.place = DayPlace::Sending,
            (DayEvent::OtherBegan, DayPlace::Free | DayPlace::Sending) => self.other_began(),
            (DayEvent::OwnEnded(how), DayPlace::Sending) => self.own_ended(how),
            (DayEvent::OtherEnded, DayPlace::Receiving) => self.other_ended(),
            (_, DayPlace::Apart) => {}
            (DayEvent::Quiet, _) => {
                self.others_turn = false;
                self.patience = self.patience.saturating_sub(1);
            }
            (DayEvent::Heard, _) => {
                self.others_turn = false;
                self.spoke();
            }
            (DayEvent::Disconnected, _) => self.disconnected(),
            _ => {}
        }
    }

    /// There is no connection.
    fn next_apart(&self, seen: Inputs) -> NextAction
        ensures { result ≡ duty_apart self.now seen }
    {
        let may_send = seen.ready && !seen.held;
        if seen.drained || (self.settings.once && self.served) {
            NextAction::End
        } else if !self.settings.calls {
            NextAction::Listen
        } else if seen.call_due || self.redials || (may_send && !self.failed) {
            NextAction::Call
        } else {
            NextAction::Wait
        }
    }

    /// There is a connection, and nothing is in hand.
    fn next_free(&self, seen: Inputs) -> NextAction
        ensures { result ≡ duty_free self.now seen }
    {
        let may_send = seen.ready && !seen.held;
        if seen.drained || seen.line_wanted || self.patience == 0 {
            NextAction::HangUp
        } else if may_send && !self.others_turn {
            NextAction::Bid
        } else {
            NextAction::Hear
        }
    }

    fn connected(&mut self)
        ensures { self.new ≡ coming_of DayEvent.Connected self.old }
    {
        self.place = DayPlace::Free;
        self.failed = false;
        self.redials = false;
    }

    fn not_connected(&mut self)
        ensures { self.new ≡ coming_of DayEvent.NoConnection self.old }
    {
        self.failed = true;
        self.redials = false;
    }

    /// The other end said a word: patience with it begins anew.
    fn spoke(&mut self)
        ensures { self.new ≡ with_word true self.old }
    {
        self.has_spoken = true;
        self.patience = self.settings.patience;
    }

    fn other_began(&mut self)
        ensures { self.new ≡ coming_of DayEvent.OtherBegan self.old }
    {
        self.place = DayPlace::Receiving;
        self.others_turn = false;
        self.spoke();
    }

    fn own_ended(&mut self, how: Ended)
        ensures { self.new ≡ coming_of (DayEvent.OwnEnded how) self.old }
    {
        self.place = DayPlace::Free;
        self.others_turn = true;
        if how.was_answered() {
            self.spoke();
        }
        self.failed = how != Ended::Done;
        self.broke = self.broke && how != Ended::Done;
    }

    fn other_ended(&mut self)
        ensures { self.new ≡ coming_of DayEvent.OtherEnded self.old }
    {
        self.place = DayPlace::Free;
        self.broke = false;
        self.spoke();
    }

    fn disconnected(&mut self)
        ensures { self.new ≡ coming_of DayEvent.Disconnected self.old }
    {
        let broke = self.place.is_in_hand();
        *self = Day {
            others_turn: self.place == DayPlace::Sending,
            failed: self.failed || !(self.has_spoken && self.place.is_free()),
            served: self.served || self.has_spoken,
            broke: self.broke || broke,
            redials: broke && !self.broke,
            ..Day::new(self.settings)
        };
    }
}

//! Contention: two stations that both have jobs, on a line that carries one transmission at a time (own; that a primary doesn't yield
//! and a secondary does is IBM GA27-3004).
//!
//! | Call | Place | What follows |
//! |---|---|---|
//! | `said_bid` | Free | the bid is noted |
//! | `granted` | Free | Sending |
//! | `hear_enq` | Free, no bid noted or Secondary | Receiving, note cleared, true |
//! | `hear_enq` | Free, Primary, bid noted | false |
//! | `hear_enq` | Receiving; Sending | true; false |
//! | `own_end` | Free, Sending | Free, note cleared |
//! | `other_end` | Receiving | Free |
//!
//! In every other place nothing changes.
ghost use Rattle.std.specs.Prelude.{◌≡◌};

use crate::{ContenderPlace, Rank};
use std::marker::Model;

/// One of two stations that both have jobs: whether it sends or receives, and whether its bid is out.
#[derive(Clone, Copy, Debug, PartialEq, Eq)]
pub struct Contender {
    rank: Rank,
    place: ContenderPlace,
    bid_noted: bool,
}

impl Model for Contender {
    ghost use Rattle.bsc_link.specs.Contender.{ContenderState};

    ghost Value = { ContenderState };

    ghost view = { λ c. record { rank = c.rank; place = c.place; bid_noted = c.bid_noted } };

    ghost inverse = { λ c. record { rank = c.rank; place = c.place; bid_noted = c.bid_noted } };
}

impl Contender {
    ghost use Rattle.bsc_link.specs.Contender.{first_contender_state, after_bid, after_grant, after_enq, takes_enq, after_own_end, after_other_end};

    /// A station that neither sends nor receives, and hasn't bid.
    pub fn new(rank: Rank) -> Self
        ensures { result ≡ first_contender_state rank }
    {
        Contender {
            rank,
            place: ContenderPlace::Free,
            bid_noted: false,
        }
    }

    /// Its rank.
    pub fn rank(&self) -> Rank
        ensures { result ≡ self.now.rank }
    {
        self.rank
    }

    /// Where it stands.
    pub fn place(&self) -> ContenderPlace
        ensures { result ≡ self.now.place }
    {
        self.place
    }

    /// A bid was said.
    pub fn said_bid(&mut self)
        ensures { self.new ≡ after_bid self.old }
    {
        if self.place == ContenderPlace::Free {
            self.bid_noted = true;
        }
    }

    /// The bid was granted.
    pub fn granted(&mut self)
        ensures { self.new ≡ after_grant self.old }
    {
        if self.place == ContenderPlace::Free {
            self.place = ContenderPlace::Sending;
        }
    }

    /// An ENQ of the other station was heard. Whether it is taken.
    pub fn hear_enq(&mut self) -> bool
        ensures state { self.new ≡ after_enq self.old }
        ensures taken { result ≡ takes_enq self.old }
    {
        match (self.place, self.rank, self.bid_noted) {
            (ContenderPlace::Receiving, _, _) => true,
            (ContenderPlace::Sending, _, _) | (ContenderPlace::Free, Rank::Primary, true) => false,
            (ContenderPlace::Free, _, _) => {
                self.place = ContenderPlace::Receiving;
                self.bid_noted = false;
                true
            }
        }
    }

    /// Its own transmission ended.
    pub fn own_end(&mut self)
        ensures { self.new ≡ after_own_end self.old }
    {
        if self.place != ContenderPlace::Receiving {
            self.place = ContenderPlace::Free;
            self.bid_noted = false;
        }
    }

    /// The other station's transmission ended.
    pub fn other_end(&mut self)
        ensures { self.new ≡ after_other_end self.old }
    {
        if self.place == ContenderPlace::Receiving {
            self.place = ContenderPlace::Free;
        }
    }
}

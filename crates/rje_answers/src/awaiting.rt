//! What an end of a connection keeps of what it said and of what came.
ghost use Rattle.std.specs.Prelude.{◌≡◌};
ghost use Rattle.rje_answers.specs.Awaiting.{first_kept, given_at, has_answer, kept_after};
ghost use Rattle.rje_answers.specs.Awaiting.{after_saying, after_answer, given_answer, after_bid, given_bid, after_end, given_end};
ghost use Rattle.rje_answers.specs.Awaiting.{after_last, after_vain, given_last, given_vain, hearings, louder, settled, takes_bid};

use crate::{Given, LinkEvent, Rest, Said};
use bsc_link::Reply;
use std::marker::Model;

/// How many hearings without one an answer is awaited for.
const MAX_VAIN: u8 = 2;

/// After a wait that brought nothing, how many hearings have to be quiet after an answer that counts: things are said two hearings apart, or three where a
/// secondary listens before it bids again, and their answers may come as far apart.
const MAX_QUIET: u8 = 4;

/// Awaits the answer to what was said last. The event table is in `specs/Awaiting.antt`.
#[derive(Drop)]
pub(crate) struct Awaiting {
    gives_way: bool,
    said: Said,
    is_late: bool,
    vain: u8,
    held: Option<Reply>,
    rest: Rest,
    has_ended: bool,
    strayed: bool,
}

impl Model for Awaiting {
    ghost use Rattle.std.specs.Prelude.{◌<◌};
    ghost use Rattle.bsc_link.specs.declared.reply.Reply.{Reply as Answer};
    ghost use Rattle.rje_answers.specs.Awaiting.{Kept};

    ghost Value = { Kept Answer };

    ghost view = { λ w. record {
      gives_way = w.gives_way;
      said = w.said;
      is_late = w.is_late;
      vain = w.vain;
      held = w.held;
      rest = w.rest;
      has_ended = w.has_ended;
      strayed = w.strayed;
    } };

    ghost invariant = { λ w. w.vain < 4 };
}

impl Awaiting {
    /// Nothing was said. A secondary yields to a bid that crosses its own; a primary doesn't.
    pub(crate) fn new(gives_way: bool) -> Self
        ensures { result ≡ first_kept gives_way }
    {
        Awaiting {
            gives_way,
            said: Said::Reply,
            is_late: false,
            vain: 0,
            held: None,
            rest: Rest::Quiet,
            has_ended: false,
            strayed: false,
        }
    }

    /// Whether an answer is awaited.
    pub(crate) fn awaits(&self) -> bool
        ensures { result ≡ has_answer self.now.said }
    {
        self.said.has_answer()
    }

    /// Whether EOT was said.
    pub(crate) fn has_ended(&self) -> bool
        ensures { result ≡ self.now.has_ended }
    {
        self.has_ended
    }

    /// Whether an answer came after EOT was said: the answers were taken for those to something else.
    pub(crate) fn strayed(&self) -> bool
        ensures { result ≡ self.now.strayed }
    {
        self.strayed
    }

    /// Something happens, and the station is given this.
    pub(crate) fn meet(&mut self, event: LinkEvent<Reply>) -> Given<Reply>
        ensures kept { self.new ≡ kept_after event self.old }
        ensures given { result ≡ given_at event self.old }
    {
        match event {
            LinkEvent::Says(said) => self.say(said),
            LinkEvent::Answer(answer) => self.hear_answer(answer),
            LinkEvent::Bid => self.hear_bid(),
            LinkEvent::End => self.hear_end(),
            LinkEvent::Text => Given::Nothing,
            LinkEvent::Vain(heard) => self.hear_nothing(heard),
        }
    }

    /// It says this.
    fn say(&mut self, said: Said) -> Given<Reply>
        ensures kept { self.new ≡ after_saying said self.old }
        ensures given { result ≡ Given.Nothing }
    {
        self.settle();
        self.said = said;
        self.has_ended = self.has_ended || said == Said::End;
        Given::Nothing
    }

    /// An answer comes.
    fn hear_answer(&mut self, answer: Reply) -> Given<Reply>
        ensures kept { self.new ≡ after_answer answer self.old }
        ensures given { result ≡ given_answer answer self.old }
    {
        if !self.awaits() {
            self.strayed = self.strayed || self.has_ended;
            return Given::Nothing;
        }
        if self.is_late {
            self.vain = 0;
            self.held = Some(answer);
            return Given::Nothing;
        }
        self.settle();
        Given::Answer(answer)
    }

    /// ENQ comes.
    fn hear_bid(&mut self) -> Given<Reply>
        ensures kept { self.new ≡ after_bid self.old }
        ensures given { result ≡ given_bid self.old }
    {
        if self.said == Said::Enquiry && self.gives_way {
            self.settle();
            Given::Bid
        } else {
            Given::Nothing
        }
    }

    /// EOT comes.
    fn hear_end(&mut self) -> Given<Reply>
        ensures kept { self.new ≡ after_end self.old }
        ensures given { result ≡ given_end self.old }
    {
        if self.awaits() {
            self.settle();
            Given::End
        } else {
            Given::Nothing
        }
    }

    /// A hearing in which no more than this came is over.
    fn hear_nothing(&mut self, heard: Rest) -> Given<Reply>
        ensures kept { self.new ≡ after_vain heard self.old }
        ensures given { result ≡ given_vain heard self.old }
    {
        if !self.awaits() {
            return Given::Nothing;
        }
        if self.vain + 1 < self.hearings() {
            self.vain += 1;
            self.rest = louder_of(heard, self.rest);
            return Given::Nothing;
        }
        self.wait_no_longer(heard)
    }

    /// The last hearing, in which no more than this came, is over.
    fn wait_no_longer(&mut self, heard: Rest) -> Given<Reply>
        ensures kept { self.new ≡ after_last self.old }
        ensures given { result ≡ given_last heard self.old }
    {
        let rest = louder_of(heard, self.rest);
        let held = self.held;
        self.settle();
        self.is_late = held.is_none();
        match held {
            Some(answer) => Given::Answer(answer),
            None => Given::InVain(rest),
        }
    }

    /// How many hearings without anything something more is awaited for.
    fn hearings(&self) -> u8
        ensures { result ≡ hearings self.now.held }
    {
        match self.held {
            None => MAX_VAIN,
            Some(_) => MAX_QUIET,
        }
    }

    /// No answer is awaited any more.
    fn settle(&mut self)
        ensures { self.new ≡ settled self.old }
    {
        self.said = Said::Reply;
        self.vain = 0;
        self.held = None;
        self.rest = Rest::Quiet;
    }
}

/// The last thing heard that says something.
fn louder_of(heard: Rest, before: Rest) -> Rest
    ensures { result ≡ louder heard before }
{
    match heard {
        Rest::Quiet => before,
        _ => heard,
    }
}

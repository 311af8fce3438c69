//! A transmission in hand, turn by turn.
ghost use Rattle.std.specs.Prelude.{◌≡◌, ◌≢◌, ◌⊎◌, ◌+◌, ◌++◌, ◌||◌, ◌&&◌, ◌==◌, true, false, if◌then◌else◌, min, List, Option, slice_get, IfOk, IfErr, IfSome, OnOk, OnErr};
ghost use Rattle.bsc_link.specs.declared.reply.Reply.{Reply as Answer};
ghost use Rattle.bsc_link.specs.declared.say.Say.{Say as Word};
ghost use Rattle.bsc_link.specs.declared.say.Say.TheVariants as say;
ghost use Rattle.rje_station.specs.Sending.{outcome_of};
ghost use Rattle.rje_station.specs.Station.{due_at, is_receiving, first_contending, HeardAnswer, after_answer, after_own_refusal};
ghost use Rattle.rje_station.specs.StationFault.{IsNewCause};
ghost use Rattle.rje_session.specs.Stations.{FailsInOwn, TakesOwn, TakesOthers};
ghost use Rattle.rje_session.specs.Stations.{HeardAndReplied, SpokeAndHeard};
ghost use Rattle.rje_session.specs.Account.{ended_of, ComesOf, UnlessSpoolFailed, IsAccounted, IsInStep, IsSettled, KeepsCut};
ghost use Rattle.rje_session.specs.Breaking.{breaks as broken_by, heard_end as is_ended, is_answer as has_answered, may_be_said as allows, is_word as says_word};
ghost use Rattle.rje_session.specs.Keeping.{AreKept, cutting, keeping, kept_with};
ghost use Rattle.rje_session.specs.Ledger.{Entry as Record, MayArrive, MayBeEntered};
ghost use Rattle.rje_session.specs.Turns.{Carried as Held, Notes, announcing, goes_out, is_of_block as speaks_of_block, settling, may_come_after, LeavesOwn, EntersLeavingOwn, LeavesOthers, EntersLeavingOthers};
ghost use Rattle.rje_session.specs.declared.connection_end.ConnectionEnd.TheVariants.{HungUp};

use crate::breaking::{breaks, heard_end, is_answer, is_word, may_be_said};
use crate::keeping::{keep_cut, keep_next};
use crate::leaving::Leaving;
use crate::outstanding::{counts_last, is_last};
use crate::settling::settle_rest;
use crate::{ConnectionEnd, Spool, Terms, turns};
use bsc_link::{Rank, Say, Sound};
use rje_day::{DayEvent, Disposition, Ended};
use rje_jobs::Job;
use rje_station::{Arrival, Line, Station, StationFault};
use std::alloc::Global;
use std::marker::Model;

/// After so many turns of a transmission in all it leaves the line.
pub const MAX_TURNS: u32 = 1_000_000_000;

/// A transmission in hand: its stations, which are new, and what is entered of their jobs.
#[derive(Drop)]
pub struct InHand<'a> {
    station: Station<'a>,
    // The record with which the outstanding block begins.
    from: usize,
    /// It is entered that the job after those that are counted may have arrived.
    may_have_come: bool,
    /// So many of the jobs that came are kept.
    kept: usize,
    /// Something that it said was answered.
    answered: bool,
    /// It broke: something that it said wasn't answered, or it gave up after its bid was granted.
    broken: bool,
    /// How the connection came to its end, where it did.
    parting: ConnectionEnd,
}

impl<'a> Model for InHand<'a> {
    ghost use Rattle.rje_session.specs.Turns.{Carried};

    ghost Value = { Carried };

    ghost use Rattle.rje_session.specs.InHand.{carried_in, IsInHand};

    ghost view = { carried_in };

    ghost invariant = { IsInHand };
}

impl<'a> InHand<'a> {
    /// A transmission that begins, with new stations for these jobs.
    pub fn new(alloc: Global, rank: Rank, jobs: &'a [Job]) -> Result<Self, StationFault>
        ensures new { IfOk result (λ c. c ≡ record {
          station = first_contending rank jobs.now;
          may_have_come = false;
          kept = 0;
          answered = false;
          broken = false;
        }) }
        ensures refused { IfErr result (λ fault. IsNewCause jobs.now fault) }
    {
        let station = Station::new(alloc, rank, jobs)?;
        Ok(InHand {
            station,
            from: 0,
            may_have_come: false,
            kept: 0,
            answered: false,
            broken: false,
            parting: ConnectionEnd::HungUp,
        })
    }

    /// Its stations.
    pub fn station(&self) -> &Station<'a>
        ensures { result.now ≡ self.now.station }
    {
        &self.station
    }

    /// Whether something that it said was answered.
    pub fn was_answered(&self) -> bool
        ensures { result ≡ self.now.answered }
    {
        self.answered
    }

    /// Whether it broke: something that it said wasn't answered, or it gave up after its bid was granted.
    pub fn has_broken(&self) -> bool
        ensures { result ≡ self.now.broken }
    {
        self.broken
    }

    /// How the connection came to its end, where it did: never as if nothing had been in hand where it broke.
    pub fn parting(&self) -> ConnectionEnd
        ensures broken { result ≡ HungUp → self.now.broken ≡ false }
    {
        match self.parting {
            ConnectionEnd::HungUp if self.broken => ConnectionEnd::Unanswered,
            parting => parting,
        }
    }

    /// Its own turn: it says what is due, and listens unless that is EOT. Before the last block of a job goes out it is entered that the job may
    /// arrive, and once that is counted, that it was sent. No block is transmitted once more in a transmission that broke. What was heard; quiet after EOT.
    pub(crate) fn take_own_turn<L: Line, S: Spool>(
        &mut self,
        line: &mut L,
        host: bool,
        spool: &mut S,
    ) -> Result<Sound, Leaving<S::Fault>>
        requires due { due_at self.old.station ≢ say.Nothing }
        requires allowed { allows self.old.broken (due_at self.old.station) ≡ true }
        ensures takes { IfOk result (λ heard. (said : Word)
            × TakesOwn self.old.station self.new.station said heard
            × SpokeAndHeard self.old.station.sender.rest (L.talk line.old, L.transmissions line.old)
            (L.talk line.new, L.transmissions line.new) said heard) }
        ensures entered { S.discloses → OnOk result (S.ledger spool.new
            ≡ settling self.old.station.sender.counted self.new.station.sender.counted
            ++ announcing self.old ++ S.ledger spool.old) }
        ensures may_have_come { OnOk result (self.new.may_have_come
            ≡ may_come_after self.old self.new.station) }
        ensures kept { self.new.kept ≡ self.old.kept }
        ensures notes { IfOk result (Notes host self.old self.new) }

        // The line or the spool failed.
        ensures left { IfErr result (LeavesOwn (line.new ≡ line.old) self.old self.new) }
        ensures left_entered { S.discloses → IfErr result (EntersLeavingOwn self.old self.new
            (S.ledger spool.old) (S.ledger spool.new)) }
    {
        let counted = self.station.sender().counted();
        let said = self.station.due();
        if let Err(fault) = self.announce(spool) {
            return Err(Leaving::Spool(fault));
        }
        let heard = self.speak_and_hear(line)?;
        self.note_turn(host, said, heard);
        if self.station.sender().counted() != counted {
            if let Err(fault) = spool.settle(counted, Disposition::Sent) {
                return Err(Leaving::Spool(fault));
            }
        }
        Ok(heard)
    }

    /// The other's turn: the station listens, keeps the job that came whole, and then replies where a reply is due. Where what came can't be held,
    /// or the job not be kept, it doesn't reply. What came.
    pub(crate) fn take_others_turn<L: Line, S: Spool>(
        &mut self,
        line: &mut L,
        spool: &mut S,
    ) -> Result<Arrival, Leaving<S::Fault>>
        ensures takes { IfOk result (λ arrival. (reply : Option Answer)
            × (takes : TakesOthers self.old.station self.new.station arrival reply)
            × HeardAndReplied takes.what (L.talk line.old, L.transmissions line.old)
            (L.talk line.new, L.transmissions line.new) reply) }
        ensures entered { S.discloses → OnOk result (S.ledger spool.new
            ≡ keeping (slice_get self.new.station.receiver.jobs self.old.kept)
            ++ S.ledger spool.old) }
        ensures kept { OnOk result (AreKept self.new.kept self.new.station.receiver.jobs) }
        ensures next { OnOk result (self.new.kept
            ≡ kept_with self.old.kept (slice_get self.new.station.receiver.jobs self.old.kept)) }
        ensures rest { self.new ≡ record self.old {
          station = self.new.station;
          kept = self.new.kept;
        } }

        // The line or the spool failed.
        ensures left { IfErr result (LeavesOthers
            (L.transmissions line.new ≡ L.transmissions line.old) self.old self.new) }
        ensures left_entered { S.discloses → IfErr result (EntersLeavingOthers
            (L.transmissions line.new ≡ L.transmissions line.old)
            (slice_get self.new.station.receiver.jobs self.old.kept)
            (S.ledger spool.old) (S.ledger spool.new)) }
    {
        let (arrival, _) = turns::hear_other(&mut self.station, line)?;
        if !spool.can_hold(&self.station) {
            self.station.other_ended();
            return Err(Leaving::TooMuch);
        }
        match keep_next(self.station.receiver().jobs(), self.kept, spool) {
            Ok(kept) => self.kept = kept,
            Err(fault) => {
                self.station.other_ended();
                return Err(Leaving::Spool(fault));
            }
        }
        turns::answer_other(&mut self.station, line)?;
        Ok(arrival)
    }

    /// Goes on with the transmission in hand until something comes of it that the day is told: the other end's transmission begins, which leaves
    /// its own in hand, or either ends, or the connection is over. Then what is left of its jobs is settled, and a job that was cut is kept.
    /// The other end's ends so by its EOT alone. The connection is over where the line failed, where the transmission broke (once it is over, or a
    /// block would be said again), after as many hearings in a row that brought no word as there is patience for, where the spool says so or can't
    /// hold what came, and after a billion turns.
    pub fn go_on<L: Line, S: Spool>(
        &mut self,
        line: &mut L,
        terms: Terms,
        spool: &mut S,
    ) -> Result<DayEvent, S::Fault>
        ensures accounted { S.discloses → IsInStep self.old (S.ledger spool.old)
            → IfOk result (λ event. IsAccounted event self.new (S.ledger spool.new)) }
        ensures comes { IfOk result (ComesOf self.old self.new) }
        ensures cut { S.discloses → IfOk result (λ event.
            KeepsCut event self.new (S.ledger spool.new)) }
        ensures jobs { OnOk result (self.new.station.sender.jobs
            ≡ self.old.station.sender.jobs) }
    {
        let event = match self.take_turns(line, terms, spool) {
            Ok(event) => event,
            Err(Leaving::Line(fault)) => {
                self.parting = ConnectionEnd::Failed(fault);
                DayEvent::Disconnected
            }
            Err(Leaving::TooMuch) => DayEvent::Disconnected,
            Err(Leaving::Spool(fault)) => return Err(fault),
        };
        if event != DayEvent::OtherBegan {
            self.finish(spool)?;
        }
        Ok(event)
    }

    /// Takes turns until something comes of them.
    fn take_turns<L: Line, S: Spool>(
        &mut self,
        line: &mut L,
        terms: Terms,
        spool: &mut S,
    ) -> Result<DayEvent, Leaving<S::Fault>>
        ensures in_step { S.discloses → IsInStep self.old (S.ledger spool.old)
            → OnOk result (IsInStep self.new (S.ledger spool.new)) }
        ensures comes { IfOk result (ComesOf self.old self.new) }
        ensures left { S.discloses → IsInStep self.old (S.ledger spool.old)
            → IfErr result (λ leaving.
            UnlessSpoolFailed leaving (IsInStep self.new (S.ledger spool.new))) }
        ensures jobs { OnOk result (self.new.station.sender.jobs
            ≡ self.old.station.sender.jobs) }
        ensures left_jobs { IfErr result (λ leaving. UnlessSpoolFailed leaving
            (self.new.station.sender.jobs ≡ self.old.station.sender.jobs)) }
    {
        let was_receiving = self.station.is_receiving();
        let at_once = self.station.rank() == Rank::Primary;
        let mut has_listened = at_once;
        let mut quiet: u32 = 0;
        for _ in 0..MAX_TURNS {
            if !self.show(spool) {
                return Ok(DayEvent::Disconnected);
            }
            if let Some(event) = self.came_of_it(was_receiving) {
                return Ok(event);
            }
            if turns::is_own_turn(self.station(), has_listened) {
                self.take_own_turn(line, terms.host, spool)?;
                has_listened = at_once;
                continue;
            }
            let arrival = self.take_others_turn(line, spool)?;
            has_listened = true;
            quiet = turns::quiet_after(quiet, !is_word(arrival.sound));
            if was_receiving && quiet > 0 && quiet >= terms.patience {
                self.station.other_ended();
                self.parting = ConnectionEnd::Silent;
                return Ok(DayEvent::Disconnected);
            }
        }
        Ok(DayEvent::Disconnected)
    }

    /// Lets the spool look on. Whether the transmission goes on.
    fn show<S: Spool>(&self, spool: &mut S) -> bool
        ensures { S.discloses → S.ledger spool.new ≡ S.ledger spool.old }
    {
        spool.look_on(&self.station)
    }

    /// What came of the turns so far, if anything.
    fn came_of_it(&self, was_receiving: bool) -> Option<DayEvent>
        ensures comes { (before : Held)
            → was_receiving ≡ is_receiving before.station.contender.place
            → IfSome result (ComesOf before self.now) }
        // The connection is left only where the transmission broke, or where the other end's was over before its EOT.
        ensures left { result ≡ Some DayEvent.Disconnected → (self.now.broken ≡ true)
            ⊎ (is_ended self.now.station.receiver.arrival ≡ false) }
        ensures allowed { result ≡ None → allows self.now.broken (due_at self.now.station)
            ≡ true }
    {
        if !may_be_said(self.broken, self.station.due()) {
            return Some(DayEvent::Disconnected);
        }
        match (was_receiving, self.station.is_receiving()) {
            (true, true) => None,
            (true, false) if self.broken || !self.heard_end() => Some(DayEvent::Disconnected),
            (true, false) => Some(DayEvent::OtherEnded),
            (false, true) => Some(DayEvent::OtherBegan),
            (false, false) if self.station.due() != Say::Nothing => None,
            (false, false) if self.broken => Some(DayEvent::Disconnected),
            (false, false) => Some(DayEvent::OwnEnded(self.ended())),
        }
    }

    /// Whether EOT was what came last.
    fn heard_end(&self) -> bool
        ensures { result ≡ is_ended self.now.station.receiver.arrival }
    {
        heard_end(self.station.receiver().arrival())
    }

    /// Notes a turn of its own, in which this was said and heard.
    fn note_turn(&mut self, host: bool, said: Say, heard: Sound)
        ensures { self.new ≡ record self.old {
          answered = self.old.answered || has_answered said heard;
          broken = self.old.broken || broken_by host said heard
              (outcome_of self.old.station.sender);
        } }
    {
        let outcome = self.station.sender().outcome();
        self.answered = self.answered || is_answer(said, heard);
        self.broken = self.broken || breaks(host, said, heard, outcome);
    }

    /// How its own transmission ended.
    pub(crate) fn ended(&self) -> Ended
        ensures { result ≡ ended_of self.now }
    {
        let sender = self.station.sender();
        let counted = sender.counted();
        if counted >= sender.jobs().len() {
            Ended::Done
        } else if self.may_have_come {
            Ended::InDoubt { counted }
        } else {
            Ended::Early { counted }
        }
    }

    /// Settles what is left of its jobs, and keeps a job that was cut.
    fn finish<S: Spool>(&self, spool: &mut S) -> Result<(), S::Fault>
        ensures settled { S.discloses → IsInStep self.now (S.ledger spool.old)
            → OnOk result (IsSettled self.now (S.ledger spool.new)) }
        ensures cut { S.discloses → OnOk result ((past : List Record)
            × (S.ledger spool.new ≡ cutting (slice_get self.now.station.receiver.jobs
            self.now.kept) ++ past)) }
    {
        let sender = self.station.sender();
        let counted = sender.counted();
        let given = sender.jobs().len();
        if counted < given {
            settle_rest(self.ended(), counted, given, spool)?;
        }
        keep_cut(self.station.receiver().jobs(), self.kept, spool)
    }

    /// Enters that a job may arrive, where its last block goes out next for the first time.
    fn announce<S: Spool>(&mut self, spool: &mut S) -> Result<(), S::Fault>
        ensures entered { S.discloses → OnOk result (S.ledger spool.new
            ≡ announcing self.old ++ S.ledger spool.old) }
        ensures out { OnOk result (self.new
            ≡ record self.old { may_have_come = self.old.may_have_come || goes_out self.old }) }
        ensures same { OnErr result (self.new ≡ self.old) }
        ensures failed { S.discloses → OnErr result (MayBeEntered
            (MayArrive self.old.station.sender.counted) (S.ledger spool.old)
            (S.ledger spool.new)) }
    {
        if self.may_have_come || !is_of_block(self.station.due()) {
            return Ok(());
        }
        if is_last(self.station.sender(), self.from) {
            spool.goes_out(self.station.sender().counted())?;
            self.may_have_come = true;
        }
        Ok(())
    }

    /// Takes a turn of its own at the line, and notes which block is outstanding then. What was heard; quiet after EOT.
    fn speak_and_hear<L: Line>(&mut self, line: &mut L) -> Result<Sound, StationFault>
        requires due { due_at self.old.station ≢ say.Nothing }
        ensures takes { IfOk result (λ heard. (said : Word)
            × TakesOwn self.old.station self.new.station said heard
            × SpokeAndHeard self.old.station.sender.rest (L.talk line.old, L.transmissions line.old)
            (L.talk line.new, L.transmissions line.new) said heard) }
        ensures counted { self.new.may_have_come ≡ (self.old.may_have_come
            && (self.old.station.sender.counted == self.new.station.sender.counted)) }
        ensures rest { self.new ≡ record self.old {
          station = self.new.station;
          may_have_come = self.new.may_have_come;
        } }
        ensures fault { IfErr result (FailsInOwn self.old.station self.new.station) }
    {
        let counted = self.station.sender().counted();
        let next = self.station.sender().next_record();
        let (_, heard) = turns::take_own_turn(&mut self.station, line)?;
        let sender = self.station.sender();
        if sender.counted() != counted {
            self.from = 0;
            self.may_have_come = false;
        } else if counts_last(sender.trace()) {
            self.from = next;
        }
        Ok(heard)
    }
}

/// Whether the outstanding block is said, or asked about.
fn is_of_block(say: Say) -> bool
    ensures { result ≡ speaks_of_block say }
{
    matches!(say, Say::Block | Say::Again | Say::Ask)
}

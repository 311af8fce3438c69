//! The sending station.
ghost use Rattle.std.specs.Prelude.{◌≡◌, ◌≢◌, [], ◌++◌, ◌∷◌, false, drop, IfOk, IfErr, OnOk};
ghost use Rattle.std.specs.List.{AllByRecursion};
ghost use Rattle.bsc_link.specs.Sender.{say_in, sender_yielded};
ghost use Rattle.rje_jobs.specs.Fitting.{JobFits};
ghost use Rattle.rje_station.specs.Hearing.{HearsSound, Babbling};
ghost use Rattle.rje_station.specs.Line.{Passes, Ages, MayNotHear, MayNotSend, Fails, one_more};
ghost use Rattle.rje_station.specs.Sending.{first_sending, after_speaking, after_hearing, after_fault, after_refusal, Spoke, IsWrittenOf, outcome_of, next_for, counted_events, first_length, GoesOnAt};
ghost use Rattle.rje_station.specs.Station.{due_in};
ghost use Rattle.rje_station.specs.StationFault.{IsCause, IsNewCause, IfLine, IfOver};
ghost use Rattle.rje_station.specs.Trace.{last_events};
ghost use Rattle.rje_station.specs.declared.event.Event.TheVariants as event;

pub(crate) mod first_unfit;
mod uncounted;

use crate::frame_reader::FrameReader;
use crate::hear_fault::HearFault;
use crate::writing::{Transmission, write};
use crate::{Event, Line, StationFault, Trace};
use bsc_frame::Frame;
use bsc_link::{Next, Outcome, Say, Sender, Sound};
use first_unfit::first_unfit;
use rje_jobs::Job;
use std::alloc::Global;
use std::marker::Model;
use uncounted::Uncounted;

/// The station that sends the jobs of one transmission, which it borrows.
#[derive(Drop)]
pub struct SendingStation<'a> {
    blocks: Uncounted<'a>,
    core: Sender,
    ear: FrameReader,
    over: bool,
    trace: Trace,
    // Where what is sent is written.
    out: Transmission,
}

impl<'a> Model for SendingStation<'a> {
    ghost use Rattle.rje_station.specs.Sending.{Sending};

    ghost Value = { Sending };

    ghost use Rattle.rje_station.specs.Inside.Sending.{sending_in, IsSending};

    ghost view = { sending_in };

    ghost invariant = { IsSending };
}

impl<'a> SendingStation<'a> {
    /// A station for these jobs. With no jobs it is over at once. Takes memory for its trace alone.
    pub fn new(alloc: Global, jobs: &'a [Job]) -> Result<Self, StationFault>
        ensures ready { IfOk result (λ s. s ≡ first_sending jobs.now) }
        ensures fit { OnOk result (AllByRecursion JobFits jobs.now) }

        // A job that can't be sent is reported, the first by its number, and out of memory only where all jobs can be sent.
        ensures refused { IfErr result (λ fault. IsNewCause jobs.now fault) }
    {
        if let Some(number) = first_unfit(jobs) {
            return Err(StationFault::BadJob(number));
        }
        let trace = Trace::new(alloc)?;
        Ok(SendingStation {
            blocks: Uncounted::new(jobs),
            core: Sender::new(),
            ear: FrameReader::new(),
            over: jobs.is_empty(),
            trace,
            out: Transmission::new(),
        })
    }

    /// The jobs of the transmission, each of which can be sent.
    pub fn jobs(&self) -> &'a [Job]
        ensures jobs { result.now ≡ self.now.jobs }
        ensures fit { AllByRecursion JobFits self.now.jobs }
    {
        self.blocks.jobs()
    }

    /// How many jobs are counted: those whose last block is.
    pub fn counted(&self) -> usize
        ensures { result ≡ self.now.counted }
    {
        self.blocks.counted()
    }

    /// The bytes of the outstanding block's text; 0 where every block is counted.
    pub fn outstanding_length(&self) -> usize
        ensures { result ≡ first_length self.now.rest }
    {
        self.blocks.length()
    }

    /// The record after the outstanding block, one of its job's or their number: so many records it and the blocks before it have.
    pub fn next_record(&self) -> usize
        ensures { GoesOnAt self.now.rest (drop self.now.counted self.now.jobs) result }
    {
        self.blocks.place()
    }

    /// How the transmission ends, once that is known. With no jobs it is done.
    pub fn outcome(&self) -> Option<Outcome>
        ensures { result ≡ outcome_of self.now }
    {
        if self.blocks.has_no_jobs() {
            Some(Outcome::Done)
        } else {
            self.core.outcome()
        }
    }

    /// The last events.
    pub fn trace(&self) -> &Trace
        ensures { result.now ≡ self.now.trace }
    {
        &self.trace
    }

    /// What is due; nothing where the station is over.
    pub(crate) fn due(&self) -> Say
        ensures { result ≡ due_in self.now }
    {
        if self.over {
            Say::Nothing
        } else {
            self.core.say()
        }
    }

    /// It gave way to another station's bid: its own bid begins anew.
    pub(crate) fn yielded(&mut self)
        ensures { self.new ≡ record self.old { core = sender_yielded self.old.core } }
    {
        self.core.yielded();
    }

    /// Sends what is due, and the same again where it is called twice. After EOT the station is over.
    pub fn speak<L: Line>(&mut self, line: &mut L) -> Result<Say, StationFault>
        ensures said { IfOk result (λ say. say ≡ say_in self.old.core.place) }
        ensures sent { OnOk result (Passes (L.talk line.old) (L.talk line.new)
            (Spoke (say_in self.old.core.place) self.old.rest)) }
        ensures state { OnOk result (self.new ≡ after_speaking self.old) }
        ensures live { OnOk result (self.old.over ≡ false) }
        ensures once { OnOk result (L.transmissions line.new
            ≡ one_more (L.transmissions line.old)) }
        ensures ages { Ages (L.may_fail line.old) (L.may_fail line.new) }

        // The line failed, or the station was over before; it is over then, and jobs and counts stay.
        ensures cause { IfErr result (λ fault.
            IsCause (Fails (MayNotSend (L.may_fail line.old)) (L.failures line.old)
            (L.failures line.new) (L.last_fault line.new)) ⊥ self.old.over fault) }
        ensures kept { IfErr result (λ fault. self.new ≡ after_refusal fault self.old) }
        ensures tried { IfErr result (λ fault.
            IfLine fault (L.transmissions line.new ≡ one_more (L.transmissions line.old))) }
        ensures untouched { IfErr result (λ fault. IfOver fault (line.new ≡ line.old)) }
    {
        if self.over {
            return Err(StationFault::Over);
        }
        let say = self.core.say();
        write_due(say, &self.blocks, &mut self.out);
        if let Err(fault) = line.transmit(self.out.as_slice()) {
            self.fail();
            return Err(StationFault::Line(fault));
        }
        self.spoke(say);
        Ok(say)
    }

    /// Listens, and takes one step. With `pause` the next block has to wait.
    pub fn hear<L: Line>(&mut self, line: &mut L, pause: bool) -> Result<Sound, StationFault>
        ensures heard { IfOk result (λ sound.
            Passes (L.talk line.old) (L.talk line.new) (λ t u. HearsSound t u sound)) }
        ensures state { IfOk result (λ sound. self.new ≡ after_hearing self.old sound pause) }
        ensures live { OnOk result (self.old.over ≡ false) }
        ensures none { L.transmissions line.new ≡ L.transmissions line.old }
        ensures ages { Ages (L.may_fail line.old) (L.may_fail line.new) }

        // The line failed or babbled, or the station was over before; it is over then, and jobs and counts stay.
        ensures cause { IfErr result (λ fault.
            IsCause (Fails (MayNotHear (L.may_fail line.old)) (L.failures line.old)
            (L.failures line.new) (L.last_fault line.new))
            (Passes (L.talk line.old) (L.talk line.new) Babbling) self.old.over fault) }
        ensures kept { IfErr result (λ fault. self.new ≡ after_refusal fault self.old) }
        ensures untouched { IfErr result (λ fault. IfOver fault (line.new ≡ line.old)) }
    {
        if self.over {
            return Err(StationFault::Over);
        }
        match self.ear.hear(line) {
            Ok(heard) => {
                let sound = heard.sound();
                self.step(sound, pause);
                Ok(sound)
            }
            Err(HearFault::Lost(fault)) => {
                self.fail();
                Err(StationFault::Line(fault))
            }
            Err(HearFault::Babble) => {
                self.fail();
                Err(StationFault::Babble)
            }
        }
    }

    /// What was due was sent.
    fn spoke(&mut self, say: Say)
        requires live { self.old.over ≡ false }
        requires due { say ≡ say_in self.old.core.place }
        ensures { self.new ≡ after_speaking self.old }
    {
        self.trace.note(Event::Said(say));
        if say == Say::End {
            self.core.sent_end();
            self.over = true;
        }
    }

    /// A sound was heard.
    fn step(&mut self, sound: Sound, pause: bool)
        requires live { self.old.over ≡ false }
        ensures { self.new ≡ after_hearing self.old sound pause }
    {
        let next = self.next();
        let counted = self.core.hear(sound, next, pause).counted;
        note_heard(&mut self.trace, sound, counted);
        self.blocks.count(counted);
        self.over = is_done(self.core.say());
    }

    /// What the core is given of what follows: before the first block comes a new job.
    fn next(&self) -> Next
        ensures { result ≡ next_for (say_in self.now.core.place) self.now.rest }
    {
        match self.core.say() {
            Say::Bid => Next::NewJob,
            _ => self.blocks.next(),
        }
    }

    /// The line failed.
    fn fail(&mut self)
        ensures { self.new ≡ after_fault self.old }
    {
        self.over = true;
        self.trace.note(Event::Over);
    }
}

/// Writes the transmission of what is due.
fn write_due(say: Say, blocks: &Uncounted<'_>, out: &mut Transmission)
    requires live { say ≢ Say.Nothing }
    requires some { blocks.now.rest ≡ [] → say ≡ Say.End }
    ensures { IsWrittenOf say blocks.now.rest out.new.items }
{
    match say {
        Say::Bid | Say::Ask => write(&Frame::Enq, out),
        Say::Delay => write(&Frame::Ttd, out),
        Say::End => write(&Frame::Eot, out),
        Say::Block | Say::Again => blocks.write(out),
        Say::Nothing => unreachable!(),
    }
}

/// Notes a hearing.
fn note_heard(trace: &mut Trace, sound: Sound, counted: bool)
    ensures { trace.new ≡ last_events (trace.old ++ event.Heard sound ∷ counted_events counted) }
{
    trace.note(Event::Heard(sound));
    if counted {
        trace.note(Event::Counted);
    }
}

ghost use Rattle.rje_station.specs.Sending.{is_done as done};

fn is_done(say: Say) -> bool
    ensures { result ≡ done say }
{
    matches!(say, Say::Nothing)
}

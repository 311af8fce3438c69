//! The station that sends and receives.
ghost use Rattle.std.specs.Prelude.{◌≡◌, false, IfOk, IfErr, OnOk};
ghost use Rattle.std.specs.List.{AllByRecursion};
ghost use Rattle.bsc_link.specs.declared.say.Say.TheVariants as said;
ghost use Rattle.bsc_link.specs.declared.sound.Sound.TheVariants as heard;
ghost use Rattle.rje_jobs.specs.Fitting.{JobFits};
ghost use Rattle.rje_station.specs.Hearing.{HearsSound, Hearing, Babbling};
ghost use Rattle.rje_station.specs.Line.{Passes, Ages, MayNotHear, MayNotSend, Fails, one_more};
ghost use Rattle.rje_station.specs.Receiving.{Replied, with_reply};
ghost use Rattle.rje_station.specs.Station.{first_contending, due_at, is_receiving, after_own_speaking, SpokeDue, with_said, IfSilent, HeardAnswer, after_answer, after_own_refusal, HeardOther, after_own_reply, after_other_refusal, after_other_ended, after_note, is_deaf, lets_in, contender_said, contender_answered, contender_hears};
ghost use Rattle.rje_station.specs.StationFault.{IsCause, IsNewCause, IfLine, IfOver};

use crate::sound_heard::sound_of;
use crate::{Line, ReceivingStation, SendingStation, StationFault};
use bsc_frame::Heard;
use bsc_link::{Contender, ContenderPlace, Rank, Reply, Say, Sound, Wish};
use rje_jobs::Job;
use std::alloc::Global;
use std::marker::Model;

/// One of two stations on a line that both have jobs: it sends its own in one transmission, and receives those of the other station in
/// another.
#[derive(Drop)]
pub struct Station<'a> {
    sender: SendingStation<'a>,
    receiver: ReceivingStation,
    contender: Contender,
    failed: bool,
}

impl<'a> Model for Station<'a> {
    ghost use Rattle.rje_station.specs.Station.{Contending};

    ghost Value = { Contending };

    ghost view = { λ s. record {
      sender = s.sender;
      receiver = s.receiver;
      contender = s.contender;
      failed = s.failed;
    } };
}

impl<'a> Station<'a> {
    /// A station for these jobs. Takes memory for its two traces alone.
    pub fn new(alloc: Global, rank: Rank, jobs: &'a [Job]) -> Result<Self, StationFault>
        ensures ready { IfOk result (λ s. s ≡ first_contending rank jobs.now) }
        ensures fit { OnOk result (AllByRecursion JobFits jobs.now) }

        // A job that can't be sent is reported, the first by its number, and out of memory only where all jobs can be sent.
        ensures refused { IfErr result (λ fault. IsNewCause jobs.now fault) }
    {
        let sender = SendingStation::new(alloc, jobs)?;
        let receiver = ReceivingStation::new(alloc)?;
        Ok(Station {
            sender,
            receiver,
            contender: Contender::new(rank),
            failed: false,
        })
    }

    /// Its rank: a secondary yields where both bid at once.
    pub fn rank(&self) -> Rank
        ensures { result ≡ self.now.contender.rank }
    {
        self.contender.rank()
    }

    /// The station that sends its jobs.
    pub fn sender(&self) -> &SendingStation<'a>
        ensures { result.now ≡ self.now.sender }
    {
        &self.sender
    }

    /// The station that receives the other one's.
    pub fn receiver(&self) -> &ReceivingStation
        ensures { result.now ≡ self.now.receiver }
    {
        &self.receiver
    }

    /// The jobs that it received, given away.
    pub fn take(self) -> Vec<Job>
        ensures { result.items ≡ self.entry.receiver.jobs }
    {
        let Station {
            sender: _,
            receiver,
            contender: _,
            failed: _,
        } = self;
        receiver.take()
    }

    /// What is due: nothing while it receives, after a fault, and once its own transmission is over.
    pub fn due(&self) -> Say
        ensures { result ≡ due_at self.now }
    {
        if self.failed || self.contender.place() == ContenderPlace::Receiving {
            Say::Nothing
        } else {
            self.sender.due()
        }
    }

    /// Whether it receives: it took the other station's bid, and the other's transmission goes on.
    pub fn is_receiving(&self) -> bool
        ensures { result ≡ is_receiving self.now.contender.place }
    {
        self.contender.place() == ContenderPlace::Receiving
    }

    /// Sends what is due, and the same again where it is called twice. Where nothing is due it touches no line.
    pub fn speak<L: Line>(&mut self, line: &mut L) -> Result<Say, StationFault>
        ensures said { IfOk result (λ say. say ≡ due_at self.old) }
        ensures sent { OnOk result (Passes (L.talk line.old) (L.talk line.new)
            (SpokeDue (due_at self.old) self.old.sender.rest)) }
        ensures silent { OnOk result (IfSilent (due_at self.old) (line.new ≡ line.old)) }
        ensures state { OnOk result (self.new ≡ after_own_speaking self.old) }
        ensures live { OnOk result (self.old.failed ≡ false) }
        ensures once { OnOk result (L.transmissions line.new
            ≡ with_said (due_at self.old) (L.transmissions line.old)) }
        ensures ages { Ages (L.may_fail line.old) (L.may_fail line.new) }

        // The line failed, or a fault came before; jobs and counts stay.
        ensures cause { IfErr result (λ fault.
            IsCause (Fails (MayNotSend (L.may_fail line.old)) (L.failures line.old)
            (L.failures line.new) (L.last_fault line.new)) ⊥ self.old.failed fault) }
        ensures kept { IfErr result (λ fault. self.new ≡ after_own_refusal fault self.old) }
        ensures tried { IfErr result (λ fault.
            IfLine fault (L.transmissions line.new ≡ one_more (L.transmissions line.old))) }
        ensures untouched { IfErr result (λ fault. IfOver fault (line.new ≡ line.old)) }
    {
        if self.failed {
            return Err(StationFault::Over);
        }
        if let Say::Nothing = self.due() {
            return Ok(Say::Nothing);
        }
        match self.sender.speak(line) {
            Ok(say) => {
                note_said(&mut self.contender, say);
                Ok(say)
            }
            Err(fault) => Err(self.note_fault(fault)),
        }
    }

    /// Listens for the answer to what was said, and takes one step. With `pause` the next block has to wait. Where nothing is due it
    /// touches no line.
    pub fn hear_answer<L: Line>(&mut self, line: &mut L, pause: bool) -> Result<Sound, StationFault>
        ensures heard { IfOk result (λ sound.
            HeardAnswer (L.talk line.old) (L.talk line.new) (due_at self.old) sound) }
        ensures silent { OnOk result (IfSilent (due_at self.old) (line.new ≡ line.old)) }
        ensures state { IfOk result (λ sound. self.new ≡ after_answer self.old sound pause) }
        ensures live { OnOk result (self.old.failed ≡ false) }
        ensures none { L.transmissions line.new ≡ L.transmissions line.old }
        ensures ages { Ages (L.may_fail line.old) (L.may_fail line.new) }

        // The line failed or babbled, or a fault came before; jobs and counts stay.
        ensures cause { IfErr result (λ fault.
            IsCause (Fails (MayNotHear (L.may_fail line.old)) (L.failures line.old)
            (L.failures line.new) (L.last_fault line.new))
            (Passes (L.talk line.old) (L.talk line.new) Babbling) self.old.failed fault) }
        ensures kept { IfErr result (λ fault. self.new ≡ after_own_refusal fault self.old) }
        ensures untouched { IfErr result (λ fault. IfOver fault (line.new ≡ line.old)) }
    {
        if self.failed {
            return Err(StationFault::Over);
        }
        let say = self.due();
        if say == Say::Nothing {
            return Ok(Sound::Quiet);
        }
        match self.sender.hear(line, pause) {
            Ok(sound) => {
                note_answer(&mut self.contender, say, sound);
                Ok(sound)
            }
            Err(fault) => Err(self.note_fault(fault)),
        }
    }

    /// Listens to the other station, and makes the reply due, or none, in place of an older one. An ENQ that the station doesn't take,
    /// since its own bid is out, is passed over. A secondary that takes one yields.
    pub fn hear_other<L: Line>(
        &mut self,
        line: &mut L,
        wish: Wish,
    ) -> Result<Option<Reply>, StationFault>
        ensures heard { IfOk result (λ reply. HeardOther self.old self.new wish reply
            (λ what. Passes (L.talk line.old) (L.talk line.new) (λ t u. Hearing t u what))) }
        ensures live { OnOk result (is_deaf self.old ≡ false) }
        ensures none { L.transmissions line.new ≡ L.transmissions line.old }
        ensures ages { Ages (L.may_fail line.old) (L.may_fail line.new) }

        // The line failed or babbled, or a fault came before, or the other station's transmission is over; jobs and counts stay.
        ensures cause { IfErr result (λ fault.
            IsCause (Fails (MayNotHear (L.may_fail line.old)) (L.failures line.old)
            (L.failures line.new) (L.last_fault line.new))
            (Passes (L.talk line.old) (L.talk line.new) Babbling) (is_deaf self.old) fault) }
        ensures kept { IfErr result (λ fault. self.new ≡ after_other_refusal fault self.old) }
        ensures untouched { IfErr result (λ fault. IfOver fault (line.new ≡ line.old)) }
    {
        if self.failed {
            return Err(StationFault::Over);
        }
        match self.receiver.listen(line) {
            Ok(heard) => Ok(self.step(&heard, wish)),
            Err(fault) => Err(self.note_fault(fault)),
        }
    }

    /// Sends the reply that is due, once; sends nothing where none is.
    pub fn reply<L: Line>(&mut self, line: &mut L) -> Result<Option<Reply>, StationFault>
        ensures said { IfOk result (λ reply. reply ≡ self.old.receiver.due) }
        ensures sent { OnOk result (Passes (L.talk line.old) (L.talk line.new)
            (Replied self.old.receiver.due)) }
        ensures state { OnOk result (self.new ≡ after_own_reply self.old) }
        ensures live { OnOk result (is_deaf self.old ≡ false) }
        ensures once { OnOk result (L.transmissions line.new
            ≡ with_reply self.old.receiver.due (L.transmissions line.old)) }
        ensures ages { Ages (L.may_fail line.old) (L.may_fail line.new) }

        // The line failed, or a fault came before, or the other station's transmission is over; jobs and counts stay.
        ensures cause { IfErr result (λ fault.
            IsCause (Fails (MayNotSend (L.may_fail line.old)) (L.failures line.old)
            (L.failures line.new) (L.last_fault line.new)) ⊥ (is_deaf self.old) fault) }
        ensures kept { IfErr result (λ fault. self.new ≡ after_other_refusal fault self.old) }
        ensures tried { IfErr result (λ fault.
            IfLine fault (L.transmissions line.new ≡ one_more (L.transmissions line.old))) }
        ensures untouched { IfErr result (λ fault. IfOver fault (line.new ≡ line.old)) }
    {
        if self.failed {
            return Err(StationFault::Over);
        }
        match self.receiver.speak(line) {
            Ok(reply) => Ok(reply),
            Err(fault) => Err(self.note_fault(fault)),
        }
    }

    /// The other station's transmission ended, whether its EOT came or not.
    pub fn other_ended(&mut self)
        ensures { self.new ≡ after_other_ended self.old }
    {
        if !self.receiver.is_over() {
            self.receiver.abandon();
        }
        self.contender.other_end();
    }

    /// A fault of the line ends both transmissions; a station that was over stays as it is.
    fn note_fault(&mut self, fault: StationFault) -> StationFault
        ensures told { result ≡ fault }
        ensures state { self.new ≡ after_note fault self.old }
    {
        if fault != StationFault::Over {
            self.failed = true;
        }
        fault
    }

    /// Something was heard of the other station.
    fn step(&mut self, heard: &Heard, wish: Wish) -> Option<Reply>
        ensures { HeardOther self.old self.new wish result (λ what. what ≡ heard.now) }
    {
        let sound = sound_of(heard);
        let rank = self.contender.rank();
        if !lets_in(&mut self.contender, sound) {
            self.receiver.pass_over();
            return None;
        }
        if rank == Rank::Secondary && sound == Sound::Enq {
            self.sender.yielded();
        }
        self.receiver.step(heard, wish)
    }
}

/// A bid is noted, and EOT ends the transmission.
fn note_said(contender: &mut Contender, say: Say)
    ensures { contender.new ≡ contender_said say contender.old }
{
    match say {
        Say::Bid => contender.said_bid(),
        Say::End => contender.own_end(),
        _ => {}
    }
}

/// ACK0 grants a bid, and EOT ends the transmission.
fn note_answer(contender: &mut Contender, say: Say, sound: Sound)
    ensures { contender.new ≡ contender_answered say sound contender.old }
{
    match (say, sound) {
        (Say::Bid, Sound::Ack0) => contender.granted(),
        (_, Sound::Eot) => contender.own_end(),
        _ => {}
    }
}

/// The other station was heard. Whether its sound comes to the receiver.
fn lets_in(contender: &mut Contender, sound: Sound) -> bool
    ensures state { contender.new ≡ contender_hears sound contender.old }
    ensures let_in { result ≡ lets_in contender.old sound }
{
    match sound {
        Sound::Enq => contender.hear_enq(),
        Sound::Eot => {
            contender.other_end();
            true
        }
        _ => true,
    }
}

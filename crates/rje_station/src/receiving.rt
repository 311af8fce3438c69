//! The receiving station.
ghost use Rattle.std.specs.Prelude.{◌≡◌, ◌++◌, ◌∷◌, false, not, ◌&&◌, is_some, IfOk, IfErr, IfSome, OnOk};
ghost use Rattle.rje_station.specs.Hearing.{Hearing, Babbling};
ghost use Rattle.rje_station.specs.JoinedJobs.{begun_in};
ghost use Rattle.rje_station.specs.Line.{Passes, Ages, MayNotHear, MayNotSend, Fails, one_more};
ghost use Rattle.rje_station.specs.Receiving.{first_receiving, sound_taken as taken, MayRefuse, IsRefusal, was_refused, jobs_after, Received, after_replying, Replied, with_reply, after_fault, after_refusal, after_abandon, frame_of as reply_frame, received_events};
ghost use Rattle.rje_station.specs.Station.{after_passing};
ghost use Rattle.rje_station.specs.StationFault.{IsCause, IfLine, IfOver, IsNoMemory};
ghost use Rattle.rje_station.specs.Trace.{last_events};
ghost use Rattle.rje_station.specs.declared.event.Event.TheVariants as event;

mod joined_jobs;

use crate::frame_reader::FrameReader;
use crate::hear_fault::HearFault;
use crate::sound_heard::sound_of;
use crate::writing::{Transmission, write};
use crate::{Arrival, Event, Line, StationFault, Trace};
use bsc_frame::{Frame, Heard};
use bsc_link::{Receiver, Reply, Sound, Wish};
use joined_jobs::JoinedJobs;
use rje_jobs::Job;
use rje_text::{TextFault, unpack};
use std::alloc::{AllocError, Global};
use std::marker::Model;

/// The station that receives the jobs of one transmission.
#[derive(Drop)]
pub struct ReceivingStation {
    jobs: JoinedJobs,
    core: Receiver,
    ear: FrameReader,
    due: Option<Reply>,
    over: bool,
    arrival: Option<Arrival>,
    /// Why the block of the last hearing was refused, where it was.
    refusal: Option<TextFault>,
    trace: Trace,
    // The bytes of the last block that was heard; contracts don't see it.
    length: usize,
    // Where a reply is written.
    out: Transmission,
}

impl Model for ReceivingStation {
    ghost use Rattle.std.specs.Prelude.{◌≡◌, is_some};
    ghost use Rattle.rje_station.specs.Receiving.{Receiving, was_refused};

    ghost Value = { Receiving };

    ghost view = { λ s. record {
      jobs = s.jobs;
      core = s.core;
      due = s.due;
      over = s.over;
      arrival = s.arrival;
      trace = s.trace;
    } };

    ghost invariant = { λ s. is_some s.refusal ≡ was_refused s.arrival };
}

impl ReceivingStation {
    /// A station for one transmission. Takes memory for its trace alone.
    pub fn new(alloc: Global) -> Result<Self, StationFault>
        ensures ready { IfOk result (λ s. s ≡ first_receiving) }
        ensures refused { IfErr result IsNoMemory }
    {
        let trace = Trace::new(alloc)?;
        Ok(ReceivingStation {
            jobs: JoinedJobs::new(alloc),
            core: Receiver::new(),
            ear: FrameReader::new(),
            due: None,
            over: false,
            arrival: None,
            refusal: None,
            trace,
            length: 0,
            out: Transmission::new(),
        })
    }

    /// The jobs of the blocks that were accepted. One of which blocks came but not the last one stands last, and isn't whole.
    pub fn jobs(&self) -> &[Job]
        ensures { result.now ≡ self.now.jobs }
    {
        self.jobs.as_slice()
    }

    /// The jobs, given away.
    pub fn take(self) -> Vec<Job>
        ensures { result.items ≡ self.jobs }
    {
        let ReceivingStation {
            jobs,
            core: _,
            ear: _,
            due: _,
            over: _,
            arrival: _,
            refusal: _,
            trace: _,
            length: _,
            out: _,
        } = self;
        jobs.into_vec()
    }

    /// What the last hearing brought. None: nothing was heard yet.
    pub fn arrival(&self) -> Option<Arrival>
        ensures { result ≡ self.now.arrival }
    {
        self.arrival
    }

    /// Why the block of the last hearing was refused; none where none was.
    pub fn refusal(&self) -> Option<TextFault>
        ensures refused { is_some result ≡ was_refused self.now.arrival }
    {
        self.refusal
    }

    /// The bytes of the text of the last block that was heard, accepted or not; 0 where none was yet.
    pub fn heard_length(&self) -> usize {
        self.length
    }

    /// The last events.
    pub fn trace(&self) -> &Trace
        ensures { result.now ≡ self.now.trace }
    {
        &self.trace
    }

    /// Ends the transmission. The jobs stay.
    pub fn abandon(&mut self)
        ensures { self.new ≡ after_abandon self.old }
    {
        self.core.quiet_long();
        self.due = None;
        self.over = true;
        self.trace.note(Event::Over);
    }

    /// Listens, takes one step, and makes its reply due, or none, in place of an older one. A whole block that can't be read, or for which
    /// there is no memory, is taken as a bad one.
    pub fn hear<L: Line>(&mut self, line: &mut L, wish: Wish) -> Result<Option<Reply>, StationFault>
        ensures heard { IfOk result (λ reply. Received self.old self.new wish reply
            (λ what. Passes (L.talk line.old) (L.talk line.new) (λ t u. Hearing t u what))) }
        ensures live { OnOk result (self.old.over ≡ false) }
        ensures none { L.transmissions line.new ≡ L.transmissions line.old }
        ensures ages { Ages (L.may_fail line.old) (L.may_fail line.new) }

        // The line failed or babbled, or the station was over before; it is over then, and the jobs stay.
        ensures cause { IfErr result (λ fault.
            IsCause (Fails (MayNotHear (L.may_fail line.old)) (L.failures line.old)
            (L.failures line.new) (L.last_fault line.new))
            (Passes (L.talk line.old) (L.talk line.new) Babbling) self.old.over fault) }
        ensures kept { IfErr result (λ fault. self.new ≡ after_refusal fault self.old) }
        ensures untouched { IfErr result (λ fault. IfOver fault (line.new ≡ line.old)) }
    {
        let heard = self.listen(line)?;
        Ok(self.step(&heard, wish))
    }

    /// Whether it neither speaks nor hears any more.
    pub fn is_over(&self) -> bool
        ensures { result ≡ self.now.over }
    {
        self.over
    }

    /// One hearing; what was heard isn't acted on yet.
    pub(crate) fn listen<L: Line>(&mut self, line: &mut L) -> Result<Heard, StationFault>
        ensures heard { IfOk result (λ what.
            Passes (L.talk line.old) (L.talk line.new) (λ t u. Hearing t u what)) }
        ensures same { OnOk result (self.new ≡ self.old) }
        ensures live { OnOk result (self.old.over ≡ false) }
        ensures none { L.transmissions line.new ≡ L.transmissions line.old }
        ensures ages { Ages (L.may_fail line.old) (L.may_fail line.new) }
        ensures cause { IfErr result (λ fault.
            IsCause (Fails (MayNotHear (L.may_fail line.old)) (L.failures line.old)
            (L.failures line.new) (L.last_fault line.new))
            (Passes (L.talk line.old) (L.talk line.new) Babbling) self.old.over fault) }
        ensures kept { IfErr result (λ fault. self.new ≡ after_refusal fault self.old) }
        ensures untouched { IfErr result (λ fault. IfOver fault (line.new ≡ line.old)) }
    {
        if self.over {
            return Err(StationFault::Over);
        }
        match self.ear.hear(line) {
            Ok(kind) => {
                let heard = kind.into_heard(&mut self.ear.text);
                if let Heard::Frame(Frame::Block(block)) = &heard {
                    self.length = block.text.len();
                }
                Ok(heard)
            }
            Err(HearFault::Lost(fault)) => {
                self.fail();
                Err(StationFault::Line(fault))
            }
            Err(HearFault::Babble) => {
                self.fail();
                Err(StationFault::Babble)
            }
        }
    }

    /// An ENQ that isn't taken is noted, and no reply is due.
    pub(crate) fn pass_over(&mut self)
        ensures { self.new ≡ after_passing self.old }
    {
        self.due = None;
        self.arrival = Some(Arrival {
            sound: Sound::Enq,
            refused: false,
        });
        self.refusal = None;
        self.trace.note(Event::Heard(Sound::Enq));
    }

    /// Sends the reply that is due, once; sends nothing where none is.
    pub fn speak<L: Line>(&mut self, line: &mut L) -> Result<Option<Reply>, StationFault>
        ensures said { IfOk result (λ reply. reply ≡ self.old.due) }
        ensures sent { OnOk result (Passes (L.talk line.old) (L.talk line.new)
            (Replied self.old.due)) }
        ensures state { OnOk result (self.new ≡ after_replying self.old) }
        ensures live { OnOk result (self.old.over ≡ false) }
        ensures once { OnOk result (L.transmissions line.new
            ≡ with_reply self.old.due (L.transmissions line.old)) }
        ensures ages { Ages (L.may_fail line.old) (L.may_fail line.new) }

        // The line failed, or the station was over before; it is over then, and the jobs stay.
        ensures cause { IfErr result (λ fault.
            IsCause (Fails (MayNotSend (L.may_fail line.old)) (L.failures line.old)
            (L.failures line.new) (L.last_fault line.new)) ⊥ self.old.over fault) }
        ensures kept { IfErr result (λ fault. self.new ≡ after_refusal fault self.old) }
        ensures tried { IfErr result (λ fault.
            IfLine fault (L.transmissions line.new ≡ one_more (L.transmissions line.old))) }
        ensures untouched { IfErr result (λ fault. IfOver fault (line.new ≡ line.old)) }
    {
        if self.over {
            return Err(StationFault::Over);
        }
        let Some(reply) = self.due else {
            return Ok(None);
        };
        write(&frame_of(reply), &mut self.out);
        if let Err(fault) = line.transmit(self.out.as_slice()) {
            self.fail();
            return Err(StationFault::Line(fault));
        }
        self.due = None;
        self.trace.note(Event::Replied(reply));
        Ok(Some(reply))
    }

    /// Something was heard.
    pub(crate) fn step(&mut self, heard: &Heard, wish: Wish) -> Option<Reply>
        ensures { Received self.old self.new wish result (λ what. what ≡ heard.now) }
    {
        let mut ahead = self.core;
        let accepted = ahead.hear(Sound::Block, wish).accepted;
        let refusal = join_heard(&mut self.jobs, accepted, heard);
        let refused = refusal.is_some();
        let news = self.core.hear(sound_taken(heard, refused), wish);
        let sound = sound_of(heard);
        self.arrival = Some(Arrival { sound, refused });
        self.refusal = refusal;
        note_received(&mut self.trace, sound, news.accepted, refused);
        self.due = news.reply;
        self.over = news.ended;
        news.reply
    }

    /// The line failed.
    fn fail(&mut self)
        ensures { self.new ≡ after_fault self.old }
    {
        self.over = true;
        self.trace.note(Event::Over);
    }
}

/// Reads a whole block, joins it where the core will accept it, and returns why it was refused, where it was.
fn join_heard(jobs: &mut JoinedJobs, accepted: bool, heard: &Heard) -> Option<TextFault>
    ensures may { MayRefuse heard.now (begun_in jobs.old) (is_some result) }
    ensures why { IfSome result (λ fault. IsRefusal heard.now (begun_in jobs.old) fault) }
    ensures jobs { jobs.new ≡ jobs_after heard.now (accepted && not (is_some result)) jobs.old }
{
    let Heard::Frame(Frame::Block(block)) = heard else {
        return None;
    };
    match unpack(jobs.allocator(), block, jobs.mode_of_begun()) {
        Ok(unpacked) if accepted => match jobs.join(unpacked, block.closing) {
            Ok(()) => None,
            Err(AllocError) => Some(TextFault::OutOfMemory),
        },
        Ok(_) => None,
        Err(fault) => Some(fault),
    }
}

/// What the core takes: a block that was refused is a bad one.
fn sound_taken(heard: &Heard, refused: bool) -> Sound
    ensures { result ≡ taken heard.now refused }
{
    match heard {
        Heard::Frame(_) if refused => Sound::Bad,
        _ => sound_of(heard),
    }
}

/// Notes a hearing.
fn note_received(trace: &mut Trace, sound: Sound, accepted: bool, refused: bool)
    ensures { trace.new ≡ last_events (trace.old ++ event.Heard sound ∷ received_events
        accepted refused) }
{
    trace.note(Event::Heard(sound));
    if refused {
        trace.note(Event::Refused);
    } else if accepted {
        trace.note(Event::Accepted);
    }
}

/// The frame of a reply.
fn frame_of(reply: Reply) -> Frame
    ensures { result ≡ reply_frame reply }
{
    match reply {
        Reply::Ack0 => Frame::Ack0,
        Reply::Ack1 => Frame::Ack1,
        Reply::Nak => Frame::Nak,
        Reply::Wack => Frame::Wack,
        Reply::Rvi => Frame::Rvi,
    }
}

//! A spool, attended to with the calls that come in meanwhile.
ghost use Rattle.std.specs.Prelude.{◌≡◌, List, ◌∷◌, IfOk, None, OnErr, false, true};
ghost use Rattle.rje_jobs.specs.declared.job.Job.{Job as Item};
ghost use Rattle.rje_session.specs.Ledger.{Given, IsEntered, Kept, KeptCut, MayArrive, MayBeEntered, Settled};

use crate::doorway::Door;
use crate::line_note::LineNote;
use crate::strangers::Strangers;
use rje_day::{Disposition, Inputs};
use rje_jobs::Job;
use rje_session::Spool;
use rje_station::Station;
use rje_store::Disk;
use std::alloc::Global;
use std::net::{OpenListener, SocketAddr};
use std::time::{Clock, Duration, Instant};

/// A station's spool, and the door where calls come in, if it is called: while one end is on the line, it is seen whether that calls again, and
/// whether it has the line for too long.
#[derive(Drop)]
pub(crate) struct Attendant<'o, C: Clock + Drop, S: Drop, L: OpenListener + Drop, D: Drop> {
    clock: C,
    pub(crate) spool: S,
    pub(crate) door: Option<Door<'o, L>>,
    pub(crate) strangers: Strangers,
    // What comes can be kept.
    pub(crate) receives: bool,
    // Who is on the line, where it called.
    peer: Option<SocketAddr>,
    // How long an end has the line in which no job comes whole and none is counted, in seconds; with 0 for ever.
    progress: u32,
    // Since when no job came whole and none was counted on this connection.
    since: Option<Instant>,
    // What it notes of what it is doing.
    pub(crate) note: LineNote<C, D>,
}

impl<'o, C: Clock + Drop, S: Drop, L: OpenListener + Drop, D: Disk + Drop> Attendant<
    'o,
    C,
    S,
    L,
    D,
> {
    /// Nobody is on the line. An end has it for so many seconds in which no job comes whole and none is counted, and with 0 for ever.
    pub(crate) fn new(
        clock: C,
        spool: S,
        door: Option<Door<'o, L>>,
        progress: u32,
        note: LineNote<C, D>,
    ) -> Attendant<'o, C, S, L, D>
        ensures spool { result.spool ≡ spool }
        ensures progress { result.progress ≡ progress }
        ensures nobody { result.peer ≡ None }
        ensures none { result.since ≡ None }
        ensures receives { result.receives ≡ true }
    {
        Attendant {
            clock,
            spool,
            door,
            strangers: Strangers::new(),
            receives: true,
            peer: None,
            progress,
            since: None,
            note,
        }
    }

    /// A connection begins: with this one, where it called.
    pub(crate) fn begin(&mut self, peer: Option<SocketAddr>)
        ensures begun { self.new ≡ record self.old {
          peer = peer;
          since = self.new.since;
          note = self.new.note;
        } }
    {
        self.note.connects(peer);
        self.peer = peer;
        self.since = Instant::now(&self.clock).ok();
    }

    /// Whether the other end has had the line for too long. Where the clock can't be read it hasn't.
    fn is_overdue(&self) -> bool
        ensures for_ever { self.now.progress ≡ 0 → result ≡ false }
        ensures unknown { self.now.since ≡ None → result ≡ false }
    {
        match self.since {
            Some(since) if self.progress > 0 => match since.elapsed(&self.clock) {
                Ok(passed) => passed >= Duration::from_secs(u64::from(self.progress)),
                Err(_) => false,
            },
            _ => false,
        }
    }

    /// A job came whole, or was counted.
    fn note_job(&mut self)
        ensures noted { self.new ≡ record self.old { since = self.new.since } }
    {
        self.since = Instant::now(&self.clock).ok();
    }

    /// Whether the end that is on the line calls again: it doesn't know of this connection any more.
    fn is_called_again(&mut self) -> bool
        ensures nobody { self.old.peer ≡ None → result ≡ false }
        ensures rest { self.new ≡ record self.old { door = self.new.door } }
    {
        match (&mut self.door, self.peer) {
            (Some(door), Some(peer)) => door.is_called_again(peer),
            _ => false,
        }
    }
}

impl<'o, C: Clock + Drop, S: Spool + Drop, L: OpenListener + Drop, D: Disk + Drop> Spool
    for Attendant<'o, C, S, L, D> {
    type Fault = S::Fault;

    ghost discloses = { S.discloses };

    ghost ledger = { λ a. S.ledger a.spool };

    fn seen(&mut self) -> Inputs {
        self.note.rests();
        let seen = self.spool.seen();
        Inputs {
            line_wanted: seen.line_wanted || self.is_called_again() || self.is_overdue(),
            ..seen
        }
    }

    fn next(&mut self, alloc: Global) -> Result<Vec<Job>, S::Fault> {
        self.spool.next(alloc)
    }

    fn look_on<'a>(&mut self, station: &Station<'a>) -> bool {
        self.note.goes_on(station);
        self.spool.look_on(station) && !self.is_overdue()
    }

    fn can_hold<'a>(&mut self, station: &Station<'a>) -> bool {
        self.spool.can_hold(station)
    }

    fn goes_out(&mut self, job: usize) -> Result<(), S::Fault> {
        self.spool.goes_out(job)
    }

    fn settle(&mut self, job: usize, what: Disposition) -> Result<(), S::Fault> {
        self.spool.settle(job, what)?;
        if what == Disposition::Sent {
            self.note_job();
        }
        Ok(())
    }

    fn keep(&mut self, job: &Job) -> Result<(), S::Fault> {
        self.spool.keep(job)?;
        self.note_job();
        Ok(())
    }

    fn keep_cut(&mut self, job: &Job) -> Result<(), S::Fault> {
        self.spool.keep_cut(job)
    }
}

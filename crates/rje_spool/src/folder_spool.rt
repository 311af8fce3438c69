//! The spool of a station's folder.
ghost use Rattle.std.specs.Prelude.{◌≡◌, List, [], ◌∷◌, None, Some, length, IfOk, OnErr, OnOk, string_bytes};
ghost use Rattle.rje_jobs.specs.declared.job.Job.{Job as Item};
ghost use Rattle.rje_spool.specs.Backed.{AreBacked, with_doubted};
ghost use Rattle.rje_spool.specs.GivenFile.{HasSecondName, IsDoubted};
ghost use Rattle.rje_spool.specs.GivenFiles.{HasGoneOut, IsSettledSo, OfFile, WasMarked};
ghost use Rattle.rje_session.specs.Ledger.{Given, IsEntered, MayArrive, MayBeEntered, Settled};

mod settling;

use crate::console::Console;
use crate::ledger::{Ledger, NoBook};
use crate::notice::Notice;
use crate::spool_fault::SpoolFault;
use crate::spool_files::SpoolFiles;
use rje_day::{Disposition, Inputs};
use rje_folder::{FolderDisk, StationFolder};
use rje_jobs::Job;
use rje_session::Spool;
use rje_station::Station;
use std::alloc::Global;
use std::io::Write;
use std::marker::Model;
use std::time::Clock;

/// The spool of a station's folder: what lies in out/ goes to sent/, doubt/ or refused/, and what comes goes to in/, print/, punch/ and cut/. The
/// operator is told on a console, and what is done is entered in a book.
#[derive(Drop)]
pub struct FolderSpool<D: FolderDisk + Drop, C, W, L, B: Ledger + Drop = NoBook> {
    files: SpoolFiles<D, C, W, L>,
    book: B,
    // The job of the transmission that was begun last whose last block went out last, if one did.
    out: Option<usize>,
}

impl<D: FolderDisk + Drop, C, W, L, B: Ledger + Drop> Model for FolderSpool<D, C, W, L, B> {
    ghost use Rattle.std.specs.Prelude.{string_bytes};
    ghost use Rattle.rje_spool.specs.Backed.{AreBacked, Spooled};
    ghost use Rattle.rje_spool.specs.GivenFiles.{jobs_of};

    ghost Value = { Spooled };

    ghost view = { λ s. record { station = string_bytes s.files.folder.path; entries = B.entries s.book; files = s.files.given.files.items; given = jobs_of s.files.given.files.items; out = s.out; asked = D.asked s.files.folder.disk } };

    ghost invariant = { λ s. D.discloses → B.discloses → AreBacked (string_bytes s.files.folder.path) (B.entries s.book) (D.asked s.files.folder.disk) };
}

impl<D: FolderDisk + Drop, C: Clock, W: Write, L: Write, B: Ledger + Drop> FolderSpool<
    D,
    C,
    W,
    L,
    B,
> {
    /// The spool of this folder, with this console. Nothing is entered yet.
    pub fn new(
        alloc: Global,
        folder: StationFolder<D>,
        console: Console<C, W, L>,
    ) -> FolderSpool<D, C, W, L, B>
        ensures station { result.station ≡ string_bytes folder.path }
        ensures none { B.discloses → result.entries ≡ [] }
    {
        FolderSpool {
            files: SpoolFiles::new(alloc, folder, console),
            book: B::new(),
            out: None,
        }
    }

    /// Each job that is entered as kept was put into in/, and each that was cut into cut/: in a file of its own, made after those of the jobs that
    /// are entered before it, which was on disk, as was its name.
    pub fn kept_jobs_are_on_disk(&self)
        ensures backed { D.discloses → B.discloses
            → AreBacked self.now.station self.now.entries self.now.asked }
    {
        let _ = &self.book;
    }

    /// Tells the operator this.
    pub fn tell(&mut self, notice: Notice) {
        self.files.make_paper();
        self.files.tell(notice);
    }

    /// Whether what comes can be kept: after a job that couldn't be, once a file of its length can.
    pub fn can_receive(&mut self) -> bool {
        self.files.can_receive()
    }

    /// Answers came out of step: all jobs of the last transmission whose last block went out are in doubt, those that were counted too. Where one can't be
    /// put there, the others are all the same.
    pub fn doubt_all(&mut self) -> Result<(), SpoolFault>
        ensures doubted { B.discloses → OnOk result
            (self.new.entries ≡ with_doubted self.old.out self.old.entries) }
    {
        let Some(last) = self.out else {
            return Ok(());
        };
        for job in 0..last {
            match self.settle(job, Disposition::InDoubt) {
                Ok(()) => {}
                Err(fault) => {
                    self.doubt_from(job, last);
                    return Err(fault);
                }
            }
        }
        self.settle(last, Disposition::InDoubt)
    }

    /// The jobs of the last transmission from this one to that one are in doubt, those of them that can be put there.
    fn doubt_from(&mut self, first: usize, last: usize) {
        for job in first..last {
            let _ = self.settle(job, Disposition::InDoubt);
        }
        let _ = self.settle(last, Disposition::InDoubt);
    }
}

impl<D: FolderDisk + Drop, C: Clock, W: Write, L: Write, B: Ledger + Drop> Spool
    for FolderSpool<D, C, W, L, B> {
    type Fault = SpoolFault;

    ghost discloses = { B.discloses };

    ghost ledger = { λ s. s.entries };

    fn seen(&mut self) -> Inputs {
        self.files.make_paper();
        self.files.finish_hidden();
        self.files.seen()
    }

    fn next(&mut self, _alloc: Global) -> Result<Vec<Job>, SpoolFault>
        ensures given { B.discloses → IfOk result (λ jobs.
            self.new.entries ≡ Given jobs.items ∷ self.old.entries) }
        ensures failed { B.discloses → OnErr result ((jobs : List Item)
            × MayBeEntered (Given jobs) self.old.entries self.new.entries) }
        // The files have as many jobs as are given.
        ensures numbered { IfOk result (λ jobs. self.new.given ≡ length jobs.items) }
        ensures none_out { OnOk result (self.new.out ≡ None) }
    {
        self.files.make_paper();
        let jobs = self.files.next()?;
        self.book.enter_given(jobs.as_slice());
        self.out = None;
        Ok(jobs)
    }

    fn look_on<'a>(&mut self, station: &Station<'a>) -> bool {
        self.files.make_paper();
        self.files.look_on(station)
    }

    fn can_hold<'a>(&mut self, station: &Station<'a>) -> bool {
        self.files.can_hold(station.receiver().jobs())
    }

    fn goes_out(&mut self, job: usize) -> Result<(), SpoolFault>
        ensures entered { B.discloses
            → IsEntered result (MayArrive job) self.old.entries self.new.entries }
        // The job's file, which is the one that was read, has a name in doubt/, on disk.
        ensures out { D.discloses → OnOk result (OfFile job
            (λ file now. HasGoneOut D.is_file self.old.station file now
            self.old.asked self.new.asked) self.old.files self.new.files) }
        ensures last_out { OnOk result (self.new.out ≡ Some job) }
    {
        self.files.goes_out(job)?;
        self.book.enter_out(job);
        self.out = Some(job);
        Ok(())
    }

    fn settle(&mut self, job: usize, what: Disposition) -> Result<(), SpoolFault>
        ensures entered { B.discloses
            → IsEntered result (Settled job what) self.old.entries self.new.entries }
        // The job's file stands where it belongs then.
        ensures stands { D.discloses → OnOk result (OfFile job
            (IsSettledSo job what self.old.station self.new.asked)
            self.old.files self.new.files) }
        // One that was counted is marked as sent, where its file is a job file.
        ensures marked { D.discloses → OnOk result (what ≡ Disposition.Sent → OfFile job
            (λ file _. WasMarked job file self.old.asked self.new.asked)
            self.old.files self.new.files) }
        // Where it can't, a file with a name in doubt/ is there.
        ensures left { OnErr result (OfFile job
            (λ file now. HasSecondName file.place → IsDoubted now.place)
            self.old.files self.new.files) }
        ensures same { self.new.out ≡ self.old.out }
    {
        self.files.settle(job, what)?;
        self.book.enter_settled(job, what);
        Ok(())
    }

    fn keep(&mut self, job: &Job) -> Result<(), SpoolFault> {
        self.files.make_paper();
        self.files.keep(job)?;
        self.book.enter_kept(job);
        Ok(())
    }

    fn keep_cut(&mut self, job: &Job) -> Result<(), SpoolFault> {
        self.files.make_paper();
        self.files.keep_cut(job)?;
        self.book.enter_kept_cut(job);
        Ok(())
    }
}

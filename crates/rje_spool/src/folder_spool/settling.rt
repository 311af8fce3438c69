//! What a spool is asked for where doubt is settled by receipts.
ghost use Rattle.std.specs.Prelude.{◌≡◌, [], IfSome, Some};
ghost use Rattle.rje_spool.specs.GivenFiles.{file_of};
ghost use Rattle.rje_spool.specs.GivenJob.{IsGivenJob};

use super::FolderSpool;
use crate::given_job::GivenJob;
use crate::ledger::Ledger;
use crate::refused_file::RefusedFile;
use crate::spool_fault::SpoolFault;
use rje_folder::{FileIdentity, FolderDisk};
use rje_jobs::Job;
use std::alloc::AllocError;
use std::io::Write;
use std::time::Clock;

impl<D: FolderDisk + Drop, C: Clock, W: Write, L: Write, B: Ledger + Drop> FolderSpool<
    D,
    C,
    W,
    L,
    B,
> {
    /// From now on the other end's receipts tell what may have arrived.
    pub fn begin_settling(&mut self)
        ensures same { self.new ≡ self.old }
    {
        self.files.begin_settling();
    }

    /// A transmission begins that is given none of the files.
    pub fn give_none(&mut self)
        ensures none { self.new.files ≡ [] }
        ensures entries { self.new.entries ≡ self.old.entries }
    {
        self.files.give_none();
    }

    /// Which job of which file a job of the last transmission is.
    pub fn given(&self, job: usize) -> Option<GivenJob<'_>>
        ensures { IfSome result (λ given. (file : _)
            × (file_of job self.now.files ≡ Some file) × IsGivenJob job file given) }
    {
        self.files.given(job)
    }

    /// What lies ready is read anew.
    pub fn look_anew(&mut self)
        ensures same { self.new ≡ self.old }
    {
        self.files.look_anew();
    }

    /// The file of this name in out/ lies ready again, though it may have been passed over: the other end hasn't got its job after all.
    pub fn lies_ready(&mut self, name: &str)
        ensures same { self.new ≡ self.old }
    {
        self.files.lies_ready(name);
    }

    /// The file of this name in out/ isn't sent as long as it has the name: its job came, which can't be marked.
    pub fn pass_over(&mut self, name: &str)
        ensures same { self.new ≡ self.old }
    {
        self.files.pass_over_settled(name);
    }

    /// The time, as it is in names.
    pub fn stamp(&self) -> Result<String, AllocError> {
        self.files.stamp()
    }

    /// A job that came whole has this path in in/, which has its name from this time and number: that is told, and its paper is due.
    pub fn note_kept(&mut self, job: &Job, path: String, stamp: &str, number: u64)
        ensures entries { self.new.entries ≡ self.old.entries }
    {
        self.files.make_paper();
        self.files.note_kept(job, path, stamp, number);
    }

    /// A job can't be kept: nothing is received until a file of its length can be.
    pub fn note_not_kept(&mut self, job: &Job)
        ensures entries { self.new.entries ≡ self.old.entries }
    {
        self.files.note_not_kept(job);
    }

    /// Puts this file of out/ aside, for this reason, which is beside it.
    pub fn refuse(
        &mut self,
        name: String,
        file: FileIdentity,
        why: RefusedFile,
    ) -> Result<(), SpoolFault>
        ensures entries { self.new.entries ≡ self.old.entries }
        ensures files { self.new.files ≡ self.old.files }
    {
        self.files.refuse_file(name, file, why)
    }

    /// Takes this name in out/ away from the file that has this other path too. If another file has got the name by then, that one keeps it.
    pub fn take_out(&mut self, name: &str, kept: &str) -> Result<(), SpoolFault>
        ensures entries { self.new.entries ≡ self.old.entries }
        ensures files { self.new.files ≡ self.old.files }
    {
        self.files.take_out(name, kept)
    }
}

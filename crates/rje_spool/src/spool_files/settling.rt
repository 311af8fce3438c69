//! What the files of a spool are asked for where doubt is settled by receipts.
ghost use Rattle.std.specs.Prelude.{◌≡◌, [], IfSome, None, OnErr, OnOk, Some, string_bytes};
ghost use Rattle.std.specs.BTreeMap.{get_by_text};
ghost use Rattle.rje_spool.specs.Backed.{GoesOn};
ghost use Rattle.rje_spool.specs.GivenFiles.{file_of};
ghost use Rattle.rje_spool.specs.GivenJob.{IsGivenJob};

use super::SpoolFiles;
use super::filing::is_hidden_perhaps;
use crate::due_paper::DuePaper;
use crate::given_files::GivenFiles;
use crate::given_job::GivenJob;
use crate::notice::{JobLabel, Notice};
use crate::paper::received_file;
use crate::passed_files::Until;
use crate::refused_file::RefusedFile;
use crate::spool_fault::SpoolFault;
use crate::watching::Watching;
use rje_day::Disposition;
use rje_folder::{FileIdentity, Folder, FolderDisk, FolderFault, OutName};
use rje_jobs::Job;
use std::alloc::AllocError;
use std::io::Write;
use std::time::Clock;

impl<D: FolderDisk + Drop, C: Clock, W: Write, L: Write> SpoolFiles<D, C, W, L> {
    /// From now on the other end's receipts tell what may have arrived.
    pub(crate) fn begin_settling(&mut self)
        ensures folder { self.new.folder ≡ self.old.folder }
        ensures given { self.new.given ≡ self.old.given }
    {
        self.settles = true;
    }

    /// A transmission begins that is given no files.
    pub(crate) fn give_none(&mut self)
        ensures none { self.new.given.files.items ≡ [] }
        ensures folder { self.new.folder ≡ self.old.folder }
    {
        self.watching = Watching::new();
        self.given = GivenFiles::new(self.alloc);
    }

    /// Which job of which file a job of the last transmission is.
    pub(crate) fn given(&self, job: usize) -> Option<GivenJob<'_>>
        ensures { IfSome result (λ given. (file : _)
            × (file_of job self.now.given.files.items ≡ Some file) × IsGivenJob job file given) }
    {
        let file = self.given.of(job)?;
        Some(file.given(job))
    }

    /// What lies ready is read anew.
    pub(crate) fn look_anew(&mut self)
        ensures anew { self.new.ready.items ≡ [] }
        ensures passed { self.new.passed ≡ self.old.passed }
        ensures folder { self.new.folder ≡ self.old.folder }
        ensures given { self.new.given ≡ self.old.given }
    {
        self.ready = Vec::new(self.alloc);
    }

    /// The file of this name in out/ lies ready again, though it may have been passed over.
    pub(crate) fn lies_ready(&mut self, name: &str)
        ensures again { get_by_text self.new.passed.files name.now ≡ None }
        ensures anew { self.new.ready.items ≡ [] }
        ensures folder { self.new.folder ≡ self.old.folder }
        ensures given { self.new.given ≡ self.old.given }
    {
        self.passed.forget(name);
        self.look_anew();
    }

    /// The file of this name in out/ isn't sent as long as it has the name.
    pub(crate) fn pass_over_settled(&mut self, name: &str)
        ensures folder { self.new.folder ≡ self.old.folder }
        ensures given { self.new.given ≡ self.old.given }
    {
        let file = self.folder.identity(name).ok();
        if let Ok(name) = String::from_str(self.alloc, name) {
            let _ = self.passed.add(name, Until::Replaced(file));
        }
        self.look_anew();
    }

    /// The time, as it is in names.
    pub(crate) fn stamp(&self) -> Result<String, AllocError> {
        self.console.stamps().stamp()
    }

    /// A job that came whole has this path in in/, which has its name from this time and number: its paper is due.
    pub(crate) fn note_kept(&mut self, job: &Job, path: String, stamp: &str, number: u64)
        ensures folder { self.new.folder ≡ self.old.folder }
    {
        self.console
            .tell(Notice::Received(path.as_str(), JobLabel::of(job)));
        let number = u32::try_from(number).unwrap_or(u32::MAX);
        match DuePaper::of(self.alloc, job, stamp, number) {
            Ok(due) => self.due = Some((path, due)),
            Err(fault) => self.tell_no_paper(path.as_str(), &fault),
        }
    }

    /// A job can't be kept: nothing is received until a file of its length can be.
    pub(crate) fn note_not_kept(&mut self, job: &Job)
        ensures folder { self.new.folder ≡ self.old.folder }
    {
        if let Ok(file) = received_file(self.alloc, job) {
            self.unkept
                .add(file.len() as u64, self.console.stamps().clock());
            self.console.tell(Notice::ReceivesNot);
        }
    }

    /// Puts this file of out/ aside, for this reason.
    pub(crate) fn refuse_file(
        &mut self,
        name: String,
        file: FileIdentity,
        why: RefusedFile,
    ) -> Result<(), SpoolFault>
        ensures given { self.new.given ≡ self.old.given }
        ensures on { D.discloses
            → GoesOn (D.asked self.old.folder.disk) (D.asked self.new.folder.disk) }
        ensures path { self.new.folder.path ≡ self.old.folder.path }
    {
        self.refuse(name, file, why)
    }

    /// Takes this name in out/ away from the file that has this other path too. If another file has got the name by then, that one keeps it.
    pub(crate) fn take_out(&mut self, name: &str, kept: &str) -> Result<(), SpoolFault>
        ensures given { self.new.given ≡ self.old.given }
        ensures on { D.discloses
            → GoesOn (D.asked self.old.folder.disk) (D.asked self.new.folder.disk) }
        ensures path { self.new.folder.path ≡ self.old.folder.path }
    {
        let settled = self.folder.settle(name, kept, Disposition::InDoubt)?;
        if is_hidden_perhaps(settled.out) {
            self.hidden.add(self.console.stamps().clock());
        }
        unless_left(settled.out)
    }
}

/// The fault of a name in out/ that stays, which was to be taken away.
fn unless_left(out: OutName) -> Result<(), SpoolFault>
    ensures left { (kind : _) → out ≡ OutName.Left kind → OnOk result ⊥ }
    ensures gone { OnErr result ((kind : _) × (out ≡ OutName.Left kind)) }
{
    match out {
        OutName::Left(kind) => Err(SpoolFault::Folder(FolderFault::Failed(Folder::Out, kind))),
        OutName::Stands | OutName::Missing | OutName::OfAnother | OutName::TakenAway => Ok(()),
    }
}

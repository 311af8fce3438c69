//! What becomes of the jobs that come.
ghost use Rattle.std.specs.Prelude.{◌≡◌, ◌<◌, true, false, IfOk, IfSome, None, OnOk, string_bytes};
ghost use Rattle.rje_folder.specs.Folder.{path_of};
ghost use Rattle.rje_folder.specs.Keeping.{HasTriedToKeep, WasMade, WasNamed};
ghost use Rattle.rje_spool.specs.Backed.{GoesOn, WasPut};
ghost use Rattle.rje_spool.specs.declared.spool_fault.SpoolFault.TheVariants.{OutOfMemory};
ghost use Rattle.rje_spool.specs.Keeping.{IsKeptIn};

use super::SpoolFiles;
use crate::cut_job::CutJob;
use crate::due_paper::DuePaper;
use crate::notice::{JobLabel, Notice};
use crate::paper::received_file;
use crate::spool_fault::SpoolFault;
use crate::unkept::Unkept;
use rje_folder::{Folder, FolderDisk};
use rje_jobs::Job;
use rje_session::Totals;
use rje_store::MAX_INPUT;
use std::io::Write;
use std::time::Clock;

/// More than the records of one block take in a job file: their blanks are counted in its text.
const LONGEST_BLOCK: usize = 16_384;

impl<D: FolderDisk + Drop, C: Clock, W: Write, L: Write> SpoolFiles<D, C, W, L> {
    /// Whether what comes can be kept: after a job that couldn't be, once a file of its length can.
    pub(crate) fn can_receive(&mut self) -> bool
        ensures first { self.old.unkept.len ≡ None → result ≡ true }
        ensures tried { D.discloses → result ≡ true → IfSome self.old.unkept.len (λ len.
            HasTriedToKeep (path_of (string_bytes self.old.folder.path) Folder.In) len
            (D.asked self.new.folder.disk)) }
        ensures again { result ≡ true → self.new.unkept.len ≡ None }
        ensures still { result ≡ false → self.new.unkept.len ≡ self.old.unkept.len }
        ensures on { D.discloses
            → GoesOn (D.asked self.old.folder.disk) (D.asked self.new.folder.disk) }
        ensures path { self.new.folder.path ≡ self.old.folder.path }
    {
        let Some(len) = self.unkept.len() else {
            return true;
        };
        if !self.unkept.tries(self.console.stamps().clock())
            || self.folder.try_to_keep(Folder::In, len).is_err()
        {
            return false;
        }
        self.unkept = Unkept::new();
        self.console.tell(Notice::Receives);
        true
    }

    /// Whether these jobs, which came so far, can be held. One that came whole can be, as it is kept next.
    pub(crate) fn can_hold(&mut self, jobs: &[Job]) -> bool
        ensures folder { self.new.folder ≡ self.old.folder }
    {
        match jobs.last() {
            Some(job) if job.whole => true,
            _ => self.has_room(jobs),
        }
    }

    /// Keeps a job that came whole in in/, on disk when it returns. Its paper is due then.
    pub(crate) fn keep(&mut self, job: &Job) -> Result<(), SpoolFault>
        ensures kept { D.discloses → OnOk result (WasPut
            (string_bytes self.old.folder.path) Folder.In job.now
            (D.asked self.old.folder.disk) (D.asked self.new.folder.disk)) }
        ensures on { D.discloses
            → GoesOn (D.asked self.old.folder.disk) (D.asked self.new.folder.disk) }
        ensures path { self.new.folder.path ≡ self.old.folder.path }
    {
        let path = match self.keep_in(Folder::In, job) {
            Ok(path) => path,
            Err(fault) => {
                self.note_unkept(job, &fault);
                return Err(fault);
            }
        };
        self.console
            .tell(Notice::Received(path.as_str(), JobLabel::of(job)));
        let number = self.number.saturating_sub(1);
        match DuePaper::of(self.alloc, job, self.stamp.as_str(), number) {
            Ok(due) => self.due = Some((path, due)),
            Err(fault) => self.tell_no_paper(path.as_str(), &fault),
        }
        Ok(())
    }

    /// A job can't be kept, for this reason: where that isn't want of memory, nothing is received until a file of its length can be.
    fn note_unkept(&mut self, job: &Job, why: &SpoolFault)
        ensures memory { why.now ≡ OutOfMemory → self.new.unkept ≡ self.old.unkept }
        ensures folder { self.new.folder ≡ self.old.folder }
    {
        if matches!(why, SpoolFault::OutOfMemory) {
            return;
        }
        self.note_not_kept(job);
    }

    /// Makes the printout that is due, if one is. It is told where that can't be.
    pub(crate) fn make_paper(&mut self)
        ensures on { D.discloses
            → GoesOn (D.asked self.old.folder.disk) (D.asked self.new.folder.disk) }
        ensures path { self.new.folder.path ≡ self.old.folder.path }
    {
        let Some((path, due)) = self.due.take() else {
            return;
        };
        if let Err(fault) = due.put_into(&mut self.folder) {
            self.tell_no_paper(path.as_str(), &SpoolFault::from(fault));
        }
    }

    /// The job that is kept under this path has no paper.
    pub(super) fn tell_no_paper(&mut self, path: &str, why: &SpoolFault)
        ensures folder { self.new.folder ≡ self.old.folder }
    {
        if let Ok(text) = format!(in self.alloc; "no paper of {path}: {why}") {
            self.console.tell(Notice::Failed(text.as_str()));
        }
    }

    /// Keeps a job that was cut in cut/. On disk when it returns.
    pub(crate) fn keep_cut(&mut self, job: &Job) -> Result<(), SpoolFault>
        ensures kept { D.discloses → OnOk result (WasPut
            (string_bytes self.old.folder.path) Folder.Cut job.now
            (D.asked self.old.folder.disk) (D.asked self.new.folder.disk)) }
        ensures on { D.discloses
            → GoesOn (D.asked self.old.folder.disk) (D.asked self.new.folder.disk) }
        ensures path { self.new.folder.path ≡ self.old.folder.path }
    {
        let path = self.keep_in(Folder::Cut, job)?;
        self.console
            .tell(Notice::Cut(path.as_str(), JobLabel::of(job)));
        self.drop_earlier(path, job);
        Ok(())
    }

    /// A job was cut, and is kept under this path: where it was cut before, as the last one that was, its file of that time is taken away.
    fn drop_earlier(&mut self, path: String, job: &Job)
        ensures on { D.discloses
            → GoesOn (D.asked self.old.folder.disk) (D.asked self.new.folder.disk) }
        ensures path { self.new.folder.path ≡ self.old.folder.path }
    {
        let (Ok(bytes), Ok(file)) = (
            received_file(self.alloc, job),
            self.folder.identity_at(path.as_str()),
        ) else {
            return;
        };
        if let Some(earlier) = self.cut.take() {
            if earlier.is_again(bytes.as_slice()) {
                let _ = self.folder.drop_cut(earlier.path.as_str(), earlier.file);
            }
        }
        self.cut = Some(CutJob { path, file, bytes });
    }

    /// Whether there is room for more than these jobs, which came so far, and each can be kept in a file that can be read again. It is told where
    /// there isn't.
    pub(super) fn has_room(&mut self, jobs: &[Job]) -> bool
        ensures folder { self.new.folder ≡ self.old.folder }
    {
        self.tally = if jobs.is_empty() {
            Totals::after_file(0)
        } else {
            self.tally.after(jobs)
        };
        if self.tally.is_too_much(MAX_INPUT - LONGEST_BLOCK) {
            self.console
                .tell(Notice::Failed("more came than can be kept"));
            return false;
        }
        true
    }

    /// Keeps a job in a folder, as a job file of it alone, under the time and the number that comes next. Its path. On disk when it returns.
    fn keep_in(&mut self, folder: Folder, job: &Job) -> Result<String, SpoolFault>
        // No number is used twice with one time.
        ensures number { OnOk result (string_bytes self.new.stamp ≡ string_bytes self.old.stamp
            → self.old.number < self.new.number) }
        ensures kept { D.discloses → IfOk result (λ path.
            IsKeptIn (string_bytes self.old.folder.path) folder job.now (string_bytes path)
            (D.asked self.new.folder.disk)) }
        ensures made { D.discloses → IfOk result (λ path. WasMade (string_bytes path)
            (D.asked self.old.folder.disk) (D.asked self.new.folder.disk)) }
        ensures named { D.discloses → IfOk result (λ path. WasNamed (string_bytes path)
            (D.asked self.old.folder.disk) (D.asked self.new.folder.disk)) }
        ensures on { D.discloses
            → GoesOn (D.asked self.old.folder.disk) (D.asked self.new.folder.disk) }
        ensures path { self.new.folder.path ≡ self.old.folder.path }
    {
        self.number_anew()?;
        let file = received_file(self.alloc, job)?;
        let kept = self.folder.keep(
            folder,
            self.stamp.as_str(),
            self.number,
            ".job",
            file.as_slice(),
        )?;
        self.number = kept.next;
        Ok(kept.path)
    }
}

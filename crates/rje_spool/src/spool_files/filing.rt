//! What becomes of the files of the jobs that go out.
ghost use Rattle.std.specs.Prelude.{◌≡◌, [], OnErr, OnOk, string_bytes, true};
ghost use Rattle.rje_spool.specs.Backed.{GoesOn};
ghost use Rattle.rje_spool.specs.declared.given_file.Standing.TheVariants.{Ready};
ghost use Rattle.rje_spool.specs.GivenFile.{HasSecondName, IsDoubted};
ghost use Rattle.rje_spool.specs.GivenFiles.{HasBeenCounted, HasGoneOut, IsSettledSo, OfFile, WasMarked};
ghost use Rattle.rje_spool.specs.Passing.{may_be_hidden};

use super::SpoolFiles;
use crate::console::Console;
use crate::given_file::GivenFile;
use crate::notice::Notice;
use crate::passed_files::{PassedFiles, Until};
use crate::spool_fault::SpoolFault;
use rje_day::Disposition;
use rje_folder::{FolderDisk, FolderFault, OutName, StationFolder};
use std::io::Write;
use std::time::Clock;

impl<D: FolderDisk + Drop, C: Clock, W: Write, L: Write> SpoolFiles<D, C, W, L> {
    /// The last block of this job goes out next: from now on its file has a name in doubt/, on disk.
    pub(crate) fn goes_out(&mut self, job: usize) -> Result<(), SpoolFault>
        ensures out { D.discloses → OnOk result (OfFile job
            (λ file now. HasGoneOut D.is_file (string_bytes self.old.folder.path) file now
            (D.asked self.old.folder.disk) (D.asked self.new.folder.disk))
            self.old.given.files.items self.new.given.files.items) }
        ensures on { D.discloses
            → GoesOn (D.asked self.old.folder.disk) (D.asked self.new.folder.disk) }
        ensures path { self.new.folder.path ≡ self.old.folder.path }
    {
        match self.given.goes_out(job, &mut self.folder) {
            Ok(()) => Ok(()),
            Err(fault) => Err(self.told_fault(job, fault)),
        }
    }

    /// Tells why the file of a job can't be dealt with, by its name; but not that there is no memory. One that was replaced is passed over for one look, so
    /// that the files behind it go, however often it is.
    fn told_fault(&mut self, job: usize, why: FolderFault) -> SpoolFault
        ensures files { self.new.given ≡ self.old.given }
        ensures folder { self.new.folder ≡ self.old.folder }
    {
        if why == FolderFault::OutOfMemory {
            return SpoolFault::OutOfMemory;
        }
        self.tell_of_file(job, &why);
        if why == FolderFault::Replaced {
            self.pass_replaced(job);
        }
        SpoolFault::OfFile(why)
    }

    /// The file of a job, which was replaced, is passed over for one look.
    fn pass_replaced(&mut self, job: usize)
        ensures files { self.new.given ≡ self.old.given }
        ensures folder { self.new.folder ≡ self.old.folder }
    {
        let Some(file) = self.given.of(job) else {
            return;
        };
        if let Ok(name) = String::from_str(self.alloc, file.name.as_str()) {
            let _ = self.passed.add(name, Until::NextLook);
        }
    }

    /// Tells why the file of a job can't be dealt with.
    fn tell_of_file(&mut self, job: usize, why: &FolderFault)
        ensures folder { self.new.folder ≡ self.old.folder }
        ensures given { self.new.given ≡ self.old.given }
    {
        let Some(file) = self.given.of(job) else {
            return;
        };
        if let Ok(text) = format!(in self.alloc; "{}: {why}", file.name) {
            self.console.tell(Notice::Failed(text.as_str()));
        }
    }

    /// What became of this job.
    pub(crate) fn settle(&mut self, job: usize, what: Disposition) -> Result<(), SpoolFault>
        ensures stands { D.discloses → OnOk result (OfFile job
            (IsSettledSo job what (string_bytes self.old.folder.path)
            (D.asked self.new.folder.disk))
            self.old.given.files.items self.new.given.files.items) }
        ensures marked { D.discloses → OnOk result (what ≡ Disposition.Sent → OfFile job
            (λ file _. WasMarked job file
            (D.asked self.old.folder.disk) (D.asked self.new.folder.disk))
            self.old.given.files.items self.new.given.files.items) }
        ensures left { OnErr result (OfFile job
            (λ file now. HasSecondName file.place → IsDoubted now.place)
            self.old.given.files.items self.new.given.files.items) }
        ensures on { D.discloses
            → GoesOn (D.asked self.old.folder.disk) (D.asked self.new.folder.disk) }
        ensures path { self.new.folder.path ≡ self.old.folder.path }
    {
        match what {
            Disposition::Sent => self.count(job),
            Disposition::InDoubt => self.doubt(job),
            Disposition::Ready => self.take_back(job),
        }
    }

    /// A job may have arrived, or nobody knows: its file is in doubt/.
    fn doubt(&mut self, job: usize) -> Result<(), SpoolFault>
        ensures doubted { OnOk result (OfFile job (λ file now. IsDoubted now.place)
            self.old.given.files.items self.new.given.files.items) }
        ensures left { OnErr result (OfFile job
            (λ file now. HasSecondName file.place → IsDoubted now.place)
            self.old.given.files.items self.new.given.files.items) }
        ensures on { D.discloses
            → GoesOn (D.asked self.old.folder.disk) (D.asked self.new.folder.disk) }
        ensures path { self.new.folder.path ≡ self.old.folder.path }
    {
        let doubted = match self.given.is_doubted(job, &mut self.folder) {
            Ok(doubted) => doubted,
            Err(fault) => return Err(self.told_fault(job, fault)),
        };
        if doubted {
            self.tell_doubt(job);
            self.tell_written(job);
        }
        Ok(())
    }

    /// Tells that the file of a job that is in doubt, or was counted, was written to when its last block was out, if it was: it isn't what was sent.
    fn tell_written(&mut self, job: usize)
        ensures folder { self.new.folder ≡ self.old.folder }
        ensures given { self.new.given ≡ self.old.given }
    {
        let Some(file) = self.given.of(job) else {
            return;
        };
        let Some(path) = file.doubt_path().or(file.sent_path()) else {
            return;
        };
        if let Ok(false) = self.folder.has_file(path, file.file) {
            self.tell_of_file(job, &FolderFault::WrittenTo);
        }
    }

    /// The fault of a job that can't be filed. That its file was written to is told by the file's name.
    fn fault_of(&mut self, job: usize, fault: FolderFault) -> SpoolFault
        ensures folder { self.new.folder ≡ self.old.folder }
        ensures given { self.new.given ≡ self.old.given }
    {
        if fault != FolderFault::WrittenTo {
            return SpoolFault::from(fault);
        }
        self.tell_of_file(job, &fault);
        SpoolFault::OfFile(fault)
    }

    /// Reports that the file of a job is in doubt/.
    fn tell_doubt(&mut self, job: usize)
        ensures ready { self.new.ready ≡ self.old.ready }
        ensures brake { self.old.settles ≡ true → self.new.brake ≡ self.old.brake }
        ensures folder { self.new.folder ≡ self.old.folder }
        ensures given { self.new.given ≡ self.old.given }
    {
        let Some(file) = self.given.of(job) else {
            return;
        };
        if let Some(path) = file.doubt_path() {
            if self.settles {
                self.console
                    .tell(Notice::UntilReceipt(file.name.as_str(), path));
            } else {
                self.console.tell(Notice::Doubt(file.name.as_str(), path));
                if self.brake.doubted(self.console.stamps().clock()) {
                    self.console.tell(Notice::Stopped);
                }
            }
        }
        self.tell_left(job);
    }

    /// A job was counted.
    fn count(&mut self, job: usize) -> Result<(), SpoolFault>
        ensures sends { OnOk result (self.new.brake.doubts ≡ 0) }
        ensures marked { D.discloses → OnOk result (OfFile job
            (λ file _. WasMarked job file
            (D.asked self.old.folder.disk) (D.asked self.new.folder.disk))
            self.old.given.files.items self.new.given.files.items) }
        ensures sent { D.discloses → OnOk result (OfFile job
            (λ file now. HasBeenCounted job (string_bytes self.old.folder.path) file now
            (D.asked self.new.folder.disk))
            self.old.given.files.items self.new.given.files.items) }
        ensures left { OnErr result (OfFile job
            (λ file now. HasSecondName file.place → IsDoubted now.place)
            self.old.given.files.items self.new.given.files.items) }
        ensures on { D.discloses
            → GoesOn (D.asked self.old.folder.disk) (D.asked self.new.folder.disk) }
        ensures path { self.new.folder.path ≡ self.old.folder.path }
    {
        match self.given.is_counted(job, &mut self.folder) {
            Ok(()) => {
                self.tell_sent(job);
                Ok(())
            }
            Err(fault) => {
                self.tell_doubt(job);
                Err(self.fault_of(job, fault))
            }
        }
    }

    /// Tells that a job was counted, and where it is the last one of the transmission notes how long that took.
    fn tell_sent(&mut self, job: usize)
        ensures sends { self.new.brake.doubts ≡ 0 }
        ensures folder { self.new.folder ≡ self.old.folder }
        ensures given { self.new.given ≡ self.old.given }
    {
        if let Some(file) = self.given.of(job) {
            self.console.tell(Notice::Sent(
                file.name.as_str(),
                file.label_of(job),
                file.sent_path(),
            ));
        }
        self.tell_written(job);
        self.brake.release();
        self.tell_left(job);
        if job.saturating_add(1) == self.given.jobs() {
            self.pace.end(self.console.stamps().clock());
        }
    }

    /// Tells what became of the name in out/ of a job's file, where it wasn't the station that took it away. One that can't be taken away isn't taken
    /// for ready again.
    fn tell_left(&mut self, job: usize)
        ensures brake { self.new.brake ≡ self.old.brake }
        ensures ready { self.new.ready ≡ self.old.ready }
        ensures folder { self.new.folder ≡ self.old.folder }
        ensures given { self.new.given ≡ self.old.given }
    {
        let Some(file) = self.given.of(job) else {
            return;
        };
        if is_hidden_perhaps(file.out) {
            self.hidden.add(self.console.stamps().clock());
        }
        match file.out {
            OutName::Missing => self.console.tell(Notice::TakenBack(file.name.as_str())),
            OutName::Left(kind) => {
                self.console.tell(Notice::Left(file.name.as_str(), kind));
                if let Ok(name) = String::from_str(self.alloc, file.name.as_str()) {
                    let _ = self.passed.add(name, Until::Replaced(Some(file.file)));
                }
            }
            OutName::Stands | OutName::TakenAway | OutName::OfAnother => {}
        }
        self.pass_renamed(job);
    }

    /// Where the file of a job had lost its name in out/ when its last block was out, it isn't sent under another one that it has there.
    fn pass_renamed(&mut self, job: usize)
        ensures brake { self.new.brake ≡ self.old.brake }
        ensures ready { self.new.ready ≡ self.old.ready }
        ensures folder { self.new.folder ≡ self.old.folder }
        ensures given { self.new.given ≡ self.old.given }
    {
        if let Some(file) = self.given.of(job) {
            if matches!(file.out, OutName::Missing | OutName::OfAnother) {
                pass_other_names(&self.folder, file, &mut self.console, &mut self.passed);
            }
        }
    }

    /// A job lies ready still. The folder is read anew, since its file comes before those that were to be next.
    fn take_back(&mut self, job: usize) -> Result<(), SpoolFault>
        ensures anew { self.new.ready.items ≡ [] }
        ensures ready { OnOk result (OfFile job
            (λ file now. HasSecondName file.place → now.place ≡ Ready)
            self.old.given.files.items self.new.given.files.items) }
        ensures left { OnErr result (OfFile job
            (λ file now. HasSecondName file.place → IsDoubted now.place)
            self.old.given.files.items self.new.given.files.items) }
        ensures on { D.discloses
            → GoesOn (D.asked self.old.folder.disk) (D.asked self.new.folder.disk) }
        ensures path { self.new.folder.path ≡ self.old.folder.path }
    {
        self.ready = Vec::new(self.alloc);
        match self.given.lies_ready(job, &mut self.folder) {
            Ok(()) => Ok(()),
            Err(fault) => {
                self.tell_doubt(job);
                Err(SpoolFault::from(fault))
            }
        }
    }
}

/// Passes over the names of this file that lie ready in out/, and tells them.
fn pass_other_names<D: FolderDisk + Drop, C: Clock, W: Write, L: Write>(
    folder: &StationFolder<D>,
    file: &GivenFile,
    console: &mut Console<C, W, L>,
    passed: &mut PassedFiles,
) {
    let Ok(names) = folder.names_ready() else {
        return;
    };
    for name in names {
        if folder
            .identity(name.as_str())
            .is_ok_and(|found| found == file.file)
        {
            console.tell(Notice::RenamedMeanwhile(name.as_str(), file.name.as_str()));
            let _ = passed.add(name, Until::Replaced(Some(file.file)));
        }
    }
}

/// Whether another file may have been hidden, and not been given its name back, as this became of a name in out/.
pub(super) fn is_hidden_perhaps(out: OutName) -> bool
    ensures { result ≡ may_be_hidden out }
{
    matches!(
        out,
        OutName::Missing | OutName::OfAnother | OutName::Left(_)
    )
}

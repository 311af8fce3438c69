//! A file whose jobs are in a transmission.
ghost use Rattle.std.specs.Prelude.{◌≡◌, IfNone, IfOk, IfSome, OnErr, OnOk, false, true, string_bytes};
ghost use Rattle.rje_store.specs.Disk.{has_synced_name};
ghost use Rattle.rje_store.specs.Replacing.{Adds};
ghost use Rattle.rje_folder.specs.declared.folder.Folder.{Folder};
ghost use Rattle.rje_folder.specs.declared.settled.OutName.TheVariants.{TakenAway};
ghost use Rattle.rje_folder.specs.Folder.{path_in};
ghost use Rattle.rje_folder.specs.Moving.{IsGone};
ghost use Rattle.rje_folder.specs.Promising.{MayPromise, MaySettle};
ghost use Rattle.rje_spool.specs.declared.given_file.Standing.TheVariants.{Promised, Ready};
ghost use Rattle.rje_spool.specs.Backed.{GoesOn};
ghost use Rattle.rje_spool.specs.GivenFile.{HasSecondName, HasSent, IsDoubted, IsDoubtedUnder, IsInSent, IsOfRead, IsSentUnder, IsUnsettled, OfPromised, StaysInDoubt};
ghost use Rattle.rje_spool.specs.GivenFiles.{HasBeenCounted, HasGoneOut, HasMark, IsKnownAsMarked, WasMarked, is_last_of, is_of, label_of, mark_of};
ghost use Rattle.rje_spool.specs.GivenJob.{IsGivenJob};

use crate::file_job::FileJob;
use crate::given_job::GivenJob;
use rje_day::Disposition;
use rje_files::MARK;
use rje_folder::{FileIdentity, FolderDisk, FolderFault, OutName, StationFolder};
use std::io::ErrorKind;
use std::mem;

/// Where the file of a job stands.
#[derive(Debug, Drop)]
pub(crate) enum Standing {
    /// In out/ alone.
    Ready,
    /// In out/, with a second name in doubt/ of this path.
    Promised(String),
    /// In sent/, under this path.
    Sent(String),
    /// In doubt/, under this path.
    Doubted(String),
}

/// A file of out/ whose jobs are in the transmission that was begun last.
#[derive(Debug, Drop)]
pub(crate) struct GivenFile {
    /// Its name.
    pub(crate) name: String,
    /// The number of its first job in the transmission, from 0.
    pub(crate) first: usize,
    /// How many jobs of it there are.
    pub(crate) count: usize,
    /// Of a job file, where each of them is marked as sent.
    pub(crate) places: Vec<usize>,
    /// Of a job file, which job of it each of them is.
    pub(crate) labels: Vec<FileJob>,
    /// Which file it is, as it was read or marked.
    pub(crate) file: FileIdentity,
    /// Where it stands.
    pub(crate) place: Standing,
    /// What became of its name in out/.
    pub(crate) out: OutName,
}

impl GivenFile {
    /// Whether a job of the transmission is of it.
    pub(crate) fn has(&self, job: usize) -> bool
        ensures { result ≡ is_of job self.now }
    {
        self.first <= job && job - self.first < self.count
    }

    /// Whether a job of the transmission is its last.
    pub(crate) fn ends_with(&self, job: usize) -> bool
        ensures { result ≡ is_last_of job self.now }
    {
        self.has(job) && self.count - (job - self.first) == 1
    }

    /// Where a job of the transmission is marked in the file, if it is.
    pub(crate) fn mark_of(&self, job: usize) -> Option<usize>
        ensures { result ≡ mark_of job self.now }
    {
        self.places.get(job.checked_sub(self.first)?).copied()
    }

    /// Which job of its job file a job of the transmission is, if it is of one.
    pub(crate) fn label_of(&self, job: usize) -> Option<FileJob>
        ensures { result ≡ label_of job self.now }
    {
        self.labels.get(job.checked_sub(self.first)?).copied()
    }

    /// Which job of it a job of the transmission is.
    pub(crate) fn given(&self, job: usize) -> GivenJob<'_>
        ensures { IsGivenJob job self.now result }
    {
        GivenJob {
            name: self.name.as_str(),
            file: self.file,
            mark: match self.mark_of(job) {
                Some(mark) => Some(mark as u64),
                None => None,
            },
            is_last: self.ends_with(job),
        }
    }

    /// The last block of one of its jobs goes out next: it has a name in doubt/ from then on, on disk.
    pub(crate) fn goes_out<D: FolderDisk + Drop>(
        &mut self,
        folder: &mut StationFolder<D>,
    ) -> Result<(), FolderFault>
        ensures asks { D.discloses → Adds
            (MayPromise D.is_file D.are_one (string_bytes folder.old.path)
            (record { name = string_bytes self.old.name; file = self.old.file }))
            (D.asked folder.old.disk) (D.asked folder.new.disk) }
        ensures gone { D.discloses → OnOk result (HasGoneOut D.is_file
            (string_bytes folder.old.path) self.old self.new
            (D.asked folder.old.disk) (D.asked folder.new.disk)) }
        ensures second { OnOk result (IsUnsettled self.old.place
            → HasSecondName self.new.place) }
        ensures failed { OnErr result (self.old.place ≡ Ready) }
        ensures rest { self.new ≡ record self.old { place = self.new.place } }
        ensures on { D.discloses
            → GoesOn (D.asked folder.old.disk) (D.asked folder.new.disk) }
        ensures path { folder.new.path ≡ folder.old.path }
    {
        if let Standing::Ready = self.place {
            self.place = Standing::Promised(folder.promise(self.name.as_str(), self.file)?);
        }
        Ok(())
    }

    /// One of its jobs was counted: it is marked as sent, and where it is the last one the file goes to sent/. Where that fails, the file is in
    /// doubt/ alone.
    pub(crate) fn was_counted<D: FolderDisk + Drop>(
        &mut self,
        job: usize,
        folder: &mut StationFolder<D>,
    ) -> Result<(), FolderFault>
        ensures marked { D.discloses → OnOk result (WasMarked job self.old
            (D.asked folder.old.disk) (D.asked folder.new.disk)) }
        ensures sent { D.discloses → OnOk result (HasBeenCounted job (string_bytes folder.old.path)
            self.old self.new (D.asked folder.new.disk)) }
        ensures ready { OnOk result (is_last_of job self.old ≡ false
            → HasSecondName self.old.place → self.new.place ≡ Ready) }
        ensures failed { OnErr result (HasSecondName self.old.place → IsDoubted self.new.place) }
        ensures rest { self.new ≡ record self.old {
          file = self.new.file;
          place = self.new.place;
          out = self.new.out;
        } }
        ensures on { D.discloses
            → GoesOn (D.asked folder.old.disk) (D.asked folder.new.disk) }
        ensures path { folder.new.path ≡ folder.old.path }
    {
        let counted = self.count(job, folder);
        if counted.is_err() {
            self.stays_in_doubt(folder);
        }
        counted
    }

    /// The same, but that it stands where it stood where that fails.
    fn count<D: FolderDisk + Drop>(
        &mut self,
        job: usize,
        folder: &mut StationFolder<D>,
    ) -> Result<(), FolderFault>
        ensures marked { D.discloses → OnOk result (WasMarked job self.old
            (D.asked folder.old.disk) (D.asked folder.new.disk)) }
        ensures sent { D.discloses → OnOk result (HasBeenCounted job (string_bytes folder.old.path)
            self.old self.new (D.asked folder.new.disk)) }
        ensures ready { OnOk result (is_last_of job self.old ≡ false
            → HasSecondName self.old.place → self.new.place ≡ Ready) }
        ensures failed { OnErr result (self.new.place ≡ self.old.place) }
        ensures rest { self.new ≡ record self.old {
          file = self.new.file;
          place = self.new.place;
          out = self.new.out;
        } }
        ensures on { D.discloses
            → GoesOn (D.asked folder.old.disk) (D.asked folder.new.disk) }
        ensures path { folder.new.path ≡ folder.old.path }
    {
        self.set_mark(job, folder)?;
        self.stays_as_sent(folder)?;
        if self.ends_with(job) {
            self.is_sent(folder)
        } else {
            self.take_back(folder)
        }
    }

    /// A job is marked in the file, where it is a job file.
    fn set_mark<D: FolderDisk + Drop>(
        &mut self,
        job: usize,
        folder: &mut StationFolder<D>,
    ) -> Result<(), FolderFault>
        ensures marked { D.discloses → OnOk result (HasMark job self.old
            (D.asked folder.old.disk) (D.asked folder.new.disk)) }
        // It is known from then on as the file that it is once the mark is on disk.
        ensures known { D.discloses → OnOk result (IsKnownAsMarked job D.opened
            (D.is_open (D.asked folder.new.disk)) self.old self.new.file) }
        ensures rest { self.new ≡ record self.old { file = self.new.file } }
        ensures on { D.discloses
            → GoesOn (D.asked folder.old.disk) (D.asked folder.new.disk) }
        ensures path { folder.new.path ≡ folder.old.path }
    {
        if let (Standing::Promised(doubt), Some(mark)) = (&self.place, self.mark_of(job)) {
            self.file = folder.mark(doubt.as_str(), mark as u64, MARK, self.file)?;
        }
        Ok(())
    }

    /// Looks whether it is what was sent, by its name in doubt/: written to where it was changed since it was read or marked.
    fn stays_as_sent<D: FolderDisk + Drop>(
        &self,
        folder: &StationFolder<D>,
    ) -> Result<(), FolderFault>
        ensures { OnOk result (HasSecondName self.now.place → IsOfRead
            (D.is_file (D.asked folder.now.disk)) self.now.place self.now.file) }
    {
        let Standing::Promised(doubt) = &self.place else {
            return Ok(());
        };
        let same = folder.has_file(doubt.as_str(), self.file)?;
        if same {
            Ok(())
        } else {
            Err(FolderFault::WrittenTo)
        }
    }

    /// All its jobs were counted: it goes to sent/.
    fn is_sent<D: FolderDisk + Drop>(
        &mut self,
        folder: &mut StationFolder<D>,
    ) -> Result<(), FolderFault>
        ensures asks { D.discloses → Adds (OfPromised (λ doubt. MaySettle D.are_one
            (string_bytes folder.old.path) (string_bytes self.old.name) doubt Disposition.Sent)
            self.old.place) (D.asked folder.old.disk) (D.asked folder.new.disk) }
        ensures stands { D.discloses → OnOk result (HasSecondName self.old.place
            → IsInSent (string_bytes folder.old.path) (string_bytes self.old.name)
            self.new.place (D.asked folder.new.disk)) }
        ensures sent { D.discloses → OnOk result ((doubt : _) → self.old.place ≡ Promised doubt
            → HasSent (string_bytes folder.old.path) (string_bytes self.old.name)
            (string_bytes doubt) self.new.place (D.asked folder.old.disk) (D.asked folder.new.disk)) }
        ensures failed { OnErr result (self.new.place ≡ self.old.place) }
        ensures rest { self.new
            ≡ record self.old { place = self.new.place; out = self.new.out } }
        ensures on { D.discloses
            → GoesOn (D.asked folder.old.disk) (D.asked folder.new.disk) }
        ensures path { folder.new.path ≡ folder.old.path }
    {
        if let Standing::Promised(doubt) = &self.place {
            let settled = folder.settle(self.name.as_str(), doubt.as_str(), Disposition::Sent)?;
            self.out = settled.out;
            self.place = Standing::Sent(settled.path);
        }
        Ok(())
    }

    /// What is left of it lies ready still. Where that fails, it is in doubt/ alone.
    pub(crate) fn lies_ready<D: FolderDisk + Drop>(
        &mut self,
        folder: &mut StationFolder<D>,
    ) -> Result<(), FolderFault>
        ensures ready { OnOk result (HasSecondName self.old.place → self.new.place ≡ Ready) }
        ensures failed { OnErr result (HasSecondName self.old.place → IsDoubted self.new.place) }
        ensures rest { self.new
            ≡ record self.old { place = self.new.place; out = self.new.out } }
        ensures on { D.discloses
            → GoesOn (D.asked folder.old.disk) (D.asked folder.new.disk) }
        ensures path { folder.new.path ≡ folder.old.path }
    {
        let ready = self.take_back(folder);
        if ready.is_err() {
            self.stays_in_doubt(folder);
        }
        ready
    }

    /// The same, but that it stands where it stood where that fails.
    fn take_back<D: FolderDisk + Drop>(
        &mut self,
        folder: &mut StationFolder<D>,
    ) -> Result<(), FolderFault>
        ensures ready { OnOk result (HasSecondName self.old.place → self.new.place ≡ Ready) }
        ensures asks { D.discloses → Adds (OfPromised (λ doubt. MaySettle D.are_one
            (string_bytes folder.old.path) (string_bytes self.old.name) doubt Disposition.Ready)
            self.old.place) (D.asked folder.old.disk) (D.asked folder.new.disk) }
        ensures failed { OnErr result (self.new.place ≡ self.old.place) }
        ensures rest { self.new ≡ record self.old { place = self.new.place } }
        ensures on { D.discloses
            → GoesOn (D.asked folder.old.disk) (D.asked folder.new.disk) }
        ensures path { folder.new.path ≡ folder.old.path }
    {
        if let Standing::Promised(doubt) = &self.place {
            let settled = folder.settle(self.name.as_str(), doubt.as_str(), Disposition::Ready)?;
            if settled.out != OutName::Stands {
                return Err(FolderFault::Replaced);
            }
            self.place = Standing::Ready;
        }
        Ok(())
    }

    /// Nobody knows whether one of its jobs arrived, or whether all did that were counted: it is in doubt/. Whether it didn't before.
    pub(crate) fn is_doubted<D: FolderDisk + Drop>(
        &mut self,
        folder: &mut StationFolder<D>,
    ) -> Result<bool, FolderFault>
        ensures doubted { OnOk result (IsDoubted self.new.place) }
        ensures again { IfOk result (λ is_new. IsDoubted self.old.place → is_new ≡ false) }
        ensures first { IfOk result (λ is_new. (IsDoubted self.old.place → ⊥) → is_new ≡ true) }
        ensures failed { OnErr result (HasSecondName self.old.place → IsDoubted self.new.place) }
        ensures rest { self.new
            ≡ record self.old { place = self.new.place; out = self.new.out } }
        ensures on { D.discloses
            → GoesOn (D.asked folder.old.disk) (D.asked folder.new.disk) }
        ensures path { folder.new.path ≡ folder.old.path }
    {
        match &self.place {
            Standing::Doubted(_) => Ok(false),
            Standing::Sent(sent) => {
                let doubt = folder.doubt(sent.as_str(), self.name.as_str())?;
                self.place = Standing::Doubted(doubt);
                Ok(true)
            }
            _ => {
                self.goes_out(folder)?;
                self.stays_in_doubt(folder);
                Ok(true)
            }
        }
    }

    /// It was promised, and may have arrived: it is in doubt/ alone, unless its name in out/ can't be taken away.
    fn stays_in_doubt<D: FolderDisk + Drop>(&mut self, folder: &mut StationFolder<D>)
        ensures asks { D.discloses → Adds (OfPromised (λ doubt. MaySettle D.are_one
            (string_bytes folder.old.path) (string_bytes self.old.name) doubt Disposition.InDoubt)
            self.old.place) (D.asked folder.old.disk) (D.asked folder.new.disk) }
        ensures doubted { HasSecondName self.old.place → IsDoubted self.new.place }
        ensures gone { D.discloses → HasSecondName self.old.place → self.new.out ≡ TakenAway
            → IsGone (path_in (string_bytes folder.old.path) Folder.Out (string_bytes self.old.name))
            (D.asked folder.new.disk) }
        ensures stays { D.discloses → StaysInDoubt self.old.place
            (D.asked folder.old.disk) (D.asked folder.new.disk) }
        ensures rest { self.new
            ≡ record self.old { place = self.new.place; out = self.new.out } }
        ensures on { D.discloses
            → GoesOn (D.asked folder.old.disk) (D.asked folder.new.disk) }
        ensures path { folder.new.path ≡ folder.old.path }
    {
        if let Standing::Promised(doubt) = &self.place {
            self.out = leave_in_doubt(folder, self.name.as_str(), doubt.as_str());
            self.place = doubted(mem::replace(&mut self.place, Standing::Ready));
        }
    }

    /// Where it is in sent/, if it is.
    pub(crate) fn sent_path(&self) -> Option<&str>
        ensures { IfSome result (λ path. IsSentUnder self.now.place path.now) }
    {
        match &self.place {
            Standing::Sent(path) => Some(path.as_str()),
            _ => None,
        }
    }

    /// Where it is in doubt/, if it is.
    pub(crate) fn doubt_path(&self) -> Option<&str>
        ensures path { IfSome result (λ path. IsDoubtedUnder self.now.place path.now) }
        ensures none { IfNone result (IsDoubted self.now.place → ⊥) }
    {
        match &self.place {
            Standing::Doubted(path) => Some(path.as_str()),
            _ => None,
        }
    }
}

/// Where a file is in doubt/ alone that had a name there beside the one in out/.
fn doubted(place: Standing) -> Standing
    ensures { HasSecondName place → IsDoubted result }
{
    match place {
        Standing::Promised(doubt) => Standing::Doubted(doubt),
        place => place,
    }
}

/// Takes the name in out/ of a file away that has this path in doubt/. What became of it.
fn leave_in_doubt<D: FolderDisk + Drop>(
    folder: &mut StationFolder<D>,
    name: &str,
    doubt: &str,
) -> OutName
    ensures asks { D.discloses → Adds (MaySettle D.are_one
        (string_bytes folder.old.path) name.now doubt.now Disposition.InDoubt)
        (D.asked folder.old.disk) (D.asked folder.new.disk) }
    ensures gone { D.discloses → result ≡ TakenAway
        → IsGone (path_in (string_bytes folder.old.path) Folder.Out name.now)
        (D.asked folder.new.disk) }
    ensures stays { D.discloses → has_synced_name doubt.now (D.asked folder.old.disk) ≡ true
        → has_synced_name doubt.now (D.asked folder.new.disk) ≡ true }
    ensures path { folder.new.path ≡ folder.old.path }
{
    match folder.settle(name, doubt, Disposition::InDoubt) {
        Ok(settled) => settled.out,
        Err(_) => OutName::Left(ErrorKind::OutOfMemory),
    }
}

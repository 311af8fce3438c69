//! The files whose jobs are in a transmission.
ghost use Rattle.std.specs.Prelude.{◌≡◌, ◌+◌, ◌++◌, ◌∷◌, false, [], min, position, option_copied, string_bytes, OnOk, OnErr};
ghost use Rattle.rje_spool.specs.declared.given_file.GivenFile.{GivenFile as Item};
ghost use Rattle.rje_spool.specs.declared.given_file.Standing.TheVariants.{Ready};
ghost use Rattle.rje_spool.specs.Backed.{GoesOn};
ghost use Rattle.rje_spool.specs.GivenFile.{HasSecondName, IsDoubted};
ghost use Rattle.rje_spool.specs.GivenFiles.{HasBeenCounted, HasGoneOut, IsNext, OfFile, WasMarked, file_of, is_last_of, is_of, jobs_of};

use crate::file_job::FileJob;
use crate::given_file::{GivenFile, Standing};
use rje_folder::{FileIdentity, FolderDisk, FolderFault, OutName, StationFolder};
use std::alloc::{AllocError, Global};

/// The files of the transmission that was begun last, in the order of their jobs. A job goes by its number in the transmission, from 0.
#[derive(Debug, Drop)]
pub(crate) struct GivenFiles {
    files: Vec<GivenFile>,
}

impl GivenFiles {
    /// None yet. Takes no memory.
    pub(crate) fn new(alloc: Global) -> GivenFiles
        ensures none { result.files.items ≡ [] }
    {
        GivenFiles {
            files: Vec::new(alloc),
        }
    }

    /// How many jobs they have.
    pub(crate) fn jobs(&self) -> usize
        ensures { result ≡ jobs_of self.now.files.items }
    {
        match self.files.last() {
            Some(file) => file.first.saturating_add(file.count),
            None => 0,
        }
    }

    /// This file of this name, with so many jobs, comes after these. Where each of them is marked in it, and which of its jobs each is, if it is a job
    /// file.
    pub(crate) fn add(
        &mut self,
        name: String,
        file: FileIdentity,
        count: usize,
        places: Vec<usize>,
        labels: Vec<FileJob>,
    ) -> Result<(), AllocError>
        ensures added { OnOk result ((next : Item) × (self.new.files.items
            ≡ self.old.files.items ++ next ∷ []) × IsNext self.old.files.items count next
            × (next.name ≡ name) × (next.file ≡ file) × (next.places ≡ places)
            × (next.labels ≡ labels)) }
        ensures jobs { OnOk result (jobs_of self.new.files.items
            ≡ min (jobs_of self.old.files.items + count) 18446744073709551615) }
        ensures kept { OnErr result (self.new.files.items ≡ self.old.files.items) }
    {
        let next = GivenFile {
            name,
            first: self.jobs(),
            count,
            places,
            labels,
            file,
            place: Standing::Ready,
            out: OutName::Stands,
        };
        self.files.push(next)?;
        Ok(())
    }

    /// The file that a job is of.
    pub(crate) fn of(&self, job: usize) -> Option<&GivenFile>
        ensures { option_copied result ≡ file_of job self.now.files.items }
    {
        self.files.get(self.place_of(job)?)
    }

    /// The place of the file that a job is of.
    fn place_of(&self, job: usize) -> Option<usize>
        ensures { result ≡ position (is_of job) self.now.files.items }
    {
        self.files.iter().position(|file| file.has(job))
    }

    /// The last block of a job goes out next: its file has a name in doubt/ from then on, on disk.
    pub(crate) fn goes_out<D: FolderDisk + Drop>(
        &mut self,
        job: usize,
        folder: &mut StationFolder<D>,
    ) -> Result<(), FolderFault>
        ensures out { D.discloses → OnOk result (OfFile job
            (λ file now. HasGoneOut D.is_file (string_bytes folder.old.path) file now
            (D.asked folder.old.disk) (D.asked folder.new.disk))
            self.old.files.items self.new.files.items) }
        ensures on { D.discloses
            → GoesOn (D.asked folder.old.disk) (D.asked folder.new.disk) }
        ensures path { folder.new.path ≡ folder.old.path }
    {
        match self.place_of(job) {
            Some(place) => self.files[place].goes_out(folder),
            None => Ok(()),
        }
    }

    /// A job was counted: it is marked as sent, and where it is the last one of its file the file goes to sent/. Where that fails, a file with a name in
    /// doubt/ is there alone.
    pub(crate) fn is_counted<D: FolderDisk + Drop>(
        &mut self,
        job: usize,
        folder: &mut StationFolder<D>,
    ) -> Result<(), FolderFault>
        ensures marked { D.discloses → OnOk result (OfFile job
            (λ file _. WasMarked job file (D.asked folder.old.disk) (D.asked folder.new.disk))
            self.old.files.items self.new.files.items) }
        ensures sent { D.discloses → OnOk result (OfFile job
            (λ file now. HasBeenCounted job (string_bytes folder.old.path) file now
            (D.asked folder.new.disk)) self.old.files.items self.new.files.items) }
        ensures ready { OnOk result (OfFile job (λ file now. is_last_of job file ≡ false
            → HasSecondName file.place → now.place ≡ Ready)
            self.old.files.items self.new.files.items) }
        ensures failed { OnErr result (OfFile job
            (λ file now. HasSecondName file.place → IsDoubted now.place)
            self.old.files.items self.new.files.items) }
        ensures on { D.discloses
            → GoesOn (D.asked folder.old.disk) (D.asked folder.new.disk) }
        ensures path { folder.new.path ≡ folder.old.path }
    {
        match self.place_of(job) {
            Some(place) => self.files[place].was_counted(job, folder),
            None => Ok(()),
        }
    }

    /// A job lies ready still, and so does what is left of its file.
    pub(crate) fn lies_ready<D: FolderDisk + Drop>(
        &mut self,
        job: usize,
        folder: &mut StationFolder<D>,
    ) -> Result<(), FolderFault>
        ensures ready { OnOk result (OfFile job
            (λ file now. HasSecondName file.place → now.place ≡ Ready)
            self.old.files.items self.new.files.items) }
        ensures failed { OnErr result (OfFile job
            (λ file now. HasSecondName file.place → IsDoubted now.place)
            self.old.files.items self.new.files.items) }
        ensures on { D.discloses
            → GoesOn (D.asked folder.old.disk) (D.asked folder.new.disk) }
        ensures path { folder.new.path ≡ folder.old.path }
    {
        match self.place_of(job) {
            Some(place) => self.files[place].lies_ready(folder),
            None => Ok(()),
        }
    }

    /// Nobody knows whether a job arrived: its file is in doubt/. Whether it didn't before.
    pub(crate) fn is_doubted<D: FolderDisk + Drop>(
        &mut self,
        job: usize,
        folder: &mut StationFolder<D>,
    ) -> Result<bool, FolderFault>
        ensures doubted { OnOk result (OfFile job (λ file now. IsDoubted now.place)
            self.old.files.items self.new.files.items) }
        ensures failed { OnErr result (OfFile job
            (λ file now. HasSecondName file.place → IsDoubted now.place)
            self.old.files.items self.new.files.items) }
        ensures on { D.discloses
            → GoesOn (D.asked folder.old.disk) (D.asked folder.new.disk) }
        ensures path { folder.new.path ≡ folder.old.path }
    {
        match self.place_of(job) {
            Some(place) => self.files[place].is_doubted(folder),
            None => Ok(false),
        }
    }
}

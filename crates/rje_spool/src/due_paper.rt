//! The paper of a job that is kept, until it is put into its folder.
ghost use Rattle.std.specs.Prelude.{◌≡◌, IfOk, string_bytes};
ghost use Rattle.rje_jobs.specs.declared.job.Job.{Job as KeptJob};
ghost use Rattle.rje_spool.specs.Backed.{GoesOn};
ghost use Rattle.rje_spool.specs.Paper.{HasPaper, IsPaperOf};

use crate::paper::{paper_of, place_of_paper};
use crate::spool_fault::SpoolFault;
use rje_folder::{Folder, FolderDisk, FolderFault, StationFolder};
use rje_jobs::Job;
use std::alloc::Global;

/// The paper of a job that is kept, which is put into print/ or punch/ once the job is acknowledged.
#[derive(Debug, Drop)]
pub(crate) struct DuePaper {
    folder: Folder,
    // The time and the number of the job, and how the name of its paper ends.
    stamp: String,
    number: u32,
    ending: &'static str,
    bytes: Vec<u8>,
}

impl DuePaper {
    /// That of a job which is kept under this time and number.
    pub(crate) fn of(
        alloc: Global,
        job: &Job,
        stamp: &str,
        number: u32,
    ) -> Result<DuePaper, SpoolFault>
        ensures of { IfOk result (IsPaperOf job.now) }
        ensures stamp { IfOk result (λ due. string_bytes due.stamp ≡ stamp.now) }
        ensures number { IfOk result (λ due. due.number ≡ number) }
    {
        let Ok(bytes) = paper_of(alloc, job) else {
            return Err(SpoolFault::OutOfMemory);
        };
        let (folder, ending) = place_of_paper(job);
        Ok(DuePaper {
            folder,
            stamp: String::from_str(alloc, stamp)?,
            number,
            ending,
            bytes,
        })
    }

    /// Puts it into its folder. Its path. On disk when it returns.
    pub(crate) fn put_into<D: FolderDisk + Drop>(
        &self,
        folder: &mut StationFolder<D>,
    ) -> Result<String, FolderFault>
        ensures paper { D.discloses → IfOk result (λ path.
            (job : KeptJob) → IsPaperOf job self.now
            → HasPaper (string_bytes folder.old.path) (string_bytes self.now.stamp) self.now.number
            job (string_bytes path) (D.asked folder.new.disk)) }
        ensures on { D.discloses
            → GoesOn (D.asked folder.old.disk) (D.asked folder.new.disk) }
        ensures path { folder.new.path ≡ folder.old.path }
    {
        let kept = folder.keep(
            self.folder,
            self.stamp.as_str(),
            self.number,
            self.ending,
            self.bytes.as_slice(),
        )?;
        Ok(kept.path)
    }
}

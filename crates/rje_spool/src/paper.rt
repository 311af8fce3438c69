//! What is made of a job that came.
ghost use Rattle.std.specs.Prelude.{◌≡◌, [], ◌∷◌, IfErr, IfOk};
ghost use Rattle.rje_files.specs.declared.job_file.version.FileVersion.TheVariants.{Second};
ghost use Rattle.rje_files.specs.Entry.{entry_of};
ghost use Rattle.rje_files.specs.JobFile.{IsEntryFileOf};
ghost use Rattle.rje_spool.specs.Paper.{paper, paper_ending, paper_folder};

use rje_files::growth_of;
use rje_folder::Folder;
use rje_jobs::{FileFault, Form, Job, list_job, punch_job};
use rje_text::{Mode, Select};
use std::alloc::{AllocError, Global};

/// The job file of this job alone, which has no name and is whole or cut.
pub fn received_file(alloc: Global, job: &Job) -> Result<Vec<u8>, AllocError>
    ensures file { IfOk result (λ file.
        IsEntryFileOf Second (entry_of job.now ∷ []) file.items) }
{
    let grown = growth_of(alloc, 0, job)?;
    let mut file = grown.front;
    file.extend_from_slice(grown.tail.as_slice())?;
    Ok(file)
}

/// The paper of a job: its listing, or its cards where it is for the punch, transparent ones as they are.
pub fn paper_of(alloc: Global, job: &Job) -> Result<Vec<u8>, FileFault>
    ensures paper { IfOk result (λ bytes. bytes.items ≡ paper job.now) }
    ensures memory { IfErr result (λ fault. fault ≡ FileFault.OutOfMemory) }
{
    match (job.select, job.mode) {
        (Select::Punch, Mode::Transparent) => punch_job(alloc, job, Form::Raw),
        (Select::Punch, Mode::Normal) => punch_job(alloc, job, Form::Ascii),
        (Select::Unset | Select::Printer, _) => list_job(alloc, job),
    }
}

/// The folder of a job's printout or cards, and how its name ends.
pub(crate) fn place_of_paper(job: &Job) -> (Folder, &'static str)
    ensures folder { result.0 ≡ paper_folder job.now.select }
    ensures ending { result.1.now ≡ paper_ending job.now.select job.now.mode }
{
    match (job.select, job.mode) {
        (Select::Punch, Mode::Transparent) => (Folder::Punch, ".cards"),
        (Select::Punch, Mode::Normal) => (Folder::Punch, ".deck"),
        (Select::Unset | Select::Printer, _) => (Folder::Print, ".txt"),
    }
}

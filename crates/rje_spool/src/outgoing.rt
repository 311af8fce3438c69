//! A file of out/, read as jobs.
ghost use Rattle.std.specs.Prelude.{◌≡◌, ◌↔◌, Some, IfErr, IfOk, IsTrue};
ghost use Rattle.std.specs.List.{All};
ghost use Rattle.rje_folder.specs.declared.ready_file.ReadyFile.TheVariants as ready;
ghost use Rattle.rje_folder.specs.ReadyFile.{file_of_name};
ghost use Rattle.rje_spool.specs.Holding.{CanBeHeld};
ghost use Rattle.rje_spool.specs.Outgoing.{IsOfFile, IsOutgoing, IsRefusal};

use crate::file_job::{FileJob, unsent_labels};
use crate::holding::can_be_held;
use crate::refused_file::RefusedFile;
use rje_files::{first_unsendable, mark_places, read_entries, unsent_jobs};
use rje_folder::ReadyFile;
use rje_jobs::{Job, Jobs, job_of_deck};
use rje_text::{Mode, Select};
use std::alloc::Global;

/// What is to be sent of a file of out/.
#[derive(Drop)]
pub struct Outgoing {
    /// Its jobs that weren't sent.
    pub jobs: Jobs,
    /// Of a job file, where each of them is marked as sent there; of a deck, nothing.
    pub places: Vec<usize>,
    /// Of a job file, which job of it each of them is; of a deck, nothing.
    pub labels: Vec<FileJob>,
}

/// What is to be sent of a file of out/ of this name, which has these bytes. Refused where it is neither a deck nor a job file, where not all
/// of it can be sent, where nothing is left to send, and where a job is longer than the receiving station can hold.
pub fn outgoing_of(alloc: Global, name: &str, bytes: &[u8]) -> Result<Outgoing, RefusedFile>
    ensures jobs { IfOk result (IsOutgoing (file_of_name name.now) bytes.now) }
    ensures refused { IfErr result (IsRefusal (file_of_name name.now) bytes.now) }
{
    match ReadyFile::of_name(name) {
        Some(kind) => {
            let outgoing = of_kind(alloc, kind, bytes)?;
            if can_all_be_held(outgoing.jobs.as_slice()) {
                Ok(outgoing)
            } else {
                Err(RefusedFile::TooMuch)
            }
        }
        None => Err(RefusedFile::UnknownKind),
    }
}

/// Whether each of these jobs can be held.
fn can_all_be_held(jobs: &[Job]) -> bool
    ensures { IsTrue result ↔ All CanBeHeld jobs.now }
{
    jobs.iter().all(can_be_held)
}

/// The jobs of a file of this kind, whether they can be held or not.
fn of_kind(alloc: Global, kind: ReadyFile, bytes: &[u8]) -> Result<Outgoing, RefusedFile>
    ensures jobs { IfOk result (IsOfFile (Some kind) bytes.now) }
    ensures refused { IfErr result (IsRefusal (Some kind) bytes.now) }
{
    match kind {
        ReadyFile::JobFile => of_job_file(alloc, bytes),
        ReadyFile::Deck { select, mode } => of_deck(alloc, bytes, select, mode),
    }
}

/// The job of a deck.
fn of_deck(alloc: Global, bytes: &[u8], select: Select, mode: Mode) -> Result<Outgoing, RefusedFile>
    ensures jobs { IfOk result (IsOfFile (Some (ready.Deck select mode)) bytes.now) }
    ensures refused { IfErr result (IsRefusal (Some (ready.Deck select mode)) bytes.now) }
{
    let mut jobs = Vec::new(alloc);
    let job = job_of_deck(alloc, bytes, select, mode).map_err(RefusedFile::Deck)?;
    match jobs.push(job) {
        Ok(()) => Ok(Outgoing {
            jobs: Jobs::from(jobs),
            places: Vec::new(alloc),
            labels: Vec::new(alloc),
        }),
        Err(_) => Err(RefusedFile::OutOfMemory),
    }
}

/// The jobs of a job file that weren't sent, and where they are marked.
fn of_job_file(alloc: Global, bytes: &[u8]) -> Result<Outgoing, RefusedFile>
    ensures jobs { IfOk result (IsOfFile (Some ready.JobFile) bytes.now) }
    ensures refused { IfErr result (IsRefusal (Some ready.JobFile) bytes.now) }
{
    let entries = match read_entries(alloc, bytes) {
        Ok(entries) => entries,
        Err(fault) => return Err(RefusedFile::File(fault)),
    };
    if let Some(number) = first_unsendable(entries.as_slice()) {
        return Err(RefusedFile::BadJob(number));
    }
    let Ok(places) = mark_places(alloc, entries.as_slice()) else {
        return Err(RefusedFile::OutOfMemory);
    };
    let Ok(labels) = unsent_labels(alloc, entries.as_slice()) else {
        return Err(RefusedFile::OutOfMemory);
    };
    let Ok(jobs) = unsent_jobs(alloc, entries) else {
        return Err(RefusedFile::OutOfMemory);
    };
    if jobs.is_empty() {
        return Err(RefusedFile::NothingLeft);
    }
    Ok(Outgoing {
        jobs,
        places,
        labels,
    })
}

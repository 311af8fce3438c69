//! What is left to send of a job file.
ghost use Rattle.std.specs.Prelude.{◌≡◌, ◌↔◌, List, MatchOption, IfOk, IfErr, IsTrue};
ghost use Rattle.std.specs.List.{All};
ghost use Rattle.rje_jobs.specs.declared.job.Job.{Job as Item};
ghost use Rattle.rje_files.specs.Unsent.{is_sent, with_sent, unsent, CanPass, IsFirstUnsendable, IsLeft, IsSentFile, IsSentFault};
ghost use Rattle.rje_files.specs.declared.entry.Entry.{Entry as Entries};
ghost use Rattle.rje_files.specs.declared.job_file.version.FileVersion.{FileVersion};
ghost use Rattle.rje_files.specs.Entry.{jobs_in};
ghost use Rattle.rje_files.specs.JobFile.{HasEntries, IsEntryFileOf};

use crate::marked_copy::marked_copy;
use crate::{Entry, State, entries_in, read_entries, write_entries};
use rje_jobs::{FileFault, Job, Jobs, job_fits};
use std::alloc::{AllocError, Global};

/// Where the second byte of a job file's version stands.
const VERSION: usize = 5;

/// What it is in version 2.
const SECOND: u8 = 2;

/// The number of the first entry that is to be sent and can't be, from 1; None where all can be that
/// were not sent. Takes no memory.
pub fn first_unsendable(entries: &[Entry]) -> Option<usize>
    ensures first { MatchOption result (All CanPass entries.now)
        (λ number. IsFirstUnsendable entries.now number) }
{
    for (place, entry) in entries.iter().enumerate() {
        if !can_pass(entry) {
            return Some(place + 1);
        }
    }
    None
}

/// The jobs of entries.
pub fn jobs_of(alloc: Global, entries: Vec<Entry>) -> Result<Jobs, AllocError>
    ensures jobs { IfOk result (λ jobs. jobs ≡ jobs_in entries.items) }
{
    let jobs: Vec<Job> = entries.into_iter().map(|entry| entry.job).collect(alloc)?;
    Ok(Jobs::from(jobs))
}

/// The jobs of the entries that were not sent.
pub fn unsent_jobs(alloc: Global, entries: Vec<Entry>) -> Result<Jobs, AllocError>
    ensures jobs { IfOk result (λ jobs. jobs ≡ jobs_in (unsent entries.items)) }
{
    let jobs: Vec<Job> = entries
        .into_iter()
        .filter(|entry| !was_sent(entry.state))
        .map(|entry| entry.job)
        .collect(alloc)?;
    Ok(Jobs::from(jobs))
}

/// Makes the first `count` of the entries that are not Sent Sent, or all of them where there are fewer.
pub fn mark_sent(entries: &mut [Entry], count: usize)
    ensures sent { entries.new ≡ with_sent count entries.old }
{
    let mut left = count;
    for entry in entries.iter_mut() {
        if left > 0 && !was_sent(entry.state) {
            entry.state = State::Sent;
            left -= 1;
        }
    }
}

/// The version 2 file of the same entries as this job file's, in which the first `count` of those that
/// were not Sent are Sent. Where all of those can be sent, only memory can be missing.
pub fn sent_file(alloc: Global, file: &[u8], count: usize) -> Result<Vec<u8>, FileFault>
    ensures file { IfOk result (λ bytes. IsSentFile file.now count bytes.items) }
    ensures told { IfErr result (λ fault. IsSentFault file.now count fault) }
    ensures left { IfErr result (λ fault. (jobs : List Item) → IsLeft file.now jobs
        → fault ≡ FileFault.OutOfMemory) }
{
    if is_second(file) {
        let entries = entries_in(alloc, file)?;
        marked_copy(alloc, file, entries.as_slice(), count)
    } else {
        sent_again(alloc, file, count)
    }
}

/// The same, of a file of either version, each entry read and written again.
fn sent_again(alloc: Global, file: &[u8], count: usize) -> Result<Vec<u8>, FileFault>
    ensures file { IfOk result (λ bytes. IsSentFile file.now count bytes.items) }
    ensures told { IfErr result (λ fault. IsSentFault file.now count fault) }
    ensures left { IfErr result (λ fault. (jobs : List Item) → IsLeft file.now jobs
        → fault ≡ FileFault.OutOfMemory) }
{
    let mut entries = read_entries(alloc, file)?;
    mark_sent(entries.as_mut_slice(), count);
    write_entries(alloc, entries.as_slice())
}

/// Whether these bytes, where they are a job file, are one of version 2.
fn is_second(file: &[u8]) -> bool
    ensures { IsTrue result → (entries : List Entries) → HasEntries entries file.now
        → IsEntryFileOf FileVersion.Second entries file.now }
{
    VERSION < file.len() && file[VERSION] == SECOND
}

/// Whether an entry was sent, or its job can be.
fn can_pass(entry: &Entry) -> bool
    ensures { IsTrue result ↔ CanPass entry.now }
{
    was_sent(entry.state) || job_fits(&entry.job)
}

/// Whether this is the state of a job that was counted as sent.
pub(crate) fn was_sent(state: State) -> bool
    ensures { result ≡ is_sent state }
{
    match state {
        State::Waiting => false,
        State::Sent => true,
        State::Whole => false,
        State::Cut => false,
    }
}

//! Job files. Numbers are big-endian.
//!
//! | Offset | Field |
//! |---|---|
//! | 0 | `52 4A 33 37`, RJ37 in ASCII |
//! | 4 | the version, 2 bytes: `00 01` or `00 02` |
//! | 6 | the number of jobs, 8 bytes |
//! | 14 | the jobs, one after the other, and nothing after them |
//!
//! A job of version 1: its selection (0 Unset, 1 Printer, 2 Punch), its mode (0 Normal, 1 Transparent), whether it is whole (0 or 1), each in a
//! byte; the number of its records, 8 bytes; the records. A record: its action (0 for Plain, else the action's code) and the length of its data,
//! 0 to 144, each in a byte; its data.
//!
//! A job of version 2: its name, 8 bytes: up to eight of A to Z and 0 to 9 in ASCII, and then 20; its state in a byte (0 Waiting, 1 Sent, 2 Whole,
//! 3 Cut); its selection, its mode, its records as in version 1.
ghost use Rattle.std.specs.Prelude.{◌≡◌, ◌<◌, ◌-◌, ◌^◌, ◌∷◌, [], length, IfOk, IfErr};
ghost use Rattle.rje_files.specs.Entry.{entry_of, entry_of_cards};
ghost use Rattle.rje_files.specs.Growth.{GrowsBy};
ghost use Rattle.rje_files.specs.JobFile.{IsFileOf, IsEntryFileOf, IsJobFile, IsEntryFile, HasEntries, HasJobs};
ghost use Rattle.rje_files.specs.FileFault.{IsFileFault, IsEntryFault};

mod checking;
mod collecting;
mod name;
mod reader;
mod version;
mod writing;

use crate::{Entry, FileEntry, Growth, JobName};
use checking::first_fault;
use collecting::{collect_entries, collect_file_entries, collect_jobs};
use name::{first_bad, has_name};
use rje_jobs::{Cards, FileFault, Job, Jobs};
use rje_text::{Mode, Select};
use std::alloc::{AllocError, Global};
use version::FileVersion;
use writing::{write_all_entries, write_all_jobs, write_growth, written_deck};

/// What a job file begins with: its name, and the first byte of its version.
const HEAD: [u8; 5] = *b"RJ37\x00";

/// The version 1 file of these jobs. Each list of jobs has one, also of jobs that can't be sent.
pub fn write_jobs(alloc: Global, jobs: &[Job]) -> Result<Vec<u8>, FileFault>
    ensures file { IfOk result (λ bytes. IsFileOf jobs.now bytes.items) }
    ensures memory { IfErr result (λ fault. fault ≡ FileFault.OutOfMemory) }
{
    let mut out = Vec::new(alloc);
    write_all_jobs(jobs, &mut out)?;
    Ok(out)
}

/// The version 2 file of these entries. Each is checked before any memory is taken.
pub fn write_entries(alloc: Global, entries: &[Entry]) -> Result<Vec<u8>, FileFault>
    ensures file { IfOk result (λ bytes. IsEntryFileOf FileVersion.Second entries.now bytes.items) }
    ensures told { IfErr result (λ fault. IsEntryFault entries.now fault) }
{
    match first_bad(entries) {
        Some(number) => Err(FileFault::BadEntry(number)),
        None => {
            let mut out = Vec::new(alloc);
            match write_all_entries(entries, &mut out) {
                Ok(()) => Ok(out),
                Err(_) => Err(FileFault::OutOfMemory),
            }
        }
    }
}

/// The version 2 file of one job that waits to be sent: of these cards of a deck, which were made in this mode, with this name. Each card is
/// written as it is made. The name is checked before any memory is taken.
pub fn write_deck(
    alloc: Global,
    name: &JobName,
    select: Select,
    mode: Mode,
    cards: Cards,
) -> Result<Vec<u8>, FileFault>
    ensures file { IfOk result (λ bytes. IsEntryFileOf FileVersion.Second
        (entry_of_cards name.now select mode cards.entry ∷ []) bytes.items) }
    ensures told { IfErr result (λ fault.
        IsEntryFault (entry_of_cards name.now select mode cards.entry ∷ []) fault) }
{
    if !has_name(name) {
        return Err(FileFault::BadEntry(1));
    }
    match written_deck(alloc, name, select, mode, cards) {
        Ok(bytes) => Ok(bytes),
        Err(_) => Err(FileFault::OutOfMemory),
    }
}

/// How the version 2 file of `count` jobs goes on with this received one, which has no name and is whole or cut.
pub fn growth_of(alloc: Global, count: usize, job: &Job) -> Result<Growth, AllocError>
    requires { count < 2 ^ 64 - 1 }
    ensures grows { IfOk result (λ growth.
        GrowsBy count (entry_of job.now) growth.front.items growth.tail.items) }
    ensures front { IfOk result (λ growth. length growth.front.items ≡ 14) }
{
    let mut front = Vec::new(alloc);
    let mut tail = Vec::new(alloc);
    write_growth(count, job, &mut front, &mut tail)?;
    Ok(Growth { front, tail })
}

/// The jobs whose version 1 file these bytes are. All bytes are checked before any memory is taken, so none is set aside by counts that
/// don't hold.
pub fn read_jobs(alloc: Global, bytes: &[u8]) -> Result<Jobs, FileFault>
    ensures file { IfOk result (λ jobs. IsFileOf jobs bytes.now) }
    ensures told { IfErr result (λ fault. IsFileFault IsJobFile bytes.now fault) }
{
    match first_fault(FileVersion::First, bytes) {
        Some(fault) => Err(fault),
        None => match collect_jobs(alloc, FileVersion::First, bytes) {
            Ok(jobs) => Ok(Jobs::from(jobs)),
            Err(_) => Err(FileFault::OutOfMemory),
        },
    }
}

/// The jobs of the entries whose file these bytes are, of either version. All bytes are checked before any memory is taken, so none is set
/// aside by counts that don't hold.
pub fn read_entry_jobs(alloc: Global, bytes: &[u8]) -> Result<Jobs, FileFault>
    ensures file { IfOk result (λ jobs. HasJobs jobs bytes.now) }
    ensures told { IfErr result (λ fault. IsFileFault IsEntryFile bytes.now fault) }
{
    match first_fault(FileVersion::Second, bytes) {
        Some(fault) => Err(fault),
        None => match collect_jobs(alloc, FileVersion::Second, bytes) {
            Ok(jobs) => Ok(Jobs::from(jobs)),
            Err(_) => Err(FileFault::OutOfMemory),
        },
    }
}

/// The entries whose file these bytes are, of either version. All bytes are checked before any memory is taken, so none is set aside by counts
/// that don't hold.
pub fn read_entries(alloc: Global, bytes: &[u8]) -> Result<Vec<Entry>, FileFault>
    ensures file { IfOk result (λ entries. HasEntries entries.items bytes.now) }
    ensures told { IfErr result (λ fault. IsFileFault IsEntryFile bytes.now fault) }
{
    match first_fault(FileVersion::Second, bytes) {
        Some(fault) => Err(fault),
        None => match collect_entries(alloc, bytes) {
            Ok(entries) => Ok(entries),
            Err(_) => Err(FileFault::OutOfMemory),
        },
    }
}

/// The entries whose file these bytes are, of either version, with their records left where they stand. All bytes are checked before any
/// memory is taken.
pub fn entries_in(alloc: Global, bytes: &[u8]) -> Result<Vec<FileEntry<'_>>, FileFault>
    ensures file { IfOk result (λ entries. HasEntries entries.items bytes.now) }
    ensures told { IfErr result (λ fault. IsFileFault IsEntryFile bytes.now fault) }
{
    match first_fault(FileVersion::Second, bytes) {
        Some(fault) => Err(fault),
        None => match collect_file_entries(alloc, bytes) {
            Ok(entries) => Ok(entries),
            Err(_) => Err(FileFault::OutOfMemory),
        },
    }
}

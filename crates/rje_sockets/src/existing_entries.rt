//! What a file has before the jobs that are received into it.
ghost use Rattle.std.specs.Prelude.{◌≡◌, ◌⊎◌, List, [], IfOk, IfErr, true};
ghost use Rattle.rje_files.specs.declared.entry.Entry.{Entry};
ghost use Rattle.rje_files.specs.declared.job_file.version.FileVersion.TheVariants.{Second};
ghost use Rattle.rje_files.specs.FileFault.{IsFileFault};
ghost use Rattle.rje_files.specs.JobFile.{HasEntries, IsEntryFile, IsEntryFileOf};
ghost use Rattle.rje_sockets.specs.InFront.{StandInFront};
ghost use Rattle.rje_sockets.specs.Inside.Opening.{HasFront, IsDestinationFault};
ghost use Rattle.rje_store.specs.Store.{Discloses, IsSame};

use rje_commands::{CommandFault, read_if_there};
use rje_files::{entries_in, read_entries, write_entries};
use rje_jobs::FileFault;
use rje_requests::{Destination, Existing};
use rje_store::Store;
use std::alloc::{AllocError, Global};

/// Where a job file has the last byte of its version, and what it is in version 2.
const VERSION: usize = 5;

const SECOND: u8 = 2;

/// The entries that stay in a file, in front of the jobs that are received into it.
#[derive(Drop)]
pub struct ExistingEntries {
    /// Their version 2 file.
    pub(crate) bytes: Vec<u8>,
    /// How many they are.
    pub(crate) jobs: usize,
}

impl ExistingEntries {
    /// No entries.
    pub(crate) fn none(alloc: Global) -> Result<ExistingEntries, AllocError>
        ensures none { IfOk result (HasFront []) }
    {
        match write_entries(alloc, &[]) {
            Ok(bytes) => Ok(ExistingEntries { bytes, jobs: 0 }),
            Err(_) => Err(AllocError),
        }
    }

    /// The entries that stay in the file of a destination, which the command has for itself.
    pub(crate) fn read<'a, S: Store>(
        alloc: Global,
        into: Destination<'a>,
        store: &mut S,
    ) -> Result<ExistingEntries, CommandFault<'a>>
        requires held { S.holds store.old into.jobs.now }
        ensures front { IfOk result (λ front. (entries : List Entry)
            × StandInFront into.entry.existing into.entry.jobs.now (S.files store.old) entries
            × HasFront entries front) }
        ensures fault { IfErr result (IsDestinationFault into.entry (S.files store.old)) }
        ensures held { S.holds store.new into.entry.jobs.now }
        ensures same { Discloses (S.files store.old) (S.files store.new) IsSame }
    {
        if into.existing == Existing::Replace {
            return Ok(ExistingEntries::none(alloc)?);
        }
        let Some(file) = read_if_there(alloc, into.jobs, store)? else {
            return Ok(ExistingEntries::none(alloc)?);
        };
        let front = ExistingEntries::of(alloc, file)?;
        if into.existing == Existing::Refuse && front.jobs > 0 {
            return Err(CommandFault::HoldsJobs(into.jobs));
        }
        Ok(front)
    }

    /// The entries of a job file. One of version 2 is taken as it is.
    fn of(alloc: Global, file: Vec<u8>) -> Result<ExistingEntries, FileFault>
        ensures front { IfOk result (λ front. (entries : List Entry)
            × HasEntries entries file.items × HasFront entries front) }
        ensures fault { IfErr result (λ fault. (fault ≡ FileFault.OutOfMemory)
            ⊎ IsFileFault IsEntryFile file.items fault) }
    {
        if is_second(file.as_slice()) {
            let jobs = entries_in(alloc, file.as_slice())?.len();
            return Ok(ExistingEntries { bytes: file, jobs });
        }
        let entries = read_entries(alloc, file.as_slice())?;
        // Only memory can be missing for the file: entries that were read have names and states.
        match write_entries(alloc, entries.as_slice()) {
            Ok(bytes) => Ok(ExistingEntries {
                bytes,
                jobs: entries.len(),
            }),
            Err(_) => Err(FileFault::OutOfMemory),
        }
    }
}

/// Whether a job file is one of version 2.
fn is_second(file: &[u8]) -> bool
    ensures second { result ≡ true → (entries : List Entry) → HasEntries entries file.now
        → IsEntryFileOf Second entries file.now }
{
    file.get(VERSION) == Some(&SECOND)
}

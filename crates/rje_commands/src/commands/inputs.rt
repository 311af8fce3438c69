//! What a command reads: a deck, or a job file.
ghost use Rattle.std.specs.Prelude.{◌≡◌, IfOk, IfErr};
ghost use Rattle.rje_files.specs.JobFile.{HasEntries, HasJobs};
ghost use Rattle.rje_commands.specs.Commands.{OfDeck, OfFile};
ghost use Rattle.rje_commands.specs.NamedFile.{IsReadFault, IsReadFaultOf, IsInputFault};
ghost use Rattle.rje_store.specs.Store.{Discloses, IsSame};

use crate::command_fault::CommandFault;
use rje_files::{Entry, read_entries, read_entry_jobs};
use rje_jobs::Jobs;
use rje_requests::STANDARD_INPUT;
use rje_store::{Store, StoreFault, read_all};
use std::alloc::Global;
use std::io::Read;

/// The bytes of a deck, or of a capture: of a file, or of standard input.
pub fn read_deck<'a, S: Store, I: Read>(
    alloc: Global,
    name: &'a str,
    store: &mut S,
    input: &mut I,
) -> Result<Vec<u8>, CommandFault<'a>>
    ensures deck { IfOk result (λ bytes.
        OfDeck name.entry.now (S.files store.old) (I.remaining input.old)
        (λ deck. bytes.items ≡ deck)) }
    ensures fault { IfErr result (IsReadFault name.entry.now) }
    ensures same { Discloses (S.files store.old) (S.files store.new) IsSame }
{
    let read = if name == STANDARD_INPUT {
        read_all(alloc, input)
    } else {
        store.read(alloc, name)
    };
    match read {
        Ok(bytes) => Ok(bytes),
        Err(fault) => Err(not_read(name, fault)),
    }
}

/// The bytes of a file.
pub fn read_file<'a, S: Store>(
    alloc: Global,
    name: &'a str,
    store: &mut S,
) -> Result<Vec<u8>, CommandFault<'a>>
    ensures file { IfOk result (λ bytes.
        OfFile name.entry.now (S.files store.old) (λ file. bytes.items ≡ file)) }
    ensures fault { IfErr result (IsReadFault name.entry.now) }
    ensures same { Discloses (S.files store.old) (S.files store.new) IsSame }
{
    match store.read(alloc, name) {
        Ok(bytes) => Ok(bytes),
        Err(fault) => Err(not_read(name, fault)),
    }
}

/// The entries of a job file, of either version.
pub fn read_entry_file<'a, S: Store>(
    alloc: Global,
    name: &'a str,
    store: &mut S,
) -> Result<Vec<Entry>, CommandFault<'a>>
    ensures file { IfOk result (λ entries.
        OfFile name.entry.now (S.files store.old) (λ file. HasEntries entries.items file)) }
    ensures fault { IfErr result (IsInputFault name.entry.now (S.files store.old)) }
    ensures same { Discloses (S.files store.old) (S.files store.new) IsSame }
{
    let bytes = read_file(alloc, name, store)?;
    Ok(read_entries(alloc, bytes.as_slice())?)
}

/// The jobs of a job file, of either version.
pub fn read_job_file<'a, S: Store>(
    alloc: Global,
    name: &'a str,
    store: &mut S,
) -> Result<Jobs, CommandFault<'a>>
    ensures file { IfOk result (λ jobs.
        OfFile name.entry.now (S.files store.old) (λ file. HasJobs jobs file)) }
    ensures fault { IfErr result (IsInputFault name.entry.now (S.files store.old)) }
    ensures same { Discloses (S.files store.old) (S.files store.new) IsSame }
{
    let bytes = read_file(alloc, name, store)?;
    Ok(read_entry_jobs(alloc, bytes.as_slice())?)
}

/// Why the input of this name isn't read.
pub(super) fn not_read(name: &str, fault: StoreFault) -> CommandFault<'_>
    ensures named { IsReadFault name.entry.now result }
    ensures of { IsReadFaultOf name.entry.now fault result }
{
    match fault {
        StoreFault::OutOfMemory => CommandFault::OutOfMemory,
        fault => CommandFault::CannotRead(name, fault),
    }
}

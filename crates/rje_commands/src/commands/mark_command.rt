//! `mark`: the marks of some jobs of a job file.
ghost use Rattle.std.specs.Prelude.{◌≡◌, ◌≤◌, length, IfErr, IfOk, OnErr, OnOk, None, true, false};
ghost use Rattle.rje_requests.specs.declared.order.FileOrder.{FileOrder};
ghost use Rattle.rje_commands.specs.Chosen.{state_given};
ghost use Rattle.rje_commands.specs.Commands.{Does, IsFault, Leaves, MarksFile, OfFile};
ghost use Rattle.rje_commands.specs.CommandFault.{is_of_output};
ghost use Rattle.rje_commands.specs.Inside.Commands.{IsMarkedFault, IsMarkedOf};
ghost use Rattle.rje_commands.specs.NamedFile.{IsWriteFault};
ghost use Rattle.rje_store.specs.Store.{Discloses, IsSame, Sets};

use crate::command_fault::CommandFault;
use crate::commands::chosen_jobs::{count_chosen, entries_with, marked_entries};
use crate::commands::holding::HeldFile;
use crate::commands::output::{look_at_file, put, write_file};
use crate::write_cause::WriteCause;
use rje_files::{State, write_entries};
use rje_jobs::FileFault;
use rje_print::marked_text;
use rje_requests::{Mark, MarkOrder};
use rje_store::{MAX_INPUT, Store, WriteMode};
use std::alloc::Global;
use std::io::Write;

/// Gives the chosen jobs of a job file this mark, and prints how many they are. It has the file for itself from before it reads it. A device or
/// a pipe takes no marks. The file is written as a whole; a fault but that of the output, which comes after it, leaves all files as they were.
pub fn mark<'a, S: Store, O: Write>(
    alloc: Global,
    order: MarkOrder<'a>,
    store: &mut S,
    out: &mut O,
) -> Result<(), CommandFault<'a>>
    ensures done { OnOk result (Does (FileOrder.Mark order.entry)
        (S.files store.old) (S.files store.new)
        None (O.contents out.old) (O.contents out.new)) }
    ensures fault { IfErr result (IsFault (FileOrder.Mark order.entry) (S.files store.old) None) }
    ensures files { Leaves (FileOrder.Mark order.entry)
        (S.files store.old) (S.files store.new) None }
    ensures kept { IfErr result (λ fault. is_of_output fault ≡ false
        → Discloses (S.files store.old) (S.files store.new) IsSame) }
    ensures made { IfErr result (λ fault. is_of_output fault ≡ true
        → OfFile order.entry.jobs.now (S.files store.old) (λ file.
        MarksFile order.entry file (S.files store.old) (S.files store.new))) }
    ensures silent { IfErr result (λ fault. is_of_output fault ≡ false → out.new ≡ out.old) }
{
    let held = HeldFile::take(alloc, order.jobs, store)?;
    let marked = marked_file(alloc, order, held.bytes())?;
    write_marks(order.jobs, marked.bytes.as_slice(), store)?;
    put(marked_text(marked.jobs).as_slice(), out)
}

/// A job file with marks, and how many jobs were marked.
#[derive(Drop)]
struct MarkedFile {
    bytes: Vec<u8>,
    jobs: usize,
}

/// The job file of what this one holds, in which the chosen jobs have the mark.
fn marked_file<'a>(
    alloc: Global,
    order: MarkOrder<'a>,
    file: &[u8],
) -> Result<MarkedFile, CommandFault<'a>>
    ensures made { IfOk result (λ made. IsMarkedOf order.entry file.now made.bytes.items made.jobs) }
    ensures fault { IfErr result (IsMarkedFault order.entry file.now) }
{
    let entries = entries_with(alloc, order.jobs, file, &order.numbers)?;
    let jobs = count_chosen(entries.as_slice(), &order.numbers);
    let marked = marked_entries(alloc, entries, &order.numbers, state_given(order.mark))?;
    match write_entries(alloc, marked.as_slice()) {
        Ok(bytes) => Ok(MarkedFile { bytes, jobs }),
        Err(FileFault::BadEntry(number)) => Err(CommandFault::BadJob(number)),
        Err(_) => Err(CommandFault::OutOfMemory),
    }
}

/// The state of a job that has this mark.
fn state_given(mark: Mark) -> State
    ensures { result ≡ state_given mark }
{
    match mark {
        Mark::Sent => State::Sent,
        Mark::Waiting => State::Waiting,
    }
}

/// Makes these bytes the file of this name, where marks can be made in it.
fn write_marks<'a, S: Store>(
    name: &'a str,
    bytes: &[u8],
    store: &mut S,
) -> Result<(), CommandFault<'a>>
    ensures sets { OnOk result (Discloses (S.files store.old) (S.files store.new)
        (Sets name.entry.now bytes.now)) }
    ensures limit { OnOk result (length bytes.now ≤ MAX_INPUT) }
    ensures fault { IfErr result (IsWriteFault name.entry.now) }
    ensures same { OnErr result (Discloses (S.files store.old) (S.files store.new) IsSame) }
{
    match look_at_file(name, store)? {
        WriteMode::Growing => write_file(name, bytes, store),
        WriteMode::Once => Err(CommandFault::CannotWrite(name, WriteCause::NoMarks)),
    }
}

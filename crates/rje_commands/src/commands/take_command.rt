//! `take`: a job file of some jobs of another one, or one to which they are added.
ghost use Rattle.std.specs.Prelude.{◌≡◌, ◌≢◌, option_map, IfErr, IfOk, OnOk, None, true, false};
ghost use Rattle.rje_requests.specs.declared.order.FileOrder.{FileOrder};
ghost use Rattle.rje_commands.specs.Commands.{Does, IsFault, Leaves, OfFile, TakesFile};
ghost use Rattle.rje_commands.specs.CommandFault.{is_of_output};
ghost use Rattle.rje_commands.specs.Inside.Commands.{IsFound, IsFoundFault, IsMadeOf, IsMadeOfFault, IsTakenOf};
ghost use Rattle.rje_commands.specs.Inside.Commands.{IsTakenFault};
ghost use Rattle.rje_store.specs.Store.{Discloses, IsSame};

use crate::command_fault::CommandFault;
use crate::commands::chosen_jobs::{count_cards, entries_of, entries_with, taken_entries};
use crate::commands::holding::{HeldFile, lock_file, read_if_there};
use crate::commands::output::{look_apart, put, write_file};
use crate::write_cause::WriteCause;
use rje_files::{Entry, write_entries};
use rje_print::taken_text;
use rje_requests::TakeOrder;
use rje_store::Store;
use std::alloc::Global;
use std::io::Write;

/// Writes a job file of the chosen jobs of another one, after the jobs that the file holds where the order adds to them, and prints how many
/// jobs and cards there are. It has both files for itself from before it reads them. Nothing is written before the new file is made; a fault
/// but that of the output, which comes after the file, leaves all files as they were.
pub fn take<'a, S: Store, O: Write>(
    alloc: Global,
    order: TakeOrder<'a>,
    store: &mut S,
    out: &mut O,
) -> Result<(), CommandFault<'a>>
    ensures done { OnOk result (Does (FileOrder.Take order.entry)
        (S.files store.old) (S.files store.new)
        None (O.contents out.old) (O.contents out.new)) }
    ensures fault { IfErr result (IsFault (FileOrder.Take order.entry) (S.files store.old) None) }
    ensures files { Leaves (FileOrder.Take order.entry)
        (S.files store.old) (S.files store.new) None }
    ensures kept { IfErr result (λ fault. is_of_output fault ≡ false
        → Discloses (S.files store.old) (S.files store.new) IsSame) }
    ensures made { IfErr result (λ fault. is_of_output fault ≡ true
        → OfFile order.entry.jobs.now (S.files store.old) (λ file.
        TakesFile order.entry file (S.files store.old) (S.files store.new))) }
    ensures silent { IfErr result (λ fault. is_of_output fault ≡ false → out.new ≡ out.old) }
{
    let held = HeldFile::take(alloc, order.jobs, store)?;
    let found = found_file(alloc, order, store)?;
    let taken = taken_file(alloc, order, held.bytes(), found)?;
    write_file(order.new, taken.bytes.as_slice(), store)?;
    put(taken_text(taken.jobs, taken.cards).as_slice(), out)
}

/// The job file to which the jobs are added, which the command has for itself from then on: none where there is no such file, as where it is
/// to be a new one.
fn found_file<'a, S: Store>(
    alloc: Global,
    order: TakeOrder<'a>,
    store: &mut S,
) -> Result<Option<Vec<u8>>, CommandFault<'a>>
    ensures found { IfOk result (λ found.
        IsFound order.entry (S.files store.old) (option_map (λ bytes. bytes.items) found)) }
    ensures two { OnOk result (order.entry.jobs.now ≢ order.entry.new.now) }
    ensures fault { IfErr result (IsFoundFault order.entry) }
    ensures same { Discloses (S.files store.old) (S.files store.new) IsSame }
{
    look_apart(alloc, order.jobs, order.new, WriteCause::IsTakenFrom, store)?;
    lock_file(alloc, order.new, store)?;
    let found = read_if_there(alloc, order.new, store)?;
    if found.is_some() && !order.append {
        return Err(CommandFault::CannotWrite(order.new, WriteCause::IsThere));
    }
    Ok(found)
}

/// The job file that `take` makes, and how many jobs and cards were taken.
#[derive(Drop)]
struct TakenFile {
    bytes: Vec<u8>,
    jobs: usize,
    cards: usize,
}

/// The job file of what was found and, after it, of the chosen jobs of this file.
fn taken_file<'a>(
    alloc: Global,
    order: TakeOrder<'a>,
    file: &[u8],
    found: Option<Vec<u8>>,
) -> Result<TakenFile, CommandFault<'a>>
    ensures made { IfOk result (λ made. IsTakenOf order.entry file.now
        (option_map (λ bytes. bytes.items) found) made.bytes.items made.jobs made.cards) }
    ensures fault { IfErr result (IsTakenFault order.entry file.now
        (option_map (λ bytes. bytes.items) found)) }
{
    let entries = entries_with(alloc, order.jobs, file, &order.numbers)?;
    let taken = taken_entries(alloc, entries, &order.numbers)?;
    let jobs = taken.len();
    let Some(cards) = count_cards(taken.as_slice()) else {
        return Err(CommandFault::OutOfMemory);
    };
    let bytes = made_file(alloc, order.new, found, taken)?;
    Ok(TakenFile { bytes, jobs, cards })
}

/// The job file of what the file of this name holds, where there is one, and, after it, of these entries.
fn made_file<'a>(
    alloc: Global,
    name: &'a str,
    held: Option<Vec<u8>>,
    mut entries: Vec<Entry>,
) -> Result<Vec<u8>, CommandFault<'a>>
    ensures file { IfOk result (λ made. IsMadeOf (option_map (λ bytes. bytes.items) held)
        entries.items made.items) }
    ensures fault { IfErr result (IsMadeOfFault name.entry.now
        (option_map (λ bytes. bytes.items) held)) }
{
    let front = match held {
        Some(bytes) => {
            let mut front = entries_of(alloc, name, bytes.as_slice())?;
            front.append(&mut entries)?;
            front
        }
        None => entries,
    };
    // Only memory can be missing: each entry has a name, and a state that it can have.
    match write_entries(alloc, front.as_slice()) {
        Ok(bytes) => Ok(bytes),
        Err(_) => Err(CommandFault::OutOfMemory),
    }
}

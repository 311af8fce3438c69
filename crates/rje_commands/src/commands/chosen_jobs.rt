//! The jobs of a job file that a command is for by their numbers.
ghost use Rattle.std.specs.Prelude.{◌≡◌, ◌<◌, ◌-◌, ◌^◌, ◌∷◌, ◌++◌, [], if◌then◌else◌, length, IfErr, IfOk, IfSome, OnOk};
ghost use Rattle.rje_files.specs.JobFile.{HasEntries};
ghost use Rattle.rje_requests.specs.JobNumbers.{AreWithin};
ghost use Rattle.rje_commands.specs.Chosen.{cards_in, chosen, is_chosen, marked, taken, taken_entry, taken_state};
ghost use Rattle.rje_commands.specs.Inside.Commands.{IsNamedFault, IsNumbersFault};

use crate::command_fault::CommandFault;
use rje_files::{Entry, State, read_entries};
use rje_jobs::FileFault;
use rje_requests::JobNumbers;
use std::alloc::{AllocError, Global};

/// The entries of the job file of this name. Where it is none, its name is reported.
pub(super) fn entries_of<'a>(
    alloc: Global,
    name: &'a str,
    file: &[u8],
) -> Result<Vec<Entry>, CommandFault<'a>>
    ensures entries { IfOk result (λ entries. HasEntries entries.items file.now) }
    ensures fault { IfErr result (IsNamedFault name.entry.now file.now) }
{
    match read_entries(alloc, file) {
        Ok(entries) => Ok(entries),
        Err(FileFault::NotJobFile) => Err(CommandFault::NoJobFile(name)),
        Err(fault) => Err(CommandFault::File(fault)),
    }
}

/// The same, where each of these numbers is that of a job.
pub(super) fn entries_with<'a>(
    alloc: Global,
    name: &'a str,
    file: &[u8],
    numbers: &JobNumbers,
) -> Result<Vec<Entry>, CommandFault<'a>>
    ensures entries { IfOk result (λ entries. HasEntries entries.items file.now) }
    ensures there { IfOk result (λ entries. AreWithin numbers.now.text.now (length entries.items)) }
    ensures fault { IfErr result (IsNumbersFault name.entry.now numbers.now.text.now file.now) }
{
    let entries = entries_of(alloc, name, file)?;
    match numbers.first_above(entries.len() as u64) {
        Some(number) => Err(CommandFault::NoJob(number)),
        None => Ok(entries),
    }
}

/// The chosen ones of entries, as they are taken.
pub(super) fn taken_entries(
    alloc: Global,
    entries: Vec<Entry>,
    numbers: &JobNumbers,
) -> Result<Vec<Entry>, AllocError>
    ensures taken { IfOk result (λ made. made.items ≡ taken numbers.now.text.now entries.items) }
{
    let mut made = Vec::with_capacity(alloc, entries.len())?;
    let mut place = 0;
    for entry in entries.into_iter() {
        push_taken(entry, is_chosen(numbers, place), &mut made)?;
        place += 1;
    }
    Ok(made)
}

/// Puts an entry, as it is taken, after others, where it is chosen.
fn push_taken(entry: Entry, chosen: bool, made: &mut Vec<Entry>) -> Result<(), AllocError>
    ensures made { OnOk result (made.new.items
        ≡ made.old.items ++ (if chosen then taken_entry entry ∷ [] else [])) }
{
    if chosen {
        made.push(taken_entry(entry))?;
    }
    Ok(())
}

/// An entry as it is taken: it waits to be sent, unless its job was cut, which it stays.
fn taken_entry(entry: Entry) -> Entry
    ensures { result ≡ taken_entry entry }
{
    let Entry { name, state, job } = entry;
    Entry {
        name,
        state: taken_state(state),
        job,
    }
}

/// The state of a job that is taken.
fn taken_state(state: State) -> State
    ensures { result ≡ taken_state state }
{
    match state {
        State::Waiting => State::Waiting,
        State::Sent => State::Waiting,
        State::Whole => State::Waiting,
        State::Cut => State::Cut,
    }
}

/// The same entries, of which the chosen ones have this state.
pub(super) fn marked_entries(
    alloc: Global,
    entries: Vec<Entry>,
    numbers: &JobNumbers,
    state: State,
) -> Result<Vec<Entry>, AllocError>
    ensures marked { IfOk result (λ made.
        made.items ≡ marked numbers.now.text.now state entries.items) }
{
    let mut made = Vec::with_capacity(alloc, entries.len())?;
    let mut place = 0;
    for entry in entries.into_iter() {
        made.push(entry_with(entry, is_chosen(numbers, place), state))?;
        place += 1;
    }
    Ok(made)
}

/// An entry with this state, where it is chosen.
fn entry_with(entry: Entry, chosen: bool, state: State) -> Entry
    ensures { result ≡ (if chosen then record entry { state = state } else entry) }
{
    if !chosen {
        return entry;
    }
    let Entry { name, job, .. } = entry;
    Entry { name, state, job }
}

/// How many entries are chosen.
pub(super) fn count_chosen(entries: &[Entry], numbers: &JobNumbers) -> usize
    ensures { result ≡ length (chosen numbers.now.text.now entries.now) }
{
    let mut count = 0;
    for place in 0..entries.len() {
        if is_chosen(numbers, place) {
            count += 1;
        }
    }
    count
}

/// How many cards entries have, where that is a number.
pub(super) fn count_cards(entries: &[Entry]) -> Option<usize>
    ensures { IfSome result (λ cards. cards ≡ cards_in entries.now) }
{
    let mut cards: usize = 0;
    for entry in entries {
        cards = cards.checked_add(entry.job.records.len())?;
    }
    Some(cards)
}

/// Whether the entry at this place, from 0, is chosen.
fn is_chosen(numbers: &JobNumbers, place: usize) -> bool
    requires { place < 2 ^ 64 - 1 }
    ensures { result ≡ is_chosen numbers.now.text.now place }
{
    numbers.have(place as u64 + 1)
}

//! `cards`: a job file of a deck's job, or one to which the job is added.
ghost use Rattle.std.specs.Prelude.{◌≡◌, option_map, Some, IfErr, IfOk, OnOk, true, false};
ghost use Rattle.rje_requests.specs.declared.order.FileOrder.{FileOrder};
ghost use Rattle.rje_commands.specs.Commands.{Does, IsFault, Leaves, OfDeck, MakesFile};
ghost use Rattle.rje_commands.specs.Inside.Commands.{cards_entry, IsHeld, IsHeldFault, IsMade, IsMadeFault};
ghost use Rattle.rje_commands.specs.CommandFault.{is_of_output};
ghost use Rattle.rje_store.specs.Store.{Discloses, IsSame};

use crate::command_fault::CommandFault;
use crate::commands::holding::{lock_file, read_if_there};
use crate::commands::inputs::read_deck;
use crate::commands::output::{put, write_file};
use rje_files::{Entry, State, read_entries, write_deck, write_entries};
use rje_jobs::{Cards, cards_of_deck, job_of_cards};
use rje_print::cards_text;
use rje_requests::CardsOrder;
use rje_store::Store;
use std::alloc::Global;
use std::io::{Read, Write};

/// Writes a job file of a deck's job, after the jobs that the file holds where the order adds to them, and prints how many cards the job
/// has. It has the file for itself from before it reads it. Nothing is written before the new file is made; a fault but that of the output,
/// which comes after the file, leaves all files as they were.
pub fn cards<'a, S: Store, I: Read, O: Write>(
    alloc: Global,
    order: CardsOrder<'a>,
    store: &mut S,
    input: &mut I,
    out: &mut O,
) -> Result<(), CommandFault<'a>>
    ensures done { OnOk result (Does (FileOrder.Cards order.entry)
        (S.files store.old) (S.files store.new)
        (I.remaining input.old) (O.contents out.old) (O.contents out.new)) }
    ensures fault { IfErr result (IsFault (FileOrder.Cards order.entry)
        (S.files store.old) (I.remaining input.old)) }
    ensures files { Leaves (FileOrder.Cards order.entry)
        (S.files store.old) (S.files store.new) (I.remaining input.old) }
    ensures kept { IfErr result (λ fault. is_of_output fault ≡ false
        → Discloses (S.files store.old) (S.files store.new) IsSame) }
    ensures made { IfErr result (λ fault. is_of_output fault ≡ true
        → OfDeck order.entry.deck.now (S.files store.old) (I.remaining input.old) (λ deck.
        MakesFile order.entry deck (S.files store.old) (S.files store.new))) }
    ensures silent { IfErr result (λ fault. is_of_output fault ≡ false → out.new ≡ out.old) }
{
    let deck = read_deck(alloc, order.deck, store, input)?;
    let cards = cards_of_deck(deck.as_slice(), order.device.mode())?;
    let count = cards.len();
    lock_file(alloc, order.jobs, store)?;
    let held = held_file(alloc, order, store)?;
    let made = made_file(alloc, order, held, cards)?;
    write_file(order.jobs, made.as_slice(), store)?;
    put(cards_text(count).as_slice(), out)
}

/// The job file to which the job is added: none where it is to be a new file.
fn held_file<'a, S: Store>(
    alloc: Global,
    order: CardsOrder<'a>,
    store: &mut S,
) -> Result<Option<Vec<u8>>, CommandFault<'a>>
    requires locked { S.holds store.old order.jobs.now }
    ensures held { IfOk result (λ held.
        IsHeld order.entry (S.files store.old) (option_map (λ bytes. bytes.items) held)) }
    ensures fault { IfErr result (IsHeldFault order.entry) }
    ensures same { Discloses (S.files store.old) (S.files store.new) IsSame }
{
    if !order.append {
        return Ok(None);
    }
    read_if_there(alloc, order.jobs, store)
}

/// The job file of what is held and, after it, of the job of these cards.
fn made_file<'a>(
    alloc: Global,
    order: CardsOrder<'a>,
    held: Option<Vec<u8>>,
    cards: Cards,
) -> Result<Vec<u8>, CommandFault<'a>>
    ensures file { IfOk result (λ made. IsMade (option_map (λ bytes. bytes.items) held)
        (cards_entry order.entry cards.entry) made.items) }
    ensures fault { IfErr result (IsMadeFault (option_map (λ bytes. bytes.items) held)) }
{
    let (select, mode) = (order.device.select(), order.device.mode());
    // Only memory can be missing for either file: the job has a name, and a state that it can have.
    match held {
        Some(bytes) => {
            let entry = Entry {
                name: order.name,
                state: State::Waiting,
                job: job_of_cards(alloc, select, mode, cards)?,
            };
            longer_file(alloc, bytes.as_slice(), entry)
        }
        None => match write_deck(alloc, &order.name, select, mode, cards) {
            Ok(bytes) => Ok(bytes),
            Err(_) => Err(CommandFault::OutOfMemory),
        },
    }
}

/// The job file of what this one holds and, after it, of this entry.
fn longer_file<'a>(alloc: Global, held: &[u8], entry: Entry) -> Result<Vec<u8>, CommandFault<'a>>
    ensures file { IfOk result (λ made. IsMade (Some held.now) entry made.items) }
    ensures fault { IfErr result (IsMadeFault (Some held.now)) }
{
    let mut entries = read_entries(alloc, held)?;
    if entries.push(entry).is_err() {
        return Err(CommandFault::OutOfMemory);
    }
    match write_entries(alloc, entries.as_slice()) {
        Ok(bytes) => Ok(bytes),
        Err(_) => Err(CommandFault::OutOfMemory),
    }
}

//! `blocks`: the blocks of a deck's job, and how many records come back.
ghost use Rattle.std.specs.Prelude.{◌≡◌, IfErr, OnOk, false};
ghost use Rattle.rje_requests.specs.declared.order.FileOrder.{FileOrder};
ghost use Rattle.rje_commands.specs.Commands.{Does, IsFault};
ghost use Rattle.rje_commands.specs.CommandFault.{is_of_output};
ghost use Rattle.rje_store.specs.Store.{Discloses, IsSame};

use crate::command_fault::CommandFault;
use crate::commands::inputs::read_deck;
use rje_print::{ListingFault, print_blocks};
use rje_store::Store;
use std::alloc::Global;
use std::io::{Read, Write};

/// Prints the blocks of a deck's job, and how many records reading these blocks gives.
pub fn blocks<'a, S: Store, I: Read, O: Write>(
    alloc: Global,
    name: &'a str,
    store: &mut S,
    input: &mut I,
    out: &mut O,
) -> Result<(), CommandFault<'a>>
    ensures done { OnOk result (Does (FileOrder.Blocks name.entry)
        (S.files store.old) (S.files store.new)
        (I.remaining input.old) (O.contents out.old) (O.contents out.new)) }
    ensures fault { IfErr result (IsFault (FileOrder.Blocks name.entry)
        (S.files store.old) (I.remaining input.old)) }
    ensures same { Discloses (S.files store.old) (S.files store.new) IsSame }
    ensures silent { IfErr result (λ fault. is_of_output fault ≡ false → out.new ≡ out.old) }
{
    let deck = read_deck(alloc, name, store, input)?;
    match print_blocks(deck.as_slice(), out) {
        Ok(()) => Ok(()),
        Err(ListingFault::Deck(fault)) => Err(CommandFault::Deck(fault)),
        Err(ListingFault::Output(error)) => Err(CommandFault::of_output(&error)),
    }
}

//! The blocks of a deck's job, and how many records come back.
ghost use Rattle.std.specs.Prelude.{◌≡◌, ◌+◌, ◌<◌, ◌≤◌, ◌^◌, ◌++◌, ◌∷◌, [], ℕ, length, List, None, IfErr, OnOk};
ghost use Rattle.std.specs.Io.KnownBytes.{Appends};
ghost use Rattle.rje_text.specs.PackFault.{RecordsFit};
ghost use Rattle.rje_print.specs.BlockListing.{IsBlockListing, IsListingFault, IsOfDeck, ListsBlocks, CanAdd, CountsBlock};
ghost use Rattle.rje_print.specs.BlockLines.{back_line, block_line};
ghost use Rattle.rje_print.specs.Inside.Piece.{PutsOn};

use crate::ListingFault;
use crate::block_lines::{push_back, push_block};
use crate::piece::Piece;
use crate::printed_line::PrintedLine;
use bsc_codes::Block;
use rje_jobs::{Cards, cards_of_deck, deck_jobs_fit};
use rje_text::{
    Mode, Packer, Select, count_records, cut_reads_back, one_fault, packing_is_the_cut,
};
use std::io::{Result as IoResult, Write};

/// Prints what `blocks` prints for a deck: a line for each block of its job, and how many records reading these blocks gives. The whole deck
/// is checked before anything is printed, and no memory is taken.
pub fn print_blocks<O: Write>(deck: &[u8], out: &mut O) -> Result<(), ListingFault>
    ensures listing { OnOk result ((text : List ℕ) × IsBlockListing deck.now text
        × Appends (O.contents out.old) (O.contents out.new) text) }
    ensures told { IfErr result (IsListingFault deck.now) }
    ensures silent { IfErr result (λ fault. IsOfDeck fault → out.new ≡ out.old) }
{
    let cards = cards_of_deck(deck, Mode::Normal)?;
    deck_jobs_fit();
    list_blocks(cards, out)?;
    Ok(())
}

/// The lines of the blocks of a normal job for the default device.
fn list_blocks<O: Write>(cards: Cards, out: &mut O) -> IoResult<()>
    requires fits { RecordsFit Select.Unset Mode.Normal cards }
    requires few { length cards < 2 ^ 64 }
    ensures { OnOk result ((text : List ℕ) × ListsBlocks cards.entry text
        × Appends (O.contents out.old) (O.contents out.new) text) }
{
    packing_is_the_cut();
    cut_reads_back();
    let mut listing = Listing::new();
    let mut packer = Packer::new(Select::Unset, Mode::Normal);
    for item in cards {
        if !packer.push_sendable(&item) {
            listing.add(&packer.close(false), out)?;
            let _ = packer.push_sendable(&item);
        }
    }
    listing.add(&packer.close(true), out)?;
    listing.end(out)
}

/// The listing of a job's blocks, as it grows.
#[derive(Drop)]
struct Listing {
    piece: Piece,
    // How many lines there are.
    lines: usize,
    so_far: Option<Mode>,
    count: usize,
}

impl Listing {
    fn new() -> Self
        ensures piece { result.piece.bytes.items ≡ [] }
        ensures lines { result.lines ≡ 0 }
        ensures so_far { result.so_far ≡ None }
        ensures count { result.count ≡ 0 }
    {
        Listing {
            piece: Piece::new(),
            lines: 0,
            so_far: None,
            count: 0,
        }
    }

    /// Puts the line of the next block after the others, and counts the block's records.
    fn add<O: Write>(&mut self, block: &Block, out: &mut O) -> IoResult<()>
        requires can { CanAdd block.now self.old.so_far self.old.count }
        requires few { self.old.lines + 1 < 2 ^ 64 }
        ensures puts { OnOk result (PutsOn (O.contents out.old) (O.contents out.new)
            self.old.piece.bytes.items self.new.piece.bytes.items
            (block_line (self.old.lines + 1) block.now)) }
        ensures lines { OnOk result (self.new.lines ≡ self.old.lines + 1) }
        ensures reads { OnOk result (CountsBlock block.now
            self.old.so_far self.new.so_far self.old.count self.new.count) }
    {
        one_fault();
        let mut line = PrintedLine::new();
        push_block(&mut line, self.lines + 1, block);
        self.piece.put(line.as_slice(), out)?;
        let Ok(counted) = count_records(block, self.so_far) else {
            // The block reads in its job's mode, and nothing but memory could be missing.
            unreachable!()
        };
        self.lines += 1;
        self.so_far = Some(counted.mode);
        self.count += counted.count;
        Ok(())
    }

    /// The end of the listing: how many records came back.
    fn end<O: Write>(mut self, out: &mut O) -> IoResult<()>
        ensures { OnOk result (Appends (O.contents out.old) (O.contents out.new)
            (self.piece.bytes.items ++ back_line self.count)) }
    {
        let mut line = PrintedLine::new();
        push_back(&mut line, self.count);
        self.piece.put(line.as_slice(), out)?;
        self.piece.write(out)
    }
}

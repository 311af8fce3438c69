//! The blocks of a job, one as it is asked for.
ghost use Rattle.std.specs.Prelude.{◌≡◌, ◌⊎◌, ◌<◌, ◌≤◌, ◌++◌, length, nat_le, None, if◌then◌else◌};
ghost use Rattle.bsc_codes.specs.declared.block.Closing.TheVariants.{Etb, Etx};
ghost use Rattle.rje_text.specs.Spelling.{spelling};
ghost use Rattle.rje_text.specs.Records.{record_at};
ghost use Rattle.rje_text.specs.Cut.{is_transparent as transparent};
ghost use Rattle.std.specs.List.{AllByRecursion};
ghost use Rattle.rje_text.specs.PackFault.{pack_fault};
ghost use Rattle.rje_text.specs.NextBlock.{IsNextBlock, IsSendable};

use crate::packer::{closing_of, is_transparent, select_device, take, take_record};
use crate::spelling::{TextInHand, append};
use crate::{Mode, Record, Records, Select};
use arrayvec::ArrayVec;
use bsc_codes::{Block, Closing};

/// The block of the canonical cut that begins at a record, and the place after its last record. The records before that place are whole
/// blocks of the cut; a block begins at the first record, also where there is none. Takes no memory.
pub fn next_block(records: &[Record], from: usize, select: Select, mode: Mode) -> (Block, usize)
    requires sent { AllByRecursion (λ r. pack_fault select mode r ≡ None) records.now }
    requires within { (from < length records.now) ⊎ ((from ≡ 0) × (length records.now ≡ 0)) }
    ensures next { IsNextBlock select mode records.now from result.0 result.1 }

    // A frame of the block can be written.
    ensures sendable { IsSendable result.0 }
{
    let mut in_hand = ArrayVec::new();
    if from == 0 {
        select_device(select, mode, &mut in_hand);
    }
    let mut place = from;
    while place < records.len() && take_record(&mut in_hand, mode, &records[place]) {
        place += 1;
    }
    (closed(&in_hand, mode, place == records.len()), place)
}

/// Puts the same block, of records that stand one after another in memory, in place of another one: the place after its last record.
pub(crate) fn put_next_block(
    records: &Records,
    from: usize,
    select: Select,
    mode: Mode,
    block: &mut Block,
) -> usize
    requires sent { AllByRecursion (λ r. pack_fault select mode r ≡ None) records.now }
    requires within { (from < length records.now) ⊎ ((from ≡ 0) × (length records.now ≡ 0)) }
    ensures next { IsNextBlock select mode records.now from block.new result }
    ensures sendable { IsSendable block.new }
{
    let mut in_hand = ArrayVec::new();
    if from == 0 {
        select_device(select, mode, &mut in_hand);
    }
    let mut place = from;
    while place < records.len() && take_at(&mut in_hand, mode, records, place) {
        place += 1;
    }
    close(&in_hand, mode, place == records.len(), block);
    place
}

/// Appends the record at a place to a text as it is there, if there is room for it; else the text stays as it was.
fn take_at(text: &mut TextInHand, mode: Mode, records: &Records, place: usize) -> bool
    requires room { length text.old.items ≤ 510 }
    requires place { place < length records.now }
    ensures room { result
        ≡ nat_le (length (text.old.items ++ spelling mode (record_at records.now place))) 510 }
    ensures taken { text.new.items ≡ (if result
        then text.old.items ++ spelling mode (record_at records.now place)
        else text.old.items) }
    ensures short { length (spelling mode (record_at records.now place)) ≤ 147 }
{
    let (action, items) = records.data_at(place);
    take(text, mode, action, items)
}

/// The block of this text: a job's last one, or one that more follow.
fn closed(in_hand: &TextInHand, mode: Mode, last: bool) -> Block
    requires { length in_hand.now.items ≤ 510 }
    ensures text { result.text.items ≡ in_hand.now.items }
    ensures closing { result.closing ≡ (if last then Etx else Etb) }
    ensures form { result.transparent ≡ transparent mode }
{
    let mut block = empty_block();
    close(in_hand, mode, last, &mut block);
    block
}

/// A block without text.
pub(crate) fn empty_block() -> Block {
    Block {
        text: ArrayVec::new(),
        closing: Closing::Etx,
        transparent: false,
    }
}

/// Puts this text, and what it says of its job, in place of a block.
fn close(in_hand: &TextInHand, mode: Mode, last: bool, block: &mut Block)
    requires { length in_hand.now.items ≤ 510 }
    ensures text { block.new.text.items ≡ in_hand.now.items }
    ensures closing { block.new.closing ≡ (if last then Etx else Etb) }
    ensures form { block.new.transparent ≡ transparent mode }
{
    block.text.clear();
    append(&mut block.text, in_hand.as_slice());
    block.closing = closing_of(last);
    block.transparent = is_transparent(mode);
}

//! The words for a block.
ghost use Rattle.std.specs.Prelude.{◌≡◌, ◌++◌, List, ℕ, OnOk};
ghost use Rattle.rje_monitor.specs.BlockWords.{record_words, mark, select_words, unpacked_words, unread_words, block_head, AreReadingWords, AreBlockWords};
ghost use Rattle.std.specs.List.{flat_map};

use crate::words::{
    character, closing_text, form_text, push_ascii, push_fault, push_number, select_text,
};
use bsc_codes::Block;
use rje_text::{Action, Mode, Record, Records, Select, TextFault, Unpacked, unpack};
use std::alloc::{AllocError, Global};

/// Puts the words for a block after a text. `so_far` is the mode of its job's earlier blocks; `None`: the block is the job's first.
pub(crate) fn push_block(
    alloc: Global,
    text: &mut Vec<u8>,
    so_far: Option<Mode>,
    block: &Block,
) -> Result<(), AllocError>
    ensures { OnOk result ((words : List ℕ) × AreBlockWords so_far block.now words
        × (text.new.items ≡ text.old.items ++ words)) }
{
    push_head(text, block)?;
    push_reading(alloc, text, so_far, block)
}

fn push_head(text: &mut Vec<u8>, block: &Block) -> Result<(), AllocError>
    ensures { OnOk result (text.new.items ≡ text.old.items ++ block_head block.now) }
{
    text.extend_from_slice(b"block ")?;
    text.extend_from_slice(closing_text(block.closing))?;
    text.extend_from_slice(b" ")?;
    text.extend_from_slice(form_text(block.transparent))?;
    text.extend_from_slice(b" ")?;
    push_number(text, block.text.len())
}

/// Puts what a block's text represents after a text, or why it isn't read.
fn push_reading(
    alloc: Global,
    text: &mut Vec<u8>,
    so_far: Option<Mode>,
    block: &Block,
) -> Result<(), AllocError>
    ensures { OnOk result ((words : List ℕ) × AreReadingWords so_far block.now words
        × (text.new.items ≡ text.old.items ++ words)) }
{
    match unpack(alloc, block, so_far) {
        Ok(unpacked) => push_unpacked(text, so_far, &unpacked),
        Err(TextFault::OutOfMemory) => Err(AllocError),
        Err(fault) => push_unread(text, fault),
    }
}

fn push_unread(text: &mut Vec<u8>, fault: TextFault) -> Result<(), AllocError>
    ensures { OnOk result (text.new.items ≡ text.old.items ++ unread_words fault) }
{
    text.extend_from_slice(b" unread ")?;
    push_fault(text, fault)
}

fn push_unpacked(
    text: &mut Vec<u8>,
    so_far: Option<Mode>,
    unpacked: &Unpacked,
) -> Result<(), AllocError>
    ensures { OnOk result
        (text.new.items ≡ text.old.items ++ unpacked_words so_far unpacked.now) }
{
    push_select(text, so_far, unpacked.select)?;
    text.extend_from_slice(b" ")?;
    push_number(text, unpacked.records.len())?;
    text.extend_from_slice(b" records")?;
    push_records(text, &unpacked.records)
}

/// Puts the selection that a job's first block makes after a text.
fn push_select(text: &mut Vec<u8>, so_far: Option<Mode>, select: Select) -> Result<(), AllocError>
    ensures { OnOk result (text.new.items ≡ text.old.items ++ select_words so_far select) }
{
    if so_far.is_some() {
        return Ok(());
    }
    text.extend_from_slice(b" ")?;
    text.extend_from_slice(select_text(select))
}

fn push_records(text: &mut Vec<u8>, records: &Records) -> Result<(), AllocError>
    ensures { OnOk result (text.new.items ≡ text.old.items ++ flat_map record_words records.now) }
{
    for item in records.iter() {
        push_record(text, &item)?;
    }
    Ok(())
}

fn push_record(text: &mut Vec<u8>, item: &Record) -> Result<(), AllocError>
    ensures { OnOk result (text.new.items ≡ text.old.items ++ record_words item.now) }
{
    text.extend_from_slice(b" ")?;
    push_mark(text, item.action)?;
    text.extend_from_slice(b"|")?;
    push_ascii(text, item.bytes.as_slice())?;
    text.extend_from_slice(b"|")
}

/// Puts the mark of an action after a text: the character of its code, where it has one.
fn push_mark(text: &mut Vec<u8>, action: Action) -> Result<(), AllocError>
    ensures { OnOk result (text.new.items ≡ text.old.items ++ mark action) }
{
    if let Some(code) = action.code() {
        text.push(character(code))?;
    }
    Ok(())
}

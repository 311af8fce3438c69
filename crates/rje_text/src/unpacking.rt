//! Blocks into records.
ghost use Rattle.std.specs.Prelude.{◌≡◌, ◌≢◌, ◌↔◌, ◌+◌, ◌<◌, ◌≤◌, ◌^◌, IsTrue, IsSome, IfOk, IfErr, Some, length};
ghost use Rattle.rje_text.specs.Reading.{records_in, normal_reading, Agrees, IsRead, IsCountOf, IsCounted};
ghost use Rattle.rje_text.specs.TextFault.{IsTextFault};
ghost use Rattle.rje_text.specs.Inside.RecordText.{HasFront, HasParts, HasRecords, reads_records, IsFaultFrom, IsNormalFault};

use crate::cards::{count_cards, unpack_cards};
use crate::record_text::{check_record, record_end, record_from};
use crate::{Counted, Mode, Records, Select, TextFault, Unpacked};
use bsc_codes::{Block, DC1, DC2, DC3, MAX_TEXT};
use std::alloc::{AllocError, Global};

/// What a block's text represents. `so_far` is the mode of the job's earlier blocks; None: the block is the job's first.
/// The whole text is checked before any memory is taken.
pub fn unpack(alloc: Global, block: &Block, so_far: Option<Mode>) -> Result<Unpacked, TextFault>
    ensures read { IfOk result (λ u. IsRead block.now so_far u) }
    ensures told { IfErr result (λ fault. IsTextFault block.now so_far fault) }
{
    let text = block.text.as_slice();
    if block.transparent {
        unpack_cards(alloc, text, so_far)
    } else {
        unpack_normal(alloc, text, so_far)
    }
}

/// What a block's text represents, its records only counted. It reports the same faults as `unpack` but out of memory, for it takes none.
pub fn count_records(block: &Block, so_far: Option<Mode>) -> Result<Counted, TextFault>
    ensures counted { IfOk result (λ counted. IsCounted block.now so_far counted) }
    ensures told { IfErr result (λ fault. IsTextFault block.now so_far fault) }
    ensures no_memory { IfErr result (λ fault. fault ≢ TextFault.OutOfMemory) }
{
    let text = block.text.as_slice();
    if block.transparent {
        count_cards(text, so_far)
    } else {
        count_normal(text, so_far)
    }
}

fn unpack_normal(alloc: Global, text: &[u8], so_far: Option<Mode>) -> Result<Unpacked, TextFault>
    requires { length text.now ≤ MAX_TEXT }
    ensures read { IfOk result (λ u. (normal_reading so_far text.now ≡ Some u)
        × Agrees Mode.Normal so_far) }
    ensures told { IfErr result (λ fault. IsNormalFault so_far text.now fault) }
{
    let (select, rest, count) = match parts_of(text, so_far) {
        Ok(parts) => parts,
        Err(fault) => return Err(fault),
    };
    match collect(alloc, rest, count) {
        Ok(records) => Ok(Unpacked {
            select,
            mode: Mode::Normal,
            records,
        }),
        Err(AllocError) => Err(TextFault::OutOfMemory),
    }
}

fn count_normal(text: &[u8], so_far: Option<Mode>) -> Result<Counted, TextFault>
    requires { length text.now ≤ MAX_TEXT }
    ensures counted { IfOk result (λ counted. IsCountOf (normal_reading so_far text.now) counted
        × Agrees Mode.Normal so_far) }
    ensures told { IfErr result (λ fault. IsNormalFault so_far text.now fault) }
    ensures no_memory { IfErr result (λ fault. fault ≢ TextFault.OutOfMemory) }
{
    match parts_of(text, so_far) {
        Ok((select, _, count)) => Ok(Counted {
            select,
            mode: Mode::Normal,
            count,
        }),
        Err(fault) => Err(fault),
    }
}

/// A normal text that reads in its job's mode: its selection, the text of its records, and how many they are.
fn parts_of<'a>(
    text: &'a [u8],
    so_far: Option<Mode>,
) -> Result<(Select, &'a [u8], usize), TextFault>
    requires { length text.now ≤ MAX_TEXT }
    ensures parts { IfOk result (λ p. HasParts so_far text.now p.0 p.1.now p.2) }
    ensures told { IfErr result (λ fault. IsNormalFault so_far text.now fault) }
    ensures no_memory { IfErr result (λ fault. fault ≢ TextFault.OutOfMemory) }
{
    let (select, front) = front_of(text, so_far);
    let (_, rest) = text.split_at(front);
    let count = match check(rest, front) {
        Ok(count) => count,
        Err(fault) => return Err(fault),
    };
    if !agrees(Mode::Normal, so_far) {
        return Err(TextFault::MixedModes);
    }
    Ok((select, rest, count))
}

/// The selection that a normal text makes, and how many bytes it takes in front.
fn front_of(text: &[u8], so_far: Option<Mode>) -> (Select, usize)
    ensures { HasFront so_far text.now result.1 result.0 }
{
    if so_far.is_some() || text.is_empty() {
        return (Select::Unset, 0);
    }
    if text[0] == DC1 {
        return (Select::Printer, 1);
    }
    if text[0] == DC2 || text[0] == DC3 {
        return (Select::Punch, 1);
    }
    (Select::Unset, 0)
}

/// Whether a mode is that of the job's earlier blocks.
pub(crate) fn agrees(mode: Mode, so_far: Option<Mode>) -> bool
    ensures { IsTrue result ↔ Agrees mode so_far }
{
    match so_far {
        None => true,
        Some(earlier) => mode == earlier,
    }
}

/// How many records a text has that is at `base` in its block's text, or its first fault.
fn check(text: &[u8], base: usize) -> Result<usize, TextFault>
    requires { base + length text.now < 2 ^ 63 }
    ensures read { IfOk result (λ count. HasRecords count text.now) }
    ensures fault { IfErr result (IsFaultFrom reads_records base text.now) }
{
    let mut count = 0;
    let mut start = 0;
    while start < text.len() {
        let (_, rest) = text.split_at(start);
        let end = record_end(rest);
        let (piece, _) = rest.split_at(end);
        if let Err(fault) = check_record(piece, base + start) {
            return Err(fault);
        }
        count += 1;
        if end == rest.len() {
            return Ok(count);
        }
        start += end + 1;
    }
    Ok(count)
}

/// The `count` records of a text. Their data are mostly no longer than the text, and memory is taken at once for that many.
fn collect(alloc: Global, text: &[u8], count: usize) -> Result<Records, AllocError>
    requires { HasRecords count text.now }
    ensures { IfOk result (λ records. records_in text.now ≡ Some records) }
{
    let mut records = Records::with_capacity(alloc, count, text.len())?;
    let mut start = 0;
    while start < text.len() {
        let (_, rest) = text.split_at(start);
        let end = record_end(rest);
        let (piece, _) = rest.split_at(end);
        records.push(record_from(piece))?;
        if end == rest.len() {
            return Ok(records);
        }
        start += end + 1;
    }
    Ok(records)
}

//! The text of turns in hexadecimal.
ghost use Rattle.std.specs.Prelude.{◌≡◌, ◌+◌, ◌<◌, ◌^◌, ◌++◌, List, ℕ, length, IfOk, IfErr, OnOk, MatchOption};
ghost use Rattle.bsc_frame.specs.declared.heard.Heard.{Heard as HeardOf};
ghost use Rattle.rje_monitor.specs.Hearing.{mode_after as mode_after_of};
ghost use Rattle.rje_monitor.specs.Turns.{AreHexLines, IsFirstBadLine, IsHexFault, IsTurnLine, IsTurnsText, bytes_after as bytes_behind, extra_words};

use crate::HexFault;
use crate::heard_words::push_heard;
use crate::hearing::{Hearing, mode_after};
use crate::hex_line::{bytes_of, is_hex};
use crate::lines::first_line;
use crate::pads::is_pad;
use crate::words::push_number;
use rje_text::Mode;
use std::alloc::{AllocError, Global};

/// The text of turns in hexadecimal: for each line, which has the bytes of one turn, its number from 1 and what is heard of them. A line
/// is pairs of digits of either case with any blanks between the pairs; LF or CR and LF ends it, and the last end may be left out. The
/// first line that is none is reported by its number, from 1, whether there is memory for the others or not.
pub fn turns_text(alloc: Global, lines: &[u8]) -> Result<Vec<u8>, HexFault>
    ensures text { IfOk result (λ text. IsTurnsText lines.now text.items) }
    ensures told { IfErr result (IsHexFault lines.now) }
{
    if let Some(number) = first_bad_line(lines) {
        return Err(HexFault::NotHex(number));
    }
    match text_of(alloc, lines) {
        Ok(text) => Ok(text),
        Err(AllocError) => Err(HexFault::OutOfMemory),
    }
}

/// The number, from 1, of the first line that isn't that of some bytes. It takes no memory.
fn first_bad_line(lines: &[u8]) -> Option<usize>
    ensures { MatchOption result (AreHexLines lines.now) (λ number. IsFirstBadLine lines.now number) }
{
    let mut number = 1;
    let mut rest = lines;
    while let Some((line, later)) = first_line(rest) {
        if !is_hex(line) {
            return Some(number);
        }
        number += 1;
        rest = later;
    }
    None
}

/// The text of lines that are each that of some bytes.
fn text_of(alloc: Global, lines: &[u8]) -> Result<Vec<u8>, AllocError>
    requires { AreHexLines lines.now }
    ensures { IfOk result (λ text. IsTurnsText lines.now text.items) }
{
    let mut text = Vec::new(alloc);
    let mut so_far = None;
    let mut number = 1;
    let mut rest = lines;
    while let Some((line, later)) = first_line(rest) {
        let bytes = bytes_of(alloc, line)?;
        so_far = push_turn(alloc, &mut text, number, so_far, bytes.as_slice())?;
        number += 1;
        rest = later;
    }
    Ok(text)
}

/// Puts the line of the turn of this number, in which these bytes came, after a text: the mode of the job's earlier blocks after it.
fn push_turn(
    alloc: Global,
    text: &mut Vec<u8>,
    number: usize,
    so_far: Option<Mode>,
    bytes: &[u8],
) -> Result<Option<Mode>, AllocError>
    ensures { IfOk result (λ mode. (heard : HeardOf) × (line : List ℕ)
        × IsTurnLine number so_far heard bytes.now line
        × (text.new.items ≡ text.old.items ++ line) × (mode ≡ mode_after_of so_far heard)) }
{
    let Hearing { heard, used } = Hearing::of(bytes);
    let (front, rest) = bytes.split_at(used);
    push_number(text, number)?;
    text.extend_from_slice(b" ")?;
    push_heard(alloc, text, so_far, &heard, front)?;
    push_extra(text, bytes_after(rest))?;
    text.extend_from_slice(b"\n")?;
    Ok(mode_after(so_far, &heard))
}

/// How many of the bytes after a frame there are, except one pad.
fn bytes_after(rest: &[u8]) -> usize
    ensures { result ≡ bytes_behind rest.now }
{
    match rest.first() {
        Some(first) if is_pad(*first) => rest.len() - 1,
        _ => rest.len(),
    }
}

/// Puts the words for so many bytes after a frame after a text.
fn push_extra(text: &mut Vec<u8>, count: usize) -> Result<(), AllocError>
    ensures { OnOk result (text.new.items ≡ text.old.items ++ extra_words count) }
{
    if count == 0 {
        return Ok(());
    }
    text.extend_from_slice(b" +")?;
    push_number(text, count)
}

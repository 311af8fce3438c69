//! The texts of jobs, one after another.
ghost use Rattle.std.specs.Prelude.{◌≡◌, ◌-◌, ◌++◌, replicate, IfOk, OnOk};
ghost use Rattle.rje_jobs.specs.Listing.{listing};
ghost use Rattle.rje_jobs.specs.Punch.{punched};
ghost use Rattle.rje_print.specs.JobTexts.{AreCut, IsShown, IsPaper, paper};
ghost use Rattle.rje_print.specs.JobTexts.{record_line, record_lines, shown_entry};

use crate::job_lines::{push_cut, push_entry};
use crate::printed_line::{PrintedLine, push_number};
use rje_files::{FileEntry, State};
use rje_jobs::{Form, push_card, push_line};
use rje_requests::Choice;
use rje_text::{Record, Select};
use std::alloc::{AllocError, Global};

/// The columns on which a record's number stands.
const NUMBER_COLUMNS: usize = 6;

/// A line for each of these entries that is chosen: its number from 1, its selection, its mode, its state, how many records it has, and its
/// name where it has one. Where that is asked for, a line for each of its records stands after it: the record's number from 1, and its data
/// in ASCII.
pub fn entries_text(
    alloc: Global,
    entries: &[FileEntry],
    choice: &Choice,
    records: bool,
) -> Result<Vec<u8>, AllocError>
    ensures shown { IfOk result (λ text. IsShown choice.now records entries.now text.items) }
{
    let mut text = Vec::new(alloc);
    let mut number = 1;
    for entry in entries {
        if choice.takes(number, entry.select()) {
            push_shown(number, entry, records, &mut text)?;
        }
        number += 1;
    }
    Ok(text)
}

/// The paper of the jobs of these entries that are chosen, one after another: the cards in this form of a job for the punch, and else its
/// listing.
pub fn papers_text(
    alloc: Global,
    entries: &[FileEntry],
    choice: &Choice,
    form: Form,
) -> Result<Vec<u8>, AllocError>
    ensures paper { IfOk result (λ text. IsPaper choice.now form entries.now text.items) }
{
    let mut text = Vec::new(alloc);
    let mut number = 1;
    for entry in entries {
        if choice.takes(number, entry.select()) {
            push_paper(entry, form, &mut text)?;
        }
        number += 1;
    }
    Ok(text)
}

/// A line for each of these entries that is chosen and whose job is cut: its number from 1.
pub fn cut_text(
    alloc: Global,
    entries: &[FileEntry],
    choice: &Choice,
) -> Result<Vec<u8>, AllocError>
    ensures cut { IfOk result (λ text. AreCut choice.now entries.now text.items) }
{
    let mut text = Vec::new(alloc);
    let mut number = 1;
    for entry in entries {
        if choice.takes(number, entry.select()) && entry.state() == State::Cut {
            push_cut(number, &mut text)?;
        }
        number += 1;
    }
    Ok(text)
}

/// Appends the line of an entry, and the lines of its records where they are asked for.
fn push_shown(
    number: usize,
    entry: &FileEntry,
    records: bool,
    text: &mut Vec<u8>,
) -> Result<(), AllocError>
    ensures shown { OnOk result
        (text.new.items ≡ text.old.items ++ shown_entry records number entry.now) }
{
    let mut line = PrintedLine::new();
    push_entry(&mut line, number, entry);
    text.extend_from_slice(line.as_slice())?;
    match records {
        true => push_records(entry, text),
        false => Ok(()),
    }
}

/// Appends a line for each record of an entry.
fn push_records(entry: &FileEntry, text: &mut Vec<u8>) -> Result<(), AllocError>
    ensures lines { OnOk result
        (text.new.items ≡ text.old.items ++ record_lines 1 entry.now.job.records) }
{
    let count = entry.records().len();
    let mut before = 0;
    for item in entry.records() {
        push_record(before + 1, &item, text)?;
        before += 1;
    }
    Ok(())
}

/// Appends the line of a record: its number on six columns, and its data in ASCII.
#[tactic(auto, unfolding(crate::specs::JobTexts::record_line))]
fn push_record(number: usize, item: &Record, text: &mut Vec<u8>) -> Result<(), AllocError>
    ensures line { OnOk result (text.new.items ≡ text.old.items ++ record_line number item.now) }
{
    let mut digits = PrintedLine::new();
    push_number(&mut digits, number);
    push_indent(digits.len(), text)?;
    text.extend_from_slice(digits.as_slice())?;
    text.push(b' ')?;
    push_card(item, Form::Ascii, text)
}

/// Appends the blanks in front of a number of `digits` digits.
fn push_indent(digits: usize, text: &mut Vec<u8>) -> Result<(), AllocError>
    ensures blanks { OnOk result (text.new.items ≡ text.old.items ++ replicate (6 - digits) 0x20) }
{
    for _ in 0..NUMBER_COLUMNS.saturating_sub(digits) {
        text.push(b' ')?;
    }
    Ok(())
}

/// Appends the printout of an entry's job.
fn push_paper(entry: &FileEntry, form: Form, text: &mut Vec<u8>) -> Result<(), AllocError>
    ensures paper { OnOk result (text.new.items ≡ text.old.items ++ paper form entry.now.job) }
{
    match entry.select() {
        Select::Punch => push_all_cards(entry, form, text),
        Select::Unset | Select::Printer => push_all_lines(entry, text),
    }
}

fn push_all_cards(entry: &FileEntry, form: Form, text: &mut Vec<u8>) -> Result<(), AllocError>
    ensures cards { OnOk result (text.new.items ≡ text.old.items ++ punched form entry.now.job) }
{
    for item in entry.records() {
        push_card(&item, form, text)?;
    }
    Ok(())
}

fn push_all_lines(entry: &FileEntry, text: &mut Vec<u8>) -> Result<(), AllocError>
    ensures lines { OnOk result (text.new.items ≡ text.old.items ++ listing entry.now.job) }
{
    for item in entry.records() {
        push_line(&item, text)?;
    }
    Ok(())
}

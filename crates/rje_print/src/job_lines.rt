//! The lines of jobs.
ghost use Rattle.std.specs.Prelude.{◌≡◌, ◌==◌, ◌+◌, ◌≤◌, ◌++◌, [], length, position, OnOk};
ghost use Rattle.rje_print.specs.JobTexts.{select_name, mode_name, state_name};
ghost use Rattle.rje_print.specs.JobTexts.{name_letters, name_text, entry_line, cards_line, cut_line, good_line, marked_line, taken_line};

use crate::printed_line::{MAX_LINE, PrintedLine, push, push_number};
use rje_files::{FileEntry, JobName, State};
use rje_text::{Mode, Select};
use std::alloc::AllocError;

/// Puts the line of an entry into an empty line.
#[tactic(auto, unfolding(crate::specs::JobTexts::entry_line))]
pub(crate) fn push_entry(line: &mut PrintedLine, number: usize, entry: &FileEntry)
    requires { line.old.items ≡ [] }
    ensures { line.new.items ≡ entry_line number entry.now }
{
    push_number(line, number);
    push(line, b" ");
    push(line, select_text(entry.select()));
    push(line, b" ");
    push(line, mode_text(entry.mode()));
    push(line, b" ");
    push(line, state_text(entry.state()));
    push(line, b" ");
    push_number(line, entry.records().len());
    push(line, b" records");
    push_name(line, entry.name());
    push(line, b"\n");
}

/// Puts a blank and a name after the bytes of a line, and nothing where the name has no character.
pub(crate) fn push_name(line: &mut PrintedLine, name: &JobName)
    requires { length line.old.items + 9 ≤ MAX_LINE }
    ensures name { line.new.items ≡ line.old.items ++ name_text (name_letters name.now) }
    ensures few { length line.new.items ≤ length line.old.items + 9 }
{
    let letters = letters_of(name);
    if !letters.is_empty() {
        push(line, b" ");
        push(line, letters);
    }
}

/// A name without its blanks.
fn letters_of(name: &JobName) -> &[u8]
    ensures letters { result.now ≡ name_letters name.now }
    ensures few { length result.now ≤ 8 }
{
    match first_blank(name) {
        Some(end) => &name[..end],
        None => name,
    }
}

fn first_blank(name: &JobName) -> Option<usize>
    ensures { result ≡ position (λ c. c == 0x20) name.now }
{
    name.iter().position(|byte| *byte == b' ')
}

/// The line that says how many cards a deck has.
pub fn cards_text(count: usize) -> PrintedLine
    ensures line { result.items ≡ cards_line count }
{
    let mut line = PrintedLine::new();
    push_number(&mut line, count);
    push(&mut line, b" cards\n");
    line
}

/// The line that says how many jobs can all be sent.
pub fn good_text(count: usize) -> PrintedLine
    ensures line { result.items ≡ good_line count }
{
    let mut line = PrintedLine::new();
    push(&mut line, b"good ");
    push_number(&mut line, count);
    push(&mut line, b" jobs\n");
    line
}

/// The line that says how many jobs were taken, and how many cards they have.
pub fn taken_text(jobs: usize, cards: usize) -> PrintedLine
    ensures line { result.items ≡ taken_line jobs cards }
{
    let mut line = PrintedLine::new();
    push(&mut line, b"took ");
    push_number(&mut line, jobs);
    push(&mut line, b" jobs, ");
    push_number(&mut line, cards);
    push(&mut line, b" cards\n");
    line
}

/// The line that says how many jobs were marked.
pub fn marked_text(jobs: usize) -> PrintedLine
    ensures line { result.items ≡ marked_line jobs }
{
    let mut line = PrintedLine::new();
    push(&mut line, b"marked ");
    push_number(&mut line, jobs);
    push(&mut line, b" jobs\n");
    line
}

/// Appends the line that reports that the job of this number is cut.
pub(crate) fn push_cut(number: usize, text: &mut Vec<u8>) -> Result<(), AllocError>
    ensures line { OnOk result (text.new.items ≡ text.old.items ++ cut_line number) }
{
    let mut line = PrintedLine::new();
    push(&mut line, b"rje: job ");
    push_number(&mut line, number);
    push(&mut line, b" is cut\n");
    text.extend_from_slice(line.as_slice())
}

fn select_text(select: Select) -> &'static [u8]
    ensures name { result.now ≡ select_name select }
    ensures short { length result.now ≤ 7 }
{
    match select {
        Select::Unset => b"unset",
        Select::Printer => b"printer",
        Select::Punch => b"punch",
    }
}

fn mode_text(mode: Mode) -> &'static [u8]
    ensures name { result.now ≡ mode_name mode }
    ensures short { length result.now ≤ 11 }
{
    match mode {
        Mode::Normal => b"normal",
        Mode::Transparent => b"transparent",
    }
}

fn state_text(state: State) -> &'static [u8]
    ensures name { result.now ≡ state_name state }
    ensures short { length result.now ≤ 7 }
{
    match state {
        State::Waiting => b"waiting",
        State::Sent => b"sent",
        State::Whole => b"whole",
        State::Cut => b"cut",
    }
}

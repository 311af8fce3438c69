//! The text of a run.
ghost use Rattle.std.specs.Prelude.{◌≡◌, IfOk};
ghost use Rattle.rje_print.specs.ReportTexts.{run_text as text_of, turn_lines};

use crate::printed_line::PrintedLine;
use crate::report_lines::{counted_text, handed_text, outcome_text, push_turn};
use line_world::{Report, Spoken};
use std::alloc::{AllocError, Global};

/// The text of a run of `given` jobs: a line for each turn, and three lines of the whole.
pub fn run_text(alloc: Global, given: usize, report: &Report) -> Result<Vec<u8>, AllocError>
    ensures text { IfOk result (λ text. text.items
        ≡ text_of given report.now.turns.items
        report.now.handed report.now.counted report.now.outcome) }
{
    let mut text = turns_text(alloc, report.turns.as_slice())?;
    text.extend_from_slice(counted_text(report.counted, given).as_slice())?;
    text.extend_from_slice(handed_text(report.handed.as_slice()).as_slice())?;
    text.extend_from_slice(outcome_text(report.outcome).as_slice())?;
    Ok(text)
}

/// A line for each turn.
fn turns_text(alloc: Global, turns: &[Spoken]) -> Result<Vec<u8>, AllocError>
    ensures { IfOk result (λ text. text.items ≡ turn_lines 1 turns.now) }
{
    let mut text = Vec::new(alloc);
    let mut line = PrintedLine::new();
    let mut number = 1;
    for turn in turns {
        line.clear();
        push_turn(&mut line, number, turn);
        text.extend_from_slice(line.as_slice())?;
        number += 1;
    }
    Ok(text)
}

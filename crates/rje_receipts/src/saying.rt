//! The job that says a receipt.
ghost use Rattle.std.specs.Prelude.{◌≡◌, ◌≤◌, ◌∷◌, [], length, map, IfOk, MatchOption};
ghost use Rattle.rje_jobs.specs.Ascii.{ascii, shown};
ghost use Rattle.rje_jobs.specs.Deck.{code_or_zero};
ghost use Rattle.rje_settle.specs.Receipt.{CanBeSaid};
ghost use Rattle.rje_settle.specs.declared.receipt.Receipt.{Receipt as Said};
ghost use Rattle.rje_receipts.specs.ReceiptJob.{IsReceiptJob, IsReceiptRecord};

use arrayvec::ArrayVec;
use bsc_codes::{to_ascii, to_ebcdic};
use rje_jobs::Job;
use rje_settle::Receipt;
use rje_text::{Action, MAX_RECORD, Mode, Record, Records, Select};
use std::alloc::{AllocError, Global};

/// What takes the place of a byte that is no character's code.
const UNKNOWN: u8 = b'?';

/// The job that says a receipt: its card alone, for no device, in normal text.
pub fn receipt_job(alloc: Global, receipt: Receipt) -> Result<Job, AllocError>
    ensures { IfOk result (λ job. IsReceiptJob job receipt) }
{
    let mut records = Records::new(alloc);
    records.push_data(Action::Plain, coded(&receipt.card()).as_slice())?;
    Ok(Job {
        select: Select::Unset,
        mode: Mode::Normal,
        records,
        whole: true,
    })
}

/// The receipt that a job says; `None` if it says none.
pub fn receipt_of_job(job: &Job) -> Option<Receipt>
    ensures { MatchOption result ((r : Said) → CanBeSaid r → ¬ (IsReceiptJob job.now r))
        (λ r. IsReceiptJob job.now r × CanBeSaid r) }
{
    if !job.whole || job.select != Select::Unset || job.mode != Mode::Normal {
        return None;
    }
    if job.records.len() != 1 {
        return None;
    }
    receipt_of_card(&job.records.at(0))
}

/// The receipt whose card a record is; `None` if it is no receipt's.
fn receipt_of_card(card: &Record) -> Option<Receipt>
    ensures { MatchOption result
        ((r : Said) → CanBeSaid r → ¬ (IsReceiptRecord (card.now ∷ []) r))
        (λ r. IsReceiptRecord (card.now ∷ []) r × CanBeSaid r) }
{
    if card.action != Action::Plain {
        return None;
    }
    Receipt::read(characters(card.bytes.as_slice()).as_slice())
}

/// The codes of the characters of a card.
fn coded(card: &[u8; 80]) -> ArrayVec<u8, 80>
    ensures { result.items ≡ map code_or_zero card.now }
{
    let mut codes = ArrayVec::new();
    for character in card {
        codes.push(code_of(*character));
    }
    codes
}

/// The code of a character, 00 if it has none.
fn code_of(character: u8) -> u8
    ensures { result ≡ code_or_zero character }
{
    to_ebcdic(character).unwrap_or(0x00)
}

/// The characters of these codes.
fn characters(codes: &[u8]) -> ArrayVec<u8, MAX_RECORD>
    requires { length codes.now ≤ MAX_RECORD }
    ensures { result.items ≡ ascii codes.now }
{
    let mut characters = ArrayVec::new();
    for code in codes {
        characters.push(character_of(*code));
    }
    characters
}

/// The character of a code.
fn character_of(code: u8) -> u8
    ensures { result ≡ shown code }
{
    to_ascii(code).unwrap_or(UNKNOWN)
}

//! Jobs as punched cards.
ghost use Rattle.std.specs.Prelude.{◌≡◌, ◌++◌, ◌-◌, replicate, IfOk, IfErr, OnOk};
ghost use Rattle.std.specs.Io.{StartsWith};
ghost use Rattle.rje_jobs.specs.Punch.{card, punched};

use crate::ascii::push_ascii;
use crate::cards::CARD;
use crate::{FileFault, Job};
use bsc_codes::BLANK;
use rje_text::Record;
use std::alloc::{AllocError, Global};

/// How cards are punched.
#[derive(Clone, Copy, Debug, PartialEq, Eq)]
pub enum Form {
    /// Each card a line of ASCII.
    Ascii,
    /// Each card's data as they are, filled with blanks to 80 bytes where they are fewer.
    Raw,
}

/// The punched cards of a job, one for each record. Nothing is cut off.
pub fn punch_job(alloc: Global, job: &Job, form: Form) -> Result<Vec<u8>, FileFault>
    ensures cards { IfOk result (λ bytes. bytes.items ≡ punched form job.now) }
    ensures memory { IfErr result (λ fault. fault ≡ FileFault.OutOfMemory) }
{
    let mut out = Vec::new(alloc);
    push_cards(job, form, &mut out)?;
    Ok(out)
}

/// Appends the punched cards of a job. Where memory runs out, some of them may stand after what was there.
pub fn push_cards(job: &Job, form: Form, out: &mut Vec<u8>) -> Result<(), FileFault>
    ensures cards { OnOk result (out.new.items ≡ out.old.items ++ punched form job.now) }
    ensures front { StartsWith out.new.items out.old.items }
    ensures memory { IfErr result (λ fault. fault ≡ FileFault.OutOfMemory) }
{
    for item in job.records.iter() {
        push_card(&item, form, out)?;
    }
    Ok(())
}

/// Appends the card of a record. Where memory runs out, a part of it may stand after what was there.
pub fn push_card(item: &Record, form: Form, out: &mut Vec<u8>) -> Result<(), AllocError>
    ensures card { OnOk result (out.new.items ≡ out.old.items ++ card form item.now) }
    ensures front { StartsWith out.new.items out.old.items }
{
    let bytes = item.bytes.as_slice();
    match form {
        Form::Ascii => {
            push_ascii(bytes, out)?;
            out.extend_from_slice(b"\n")
        }
        Form::Raw => {
            out.extend_from_slice(bytes)?;
            fill(bytes.len(), out)
        }
    }
}

/// Appends the blanks that fill a card of `length` bytes.
fn fill(length: usize, out: &mut Vec<u8>) -> Result<(), AllocError>
    ensures blanks { OnOk result (out.new.items ≡ out.old.items ++ replicate (80 - length) BLANK) }
    ensures front { StartsWith out.new.items out.old.items }
{
    for _ in 0..CARD.saturating_sub(length) {
        out.push(BLANK)?;
    }
    Ok(())
}

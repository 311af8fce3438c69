//! Jobs as listings.
ghost use Rattle.std.specs.Prelude.{◌≡◌, ◌++◌, IfOk, IfErr, OnOk};
ghost use Rattle.std.specs.Io.{StartsWith};
ghost use Rattle.rje_jobs.specs.Listing.{carriage as carriage_of, line, listing};

use crate::ascii::push_ascii;
use crate::{FileFault, Job};
use rje_text::{Action, Record};
use std::alloc::{AllocError, Global};

/// The listing of a job: for each record its data in ASCII, and then its carriage control.
pub fn list_job(alloc: Global, job: &Job) -> Result<Vec<u8>, FileFault>
    ensures listing { IfOk result (λ bytes. bytes.items ≡ listing job.now) }
    ensures memory { IfErr result (λ fault. fault ≡ FileFault.OutOfMemory) }
{
    let mut out = Vec::new(alloc);
    push_listing(job, &mut out)?;
    Ok(out)
}

/// Appends the listing of a job. Where memory runs out, a part of it may stand after what was there.
pub fn push_listing(job: &Job, out: &mut Vec<u8>) -> Result<(), FileFault>
    ensures listing { OnOk result (out.new.items ≡ out.old.items ++ listing job.now) }
    ensures front { StartsWith out.new.items out.old.items }
    ensures memory { IfErr result (λ fault. fault ≡ FileFault.OutOfMemory) }
{
    for item in job.records.iter() {
        push_line(&item, out)?;
    }
    Ok(())
}

/// Appends the line of a record: its data in ASCII, and then its carriage control. Where memory runs out, a part of it may stand after what
/// was there.
pub fn push_line(item: &Record, out: &mut Vec<u8>) -> Result<(), AllocError>
    ensures line { OnOk result (out.new.items ≡ out.old.items ++ line item.now) }
    ensures front { StartsWith out.new.items out.old.items }
{
    push_ascii(item.bytes.as_slice(), out)?;
    out.extend_from_slice(carriage(item.action))
}

/// What is written after a line.
fn carriage(action: Action) -> &'static [u8]
    ensures { result.now ≡ carriage_of action }
{
    match action {
        Action::Plain | Action::Single => b"\n",
        Action::Double => b"\n\n",
        Action::Triple => b"\n\n\n",
        Action::Suppress => b"\r",
        Action::Ch1 => b"\n\x0C",
        Action::Ch2 => b"\n[channel 2]\n",
        Action::Ch3 => b"\n[channel 3]\n",
        Action::Ch4 => b"\n[channel 4]\n",
        Action::Ch5 => b"\n[channel 5]\n",
        Action::Ch6 => b"\n[channel 6]\n",
        Action::Ch7 => b"\n[channel 7]\n",
        Action::Ch8 => b"\n[channel 8]\n",
        Action::Ch9 => b"\n[channel 9]\n",
        Action::Ch10 => b"\n[channel 10]\n",
        Action::Ch11 => b"\n[channel 11]\n",
        Action::Ch12 => b"\n[channel 12]\n",
    }
}

//! `check`: whether the jobs of a job file can be sent.
ghost use Rattle.std.specs.Prelude.{◌≡◌, IfErr, IfOk, MatchOption, OnOk, None, false};
ghost use Rattle.rje_requests.specs.declared.order.FileOrder.{FileOrder};
ghost use Rattle.rje_commands.specs.Commands.{Does, IsFault};
ghost use Rattle.rje_commands.specs.CommandFault.{is_of_output};
ghost use Rattle.rje_commands.specs.Inside.Commands.{IsJobsText, IsCheckFault};
ghost use Rattle.std.specs.List.{AllByRecursion};
ghost use Rattle.rje_files.specs.Entry.{jobs_in};
ghost use Rattle.rje_jobs.specs.Fitting.{JobFits};
ghost use Rattle.rje_print.specs.JobTexts.{IsChecked};
ghost use Rattle.rje_station.specs.StationFault.{IsFirstUnfit};
ghost use Rattle.rje_store.specs.Store.{Discloses, IsSame};

use crate::command_fault::CommandFault;
use crate::commands::inputs::read_file;
use crate::commands::output::put;
use rje_files::{FileEntry, entries_in};
use rje_print::{PrintedLine, good_text};
use rje_store::Store;
use std::alloc::Global;
use std::io::Write;

/// Prints how many jobs a job file has, where all of them can be sent.
pub fn check<'a, S: Store, O: Write>(
    alloc: Global,
    name: &'a str,
    store: &mut S,
    out: &mut O,
) -> Result<(), CommandFault<'a>>
    ensures done { OnOk result (Does (FileOrder.Check name.entry)
        (S.files store.old) (S.files store.new)
        None (O.contents out.old) (O.contents out.new)) }
    ensures fault { IfErr result (IsFault (FileOrder.Check name.entry) (S.files store.old) None) }
    ensures same { Discloses (S.files store.old) (S.files store.new) IsSame }
    ensures silent { IfErr result (λ fault. is_of_output fault ≡ false → out.new ≡ out.old) }
{
    let file = read_file(alloc, name, store)?;
    let text = text_of_file(alloc, file.as_slice())?;
    put(text.as_slice(), out)
}

/// What is printed of a job file.
fn text_of_file<'a>(alloc: Global, file: &[u8]) -> Result<PrintedLine, CommandFault<'a>>
    ensures text { IfOk result (λ text. IsJobsText IsChecked file.now text.items) }
    ensures fault { IfErr result (IsCheckFault file.now) }
{
    let entries = entries_in(alloc, file)?;
    match first_unfit(entries.as_slice()) {
        Some(number) => Err(CommandFault::BadJob(number)),
        None => Ok(good_text(entries.len())),
    }
}

/// The number of the first entry whose job can't be sent, from 1; None where all can be.
fn first_unfit(entries: &[FileEntry]) -> Option<usize>
    ensures { MatchOption result (AllByRecursion JobFits (jobs_in entries.now))
        (λ number. IsFirstUnfit (jobs_in entries.now) number) }
{
    for (i, entry) in entries.iter().enumerate() {
        if !entry.job_fits() {
            return Some(i + 1);
        }
    }
    None
}

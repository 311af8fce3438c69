//! The jobs of a job file that a command is for.
ghost use Rattle.std.specs.Prelude.{IfErr, IfOk};
ghost use Rattle.rje_files.specs.JobFile.{HasEntries};
ghost use Rattle.rje_commands.specs.Inside.Commands.{IsChoiceFault};

use crate::command_fault::CommandFault;
use rje_files::{FileEntry, entries_in};
use rje_requests::Choice;
use std::alloc::Global;

/// The entries of a job file, where the one that is chosen, if one is, is among them.
pub(super) fn entries_beside<'a, 'f>(
    alloc: Global,
    file: &'f [u8],
    choice: &Choice,
) -> Result<Vec<FileEntry<'f>>, CommandFault<'a>>
    ensures entries { IfOk result (λ entries. HasEntries entries.items file.entry.now) }
    ensures fault { IfErr result (IsChoiceFault choice.now file.entry.now) }
{
    let entries = entries_in(alloc, file)?;
    match choice.job {
        Some(job) if (entries.len() as u64) < job => Err(CommandFault::NoJob(job)),
        _ => Ok(entries),
    }
}

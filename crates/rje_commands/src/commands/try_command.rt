//! `try`: the run of a job file's jobs over a script of losses and damage.
ghost use Rattle.std.specs.Prelude.{◌≡◌, IfErr, IfOk, OnOk, None, false};
ghost use Rattle.rje_requests.specs.declared.order.FileOrder.{FileOrder};
ghost use Rattle.rje_commands.specs.Commands.{Does, IsFault, IsRunText};
ghost use Rattle.rje_commands.specs.Inside.Commands.{IsTryFault};
ghost use Rattle.rje_commands.specs.CommandFault.{is_of_output};
ghost use Rattle.rje_store.specs.Store.{Discloses, IsSame};

use crate::command_fault::CommandFault;
use crate::commands::inputs::read_file;
use crate::commands::output::put;
use line_world::run;
use rje_files::read_entry_jobs;
use rje_print::{read_script, run_text};
use rje_requests::TryOrder;
use rje_store::Store;
use std::alloc::{AllocError, Global};
use std::io::Write;

/// Prints the run of a job file's jobs over a script, turn by turn, and what came of it.
pub fn trial<'a, S: Store, O: Write>(
    alloc: Global,
    order: TryOrder<'a>,
    store: &mut S,
    out: &mut O,
) -> Result<(), CommandFault<'a>>
    ensures done { OnOk result (Does (FileOrder.Try order.entry)
        (S.files store.old) (S.files store.new)
        None (O.contents out.old) (O.contents out.new)) }
    ensures fault { IfErr result (IsFault (FileOrder.Try order.entry) (S.files store.old) None) }
    ensures same { Discloses (S.files store.old) (S.files store.new) IsSame }
    ensures silent { IfErr result (λ fault. is_of_output fault ≡ false → out.new ≡ out.old) }
{
    let file = read_file(alloc, order.jobs, store)?;
    let script = read_file(alloc, order.script, store)?;
    let text = run_files(alloc, file, script)?;
    put(text.as_slice(), out)
}

/// What is printed of the run of a job file over a script. What isn't wanted any more gives its memory back at once.
fn run_files<'a>(alloc: Global, file: Vec<u8>, script: Vec<u8>) -> Result<Vec<u8>, CommandFault<'a>>
    ensures text { IfOk result (λ text. IsRunText file.items script.items text.items) }
    ensures fault { IfErr result (IsTryFault file.items script.items) }
{
    let jobs = read_entry_jobs(alloc, file.as_slice())?;
    drop(file);
    let turns = read_script(alloc, script.as_slice())?;
    drop(script);
    let report = run(alloc, jobs.as_slice(), turns.as_slice())?;
    drop(turns);
    match run_text(alloc, jobs.len(), &report) {
        Ok(text) => Ok(text),
        Err(AllocError) => Err(CommandFault::OutOfMemory),
    }
}

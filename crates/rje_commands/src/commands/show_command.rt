//! `show`: a line for each job of a job file.
ghost use Rattle.std.specs.Prelude.{◌≡◌, IfErr, IfOk, OnOk, None, false};
ghost use Rattle.rje_requests.specs.declared.order.FileOrder.{FileOrder};
ghost use Rattle.rje_commands.specs.Commands.{Does, IsFault};
ghost use Rattle.rje_commands.specs.CommandFault.{is_of_output};
ghost use Rattle.rje_commands.specs.Inside.Commands.{IsChoiceFault, IsEntriesText};
ghost use Rattle.rje_print.specs.JobTexts.{IsShown};
ghost use Rattle.rje_store.specs.Store.{Discloses, IsSame};

use crate::command_fault::CommandFault;
use crate::commands::choosing::entries_beside;
use crate::commands::inputs::read_file;
use crate::commands::output::put;
use rje_print::entries_text;
use rje_requests::ShowOrder;
use rje_store::Store;
use std::alloc::{AllocError, Global};
use std::io::Write;

/// Prints a line for each chosen job of a job file, and its records after it where they are asked for.
pub fn show<'a, S: Store, O: Write>(
    alloc: Global,
    order: ShowOrder<'a>,
    store: &mut S,
    out: &mut O,
) -> Result<(), CommandFault<'a>>
    ensures done { OnOk result (Does (FileOrder.Show order.entry)
        (S.files store.old) (S.files store.new)
        None (O.contents out.old) (O.contents out.new)) }
    ensures fault { IfErr result (IsFault (FileOrder.Show order.entry) (S.files store.old) None) }
    ensures same { Discloses (S.files store.old) (S.files store.new) IsSame }
    ensures silent { IfErr result (λ fault. is_of_output fault ≡ false → out.new ≡ out.old) }
{
    let file = read_file(alloc, order.jobs, store)?;
    let text = text_of_file(alloc, file.as_slice(), &order)?;
    put(text.as_slice(), out)
}

/// What is printed of a job file.
fn text_of_file<'a>(
    alloc: Global,
    file: &[u8],
    order: &ShowOrder,
) -> Result<Vec<u8>, CommandFault<'a>>
    ensures text { IfOk result (λ text. IsEntriesText
        (IsShown order.now.choice order.now.records) file.now text.items) }
    ensures fault { IfErr result (IsChoiceFault order.now.choice file.now) }
{
    let entries = entries_beside(alloc, file, &order.choice)?;
    match entries_text(alloc, entries.as_slice(), &order.choice, order.records) {
        Ok(text) => Ok(text),
        Err(AllocError) => Err(CommandFault::OutOfMemory),
    }
}

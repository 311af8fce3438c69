//! `print`: the listings and the punched cards of a job file.
ghost use Rattle.std.specs.Prelude.{◌≡◌, IfErr, IfOk, OnErr, OnOk, None, false};
ghost use Rattle.rje_requests.specs.declared.order.FileOrder.{FileOrder};
ghost use Rattle.rje_commands.specs.Commands.{Does, IsFault};
ghost use Rattle.rje_commands.specs.CommandFault.{is_of_output};
ghost use Rattle.rje_commands.specs.Inside.Commands.{IsChoiceFault, IsEntriesText};
ghost use Rattle.rje_print.specs.JobTexts.{AreCut, IsPaper};
ghost use Rattle.rje_store.specs.Store.{Discloses, IsSame};

use crate::command_fault::CommandFault;
use crate::commands::choosing::entries_beside;
use crate::commands::inputs::read_file;
use crate::commands::output::put;
use rje_print::{cut_text, papers_text};
use rje_requests::PrintOrder;
use rje_store::Store;
use std::alloc::Global;
use std::io::Write;

/// Prints each chosen job of a job file: its cards where it is for the punch, in the form that is asked for, and else its listing. Then
/// reports on `err` which of them are cut; what can't be written there is left out.
pub fn print<'a, S: Store, O: Write, E: Write>(
    alloc: Global,
    order: PrintOrder<'a>,
    store: &mut S,
    out: &mut O,
    err: &mut E,
) -> Result<(), CommandFault<'a>>
    ensures done { OnOk result (Does (FileOrder.Print order.entry)
        (S.files store.old) (S.files store.new)
        None (O.contents out.old) (O.contents out.new)) }
    ensures fault { IfErr result (IsFault (FileOrder.Print order.entry) (S.files store.old) None) }
    ensures same { Discloses (S.files store.old) (S.files store.new) IsSame }
    ensures silent { IfErr result (λ fault. is_of_output fault ≡ false → out.new ≡ out.old) }
    ensures quiet { OnErr result (err.new ≡ err.old) }
{
    let file = read_file(alloc, order.jobs, store)?;
    let Printed { paper, cut } = texts_of_file(alloc, file.as_slice(), &order)?;
    put(paper.as_slice(), out)?;
    let _ = err.write_all(cut.as_slice());
    Ok(())
}

/// What is printed of a job file, and the lines that report which jobs are cut.
#[derive(Drop)]
struct Printed {
    paper: Vec<u8>,
    cut: Vec<u8>,
}

/// What is printed of a job file, and what is reported of it.
fn texts_of_file<'a>(
    alloc: Global,
    file: &[u8],
    order: &PrintOrder,
) -> Result<Printed, CommandFault<'a>>
    ensures paper { IfOk result (λ printed. IsEntriesText
        (IsPaper order.now.choice order.now.form) file.now printed.paper.items) }
    ensures cut { IfOk result (λ printed. IsEntriesText
        (AreCut order.now.choice) file.now printed.cut.items) }
    ensures fault { IfErr result (IsChoiceFault order.now.choice file.now) }
{
    let entries = entries_beside(alloc, file, &order.choice)?;
    let paper = papers_text(alloc, entries.as_slice(), &order.choice, order.form)?;
    let cut = cut_text(alloc, entries.as_slice(), &order.choice)?;
    Ok(Printed { paper, cut })
}

//! An order over files, carried out.
ghost use Rattle.std.specs.Prelude.{◌≡◌, IfErr, OnErr, OnOk, false};
ghost use Rattle.rje_commands.specs.Commands.{Does, IsFault, Leaves};
ghost use Rattle.rje_commands.specs.CommandFault.{is_of_output};
ghost use Rattle.rje_store.specs.Store.{Discloses, IsSame};

use crate::command_fault::CommandFault;
use crate::commands::{blocks, cards, check, mark, monitor, print, show, take, trial};
use rje_requests::FileOrder;
use rje_store::Store;
use std::alloc::Global;
use std::io::{Read, Write};

/// Does what an order over files asks for. What it gives goes to `out`, and what is reported beside it to `err`.
pub fn carry_out<'a, S: Store, I: Read, O: Write, E: Write>(
    alloc: Global,
    order: FileOrder<'a>,
    store: &mut S,
    input: &mut I,
    out: &mut O,
    err: &mut E,
) -> Result<(), CommandFault<'a>>
    ensures done { OnOk result (Does order.entry (S.files store.old) (S.files store.new)
        (I.remaining input.old) (O.contents out.old) (O.contents out.new)) }
    ensures fault { IfErr result (IsFault order.entry (S.files store.old) (I.remaining input.old)) }
    ensures files { Leaves order.entry
        (S.files store.old) (S.files store.new) (I.remaining input.old) }
    ensures kept { IfErr result (λ fault. is_of_output fault ≡ false
        → Discloses (S.files store.old) (S.files store.new) IsSame) }
    ensures silent { IfErr result (λ fault. is_of_output fault ≡ false → out.new ≡ out.old) }
    ensures quiet { OnErr result (err.new ≡ err.old) }
{
    match order {
        FileOrder::Blocks(deck) => blocks(alloc, deck, store, input, out),
        FileOrder::Cards(order) => cards(alloc, order, store, input, out),
        FileOrder::Show(order) => show(alloc, order, store, out),
        FileOrder::Check(jobs) => check(alloc, jobs, store, out),
        FileOrder::Print(order) => print(alloc, order, store, out, err),
        FileOrder::Try(order) => trial(alloc, order, store, out),
        FileOrder::Monitor(order) => monitor(alloc, order, store, input, out),
        FileOrder::Take(order) => take(alloc, order, store, out),
        FileOrder::Mark(order) => mark(alloc, order, store, out),
    }
}

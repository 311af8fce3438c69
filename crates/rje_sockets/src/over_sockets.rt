//! An order over sockets, carried out.
ghost use Rattle.std.specs.Prelude.{◌≡◌, IfErr, IfOk};
ghost use Rattle.rje_commands.specs.CommandFault.{status_of};
ghost use Rattle.rje_sockets.specs.SocketCommand.{IsSocketFault, LeavesFiles, Transmits};
ghost use Rattle.rje_store.specs.Store.{Discloses, IsSame};

use crate::socket_commands::{Ending, exchange, loopback, receive, send};
use rje_commands::CommandFault;
use rje_requests::SocketOrder;
use rje_store::Store;
use std::alloc::Global;
use std::io::Write;
use std::net::Net;
use std::time::Clock;

/// Does what an order over sockets asks for, and answers how it ended. What it gives goes to `out`, and its turns as they happen, where that
/// is asked for, to `err`; where not, and where that is a terminal, how far it is.
pub fn carry_out<'a, R: Net + Clock, S: Store, O: Write, E: Write>(
    rt: &R,
    alloc: Global,
    order: SocketOrder<'a>,
    store: &mut S,
    out: &mut O,
    err: &mut E,
    is_terminal: bool,
) -> Result<Ending, CommandFault<'a>>
    ensures done { IfOk result (λ ending. Transmits order.entry ending
        (S.files store.old) (S.files store.new) (O.contents out.old) (O.contents out.new)) }
    ensures fault { IfErr result (IsSocketFault order.entry (S.files store.old)) }
    ensures files { LeavesFiles order.entry (S.files store.old) (S.files store.new) }
    ensures files_kept { IfErr result (λ fault. status_of fault ≡ 1
        → Discloses (S.files store.old) (S.files store.new) IsSame) }
    ensures silent { IfErr result (λ fault. status_of fault ≡ 1 → out.new ≡ out.old) }
{
    match order {
        SocketOrder::Loop(order) => loopback(rt, alloc, order, store, out, err, is_terminal),
        SocketOrder::Send(order) => send(rt, alloc, order, store, out, err, is_terminal),
        SocketOrder::Receive(order) => receive(rt, alloc, order, store, out, err, is_terminal),
        SocketOrder::Exchange(order) => exchange(rt, alloc, order, store, out, err, is_terminal),
    }
}

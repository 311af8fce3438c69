//! One run of the program over sockets, files and two writers.
ghost use Rattle.std.specs.Prelude.{◌≡◌, ◌⊎◌, map, true, false};
ghost use Rattle.rje_requests.specs.declared.order.SocketOrder.{SocketOrder as Asked};
ghost use Rattle.rje_cli.specs.Asking.{AsksFor, IsWordsFault};
ghost use Rattle.rje_commands.specs.CommandFault.{status_of};
ghost use Rattle.rje_sockets.specs.SocketCommand.{IsSocketFault, LeavesFiles, Transmits};
ghost use Rattle.rje_program.specs.SocketCommand.{AsksForNoSockets, IsSocketStatus, LeavesFilesAsAsked, NamesSockets, RefusesAsAsked};
ghost use Rattle.rje_program.specs.SocketCommand.{NamesStation, NamesStatus, TransmitsAsAsked};
ghost use Rattle.rje_store.specs.Store.{Discloses, IsSame};

use crate::telling::{tell_of, tell_words};
use rje_cli::parse;
use rje_commands::{CommandFault, tell};
use rje_requests::{Order, SocketOrder};
use rje_sockets::carry_out;
use rje_store::Store;
use std::alloc::Global;
use std::io::Write;
use std::net::Net;
use std::time::Clock;

/// Whether these words, which are those after the program's name, ask for a command over sockets: by the first of them.
pub fn is_for_sockets(words: &[&str]) -> bool
    ensures yes { result ≡ true → NamesSockets (map (λ word. word.now) words.now) }
    ensures no { result ≡ false → NamesSockets (map (λ word. word.now) words.now) → ⊥ }
{
    match words.first() {
        Some(word) => matches!(*word, "loop" | "send" | "receive" | "exchange"),
        None => false,
    }
}

/// Whether these words, which are those after the program's name, ask for a station that stays on the line: by the first of them.
pub fn is_for_station(words: &[&str]) -> bool
    ensures yes { result ≡ true → NamesStation (map (λ word. word.now) words.now) }
    ensures no { result ≡ false → NamesStation (map (λ word. word.now) words.now) → ⊥ }
{
    match words.first() {
        Some(word) => matches!(*word, "station"),
        None => false,
    }
}

/// Whether these words, which are those after the program's name, ask for a look at the folder of a station: by the first of them.
pub fn is_for_status(words: &[&str]) -> bool
    ensures yes { result ≡ true → NamesStatus (map (λ word. word.now) words.now) }
    ensures no { result ≡ false → NamesStatus (map (λ word. word.now) words.now) → ⊥ }
{
    match words.first() {
        Some(word) => matches!(*word, "status"),
        None => false,
    }
}

/// Runs the command over sockets that these words ask for, and returns its exit status: 0 where all was sent and received (or it gave help or
/// the version), 4 where some was not, 1 where a job file that it sends or receives into is refused, 2 where the words ask for no command over sockets, 3
/// where a file, a line or an output failed, 5 where there was no memory, 141 where nobody reads `out` any more. What the command gives goes
/// to `out`, and why it fails to `err`, and its turns as they happen if that is asked for. If
/// `err` is a terminal, it is shown there how far a transmission is, unless the words ask for the turns or for nothing.
pub fn socket_command<R: Net + Clock, S: Store, O: Write, E: Write>(
    rt: &R,
    alloc: Global,
    words: &[&str],
    store: &mut S,
    out: &mut O,
    err: &mut E,
    is_terminal: bool,
) -> u8
    ensures done { (result ≡ 0) ⊎ (result ≡ 4)
        → TransmitsAsAsked result (map (λ word. word.now) words.now)
        (S.files store.old) (S.files store.new) (O.contents out.old) (O.contents out.new) }
    ensures refused { result ≡ 1
        → RefusesAsAsked (map (λ word. word.now) words.now) (S.files store.old) }
    ensures words { result ≡ 2 → AsksForNoSockets (map (λ word. word.now) words.now) }
    ensures status { IsSocketStatus result }
    ensures files { LeavesFilesAsAsked (map (λ word. word.now) words.now)
        (S.files store.old) (S.files store.new) }
    ensures files_kept { (result ≡ 1) ⊎ (result ≡ 2)
        → Discloses (S.files store.old) (S.files store.new) IsSame }
    ensures silent { (result ≡ 1) ⊎ (result ≡ 2) → out.new ≡ out.old }
{
    let order = match parse(alloc, words) {
        Ok(Order::Sockets(order)) => order,
        Ok(Order::Files(_)) => return tell(&CommandFault::NoCommand, err),
        Ok(Order::Station(_)) => return tell(&CommandFault::NoCommand, err),
        Ok(Order::Status(_)) => return tell(&CommandFault::NoCommand, err),
        Err(fault) => return tell_words(&fault, out, err),
    };
    match carry_out(rt, alloc, order, store, out, err, is_terminal) {
        Ok(ending) => ending.status(),
        Err(fault) => tell_of(&fault, job_file(&order), err),
    }
}

/// The name of the one job file that an order reads. `exchange` reads two, and reports itself which is none.
fn job_file<'a>(order: &SocketOrder<'a>) -> Option<&'a str> {
    match order {
        SocketOrder::Loop(order) => Some(order.jobs),
        SocketOrder::Send(order) => Some(order.jobs),
        SocketOrder::Receive(order) => Some(order.into.jobs),
        SocketOrder::Exchange(_) => None,
    }
}

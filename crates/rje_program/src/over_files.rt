//! One run of the program over files, a reader and two writers.
ghost use Rattle.std.specs.Prelude.{◌≡◌, ◌≢◌, ◌⊎◌, map};
ghost use Rattle.rje_requests.specs.declared.order.FileOrder.{FileOrder as Asked};
ghost use Rattle.rje_cli.specs.Asking.{AsksFor, IsWordsFault};
ghost use Rattle.rje_commands.specs.Commands.{Does, IsFault, Leaves};
ghost use Rattle.rje_program.specs.Command.{DoesAsAsked, IsRefused, LeavesAsAsked, AsksForNoFiles, IsStatus};
ghost use Rattle.rje_store.specs.Store.{Discloses, IsSame};

use crate::telling::{tell_of, tell_words};
use rje_cli::parse;
use rje_commands::{CommandFault, carry_out, tell};
use rje_requests::{FileOrder, Order};
use rje_store::Store;
use std::alloc::Global;
use std::io::{Read, Write};

/// Runs the command over files that these words ask for, which are those after the program's name, and returns its exit status: 0 where
/// it did what it is for (or gave help or the version), 1 where what it reads is refused, 2 where the words ask for no command over files,
/// 3 where the store, the reader or a writer failed, 5 where there was no memory, 141 where nobody reads `out` any more. What the command
/// gives goes to `out`, and why it fails to `err`; with 141 nothing does.
pub fn command<S: Store, I: Read, O: Write, E: Write>(
    alloc: Global,
    words: &[&str],
    store: &mut S,
    input: &mut I,
    out: &mut O,
    err: &mut E,
) -> u8
    ensures done { result ≡ 0 → DoesAsAsked (map (λ word. word.now) words.now)
        (S.files store.old) (S.files store.new) (I.remaining input.old)
        (O.contents out.old) (O.contents out.new) }
    ensures refused { result ≡ 1 → IsRefused (map (λ word. word.now) words.now)
        (S.files store.old) (I.remaining input.old) }
    ensures words { result ≡ 2 → AsksForNoFiles (map (λ word. word.now) words.now) }
    ensures status { IsStatus result }
    ensures files { LeavesAsAsked (map (λ word. word.now) words.now)
        (S.files store.old) (S.files store.new) (I.remaining input.old) }
    ensures files_kept { result ≢ 0 → result ≢ 3 → result ≢ 141
        → Discloses (S.files store.old) (S.files store.new) IsSame }
    ensures silent { result ≢ 0 → result ≢ 3 → result ≢ 141 → out.new ≡ out.old }
    ensures quiet { result ≡ 141 → err.new ≡ err.old }
{
    let order = match parse(alloc, words) {
        Ok(Order::Files(order)) => order,
        Ok(Order::Sockets(_)) => return tell(&CommandFault::NoCommand, err),
        Ok(Order::Station(_)) => return tell(&CommandFault::NoCommand, err),
        Ok(Order::Status(_)) => return tell(&CommandFault::NoCommand, err),
        Err(fault) => return tell_words(&fault, out, err),
    };
    match carry_out(alloc, order, store, input, out, err) {
        Ok(()) => 0,
        Err(fault) => tell_of(&fault, job_file(&order), err),
    }
}

/// The name of the job file that an order reads. `take` and `mark` report themselves which is none.
fn job_file<'a>(order: &FileOrder<'a>) -> Option<&'a str> {
    match order {
        FileOrder::Cards(order) => Some(order.jobs),
        FileOrder::Show(order) => Some(order.jobs),
        FileOrder::Check(jobs) => Some(*jobs),
        FileOrder::Print(order) => Some(order.jobs),
        FileOrder::Try(order) => Some(order.jobs),
        FileOrder::Blocks(_) | FileOrder::Monitor(_) | FileOrder::Take(_) | FileOrder::Mark(_) =>
            None,
    }
}

//! `receive`: one transmission from whoever connects, into a job file.
ghost use Rattle.std.specs.Prelude.{◌≡◌, ◌<◌, ◌⊎◌, ℕ, List, Option, None, Err, IfErr, IfOk, IfSome, IsErr, IsErrOf, IsOk, OnErr, OnOk, true, false};
ghost use Rattle.std.specs.Result.{IsOkAnd};
ghost use Rattle.rje_files.specs.declared.entry.Entry.{Entry};
ghost use Rattle.rje_sockets.specs.Answering.{KeepsAnswered};
ghost use Rattle.rje_commands.specs.CommandFault.{IsFailing, of_text, status_of};
ghost use Rattle.rje_text.specs.declared.text_fault.TextFault.{TextFault as Refusal};
ghost use Rattle.rje_sockets.specs.Ending.{MakesJobFile, Receives, EndsReceiving};
ghost use Rattle.rje_sockets.specs.InFront.{IsRefusedDestination};
ghost use Rattle.rje_sockets.specs.Inside.Keeping.{IsOfFile, KeepsJobs};
ghost use Rattle.rje_sockets.specs.Inside.Opening.{IsDestinationFault, IsOpened};
ghost use Rattle.rje_sockets.specs.Inside.BreakingOff.{of_broken_off};
ghost use Rattle.rje_sockets.specs.NamedFiles.{NamesWritten};
ghost use Rattle.rje_sockets.specs.OverLine.{OverConnection};
ghost use Rattle.rje_sockets.specs.Patience.{most_quiet};
ghost use Rattle.rje_store.specs.Store.{FileMap, Discloses, IsSame};

use crate::connection::{met, tell_if_late};
use crate::job_writer::JobWriter;
use crate::kept_file::KeptFile;
use crate::observer::{Observer, Unwatched};
use crate::one_way::{USUAL_PATIENCE, most_quiet, receive_all};
use crate::receive_end::ReceiveEnd;
use crate::reported_cause::{report_cause, report_failure};
use crate::reporter::Reporter;
use crate::socket_commands::Ending;
use crate::transfer_error::TransferError;
use crate::verbosity::Verbosity;
use bsc_link::Rank;
use rje_commands::{CommandFault, put, tell};
use rje_jobs::Job;
use rje_print::handed_text;
use rje_requests::{Destination, ReceiveOrder};
use rje_station::{Line, ReceivingStation};
use rje_store::Store;
use rje_text::TextFault;
use std::alloc::Global;
use std::io::Write;
use std::net::Net;
use std::time::Clock;

/// Has the file of the order's destination for itself, comes to one connection and takes one transmission, writes its jobs into the file and
/// prints how many there are. Where that is asked for, who is connected and each turn is told to `err` as it happens, and else, where that is a
/// terminal, how far it is.
pub fn receive<'a, R: Net + Clock, S: Store, O: Write, E: Write>(
    rt: &R,
    alloc: Global,
    order: ReceiveOrder<'a>,
    store: &mut S,
    out: &mut O,
    err: &mut E,
    is_terminal: bool,
) -> Result<Ending, CommandFault<'a>>
    ensures received { IfOk result (λ ending. OverConnection (λ t u.
        Receives (most_quiet order.entry.patience) ending order.entry.into (t, S.files store.old, O.contents out.old)
        (u, S.files store.new, O.contents out.new))) }
    ensures fault { IfErr result (IsDestinationFault order.entry.into (S.files store.old)) }
    ensures kept { IfSome (S.files store.old) (λ _. (after : ℕ)
        × KeepsAnswered order.entry.into (S.files store.old) (S.files store.new) 0 after) }
    ensures files_kept { IfErr result (λ fault. status_of fault ≡ 1
        → Discloses (S.files store.old) (S.files store.new) IsSame) }
    ensures silent { IfErr result (λ fault. status_of fault ≡ 1 → out.new ≡ out.old) }
{
    let file = KeptFile::open(alloc, order.into, store)?;
    let patience = most_quiet(order.patience);
    let hearings = match order.waits {
        true => Some(patience),
        false => None,
    };
    let report = Verbosity::of(order.connection.trace, order.connection.quiet, is_terminal);
    let (mut line, peer) = match met(rt, order.connection, Rank::Secondary, hearings, report, err) {
        Ok(met) => met,
        Err(cause) => return Err(report_cause(cause, err)),
    };
    let mut reporter = Reporter::new(rt, report, &[], &mut *err);
    reporter.connected(peer);
    let ending = received(alloc, &mut line, patience, file, store, &mut reporter, out);
    reporter.ended();
    tell_if_late(order.connection, &line, err);
    report_failure(&ending, line.cause(), err);
    ending
}

/// Receives one transmission over a line into the file of a destination, also where the line fails, and prints how many jobs there are.
/// Forty quiet hearings in a row are the end of it. Each job is in the file before its last block is answered. Answers the exit status, and
/// reports why it isn't 0.
pub fn receive_over<L: Line, S: Store, O: Write, E: Write>(
    alloc: Global,
    line: &mut L,
    into: Destination,
    store: &mut S,
    out: &mut O,
    err: &mut E,
) -> u8
    ensures received { (result ≡ 0) ⊎ (result ≡ 4) → EndsReceiving result into.entry
        ((L.talk line.old, L.transmissions line.old), S.files store.old, O.contents out.old)
        ((L.talk line.new, L.transmissions line.new), S.files store.new, O.contents out.new) }
    ensures status { (result ≡ 0) ⊎ ((result ≡ 4) ⊎ ((result ≡ 1) ⊎ IsFailing result)) }
    ensures refused { result ≡ 1 → IsRefusedDestination into.entry (S.files store.old) }
    ensures kept { IfSome (S.files store.old) (λ _. KeepsAnswered into.entry
        (S.files store.old) (S.files store.new)
        (L.transmissions line.old) (L.transmissions line.new)) }
    ensures files_kept { result ≡ 1 → Discloses (S.files store.old) (S.files store.new) IsSame }
    ensures silent { result ≡ 1 → (line.new ≡ line.old) × (out.new ≡ out.old) }
{
    match received_into(alloc, line, into, store, out) {
        Ok(ending) => ending.status(),
        Err(fault) => tell(&fault, err),
    }
}

fn received_into<'a, L: Line, S: Store, O: Write>(
    alloc: Global,
    line: &mut L,
    into: Destination<'a>,
    store: &mut S,
    out: &mut O,
) -> Result<Ending, CommandFault<'a>>
    ensures received { IfOk result (λ ending. Receives 40 ending into.entry
        ((L.talk line.old, L.transmissions line.old), S.files store.old, O.contents out.old)
        ((L.talk line.new, L.transmissions line.new), S.files store.new, O.contents out.new)) }
    ensures fault { IfErr result (IsDestinationFault into.entry (S.files store.old)) }
    ensures kept { IfSome (S.files store.old) (λ _. KeepsAnswered into.entry
        (S.files store.old) (S.files store.new)
        (L.transmissions line.old) (L.transmissions line.new)) }
    ensures files_kept { IfErr result (λ fault. status_of fault ≡ 1
        → Discloses (S.files store.old) (S.files store.new) IsSame) }
    ensures silent { IfErr result (λ fault. status_of fault ≡ 1
        → (line.new ≡ line.old) × (out.new ≡ out.old)) }
{
    let file = KeptFile::open(alloc, into, store)?;
    received(
        alloc,
        line,
        USUAL_PATIENCE,
        file,
        store,
        &mut Unwatched,
        out,
    )
}

/// Receives one transmission over a line into this file.
fn received<'a, L: Line, S: Store, W: Observer, O: Write>(
    alloc: Global,
    line: &mut L,
    patience: u32,
    file: KeptFile<'a>,
    store: &mut S,
    watch: &mut W,
    out: &mut O,
) -> Result<Ending, CommandFault<'a>>
    requires patient { 0 < patience }
    ensures received { (front : List Entry) (files : Option FileMap)
        → IsOpened front file.entry files → Discloses files (S.files store.old) IsSame
        → IfOk result (λ ending. Receives patience ending file.entry.into
        ((L.talk line.old, L.transmissions line.old), files, O.contents out.old)
        ((L.talk line.new, L.transmissions line.new), S.files store.new, O.contents out.new)) }
    ensures status { IfErr result (λ fault. IsFailing (status_of fault)) }
    ensures names { IfErr result (NamesWritten file.entry.into.jobs.now) }
    ensures kept { (front : List Entry) (files : Option FileMap)
        → IsOpened front file.entry files → Discloses files (S.files store.old) IsSame
        → IfSome files (λ _. KeepsAnswered file.entry.into files (S.files store.new)
        (L.transmissions line.old) (L.transmissions line.new)) }
{
    let mut station = ReceivingStation::new(alloc)?;
    let mut keeper = JobWriter::new(alloc, file);
    let left = receive_all(&mut station, line, patience, &mut keeper, store, watch);
    watch.ended();
    let handed = handed_text(station.jobs());
    let written = keep_rest(&left, &mut keeper, station.take(), store);
    let printed = put(handed.as_slice(), out);
    let ending = left_after(left, written, printed).map(Ending::from);
    unless_refused(ending, keeper.refusal())
}

/// How it ended, or why a block was refused that didn't come again so that it could be taken.
pub(super) fn unless_refused<'a>(
    ending: Result<Ending, CommandFault<'a>>,
    refusal: Option<TextFault>,
) -> Result<Ending, CommandFault<'a>>
    ensures ending { (result ≡ ending.entry)
        ⊎ ((why : Refusal) × (result ≡ Err (of_text why))) }
    ensures refused { IfSome refusal (λ why.
        IfOk ending.entry (λ _. result ≡ Err (of_text why))) }
    ensures taken { refusal ≡ None → result ≡ ending.entry }
{
    match (ending, refusal) {
        (Ok(_), Some(why)) => Err(CommandFault::from(why)),
        (ending, _) => ending,
    }
}

/// Keeps what is left of the jobs, where none of them was refused by the file before.
pub(super) fn keep_rest<'a, S: Store>(
    left: &Result<ReceiveEnd, TransferError<'a>>,
    keeper: &mut JobWriter<'a>,
    jobs: Vec<Job>,
    store: &mut S,
) -> Result<(), CommandFault<'a>>
    ensures file { OnOk result ((files : Option FileMap)
        → IfErr left.now (λ broken. IsOfFile broken → ⊥)
        → KeepsJobs keeper.old jobs.items files (S.files store.old)
        → MakesJobFile jobs.items keeper.old.file.into files (S.files store.new)) }
    ensures refused { IfErr left.now (λ broken. IsOfFile broken
        → Discloses (S.files store.old) (S.files store.new) IsSame) }
    ensures status { IfErr result (λ fault. IsFailing (status_of fault)) }
    ensures names { IfErr result (NamesWritten keeper.old.file.into.jobs.now) }
    ensures same { OnErr result (Discloses (S.files store.old) (S.files store.new) IsSame) }
{
    let written = match left {
        Err(TransferError::File(_)) => Ok(()),
        _ => keeper.finish(jobs, store),
    };
    store.settle();
    written
}

/// How the transmission was left, where nothing failed of it, of its files and of its lines on the output; else the first of their faults.
pub(super) fn left_after<'a>(
    left: Result<ReceiveEnd, TransferError<'a>>,
    written: Result<(), CommandFault<'a>>,
    printed: Result<(), CommandFault<'a>>,
) -> Result<ReceiveEnd, CommandFault<'a>>
    ensures left { IfOk result (λ so. IsOkAnd left.entry (λ left. left ≡ so)
        × IsOk written.entry × IsOk printed.entry) }
    ensures first { IfErr left.entry (λ broken. IsErrOf result (of_broken_off broken)) }
    ensures second { IsOk left.entry → IfErr written.entry (λ fault. IsErrOf result fault) }
    ensures third { IsOk left.entry → IsOk written.entry
        → IfErr printed.entry (λ fault. IsErrOf result fault) }
    ensures none { IsOk left.entry → IsOk written.entry → IsOk printed.entry → IsOk result }
    ensures status { IfErr left.entry (λ broken. IsFailing (status_of (of_broken_off broken)))
        → IfErr written.entry (λ fault. IsFailing (status_of fault))
        → IfErr printed.entry (λ fault. IsFailing (status_of fault))
        → IfErr result (λ fault. IsFailing (status_of fault)) }
{
    let left = left?;
    written?;
    printed?;
    Ok(left)
}

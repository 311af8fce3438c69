//! `exchange`: one transmission each way over one connection.
ghost use Rattle.std.specs.Prelude.{◌≡◌, ◌≢◌, ◌<◌, ◌⊎◌, List, Option, IfErr, IfOk, IfSome, OnOk, ⊤};
ghost use Rattle.std.specs.List.{flat_map};
ghost use Rattle.rje_jobs.specs.declared.job.Job.{Job as Item};
ghost use Rattle.rje_files.specs.declared.entry.Entry.{Entry};
ghost use Rattle.rje_files.specs.Unsent.{IsLeft};
ghost use Rattle.rje_commands.specs.Commands.{OfFile};
ghost use Rattle.rje_commands.specs.CommandFault.{IsFailing, status_of};
ghost use Rattle.rje_sockets.specs.Ending.{IsRefusedFile};
ghost use Rattle.rje_sockets.specs.Exchanging.{EndsExchanging, ExchangesLeft, ending_of_both, exchanged_text, is_idle};
ghost use Rattle.rje_sockets.specs.Inside.Sending.{IsExchangeFault, IsSendFault};
ghost use Rattle.rje_sockets.specs.InFront.{IsRefusedDestination};
ghost use Rattle.rje_sockets.specs.LeavingBoth.{LeavesBoth, LeavesExchange};
ghost use Rattle.rje_sockets.specs.Inside.Opening.{IsDestinationFault, IsOpened};
ghost use Rattle.rje_sockets.specs.Inside.BothFiles.{HoldsBoth, Exchanges};
ghost use Rattle.rje_sockets.specs.NamedFiles.{NamesOne};
ghost use Rattle.rje_sockets.specs.OverLine.{OverConnection};
ghost use Rattle.rje_sockets.specs.Patience.{most_quiet};
ghost use Rattle.rje_store.specs.Store.{FileMap, Discloses, IsSame};
ghost use Rattle.rje_store.specs.declared.store.WriteMode.TheVariants.{Growing};

use crate::both_ways::exchange_all;
use crate::close::{Close, Drain, Leave, parts_in_step};
use crate::connection::{met, tell_if_late};
use crate::job_writer::JobWriter;
use crate::kept_file::KeptFile;
use crate::observer::{Observer, Unwatched};
use crate::one_way::{USUAL_PATIENCE, most_quiet};
use crate::receive_end::ReceiveEnd;
use crate::reported_cause::{report_cause, report_failure};
use crate::reporter::Reporter;
use crate::sent_marker::SentMarker;
use crate::socket_commands::Ending;
use crate::socket_commands::receive_command::{keep_rest, left_after, unless_refused};
use crate::socket_commands::send_command::{UnsentJobs, look_at_outgoing, read_outgoing};
use crate::verbosity::Verbosity;
use bsc_link::{Outcome, Rank};
use rje_commands::{CommandFault, lock_file, look_beside, put_lines, tell};
use rje_jobs::{FileFault, Job};
use rje_names::PrintedName;
use rje_print::{PrintedLine, counted_text, handed_text, outcome_text};
use rje_requests::{Destination, ExchangeOrder, Meeting};
use rje_station::{Line, Station};
use rje_store::Store;
use std::alloc::Global;
use std::io::Write;
use std::net::Net;
use std::time::Clock;

/// Sends the jobs of a job file that were not sent, and receives those of the other end into another one, over one connection. It has both
/// files for itself, but while it waits for a call that which is received alone: what is added meanwhile to the other is sent. Marks those
/// that were counted, and prints how many there are, how it ended, and how many came. Where that is asked for, who is connected and each
/// turn is told to `err` as it happens, and else, where that is a terminal, how far it is.
pub fn exchange<'a, R: Net + Clock, S: Store, O: Write, E: Write>(
    rt: &R,
    alloc: Global,
    order: ExchangeOrder<'a>,
    store: &mut S,
    out: &mut O,
    err: &mut E,
    is_terminal: bool,
) -> Result<Ending, CommandFault<'a>>
    ensures exchanged { IfOk result (λ ending. OverConnection (λ t u.
        ExchangesLeft ending (order.entry.rank, most_quiet order.entry.patience)
        order.entry.send.now order.entry.received (t, S.files store.old, O.contents out.old)
        (u, S.files store.new, O.contents out.new))) }
    ensures fault { IfErr result (IsExchangeFault order.entry.send.now order.entry.received
        (S.files store.old)) }
    ensures files { IfSome (S.files store.old) (λ _. LeavesExchange ⊤ order.entry.rank
        order.entry.send.now order.entry.received (S.files store.old) (S.files store.new)) }
    ensures files_kept { IfErr result (λ fault. status_of fault ≡ 1
        → Discloses (S.files store.old) (S.files store.new) IsSame) }
    ensures silent { IfErr result (λ fault. status_of fault ≡ 1 → out.new ≡ out.old) }
{
    look_before_meeting(alloc, order.send, order.connection.place, store, err)?;
    let keeper = keeper_beside(alloc, order.send, order.received, store, err)?;
    let report = Verbosity::of(order.connection.trace, order.connection.quiet, is_terminal);
    let (mut line, peer) = match met(rt, order.connection, order.rank, None, report, err) {
        Ok(met) => met,
        Err(cause) => return Err(report_cause(cause, err)),
    };
    let UnsentJobs {
        jobs,
        marker,
        names,
    } = read_outgoing(alloc, order.send, store)?;
    let station = Station::new(alloc, order.rank, jobs.as_slice())?;
    marker.begin(store)?;
    let mut reporter = Reporter::new(rt, report, names.as_slice(), &mut *err);
    reporter.connected(peer);
    let ending = exchange_files(
        station,
        marker,
        keeper,
        &mut line,
        most_quiet(order.patience),
        &Drain,
        store,
        &mut reporter,
        out,
    );
    tell_if_late(order.connection, &line, err);
    report_failure(&ending, line.cause(), err);
    ending
}

/// Exchanges over a line what is left of the job file of one name for the other station's jobs, which go into the file of another name.
/// Forty of the other's turns in a row that bring nothing are the end. Then, also after a fault of the line, marks in the one what was
/// counted, and prints how many of its jobs were counted, how it ended, and how many jobs came. Each job is in its file before its last
/// block is answered. Answers the exit status, and reports why it isn't 0.
pub fn exchange_over<L: Line, S: Store, O: Write, E: Write>(
    alloc: Global,
    rank: Rank,
    line: &mut L,
    send: &str,
    received: Destination,
    store: &mut S,
    out: &mut O,
    err: &mut E,
) -> u8
    ensures exchanged { (result ≡ 0) ⊎ (result ≡ 4) → EndsExchanging result rank
        send.now received.entry
        ((L.talk line.old, L.transmissions line.old), S.files store.old, O.contents out.old)
        ((L.talk line.new, L.transmissions line.new), S.files store.new, O.contents out.new) }
    ensures status { (result ≡ 0) ⊎ ((result ≡ 4) ⊎ ((result ≡ 1) ⊎ IsFailing result)) }
    ensures refused { result ≡ 1 → OfFile send.now (S.files store.old) IsRefusedFile
        ⊎ IsRefusedDestination received.entry (S.files store.old) }
    ensures files { IfSome (S.files store.old) (λ _. LeavesExchange (line.new ≡ line.old) rank
        send.now received.entry (S.files store.old) (S.files store.new)) }
    ensures files_kept { result ≡ 1 → Discloses (S.files store.old) (S.files store.new) IsSame }
    ensures silent { result ≡ 1 → (line.new ≡ line.old) × (out.new ≡ out.old) }
{
    match exchanged(alloc, rank, line, send, received, store, out, err) {
        Ok(ending) => ending.status(),
        Err(fault) => tell(&fault, err),
    }
}

fn exchanged<'a, L: Line, S: Store, O: Write, E: Write>(
    alloc: Global,
    rank: Rank,
    line: &mut L,
    send: &'a str,
    received: Destination<'a>,
    store: &mut S,
    out: &mut O,
    err: &mut E,
) -> Result<Ending, CommandFault<'a>>
    ensures exchanged { IfOk result (λ ending. ExchangesLeft ending (rank, 40)
        send.entry.now received.entry
        ((L.talk line.old, L.transmissions line.old), S.files store.old, O.contents out.old)
        ((L.talk line.new, L.transmissions line.new), S.files store.new, O.contents out.new)) }
    ensures fault { IfErr result (IsExchangeFault send.entry.now received.entry
        (S.files store.old)) }
    ensures files { IfSome (S.files store.old) (λ _. LeavesExchange (line.new ≡ line.old) rank
        send.entry.now received.entry (S.files store.old) (S.files store.new)) }
    ensures files_kept { IfErr result (λ fault. status_of fault ≡ 1
        → Discloses (S.files store.old) (S.files store.new) IsSame) }
    ensures silent { IfErr result (λ fault. status_of fault ≡ 1
        → (line.new ≡ line.old) × (out.new ≡ out.old)) }
{
    let UnsentJobs {
        jobs,
        marker,
        names: _,
    } = read_outgoing(alloc, send, store)?;
    let station = Station::new(alloc, rank, jobs.as_slice())?;
    let keeper = keeper_beside(alloc, send, received, store, err)?;
    marker.begin(store)?;
    exchange_files(
        station,
        marker,
        keeper,
        line,
        USUAL_PATIENCE,
        &Leave,
        store,
        &mut Unwatched,
        out,
    )
}

/// Reports that the file of this name is no job file, where that is why.
fn name_no_job_file<T, E: Write>(tried: &Result<T, CommandFault>, name: &str, err: &mut E) {
    if let Err(CommandFault::File(FileFault::NotJobFile)) = tried {
        let _ = writeln!(err, "rje: {}: no job file", PrintedName(name));
    }
}

/// Looks whether what is left of the job file of this name can be sent. An end that calls has the file for itself from then on; one that
/// listens leaves it free until it is called.
fn look_before_meeting<'a, S: Store, E: Write>(
    alloc: Global,
    name: &'a str,
    place: Meeting,
    store: &mut S,
    err: &mut E,
) -> Result<(), CommandFault<'a>>
    ensures fault { IfErr result (IsSendFault (λ named. named ≡ name.entry.now)
        name.entry.now (S.files store.old)) }
    ensures same { Discloses (S.files store.old) (S.files store.new) IsSame }
{
    let looked = look_at_outgoing(alloc, name, store);
    name_no_job_file(&looked, name, err);
    looked?;
    match place {
        Meeting::Calls(_) => lock_file(alloc, name, store),
        Meeting::Listens(..) => Ok(()),
    }
}

/// Keeps jobs in the file of a destination, which is not that of the other name.
fn keeper_beside<'a, S: Store, E: Write>(
    alloc: Global,
    other: &str,
    into: Destination<'a>,
    store: &mut S,
    err: &mut E,
) -> Result<JobWriter<'a>, CommandFault<'a>>
    ensures two { OnOk result (other.now ≢ into.entry.jobs.now) }
    ensures into { IfOk result (λ keeper. keeper.file.into ≡ into.entry) }
    ensures none { IfOk result (λ keeper. keeper.kept ≡ 0) }
    ensures opened { IfOk result (λ keeper. (front : List Entry)
        × IsOpened front keeper.file (S.files store.old)) }
    ensures fault { IfErr result (IsDestinationFault into.entry (S.files store.old)) }
    ensures same { Discloses (S.files store.old) (S.files store.new) IsSame }
{
    look_beside(alloc, other, into.jobs, store)?;
    let file = KeptFile::open(alloc, into, store);
    name_no_job_file(&file, into.jobs, err);
    Ok(JobWriter::new(alloc, file?))
}

/// Exchanges over a line what the station has for what comes. At the end it marks what was counted in the whole file, keeps what is left of
/// what came, and prints the lines of both. Where an answer came after the end of its own transmission, it is in doubt what was received, and
/// nothing more is marked.
fn exchange_files<'a, 'b, L: Line, P: Close<L>, S: Store, W: Observer, O: Write>(
    mut station: Station<'b>,
    mut marker: SentMarker<'a>,
    mut keeper: JobWriter<'a>,
    line: &mut L,
    patience: u32,
    parting: &P,
    store: &mut S,
    watch: &mut W,
    out: &mut O,
) -> Result<Ending, CommandFault<'a>>
    requires patient { 0 < patience }
    ensures exchanged { IfOk result (λ ending. Exchanges ending patience
        station.entry (marker.entry, keeper.entry)
        ((L.talk line.old, L.transmissions line.old), S.files store.old, O.contents out.old)
        ((L.talk line.new, L.transmissions line.new), S.files store.new, O.contents out.new)) }
    ensures status { IfErr result (λ fault. (jobs : List Item)
        → IsLeft marker.entry.file.items jobs → IsFailing (status_of fault)) }
    ensures names { IfErr result (NamesOne (λ _. ⊥)
        (λ name. (name ≡ marker.entry.name.now)
        ⊎ (name ≡ keeper.entry.file.into.jobs.now))) }
    ensures files { marker.entry.marked ≡ station.entry.sender.counted
        → keeper.entry.file.place ≡ Growing
        → marker.entry.name.now ≢ keeper.entry.file.into.jobs.now
        → (files : Option FileMap) → HoldsBoth marker.entry station.entry.sender.counted
        keeper.entry station.entry.receiver.jobs files (S.files store.old)
        → LeavesBoth station.entry marker.entry.file.items marker.entry.name.now
        keeper.entry.file.into files (S.files store.new) }
{
    let given = station.sender().jobs().len();
    let left = exchange_all(
        &mut station,
        line,
        patience,
        &mut marker,
        &mut keeper,
        store,
        watch,
    );
    watch.ended();
    let outcome = station.sender().outcome();
    let counted = station.sender().counted();
    let lines = lines_of_both(counted, given, outcome, station.receiver().jobs());
    let idle = is_idle(given, station.receiver().jobs());
    let in_step = parts_in_step(left.is_ok(), line, parting);
    let marked = marker.finish(counted, in_step, store);
    let kept = keep_rest(&left, &mut keeper, station.take(), store);
    let printed = put_lines(&lines, out);
    let ending = left_after(left, marked.and(kept), printed).map(|left| ending_of_both(
        outcome, idle, left,
    ));
    unless_refused(ending, keeper.refusal())
}

/// How many of so many jobs were counted, how that ended, and how many jobs came.
fn lines_of_both(
    counted: usize,
    given: usize,
    outcome: Option<Outcome>,
    jobs: &[Job],
) -> [PrintedLine; 3]
    ensures { flat_map (λ line. line.items) result ≡ exchanged_text counted given outcome jobs.now }
{
    [
        counted_text(counted, given),
        outcome_text(outcome),
        handed_text(jobs),
    ]
}

/// Whether nothing was given to be sent, and nothing came.
fn is_idle(given: usize, jobs: &[Job]) -> bool
    ensures { result ≡ is_idle given jobs.now }
{
    given == 0 && jobs.is_empty()
}

/// Both directions ended as they should, or one ended otherwise. Where there was nothing to send either way, the other's ended so however it
/// was left.
fn ending_of_both(outcome: Option<Outcome>, is_idle: bool, left: ReceiveEnd) -> Ending
    ensures { result ≡ ending_of_both outcome is_idle left }
{
    match (Ending::from(outcome), left) {
        (Ending::Done, ReceiveEnd::Ended) => Ending::Done,
        (Ending::Done, ReceiveEnd::Abandoned) if is_idle => Ending::Done,
        _ => Ending::Other,
    }
}

//! `send`: one transmission of what is left of a job file to a listening receiver.
ghost use Rattle.std.specs.Prelude.{◌≡◌, ◌⊎◌, List, Option, length, IfErr, IfOk, OnOk, true, ⊤};
ghost use Rattle.std.specs.Io.KnownBytes.{Appends};
ghost use Rattle.rje_jobs.specs.declared.job.Job.{Job};
ghost use Rattle.rje_files.specs.Marks.{AreMarks};
ghost use Rattle.rje_files.specs.Unsent.{IsLeft};
ghost use Rattle.rje_station.specs.Sending.{outcome_of};
ghost use Rattle.rje_commands.specs.Commands.{OfFile};
ghost use Rattle.rje_commands.specs.CommandFault.{IsFailing, is_of_output, status_of};
ghost use Rattle.rje_sockets.specs.Ending.{ending_of, sent_text, IsRefusedFile, IsUnsentFault, MarksSent, SendsLeft, EndsSending};
ghost use Rattle.rje_sockets.specs.Inside.Sending.{IsOutgoing, IsSendFault};
ghost use Rattle.rje_sockets.specs.Marking.{MarksNoMore};
ghost use Rattle.rje_sockets.specs.Inside.Marking.{Marks, MarksCounted};
ghost use Rattle.rje_store.specs.Store.{FileMap, Discloses, IsSame};
ghost use Rattle.rje_sockets.specs.NamedFiles.{NamesOne, NamesWritten};
ghost use Rattle.rje_sockets.specs.OverLine.{OverConnection, SendsOut};

use crate::close::{Close, Drain, Leave, parts_in_step};
use crate::connection::{met, tell_if_late};
use crate::observer::{Observer, Unwatched};
use crate::one_way::send_all;
use crate::reported_cause::{report_cause, report_failure};
use crate::reporter::Reporter;
use crate::sent_marker::SentMarker;
use crate::socket_commands::Ending;
use crate::verbosity::Verbosity;
use bsc_link::{Outcome, Rank};
use rje_commands::{CommandFault, HeldFile, put_lines, read_file, tell};
use rje_files::{Entry, JobName, State, first_unsendable, mark_places, read_entries, unsent_jobs};
use rje_jobs::Jobs;
use rje_print::{counted_text, outcome_text};
use rje_requests::SendOrder;
use rje_station::{Line, SendingStation};
use rje_store::Store;
use std::alloc::{AllocError, Global};
use std::io::Write;
use std::net::Net;
use std::time::Clock;

/// Sends the jobs of a job file that were not sent over one connection, marks those that were counted, and prints how many there are and how
/// it ended. It has the file for itself from before it reads it, and nothing is said before the copy is in place that marks go into. Where
/// that is asked for, who is connected and each turn is told to `err` as it happens, and else, where that is a terminal, how far it is.
pub fn send<'a, R: Net + Clock, S: Store, O: Write, E: Write>(
    rt: &R,
    alloc: Global,
    order: SendOrder<'a>,
    store: &mut S,
    out: &mut O,
    err: &mut E,
    is_terminal: bool,
) -> Result<Ending, CommandFault<'a>>
    ensures sent { IfOk result (λ ending. OverConnection (λ t u.
        SendsLeft ending order.entry.jobs.now (t, S.files store.old, O.contents out.old)
        (u, S.files store.new, O.contents out.new))) }
    ensures fault { IfErr result (IsSendFault (λ name. name ≡ order.entry.jobs.now)
        order.entry.jobs.now (S.files store.old)) }
    ensures marked { MarksNoMore ⊤ order.entry.jobs.now (S.files store.old) (S.files store.new) }
    ensures files_kept { IfErr result (λ fault. status_of fault ≡ 1
        → Discloses (S.files store.old) (S.files store.new) IsSame) }
    ensures silent { IfErr result (λ fault. status_of fault ≡ 1 → out.new ≡ out.old) }
{
    let UnsentJobs {
        jobs,
        mut marker,
        names,
    } = read_outgoing(alloc, order.jobs, store)?;
    let mut station = SendingStation::new(alloc, jobs.as_slice())?;
    let report = Verbosity::of(order.connection.trace, order.connection.quiet, is_terminal);
    let (mut line, peer) = match met(rt, order.connection, Rank::Primary, None, report, err) {
        Ok(met) => met,
        Err(cause) => return Err(report_cause(cause, err)),
    };
    let mut reporter = Reporter::new(rt, report, names.as_slice(), &mut *err);
    reporter.connected(peer);
    let begun = marker.begin(store);
    if begun.is_err() {
        reporter.ended();
    }
    begun?;
    let ending = transmit(
        &mut station,
        &mut marker,
        &mut line,
        &Drain,
        store,
        &mut reporter,
        out,
    );
    tell_if_late(order.connection, &line, err);
    report_failure(&ending, line.cause(), err);
    ending
}

/// Sends over a line what is left of the job file of this name. Then, also after a fault of the line, marks in
/// it what was counted, and prints how many of the jobs were counted and how it ended. Answers the exit status,
/// and reports why it isn't 0.
pub fn send_over<L: Line, S: Store, O: Write, E: Write>(
    alloc: Global,
    line: &mut L,
    name: &str,
    store: &mut S,
    out: &mut O,
    err: &mut E,
) -> u8
    ensures sent { (result ≡ 0) ⊎ (result ≡ 4) → EndsSending result name.now
        ((L.talk line.old, L.transmissions line.old), S.files store.old, O.contents out.old)
        ((L.talk line.new, L.transmissions line.new), S.files store.new, O.contents out.new) }
    ensures status { (result ≡ 0) ⊎ ((result ≡ 4) ⊎ ((result ≡ 1) ⊎ IsFailing result)) }
    ensures refused { result ≡ 1 → OfFile name.now (S.files store.old) IsRefusedFile }
    ensures marked { MarksNoMore (line.new ≡ line.old) name.now
        (S.files store.old) (S.files store.new) }
    ensures files_kept { result ≡ 1 → Discloses (S.files store.old) (S.files store.new) IsSame }
    ensures silent { result ≡ 1 → (line.new ≡ line.old) × (out.new ≡ out.old) }
{
    match sent(alloc, line, name, store, out) {
        Ok(ending) => ending.status(),
        Err(fault) => tell(&fault, err),
    }
}

fn sent<'a, L: Line, S: Store, O: Write>(
    alloc: Global,
    line: &mut L,
    name: &'a str,
    store: &mut S,
    out: &mut O,
) -> Result<Ending, CommandFault<'a>>
    ensures sent { IfOk result (λ ending. SendsLeft ending name.entry.now
        ((L.talk line.old, L.transmissions line.old), S.files store.old, O.contents out.old)
        ((L.talk line.new, L.transmissions line.new), S.files store.new, O.contents out.new)) }
    ensures fault { IfErr result (IsSendFault (λ named. named ≡ name.entry.now)
        name.entry.now (S.files store.old)) }
    ensures marked { MarksNoMore (line.new ≡ line.old) name.entry.now
        (S.files store.old) (S.files store.new) }
    ensures files_kept { IfErr result (λ fault. status_of fault ≡ 1
        → Discloses (S.files store.old) (S.files store.new) IsSame) }
    ensures silent { IfErr result (λ fault. status_of fault ≡ 1
        → (line.new ≡ line.old) × (out.new ≡ out.old)) }
{
    let UnsentJobs {
        jobs,
        mut marker,
        names: _,
    } = read_outgoing(alloc, name, store)?;
    let mut station = SendingStation::new(alloc, jobs.as_slice())?;
    marker.begin(store)?;
    transmit(
        &mut station,
        &mut marker,
        line,
        &Leave,
        store,
        &mut Unwatched,
        out,
    )
}

/// What is left to send of a job file, and what marks it there.
#[derive(Drop)]
pub(super) struct UnsentJobs<'a> {
    pub(super) jobs: Jobs,
    pub(super) marker: SentMarker<'a>,
    /// The names of the jobs.
    pub(super) names: Vec<JobName>,
}

/// What is left to send of the job file of this name, which the command has for itself, where all of it can be sent. Nothing is marked yet.
pub(super) fn read_outgoing<'a, S: Store>(
    alloc: Global,
    name: &'a str,
    store: &mut S,
) -> Result<UnsentJobs<'a>, CommandFault<'a>>
    ensures outgoing { IfOk result (λ left.
        IsOutgoing name.entry.now (S.files store.old) left.jobs left.marker) }
    ensures fault { IfErr result (IsSendFault (λ named. named ≡ name.entry.now)
        name.entry.now (S.files store.old)) }
    ensures same { Discloses (S.files store.old) (S.files store.new) IsSame }
{
    let held = HeldFile::take(alloc, name, store)?;
    let Unsent {
        jobs,
        places,
        names,
    } = unsent_of(alloc, held.bytes())?;
    let marker = SentMarker::new(alloc, held, places);
    Ok(UnsentJobs {
        jobs,
        marker,
        names,
    })
}

/// Looks whether what is left of the job file of this name can be sent, and changes none.
pub(super) fn look_at_outgoing<'a, S: Store>(
    alloc: Global,
    name: &'a str,
    store: &mut S,
) -> Result<(), CommandFault<'a>>
    ensures fault { IfErr result (IsSendFault (λ _. ⊥) name.entry.now (S.files store.old)) }
    ensures same { Discloses (S.files store.old) (S.files store.new) IsSame }
{
    let file = read_file(alloc, name, store)?;
    unsent_of(alloc, file.as_slice())?;
    Ok(())
}

/// What is left to send of a job file: its jobs that were not sent, and where they are marked.
#[derive(Drop)]
struct Unsent {
    jobs: Jobs,
    places: Vec<usize>,
    names: Vec<JobName>,
}

/// What is left to send of a job file, where all of it can be sent.
fn unsent_of<'a>(alloc: Global, file: &[u8]) -> Result<Unsent, CommandFault<'a>>
    ensures left { IfOk result (λ left. IsLeft file.now left.jobs) }
    ensures marks { IfOk result (λ left. AreMarks file.now left.places.items) }
    ensures fault { IfErr result (λ fault. IsFailing (status_of fault)
        ⊎ IsUnsentFault file.now fault) }
    ensures names { IfErr result (NamesOne (λ _. ⊥) (λ _. ⊥)) }
{
    let entries = read_entries(alloc, file)?;
    if let Some(number) = first_unsendable(entries.as_slice()) {
        return Err(CommandFault::BadJob(number));
    }
    let places = mark_places(alloc, entries.as_slice())?;
    let names = unsent_names(alloc, entries.as_slice())?;
    let jobs = unsent_jobs(alloc, entries)?;
    Ok(Unsent {
        jobs,
        places,
        names,
    })
}

/// The names of those of the jobs that were not sent, in order.
fn unsent_names(alloc: Global, entries: &[Entry]) -> Result<Vec<JobName>, AllocError> {
    let mut names = Vec::new(alloc);
    for entry in entries {
        if entry.state != State::Sent {
            names.push(entry.name)?;
        }
    }
    Ok(names)
}

/// Sends what the station has over a line, marks what is counted, at the end in the whole file, and prints the lines of it. Where an answer
/// came after the end, it is in doubt what was received, and nothing more is marked.
fn transmit<'a, L: Line, P: Close<L>, S: Store, W: Observer, O: Write>(
    station: &mut SendingStation,
    marker: &mut SentMarker<'a>,
    line: &mut L,
    parting: &P,
    store: &mut S,
    watch: &mut W,
    out: &mut O,
) -> Result<Ending, CommandFault<'a>>
    ensures took { OnOk result (SendsOut W.saw_sender W.saw_end
        (station.old, (L.talk line.old, L.transmissions line.old), watch.old)
        (station.new, (L.talk line.new, L.transmissions line.new), watch.new)) }
    ensures ended { IfOk result (λ ending. ending ≡ ending_of (outcome_of station.new)) }
    ensures printed { OnOk result (Appends (O.contents out.old) (O.contents out.new)
        (sent_text station.new.counted (length station.old.jobs) (outcome_of station.new))) }
    ensures marked { OnOk result ((files : Option FileMap)
        → Marks marker.old station.old.counted files (S.files store.old)
        → MarksSent marker.old.file.items station.new.counted marker.old.name.now files
        (S.files store.new)) }
    ensures count { (files : Option FileMap) → marker.old.marked ≡ station.old.counted
        → Marks marker.old station.old.counted files (S.files store.old)
        → MarksCounted station.old marker.old.file.items marker.old.name.now files
        (S.files store.new) }
    ensures status { IfErr result (λ fault. (jobs : List Job)
        → IsLeft marker.old.file.items jobs → IsFailing (status_of fault)) }
    ensures names { IfErr result (NamesWritten marker.old.name.now) }
{
    let given = station.jobs().len();
    let sent = send_all(station, line, marker, store, watch);
    watch.ended();
    let in_step = parts_in_step(sent.is_ok(), line, parting);
    let counted = station.counted();
    let marked = marker.finish(counted, in_step, store);
    let outcome = station.outcome();
    let printed = print_sent(counted, given, outcome, out);
    sent?;
    marked?;
    printed?;
    Ok(Ending::from(outcome))
}

/// Prints how many of so many jobs were counted, and how it ended.
fn print_sent<'a, O: Write>(
    counted: usize,
    given: usize,
    outcome: Option<Outcome>,
    out: &mut O,
) -> Result<(), CommandFault<'a>>
    ensures text { OnOk result (Appends (O.contents out.old) (O.contents out.new)
        (sent_text counted given outcome)) }
    ensures fault { IfErr result (λ fault. is_of_output fault ≡ true) }
{
    put_lines(&[counted_text(counted, given), outcome_text(outcome)], out)
}

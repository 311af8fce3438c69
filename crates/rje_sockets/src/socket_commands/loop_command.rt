//! `loop`: both ends in one process, over a connection on this machine.
ghost use Rattle.std.specs.Prelude.{◌≡◌, ◌⊎◌, List, IfErr, IfOk, OnOk, true};
ghost use Rattle.std.specs.Io.KnownBytes.{Appends};
ghost use Rattle.rje_station.specs.Sending.{outcome_of};
ghost use Rattle.rje_commands.specs.CommandFault.{IsFailing, is_of_output, status_of};
ghost use Rattle.rje_commands.specs.Commands.{OfFile};
ghost use Rattle.rje_sockets.specs.Ending.{ending_of, loop_text};
ghost use Rattle.rje_sockets.specs.Looping.{IsUnloopedFault, Loops};
ghost use Rattle.rje_sockets.specs.OverLine.{BothTookOut};
ghost use Rattle.rje_sockets.specs.NamedFiles.{NamesOne};
ghost use Rattle.rje_store.specs.Store.{Discloses, IsSame};

use crate::connection::{ObservedLine, line_over};
use crate::observer::Observer;
use crate::one_way::take_turns;
use crate::reported_cause::{report_cause, report_failure};
use crate::reporter::Reporter;
use crate::socket_commands::Ending;
use crate::verbosity::Verbosity;
use bsc_link::{Outcome, Rank};
use rje_commands::{CommandFault, put_lines, read_job_file};
use rje_jobs::Job;
use rje_net::LineCause;
use rje_print::{counted_text, handed_text, outcome_text};
use rje_requests::LoopOrder;
use rje_station::{Line, ReceivingStation, SendingStation};
use rje_store::Store;
use std::alloc::Global;
use std::io::{self, Write};
use std::net::{Ipv4Addr, Net, OpenListener, SocketAddr, TcpListener, TcpStream};
use std::time::Clock;

/// Sends the jobs of a job file from one end of a connection to the other, and prints how many were counted, how many delivered, and how
/// it ended. Where that is asked for, each turn is told to `err` as it happens, and else, where that is a terminal, how far it is.
pub fn loopback<'a, R: Net + Clock, S: Store, O: Write, E: Write>(
    rt: &R,
    alloc: Global,
    order: LoopOrder<'a>,
    store: &mut S,
    out: &mut O,
    err: &mut E,
    is_terminal: bool,
) -> Result<Ending, CommandFault<'a>>
    ensures looped { IfOk result (λ ending. OfFile order.entry.jobs.now (S.files store.old)
        (λ file. Loops ending file (O.contents out.old) (O.contents out.new))) }
    ensures fault { IfErr result (λ fault. (IsFailing (status_of fault)
        × NamesOne (λ name. name ≡ order.entry.jobs.now) (λ _. ⊥) fault)
        ⊎ ((status_of fault ≡ 1) × OfFile order.entry.jobs.now (S.files store.old)
        (λ file. IsUnloopedFault file fault))) }
    ensures same { Discloses (S.files store.old) (S.files store.new) IsSame }
    ensures silent { IfErr result (λ fault. status_of fault ≡ 1 → out.new ≡ out.old) }
{
    let jobs = read_job_file(alloc, order.jobs, store)?;
    let mut sender = SendingStation::new(alloc, jobs.as_slice())?;
    let mut receiver = ReceivingStation::new(alloc)?;
    let (mut near, mut far) = match both_ends(rt, order.timeout) {
        Ok(ends) => ends,
        Err(error) => return Err(report_cause(LineCause::Failed(error.kind()), err)),
    };
    let report = Verbosity::of(order.trace, order.quiet, is_terminal);
    let mut reporter = Reporter::new(rt, report, &[], &mut *err);
    let ending = loop_over(
        &mut sender,
        &mut near,
        &mut receiver,
        &mut far,
        jobs.len(),
        &mut reporter,
        out,
    );
    report_failure(&ending, near.cause().or(far.cause()), err);
    ending
}

/// Sends what the sender has to the receiver, each at its end of a line, and prints the lines of it, also after a fault of the line.
fn loop_over<'a, N: Line, F: Line, W: Observer, O: Write>(
    sender: &mut SendingStation,
    near: &mut N,
    receiver: &mut ReceivingStation,
    far: &mut F,
    given: usize,
    watch: &mut W,
    out: &mut O,
) -> Result<Ending, CommandFault<'a>>
    ensures status { IfErr result (λ fault. IsFailing (status_of fault)) }
    ensures names { IfErr result (NamesOne (λ _. ⊥) (λ _. ⊥)) }
    ensures took { OnOk result (BothTookOut W.saw_both W.saw_end
        (sender.old, receiver.old, watch.old) (sender.new, receiver.new, watch.new)) }
    ensures ended { IfOk result (λ ending. ending ≡ ending_of (outcome_of sender.new)) }
    ensures printed { OnOk result (Appends (O.contents out.old) (O.contents out.new)
        (loop_text sender.new.counted given receiver.new.jobs (outcome_of sender.new))) }
{
    let taken = take_turns(sender, near, receiver, far, watch);
    watch.ended();
    let outcome = sender.outcome();
    let printed = print_looped(sender.counted(), given, receiver.jobs(), outcome, out);
    taken?;
    printed?;
    Ok(Ending::from(outcome))
}

/// Prints how many of so many jobs were counted, how many were delivered, and how it ended.
fn print_looped<'a, O: Write>(
    counted: usize,
    given: usize,
    jobs: &[Job],
    outcome: Option<Outcome>,
    out: &mut O,
) -> Result<(), CommandFault<'a>>
    ensures text { OnOk result (Appends (O.contents out.old) (O.contents out.new)
        (loop_text counted given jobs.now outcome)) }
    ensures fault { IfErr result (λ fault. is_of_output fault ≡ true) }
{
    let lines = [
        counted_text(counted, given),
        handed_text(jobs),
        outcome_text(outcome),
    ];
    put_lines(&lines, out)
}

/// Both ends of a line: a connection to a free port of this machine.
fn both_ends<'r, R: Net>(
    rt: &'r R,
    timeout: u16,
) -> io::Result<(ObservedLine<'r, R>, ObservedLine<'r, R>)> {
    let any = SocketAddr::from((Ipv4Addr::LOCALHOST, 0));
    let listener = TcpListener::bind(rt, any)?;
    let near = TcpStream::connect(rt, listener.local_addr()?)?;
    let (far, _) = listener.accept()?;
    Ok((
        line_over(None, near, timeout, false, Rank::Primary)?,
        line_over(None, far, timeout, false, Rank::Secondary)?,
    ))
}

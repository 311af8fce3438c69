//! What a station does on a connection.
ghost use Rattle.std.specs.Prelude.{◌≡◌, ◌==◌, if◌then◌else◌};
ghost use Rattle.rje_session.specs.Staying.{GoesOnAsDay};
ghost use Rattle.rje_daemon.specs.Calling.{SeeksConnection};

use crate::attendant::Attendant;
use crate::paced_stream::PacedStream;
use crate::station_spool::StationSpool;
use rje_day::{Day, DayEvent, Inputs};
use rje_net::{AdapterStream, LineCause, ObservedStream, SocketLine};
use rje_requests::StationOrder;
use rje_session::{ConnectionEnd, StayFault, Terms, stay};
use rje_spool::Notice;
use rje_store::Disk;
use std::alloc::Global;
use std::fmt::Display;
use std::io;
use std::net::Net;
use std::time::Clock;

/// A line of a station that stays on it.
type StationLine<'r, R> = SocketLine<
    ObservedStream<&'r R, AdapterStream<PacedStream<&'r R, <R as Net>::Stream>>>,
>;

/// Stays on this connection until it is over, and reports why that is.
pub(crate) fn speak<R: Net + Clock, S: StationSpool + Drop, D: Disk + Drop>(
    rt: &R,
    alloc: Global,
    order: &StationOrder,
    stream: R::Stream,
    day: &mut Day,
    seen: Inputs,
    attendant: &mut Attendant<&R, S, R::Listener, D>,
)
    requires seeks { SeeksConnection day.old seen }
    ensures day { GoesOnAsDay day.old day.new }
{
    day.note(DayEvent::Connected);
    match line_over(rt, order, stream) {
        Ok(line) => speak_over(alloc, order, line, day, attendant),
        Err(error) => {
            day.note(DayEvent::Disconnected);
            tell_failed(alloc, &error, &mut attendant.spool);
        }
    }
}

/// A line over this stream.
fn line_over<'r, R: Net + Clock>(
    rt: &'r R,
    order: &StationOrder,
    stream: R::Stream,
) -> io::Result<StationLine<'r, R>> {
    let stream = AdapterStream::new(PacedStream::new(rt, stream), order.adapter);
    SocketLine::new(
        ObservedStream::new(Some(rt), stream),
        order.timeout,
        order.rank,
    )
}

/// What an order asks of each connection.
fn terms_of(order: &StationOrder) -> Terms
    ensures rank { result.rank ≡ order.now.rank }
    ensures patience { result.patience
        ≡ (if order.now.patience == 0 then 4_294_967_295 else order.now.patience) }
    ensures host { result.host ≡ order.now.adapter }
{
    Terms {
        rank: order.rank,
        patience: most_quiet(order.patience),
        host: order.adapter,
    }
}

/// Stays on this line until the connection is over.
fn speak_over<'r, R: Net + Clock, S: StationSpool + Drop, D: Disk + Drop>(
    alloc: Global,
    order: &StationOrder,
    mut line: StationLine<'r, R>,
    day: &mut Day,
    attendant: &mut Attendant<&R, S, R::Listener, D>,
)
    ensures day { GoesOnAsDay day.old day.new }
{
    let stayed = stay(alloc, terms_of(order), day, &mut line, attendant);
    // Nothing changes by that where the connection was over before.
    day.note(DayEvent::Disconnected);
    let cause = line.cause();
    let spool = &mut attendant.spool;
    if !line.ends_in_step() {
        spool.tell(Notice::OutOfStep);
        if let Err(fault) = spool.doubt_all() {
            spool.tell_fault(alloc, fault);
        }
    }
    match stayed {
        Ok(parting) => tell_parting(alloc, parting, cause, spool),
        Err(fault) => tell_fault(alloc, fault, spool),
    }
}

/// Tells how a connection came to its end, whose line failed for this cause, if it did.
fn tell_parting<S: StationSpool>(
    alloc: Global,
    parting: ConnectionEnd,
    cause: Option<LineCause>,
    spool: &mut S,
) {
    match (parting, cause) {
        (ConnectionEnd::Unanswered, _) => spool.tell(Notice::LineFailed("no answer")),
        (ConnectionEnd::Silent, _) => spool.tell(Notice::LineFailed("nothing came any more")),
        (ConnectionEnd::HungUp, Some(LineCause::NoTransmission(first))) => {
            tell_failed(alloc, &LineCause::NoTransmission(first), spool);
        }
        (ConnectionEnd::HungUp, _) => spool.tell(Notice::HungUp),
        (ConnectionEnd::Failed(_), Some(cause)) => tell_failed(alloc, &cause, spool),
        (ConnectionEnd::Failed(fault), None) => tell_failed(alloc, &fault, spool),
    }
}

/// Tells why a connection was left that wasn't over, where the spool didn't.
fn tell_fault<S: StationSpool>(alloc: Global, fault: StayFault<S::Fault>, spool: &mut S) {
    match fault {
        StayFault::Station(fault) => {
            if let Ok(text) = format!(in alloc; "{fault}") {
                spool.tell(Notice::Failed(text.as_str()));
            }
        }
        StayFault::Spool(fault) => spool.tell_fault(alloc, fault),
    }
}

/// Tells why the line failed.
fn tell_failed<F: Display, S: StationSpool>(alloc: Global, cause: &F, spool: &mut S) {
    if let Ok(text) = format!(in alloc; "{cause}") {
        spool.tell(Notice::LineFailed(text.as_str()));
    }
}

/// So many hearings in a row are without a word at most, where so much patience is asked for: with 0 any number.
pub(crate) fn most_quiet(patience: u32) -> u32
    ensures { result ≡ (if patience == 0 then 4_294_967_295 else patience) }
{
    match patience {
        0 => u32::MAX,
        patience => patience,
    }
}

//! Connections, and whether the time-out is longer than they take.
ghost use Rattle.std.specs.Prelude.{◌≡◌, true, IfErr, IfOk, IsSome};
ghost use Rattle.rje_requests.specs.Callers.{IsLetIn};
ghost use Rattle.rje_net.specs.Words.{HasWord};
ghost use Rattle.rje_sockets.specs.Connecting.{HasSpokenWhereAwaited, IsPeerAt, IsUnmet};

use crate::verbosity::Verbosity;
use bsc_link::Rank;
use rje_net::{AdapterStream, LineCause, ObservedStream, SocketLine};
use rje_print::{listening_text, shown_listening};
use rje_requests::{Callers, Connection, Meeting};
use std::io::{self, ErrorKind, Write};
use std::net::{Net, OpenListener, SocketAddr, TcpListener, TcpStream};
use std::time::{Clock, Duration, Instant};

/// So many milliseconds a connection is waited for at least.
const MIN_CONNECTING: u16 = 3000;

/// A line over a connection that is observed.
pub(crate) type ObservedLine<'r, R> = SocketLine<
    ObservedStream<&'r R, AdapterStream<<R as Net>::Stream>>,
>;

/// A line to the other end, for a station of this rank, and the other end's address: it is called, or its call is awaited. Where calling takes
/// as long as a hearing waits or longer, that is told to `err`. A caller that isn't let in is hung up and told too, and so is one that says
/// no word within so many hearings, where that is wanted.
pub(crate) fn met<'r, R: Net + Clock, E: Write>(
    rt: &'r R,
    connection: Connection,
    rank: Rank,
    hearings: Option<u32>,
    report: Verbosity,
    err: &mut E,
) -> Result<(ObservedLine<'r, R>, SocketAddr), LineCause>
    ensures unused { IfOk result (λ met. met.0.transmissions ≡ 0) }
    ensures peer { IfOk result (λ met. IsPeerAt connection.entry.place met.1) }
    ensures word { IfOk result (λ met.
        HasSpokenWhereAwaited connection.entry.place hearings met.0.stream.ahead.items) }
    ensures cause { IfErr result (IsUnmet connection.entry.place) }
{
    match connection.place {
        Meeting::Calls(address) => match connected(rt, address, connection, rank, err) {
            Ok(line) => Ok((line, address)),
            Err(error) => Err(LineCause::NotCalled(address, error.kind())),
        },
        Meeting::Listens(address, callers) => {
            let listening = Listening {
                address,
                callers,
                hearings,
                report,
            };
            let met = accepted(rt, listening, connection, rank, err);
            report.erase(err);
            match met {
                Ok(met) => Ok(met),
                Err(error) => Err(LineCause::NotAwaited(address, error.kind())),
            }
        }
    }
}

/// Calls the other end at this address.
fn connected<'r, R: Net + Clock, E: Write>(
    rt: &'r R,
    address: SocketAddr,
    connection: Connection,
    rank: Rank,
    err: &mut E,
) -> io::Result<ObservedLine<'r, R>>
    ensures unused { IfOk result (λ line. line.transmissions ≡ 0) }
{
    let timeout = connection.timeout;
    let longest = Duration::from_millis(u64::from(timeout.max(MIN_CONNECTING)));
    let start = Instant::now(rt).ok();
    let stream = TcpStream::connect_timeout(rt, &address, longest)?;
    let line = line_over(Some(rt), stream, timeout, connection.adapter, rank)?;
    let took = start.and_then(|start| start.elapsed(rt).ok());
    tell_if_short(timeout, "the connection", took, err);
    Ok(line)
}

/// Where calls are awaited, and which of them are taken.
struct Listening<'a> {
    address: SocketAddr,
    callers: Callers<'a>,
    // Within how many hearings a caller has to say a word, where it has to.
    hearings: Option<u32>,
    // What is reported meanwhile.
    report: Verbosity,
}

/// Waits for the first call that is taken, and answers the caller's address too. Other callers are hung up.
fn accepted<'r, R: Net + Clock, E: Write>(
    rt: &'r R,
    listening: Listening,
    connection: Connection,
    rank: Rank,
    err: &mut E,
) -> io::Result<(ObservedLine<'r, R>, SocketAddr)>
    ensures unused { IfOk result (λ met. met.0.transmissions ≡ 0) }
    ensures let_in { IfOk result (λ met. IsLetIn listening.entry.callers met.1) }
    ensures word { IsSome listening.entry.hearings
        → IfOk result (λ met. HasWord met.0.stream.ahead.items) }
{
    let Listening {
        address,
        callers,
        hearings,
        report,
    } = listening;
    let listener = TcpListener::bind(rt, address)?;
    tell_listening(report, &listener, err);
    for _ in 0..u64::MAX {
        let (stream, peer) = listener.accept()?;
        if callers.take(peer) {
            let mut line = line_over(
                Some(rt),
                stream,
                connection.timeout,
                connection.adapter,
                rank,
            )?;
            if says_something(&mut line, hearings) {
                return Ok((line, peer));
            }
        }
        tell_hung_up(report, peer, &listener, err);
    }
    Err(io::Error::from(ErrorKind::TimedOut))
}

/// Reports at which address calls are awaited, with the port that was got. A line that can't be written is left out.
fn tell_listening<L: OpenListener, E: Write>(report: Verbosity, listener: &L, err: &mut E) {
    let Ok(address) = listener.local_addr() else {
        return;
    };
    let line = match report {
        Verbosity::Trace => listening_text(address),
        Verbosity::Progress => shown_listening(address),
        Verbosity::Nothing => return,
    };
    if let Ok(line) = line {
        let _ = err.write_all(line.as_slice());
    }
}

/// Reports that a caller was hung up; calls are awaited on. A line that can't be written is left out.
fn tell_hung_up<L: OpenListener, E: Write>(
    report: Verbosity,
    peer: SocketAddr,
    listener: &L,
    err: &mut E,
) {
    report.erase(err);
    let _ = writeln!(err, "rje: hung up on {peer}");
    if report == Verbosity::Progress {
        tell_listening(report, listener, err);
    }
}

/// Whether the caller says a word within so many hearings, where it has to.
fn says_something<R: Net + Clock>(line: &mut ObservedLine<R>, hearings: Option<u32>) -> bool
    ensures none { line.new.transmissions ≡ line.old.transmissions }
    ensures word { result ≡ true → IsSome hearings → HasWord line.new.stream.ahead.items }
{
    match hearings {
        Some(hearings) => line.is_spoken_on(hearings),
        None => true,
    }
}

/// A line over this stream, for a station of this rank; its waits are measured where there is a clock.
pub(crate) fn line_over<'r, R: Net>(
    clock: Option<&'r R>,
    stream: R::Stream,
    timeout: u16,
    adapter: bool,
    rank: Rank,
) -> io::Result<ObservedLine<'r, R>>
    ensures unused { IfOk result (λ line. line.transmissions ≡ 0) }
{
    let stream = ObservedStream::new(clock, AdapterStream::new(stream, adapter));
    SocketLine::new(stream, timeout, rank)
}

/// Tells at the end that was called where what came after its first words took too long.
pub(crate) fn tell_if_late<R: Net + Clock, E: Write>(
    connection: Connection,
    line: &ObservedLine<R>,
    err: &mut E,
) {
    if let Meeting::Listens(..) = connection.place {
        tell_if_short(connection.timeout, "the peer", line.waited(), err);
    }
}

/// Tells in one line where something took as long as a hearing waits, or longer. A line that can't be written is left out.
fn tell_if_short<E: Write>(timeout: u16, what: &str, took: Option<Duration>, err: &mut E) {
    let Some(took) = took else {
        return;
    };
    if took >= Duration::from_millis(u64::from(timeout)) {
        let time = took.as_millis();
        let _ = writeln!(
            err,
            "rje: time-out of {timeout} ms is short: {what} took {time} ms"
        );
    }
}

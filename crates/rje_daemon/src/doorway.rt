//! How a station comes to a connection.
ghost use Rattle.std.specs.Prelude.{◌≡◌, ◌≢◌, ◌↔◌, IfOk, IfSome, IsSome, IsTrue, None, true};
ghost use Rattle.std.specs.Net.Socket.{socket_ip};
ghost use Rattle.rje_daemon.specs.Doorway.{IsNoneOf, IsOf, IsOneOf, is_nobody as is_none};

use rje_requests::Callers;
use std::io::{self, ErrorKind};
use std::net::{Net, OpenListener, SocketAddr, TcpStream, ToSocketAddrs};
use std::time::Duration;

/// So many milliseconds a connection is waited for at least.
const MIN_CONNECTING: u16 = 3000;

/// Who called.
#[derive(Drop)]
pub(crate) enum Caller<S: Drop> {
    /// One that is let in.
    LetIn(S, SocketAddr),
    /// One that isn't, and was hung up.
    HungUp(SocketAddr),
    /// Nobody yet.
    Nobody,
}

/// Where calls come in, and one that came while another was on the line.
#[derive(Drop)]
pub(crate) struct Door<'o, L: OpenListener + Drop> {
    listener: L,
    callers: Callers<'o>,
    waiting: Option<(L::Stream, SocketAddr)>,
    /// Why no call could be taken when that was tried last.
    fault: Option<ErrorKind>,
}

impl<'o, L: OpenListener + Drop> Door<'o, L> {
    /// The calls of these callers come in at this listener.
    pub(crate) fn new(listener: L, callers: Callers<'o>) -> Door<'o, L>
        ensures callers { result.callers ≡ callers.entry }
        ensures nobody { result.waiting ≡ None }
        ensures fault { result.fault ≡ None }
    {
        Door {
            listener,
            callers,
            waiting: None,
            fault: None,
        }
    }

    /// The call that waits, if one does. A caller that isn't let in is hung up.
    pub(crate) fn next_caller(&mut self) -> io::Result<Caller<L::Stream>>
        ensures let_in { IfOk result (IsOneOf self.old.callers) }
        ensures hung_up { IfOk result (IsNoneOf self.old.callers) }
        // The call that waits is the one that is answered, and waits no more.
        ensures first { IfSome self.old.waiting (λ came. IfOk result (IsOf came.1)) }
        ensures gone { self.new.waiting ≡ None }
        ensures callers { self.new.callers ≡ self.old.callers }
    {
        let came = match self.waiting.take() {
            Some(came) => Ok(came),
            None => self.listener.accept(),
        };
        match came {
            Ok((stream, peer)) if self.callers.take(peer) => Ok(Caller::LetIn(stream, peer)),
            Ok((_, peer)) => Ok(Caller::HungUp(peer)),
            Err(error) if is_nobody(error.kind()) => Ok(Caller::Nobody),
            Err(error) => Err(error),
        }
    }

    /// Whether one calls that is let in, and has the address of this one, which is on the line: that is gone then. The call waits.
    pub(crate) fn is_called_again(&mut self, peer: SocketAddr) -> bool
        ensures again { result ≡ true → IsSome self.new.waiting }
        ensures same { result ≡ true → IfSome self.new.waiting (λ call.
            socket_ip call.1 ≡ socket_ip peer) }
        ensures waits { IsSome self.old.waiting → self.new.waiting ≡ self.old.waiting }
        ensures callers { self.new.callers ≡ self.old.callers }
    {
        if self.waiting.is_none() {
            if let Ok(Caller::LetIn(stream, caller)) = self.next_caller() {
                self.waiting = Some((stream, caller));
            }
        }
        match &self.waiting {
            Some((_, caller)) => caller.ip() == peer.ip(),
            None => false,
        }
    }

    /// Whether it is new that no call can be taken for this reason.
    pub(crate) fn is_new_fault(&mut self, fault: Option<ErrorKind>) -> bool
        ensures told { IsTrue result ↔ (IsSome fault × (fault ≢ self.old.fault)) }
        ensures noted { self.new.fault ≡ fault }
        ensures waits { self.new.waiting ≡ self.old.waiting }
        ensures callers { self.new.callers ≡ self.old.callers }
    {
        let is_new = fault.is_some() && fault != self.fault;
        self.fault = fault;
        is_new
    }
}

/// Whether a call that can't be taken so is no reason to take no more.
fn is_nobody(kind: ErrorKind) -> bool
    ensures { result ≡ is_none kind }
{
    matches!(
        kind,
        ErrorKind::WouldBlock
            | ErrorKind::TimedOut
            | ErrorKind::Interrupted
            | ErrorKind::ConnectionAborted
            | ErrorKind::ConnectionReset
    )
}

/// Why the other end can't be called.
#[derive(Drop)]
pub(crate) enum CallFault {
    /// No address of its host is found.
    HostNotFound,
    /// None of its addresses takes the call: why the last one that was tried doesn't.
    NotTaken(io::Error),
}

/// Calls the other end at this address: a host, which may have several, and a port.
pub(crate) fn called<R: Net>(rt: &R, address: &str, timeout: u16) -> Result<R::Stream, CallFault> {
    let longest = Duration::from_millis(u64::from(timeout.max(MIN_CONNECTING)));
    let Ok(addresses) = address.to_socket_addrs(rt) else {
        return Err(CallFault::HostNotFound);
    };
    let mut why = io::Error::from(ErrorKind::NotFound);
    for address in addresses {
        match TcpStream::connect_timeout(rt, &address, longest) {
            Ok(stream) => return Ok(stream),
            Err(error) => why = error,
        }
    }
    Err(CallFault::NotTaken(why))
}

/// The host of an address: all in front of its port.
pub(crate) fn host_of(address: &str) -> &str {
    match address.rsplit_once(':') {
        Some((host, _)) => host,
        None => address,
    }
}

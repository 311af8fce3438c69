//! A station's day.
ghost use Rattle.rje_session.specs.Staying.{GoesOnAsDay};
ghost use Rattle.rje_daemon.specs.Calling.{SeeksConnection};

use crate::attendant::Attendant;
use crate::call_times::CallTimes;
use crate::doorway::{CallFault, Caller, called, host_of};
use crate::speaking::speak;
use crate::station_spool::StationSpool;
use rje_day::{Day, DayEvent, Inputs, NextAction};
use rje_requests::{Partner, StationOrder};
use rje_spool::Notice;
use rje_store::Disk;
use std::alloc::Global;
use std::net::{Net, SocketAddr};
use std::time::{Clock, Duration};
use std::{io, thread};

/// How often a station looks for a call and at its folder where it has no connection, in milliseconds.
const TICK: u64 = 100;

/// Spends the day of a station as ordered: until it is drained, or its one connection is over.
pub(crate) fn attend<R: Net + Clock, S: StationSpool + Drop, D: Disk + Drop>(
    rt: &R,
    alloc: Global,
    order: &StationOrder,
    day: &mut Day,
    attendant: &mut Attendant<&R, S, R::Listener, D>,
)
    ensures day { GoesOnAsDay day.old day.new }
{
    let mut calls = CallTimes::new(order.every);
    for _ in 0..u64::MAX {
        attendant.receives = attendant.spool.can_receive();
        let seen = Inputs {
            call_due: calls.is_due(rt),
            ..attendant.spool.seen()
        };
        match day.next(seen) {
            NextAction::End => return,
            NextAction::Listen => {
                attendant.note.listens();
                await_call(rt, alloc, order, day, seen, attendant);
            }
            NextAction::Call => {
                call(rt, alloc, order, day, seen, attendant);
                calls.note(rt, attendant.receives);
            }
            _ => {
                attendant.note.waits(calls.seconds_left(rt));
                wait(rt);
            }
        }
    }
}

/// Waits a moment.
fn wait<C: Clock>(clock: &C) {
    thread::sleep(clock, Duration::from_millis(TICK));
}

/// What comes can't be kept: a call that waits is hung up; where none does, it waits a moment.
fn hang_up_caller<R: Net + Clock, S: StationSpool + Drop, D: Disk + Drop>(
    rt: &R,
    attendant: &mut Attendant<&R, S, R::Listener, D>,
) {
    let came = match &mut attendant.door {
        Some(door) => door.next_caller(),
        None => Ok(Caller::Nobody),
    };
    match came {
        Ok(Caller::LetIn(_, peer) | Caller::HungUp(peer)) => tell_hung_up(rt, attendant, peer),
        Ok(Caller::Nobody) | Err(_) => wait(rt),
    }
}

/// Takes a call that waits, and stays on its connection; where none waits, or none can be taken, it waits a moment. Where what comes can't be kept the
/// call is hung up.
fn await_call<R: Net + Clock, S: StationSpool + Drop, D: Disk + Drop>(
    rt: &R,
    alloc: Global,
    order: &StationOrder,
    day: &mut Day,
    seen: Inputs,
    attendant: &mut Attendant<&R, S, R::Listener, D>,
)
    requires seeks { SeeksConnection day.old seen }
    ensures day { GoesOnAsDay day.old day.new }
{
    if !attendant.receives {
        hang_up_caller(rt, attendant);
        return;
    }
    let Some(door) = &mut attendant.door else {
        wait(rt);
        return;
    };
    let came = door.next_caller();
    let fault = came.as_ref().err().map(|error| error.kind());
    let is_new = door.is_new_fault(fault);
    match came {
        Ok(Caller::LetIn(stream, peer)) => {
            attendant.spool.tell(Notice::CalledBy(peer));
            attendant.begin(Some(peer));
            attendant.spool.connect();
            speak(rt, alloc, order, stream, day, seen, attendant);
            attendant.spool.disconnect();
        }
        Ok(Caller::HungUp(peer)) => tell_hung_up(rt, attendant, peer),
        Ok(Caller::Nobody) => wait(rt),
        Err(error) => {
            if is_new {
                tell_not_taken(alloc, &error, &mut attendant.spool);
            }
            wait(rt);
        }
    }
}

/// Tells that a caller was hung up, once in a minute.
fn tell_hung_up<R: Net + Clock, S: StationSpool + Drop, D: Disk + Drop>(
    rt: &R,
    attendant: &mut Attendant<&R, S, R::Listener, D>,
    peer: SocketAddr,
) {
    if attendant.strangers.is_told(rt) {
        attendant.spool.tell(Notice::HungUpOn(peer));
    }
}

/// Tells that no call can be taken, and why.
fn tell_not_taken<S: StationSpool>(alloc: Global, why: &io::Error, spool: &mut S) {
    if let Ok(text) = format!(in alloc; "can't take a call: {}", why.kind()) {
        spool.tell(Notice::Failed(text.as_str()));
    }
}

/// Calls, and stays on the connection where there is one. Where what comes can't be kept it waits a moment.
fn call<R: Net + Clock, S: StationSpool + Drop, D: Disk + Drop>(
    rt: &R,
    alloc: Global,
    order: &StationOrder,
    day: &mut Day,
    seen: Inputs,
    attendant: &mut Attendant<&R, S, R::Listener, D>,
)
    requires seeks { SeeksConnection day.old seen }
    ensures day { GoesOnAsDay day.old day.new }
{
    let Partner::Calls(address) = order.partner else {
        wait(rt);
        return;
    };
    if !attendant.receives {
        wait(rt);
        return;
    }
    attendant.spool.tell(Notice::Calling(address));
    attendant.note.calls();
    match called(rt, address, order.timeout) {
        Ok(stream) => {
            attendant.spool.tell(Notice::Connected);
            attendant.begin(None);
            attendant.spool.connect();
            speak(rt, alloc, order, stream, day, seen, attendant);
            attendant.spool.disconnect();
        }
        Err(fault) => {
            day.note(DayEvent::NoConnection);
            tell_not_called(alloc, address, &fault, &mut attendant.spool);
        }
    }
}

/// Tells that the other end at this address can't be called, and why.
fn tell_not_called<S: StationSpool>(
    alloc: Global,
    address: &str,
    fault: &CallFault,
    spool: &mut S,
) {
    match fault {
        CallFault::NotTaken(why) => spool.tell(Notice::NotConnected(why.kind())),
        CallFault::HostNotFound => {
            let host = host_of(address);
            if let Ok(text) = format!(in alloc; "can't connect: host not found: {host}") {
                spool.tell(Notice::Failed(text.as_str()));
            }
        }
    }
}

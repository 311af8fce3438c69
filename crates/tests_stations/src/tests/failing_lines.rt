//! What the calls return where a call of the line fails, and lines that are closed.
ghost use Rattle.std.specs.Prelude.{◌+◌, ◌-◌, ◌^◌, min, Some, None, ⊤};

use super::job_of;
use super::stations::{ENQ, FAILED, assert_events, receiver_of, sender_of};
use bsc_link::{Outcome, Wish};
use line_world::MemoryLine;
use rje_jobs::Job;
use rje_station::{
    Came, Event, Line, LineFault, MAX_HEARD, ReceivingStation, SendingStation, StationFault,
};
use std::alloc::{AllocError, Global};
use std::process::Abort;
use std::slice;
use std::test::Fail;

pub(super) const ACK0: [u8; 5] = [0x32, 0x32, 0x10, 0x70, 0xFF];

const ACK1: [u8; 5] = [0x32, 0x32, 0x10, 0x61, 0xFF];

/// The block of the record C1 that ends its job.
pub(super) const BLOCK: [u8; 9] = [0x32, 0x32, 0x02, 0xC1, 0x1E, 0x03, 0x18, 0x5D, 0xFF];

pub(super) const EOT: [u8; 4] = [0x32, 0x32, 0x37, 0xFF];

pub(super) const OVER: Option<StationFault> = Some(StationFault::Over);

/// These pieces, in memory of their own.
fn pieces_of(alloc: Global, pieces: &[&[u8]]) -> Result<Vec<Vec<u8>>, AllocError> {
    let mut put = Vec::new(alloc);
    for piece in pieces {
        put.push(Vec::from_slice(alloc, piece)?)?;
    }
    Ok(put)
}

/// A line in memory on which these come, one in each hearing, and whose call of this number fails, or none where it is 0.
pub(super) fn line_of(
    rt: &(impl Abort + AllocGlobal),
    pieces: &[&[u8]],
    failing: u64,
) -> MemoryLine {
    let mut line = MemoryLine::new(rt.alloc());
    line.put(pieces_of(rt.alloc(), pieces).expect(rt, "no memory"));
    line.fail_at(failing);
    line
}

/// The call of this number of a sender: it speaks in each odd one, and hears in each even one.
fn call_sender<L: Line>(
    station: &mut SendingStation,
    line: &mut L,
    call: u64,
) -> Option<StationFault> {
    if call % 2 == 1 {
        station.speak(line).err()
    } else {
        station.hear(line, false).err()
    }
}

/// The call of this number of a receiver: it hears in each odd one, and speaks in each even one.
fn call_receiver<L: Line>(
    station: &mut ReceivingStation,
    line: &mut L,
    call: u64,
) -> Option<StationFault> {
    if call % 2 == 1 {
        station.hear(line, Wish::Go).err()
    } else {
        station.speak(line).err()
    }
}

/// How many of the five calls of a conversation of one block are well, where this one of the line fails.
fn well(failing: u64) -> u64 {
    if failing == 0 {
        5
    } else {
        failing.saturating_sub(1)
    }
}

/// What the call of this number returns where this one of the line fails.
fn answer(call: u64, failing: u64) -> Option<StationFault> {
    if call <= well(failing) {
        None
    } else if call == failing {
        FAILED
    } else {
        OVER
    }
}

/// The five calls of a sender answer as they must where this one of the line fails; the fourth hears that the block is acknowledged.
fn assert_sender_fails(
    rt: &impl Abort,
    station: &mut SendingStation,
    line: &mut MemoryLine,
    failing: u64,
) {
    for call in 1..6 {
        assert!(rt; call_sender(station, line, call) == answer(call, failing));
    }
    let counted = 4 <= well(failing);
    assert!(rt; station.counted() == usize::from(counted));
    assert!(rt; station.outcome().is_some() == counted);
    assert!(rt; station.outcome().is_none() || station.outcome() == Some(Outcome::Done));
    assert!(rt; station.jobs().len() == 1);
    if failing == 1 {
        assert_events(rt, station.trace(), &[Event::Over]);
    }
}

#[test]
fn the_call_of_a_sender_that_fails_answers_so(rt: HostRuntime) {
    let job = job_of(&rt, 1, 1);
    let jobs = slice::from_ref(&job);
    for failing in 0..6 {
        let mut line = line_of(&rt, &[&ACK0, &ACK1], failing);
        let mut station = sender_of(&rt, jobs);
        assert_sender_fails(&rt, &mut station, &mut line, failing);
    }
}

/// The five calls of a receiver answer as they must where this one of the line fails; the third hears the block.
fn assert_receiver_fails(
    rt: &impl Abort,
    station: &mut ReceivingStation,
    line: &mut MemoryLine,
    failing: u64,
) {
    for call in 1..6 {
        assert!(rt; call_receiver(station, line, call) == answer(call, failing));
    }
    assert!(rt; station.jobs().len() == usize::from(3 <= well(failing)));
    assert!(rt; are_the_job(station.jobs()));
    assert!(rt; call_receiver(station, line, 6) == OVER);
}

#[test]
fn the_call_of_a_receiver_that_fails_answers_so(rt: HostRuntime) {
    for failing in 0..6 {
        let mut line = line_of(&rt, &[&ENQ, &BLOCK, &EOT], failing);
        let mut station = receiver_of(&rt);
        assert_receiver_fails(&rt, &mut station, &mut line, failing);
    }
}

/// Whether a job is whole, and its one record C1.
fn is_the_job(job: &Job) -> bool {
    match job.records.len() {
        1 => job.whole && job.records.at(0).bytes.as_slice() == [0xC1].as_slice(),
        _ => false,
    }
}

/// Whether each of these jobs is whole, and its one record C1.
pub(super) fn are_the_job(jobs: &[Job]) -> bool {
    for job in jobs {
        if !is_the_job(job) {
            return false;
        }
    }
    true
}

/// A line that the other end closed.
#[derive(Drop)]
struct ClosedLine {
    transmissions: u64,
    failures: u64,
    last_fault: Option<LineFault>,
}

impl ClosedLine {
    fn new() -> ClosedLine {
        ClosedLine {
            transmissions: 0,
            failures: 0,
            last_fault: None,
        }
    }
}

impl Line for ClosedLine {
    ghost failures = { λ line. line.failures };

    ghost transmissions = { λ line. line.transmissions };

    ghost last_fault = { λ line. line.last_fault };

    ghost may_fail = { λ _ _ _. ⊤ };

    ghost talk = { λ _. None };

    fn transmit(&mut self, _bytes: &[u8]) -> Result<(), LineFault> {
        self.transmissions = self.transmissions.saturating_add(1);
        self.failures = self.failures.saturating_add(1);
        self.last_fault = Some(LineFault::Closed);
        Err(LineFault::Closed)
    }

    fn listen(&mut self, _piece: &mut [u8]) -> Result<Came, LineFault> {
        self.failures = self.failures.saturating_add(1);
        self.last_fault = Some(LineFault::Closed);
        Err(LineFault::Closed)
    }
}

const CLOSED: Option<StationFault> = Some(StationFault::Line(LineFault::Closed));

/// The sender's first call, a speaking or a hearing, finds its line closed.
fn assert_closed(rt: &impl Abort, sender: &mut SendingStation, first: u64) {
    let mut line = ClosedLine::new();
    assert!(rt; call_sender(sender, &mut line, first) == CLOSED);
    assert!(rt; call_sender(sender, &mut line, 1) == OVER);
    assert!(rt; call_sender(sender, &mut line, 2) == OVER);
    assert!(rt; sender.counted() == 0);
    assert!(rt; sender.outcome().is_none());
}

#[test]
fn a_closed_line_is_told_as_closed(rt: HostRuntime) {
    let job = job_of(&rt, 1, 1);
    let jobs = slice::from_ref(&job);
    for first in 1..3 {
        let mut sender = sender_of(&rt, jobs);
        assert_closed(&rt, &mut sender, first);
    }
    let mut line = ClosedLine::new();
    let mut receiver = receiver_of(&rt);
    assert!(rt; call_receiver(&mut receiver, &mut line, 1) == CLOSED);
    assert!(rt; call_receiver(&mut receiver, &mut line, 1) == OVER);
    assert!(rt; call_receiver(&mut receiver, &mut line, 2) == OVER);
    assert!(rt; receiver.jobs().is_empty());
}

/// This many SYN and then an ACK0.
fn ack0_after_syns(alloc: Global, count: usize) -> Result<Vec<u8>, AllocError> {
    let mut bytes = Vec::new(alloc);
    for _ in 0..count {
        bytes.push(0x32)?;
    }
    bytes.extend_from_slice(&[0x10, 0x70])?;
    Ok(bytes)
}

/// What a sender that bid hears of this many SYN and then an ACK0.
fn hear_after_syns(rt: &(impl Abort + AllocGlobal), count: usize) -> Option<StationFault> {
    let job = job_of(rt, 1, 1);
    let bytes = ack0_after_syns(rt.alloc(), count).expect(rt, "no memory");
    let mut line = line_of(rt, &[bytes.as_slice()], 0);
    let mut sender = sender_of(rt, slice::from_ref(&job));
    assert!(rt; sender.speak(&mut line).is_ok());
    sender.hear(&mut line, false).err()
}

#[test]
fn one_hearing_of_a_sender_has_8192_bytes(rt: HostRuntime) {
    assert!(rt; hear_after_syns(&rt, MAX_HEARD - 2).is_none());
    assert!(rt; hear_after_syns(&rt, MAX_HEARD - 1) == Some(StationFault::Babble));
}

#[test]
fn faults_of_stations_and_lines_are_printed(rt: HostRuntime) -> Result<(), Fail> {
    for (fault, text) in [
        (StationFault::OutOfMemory, "out of memory"),
        (StationFault::Line(LineFault::Closed), "line closed"),
        (StationFault::Line(LineFault::Failed), "line failed"),
        (StationFault::Babble, "babble"),
        (StationFault::Over, "the transmission is over"),
        (StationFault::BadJob(12), "job 12 can't be sent"),
    ] {
        assert!(rt; format!(in rt.alloc(); "{fault}")?.as_str() == text);
    }
    Ok(())
}

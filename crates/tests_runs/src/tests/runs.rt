//! Stations that are driven over a schedule, and what they note. The conversations of runs are in tests/talks/, as tables.
use super::schedules::{
    ASK_ACK1, BID, BLOCK_UNHEARD, DOWN_LOST, END, GOOD, assert_same_jobs, assert_turns, jobs_of,
    schedule_of,
};
use bsc_link::{Outcome, Reply, Say, Sound};
use line_world::{Driven, drive};
use rje_jobs::Job;
use rje_station::{Event, ReceivingStation, SendingStation, Trace};
use std::alloc::AllocGlobal;
use std::process::Abort;

/// What a sender notes of one block whose acknowledgement is lost once.
const SENDERS_EVENTS: [Event; 8] = [
    Event::Said(Say::Bid),
    Event::Heard(Sound::Ack0),
    Event::Said(Say::Block),
    Event::Heard(Sound::Quiet),
    Event::Said(Say::Ask),
    Event::Heard(Sound::Ack1),
    Event::Counted,
    Event::Said(Say::End),
];

/// What its receiver notes.
const RECEIVERS_EVENTS: [Event; 8] = [
    Event::Heard(Sound::Enq),
    Event::Replied(Reply::Ack0),
    Event::Heard(Sound::Block),
    Event::Accepted,
    Event::Replied(Reply::Ack1),
    Event::Heard(Sound::Enq),
    Event::Replied(Reply::Ack1),
    Event::Heard(Sound::Eot),
];

/// The trace has just these events.
fn assert_events(rt: &impl Abort, trace: &Trace, events: &[Event]) {
    assert!(rt; trace.len() == events.len());
    for (i, event) in events.iter().enumerate() {
        assert!(rt; trace.get(i) == Some(*event));
    }
}

/// The stations of one job, after a run in which its acknowledgement was lost.
fn assert_driven(rt: &impl Abort, driven: &Driven<'_>, jobs: &[Job]) {
    assert_turns(rt, &driven.turns, &[BID, BLOCK_UNHEARD, ASK_ACK1, END]);
    assert!(rt; driven.sender.counted() == 1);
    assert!(rt; driven.sender.outcome() == Some(Outcome::Done));
    assert_same_jobs(rt, driven.receiver.jobs(), jobs);
    assert_events(rt, driven.sender.trace(), &SENDERS_EVENTS);
    assert_events(rt, driven.receiver.trace(), &RECEIVERS_EVENTS);
}

#[test]
fn driven_stations_are_given_back(rt: HostRuntime) {
    let jobs = jobs_of(&rt, &[(1, 1)]);
    let turns = schedule_of(&rt, &[GOOD, DOWN_LOST, GOOD, GOOD]);
    let sender = SendingStation::new(rt.alloc(), &jobs).expect(&rt, "no memory");
    let receiver = ReceivingStation::new(rt.alloc()).expect(&rt, "no memory");
    let driven = drive(rt.alloc(), sender, receiver, &turns).expect(&rt, "a run");
    assert_driven(&rt, &driven, &jobs);
}

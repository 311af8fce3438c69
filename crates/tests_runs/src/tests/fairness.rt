//! Fair lines, and how many turns are enough on them. What becomes of jobs on them is in tests/talks/fair.
use super::schedules::{GOOD, HOLD, PAUSE, Place, TURN, Way, bad_jobs, job_of, schedule_of};
use line_world::{is_fair, turns_needed};
use std::alloc::AllocGlobal;
use std::process::Abort;

const LOST: Place = Place {
    up: Way::Lost,
    down: Way::Lost,
    ..GOOD
};

// HOW MANY TURNS

/// For jobs of these numbers of records of 80 bytes, this many turns are enough.
fn assert_needed(rt: &(impl Abort + AllocGlobal), sizes: &[usize], turns: u64) {
    let mut jobs = Vec::new(rt.alloc());
    for records in sizes {
        assert!(rt; jobs.push(job_of(rt, *records, 80)).is_ok());
    }
    assert!(rt; turns_needed(&jobs) == Some(turns));
}

#[test]
fn the_bid_and_each_block_need_seven_turns(rt: HostRuntime) {
    // Eighteen records of 80 bytes are three blocks; a job without records is one.
    let cases: [(&[usize], u64); 4] = [(&[], 7), (&[18], 28), (&[0], 14), (&[18, 0], 35)];
    for (sizes, turns) in cases {
        assert_needed(&rt, sizes, turns);
    }
}

#[test]
fn a_job_that_cannot_be_sent_has_no_number_of_turns(rt: HostRuntime) {
    let jobs = bad_jobs(&rt);
    assert!(rt; turns_needed(&jobs).is_none());
}

// FAIR SCHEDULES

const NOISE: Place = Place {
    up: Way::Damaged(&[0x32, 0x32, 0xC1]),
    ..GOOD
};

const IN_PIECES: Place = Place {
    up: Way::Cut(&[1]),
    ..GOOD
};

/// Schedules, and whether each is fair.
static SCHEDULES: &[(&[Place], bool)] = &[
    // Fewer than eight turns may all be lost.
    (&[], true),
    (&[LOST, LOST, LOST, LOST, LOST, LOST, LOST], true),
    (&[LOST, LOST, LOST, LOST, LOST, LOST, LOST, LOST], false),
    // On a fair line neither end asks the other to wait.
    (&[GOOD], true),
    (&[HOLD], false),
    (&[TURN], false),
    (&[PAUSE], false),
    (&[GOOD, GOOD, PAUSE], false),
    // Two neighbouring turns in which all arrives are a good pair.
    (&[LOST, LOST, LOST, LOST, LOST, LOST, GOOD, GOOD], true),
    (&[LOST, LOST, LOST, LOST, LOST, LOST, IN_PIECES, GOOD], true),
    (&[LOST, LOST, LOST, LOST, LOST, LOST, NOISE, GOOD], false),
    (&[LOST, LOST, LOST, LOST, LOST, LOST, GOOD, NOISE], false),
    (&[GOOD, LOST, GOOD, LOST, GOOD, LOST, GOOD, LOST], false),
    // The schedules of the first and the third table of tests/talks/fair.
    (
        &[
            LOST, LOST, LOST, LOST, LOST, GOOD, GOOD, LOST, LOST, LOST, LOST, LOST, GOOD, GOOD,
            LOST, LOST, LOST, LOST, LOST, GOOD, GOOD,
        ],
        true,
    ),
    (
        &[
            GOOD, GOOD, LOST, LOST, LOST, LOST, LOST, LOST, GOOD, GOOD, LOST, LOST, LOST, LOST,
            LOST, LOST, GOOD, GOOD, LOST, LOST, LOST, LOST, LOST, LOST,
        ],
        false,
    ),
];

#[test]
fn each_schedule_is_fair_or_is_not(rt: HostRuntime) {
    for (places, fair) in SCHEDULES {
        let turns = schedule_of(&rt, places);
        assert!(rt; is_fair(&turns) == *fair);
    }
}

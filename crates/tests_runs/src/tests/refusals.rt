//! Calls that take memory, with ample memory and with a growth of memory refused: tests/test_refusals.py runs these tests with each
//! growth refused in turn.
use super::pairs::{Call, report_by};
use super::schedules::{GOOD, TURN, assert_same_jobs, pair_schedule, record_of, schedule};
use bsc_link::{Outcome, Rank, Reply, Say, Sound};
use line_world::{Report, Series, Spoken, Turn, WorldFault, run, run_all};
use pair_world::{Bids, PairSpoken, Side};
use rje_jobs::Job;
use rje_text::{Mode, Records, Select};
use std::alloc::{AllocError, Global};
use std::process::Abort;
use std::slice;
use std::test::Fail;

/// A job of `count` records, at most 1,000, whose memory is taken in one growth.
fn job_of(rt: &(impl Abort + AllocGlobal), count: usize) -> Result<Job, AllocError> {
    let mut records = Records::with_capacity(rt.alloc(), 1000, 80_000)?;
    for _ in 0..count {
        records.push(record_of(rt, 80))?;
    }
    Ok(Job {
        select: Select::Unset,
        mode: Mode::Normal,
        records,
        whole: true,
    })
}

/// The sender said this, turn by turn. A block that found no memory got NAK, and one that was said again didn't.
fn assert_said(rt: &impl Abort, report: &Report, said: &[Say]) {
    assert!(rt; report.turns.len() == said.len());
    for (place, turn) in report.turns.iter().enumerate() {
        assert!(rt; turn.said == said[place]);
        assert!(rt;
            !turn.refused
                || (turn.arrived, turn.reply, turn.heard)
                    == (Sound::Block, Some(Reply::Nak), Sound::Nak)
        );
        assert!(rt; turn.said != Say::Again || is_taken(turn));
    }
}

/// A block came and was acknowledged.
fn is_taken(turn: &Spoken) -> bool {
    turn.arrived == Sound::Block
        && matches!(
            (turn.reply, turn.heard),
            (Some(Reply::Ack0), Sound::Ack0)
                | (Some(Reply::Ack1), Sound::Ack1)
                | (Some(Reply::Rvi), Sound::Rvi)
        )
}

/// The sender bid, said two blocks, one of them again where it found no memory, and ended: which of them that was.
fn refused_block(rt: &impl Abort, report: &Report) -> Option<usize> {
    let place = report.turns.iter().position(|turn| turn.refused);
    let said: &[Say] = match place {
        None => &[Say::Bid, Say::Block, Say::Block, Say::End],
        Some(1) => &[Say::Bid, Say::Block, Say::Again, Say::Block, Say::End],
        Some(_) => &[Say::Bid, Say::Block, Say::Block, Say::Again, Say::End],
    };
    assert_said(rt, report, said);
    assert!(rt; matches!(place, None | Some(1) | Some(2)));
    place
}

/// Printed at some growth: block 2 found no memory.
#[test]
fn a_run_says_a_block_again_that_found_no_memory(rt: HostRuntime) -> Result<(), Fail> {
    // Seven records of 80 bytes are two blocks.
    let (Ok(job), Ok(turns)) = (job_of(&rt, 7), schedule(rt.alloc(), &[GOOD; 6])) else {
        return Ok(());
    };
    let jobs = slice::from_ref(&job);
    let report = match run(rt.alloc(), jobs, &turns) {
        Ok(report) => report,
        Err(fault) => {
            assert!(rt; fault == WorldFault::OutOfMemory);
            return Ok(());
        }
    };
    assert_same_jobs(&rt, report.handed.as_slice(), jobs);
    assert!(rt; report.counted == 1);
    if refused_block(&rt, &report) == Some(2) {
        println!(rt; "block 2 found no memory")?;
    }
    Ok(())
}

// SEVERAL RUNS

/// The report of a run that sent one job of two blocks and ended so: whether one of its blocks found no memory.
fn is_one_refused(rt: &impl Abort, report: &Report, outcome: Outcome) -> bool {
    assert!(rt; report.counted == 1);
    assert!(rt; report.outcome == Some(outcome));
    refused_block(rt, report).is_some()
}

/// Jobs of two blocks each: seven and eight records of 80 bytes.
fn two_jobs(rt: &(impl Abort + AllocGlobal)) -> Result<Vec<Job>, AllocError> {
    let mut jobs = Vec::with_capacity(rt.alloc(), 2)?;
    jobs.push(job_of(rt, 7)?)?;
    jobs.push(job_of(rt, 8)?)?;
    Ok(jobs)
}

/// The receiver ends the first run by its wish to send, and nothing is lost in the second.
fn two_schedules(alloc: Global) -> Result<Vec<Vec<Turn>>, AllocError> {
    let mut schedules = Vec::with_capacity(alloc, 2)?;
    schedules.push(schedule(alloc, &[GOOD, TURN, TURN, TURN, TURN])?)?;
    schedules.push(schedule(alloc, &[GOOD; 5])?)?;
    Ok(schedules)
}

/// The two jobs went in the two runs of these reports, in one of which a block may have found no memory: what came of it, for the script.
fn told_of_runs(rt: &impl Abort, series: &Series, jobs: &[Job]) -> &'static str {
    assert_same_jobs(rt, series.handed.as_slice(), jobs);
    assert!(rt; series.counted == 2);
    assert!(rt; series.reports.len() == 2);
    let first = is_one_refused(rt, &series.reports[0], Outcome::Turned);
    let second = is_one_refused(rt, &series.reports[1], Outcome::Done);
    assert!(rt; !(first && second));
    match (first, second) {
        (true, _) => "a block of run 1 found no memory",
        (_, true) => "a block of run 2 found no memory",
        _ => "each block found memory",
    }
}

/// Two jobs go in two runs, or there is no memory for them: what came of it, for the script.
fn try_runs(rt: &(impl Abort + AllocGlobal)) -> &'static str {
    let (Ok(jobs), Ok(schedules)) = (two_jobs(rt), two_schedules(rt.alloc())) else {
        return "no memory to begin with";
    };
    match run_all(rt.alloc(), &jobs, &schedules) {
        Ok(series) => told_of_runs(rt, &series, &jobs),
        Err(fault) => {
            assert!(rt; fault == WorldFault::OutOfMemory);
            "no memory for the runs"
        }
    }
}

/// Printed at some growth: no memory for the runs, a block of run 1 found no memory, a block of run 2 found no memory.
#[test]
fn each_of_two_runs_says_a_block_again_that_found_no_memory(rt: HostRuntime) -> Result<(), Fail> {
    println!(rt; "{}", try_runs(&rt))?;
    Ok(())
}

// TWO STATIONS THAT BOTH HAVE JOBS

/// Whether a block of this station was refused: at most one was, and it got NAK.
fn is_refused(rt: &impl Abort, turns: &[PairSpoken], rank: Rank) -> bool {
    let mut refused = false;
    for turn in turns {
        let spoken = match rank {
            Rank::Primary => turn.primary,
            Rank::Secondary => turn.secondary,
        };
        if let Some(
            Spoken {
                arrived,
                refused: true,
                reply,
                heard,
                ..
            },
        ) = spoken
        {
            let nak = (Sound::Block, Some(Reply::Nak), Sound::Nak);
            assert!(rt; !refused && (arrived, reply, heard) == nak);
            refused = true;
        }
    }
    refused
}

/// The job arrived and was counted.
fn assert_sent(rt: &impl Abort, side: &Side, job: &Job) {
    assert_same_jobs(rt, side.handed.as_slice(), slice::from_ref(job));
    assert!(rt; side.counted == 1);
    assert!(rt; side.outcome == Some(Outcome::Done));
}

/// A job of two blocks went each way, and one of these blocks may have found no memory: what came of it, for the script.
fn told_of_pair(rt: &impl Abort, turns: &[PairSpoken]) -> &'static str {
    let up = is_refused(rt, turns, Rank::Primary);
    let down = is_refused(rt, turns, Rank::Secondary);
    assert!(rt; !(up && down));
    let (count, told) = match (up, down) {
        (true, _) => (9, "a block of the primary found no memory"),
        (_, true) => (9, "a block of the secondary found no memory"),
        _ => (8, "each block found memory"),
    };
    assert!(rt; turns.len() == count);
    told
}

/// By this call a job of two blocks goes each way, or there is no memory for the call: what came of it, for the script.
fn try_pair(rt: &(impl Abort + AllocGlobal), call: Call) -> &'static str {
    // Seven records of 80 bytes are two blocks. Each way takes four turns, and a block that is said again one more.
    let schedule = pair_schedule(rt.alloc(), &[(Bids::Primary, GOOD); 10]);
    let (Ok(up), Ok(down), Ok(turns)) = (job_of(rt, 7), job_of(rt, 7), schedule) else {
        return "no memory to begin with";
    };
    let jobs = (slice::from_ref(&up), slice::from_ref(&down));
    match report_by(call, rt.alloc(), jobs, &turns) {
        Ok(report) => {
            assert_sent(rt, &report.up, &up);
            assert_sent(rt, &report.down, &down);
            told_of_pair(rt, &report.turns)
        }
        Err(fault) => {
            assert!(rt; fault == WorldFault::OutOfMemory);
            "no memory for the run"
        }
    }
}

/// Printed at some growth: no memory for the run, a block of the primary found no memory, a block of the secondary found no memory.
#[test]
fn a_run_of_two_stations_says_a_block_again_that_found_no_memory(
    rt: HostRuntime,
) -> Result<(), Fail> {
    println!(rt; "{}", try_pair(&rt, Call::Run))?;
    Ok(())
}

/// Printed at some growth: no memory for the run, a block of the primary found no memory, a block of the secondary found no memory.
#[test]
fn two_driven_stations_say_a_block_again_that_found_no_memory(rt: HostRuntime) -> Result<(), Fail> {
    println!(rt; "{}", try_pair(&rt, Call::Drive))?;
    Ok(())
}

//! Several runs of the same jobs, one after another: where each begins, and what all of them deliver and count.
use super::schedules::{
    ASK_LOST, ASK_UNHEARD, BID, BLOCK_ACK0, BLOCK_ACK1, BLOCK_LOST, BLOCK_UNHEARD, DOWN_LOST, END,
    GOOD, Line, Place, TURN, UP_LOST, assert_same_jobs, assert_turns, bad_jobs, cut, damaged,
    jobs_of, schedule, unfit_job,
};
use bsc_link::{Outcome, Reply, Say, Sound};
use line_world::{Report, Series, Turn, WorldFault, run_all};
use rje_jobs::Job;
use std::alloc::{AllocError, AllocGlobal, Global};
use std::process::Abort;
use std::slice;
use std::test::Fail;

/// All answers from the second turn on are lost.
const UNANSWERED: [Place; 9] = [
    GOOD, DOWN_LOST, DOWN_LOST, DOWN_LOST, DOWN_LOST, DOWN_LOST, DOWN_LOST, DOWN_LOST, DOWN_LOST,
];

/// All that the sender says from the third turn on is lost.
const CUT_OFF: [Place; 9] = [
    GOOD, GOOD, UP_LOST, UP_LOST, UP_LOST, UP_LOST, UP_LOST, UP_LOST, UP_LOST,
];

/// These schedules.
fn schedules(alloc: Global, attempts: &[&[Place]]) -> Result<Vec<Vec<Turn>>, AllocError> {
    let mut schedules = Vec::new(alloc);
    for places in attempts {
        schedules.push(schedule(alloc, places)?)?;
    }
    Ok(schedules)
}

/// The runs of these jobs over these schedules, which count this many jobs.
fn assert_series(
    rt: &(impl Abort + AllocGlobal),
    jobs: &[Job],
    attempts: &[&[Place]],
    counted: usize,
) -> Series {
    let schedules = schedules(rt.alloc(), attempts).expect(rt, "no memory");
    let series = run_all(rt.alloc(), jobs, &schedules).expect(rt, "a series of runs");
    assert!(rt; series.counted == counted);
    series
}

/// A run: its turns, how many jobs it counted, and how it ended.
#[derive(Clone, Copy)]
struct Run<'a>(&'a [Line], usize, Outcome);

/// The report is of this run.
fn assert_run(rt: &impl Abort, report: &Report, run: &Run<'_>) {
    assert_turns(rt, &report.turns, run.0);
    assert!(rt; report.counted == run.1);
    assert!(rt; report.outcome == Some(run.2));
}

/// The reports are of these runs, one after another.
fn assert_runs(rt: &impl Abort, reports: &[Report], runs: &[Run<'_>]) {
    assert!(rt; reports.len() == runs.len());
    for (place, report) in reports.iter().enumerate() {
        assert_run(rt, report, &runs[place]);
    }
}

/// Each of the reports has delivered these jobs, one list for each.
fn assert_each_handed(rt: &impl Abort, series: &Series, jobs: &[&[Job]]) {
    assert!(rt; series.reports.len() == jobs.len());
    for (place, report) in series.reports.iter().enumerate() {
        assert_same_jobs(rt, report.handed.as_slice(), jobs[place]);
    }
}

#[test]
fn a_job_that_was_handed_out_and_not_counted_is_handed_out_again(rt: HostRuntime) {
    let jobs = jobs_of(&rt, &[(1, 1)]);
    let series = assert_series(&rt, &jobs, &[&UNANSWERED, &[GOOD, GOOD, GOOD]], 1);
    let ask = ASK_UNHEARD;
    let unanswered = [BID, BLOCK_UNHEARD, ask, ask, ask, ask, ask, ask, END];
    let answered = [BID, BLOCK_ACK1, END];
    let runs = [
        Run(&unanswered, 0, Outcome::GaveUp),
        Run(&answered, 1, Outcome::Done),
    ];
    assert_runs(&rt, &series.reports, &runs);
    assert_each_handed(&rt, &series, &[jobs.as_slice(), jobs.as_slice()]);
    assert_twice(&rt, series.handed.as_slice(), &jobs);
}

/// The jobs, and then the same again.
fn assert_twice(rt: &impl Abort, handed: &[Job], jobs: &[Job]) {
    let (first, second) = handed.split_at(jobs.len().min(handed.len()));
    assert_same_jobs(rt, first, jobs);
    assert_same_jobs(rt, second, jobs);
}

#[test]
fn a_job_that_was_cut_off_is_given_again(rt: HostRuntime) {
    // Seven records of 80 bytes are two blocks, the first of six.
    let jobs = jobs_of(&rt, &[(7, 80), (1, 1)]);
    let clean = [GOOD, GOOD, GOOD, GOOD, GOOD];
    let series = assert_series(&rt, &jobs, &[&CUT_OFF, &clean], 2);
    let ask = ASK_LOST;
    let cut_off = [BID, BLOCK_ACK1, BLOCK_LOST, ask, ask, ask, ask, ask, ask];
    let all = [BID, BLOCK_ACK1, BLOCK_ACK0, BLOCK_ACK1, END];
    let runs = [
        Run(&cut_off, 0, Outcome::GaveUp),
        Run(&all, 2, Outcome::Done),
    ];
    assert_runs(&rt, &series.reports, &runs);
    assert!(rt; series.reports.len() == 2);
    assert!(rt; series.reports[0].handed.len() == 1);
    assert_begun_then_whole(&rt, series.handed.as_slice(), &jobs);
}

/// The first six records of the first job, which isn't whole, and then all jobs.
fn assert_begun_then_whole(rt: &impl Abort, handed: &[Job], jobs: &[Job]) {
    let [begun, rest @ ..] = handed else {
        assert!(rt; false, "no job was handed out");
        return;
    };
    assert!(rt; !begun.whole);
    assert!(rt; !jobs.is_empty());
    let records = &jobs[0].records;
    assert!(rt; records.len() == 7);
    assert!(rt; begun.records.iter().eq(records.iter().take(6)));
    assert_same_jobs(rt, rest, jobs);
}

#[test]
fn a_run_begins_at_the_first_job_that_is_not_counted(rt: HostRuntime) {
    let jobs = jobs_of(&rt, &[(1, 1), (1, 2)]);
    let turned = [GOOD, TURN, GOOD];
    let series = assert_series(&rt, &jobs, &[&turned, &[GOOD, GOOD, GOOD]], 2);
    let block = Line(Say::Block, Sound::Block, Some(Reply::Rvi), Sound::Rvi);
    let (first, second) = ([BID, block, END], [BID, BLOCK_ACK1, END]);
    let runs = [
        Run(&first, 1, Outcome::Turned),
        Run(&second, 1, Outcome::Done),
    ];
    assert_runs(&rt, &series.reports, &runs);
    let jobs = jobs.as_slice();
    assert!(rt; jobs.len() == 2);
    let (counted, left) = jobs.split_at(1);
    assert_each_handed(&rt, &series, &[counted, left]);
    assert_same_jobs(&rt, series.handed.as_slice(), jobs);
}

#[test]
fn where_all_is_counted_nothing_is_said(rt: HostRuntime) {
    let jobs = jobs_of(&rt, &[(1, 1)]);
    let series = assert_series(&rt, &jobs, &[&[GOOD, GOOD, GOOD], &[cut(&[0])]], 1);
    let runs = [
        Run(&[BID, BLOCK_ACK1, END], 1, Outcome::Done),
        Run(&[], 0, Outcome::Done),
    ];
    assert_runs(&rt, &series.reports, &runs);
    assert_each_handed(&rt, &series, &[jobs.as_slice(), &[]]);
    assert_same_jobs(&rt, series.handed.as_slice(), &jobs);
}

#[test]
fn without_a_schedule_nothing_is_run(rt: HostRuntime) {
    let jobs = jobs_of(&rt, &[(1, 1)]);
    let series = assert_series(&rt, &jobs, &[], 0);
    assert!(rt; series.reports.is_empty());
    assert!(rt; series.handed.is_empty());
}

/// These jobs are refused so over these schedules.
fn assert_refused(
    rt: &(impl Abort + AllocGlobal),
    jobs: &[Job],
    attempts: &[&[Place]],
    fault: WorldFault,
) {
    let schedules = schedules(rt.alloc(), attempts).expect(rt, "no memory");
    let refused = run_all(rt.alloc(), jobs, &schedules).err();
    assert!(rt; refused == Some(fault));
}

#[test]
fn a_job_that_cannot_be_sent_is_told_without_a_schedule(rt: HostRuntime) {
    let first = unfit_job(&rt);
    assert_refused(&rt, slice::from_ref(&first), &[], WorldFault::BadJob(1));
    let second = bad_jobs(&rt);
    assert_refused(&rt, &second, &[], WorldFault::BadJob(2));

    // Before any turn, too.
    let attempts: [&[Place]; 1] = [&[cut(&[0])]];
    assert_refused(&rt, &second, &attempts, WorldFault::BadJob(2));
}

#[test]
fn a_broken_rule_is_told_with_its_attempt(rt: HostRuntime) {
    let jobs = jobs_of(&rt, &[(1, 1)]);
    let text = [damaged(&[0x32, 0x32, 0x02, 0xC1])];
    assert_refused(
        &rt,
        &jobs,
        &[&UNANSWERED, &text],
        WorldFault::NotDamage(2, 1),
    );
    let nothing_before = [cut(&[0])];
    assert_refused(
        &rt,
        &jobs,
        &[&UNANSWERED, &nothing_before],
        WorldFault::BadCut(2, 1),
    );
}

#[test]
fn faults_of_runs_are_printed(rt: HostRuntime) -> Result<(), Fail> {
    for (fault, text) in [
        (WorldFault::OutOfMemory, "out of memory"),
        (
            WorldFault::NotDamage(2, 13),
            "attempt 2 turn 13 is no damage",
        ),
        (WorldFault::BadCut(3, 14), "attempt 3 turn 14 has a bad cut"),
        (WorldFault::BadJob(12), "job 12 can't be sent"),
    ] {
        assert!(rt; format!(in rt.alloc(); "{fault}")?.as_str() == text);
    }
    Ok(())
}

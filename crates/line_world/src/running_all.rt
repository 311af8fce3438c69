//! Several runs of the same jobs, one after another.
ghost use Rattle.std.specs.Prelude.{◌≡◌, ◌≤◌, length, map, take, filter, IfOk, OnOk, IfErr};
ghost use Rattle.std.specs.List.{AllByRecursion};
ghost use Rattle.rje_jobs.specs.Fitting.{JobFits};
ghost use Rattle.line_world.specs.Series.{AreRuns, handed_in, counted_in, IsSubsequenceOf, IsSeriesFault};

use crate::{Series, Turn, WorldFault, run, runs_keep_order};
use rje_jobs::Job;
use rje_station::first_unfit;
use std::alloc::Global;

/// One transmission of these jobs over each of these schedules: each has new stations, and begins at the first job that none before it
/// counted. A job that was delivered and not counted is so given again; `handed` tells it each time.
pub fn run_all(alloc: Global, jobs: &[Job], schedules: &[Vec<Turn>]) -> Result<Series, WorldFault>
    ensures runs { IfOk result (λ series.
        AreRuns jobs.now (map (λ turns. turns.items) schedules.now) series.reports.items) }
    ensures handed { IfOk result (λ series. series.handed ≡ handed_in series.reports.items) }
    ensures counted { IfOk result (λ series. series.counted ≡ counted_in series.reports.items) }

    // The jobs that count as sent are the first of those given. Each was delivered whole, in order and at a place of its own.
    ensures within { IfOk result (λ series. series.counted ≤ length jobs.now) }
    ensures counted_handed { IfOk result
        (λ series. IsSubsequenceOf (take series.counted jobs.now)
        (filter (λ job. job.whole) series.handed)) }

    // A job that can't be sent is told before any turn, and where there is no schedule too.
    ensures fit { OnOk result (AllByRecursion JobFits jobs.now) }
    ensures fault { IfErr result (IsSeriesFault jobs.now
        (map (λ turns. turns.items) schedules.now)) }
{
    runs_keep_order();
    if let Some(number) = first_unfit(jobs) {
        return Err(WorldFault::BadJob(number));
    }
    let mut series = Series::new(alloc);
    for turns in schedules {
        let attempt = series.reports.len() + 1;
        match run(alloc, &jobs[series.counted..], turns) {
            Ok(report) => series.push(report)?,
            Err(fault) => return Err(fault.in_attempt(attempt)),
        }
    }
    Ok(series)
}

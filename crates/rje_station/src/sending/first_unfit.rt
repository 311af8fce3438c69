//! Which of some jobs can't be sent.
ghost use Rattle.std.specs.Prelude.{MatchOption};
ghost use Rattle.std.specs.List.{AllByRecursion};
ghost use Rattle.rje_jobs.specs.Fitting.{JobFits};
ghost use Rattle.rje_station.specs.StationFault.{IsFirstUnfit};

use rje_jobs::{Job, job_fits};

/// The number of the first job that can't be sent, from 1; None where all can be. What a new sending station looks for before anything
/// else. Takes no memory.
pub fn first_unfit(jobs: &[Job]) -> Option<usize>
    ensures { MatchOption result (AllByRecursion JobFits jobs.now)
        (λ number. IsFirstUnfit jobs.now number) }
{
    for (i, job) in jobs.iter().enumerate() {
        if !job_fits(job) {
            return Some(i + 1);
        }
    }
    None
}

//! How many turns are enough on a fair line.
ghost use Rattle.std.specs.Prelude.{◌≡◌, ◌⊎◌, ◌^◌, ◌≤◌, length, IfSome, IfNone, OnSome};
ghost use Rattle.std.specs.List.{AllByRecursion};
ghost use Rattle.rje_jobs.specs.Blocks.{blocks_of_job};
ghost use Rattle.rje_jobs.specs.Fitting.{JobFits};
ghost use Rattle.line_world.specs.Fairness.{turns_for};

use rje_jobs::{Job, job_fits};

/// How many turns are enough on a fair line: seven for the bid, and seven for each block. None where a job can't be sent, or the number is
/// over the greatest u64. Takes no memory.
pub fn turns_needed(jobs: &[Job]) -> Option<u64>
    ensures fit { OnSome result (AllByRecursion JobFits jobs.now) }
    ensures enough { IfSome result (λ turns. turns ≡ turns_for jobs.now) }
    ensures none { IfNone result ((AllByRecursion JobFits jobs.now → ⊥)
        ⊎ (2 ^ 64 ≤ turns_for jobs.now)) }
{
    let mut blocks: u64 = 0;
    for job in jobs {
        if !job_fits(job) {
            return None;
        }
        blocks = blocks.checked_add(blocks_in(job) as u64)?;
    }
    blocks.checked_mul(7)?.checked_add(7)
}

/// How many blocks the job has.
fn blocks_in(job: &Job) -> usize
    requires fits { JobFits job.now }
    ensures { result ≡ length (blocks_of_job job.now) }
{
    let records = &job.records;
    let (_, mut place) = records.next_block(0, job.select, job.mode);
    let mut count = 1;
    while place < records.len() {
        (_, place) = records.next_block(place, job.select, job.mode);
        count += 1;
    }
    count
}

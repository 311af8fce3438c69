//! Keeps the jobs that come whole.
ghost use Rattle.std.specs.Prelude.{◌≡◌, ◌++◌, true, Some, slice_get, IfOk, OnOk, OnErr};
ghost use Rattle.rje_jobs.specs.declared.job.Job.{Job as Item};
ghost use Rattle.rje_session.specs.Keeping.{cutting, keeping, kept_with};
ghost use Rattle.rje_session.specs.Ledger.{Kept, MayBeEntered};

use crate::Spool;
use rje_jobs::Job;

/// Keeps the next of these jobs, where it is there and came whole. How many are kept then.
pub(crate) fn keep_next<S: Spool>(
    jobs: &[Job],
    kept: usize,
    spool: &mut S,
) -> Result<usize, S::Fault>
    ensures next { IfOk result (λ now. now ≡ kept_with kept (slice_get jobs.now kept)) }
    ensures entered { S.discloses → OnOk result (S.ledger spool.new
        ≡ keeping (slice_get jobs.now kept) ++ S.ledger spool.old) }
    ensures failed { S.discloses → OnErr result ((job : Item)
        × (slice_get jobs.now kept ≡ Some job) × (job.whole ≡ true)
        × MayBeEntered (Kept job) (S.ledger spool.old) (S.ledger spool.new)) }
{
    if kept < jobs.len() && jobs[kept].whole {
        spool.keep(&jobs[kept])?;
        return Ok(kept + 1);
    }
    Ok(kept)
}

/// Keeps the next of these jobs as cut, where it is there and didn't come whole.
pub(crate) fn keep_cut<S: Spool>(jobs: &[Job], kept: usize, spool: &mut S) -> Result<(), S::Fault>
    ensures entered { S.discloses → OnOk result (S.ledger spool.new
        ≡ cutting (slice_get jobs.now kept) ++ S.ledger spool.old) }
{
    if kept < jobs.len() && !jobs[kept].whole {
        spool.keep_cut(&jobs[kept])?;
    }
    Ok(())
}

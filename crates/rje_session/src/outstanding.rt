//! Which block of a sending station is outstanding.
ghost use Rattle.std.specs.Prelude.{◌≡◌, ◌∷◌, List};
ghost use Rattle.rje_jobs.specs.declared.job.Job.{Job as Item};
ghost use Rattle.rje_jobs.specs.Fitting.{JobFits};
ghost use Rattle.rje_session.specs.Outstanding.{BeginsAt, blocks_from, ends_with, counts_last as has_counted};

use bsc_codes::Closing;
use rje_jobs::Job;
use rje_station::{Event, SendingStation, Trace};

/// Whether the outstanding block, which begins with this record, is the last of its job.
pub(crate) fn is_last<'a>(sender: &SendingStation<'a>, from: usize) -> bool
    requires begins { BeginsAt sender.now from }
    ensures { result ≡ ends_with sender.now.rest }
{
    let jobs = sender.jobs();
    let counted = sender.counted();
    if counted >= jobs.len() {
        return false;
    }
    is_last_from(&jobs[counted], from)
}

/// Whether the block of a job that begins with this record is its last.
fn is_last_from(job: &Job, from: usize) -> bool
    requires fits { JobFits job.now }
    ensures { (others : List Item) → result ≡ ends_with (blocks_from (job.now ∷ others) from) }
{
    if from >= job.records.len() {
        return true;
    }
    let (block, _) = job.records.next_block(from, job.select, job.mode);
    match block.closing {
        Closing::Etx => true,
        Closing::Etb => false,
    }
}

/// Whether the last thing that a station did was to count a block.
pub(crate) fn counts_last(trace: &Trace) -> bool
    ensures { result ≡ has_counted trace.now }
{
    let last = trace.get(trace.len().saturating_sub(1));
    matches!(last, Some(Event::Counted))
}

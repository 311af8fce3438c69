//! Whether a receiving station can hold a job.
ghost use Rattle.std.specs.Prelude.{◌↔◌, IsTrue};
ghost use Rattle.rje_spool.specs.Holding.{CanBeHeld, IsShortEnough};

use rje_jobs::Job;

/// The most records that a station holds of one transmission.
const MOST_RECORDS: usize = 750_000;

/// The most bytes of the job file that it keeps of a job.
const MOST_BYTES: usize = 16_760_832;

/// The bytes of that file before the job's records.
const FRONT: usize = 33;

/// The bytes of a record there before its data.
const RECORD_HEADER: usize = 2;

/// Whether a receiving station can hold a job, and keep it.
pub(crate) fn can_be_held(job: &Job) -> bool
    ensures { IsTrue result ↔ CanBeHeld job.now }
{
    job.records.len() <= MOST_RECORDS && is_short_enough(job)
}

/// Whether the job file of a job alone is no longer than what a station keeps.
fn is_short_enough(job: &Job) -> bool
    ensures { IsTrue result ↔ IsShortEnough job.now }
{
    let mut bytes = FRONT;
    for record in job.records.iter() {
        let more = RECORD_HEADER + record.bytes.len();
        if MOST_BYTES - bytes < more {
            return false;
        }
        bytes += more;
    }
    true
}

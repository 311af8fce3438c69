//! Which jobs can be sent.
ghost use Rattle.std.specs.Prelude.{◌≡◌, ◌≤◌, ◌↔◌, true, length, IsTrue, None};
ghost use Rattle.rje_text.specs.PackFault.{pack_fault};
ghost use Rattle.rje_jobs.specs.Fitting.{JobFits};

use crate::Job;
use rje_text::{MAX_RECORD, Mode, PackFault, Record, Select};

/// Whether the job can be sent: it is whole, each of its records can be sent, and a transparent job is for the punch.
pub fn job_fits(job: &Job) -> bool
    ensures fits { IsTrue result ↔ JobFits job.now }
{
    heading_fits(job.select, job.mode, job.whole) && job.records.can_be_sent(job.select, job.mode)
}

/// Whether a job of this selection and mode can be sent if its records can: it is whole, and a transparent job is for the punch.
pub fn heading_fits(select: Select, mode: Mode, whole: bool) -> bool
    ensures fits { IsTrue result ↔ ((whole ≡ true)
        × (mode ≡ Mode.Transparent → select ≡ Select.Punch)) }
{
    whole && (mode != Mode::Transparent || select == Select::Punch)
}

/// Whether the record can be sent in a job of this selection and mode.
pub fn record_fits(item: &Record, select: Select, mode: Mode) -> bool
    ensures room { length item.now.bytes.items ≤ 144 }
    ensures sent { IsTrue result ↔ (pack_fault select mode item.now ≡ None) }
{
    prove!(item.bytes.len() <= MAX_RECORD);
    PackFault::of(item, select, mode).is_none()
}

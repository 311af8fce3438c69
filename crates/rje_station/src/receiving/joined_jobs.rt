//! The jobs that accepted blocks are joined to.
ghost use Rattle.std.specs.Prelude.{◌≡◌, [], OnOk, OnErr};
ghost use Rattle.rje_jobs.specs.Joined.{ends_job as ends, mode_of_begun};
ghost use Rattle.rje_station.specs.JoinedJobs.{begun_in, with_read};

use bsc_codes::Closing;
use rje_jobs::Job;
use rje_text::{Mode, Unpacked};
use std::alloc::{AllocError, Global};
use std::marker::Model;

/// The jobs that accepted blocks are joined to. A job of which blocks came but not the last one stands last, and isn't whole.
#[derive(Drop)]
pub(crate) struct JoinedJobs {
    items: Vec<Job>,
}

impl Model for JoinedJobs {
    ghost use Rattle.std.specs.Prelude.{List};
    ghost use Rattle.rje_jobs.specs.declared.job.Job.{Job as Item};

    ghost Value = { List Item };

    ghost view = { λ jobs. jobs.items.items };
}

impl JoinedJobs {
    /// No jobs yet. Takes no memory.
    pub(crate) fn new(alloc: Global) -> Self
        ensures { result ≡ [] }
    {
        JoinedJobs {
            items: Vec::new(alloc),
        }
    }

    /// The jobs as a slice.
    pub(crate) fn as_slice(&self) -> &[Job]
        ensures { result.now ≡ self.now }
    {
        self.items.as_slice()
    }

    /// The vector of these jobs.
    pub(crate) fn into_vec(self) -> Vec<Job>
        ensures { result.items ≡ self }
    {
        let JoinedJobs { items } = self;
        items
    }

    /// Where their memory comes from.
    pub(crate) fn allocator(&self) -> Global {
        *self.items.allocator()
    }

    /// The mode of the job that is begun, if there is one.
    pub(crate) fn mode_of_begun(&self) -> Option<Mode>
        ensures { result ≡ mode_of_begun (begun_in self.now) }
    {
        let len = self.items.len();
        if len == 0 {
            return None;
        }
        let job = &self.items[len - 1];
        if job.whole { None } else { Some(job.mode) }
    }

    /// Joins what was read of one more block. Without memory for it nothing changes.
    pub(crate) fn join(&mut self, unpacked: Unpacked, closing: Closing) -> Result<(), AllocError>
        ensures ok { OnOk result (self.new ≡ with_read self.old unpacked (ends closing)) }
        ensures err { OnErr result (self.new ≡ self.old) }
    {
        let whole = ends_job(closing);
        let Unpacked {
            select,
            mode,
            records,
        } = unpacked;
        let len = self.items.len();
        if self.mode_of_begun().is_some() {
            let job = &mut self.items[len - 1];
            job.records.append(records)?;
            job.whole = whole;
            return Ok(());
        }
        let job = Job {
            select,
            mode,
            records,
            whole,
        };
        if let Err(error) = self.items.push(job) {
            return Err(AllocError::from(error));
        }
        Ok(())
    }
}

fn ends_job(closing: Closing) -> bool
    ensures { result ≡ ends closing }
{
    matches!(closing, Closing::Etx)
}

//! What several runs of the same jobs were.
ghost use Rattle.std.specs.Prelude.{◌≡◌, ◌+◌, ◌<◌, ◌^◌, ◌++◌, ◌∷◌, [], OnOk};

use crate::Report;
use rje_jobs::Jobs;
use std::alloc::{AllocError, Global};

/// What several runs of the same jobs were, one after another.
#[derive(Drop)]
pub struct Series {
    /// What each run was, the first one first.
    pub reports: Vec<Report>,
    /// The jobs that they deliver, one report after another. A job that was delivered and not counted is given again by the next run, and
    /// so stands here twice.
    pub handed: Jobs,
    /// How many of the jobs given are counted as sent.
    pub counted: usize,
}

impl Series {
    /// No run yet. Takes no memory.
    pub(crate) fn new(alloc: Global) -> Series
        ensures reports { result.reports.items ≡ [] }
        ensures handed { result.handed ≡ [] }
        ensures counted { result.counted ≡ 0 }
    {
        Series {
            reports: Vec::new(alloc),
            handed: Jobs::from(Vec::new(alloc)),
            counted: 0,
        }
    }

    /// Puts one more run behind these. What an error leaves isn't said.
    pub(crate) fn push(&mut self, report: Report) -> Result<(), AllocError>
        requires room { self.old.counted + report.counted < 2 ^ 64 }
        ensures reports { OnOk result (self.new.reports.items
            ≡ self.old.reports.items ++ report ∷ []) }
        ensures handed { OnOk result (self.new.handed ≡ self.old.handed ++ report.handed) }
        ensures counted { OnOk result (self.new.counted ≡ self.old.counted + report.counted) }
    {
        self.handed.extend_with_clones(report.handed.as_slice())?;
        self.counted += report.counted;
        self.reports.push(report)?;
        Ok(())
    }
}

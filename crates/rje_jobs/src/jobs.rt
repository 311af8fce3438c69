//! Jobs in order.
ghost use Rattle.std.specs.Prelude.{◌≡◌, ◌==◌, ◌++◌, length, OnOk, OnErr};
ghost use Rattle.std.specs.Slice.Iter.{iter_rest};

use crate::Job;
use std::alloc::AllocError;
use std::marker::Model;
use std::slice::Iter;

/// Jobs in order: a vector of them, which contracts see as a list.
#[derive(Debug, Drop)]
pub struct Jobs {
    items: Vec<Job>,
}

impl Model for Jobs {
    ghost use Rattle.std.specs.Prelude.{List};
    ghost use Rattle.rje_jobs.specs.declared.job.Job.{Job as Item};

    ghost Value = { List Item };

    ghost view = { λ jobs. jobs.items.items };
}

impl Jobs {
    /// The vector of these jobs.
    pub fn into_vec(self) -> Vec<Job>
        ensures vector { result.items ≡ self }
    {
        let Jobs { items } = self;
        items
    }

    /// Adds copies of other jobs after these. Without memory for all of them nothing changes.
    pub fn extend_with_clones(&mut self, others: &[Job]) -> Result<(), AllocError>
        ensures ok { OnOk result (self.new ≡ self.old ++ others.now) }
        ensures err { OnErr result (self.new ≡ self.old) }
    {
        self.items.extend_with_clones(others)
    }

    /// The jobs as a slice.
    pub fn as_slice(&self) -> &[Job]
        ensures slice { result.now ≡ self.now }
    {
        self.items.as_slice()
    }

    /// The jobs, one after another.
    pub fn iter(&self) -> Iter<'_, Job>
        ensures rest { iter_rest result ≡ self.now }
    {
        self.items.iter()
    }

    /// How many jobs there are.
    pub fn len(&self) -> usize
        ensures count { result ≡ length self.now }
    {
        self.items.len()
    }

    /// Whether there is no job.
    pub fn is_empty(&self) -> bool
        ensures none { result ≡ (length self.now == 0) }
    {
        self.items.is_empty()
    }
}

impl From<Vec<Job>> for Jobs {
    ghost from_gives = { λ items jobs. jobs ≡ items.items };

    fn from(items: Vec<Job>) -> Self {
        Jobs { items }
    }
}

//! How often a job was sent that the other end didn't keep.
ghost use Rattle.std.specs.Prelude.{◌≡◌, ◌≢◌, ◌≤◌, ◌+◌, ◌-◌, ◌^◌, ◌↔◌, IsTrue, None, Some, min};

use rje_folder::FileIdentity;
use rje_settle::JobPlace;

/// So often in a row a job is sent that the other end doesn't keep.
const MOST: u32 = 3;

/// How often one job was sent in a row that the other end didn't keep.
#[derive(Debug, Drop)]
pub(crate) struct Attempts {
    /// The disk of its file, the number of that there, and where the job is marked in it.
    job: Option<(u64, u64, Option<u64>)>,
    count: u32,
}

impl Attempts {
    /// None was.
    pub(crate) fn new() -> Attempts {
        Attempts {
            job: None,
            count: 0,
        }
    }

    /// A job of this file hasn't come that may have. Whether it is sent no more.
    pub(crate) fn are_too_many(&mut self, file: FileIdentity, place: JobPlace) -> bool
        ensures job { self.new.job ≡ Some (file.device, file.inode, place.mark) }
        ensures again { self.old.job ≡ self.new.job
            → self.new.count ≡ min (self.old.count + 1) (2 ^ 32 - 1) }
        ensures first { self.old.job ≢ self.new.job → self.new.count ≡ 1 }
        ensures many { IsTrue result ↔ (3 ≤ self.new.count) }
    {
        let job = Some((file.device, file.inode, place.mark));
        if self.job != job {
            self.job = job;
            self.count = 0;
        }
        self.count = self.count.saturating_add(1);
        self.count >= MOST
    }

    /// A job came.
    pub(crate) fn forget(&mut self)
        ensures { (self.new.job ≡ None) × (self.new.count ≡ 0) }
    {
        self.job = None;
        self.count = 0;
    }
}

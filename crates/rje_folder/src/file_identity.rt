//! Which file it is that was read.
ghost use Rattle.std.specs.Prelude.{◌≡◌, ◌↔◌, IsTrue};
ghost use Rattle.rje_folder.specs.TakingOver.{IsAtRest};

use rje_store::{ChangeTime, FileStatus};

/// For so many seconds nobody writes to a file that is taken over.
const REST: i64 = 3;

/// Which file it is, and how far its bytes are: a file that was put in its place has another identity, and so has it once it was written to.
#[derive(Clone, Copy, Debug, PartialEq, Eq)]
pub struct FileIdentity {
    /// The disk that it is on, as a number.
    pub device: u64,
    /// Its number on that disk.
    pub inode: u64,
    /// How many bytes it has.
    pub len: u64,
    /// When these last changed.
    pub changed: ChangeTime,
}

impl FileIdentity {
    /// That of a file of which the system says this.
    pub fn of(status: &FileStatus) -> FileIdentity
        ensures device { result.device ≡ status.now.device }
        ensures inode { result.inode ≡ status.now.inode }
        ensures len { result.len ≡ status.now.len }
        ensures changed { result.changed ≡ status.now.changed }
    {
        FileIdentity {
            device: status.device,
            inode: status.inode,
            len: status.len,
            changed: status.changed,
        }
    }

    /// Whether it is at rest at this time, in seconds since 1970: its bytes last changed more than three seconds before, or after it by this clock. If the
    /// time isn't known it is.
    pub fn is_at_rest(&self, now: Option<i64>) -> bool
        ensures { IsTrue result ↔ IsAtRest self.now.changed.seconds now }
    {
        match now {
            Some(now) => {
                now < self.changed.seconds || self.changed.seconds.saturating_add(REST) < now
            }
            None => true,
        }
    }
}

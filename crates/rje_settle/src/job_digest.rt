//! The digest of one job.
ghost use Rattle.std.specs.Prelude.{◌≡◌};
ghost use Rattle.sha2.specs.Sha256.{sha256};

use crate::hashing::hash_of;

/// The digest of one job: SHA-256 of its job file of version 2.
#[derive(Clone, Copy, Debug, PartialEq, Eq)]
pub struct JobDigest {
    /// Its bytes.
    pub bytes: [u8; 32],
}

impl JobDigest {
    /// The digest of the job of this job file.
    pub fn of(file: &[u8]) -> Self
        ensures { result.bytes ≡ sha256 file.now }
    {
        JobDigest {
            bytes: hash_of(file),
        }
    }
}

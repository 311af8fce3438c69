//! The digest of a list of jobs.
ghost use Rattle.std.specs.Prelude.{◌≡◌, ◌≢◌, MatchOption};
ghost use Rattle.hex.specs.Hex.{encode_lower};
ghost use Rattle.rje_settle.specs.Digest.{IsDigest, chained, digest_of_none};

use crate::JobDigest;
use crate::hashing::{chain, text_of_20};

/// The digest of a list of jobs, from the first one ever to the last.
#[derive(Clone, Copy, Debug, PartialEq, Eq)]
pub struct Digest {
    /// Its bytes.
    pub bytes: [u8; 20],
}

impl Digest {
    /// The digest of no jobs.
    pub fn of_none() -> Self
        ensures { result.bytes ≡ digest_of_none }
    {
        Digest { bytes: [0; 20] }
    }

    /// The digest of these jobs and one more.
    pub fn with(self, job: JobDigest) -> Self
        ensures { result.bytes ≡ chained self.bytes job.bytes }
    {
        Digest {
            bytes: chain(self.bytes, job.bytes),
        }
    }

    /// Its forty digits.
    pub fn text(self) -> [u8; 40]
        ensures { result ≡ encode_lower self.bytes }
    {
        text_of_20(self.bytes)
    }

    /// The digest that these forty digits are; `None` if they are none.
    pub fn read(text: &[u8]) -> Option<Self>
        ensures { MatchOption result
            ((digest : Self) → IsDigest digest.bytes → text.now ≢ encode_lower digest.bytes)
            (λ digest. (text.now ≡ encode_lower digest.bytes) × IsDigest digest.bytes) }
    {
        let mut bytes = [0; 20];
        hex::decode_to_slice(text, &mut bytes).ok()?;
        let digest = Digest { bytes };
        if digest.text().as_slice() == text {
            Some(digest)
        } else {
            None
        }
    }
}

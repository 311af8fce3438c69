//! The job that was cut last.

use rje_folder::FileIdentity;

/// Where the records of a job are in the job file of it alone.
const RECORDS: usize = 33;

/// Where its device and its mode are there.
const DEVICE: usize = 23;

const MODE: usize = 24;

/// A job that was cut, as it was kept in cut/.
#[derive(Drop)]
pub(crate) struct CutJob {
    /// Its path.
    pub(crate) path: String,
    /// Which file it is.
    pub(crate) file: FileIdentity,
    /// The job file.
    pub(crate) bytes: Vec<u8>,
}

impl CutJob {
    /// Whether the job of another job file, which was cut too, is this one, sent again: the device and the mode are the same, and each has records, of
    /// which those of one are the first of the other's.
    pub(crate) fn is_again(&self, other: &[u8]) -> bool {
        let own = self.bytes.as_slice();
        let (Some(first), Some(second)) = (own.get(RECORDS..), other.get(RECORDS..)) else {
            return false;
        };
        own.get(DEVICE) == other.get(DEVICE)
            && own.get(MODE) == other.get(MODE)
            && !first.is_empty()
            && !second.is_empty()
            && (first.starts_with(second) || second.starts_with(first))
    }
}

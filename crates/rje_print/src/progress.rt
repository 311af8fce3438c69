//! How far a transmission is.
use rje_files::JobName;

/// How far a station is with the jobs that it sends, or with those that it receives.
#[derive(Clone, Copy, Debug, PartialEq, Eq)]
pub struct Progress {
    /// The number of the job, from 1.
    pub job: usize,
    /// How many jobs there are; `None` where they are received, and nobody knows.
    pub jobs: Option<usize>,
    /// The name of the job: blanks where it has none, or where nobody knows.
    pub name: JobName,
    /// The records so far, of all jobs.
    pub records: usize,
    /// The blocks so far, of all jobs.
    pub blocks: usize,
    /// The bytes of these blocks' texts a second.
    pub rate: usize,
    /// How many seconds are left; `None` where nobody knows.
    pub left: Option<usize>,
}

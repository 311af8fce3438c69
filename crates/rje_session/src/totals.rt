//! How much has come of a transmission, as far as job files and memory hold it.
use rje_jobs::Job;

/// The most records that are held of one transmission, so that a peer can't make a station hold more than some 130 MB.
const MAX_RECORDS: usize = 750_000;

/// The most jobs that are held of one transmission.
const MAX_JOBS: usize = 100_000;

/// The bytes of a job file before its first job.
const FRONT: usize = 14;

/// The bytes of a job in it before its records.
const JOB_HEADER: usize = 19;

/// The bytes of a record in it before its data.
const RECORD_HEADER: usize = 2;

/// How much has come: what the jobs of a transmission take, of which the last may go on.
#[derive(Clone, Copy, Debug, PartialEq, Eq)]
pub struct Totals {
    jobs: usize,
    /// The records of the last job.
    last: usize,
    /// Whether it has come to its end.
    whole: bool,
    /// The bytes of a job file of it alone.
    alone: usize,
    /// The records of all jobs.
    records: usize,
    /// The bytes of a job file of all jobs, with what comes before them.
    bytes: usize,
}

impl Totals {
    /// Nothing has come after a file of so many bytes.
    pub fn after_file(bytes: usize) -> Totals {
        Totals {
            jobs: 0,
            last: 0,
            whole: true,
            alone: 0,
            records: 0,
            bytes,
        }
    }

    /// How much has come when it is these jobs: at most one more, and more records of the last.
    pub fn after(self, jobs: &[Job]) -> Totals {
        let Some(job) = jobs.last() else {
            return self;
        };
        let (seen, begun, alone) = if self.jobs == jobs.len() {
            (self.last, 0, self.alone)
        } else {
            (0, JOB_HEADER, FRONT + JOB_HEADER)
        };
        let more = job.records.len().saturating_sub(seen);
        let mut bytes: usize = 0;
        for record in job.records.iter_from(seen) {
            bytes = bytes
                .saturating_add(RECORD_HEADER)
                .saturating_add(record.bytes.len());
        }
        Totals {
            jobs: jobs.len(),
            last: job.records.len(),
            whole: job.whole,
            alone: alone.saturating_add(bytes),
            records: self.records.saturating_add(more),
            bytes: self.bytes.saturating_add(begun).saturating_add(bytes),
        }
    }

    /// Whether it is more than is held, or the last job more than a file of so many bytes has.
    pub fn is_too_much(&self, most: usize) -> bool {
        most < self.alone || self.is_too_many()
    }

    /// Whether it is more than is held, or than one file of so many bytes has.
    pub fn is_too_much_for_one(&self, most: usize) -> bool {
        most < self.bytes || self.is_too_many()
    }

    /// Whether there are more records or jobs than are held.
    fn is_too_many(&self) -> bool {
        MAX_RECORDS < self.records || MAX_JOBS < self.jobs
    }
}

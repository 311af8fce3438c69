//! How a job file goes on with one more job.

/// What becomes of a version 2 file with one more job: what it begins with then, in place of as many bytes, and what is added at its end.
#[derive(Debug, Drop)]
pub struct Growth {
    pub front: Vec<u8>,
    pub tail: Vec<u8>,
}

//! A job.
use rje_text::{Mode, Records, Select};

/// A job: its device, how its texts are written, its records, and whether it is there to its end.
#[derive(Clone, Debug, Drop)]
pub struct Job {
    pub records: Records,
    pub select: Select,
    pub mode: Mode,
    pub whole: bool,
}

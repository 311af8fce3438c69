//! One turn of a report of two stations that both have jobs.
use line_world::Spoken;

/// One turn of a report of two stations that both have jobs: what each said, where it spoke, and what came of it.
#[derive(Clone, Copy, Debug, PartialEq, Eq)]
pub struct PairSpoken {
    pub primary: Option<Spoken>,
    pub secondary: Option<Spoken>,
}

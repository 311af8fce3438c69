//! Where a file stands once it is known what became of its job.

use std::io::ErrorKind;

/// What became of the name that the file of a job had in out/.
#[derive(Clone, Copy, Debug, PartialEq, Eq)]
pub enum OutName {
    /// It is still a name of the file.
    Stands,
    /// It was taken away.
    TakenAway,
    /// Somebody else had taken it away.
    Missing,
    /// It is a name of another file, or of none, as the station itself hid it and couldn't bring that to its end.
    OfAnother,
    /// It can't be taken away, and why.
    Left(ErrorKind),
}

/// Where a file stands once it is known what became of its job.
#[derive(Debug, Drop)]
pub struct Settled {
    /// Its path.
    pub path: String,
    /// What became of its name in out/.
    pub out: OutName,
}

//! Why a file of out/ can't be sent.

use rje_jobs::{DeckFault, FileFault};
use thiserror::Error;

/// Why a file of out/ can't be sent.
#[derive(Clone, Copy, Debug, PartialEq, Eq, Error)]
pub enum RefusedFile {
    /// There is no memory for it.
    #[error("out of memory")]
    OutOfMemory,
    /// Its name has no ending of a deck or a job file.
    #[error("neither a deck nor a job file, by its name")]
    UnknownKind,
    /// It has more bytes than a file that is sent.
    #[error("more than 16777216 bytes")]
    TooLong,
    /// It is no deck.
    #[error("{0}")]
    Deck(DeckFault),
    /// It is no job file.
    #[error("{0}")]
    File(FileFault),
    /// The job of this number, from 1, can't be sent.
    #[error("job {0} can't be sent")]
    BadJob(usize),
    /// It has a job that no station can hold that receives it.
    #[error("a job is longer than a station can hold")]
    TooMuch,
    /// It holds no job that wasn't sent.
    #[error("no job is left to send")]
    NothingLeft,
    /// A job of it has the form of a receipt, by which doubt is settled.
    #[error("a job is a card of the form of a receipt")]
    Receipt,
    /// The other end didn't keep a job of it, three times.
    #[error("the other end didn't keep a job three times")]
    NotKept,
}

//! Why a block's text isn't read.
use thiserror::Error;

/// Why a block's text isn't read. Places count from 0.
#[derive(Debug, PartialEq, Eq, Error, Clone, Copy)]
pub enum TextFault {
    /// The text reads, but there is no memory for its records.
    #[error("out of memory")]
    OutOfMemory,
    /// An IGS without a count: the place after it.
    #[error("no count of blanks at {0}")]
    BadCount(usize),
    /// The byte, or the IGS, with which a record passes 144 data bytes.
    #[error("a record passes 144 bytes at {0}")]
    RecordTooLong(usize),
    /// A transparent text that isn't zero to six cards of 80 bytes.
    #[error("transparent text that is no cards of 80 bytes")]
    CardsNot80,
    /// Another mode than the job's earlier blocks have.
    #[error("another mode than the job's earlier blocks")]
    MixedModes,
}

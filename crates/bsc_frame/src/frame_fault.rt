//! Why a frame isn't written.
use thiserror::Error;

/// Why a frame isn't written. Places count from 0.
#[derive(Debug, PartialEq, Eq, Error, Clone, Copy)]
pub enum FrameFault {
    /// The first byte of a normal text that normal text can't have.
    #[error("no text byte at {0}")]
    TextByte(usize),
    /// An Abort, which is never sent.
    #[error("an abort is never sent")]
    NotSent,
}

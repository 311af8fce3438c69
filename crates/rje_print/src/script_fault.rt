//! Why a script isn't read.
use thiserror::Error;

/// Why a script isn't read.
#[derive(Clone, Copy, Debug, PartialEq, Eq, Error)]
pub enum ScriptFault {
    /// There is no memory for its turns.
    #[error("out of memory")]
    OutOfMemory,
    /// The line of this number, from 1, isn't a turn.
    #[error("script line {0} is not a turn")]
    NotATurn(usize),
}

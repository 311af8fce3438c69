//! Why lines in hexadecimal have no text.
use thiserror::Error;

/// Why lines in hexadecimal have no text.
#[derive(Clone, Copy, Debug, PartialEq, Eq, Error)]
pub enum HexFault {
    /// Each line is that of some bytes, but there is no memory for their text.
    #[error("out of memory")]
    OutOfMemory,
    /// The line of this number, from 1, isn't pairs of hexadecimal digits with blanks between them; the lines before it are.
    #[error("line {0} is not bytes in hexadecimal")]
    NotHex(usize),
}

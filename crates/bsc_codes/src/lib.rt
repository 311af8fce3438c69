//! The alphabet of the line: control bytes, code page 037 and the block of text.
#![tactic(auto)]

mod block;
mod bytes;
mod code_page;
mod laws;

pub use block::{Block, Closing, MAX_TEXT};
pub use bytes::{
    BLANK, DC1, DC2, DC3, DLE, ENQ, EOT, ESC, ETB, ETX, IGS, IRS, ITB, NAK, PAD, SOH, STX, SYN,
    is_normal_text,
};
pub use code_page::{to_ascii, to_ebcdic};
pub use laws::{code_page_is_inverse, named_bytes_have_their_codes};

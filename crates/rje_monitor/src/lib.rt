//! Bytes as they stood on a line, as a text: what was heard of them, one transmission after another.
#![tactic(auto)]

mod block_words;
mod heard_words;
mod hearing;
mod hex_fault;
mod hex_line;
mod item;
mod laws;
mod lines;
mod pads;
mod reason;
mod stream;
#[cfg(test)]
mod tests;
mod turns;
mod words;

pub use hex_fault::HexFault;
pub use laws::one_reason;
pub use reason::Reason;
pub use stream::stream_text;
pub use turns::turns_text;

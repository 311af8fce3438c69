//! Frames of the line: a writer, and a listener that hears them in bytes that come in any pieces.
#![tactic(auto)]

mod closing;
mod fed;
mod fed_kind;
mod frame;
mod frame_fault;
mod frame_kind;
mod heard;
mod laws;
mod listener;
mod normal_text;
mod writer;

pub use fed::Fed;
pub use fed_kind::FedKind;
pub use frame::Frame;
pub use frame_fault::FrameFault;
pub use frame_kind::FrameKind;
pub use heard::Heard;
pub use laws::{
    every_hearing, named_bytes_have_their_codes, one_hearing, one_transmission,
    written_is_transmission,
};
pub use listener::Listener;
pub use writer::{MAX_TRANSMISSION, write_frame};

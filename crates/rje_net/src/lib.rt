//! A line over a connection: what is written to its stream and read of it, and what of that a station is given.
#![tactic(auto)]

mod adapter_stream;
mod first_bytes;
mod first_word;
mod handing;
mod line_cause;
mod observed_stream;
mod socket_line;
mod steps;

pub use adapter_stream::AdapterStream;
pub use first_bytes::FirstBytes;
pub use first_word::has_word;
pub use line_cause::LineCause;
pub use observed_stream::ObservedStream;
pub use socket_line::SocketLine;

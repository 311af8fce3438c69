//! The program's commands over sockets, each over a store of files and a writer.
mod ending;
mod exchange_command;
mod loop_command;
mod receive_command;
mod send_command;

pub use ending::Ending;
pub use exchange_command::{exchange, exchange_over};
pub use loop_command::loopback;
pub use receive_command::{receive, receive_over};
pub use send_command::{send, send_over};

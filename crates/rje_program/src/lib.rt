//! What the program does with the words that it is given: over files, and over sockets.
#![tactic(auto)]

mod over_files;
mod over_sockets;
mod printed_error;
mod telling;

pub use over_files::command;
pub use over_sockets::{is_for_sockets, is_for_station, is_for_status, socket_command};
pub use telling::tell_words;

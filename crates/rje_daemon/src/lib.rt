//! The order `station`, carried out: a station that stays on the line, with the jobs of a folder.
#![tactic(auto)]

mod attendant;
mod attending;
mod call_times;
mod doorway;
mod guarding;
mod line_note;
mod log_file;
mod paced_stream;
mod running;
mod speaking;
mod state_file;
mod station_spool;
mod strangers;

pub use paced_stream::PacedStream;
pub use running::station_command;

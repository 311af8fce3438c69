//! What the program does with files: each command over a store of files, a reader and two writers.
#![tactic(auto)]

mod command_fault;
mod commands;
mod over_files;
mod telling;
mod write_cause;

pub use command_fault::CommandFault;
pub use commands::{
    HeldFile, extend_file, lock_file, look_at_file, look_beside, put, put_lines, read_file,
    read_if_there, read_job_file, set_byte_of_file, write_file, write_grown,
};
pub use over_files::carry_out;
pub use telling::tell;
pub use write_cause::WriteCause;

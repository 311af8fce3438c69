//! The program's commands over files, each over a store of files, a reader and a writer.
mod blocks_command;
mod cards_command;
mod check_command;
mod choosing;
mod chosen_jobs;
mod holding;
mod inputs;
mod mark_command;
mod monitor_command;
mod output;
mod print_command;
mod show_command;
mod take_command;
mod try_command;

pub use blocks_command::blocks;
pub use cards_command::cards;
pub use check_command::check;
pub use holding::{HeldFile, lock_file, read_if_there};
pub use inputs::{read_file, read_job_file};
pub use mark_command::mark;
pub use monitor_command::monitor;
pub use output::{
    extend_file, look_at_file, look_beside, put, put_lines, set_byte_of_file, write_file,
    write_grown,
};
pub use print_command::print;
pub use show_command::show;
pub use take_command::take;
pub use try_command::trial;

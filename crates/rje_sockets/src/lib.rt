//! The program's commands over sockets: one transmission over a line, or one each way, whose jobs are kept as they come and marked as they are
//! counted.
#![tactic(auto)]

mod amount;
mod both_ways;
mod close;
mod connection;
mod display;
mod existing_entries;
mod job_writer;
mod kept_file;
mod observer;
mod one_way;
mod over_sockets;
mod receive_end;
mod received_amount;
mod received_blocks;
mod reported_cause;
mod reporter;
mod sent_amount;
mod sent_blocks;
mod sent_marker;
mod socket_commands;
mod tracer;
mod transfer_error;
mod verbosity;

pub use over_sockets::carry_out;
pub use socket_commands::{Ending, exchange_over, receive_over, send_over};

//! Both stations over a line: the sending and the receiving 3780, step by step.
#![tactic(auto)]

mod arrival;
mod came;
mod event;
mod frame_reader;
mod hear_fault;
mod heard_kind;
mod laws;
mod line;
mod line_fault;
mod receiving;
mod sending;
mod sound_heard;
mod station;
mod station_fault;
mod trace;
mod writing;

pub use arrival::Arrival;
pub use came::Came;
pub use event::Event;
pub use frame_reader::MAX_HEARD;
pub use laws::{blocks_are_joined, counted_blocks_end_counted_jobs, trace_goes_on};
pub use line::Line;
pub use line_fault::LineFault;
pub use receiving::ReceivingStation;
pub use sending::SendingStation;
pub use sending::first_unfit::first_unfit;
pub use station::Station;
pub use station_fault::StationFault;
pub use trace::{MAX_EVENTS, Trace};

//! The order `status`, carried out: what lies in the folder of a station.
#![tactic(auto)]

mod age;
mod card_counting;
mod folders;
mod line_state;
mod line_text;
mod lock_holder;
mod log_reading;
mod queued_file;
mod reading;
mod running;
mod state_reading;
mod station_status;
mod status_fault;
mod text;

pub use folders::Folders;
pub use line_state::{Activity, LineState, STATE_FILE, TransmissionState, Way};
pub use lock_holder::holder_of;
pub use queued_file::QueuedFile;
pub use reading::{files_in, read_status};
pub use running::status_command;
pub use station_status::StationStatus;
pub use status_fault::StatusFault;

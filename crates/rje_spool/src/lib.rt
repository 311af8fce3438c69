//! The spool of a station that stays on the line: the jobs of its folder, and what its operator is told.
#![tactic(auto)]

mod brake;
mod console;
mod cut_job;
mod due_paper;
mod file_job;
mod folder_spool;
mod given_file;
mod given_files;
mod given_job;
mod hidden_files;
mod holding;
mod ledger;
mod notice;
mod outgoing;
mod pace;
mod paper;
mod passed_files;
mod refused_file;
mod retry;
mod settling_notice;
mod spool_fault;
mod spool_files;
mod stamps;
mod told_names;
mod unkept;
mod watching;

pub use console::Console;
pub use file_job::FileJob;
pub use folder_spool::FolderSpool;
pub use given_job::GivenJob;
pub use ledger::{Ledger, NoBook};
pub use notice::{JobLabel, Notice};
pub use outgoing::{Outgoing, outgoing_of};
pub use paper::{paper_of, received_file};
pub use refused_file::RefusedFile;
pub use settling_notice::SettlingNotice;
pub use spool_fault::SpoolFault;
pub use stamps::Stamps;

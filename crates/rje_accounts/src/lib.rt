//! The accounts of a station on disk, in its folder settle/: what was sent and kept ever, what is promised, and a job that came, until it is brought in.
#![tactic(auto)]

mod accounts;
mod accounts_fault;
mod bringing_in;
mod emptying;
mod finishing;
mod naming;
mod noting;
mod promising;
mod reading;
mod receiving;
mod settle_names;
mod syncing;

pub use accounts::Accounts;
pub use accounts_fault::AccountsFault;
pub use bringing_in::{BroughtIn, bring_in};
pub use finishing::finish_job;
pub use naming::settle_path;
pub use noting::note_sent;
pub use promising::{drop_promise, promise};
pub use reading::read_accounts;
pub use receiving::keep_job;

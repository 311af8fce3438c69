//! The spool of a station that settles doubt by receipts: what may have arrived is told by the other end, and needs nobody's hand.
#![tactic(auto)]

mod attempts;
mod comparing;
mod failures;
mod filing;
mod finding;
mod settling_fault;
mod settling_files;
mod settling_spool;
mod station_accounts;

pub use settling_fault::SettlingFault;
pub use settling_spool::SettlingSpool;

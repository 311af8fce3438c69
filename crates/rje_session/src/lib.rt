//! The transmissions of a connection, one after another: each with new stations, over any line, and with the jobs of a spool.
#![tactic(auto)]

mod breaking;
mod connection;
mod connection_end;
mod in_hand;
mod in_step;
mod keeping;
mod leaving;
mod outstanding;
mod settling;
mod spool;
mod stay_fault;
mod terms;
mod totals;
pub mod turns;

pub use connection::{MAX_TRANSMISSIONS, stay};
pub use connection_end::ConnectionEnd;
pub use in_hand::{InHand, MAX_TURNS};
pub use in_step::InStep;
pub use spool::Spool;
pub use stay_fault::StayFault;
pub use terms::Terms;
pub use totals::Totals;

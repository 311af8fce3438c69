//! A day of two ends that settle doubt by receipts, whatever the line does.
#![tactic(auto)]

mod laws;
mod worked_day;

pub use laws::{receipts_settle_doubt, what_is_settled_was_kept};
pub use worked_day::a_day_with_a_lost_job;

//! Receipts as jobs, by which two stations tell each other what they kept.
#![tactic(auto)]

mod saying;

pub use saying::{receipt_job, receipt_of_job};

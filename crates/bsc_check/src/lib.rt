//! The check of the line: CRC-16.
#![tactic(auto)]

mod check;
mod laws;
mod table;
mod tables;

pub use check::Check;
pub use laws::one_remainder;

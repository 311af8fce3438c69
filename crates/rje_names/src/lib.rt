//! Names of files and other words that were given, as messages print them.
#![tactic(auto)]

mod printed_name;

pub use printed_name::{PrintedName, printed};

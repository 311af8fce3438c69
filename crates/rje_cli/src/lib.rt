//! What the arguments ask for.
#![tactic(auto)]

mod address;
mod laws;
mod words;
mod words_fault;

pub use laws::{words_ask_for_a_station, words_ask_for_orders};
pub use words::parse;
pub use words_fault::WordsFault;

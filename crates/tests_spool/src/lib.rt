//! The worked examples of the spool of a station, as tests. There is nothing else here.
#![tactic(auto)]

#[cfg(test)]
mod tests;

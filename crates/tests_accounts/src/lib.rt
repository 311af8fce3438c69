//! The worked examples of the accounts of a station on disk, as tests. There is nothing else here.
#![tactic(auto)]

#[cfg(test)]
mod tests;

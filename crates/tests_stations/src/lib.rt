//! The worked examples of the stations, as tests. There is nothing else here.
#![tactic(auto)]

#[cfg(test)]
mod tests;

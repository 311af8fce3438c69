//! The worked examples of a connection, as tests. There is nothing else here.
#![tactic(auto)]

#[cfg(test)]
mod tests;

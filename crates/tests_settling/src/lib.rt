//! The worked examples of a spool that settles doubt by receipts, as tests. There is nothing else here.
#![tactic(auto)]

#[cfg(test)]
mod tests;

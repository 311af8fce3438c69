//! The worked examples of runs over schedules, as tests. There is nothing else here.
#![tactic(auto)]

#[cfg(test)]
mod tests;

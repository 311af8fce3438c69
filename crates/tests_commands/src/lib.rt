//! The worked examples of the program's commands, as tests. There is nothing else here.
#![tactic(auto)]

#[cfg(test)]
mod tests;

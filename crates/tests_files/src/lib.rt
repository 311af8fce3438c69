//! The worked examples of texts, jobs and job files, as tests. There is nothing else here.
#![tactic(auto)]

#[cfg(test)]
mod tests;

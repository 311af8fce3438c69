//! The worked examples of bytes, checks, frames and the link cores, as tests. There is nothing else here.
#![tactic(auto)]

#[cfg(test)]
mod tests;

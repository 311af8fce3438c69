//! What no clause says of bytes, checks, frames, an adapter and the link cores: worked transmissions, the tables as they are printed, and worked
//! histories.
mod adapters;
mod checks;
mod codes;
mod contention;
mod frames;
mod links;

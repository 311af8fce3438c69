//! What no clause says of a connection: worked examples over a line with a script and a spool in memory.
mod book;
mod connections;
mod script;
mod tallies;

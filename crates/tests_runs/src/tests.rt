//! What no clause says of runs: worked examples from the field, and that calls succeed where memory is ample.
mod fairness;
mod pairs;
mod refusals;
mod runs;
mod schedules;
mod series;

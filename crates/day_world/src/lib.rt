//! A whole day of two stations, exchange after exchange.
#![tactic(auto)]

mod laws;
mod worked_day;

pub use laws::{
    days_keep_each_job_once, exchanges_pass_on_the_first_jobs, sessions_carry_their_exchanges,
};
pub use worked_day::a_day_with_a_job_in_doubt;

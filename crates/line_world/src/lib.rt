//! Both ends of a line over a whole conversation: a line in memory, and the run of jobs over a schedule of losses and damage.
#![tactic(auto)]

mod carrying;
mod driven;
mod ends;
mod enough_turns;
mod fairness;
mod fate;
mod laws;
mod memory_line;
mod report;
mod running;
mod running_all;
mod series;
mod spoken;
mod turn;
mod turn_fault;
mod unfailing;
mod world_fault;

pub use carrying::{MAX_DAMAGE, carry};
pub use driven::Driven;
pub use ends::check_damage;
pub use enough_turns::turns_needed;
pub use fairness::is_fair;
pub use fate::Fate;
pub use laws::{
    broken_schedules_have_no_conversation, clean_line_is_enough, fair_line_is_enough,
    faithful_lines_keep_order, histories_keep_order, runs_keep_order, stations_keep_history,
};
pub use memory_line::MemoryLine;
pub use report::Report;
pub use running::{drive, run};
pub use running_all::run_all;
pub use series::Series;
pub use spoken::Spoken;
pub use turn::Turn;
pub use turn_fault::TurnFault;
pub use world_fault::WorldFault;

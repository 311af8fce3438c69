//! Two stations that both have jobs, over a whole conversation: the run of the jobs of both over a schedule of losses and damage.
#![tactic(auto)]

mod laws;
mod pair_end;
mod pair_ends;
mod pair_report;
mod pair_spoken;
mod pair_turn;
mod paired;
mod pairing;
mod side;
mod speaking;

pub use bsc_history::Bids;
pub use laws::{
    broken_schedules_have_no_pair_conversation, one_way_is_a_run, pair_runs_keep_order,
};
pub use pair_report::PairReport;
pub use pair_spoken::PairSpoken;
pub use pair_turn::PairTurn;
pub use paired::Paired;
pub use pairing::{drive_pair, run_pair};
pub use side::Side;

//! The day of a station that stays on the line: what it does next, and what becomes of the jobs of each of its transmissions.
#![tactic(auto)]

mod day;
mod day_event;
mod day_place;
mod disposition;
mod ended;
mod inputs;
mod laws;
mod next_action;
mod settings;

pub use day::Day;
pub use day_event::DayEvent;
pub use day_place::DayPlace;
pub use disposition::Disposition;
pub use ended::Ended;
pub use inputs::Inputs;
pub use laws::{
    calls_again_once_at_once, ends_after_one_connection, no_job_is_given_again,
    stations_carry_one_each_way, the_idle_alone_are_hung_up,
    transmissions_begin_where_none_is_in_hand,
};
pub use next_action::NextAction;
pub use settings::Settings;

//! The adapter's form of a transmission: what is said to a line adapter that makes and takes SYN, pads and checks itself, and a machine that
//! makes transmissions of what comes from it.
#![tactic(auto)]

mod from_adapter;
mod laws;
mod place;
mod said;
mod step;

pub use from_adapter::FromAdapter;
pub use laws::{
    every_hearing, form_is_made, nothing_is_idle, one_hearing, one_making, said_comes_back,
    said_is_form, same_is_heard,
};
pub use said::for_adapter;

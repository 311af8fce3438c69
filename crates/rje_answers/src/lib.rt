//! Which answer belongs to what was said last over a connection, where nothing is lost and what crosses comes late.
#![tactic(auto)]

mod answers;
mod awaiting;
mod given;
mod handover;
mod laws;
mod link_event;
mod rest;
mod said;
mod spelling;
mod taken;

pub use answers::Answers;
pub use given::Given;
pub use handover::{Handed, Handover};
pub use laws::{answers_are_own, machine_tells_no_answers_apart};
pub use link_event::LinkEvent;
pub use rest::Rest;
pub use said::Said;

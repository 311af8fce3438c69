//! Jobs: what makes one, and what it is written as.
#![tactic(auto)]

mod ascii;
mod cards;
mod deck;
mod deck_fault;
mod file_fault;
mod fitting;
mod job;
mod jobs;
mod laws;
mod lines;
mod listing;
mod punch;

pub use cards::Cards;
pub use deck::{cards_of_deck, deck_device, job_of_cards, job_of_deck};
pub use deck_fault::DeckFault;
pub use file_fault::FileFault;
pub use fitting::{heading_fits, job_fits, record_fits};
pub use job::Job;
pub use jobs::Jobs;
pub use laws::{deck_jobs_fit, fitting_jobs_are_cut};
pub use listing::{list_job, push_line, push_listing};
pub use punch::{Form, punch_job, push_card, push_cards};

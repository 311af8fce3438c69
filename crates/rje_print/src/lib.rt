//! What the program prints of blocks, jobs and transmissions, and the scripts that it reads: texts from values, and values from texts.
#![tactic(auto)]

mod block_lines;
mod block_place;
mod job_lines;
mod job_texts;
mod listing;
mod listing_fault;
mod piece;
mod printed_line;
mod progress;
mod report_lines;
mod report_text;
mod script;
mod script_fault;
mod shown_lines;
mod turn_lines;

pub use block_place::BlockPlace;
pub use job_lines::{cards_text, good_text, marked_text, taken_text};
pub use job_texts::{cut_text, entries_text, papers_text};
pub use listing::print_blocks;
pub use listing_fault::ListingFault;
pub use printed_line::{MAX_LINE, PrintedLine};
pub use progress::Progress;
pub use report_lines::{counted_text, handed_text, outcome_text};
pub use report_text::run_text;
pub use script::read_script;
pub use script_fault::ScriptFault;
pub use shown_lines::{ERASED, shown_listening, shown_peer, shown_progress};
pub use turn_lines::{both_text, listening_text, peer_text, receiver_text, sender_text};

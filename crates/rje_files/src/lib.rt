//! Job files, and what is in them.
#![tactic(auto)]

mod entry;
mod file_entry;
mod file_records;
mod growth;
mod job_file;
mod laws;
mod marked_copy;
mod marks;
mod name;
mod unsent;

pub use entry::{Entry, State, entries_of};
pub use file_entry::FileEntry;
pub use file_records::FileRecords;
pub use growth::Growth;
pub use job_file::{
    entries_in, growth_of, read_entries, read_entry_jobs, read_jobs, write_deck, write_entries,
    write_jobs,
};
pub use laws::{
    entries_are_of_one_list, file_is_of_one_list, names_are_padded, one_entry_fault,
    one_file_fault, read_alike,
};
pub use marks::{MARK, mark_places};
pub use name::{JobName, NO_NAME, name_of};
pub use unsent::{first_unsendable, jobs_of, mark_sent, sent_file, unsent_jobs};

//! Records, and the texts of blocks that carry them.
#![tactic(auto)]

mod action;
mod block_at;
mod cards;
mod counted;
mod extent;
mod held;
mod laws;
mod mode;
mod pack_fault;
mod packed_records;
mod packer;
mod pushed;
mod record;
mod record_text;
mod records;
mod records_iter;
mod searching;
mod select;
mod short_record;
mod spelling;
mod text_fault;
mod unpacked;
mod unpacking;

pub use action::Action;
pub use block_at::next_block;
pub use counted::Counted;
pub use laws::{
    action_codes_are_inverse, blocks_are_of_the_cut, cut_is_canonical, cut_reads_back, one_fault,
    packing_is_the_cut, spelling_is_short,
};
pub use mode::Mode;
pub use pack_fault::PackFault;
pub use packer::{MAX_TEXT_SENT, Packer};
pub use pushed::Pushed;
pub use record::{MAX_RECORD, Record};
pub use records::Records;
pub use records_iter::RecordsIter;
pub use select::Select;
pub use text_fault::TextFault;
pub use unpacked::Unpacked;
pub use unpacking::{count_records, unpack};

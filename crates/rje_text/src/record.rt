//! One record of a job.
use crate::Action;
use arrayvec::ArrayVec;

/// The most data bytes of a record.
pub const MAX_RECORD: usize = 144;

/// One record: its data in EBCDIC, and what the carriage does after it.
#[derive(Clone, Debug, PartialEq, Eq, Drop)]
pub struct Record {
    pub action: Action,
    pub bytes: ArrayVec<u8, MAX_RECORD>,
}

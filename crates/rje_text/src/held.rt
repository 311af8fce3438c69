//! What holds records.
use crate::packed_records::PackedRecords;
use crate::short_record::ShortRecord;

/// What holds records: one of few bytes in the value itself, others in memory.
#[derive(Drop)]
pub(crate) enum Held {
    Short(ShortRecord),
    Packed(PackedRecords),
}

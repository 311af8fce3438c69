//! The place of a block in a transmission.

/// The place of a block that a turn's line reports.
#[derive(Clone, Copy, Debug, PartialEq, Eq)]
pub struct BlockPlace {
    /// The number of its job among those of the transmission, from 1.
    pub job: usize,
    /// Its number among the blocks of its job, from 1.
    pub block: usize,
    /// The bytes of its text.
    pub length: usize,
}

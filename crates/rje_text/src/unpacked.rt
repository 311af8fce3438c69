//! What a block's text represents.
use crate::{Mode, Records, Select};

/// What a block's text represents: the selection that it makes, its mode and its records.
#[derive(Debug, Drop)]
pub struct Unpacked {
    pub select: Select,
    pub mode: Mode,
    pub records: Records,
}

//! What a block's text represents, its records counted.
use crate::{Mode, Select};

/// What a block's text represents: the selection that it makes, its mode and how many records it has.
#[derive(Clone, Copy, Debug, PartialEq, Eq)]
pub struct Counted {
    pub select: Select,
    pub mode: Mode,
    pub count: usize,
}

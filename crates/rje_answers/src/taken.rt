//! What was taken of the bytes that came.
use crate::Given;
use bsc_link::Reply;

/// How many bytes were taken, and what the station is given of them.
#[derive(Clone, Copy)]
pub(crate) struct Taken {
    /// How many bytes were taken: all, or those up to the end of a frame.
    pub(crate) used: usize,
    /// What the station is given.
    pub(crate) given: Given<Reply>,
}

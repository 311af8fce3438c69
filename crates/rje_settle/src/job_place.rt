//! Which job of its file a promised job is.

/// Which job of its file a promised job is, for the one who marks it there.
#[derive(Clone, Copy, Debug, PartialEq, Eq)]
pub struct JobPlace {
    /// Where in its job file it is marked; none in a deck.
    pub mark: Option<u64>,
    /// Whether it is the last job of its file.
    pub is_last: bool,
}

//! Which job of which file a job of a transmission is.

use rje_folder::FileIdentity;

/// Which job of which file of out/ a job of a transmission is.
#[derive(Clone, Copy, Debug, PartialEq, Eq)]
pub struct GivenJob<'a> {
    /// The name of the file.
    pub name: &'a str,
    /// Which file it is, as it was read or marked.
    pub file: FileIdentity,
    /// Where the job is marked in it; none in a deck.
    pub mark: Option<u64>,
    /// Whether it is the last job of it.
    pub is_last: bool,
}

//! The versions of job files.

/// A version of job files: the first has jobs alone, the second their names and states too.
#[derive(Clone, Copy, Debug, PartialEq, Eq)]
pub enum FileVersion {
    First,
    Second,
}

//! Who may use a new file.

/// Who may read and write a file that is made.
#[derive(Clone, Copy, Debug, PartialEq, Eq)]
pub enum NewAccess {
    /// Whom the system lets, as it does for each new file.
    Usual,
    /// Its owner alone, until it is given its access.
    Private,
}

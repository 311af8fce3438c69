//! Which of two stations goes first.

/// Which of two stations that both have jobs goes first where both bid (own).
#[derive(Clone, Copy, Debug, PartialEq, Eq)]
pub enum Rank {
    /// Its bid stands.
    Primary,
    /// It yields, and its bid begins anew.
    Secondary,
}

//! Where a contender stands.

/// Where one of two stations that both have jobs stands.
#[derive(Clone, Copy, Debug, PartialEq, Eq)]
pub enum ContenderPlace {
    /// No bid was granted.
    Free,
    /// Its own bid was granted.
    Sending,
    /// It took the other station's bid.
    Receiving,
}

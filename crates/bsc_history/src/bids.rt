//! Who speaks where both could.
ghost use Rattle.std.specs.Prelude.{◌≡◌};
ghost use Rattle.bsc_history.specs.Pair.{lets_primary, lets_secondary};

/// Who speaks where something is due at both stations.
#[derive(Clone, Copy, Debug, PartialEq, Eq)]
pub enum Bids {
    Primary,
    Secondary,
    /// They speak at once, and nothing arrives.
    Both,
}

impl Bids {
    /// Whether the primary speaks where both could.
    pub fn lets_primary(self) -> bool
        ensures { result ≡ lets_primary self }
    {
        self != Bids::Secondary
    }

    /// Whether the secondary speaks where both could.
    pub fn lets_secondary(self) -> bool
        ensures { result ≡ lets_secondary self }
    {
        self != Bids::Primary
    }
}

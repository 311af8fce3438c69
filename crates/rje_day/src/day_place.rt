//! Where a station is in its day.
ghost use Rattle.std.specs.Prelude.{◌≡◌};

/// Where a station is in its day.
#[derive(Clone, Copy, Debug, PartialEq, Eq)]
pub enum DayPlace {
    /// There is no connection.
    Apart,
    /// There is one, and no transmission is in hand.
    Free,
    /// Its own transmission is in hand, from the bid on.
    Sending,
    /// The other end's transmission is in hand.
    Receiving,
}

impl DayPlace {
    ghost use Rattle.rje_day.specs.Day.{is_free, is_in_hand};

    /// Whether there is a connection, and no transmission is in hand.
    pub(crate) fn is_free(self) -> bool
        ensures { result ≡ is_free self }
    {
        self == DayPlace::Free
    }

    /// Whether a transmission is in hand.
    pub(crate) fn is_in_hand(self) -> bool
        ensures { result ≡ is_in_hand self }
    {
        matches!(self, DayPlace::Sending | DayPlace::Receiving)
    }
}

//! What happens in the day of a station.

use crate::Ended;

/// What happened to a station.
#[derive(Clone, Copy, Debug, PartialEq, Eq)]
pub enum DayEvent {
    /// There is a connection: a call came, or its own was answered.
    Connected,
    /// No connection could be had.
    NoConnection,
    /// A hearing passed in which the other end said nothing: nothing came, or noise.
    Quiet,
    /// A hearing passed in which the other end said something, except a bid that is taken.
    Heard,
    /// Its own transmission began: it bids.
    OwnBegan,
    /// The other end's transmission began: its bid is taken. A bid of the station's own that wasn't granted yet yields, and its jobs lie
    /// ready still.
    OtherBegan,
    /// Its own transmission ended.
    OwnEnded(Ended),
    /// The other end's transmission ended.
    OtherEnded,
    /// The connection is gone.
    Disconnected,
}

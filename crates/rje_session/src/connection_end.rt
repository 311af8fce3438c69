//! How a connection came to its end.

use rje_station::StationFault;

/// How a connection came to its end.
#[derive(Clone, Copy, Debug, PartialEq, Eq)]
pub enum ConnectionEnd {
    /// One of the ends hung up, and no transmission was in hand; or this one did, as its spool wanted it.
    HungUp,
    /// The line failed or babbled, or the other end hung up, with a transmission in hand.
    Failed(StationFault),
    /// Something that this end said in its own transmission wasn't answered, or it gave up.
    Unanswered,
    /// In a transmission of the other end's nothing came any more.
    Silent,
}

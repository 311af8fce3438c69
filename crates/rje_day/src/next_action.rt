//! What a station does next.

/// What a station that stays on the line does next.
#[derive(Clone, Copy, Debug, PartialEq, Eq)]
pub enum NextAction {
    /// It listens for a call.
    Listen,
    /// It calls.
    Call,
    /// It waits for the time to call again, and, unless its last attempt failed, for something that lies ready.
    Wait,
    /// It begins a transmission of what lies ready, with new stations.
    Bid,
    /// It listens for one hearing, with new stations, so that the other end may bid.
    Hear,
    /// It goes on with the transmission in hand.
    GoOn,
    /// It hangs up.
    HangUp,
    /// It ends.
    End,
}

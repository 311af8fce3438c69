//! What is seen from outside.

/// What is seen from outside where a station asks what to do next.
#[derive(Clone, Copy, Debug, PartialEq, Eq)]
pub struct Inputs {
    /// Whether something lies ready to be sent.
    pub ready: bool,
    /// Whether the operator holds back what lies ready.
    pub held: bool,
    /// Whether the operator drains the station: it is to end, after the transmission in hand.
    pub drained: bool,
    /// Whether the time to call again has come.
    pub call_due: bool,
    /// Whether the connection is wanted no more: the other end calls again, or it has had the line for long and nothing was done.
    pub line_wanted: bool,
}

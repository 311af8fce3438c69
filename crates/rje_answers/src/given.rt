//! What a station is given of what happens at its end of a connection.
use crate::Rest;

/// What a station that awaits an answer is given.
#[derive(Clone, Copy, PartialEq, Eq)]
pub enum Given<A> {
    /// Nothing yet.
    Nothing,
    /// This answer.
    Answer(A),
    /// The line is quiet, and in the next hearing the other end's ENQ comes.
    Bid,
    /// EOT.
    End,
    /// No answer came, and this was heard in place of one.
    InVain(Rest),
}

//! What the lines of the sender's table say.
use crate::SenderPlace;

/// What one line of the sender's table says.
#[derive(Clone, Copy, Debug, PartialEq, Eq)]
pub enum TableLine {
    /// Progress without a block: the bid was granted.
    Progress,
    /// The outstanding block is counted, which is progress.
    Count,
    /// The same by an RVI, which is noted.
    CountByRvi,
    /// A turn without progress: one more try, and on to this place.
    Try(SenderPlace),
    /// The receiver holds: one more hold, and on to this place.
    Hold(SenderPlace),
    /// The receiver ended the transmission.
    HearsEot,
    /// Nothing changes.
    NoChange,
}

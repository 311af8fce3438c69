//! Why nothing was heard.
use crate::LineFault;

/// Why nothing was heard.
#[derive(Clone, Copy, Debug, PartialEq, Eq)]
pub(crate) enum HearFault {
    /// The line failed.
    Lost(LineFault),
    /// More bytes came than one hearing has, and no frame.
    Babble,
}

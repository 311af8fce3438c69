//! What the line does to the bytes of a transmission.

/// What the line does to the bytes of a transmission.
#[derive(Debug, Drop)]
pub enum Fate {
    /// All bytes come, in pieces cut at these places. They rise strictly, from 1 to the transmission's length less 1.
    Arrives { cuts: Vec<usize> },
    /// Nothing comes.
    Lost,
    /// These bytes come in place of those that were sent, at most 8,192. Of a control sequence other than TTD they must be heard as noise
    /// or as nothing, of a block or a TTD as anything but a block and an EOT.
    Damaged { bytes: Vec<u8> },
}

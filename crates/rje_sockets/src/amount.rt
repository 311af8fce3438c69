//! How much of a transmission is done.

/// How much of a transmission is done: what was sent and counted, or what was accepted.
#[derive(Clone, Copy, Debug, PartialEq, Eq)]
pub(crate) struct Amount {
    pub(crate) records: usize,
    pub(crate) blocks: usize,
    /// The bytes of the blocks' texts.
    pub(crate) bytes: usize,
}

impl Amount {
    /// Nothing is done.
    pub(crate) fn none() -> Amount {
        Amount {
            records: 0,
            blocks: 0,
            bytes: 0,
        }
    }

    /// One more block of so many bytes.
    pub(crate) fn add_block(&mut self, length: usize) {
        self.blocks = self.blocks.saturating_add(1);
        self.bytes = self.bytes.saturating_add(length);
    }

    /// How many bytes a second that is, where it took so many milliseconds.
    pub(crate) fn rate(&self, millis: usize) -> usize {
        self.bytes.saturating_mul(1000) / millis.max(1)
    }

    /// How many seconds so many more records take, where these took so many milliseconds; `None` where there are none yet.
    pub(crate) fn seconds_for(&self, more: usize, millis: usize) -> Option<usize> {
        let each = more.saturating_mul(millis).checked_div(self.records)?;
        Some(each / 1000)
    }
}

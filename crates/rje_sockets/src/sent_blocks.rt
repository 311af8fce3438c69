//! Which blocks a sending station said.
use bsc_link::Say;
use rje_print::BlockPlace;
use rje_station::SendingStation;

/// Where the outstanding block of a sending station stands, by the turns that were seen of it.
#[derive(Clone, Copy, Debug, PartialEq, Eq)]
pub(crate) struct SentBlocks {
    /// The number of its job, from 1.
    job: usize,
    /// How many blocks of the job were said.
    blocks: usize,
    /// The bytes of the outstanding block.
    length: usize,
}

impl SentBlocks {
    /// No turn was seen yet.
    pub(crate) fn new() -> SentBlocks {
        SentBlocks {
            job: 1,
            blocks: 0,
            length: 0,
        }
    }

    /// This was said: the place of the block, where it was one.
    pub(crate) fn said(&mut self, said: Say) -> Option<BlockPlace> {
        match said {
            Say::Block => self.blocks = self.blocks.saturating_add(1),
            Say::Again => {}
            _ => return None,
        }
        Some(BlockPlace {
            job: self.job,
            block: self.blocks,
            length: self.length,
        })
    }

    /// After the turn the station stands so.
    pub(crate) fn after(&mut self, station: &SendingStation) {
        let job = station.counted().saturating_add(1);
        if job != self.job {
            self.job = job;
            self.blocks = 0;
        }
        self.length = station.outstanding_length();
    }
}

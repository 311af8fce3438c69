//! Which blocks came to a receiving station.
use bsc_link::Sound;
use rje_print::BlockPlace;
use rje_station::{Arrival, Event, ReceivingStation, Trace};

/// Where the block stands that a receiving station accepted last, by the turns that were seen of it.
#[derive(Clone, Copy, Debug, PartialEq, Eq)]
pub(crate) struct ReceivedBlocks {
    /// The number of its job, from 1; 0 where none was accepted.
    job: usize,
    /// How many blocks of the job were accepted.
    blocks: usize,
}

impl ReceivedBlocks {
    /// No turn was seen yet.
    pub(crate) fn new() -> ReceivedBlocks {
        ReceivedBlocks { job: 0, blocks: 0 }
    }

    /// This came to a station that stands so after it: the place of the block, where one was accepted. One that was refused has the place that
    /// it would have had.
    pub(crate) fn came(
        &mut self,
        station: &ReceivingStation,
        arrival: Arrival,
    ) -> Option<BlockPlace> {
        if arrival.sound != Sound::Block {
            return None;
        }
        let place = if arrival.refused {
            self.refused(station)
        } else if is_accepted(station.trace()) {
            *self = self.accepted(station.jobs().len());
            *self
        } else {
            return None;
        };
        Some(BlockPlace {
            job: place.job,
            block: place.blocks,
            length: station.heard_length(),
        })
    }

    /// One more block was accepted, and so many jobs have begun with it.
    fn accepted(self, jobs: usize) -> ReceivedBlocks {
        let before = match jobs == self.job {
            true => self.blocks,
            false => 0,
        };
        ReceivedBlocks {
            job: jobs,
            blocks: before.saturating_add(1),
        }
    }

    /// A block was refused: were it accepted, it would be one of the job that was begun, or the first of the next one.
    fn refused(self, station: &ReceivingStation) -> ReceivedBlocks {
        let begun = station.jobs().len();
        match station.jobs().last() {
            Some(job) if !job.whole => self.accepted(begun),
            _ => self.accepted(begun.saturating_add(1)),
        }
    }
}

/// Whether the last thing that was heard was accepted, by a station's last events.
pub(crate) fn is_accepted(trace: &Trace) -> bool {
    for place in (0..trace.len()).rev() {
        match trace.get(place) {
            Some(Event::Accepted) => return true,
            Some(Event::Heard(_)) => return false,
            _ => {}
        }
    }
    false
}

//! How much a receiving station has received.
use crate::amount::Amount;
use crate::received_blocks::is_accepted;
use bsc_link::Sound;
use rje_files::NO_NAME;
use rje_print::Progress;
use rje_station::{Arrival, ReceivingStation};

/// How much a receiving station has received, by the turns that were seen of it: what it accepted.
#[derive(Clone, Copy, Debug, PartialEq, Eq)]
pub(crate) struct ReceivedAmount {
    /// The blocks that were accepted, and the records of all jobs but the last.
    amount: Amount,
    /// The jobs that have begun.
    jobs: usize,
    /// The records of the last one.
    last: usize,
}

impl ReceivedAmount {
    /// No turn was seen yet.
    pub(crate) fn none() -> ReceivedAmount {
        ReceivedAmount {
            amount: Amount::none(),
            jobs: 0,
            last: 0,
        }
    }

    /// Whether something was received.
    pub(crate) fn has_any(&self) -> bool {
        0 < self.amount.blocks
    }

    /// This came to a station that stands so after it.
    pub(crate) fn after(&mut self, station: &ReceivingStation, arrival: Arrival) {
        if arrival.sound == Sound::Block && is_accepted(station.trace()) {
            self.amount.add_block(station.heard_length());
        }
        if self.jobs < station.jobs().len() {
            self.amount.records = self.amount.records.saturating_add(self.last);
            self.jobs = station.jobs().len();
        }
        self.last = match station.jobs().last() {
            Some(job) => job.records.len(),
            None => 0,
        };
    }

    /// How far the station is, so many milliseconds after the start.
    pub(crate) fn progress(&self, millis: usize) -> Progress {
        Progress {
            job: self.jobs,
            jobs: None,
            name: NO_NAME,
            records: self.amount.records.saturating_add(self.last),
            blocks: self.amount.blocks,
            rate: self.amount.rate(millis),
            left: None,
        }
    }
}

//! How much a sending station has sent.
use crate::amount::Amount;
use rje_files::{JobName, NO_NAME};
use rje_jobs::Job;
use rje_print::Progress;
use rje_station::{Event, SendingStation};

/// How much of its jobs a sending station has sent, by the turns that were seen of it: what is counted.
#[derive(Clone, Copy, Debug, PartialEq, Eq)]
pub(crate) struct SentAmount {
    /// The blocks that are counted, and the records of the jobs that are.
    amount: Amount,
    /// The jobs that are counted.
    jobs: usize,
    /// The records of the counted blocks of the job after them.
    begun: usize,
    /// The same with the outstanding block.
    next: usize,
    /// The bytes of the outstanding block.
    length: usize,
    /// The records of all jobs, once a turn was seen.
    all: Option<usize>,
}

impl SentAmount {
    /// No turn was seen yet.
    pub(crate) fn none() -> SentAmount {
        SentAmount {
            amount: Amount::none(),
            jobs: 0,
            begun: 0,
            next: 0,
            length: 0,
            all: None,
        }
    }

    /// After a turn the station stands so.
    pub(crate) fn after(&mut self, station: &SendingStation) {
        if is_counted(station) {
            self.amount.add_block(self.length);
            self.begun = self.next;
        }
        if self.jobs < station.counted() {
            let records = records_of(station.jobs().get(self.jobs));
            self.amount.records = self.amount.records.saturating_add(records);
            self.jobs = station.counted();
            self.begun = 0;
        }
        self.length = station.outstanding_length();
        self.next = station.next_record();
        if self.all.is_none() {
            self.all = Some(records_of_all(station.jobs()));
        }
    }

    /// How far the station is that stands so, so many milliseconds after the start, and whose jobs have these names, where they are
    /// known.
    pub(crate) fn progress(
        &self,
        station: &SendingStation,
        names: &[JobName],
        millis: usize,
    ) -> Progress {
        let mut amount = self.amount;
        amount.records = amount.records.saturating_add(self.begun);
        let all = self.all.unwrap_or(0);
        let given = station.jobs().len();
        Progress {
            job: self.jobs.saturating_add(1).min(given),
            jobs: Some(given),
            name: name_of(names, self.jobs),
            records: amount.records,
            blocks: amount.blocks,
            rate: amount.rate(millis),
            left: amount.seconds_for(all.saturating_sub(amount.records), millis),
        }
    }
}

/// Whether the last thing that a station noted is that a block was counted.
fn is_counted(station: &SendingStation) -> bool {
    let trace = station.trace();
    match trace.len().checked_sub(1) {
        Some(last) => trace.get(last) == Some(Event::Counted),
        None => false,
    }
}

/// The name at this place, blanks where there is none.
fn name_of(names: &[JobName], place: usize) -> JobName {
    match names.get(place) {
        Some(name) => *name,
        None => NO_NAME,
    }
}

/// How many records the job has, where there is one.
fn records_of(job: Option<&Job>) -> usize {
    match job {
        Some(job) => job.records.len(),
        None => 0,
    }
}

/// How many records these jobs have.
fn records_of_all(jobs: &[Job]) -> usize {
    let mut records: usize = 0;
    for job in jobs {
        records = records.saturating_add(job.records.len());
    }
    records
}

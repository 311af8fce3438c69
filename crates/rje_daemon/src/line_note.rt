//! What a station notes of what it is doing on its line.

use crate::state_file::StateFile;
use rje_jobs::Job;
use rje_station::Station;
use rje_status::{Activity, LineState, TransmissionState, Way};
use rje_store::Disk;
use std::alloc::{AllocError, Global};
use std::net::SocketAddr;
use std::time::Clock;

/// What a station notes in its folder of what it is doing on its line, whenever that changes; and of a transmission in hand once a second.
#[derive(Drop)]
pub(crate) struct LineNote<C, D> {
    clock: C,
    alloc: Global,
    file: StateFile<D>,
    // The address at which it awaits calls, or that it calls; none where there was no memory for it.
    own: Option<String>,
    // What it noted last, if it could.
    state: Option<LineState>,
    // In which second, since 1970.
    noted: u64,
    // Whose transmission is in hand, and since when.
    began: Option<(Way, u64)>,
}

impl<C: Clock + Drop, D: Disk + Drop> LineNote<C, D> {
    /// Of a station that awaits calls at this address, or calls it, which has noted nothing yet.
    pub(crate) fn new(
        clock: C,
        alloc: Global,
        file: StateFile<D>,
        own: Option<String>,
    ) -> LineNote<C, D> {
        LineNote {
            clock,
            alloc,
            file,
            own,
            state: None,
            noted: 0,
            began: None,
        }
    }

    /// It awaits a call.
    pub(crate) fn listens(&mut self) {
        if !self.is_at(Activity::Listening) {
            self.put(Activity::Listening, None, None);
        }
    }

    /// It waits for so many seconds until it calls.
    pub(crate) fn waits(&mut self, seconds: u64) {
        if !self.is_at(Activity::Waiting) {
            let next = self.seconds().saturating_add(seconds);
            self.put(Activity::Waiting, None, Some(next));
        }
    }

    /// It calls the other end.
    pub(crate) fn calls(&mut self) {
        self.put(Activity::Calling, None, None);
    }

    /// It has a connection: with the end at this address, if that called.
    pub(crate) fn connects(&mut self, peer: Option<SocketAddr>) {
        self.put(Activity::Connected, peer, None);
    }

    /// A transmission goes on over this station.
    pub(crate) fn goes_on<'a>(&mut self, station: &Station<'a>) {
        let way = way_of(station);
        let now = self.seconds();
        let since = since_of(self.began, way, now);
        self.began = Some((way, since));
        if now == self.noted {
            return;
        }
        self.noted = now;
        if let Some(state) = &mut self.state {
            state.transmission = Some(transmission_of(station, way, since));
            self.file.note(state);
        }
    }

    /// No transmission is in hand.
    pub(crate) fn rests(&mut self) {
        self.began = None;
        if let Some(state) = &mut self.state {
            if state.transmission.take().is_some() {
                self.file.note(state);
            }
        }
    }

    /// It ends.
    pub(crate) fn ends(&mut self) {
        self.state = None;
        self.file.clear();
    }

    /// Whether it noted last that it does this.
    fn is_at(&self, activity: Activity) -> bool {
        match &self.state {
            Some(state) => state.state == activity,
            None => false,
        }
    }

    /// Notes that it does this from now on. Where there is no memory for it nothing is noted.
    fn put(&mut self, activity: Activity, peer: Option<SocketAddr>, next_call: Option<u64>) {
        self.began = None;
        self.noted = self.seconds();
        let Ok(address) = self.address_of(peer) else {
            self.ends();
            return;
        };
        let state = LineState {
            state: activity,
            since: self.noted,
            address,
            next_call,
            transmission: None,
        };
        self.file.note(&state);
        self.state = Some(state);
    }

    /// The address of the end that called, and else its own.
    fn address_of(&self, peer: Option<SocketAddr>) -> Result<String, AllocError> {
        match (peer, &self.own) {
            (Some(peer), _) => format!(in self.alloc; "{peer}"),
            (None, Some(own)) => String::from_str(self.alloc, own.as_str()),
            (None, None) => Err(AllocError),
        }
    }

    /// The whole seconds since 1970; 0 if they can't be had.
    fn seconds(&self) -> u64 {
        match self.clock.since_1970() {
            Ok(passed) => passed.as_secs(),
            Err(_) => 0,
        }
    }
}

/// Since when a transmission of this one has been in hand, where such a one was, or is now.
fn since_of(began: Option<(Way, u64)>, way: Way, now: u64) -> u64 {
    match began {
        Some((before, since)) => { if before == way { since } else { now } }
        None => now,
    }
}

/// Whose transmission goes on over this station.
fn way_of<'a>(station: &Station<'a>) -> Way {
    if station.is_receiving() {
        Way::In
    } else {
        Way::Out
    }
}

/// How far this transmission is, which has been in hand since then.
fn transmission_of<'a>(station: &Station<'a>, way: Way, since: u64) -> TransmissionState {
    match way {
        Way::Out => {
            let sender = station.sender();
            let (jobs, counted) = (sender.jobs(), sender.counted());
            TransmissionState {
                way,
                since,
                job: counted.saturating_add(1).min(jobs.len()) as u64,
                jobs: Some(jobs.len() as u64),
                records: records_of(&jobs[..counted.min(jobs.len())]),
            }
        }
        Way::In => {
            let jobs = station.receiver().jobs();
            TransmissionState {
                way,
                since,
                job: jobs.len() as u64,
                jobs: None,
                records: records_of(jobs),
            }
        }
    }
}

/// How many records these jobs have.
fn records_of(jobs: &[Job]) -> u64 {
    let mut records: u64 = 0;
    for job in jobs {
        records = records.saturating_add(job.records.len() as u64);
    }
    records
}

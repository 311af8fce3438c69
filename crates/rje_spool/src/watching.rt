//! What is told of a transmission while it goes on.
ghost use Rattle.std.specs.Prelude.{◌≡◌, ◌≤◌, None, false};

use crate::console::Console;
use crate::given_files::GivenFiles;
use crate::notice::{JobLabel, Notice};
use bsc_link::{Say, Sound};
use rje_files::NO_NAME;
use rje_print::Progress;
use rje_station::Station;
use std::io::Write;
use std::time::{Clock, Duration, Instant};

/// After so many seconds it is told that a job comes still.
const STILL: u64 = 30;

/// What was told of a transmission, and how far it is.
#[derive(Drop)]
pub(crate) struct Watching {
    // The bid was told.
    bid: bool,
    // The jobs that were told as sent, as they began.
    sending: usize,
    // The jobs that were told as received, as they began.
    receiving: usize,
    // The blocks that came.
    blocks: usize,
    // When something that comes was told last.
    told: Option<Instant>,
}

impl Watching {
    /// Nothing was told yet.
    pub(crate) fn new() -> Watching {
        Watching {
            bid: false,
            sending: 0,
            receiving: 0,
            blocks: 0,
            told: None,
        }
    }

    /// A turn of this station is next, whose jobs are of these files.
    pub(crate) fn look_on<'a, C: Clock, W: Write, L: Write>(
        &mut self,
        station: &Station<'a>,
        files: &GivenFiles,
        console: &mut Console<C, W, L>,
    ) {
        if station.is_receiving() {
            self.look_on_receiving(station, console);
        } else {
            self.look_on_sending(station, files, console);
        }
    }

    /// A turn of its own is next.
    fn look_on_sending<'a, C: Clock, W: Write, L: Write>(
        &mut self,
        station: &Station<'a>,
        files: &GivenFiles,
        console: &mut Console<C, W, L>,
    ) {
        match station.due() {
            Say::Bid if !self.bid => {
                self.bid = true;
                console.tell(Notice::Bid);
            }
            Say::Block | Say::Again | Say::Ask => self.tell_sending(station, files, console),
            _ => {}
        }
    }

    /// A block of a job is due: the job is told where it wasn't yet.
    fn tell_sending<'a, C: Clock, W: Write, L: Write>(
        &mut self,
        station: &Station<'a>,
        files: &GivenFiles,
        console: &mut Console<C, W, L>,
    )
        ensures once { self.old.sending ≤ self.new.sending }
    {
        let sender = station.sender();
        let counted = sender.counted();
        if counted < self.sending || counted >= sender.jobs().len() {
            return;
        }
        self.sending = counted.saturating_add(1);
        if let Some(file) = files.of(counted) {
            let label = JobLabel::of(&sender.jobs()[counted]);
            console.tell(Notice::Sending(file.name.as_str(), file.label_of(counted), label));
        }
    }

    /// Something of the other end's transmission came.
    fn look_on_receiving<'a, C: Clock, W: Write, L: Write>(
        &mut self,
        station: &Station<'a>,
        console: &mut Console<C, W, L>,
    ) {
        let receiver = station.receiver();
        let came = receiver.arrival();
        if came.is_some_and(|came| came.sound == Sound::Block && !came.refused) {
            self.blocks = self.blocks.saturating_add(1);
        }
        match receiver.jobs().last() {
            Some(job) if !job.whole => self.tell_receiving(station, console),
            Some(_) => {}
            None => self.receiving = 0,
        }
    }

    /// A job comes: it is told where it wasn't yet, and how far it is where a while has passed.
    fn tell_receiving<'a, C: Clock, W: Write, L: Write>(
        &mut self,
        station: &Station<'a>,
        console: &mut Console<C, W, L>,
    ) {
        let jobs = station.receiver().jobs().len();
        if self.receiving < jobs {
            self.receiving = jobs;
            self.blocks = 1;
            self.told = Instant::now(console.stamps().clock()).ok();
            console.tell(Notice::Receiving(jobs));
        }
        self.tell_still(station, console);
    }

    /// Shows how far it is, and tells it where a while has passed.
    fn tell_still<'a, C: Clock, W: Write, L: Write>(
        &mut self,
        station: &Station<'a>,
        console: &mut Console<C, W, L>,
    ) {
        let progress = self.progress(station);
        console.show(&progress);
        if self.is_due(console.stamps().clock()) {
            self.told = Instant::now(console.stamps().clock()).ok();
            console.tell(Notice::ReceivingStill {
                job: progress.job,
                records: progress.records,
                blocks: progress.blocks,
            });
        }
    }

    /// Whether a while has passed since something was told.
    fn is_due<C: Clock>(&self, clock: &C) -> bool
        ensures first { self.now.told ≡ None → result ≡ false }
    {
        let Some(told) = self.told else {
            return false;
        };
        match told.elapsed(clock) {
            Ok(passed) => passed >= Duration::from_secs(STILL),
            Err(_) => false,
        }
    }

    /// How far the other end's transmission is.
    fn progress<'a>(&self, station: &Station<'a>) -> Progress {
        let jobs = station.receiver().jobs();
        let records = match jobs.last() {
            Some(job) => job.records.len(),
            None => 0,
        };
        Progress {
            job: jobs.len(),
            jobs: None,
            name: NO_NAME,
            records,
            blocks: self.blocks,
            rate: 0,
            left: None,
        }
    }
}

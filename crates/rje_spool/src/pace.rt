//! How much a station sends before it leaves the line to the other end.
ghost use Rattle.std.specs.Prelude.{◌≡◌, ◌/◌, None, false};
ghost use Rattle.std.specs.Duration.{as_nanos};
ghost use Rattle.rje_spool.specs.Pace.{has_as_much, most_after as most_jobs_after};

use std::time::{Clock, Duration, Instant};

/// The most jobs of the first transmission.
const FIRST_JOBS: usize = 64;

/// The most jobs of any transmission.
pub(crate) const MOST_JOBS: usize = 512;

/// So many cards take the place of one job.
const JOB_CARDS: usize = 100;

/// How much a station sends in one transmission: more after one that was over at once, and less after one for which the other end waited long.
#[derive(Drop)]
pub(crate) struct Pace {
    // The most jobs of a transmission.
    most: usize,
    // When the last one was given its jobs, where it was given as much as it might.
    began: Option<Instant>,
}

impl Pace {
    /// That of a station that hasn't sent anything.
    pub(crate) fn new() -> Pace
        ensures most { result.most ≡ 64 }
    {
        Pace {
            most: FIRST_JOBS,
            began: None,
        }
    }

    /// Whether a transmission that has so many jobs, of so many cards, is given no more files.
    pub(crate) fn is_full(&self, jobs: usize, cards: usize) -> bool
        ensures { result ≡ has_as_much self.now.most jobs cards }
    {
        self.most <= jobs || self.most.saturating_mul(JOB_CARDS) <= cards
    }

    /// A transmission begins that was given so many jobs, of so many cards.
    pub(crate) fn begin<C: Clock>(&mut self, clock: &C, jobs: usize, cards: usize)
        ensures most { self.new.most ≡ self.old.most }
        ensures less { has_as_much self.old.most jobs cards ≡ false → self.new.began ≡ None }
    {
        self.began = match self.is_full(jobs, cards) {
            true => Instant::now(clock).ok(),
            false => None,
        };
    }

    /// All jobs of that transmission were counted.
    pub(crate) fn end<C: Clock>(&mut self, clock: &C)
        ensures once { self.new.began ≡ None }
        ensures less { self.old.began ≡ None → self.new.most ≡ self.old.most }
    {
        if let Some(began) = self.began.take() {
            if let Ok(took) = began.elapsed(clock) {
                self.most = most_after(self.most, took);
            }
        }
    }
}

/// The most jobs of a transmission after one that might have so many, had them, and took so long.
fn most_after(most: usize, took: Duration) -> usize
    ensures { result ≡ most_jobs_after (as_nanos took / 1_000_000_000) most }
{
    match took.as_secs() {
        0 => most.saturating_mul(2).min(MOST_JOBS),
        1..=59 => most,
        _ => (most / 2).max(1),
    }
}

//! When a station stops sending, and when it tries again.
ghost use Rattle.std.specs.Prelude.{◌≡◌, ◌↔◌, ◌+◌, IsTrue, is_some, min, nat_le, true, false};
ghost use Rattle.rje_spool.specs.Pace.{longer_wait as longer_wait_after};

use std::time::{Clock, Duration, Instant};

/// After so many files in doubt in a row a station stops sending.
const MOST_DOUBTS: u32 = 3;

/// How many seconds pass before it tries one file again.
const FIRST_WAIT: u64 = 60;

/// Whether a station sends: it doesn't after some files in doubt in a row, and tries one again after a while.
#[derive(Drop)]
pub(crate) struct Brake {
    // How many files are in doubt since one was counted.
    doubts: u32,
    // How many seconds pass until one is tried, and since when; where the clock can't be read, none is.
    wait: u64,
    since: Option<Instant>,
    // One is tried.
    tries: bool,
}

impl Brake {
    /// That of a station that hasn't sent anything.
    pub(crate) fn new() -> Brake
        ensures sends { result.doubts ≡ 0 }
        ensures wait { result.wait ≡ 60 }
    {
        Brake {
            doubts: 0,
            wait: FIRST_WAIT,
            since: None,
            tries: false,
        }
    }

    /// Whether the station has stopped.
    pub(crate) fn is_on(&self) -> bool
        ensures { result ≡ nat_le 3 self.now.doubts }
    {
        MOST_DOUBTS <= self.doubts
    }

    /// A file is in doubt. Whether the station stops by that.
    pub(crate) fn doubted<C: Clock>(&mut self, clock: &C) -> bool
        ensures doubts { self.new.doubts ≡ min (self.old.doubts + 1) 4294967295 }
        ensures wait { self.old.tries ≡ true → self.new.wait ≡ longer_wait_after self.old.wait }
        ensures same { self.old.tries ≡ false → self.new.wait ≡ self.old.wait }
        ensures tried { self.new.tries ≡ false }
        ensures stops { IsTrue result ↔ (self.old.doubts ≡ 2) }
    {
        let was_on = self.is_on();
        self.doubts = self.doubts.saturating_add(1);
        if self.tries {
            self.wait = longer_wait(self.wait);
        }
        self.tries = false;
        self.since = Instant::now(clock).ok();
        self.is_on() && !was_on
    }

    /// A file was counted, or none is in doubt any more: the station sends.
    pub(crate) fn release(&mut self)
        ensures sends { self.new.doubts ≡ 0 }
        ensures wait { self.new.wait ≡ 60 }
        ensures tries { self.new.tries ≡ false }
    {
        self.doubts = 0;
        self.wait = FIRST_WAIT;
        self.tries = false;
    }

    /// Whether so much time has passed that one file is tried.
    pub(crate) fn is_over<C: Clock>(&self, clock: &C) -> bool
        ensures known { result ≡ true → is_some self.now.since ≡ true }
    {
        let Some(since) = self.since else {
            return false;
        };
        match since.elapsed(clock) {
            Ok(passed) => Duration::from_secs(self.wait) <= passed,
            Err(_) => false,
        }
    }

    /// A transmission begins.
    pub(crate) fn begin(&mut self)
        ensures tries { self.new.tries ≡ nat_le 3 self.old.doubts }
        ensures rest { self.new ≡ record self.old { tries = self.new.tries } }
    {
        self.tries = self.is_on();
    }
}

/// How many seconds pass before the next file is tried, after one that was tried so late is in doubt too.
fn longer_wait(wait: u64) -> u64
    ensures { result ≡ longer_wait_after wait }
{
    wait.saturating_mul(2).min(3600)
}

//! When a station calls again.
ghost use Rattle.std.specs.Prelude.{◌≡◌, ◌*◌, None, false, true};
ghost use Rattle.std.specs.Duration.{as_nanos};

use std::time::{Clock, Duration, Instant};

/// When a station calls again: so many seconds after it did last, or after its last connection.
#[derive(Drop)]
pub(crate) struct CallTimes {
    every: Duration,
    last: Option<Instant>,
}

impl CallTimes {
    /// It hasn't called yet.
    pub(crate) fn new(every: u32) -> CallTimes
        ensures every { as_nanos result.every ≡ every * 1_000_000_000 }
        ensures none { result.last ≡ None }
    {
        CallTimes {
            every: Duration::from_secs(u64::from(every)),
            last: None,
        }
    }

    /// Whether it is time to call. Where the clock can't be read it is.
    pub(crate) fn is_due<C: Clock>(&self, clock: &C) -> bool
        ensures first { self.now.last ≡ None → result ≡ true }
    {
        let Some(last) = self.last else {
            return true;
        };
        match last.elapsed(clock) {
            Ok(passed) => passed >= self.every,
            Err(_) => true,
        }
    }

    /// In how many seconds it calls. Where the clock can't be read it calls now.
    pub(crate) fn seconds_left<C: Clock>(&self, clock: &C) -> u64
        ensures first { self.now.last ≡ None → result ≡ 0 }
    {
        let Some(last) = self.last else {
            return 0;
        };
        match last.elapsed(clock) {
            Ok(passed) => self.every.as_secs().saturating_sub(passed.as_secs()),
            Err(_) => 0,
        }
    }

    /// It called now, or its connection is over now; or it didn't call.
    pub(crate) fn note<C: Clock>(&mut self, clock: &C, called: bool)
        ensures every { self.new.every ≡ self.old.every }
        ensures uncalled { called ≡ false → self.new.last ≡ self.old.last }
    {
        if called {
            self.last = Instant::now(clock).ok();
        }
    }
}

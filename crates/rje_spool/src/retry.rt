//! When what failed is tried again.
ghost use Rattle.std.specs.Prelude.{◌≡◌, None, true, false};

use std::time::{Clock, Duration, Instant};

/// So many seconds pass before it is tried again.
const PAUSE: u64 = 10;

/// When something that failed is tried again: some seconds after it was tried last.
#[derive(Drop)]
pub(crate) struct Retry {
    tried: Option<Instant>,
}

impl Retry {
    /// It wasn't tried yet.
    pub(crate) fn new() -> Retry
        ensures { result.tried ≡ None }
    {
        Retry { tried: None }
    }

    /// It was tried now.
    pub(crate) fn note<C: Clock>(&mut self, clock: &C) {
        self.tried = Instant::now(clock).ok();
    }

    /// Whether it is time to try, which is noted as done now. If the clock can't be read it is.
    pub(crate) fn is_due<C: Clock>(&mut self, clock: &C) -> bool
        ensures first { self.old.tried ≡ None → result ≡ true }
        ensures waits { result ≡ false → self.new.tried ≡ self.old.tried }
    {
        let is_due = match self.tried {
            Some(tried) => match tried.elapsed(clock) {
                Ok(passed) => Duration::from_secs(PAUSE) <= passed,
                Err(_) => true,
            },
            None => true,
        };
        if is_due {
            self.note(clock);
        }
        is_due
    }
}

//! What is told of callers that aren't let in.
ghost use Rattle.std.specs.Prelude.{◌≡◌, None, false, true};

use std::time::{Clock, Duration, Instant};

/// So many seconds pass between two lines at least.
const PAUSE: u64 = 60;

/// The callers that aren't let in: one of them is told in a minute, so that they don't fill the log.
#[derive(Drop)]
pub(crate) struct Strangers {
    // When one was told last.
    told: Option<Instant>,
}

impl Strangers {
    /// None called yet.
    pub(crate) fn new() -> Strangers
        ensures none { result.told ≡ None }
    {
        Strangers { told: None }
    }

    /// One called: whether that is told. Where the clock can't be read it is.
    pub(crate) fn is_told<C: Clock>(&mut self, clock: &C) -> bool
        ensures first { self.old.told ≡ None → result ≡ true }
        ensures untold { result ≡ false → self.new.told ≡ self.old.told }
    {
        let is_due = match self.told {
            Some(told) => match told.elapsed(clock) {
                Ok(passed) => Duration::from_secs(PAUSE) <= passed,
                Err(_) => true,
            },
            None => true,
        };
        if is_due {
            self.told = Instant::now(clock).ok();
        }
        is_due
    }
}

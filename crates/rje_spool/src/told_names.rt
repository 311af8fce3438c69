//! How many names of out/ were reported lately: whoever may put files there can't fill the log.
ghost use Rattle.std.specs.Prelude.{◌≡◌, ◌≤◌, ◌<◌, None, false};
ghost use Rattle.rje_spool.specs.declared.told_names.Told.TheVariants as told;

use std::time::{Clock, Duration, Instant};

/// So many names are reported in one stretch of time.
const MOST: u32 = 100;

/// How long such a stretch is, in seconds.
const STRETCH: u64 = 60;

/// Whether a name is reported.
#[derive(Clone, Copy, Debug, PartialEq, Eq)]
pub(crate) enum Told {
    /// It is.
    Name,
    /// It is reported instead that no more are for now.
    NoMore,
    /// Nothing is.
    Nothing,
}

/// How many names were reported since some time.
#[derive(Drop)]
pub(crate) struct ToldNames {
    count: u32,
    since: Option<Instant>,
}

impl ToldNames {
    /// None were.
    pub(crate) fn new() -> ToldNames
        ensures none { result.count ≡ 0 }
        ensures since { result.since ≡ None }
    {
        ToldNames {
            count: 0,
            since: None,
        }
    }

    /// Whether one more is reported, which is noted. After a minute all begins anew; if the clock can't be read it does so at once.
    pub(crate) fn next<C: Clock>(&mut self, clock: &C) -> Told
        ensures few { self.old.count < 100 → result ≡ told.Name }
    {
        if self.is_over(clock) {
            self.count = 0;
            self.since = Instant::now(clock).ok();
        }
        self.count = self.count.saturating_add(1);
        if self.count <= MOST {
            Told::Name
        } else if self.count == MOST + 1 {
            Told::NoMore
        } else {
            Told::Nothing
        }
    }

    /// Whether the stretch of time is over, or has not begun.
    fn is_over<C: Clock>(&self, clock: &C) -> bool
        ensures { result ≡ false → self.now.since ≡ None → ⊥ }
    {
        match self.since {
            Some(since) => match since.elapsed(clock) {
                Ok(passed) => Duration::from_secs(STRETCH) <= passed,
                Err(_) => true,
            },
            None => true,
        }
    }
}

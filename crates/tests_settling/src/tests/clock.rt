//! A clock that stands still.
use std::io;
use std::time::{Clock, Duration};

/// A clock that shows one moment of 28 November 2026 for ever.
#[derive(Clone, Copy, Drop)]
pub(super) struct StoppedClock;

impl Clock for StoppedClock {
    fn monotonic(&self) -> io::Result<Duration> {
        self.since_1970()
    }

    fn since_1970(&self) -> io::Result<Duration> {
        Ok(Duration::from_secs(1795871109))
    }
}

//! The time of day, as it is in lines and in names.

use jiff::Timestamp;
use jiff::tz::Offset;
use std::alloc::{AllocError, Global};
use std::time::{Clock, Duration};

/// What a name has where the time can't be had.
const NO_STAMP: &str = "00000000T000000Z";

/// Times of a clock, in UTC.
#[derive(Drop)]
pub struct Stamps<C> {
    clock: C,
    alloc: Global,
}

impl<C: Clock> Stamps<C> {
    /// Times of this clock.
    pub fn new(clock: C, alloc: Global) -> Stamps<C> {
        Stamps { clock, alloc }
    }

    /// The clock.
    pub fn clock(&self) -> &C {
        &self.clock
    }

    /// The date and the time of day, as `2026-11-28 03:15:00`; none where it can't be had.
    pub fn time(&self) -> Option<String> {
        self.time_in("%Y-%m-%d %H:%M:%S")
    }

    /// The same for a name, as `20261128T031500Z`, and noughts where it can't be had.
    pub fn stamp(&self) -> Result<String, AllocError> {
        match self.time_in("%Y%m%dT%H%M%SZ") {
            Some(stamp) => Ok(stamp),
            None => String::from_str(self.alloc, NO_STAMP),
        }
    }

    /// The whole seconds since 1970; none if they can't be had.
    pub fn seconds(&self) -> Option<i64> {
        let since = self.clock.since_1970().ok()?;
        seconds_of(since)
    }

    fn time_in(&self, format: &str) -> Option<String> {
        let now = Timestamp::from_second(self.seconds()?).ok()?;
        Offset::UTC
            .to_datetime(now)
            .strftime(self.alloc, format.as_bytes())
            .ok()
    }
}

/// The whole seconds of a time.
fn seconds_of(time: Duration) -> Option<i64> {
    i64::try_from(time.as_secs()).ok()
}

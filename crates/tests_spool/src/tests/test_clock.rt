//! A clock of the tests' own.
use std::cell::Cell;
use std::io::{self, ErrorKind};
use std::time::{Clock, Duration};

/// A clock that shows what a test sets it to, in whole seconds since 1970, or can't be read.
#[derive(Clone, Copy)]
pub(super) struct TestClock<'a> {
    seconds: &'a Cell<Option<u64>>,
}

impl<'a> TestClock<'a> {
    /// A clock that shows this.
    pub(super) fn new(seconds: &'a Cell<Option<u64>>) -> TestClock<'a> {
        TestClock { seconds }
    }
}

impl Clock for TestClock<'_> {
    fn monotonic(&self) -> io::Result<Duration> {
        self.since_1970()
    }

    fn since_1970(&self) -> io::Result<Duration> {
        match self.seconds.get() {
            Some(seconds) => Ok(Duration::from_secs(seconds)),
            None => Err(io::Error::from(ErrorKind::Unsupported)),
        }
    }
}

//! What couldn't be kept, as long as the station receives nothing for that.
ghost use Rattle.std.specs.Prelude.{◌≡◌, None, Some, true, false};

use crate::retry::Retry;
use std::time::Clock;

/// The length of the file of a job that came and couldn't be kept, in bytes: the station receives nothing until a file of that length can be. So the
/// other end has one job in doubt by that, and not one for each call.
#[derive(Drop)]
pub(crate) struct Unkept {
    len: Option<u64>,
    // When it is tried whether that can be kept.
    retry: Retry,
}

impl Unkept {
    /// All that came was kept.
    pub(crate) fn new() -> Unkept
        ensures none { result.len ≡ None }
    {
        Unkept {
            len: None,
            retry: Retry::new(),
        }
    }

    /// A file of this length couldn't be kept now.
    pub(crate) fn add<C: Clock>(&mut self, len: u64, clock: &C)
        ensures { self.new.len ≡ Some len }
    {
        self.len = Some(len);
        self.retry.note(clock);
    }

    /// The length of that file, if there is one.
    pub(crate) fn len(&self) -> Option<u64>
        ensures { result ≡ self.now.len }
    {
        self.len
    }

    /// Whether it is time to try, which is noted as done now. If the clock can't be read it is.
    pub(crate) fn tries<C: Clock>(&mut self, clock: &C) -> bool
        ensures len { self.new.len ≡ self.old.len }
        ensures first { self.old.retry.tried ≡ None → result ≡ true }
        ensures waits { result ≡ false → self.new.retry.tried ≡ self.old.retry.tried }
    {
        self.retry.is_due(clock)
    }
}

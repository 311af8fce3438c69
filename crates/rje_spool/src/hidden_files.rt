//! The files of out/ that may have a hidden name, since they were being taken over.
ghost use Rattle.std.specs.Prelude.{◌≡◌, [], None, true, false, string_bytes};

use crate::retry::Retry;
use std::alloc::Global;
use std::time::Clock;

/// Whether files of out/ may have a hidden name, and when it is tried to give them back the one that they had.
#[derive(Drop)]
pub(crate) struct HiddenFiles {
    may_be: bool,
    retry: Retry,
    // The hidden name that was tried last, after which the next try begins.
    last: String,
}

impl HiddenFiles {
    /// Those of a station that begins: it may have left some when it was killed.
    pub(crate) fn new(alloc: Global) -> HiddenFiles
        ensures may_be { result.may_be ≡ true }
        ensures untried { result.retry.tried ≡ None }
        ensures first { string_bytes result.last ≡ [] }
    {
        HiddenFiles {
            may_be: true,
            retry: Retry::new(),
            last: String::new(alloc),
        }
    }

    /// One may have been left now. If none was before, it is tried after a pause.
    pub(crate) fn add<C: Clock>(&mut self, clock: &C)
        ensures { self.new.may_be ≡ true }
    {
        if !self.may_be {
            self.retry.note(clock);
        }
        self.may_be = true;
    }

    /// Whether it is time to give them their names back, which is noted as done now.
    pub(crate) fn tries<C: Clock>(&mut self, clock: &C) -> bool
        ensures none { self.old.may_be ≡ false → result ≡ false }
        ensures first { self.old.may_be ≡ true → self.old.retry.tried ≡ None → result ≡ true }
        ensures may_be { self.new.may_be ≡ self.old.may_be }
        ensures last { self.new.last ≡ self.old.last }
    {
        self.may_be && self.retry.is_due(clock)
    }

    /// The hidden name that was tried last.
    pub(crate) fn last(&self) -> &str
        ensures { result.now ≡ string_bytes self.now.last }
    {
        self.last.as_str()
    }

    /// That was done, this name was the last, and some are left or none.
    pub(crate) fn left(&mut self, is_left: bool, last: String)
        ensures { self.new ≡ record self.old { may_be = is_left; last = last } }
    {
        self.may_be = is_left;
        self.last = last;
    }
}

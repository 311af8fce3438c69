//! A name in settle/.
ghost use Rattle.std.specs.Prelude.{◌≡◌, ◌≢◌, ◌≤◌, length, MatchOption};
ghost use Rattle.rje_settle.specs.declared.settle_name.SettleName.{SettleName as Named};
ghost use Rattle.rje_settle.specs.Names.{CanBeNamed, name_text};

use crate::counted::push_counted;
use crate::name_reading::{push_place, read_promise, read_receipt};
use crate::number::{number_of, push, push_number};
use crate::{Promise, Receipt};
use arrayvec::ArrayVec;

/// The most bytes of a name in settle/.
pub const MAX_NAME: usize = 96;

/// A name in settle/: it says all, and what it is a name of is empty, or a job.
#[derive(Clone, Copy, Debug, PartialEq, Eq)]
pub enum SettleName {
    /// The other end is known to have kept this. It names an empty file.
    Sent(Receipt),
    /// A job is promised. It is a second name of the job's file.
    Out(Promise),
    /// This was kept of the other end's jobs. It names an empty file.
    Kept(Receipt),
    /// The job of this number of the other end's is on disk, until it gets its name in in/.
    Come(u64),
}

impl SettleName {
    /// Its text, in ASCII.
    #[tactic(auto, unfolding(crate::specs::Names::name_text))]
    pub fn text(self) -> ArrayVec<u8, MAX_NAME>
        ensures { result.items ≡ name_text self }
    {
        let mut text = ArrayVec::new();
        match self {
            SettleName::Sent(receipt) => {
                push(&mut text, b"sent-");
                push_counted(&mut text, receipt, b'-');
            }
            SettleName::Out(promise) => {
                push(&mut text, b"out-");
                push_counted(&mut text, promise.receipt, b'-');
                push_place(&mut text, promise.place);
            }
            SettleName::Kept(receipt) => {
                push(&mut text, b"kept-");
                push_counted(&mut text, receipt, b'-');
            }
            SettleName::Come(number) => {
                push(&mut text, b"come-");
                push_number(&mut text, number);
            }
        }
        text
    }

    /// The name that a text is; `None` if it is none, as with a leading zero, a sign or an
    /// upper-case digit.
    #[tactic(auto, unfolding(crate::specs::Names::name_text))]
    pub fn read(text: &[u8]) -> Option<Self>
        ensures { MatchOption result ((name : Named) → CanBeNamed name → text.now ≢ name_text name)
            (λ name. (text.now ≡ name_text name) × CanBeNamed name) }
    {
        if let Some(rest) = text.strip_prefix(b"sent-".as_slice()) {
            return read_receipt(rest).map(SettleName::Sent);
        }
        if let Some(rest) = text.strip_prefix(b"kept-".as_slice()) {
            return read_receipt(rest).map(SettleName::Kept);
        }
        if let Some(rest) = text.strip_prefix(b"out-".as_slice()) {
            return read_promise(rest).map(SettleName::Out);
        }
        let Some(rest) = text.strip_prefix(b"come-".as_slice()) else {
            return None;
        };
        let Some(number) = number_of(rest) else {
            return None;
        };
        Some(SettleName::Come(number))
    }
}

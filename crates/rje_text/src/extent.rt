//! Where one of several records stands.
ghost use Rattle.std.specs.Prelude.{◌≡◌, ◌≤◌, length, take, drop};
ghost use Rattle.rje_text.specs.Packed.{IsWithin, record_of_extent};

use crate::spelling::append;
use crate::{Action, Record};
use arrayvec::ArrayVec;

/// The place of the data of one of several records in the bytes that hold them all, and its action.
#[derive(Clone, Copy)]
pub(crate) struct Extent {
    pub(crate) start: usize,
    pub(crate) length: u8,
    pub(crate) action: Action,
}

impl Extent {
    /// The data that stand here.
    pub(crate) fn data<'a>(&self, bytes: &'a [u8]) -> &'a [u8]
        requires { IsWithin bytes.now self.now }
        ensures data { result.now ≡ take self.now.length (drop self.now.start bytes.now) }
        ensures limit { length result.now ≤ 144 }
    {
        let (_, rest) = bytes.split_at(self.start);
        let (data, _) = rest.split_at(usize::from(self.length));
        data
    }

    /// The record that stands here.
    pub(crate) fn record(&self, bytes: &[u8]) -> Record
        requires { IsWithin bytes.now self.now }
        ensures { result ≡ record_of_extent bytes.now self.now }
    {
        let mut data = ArrayVec::new();
        append(&mut data, self.data(bytes));
        Record {
            action: self.action,
            bytes: data,
        }
    }
}

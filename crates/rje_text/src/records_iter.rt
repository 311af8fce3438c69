//! Records, one after another.
ghost use Rattle.std.specs.Prelude.{◌≡◌, length};
ghost use Rattle.std.specs.List.{All};
ghost use Rattle.rje_text.specs.Packed.{IsWithin, records_of_extents};

use crate::Record;
use crate::extent::Extent;
use std::marker::Model;

/// Records, one after another. Contracts see the list of those that are left.
#[derive(Drop)]
pub struct RecordsIter<'a> {
    bytes: &'a [u8],
    rest: &'a [Extent],
}

impl<'a> Model for RecordsIter<'a> {
    ghost use Rattle.std.specs.Prelude.{List};
    ghost use Rattle.std.specs.List.{All};
    ghost use Rattle.rje_text.specs.declared.record.Record.{Record as Item};
    ghost use Rattle.rje_text.specs.Packed.{IsWithin, records_of_extents};

    ghost Value = { List Item };

    ghost view = { λ records. records_of_extents records.bytes.now records.rest.now };

    ghost invariant = { λ records. All (IsWithin records.bytes.now) records.rest.now };
}

impl<'a> RecordsIter<'a> {
    pub(crate) fn new(bytes: &'a [u8], rest: &'a [Extent]) -> Self
        requires { All (IsWithin bytes.now) rest.now }
        ensures { result ≡ records_of_extents bytes.entry.now rest.entry.now }
    {
        RecordsIter { bytes, rest }
    }

    /// How many records are left.
    pub fn len(&self) -> usize
        ensures count { result ≡ length self.now }
    {
        self.rest.len()
    }
}

impl Iterator for RecordsIter<'_> {
    type Item = Record;

    ghost use Rattle.std.specs.Iterator.{YieldsFirst, item_count};

    ghost next_gives = { YieldsFirst (λ records. records) };

    ghost remaining = { item_count (λ records. records) };

    fn next(&mut self) -> Option<Record> {
        if self.rest.is_empty() {
            return None;
        }
        let item = self.rest[0].record(self.bytes);
        let (_, others) = self.rest.split_at(1);
        self.rest = others;
        Some(item)
    }
}

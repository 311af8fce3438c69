//! A record that is in the value itself.
ghost use Rattle.std.specs.Prelude.{◌≡◌, ◌≤◌, ◌∷◌, [], length, drop, IfOk};
ghost use Rattle.rje_text.specs.Records.{record_of_data};

use crate::extent::Extent;
use crate::packed_records::PackedRecords;
use crate::spelling::append;
use crate::{Action, MAX_RECORD, Record, RecordsIter};
use arrayvec::ArrayVec;
use std::alloc::{AllocError, Global};
use std::marker::Model;
use std::slice;

/// The most data bytes of a record that is in the value itself.
pub(crate) const MAX_SHORT: usize = 24;

/// One record of few data bytes, which takes no memory beside this value.
#[derive(Drop)]
pub(crate) struct ShortRecord {
    bytes: ArrayVec<u8, MAX_SHORT>,
    extent: Extent,
    // Of the memory for more records.
    alloc: Global,
}

impl Model for ShortRecord {
    ghost use Rattle.rje_text.specs.declared.record.Record.{Record as Item};
    ghost use Rattle.rje_text.specs.Packed.{IsWithin, record_of_extent};

    ghost Value = { Item };

    ghost view = { λ r. record_of_extent r.bytes.items r.extent };

    ghost invariant = { λ r. IsWithin r.bytes.items r.extent };
}

impl ShortRecord {
    /// The record of this action and these data.
    #[inline(never)]
    pub(crate) fn of(alloc: Global, action: Action, items: &[u8]) -> ShortRecord
        requires limit { length items.now ≤ MAX_SHORT }
        ensures record { result ≡ record_of_data action items.now }
    {
        let mut bytes = ArrayVec::new();
        append(&mut bytes, items);
        let extent = Extent {
            start: 0,
            length: items.len() as u8,
            action,
        };
        ShortRecord {
            bytes,
            extent,
            alloc,
        }
    }

    /// Its action and its data.
    pub(crate) fn data(&self) -> (Action, &[u8])
        ensures limit { length result.1.now ≤ 144 }
        ensures record { record_of_data result.0 result.1.now ≡ self.now }
    {
        let data = self.extent.data(self.bytes.as_slice());
        (self.extent.action, data)
    }

    /// It as a record.
    pub(crate) fn record(&self) -> Record
        ensures record { result ≡ self.now }
    {
        self.extent.record(self.bytes.as_slice())
    }

    /// This record alone, or none after it.
    pub(crate) fn iter_from(&self, place: usize) -> RecordsIter<'_>
        ensures rest { result ≡ drop place (self.now ∷ []) }
    {
        let (_, rest) = slice::from_ref(&self.extent).split_at(place.min(1));
        RecordsIter::new(self.bytes.as_slice(), rest)
    }

    /// The allocator of the memory for more.
    pub(crate) fn alloc(&self) -> Global {
        self.alloc
    }

    /// It, with memory for more records after it.
    pub(crate) fn packed(&self) -> Result<PackedRecords, AllocError>
        ensures record { IfOk result (λ records. records ≡ self.now ∷ []) }
    {
        let (action, items) = self.data();
        let mut records = PackedRecords::new(self.alloc);
        records.push_data(action, items)?;
        Ok(records)
    }

    /// It and a record of this action and these data, in memory.
    #[cold]
    #[inline(never)]
    pub(crate) fn with(&self, action: Action, items: &[u8]) -> Result<PackedRecords, AllocError>
        requires limit { length items.now ≤ MAX_RECORD }
        ensures records { IfOk result (λ records.
            records ≡ self.now ∷ record_of_data action items.now ∷ []) }
    {
        let mut records = self.packed()?;
        records.push_data(action, items)?;
        Ok(records)
    }
}

/// A copy is the same record.
impl Clone for ShortRecord {
    ghost is_clone = { λ short copy. copy ≡ short };

    fn clone(&self) -> Result<Self, AllocError> {
        Ok(ShortRecord {
            bytes: self.bytes.clone()?,
            extent: self.extent,
            alloc: self.alloc,
        })
    }
}

//! Records that stand one after another in memory.
ghost use Rattle.std.specs.Prelude.{◌≡◌, ◌==◌, ◌+◌, ◌<◌, ◌≤◌, ◌^◌, ◌∷◌, [], ◌++◌, length, drop, map, true, IfOk, OnOk, OnErr};
ghost use Rattle.std.specs.List.{All};
ghost use Rattle.rje_text.specs.Packed.{IsWithin, moved};
ghost use Rattle.rje_text.specs.Records.{record_at, record_of_data};

use crate::extent::Extent;
use crate::{Action, MAX_RECORD, Record, RecordsIter};
use std::alloc::{AllocError, Global};
use std::marker::Model;

/// Records in order. Their data stand one after another in memory, so that each record takes but 16 bytes more than its data.
#[derive(Drop)]
pub(crate) struct PackedRecords {
    bytes: Vec<u8>,
    extents: Vec<Extent>,
}

impl Model for PackedRecords {
    ghost use Rattle.std.specs.Prelude.{List};
    ghost use Rattle.std.specs.List.{All};
    ghost use Rattle.rje_text.specs.declared.record.Record.{Record as Item};
    ghost use Rattle.rje_text.specs.Packed.{IsWithin, records_of_extents};

    ghost Value = { List Item };

    ghost view = { λ r. records_of_extents r.bytes.items r.extents.items };

    ghost invariant = { λ r. All (IsWithin r.bytes.items) r.extents.items };
}

impl PackedRecords {
    /// No records yet. Takes no memory.
    pub(crate) fn new(alloc: Global) -> Self
        ensures empty { result ≡ [] }
    {
        PackedRecords {
            bytes: Vec::new(alloc),
            extents: Vec::new(alloc),
        }
    }

    /// No records yet, with memory for this many of so many bytes of data in all.
    pub(crate) fn with_capacity(
        alloc: Global,
        records: usize,
        bytes: usize,
    ) -> Result<Self, AllocError>
        ensures empty { IfOk result (λ records. records ≡ []) }
    {
        Ok(PackedRecords {
            bytes: Vec::with_capacity(alloc, bytes)?,
            extents: Vec::with_capacity(alloc, records)?,
        })
    }

    /// The allocator of its memory.
    pub(crate) fn alloc(&self) -> Global {
        *self.bytes.allocator()
    }

    /// Whether there is no record, and no memory for one.
    pub(crate) fn is_bare(&self) -> bool
        ensures none { result ≡ true → self.now ≡ [] }
    {
        self.extents.is_empty() && self.extents.capacity() == 0
    }

    /// Adds a record of this action and these data after these. Without memory for it nothing changes.
    pub(crate) fn push_data(&mut self, action: Action, items: &[u8]) -> Result<(), AllocError>
        requires limit { length items.now ≤ MAX_RECORD }
        ensures ok { OnOk result (self.new ≡ self.old ++ record_of_data action items.now ∷ []) }
        ensures err { OnErr result (self.new ≡ self.old) }
    {
        let extent = Extent {
            start: self.bytes.len(),
            length: items.len() as u8,
            action,
        };
        self.bytes.extend_from_slice(items)?;
        self.extents.push(extent)?;
        Ok(())
    }

    /// Adds other records after these. Without memory for all of them nothing changes.
    pub(crate) fn append(&mut self, others: PackedRecords) -> Result<(), AllocError>
        ensures ok { OnOk result (self.new ≡ self.old ++ others) }
        ensures err { OnErr result (self.new ≡ self.old) }
    {
        let before = self.bytes.len();
        let PackedRecords { bytes, mut extents } = others;
        self.bytes.extend_from_slice(bytes.as_slice())?;
        move_extents(extents.as_mut_slice(), before);
        self.extents.append(&mut extents)?;
        Ok(())
    }

    /// The action and the data of the record at a place, counted from 0.
    pub(crate) fn data_at(&self, place: usize) -> (Action, &[u8])
        requires place { place < length self.now }
        ensures limit { length result.1.now ≤ 144 }
        ensures record { record_of_data result.0 result.1.now ≡ record_at self.now place }
    {
        let extent = &self.extents[place];
        (extent.action, extent.data(self.bytes.as_slice()))
    }

    /// The record at a place, counted from 0.
    pub(crate) fn at(&self, place: usize) -> Record
        requires place { place < length self.now }
        ensures record { result ≡ record_at self.now place }
    {
        self.extents[place].record(self.bytes.as_slice())
    }

    /// The records from a place on, counted from 0; none where there are no more before it.
    pub(crate) fn iter_from(&self, place: usize) -> RecordsIter<'_>
        ensures rest { result ≡ drop place self.now }
    {
        let extents = self.extents.as_slice();
        let (_, rest) = extents.split_at(place.min(extents.len()));
        RecordsIter::new(self.bytes.as_slice(), rest)
    }

    /// How many records there are.
    pub(crate) fn len(&self) -> usize
        ensures count { result ≡ length self.now }
    {
        self.extents.len()
    }
}

/// Counts the places of these extents from a place that stands `more` bytes further in front.
fn move_extents(extents: &mut [Extent], more: usize)
    requires { All (λ e. more + e.start < 2 ^ 64) extents.old }
    ensures { extents.new ≡ map (moved more) extents.old }
{
    for extent in extents.iter_mut() {
        extent.start = more + extent.start;
    }
}

/// A copy has the same records.
impl Clone for PackedRecords {
    ghost is_clone = { λ records copy. copy ≡ records };

    fn clone(&self) -> Result<Self, AllocError> {
        Ok(PackedRecords {
            bytes: self.bytes.clone()?,
            extents: self.extents.clone()?,
        })
    }
}

//! Records in order.
ghost use Rattle.std.specs.Prelude.{◌≡◌, ◌↔◌, IsTrue, ◌⊎◌, None, ◌==◌, ◌<◌, ◌≤◌, ◌∷◌, [], ◌++◌, length, drop, IfOk, OnOk, OnErr};
ghost use Rattle.std.specs.List.{AllByRecursion};
ghost use Rattle.rje_text.specs.PackFault.{pack_fault};
ghost use Rattle.rje_text.specs.NextBlock.{IsNextBlock, IsSendable};
ghost use Rattle.rje_text.specs.Records.{record_at, record_of_data};

use crate::block_at::{empty_block, put_next_block};
use crate::held::Held;
use crate::packed_records::PackedRecords;
use crate::short_record::{MAX_SHORT, ShortRecord};
use crate::{Action, MAX_RECORD, Mode, PackFault, Record, RecordsIter, Select};
use bsc_codes::Block;
use std::alloc::{AllocError, Global};
use std::fmt;
use std::marker::Model;

/// Records in order. Their data stand one after another in memory, so that each record takes but 16 bytes more than its data. A record
/// alone of at most 24 bytes takes no memory beside this value.
#[derive(Drop)]
pub struct Records {
    held: Held,
}

impl Model for Records {
    ghost use Rattle.std.specs.Prelude.{List};
    ghost use Rattle.rje_text.specs.declared.record.Record.{Record as Item};
    ghost use Rattle.rje_text.specs.Held.{records_held};

    ghost Value = { List Item };

    ghost view = { λ r. records_held r.held };
}

impl Records {
    /// No records yet. Takes no memory.
    pub fn new(alloc: Global) -> Self
        ensures empty { result ≡ [] }
    {
        Records {
            held: Held::Packed(PackedRecords::new(alloc)),
        }
    }

    /// No records yet, with memory for this many of so many bytes of data in all.
    pub fn with_capacity(alloc: Global, records: usize, bytes: usize) -> Result<Self, AllocError>
        ensures empty { IfOk result (λ records. records ≡ []) }
    {
        if records <= 1 && bytes <= MAX_SHORT {
            return Ok(Records::new(alloc));
        }
        Ok(Records {
            held: Held::Packed(PackedRecords::with_capacity(alloc, records, bytes)?),
        })
    }

    /// These records.
    pub fn of(alloc: Global, items: &[Record]) -> Result<Self, AllocError>
        ensures records { IfOk result (λ records. records ≡ items.now) }
    {
        let mut records = Records::new(alloc);
        for item in items {
            records.push_data(item.action, item.bytes.as_slice())?;
        }
        Ok(records)
    }

    /// These records in a vector.
    pub fn to_vec(&self) -> Result<Vec<Record>, AllocError>
        ensures records { IfOk result (λ vector. vector.items ≡ self.now) }
    {
        let mut vector = Vec::with_capacity(self.alloc(), self.len())?;
        for item in self.iter() {
            vector.push(item)?;
        }
        Ok(vector)
    }

    /// Adds a record after these. Without memory for it nothing changes.
    pub fn push(&mut self, item: Record) -> Result<(), AllocError>
        ensures ok { OnOk result (self.new ≡ self.old ++ item ∷ []) }
        ensures err { OnErr result (self.new ≡ self.old) }
    {
        self.push_data(item.action, item.bytes.as_slice())
    }

    /// Adds a record of this action and these data after these. Without memory for it nothing changes.
    pub fn push_data(&mut self, action: Action, items: &[u8]) -> Result<(), AllocError>
        requires limit { length items.now ≤ MAX_RECORD }
        ensures ok { OnOk result (self.new ≡ self.old ++ record_of_data action items.now ∷ []) }
        ensures err { OnErr result (self.new ≡ self.old) }
    {
        match &mut self.held {
            Held::Short(short) => self.held = Held::Packed(short.with(action, items)?),
            Held::Packed(packed) => {
                if MAX_SHORT < items.len() || !packed.is_bare() {
                    return packed.push_data(action, items);
                }
                self.held = Held::Short(ShortRecord::of(packed.alloc(), action, items));
            }
        }
        Ok(())
    }

    /// Adds other records after these. Without memory for all of them nothing changes.
    pub fn append(&mut self, others: Records) -> Result<(), AllocError>
        ensures ok { OnOk result (self.new ≡ self.old ++ others) }
        ensures err { OnErr result (self.new ≡ self.old) }
    {
        if self.is_empty() {
            *self = others;
            return Ok(());
        }
        match others.held {
            Held::Short(short) => {
                let (action, items) = short.data();
                self.push_data(action, items)
            }
            Held::Packed(more) => self.append_packed(more),
        }
    }

    /// Adds others that are in memory.
    fn append_packed(&mut self, more: PackedRecords) -> Result<(), AllocError>
        ensures ok { OnOk result (self.new ≡ self.old ++ more) }
        ensures err { OnErr result (self.new ≡ self.old) }
    {
        match &mut self.held {
            Held::Short(short) => {
                let mut packed = short.packed()?;
                packed.append(more)?;
                self.held = Held::Packed(packed);
                Ok(())
            }
            Held::Packed(packed) => packed.append(more),
        }
    }

    /// The allocator of the memory for more.
    fn alloc(&self) -> Global {
        match &self.held {
            Held::Short(short) => short.alloc(),
            Held::Packed(packed) => packed.alloc(),
        }
    }

    /// The action and the data of the record at a place, counted from 0.
    pub(crate) fn data_at(&self, place: usize) -> (Action, &[u8])
        requires place { place < length self.now }
        ensures limit { length result.1.now ≤ 144 }
        ensures record { record_of_data result.0 result.1.now ≡ record_at self.now place }
    {
        match &self.held {
            Held::Short(short) => short.data(),
            Held::Packed(packed) => packed.data_at(place),
        }
    }

    /// The record at a place, counted from 0.
    pub fn at(&self, place: usize) -> Record
        requires place { place < length self.now }
        ensures record { result ≡ record_at self.now place }
    {
        match &self.held {
            Held::Short(short) => short.record(),
            Held::Packed(packed) => packed.at(place),
        }
    }

    /// The block of the canonical cut that begins at a record, and the place after its last record, as `next_block` gives them. Takes no
    /// memory.
    pub fn next_block(&self, from: usize, select: Select, mode: Mode) -> (Block, usize)
        requires sent { AllByRecursion (λ r. pack_fault select mode r ≡ None) self.now }
        requires within { (from < length self.now) ⊎ ((from ≡ 0) × (length self.now ≡ 0)) }
        ensures next { IsNextBlock select mode self.now from result.0 result.1 }
        ensures sendable { IsSendable result.0 }
    {
        let mut block = empty_block();
        let place = self.put_next_block(from, select, mode, &mut block);
        (block, place)
    }

    /// Puts the same block in place of another one: the place after its last record. Takes no memory, and moves no block.
    pub fn put_next_block(
        &self,
        from: usize,
        select: Select,
        mode: Mode,
        block: &mut Block,
    ) -> usize
        requires sent { AllByRecursion (λ r. pack_fault select mode r ≡ None) self.now }
        requires within { (from < length self.now) ⊎ ((from ≡ 0) × (length self.now ≡ 0)) }
        ensures next { IsNextBlock select mode self.now from block.new result }
        ensures sendable { IsSendable block.new }
    {
        put_next_block(self, from, select, mode, block)
    }

    /// Whether each record can be sent in a job of this selection and mode. No record is copied for it.
    pub fn can_be_sent(&self, select: Select, mode: Mode) -> bool
        ensures sent { IsTrue result
            ↔ (AllByRecursion (λ r. length r.bytes.items ≤ 144) self.now
            × AllByRecursion (λ r. pack_fault select mode r ≡ None) self.now) }
    {
        for place in 0..self.len() {
            let (action, items) = self.data_at(place);
            if PackFault::of_data(action, items, select, mode).is_some() {
                return false;
            }
        }
        true
    }

    /// The records, one after another.
    pub fn iter(&self) -> RecordsIter<'_>
        ensures records { result ≡ self.now }
    {
        self.iter_from(0)
    }

    /// The records from a place on, counted from 0; none where there are no more before it.
    pub fn iter_from(&self, place: usize) -> RecordsIter<'_>
        ensures rest { result ≡ drop place self.now }
    {
        match &self.held {
            Held::Short(short) => short.iter_from(place),
            Held::Packed(packed) => packed.iter_from(place),
        }
    }

    /// How many records there are.
    pub fn len(&self) -> usize
        ensures count { result ≡ length self.now }
    {
        match &self.held {
            Held::Short(_) => 1,
            Held::Packed(packed) => packed.len(),
        }
    }

    /// Whether there is no record.
    pub fn is_empty(&self) -> bool
        ensures none { result ≡ (length self.now == 0) }
    {
        self.len() == 0
    }
}

/// A copy has the same records.
impl Clone for Records {
    ghost is_clone = { λ records copy. copy ≡ records };

    fn clone(&self) -> Result<Self, AllocError> {
        let held = match &self.held {
            Held::Short(short) => Held::Short(short.clone()?),
            Held::Packed(packed) => Held::Packed(packed.clone()?),
        };
        Ok(Records { held })
    }
}

/// Shows the records as a list.
impl fmt::Debug for Records {
    fn fmt<W: fmt::Write>(&self, f: &mut fmt::Formatter<W>) -> fmt::Result {
        f.debug_list().entries(self.iter()).finish()
    }
}

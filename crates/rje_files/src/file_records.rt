//! The records of a job as they are in a job file.
ghost use Rattle.std.specs.Prelude.{◌≡◌, ◌≤◌, ◌<◌, ◌^◌, length, take, drop, slice_index, IfOk};
ghost use Rattle.std.specs.List.{flat_map};
ghost use Rattle.rje_files.specs.JobFile.{record_bytes};
ghost use Rattle.rje_files.specs.Inside.Reading.Stored.{AreRecordsHere, IsRecordHere, behind_record, behind_records, record_in, records_in, action_in};

use arrayvec::ArrayVec;
use rje_text::{Action, MAX_RECORD, Record, Records};
use std::alloc::{AllocError, Global};
use std::marker::Model;

/// The records of a job as they are in a job file, one after another. Contracts see the list of those that are left.
#[derive(Drop)]
pub struct FileRecords<'a> {
    rest: &'a [u8],
    left: usize,
}

impl<'a> Model for FileRecords<'a> {
    ghost use Rattle.std.specs.Prelude.{List};
    ghost use Rattle.rje_text.specs.declared.record.Record.{Record as Item};

    ghost Value = { List Item };

    ghost use Rattle.rje_files.specs.Inside.Reading.Stored.{AreRecordsHere, records_in};

    ghost view = { λ records. records_in records.left records.rest.now };

    ghost invariant = { λ records. AreRecordsHere records.left records.rest.now };
}

impl<'a> FileRecords<'a> {
    /// The `count` records at the front of these bytes.
    pub(crate) fn new(bytes: &'a [u8], count: usize) -> Self
        requires { AreRecordsHere count bytes.now }
        ensures { result ≡ records_in count bytes.entry.now }
    {
        FileRecords {
            rest: bytes,
            left: count,
        }
    }

    /// How many records are left.
    #[tactic(auto, using(crate::proofs::Stored::records_many))]
    pub fn len(&self) -> usize
        ensures { result ≡ length self.now }
    {
        self.left
    }

    /// How many bytes they have in the file.
    pub(crate) fn byte_len(&self) -> usize
        ensures bytes { result ≡ length (flat_map record_bytes self.now) }
        ensures limit { result < 2 ^ 63 }
    {
        let behind = behind_records_at(self.rest, self.left);
        self.rest.len() - behind.len()
    }

    /// The same records, from the same place on.
    pub(crate) fn again(&self) -> Self
        ensures { result ≡ self.now }
    {
        FileRecords {
            rest: self.rest,
            left: self.left,
        }
    }

    /// The records that are left, in memory of their own.
    pub(crate) fn collect_records(self, alloc: Global) -> Result<Records, AllocError>
        ensures { IfOk result (λ records. records ≡ self.entry) }
    {
        let mut records = Records::with_capacity(alloc, self.len(), self.data_length())?;
        let mut rest = self.rest;
        for _i in 0..self.left {
            let (action, items) = parts_at(rest);
            records.push_data(action, items)?;
            rest = behind_record_at(rest);
        }
        Ok(records)
    }

    /// How many bytes of data the records have that are left.
    fn data_length(&self) -> usize {
        self.byte_len().saturating_sub(self.left.saturating_mul(2))
    }
}

impl Iterator for FileRecords<'_> {
    type Item = Record;

    ghost use Rattle.std.specs.Iterator.{YieldsFirst, item_count};

    ghost next_gives = { YieldsFirst (λ records. records) };

    ghost remaining = { item_count (λ records. records) };

    fn next(&mut self) -> Option<Record> {
        if self.left == 0 {
            return None;
        }
        let item = record_at(self.rest);
        self.rest = behind_record_at(self.rest);
        self.left -= 1;
        Some(item)
    }
}

/// What stands after the first `count` records.
pub(crate) fn behind_records_at(bytes: &[u8], count: usize) -> &[u8]
    requires { AreRecordsHere count bytes.now }
    ensures { result.now ≡ behind_records count bytes.now }
{
    let mut rest = bytes;
    for _i in 0..count {
        rest = behind_record_at(rest);
    }
    rest
}

/// What stands after the record at the front.
fn behind_record_at(bytes: &[u8]) -> &[u8]
    requires { IsRecordHere bytes.now }
    ensures { result.now ≡ behind_record bytes.now }
{
    let (_, behind) = bytes.split_at(2);
    let (_, rest) = behind.split_at(bytes[1] as usize);
    rest
}

/// The record at the front.
fn record_at(bytes: &[u8]) -> Record
    requires { IsRecordHere bytes.now }
    ensures { result ≡ record_in bytes.now }
{
    let (action, items) = parts_at(bytes);
    Record {
        action,
        bytes: data(items),
    }
}

/// The action and the data of the record at the front.
fn parts_at(bytes: &[u8]) -> (Action, &[u8])
    requires { IsRecordHere bytes.now }
    ensures action { result.0 ≡ action_in (slice_index bytes.now 0) }
    ensures items { result.1.now ≡ take (slice_index bytes.now 1) (drop 2 bytes.now) }
    ensures limit { length result.1.now ≤ MAX_RECORD }
{
    let (_, behind) = bytes.split_at(2);
    let (items, _) = behind.split_at(bytes[1] as usize);
    (action_at(bytes[0]), items)
}

fn data(items: &[u8]) -> ArrayVec<u8, MAX_RECORD>
    requires { length items.now ≤ MAX_RECORD }
    ensures { result.items ≡ items.now }
{
    let mut bytes: ArrayVec<u8, MAX_RECORD> = ArrayVec::new();
    let Ok(()) = bytes.try_extend_from_slice(items) else {
        unreachable!()
    };
    bytes
}

fn action_at(byte: u8) -> Action
    ensures { result ≡ action_in byte }
{
    match byte {
        0 => Action::Plain,
        code => Action::of(code).unwrap_or(Action::Plain),
    }
}

//! Where in its file a job is marked Sent.
ghost use Rattle.std.specs.Prelude.{◌≡◌, ◌+◌, List, ℕ, length, IfOk, IfSome};
ghost use Rattle.std.specs.List.{All};
ghost use Rattle.rje_files.specs.declared.job_file.version.FileVersion.{FileVersion};
ghost use Rattle.rje_files.specs.JobFile.{HasEntries, entry_bytes};
ghost use Rattle.rje_files.specs.Marks.{AreMarks, AreStatePlaces};
ghost use Rattle.rje_files.specs.Unsent.{CanPass, unsent};

use crate::Entry;
use crate::unsent::was_sent;
use std::alloc::{AllocError, Global};

/// The byte of a mark: the state Sent.
pub const MARK: u8 = 1;

/// What a file has before its first entry: the head, the version and the number of entries.
pub(crate) const FRONT: usize = 14;

/// What an entry has before its state: its name.
pub(crate) const NAME: usize = 8;

/// What an entry has before its records: its name, its state, its selection and its mode, each of a byte, and the number of records.
pub(crate) const FIELDS: usize = 19;

/// What a record has before its data: its action and their length.
const RECORD: usize = 2;

/// The places of the marks of entries in their version 2 file: the state bytes of those that were not sent, in order. A file that is longer
/// than memory can be has none.
pub fn mark_places(alloc: Global, entries: &[Entry]) -> Result<Vec<usize>, AllocError>
    ensures each { IfOk result (λ places. length places.items ≡ length (unsent entries.now)) }
    ensures stand { IfOk result (λ places. AreStatePlaces entries.now places.items) }
    ensures marks { IfOk result (λ places. (file : List ℕ) → HasEntries entries.now file
        → All CanPass entries.now → AreMarks file places.items) }
{
    let mut places = Vec::new(alloc);
    let mut start = FRONT;
    for entry in entries {
        let next = end_of(start, entry).ok_or(AllocError)?;
        if !was_sent(entry.state) {
            places.push(start + NAME)?;
        }
        start = next;
    }
    Ok(places)
}

/// Where an entry ends that starts here, where that is a place.
fn end_of(start: usize, entry: &Entry) -> Option<usize>
    ensures { IfSome result (λ end.
        end ≡ start + length (entry_bytes FileVersion.Second entry.now)) }
{
    let mut end = start.checked_add(FIELDS)?;
    for record in entry.job.records.iter() {
        end = end.checked_add(RECORD + record.bytes.len())?;
    }
    Some(end)
}

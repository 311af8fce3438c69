//! A copy of a version 2 job file in which more of its jobs are Sent.
ghost use Rattle.std.specs.Prelude.{◌≡◌, ◌⊎◌, ◌<◌, true, false, IsTrue, IsFalse, IfOk, IfErr};
ghost use Rattle.rje_files.specs.declared.job_file.version.FileVersion.{FileVersion};
ghost use Rattle.rje_files.specs.Entry.{bad_entry};
ghost use Rattle.rje_files.specs.FileFault.{IsEntryFault};
ghost use Rattle.rje_files.specs.JobFile.{AreForFile, IsEntryFileOf, file_of};
ghost use Rattle.rje_files.specs.Unsent.{is_sent, with_sent};

use crate::FileEntry;
use crate::marks::{FRONT, MARK, NAME};
use crate::unsent::was_sent;
use rje_jobs::FileFault;
use std::alloc::Global;

/// The version 2 file of the same entries as this one's, in which the first `count` of those that were not Sent are Sent: its own bytes, with
/// a mark for each. The entries are checked before any memory is taken.
pub(crate) fn marked_copy(
    alloc: Global,
    file: &[u8],
    entries: &[FileEntry],
    count: usize,
) -> Result<Vec<u8>, FileFault>
    requires { IsEntryFileOf FileVersion.Second entries.now file.now }
    ensures file { IfOk result (λ bytes.
        IsEntryFileOf FileVersion.Second (with_sent count entries.now) bytes.items) }
    ensures told { IfErr result (λ fault. IsEntryFault (with_sent count entries.now) fault) }
{
    if let Some(number) = first_cut(entries, count) {
        return Err(FileFault::BadEntry(number));
    }
    match Vec::from_slice(alloc, file) {
        Ok(mut bytes) => {
            mark_first(entries, count, bytes.as_mut_slice());
            Ok(bytes)
        }
        Err(_) => Err(FileFault::OutOfMemory),
    }
}

/// The number of the first entry, from 1, that is to be made Sent and is cut.
fn first_cut(entries: &[FileEntry], count: usize) -> Option<usize>
    requires { AreForFile FileVersion.Second entries.now }
    ensures { result ≡ bad_entry (with_sent count entries.now) }
{
    let mut left = count;
    for (place, entry) in entries.iter().enumerate() {
        if is_next(entry, left) {
            if !entry.is_whole() {
                return Some(place + 1);
            }
            left -= 1;
        }
    }
    None
}

/// Marks the first `count` of the entries that were not Sent, in the bytes of their file.
fn mark_first(entries: &[FileEntry], count: usize, bytes: &mut [u8])
    requires fit { AreForFile FileVersion.Second entries.now }
    requires file { bytes.old ≡ file_of FileVersion.Second entries.now }
    ensures { bytes.new ≡ file_of FileVersion.Second (with_sent count entries.now) }
{
    let mut left = count;
    let mut start = FRONT;
    for entry in entries {
        if is_next(entry, left) {
            bytes[start + NAME] = MARK;
            left -= 1;
        }
        start += entry.len();
    }
}

/// Whether an entry is made Sent, where so many are to be from here on.
fn is_next(entry: &FileEntry, left: usize) -> bool
    ensures marked { IsTrue result → (0 < left) × (is_sent entry.now.state ≡ false) }
    ensures stays { IsFalse result → (left ≡ 0) ⊎ (is_sent entry.now.state ≡ true) }
{
    left > 0 && !was_sent(entry.state())
}

//! How many cards the files of a station have.
use crate::queued_file::QueuedFile;
use rje_files::read_entry_jobs;
use rje_folder::{Folder, FolderDisk, ReadyFile};
use rje_jobs::Job;
use rje_store::{FileKind, read_all};
use std::alloc::Global;
use std::io;

/// The cards of so many files of a folder are counted.
pub(crate) const MOST_COUNTED: usize = 20;

/// The cards of a file are counted if it has so many bytes at most.
const MOST_BYTES: u64 = 1_000_000;

/// Counts the cards of the first files of a folder. None are counted of a file that is larger, neither a deck nor a job file, or can't be read.
pub(crate) fn count_cards<D: FolderDisk>(
    disk: &D,
    alloc: Global,
    station: &str,
    folder: Folder,
    files: &mut [QueuedFile],
) -> io::Result<()> {
    for file in files.iter_mut().take(MOST_COUNTED) {
        let path = format!(in alloc; "{station}/{}/{}", folder.as_str(), file.name)?;
        file.cards = cards_of(disk, alloc, path.as_str(), file);
    }
    Ok(())
}

/// How many cards the file of this path has, if they are counted.
fn cards_of<D: FolderDisk>(disk: &D, alloc: Global, path: &str, file: &QueuedFile) -> Option<u64> {
    let kind = ReadyFile::of_name(file.name.as_str())?;
    let found = disk.status_of_name(path).ok()?;
    if found.kind != FileKind::Regular || found.len > MOST_BYTES {
        return None;
    }
    let mut opened = disk.open_to_read(path).ok()?;
    let bytes = read_all(alloc, &mut opened).ok()?;
    match kind {
        ReadyFile::Deck { .. } => Some(lines_in(bytes.as_slice())),
        ReadyFile::JobFile => Some(records_of(
            read_entry_jobs(alloc, bytes.as_slice()).ok()?.as_slice(),
        )),
    }
}

/// How many lines a text has; the last one may have no line end.
fn lines_in(text: &[u8]) -> u64 {
    let ends = text.iter().filter(|byte| **byte == b'\n').count() as u64;
    match text.last() {
        None | Some(b'\n') => ends,
        Some(_) => ends.saturating_add(1),
    }
}

/// How many records these jobs have.
fn records_of(jobs: &[Job]) -> u64 {
    let mut records: u64 = 0;
    for job in jobs {
        records = records.saturating_add(job.records.len() as u64);
    }
    records
}

//! Whether the file of a promised job still has that job.

use rje_files::MARK;
use rje_folder::FolderDisk;
use rje_jobs::Job;
use rje_settle::{JobDigest, Promise, Receipt};
use rje_spool::{Outgoing, outgoing_of, received_file};
use rje_store::{StoreFault, read_all};
use std::alloc::Global;
use std::io::{self, ErrorKind};

/// The byte of a job that isn't marked as sent.
const NO_MARK: u8 = 0;

/// Whether the file of this path, which has this name, has the job of a promise in its place, where the other end had said this before. Others may have
/// written to it since.
pub(crate) fn has_job<D: FolderDisk>(
    disk: &D,
    alloc: Global,
    path: &str,
    name: &str,
    promise: Promise,
    before: Receipt,
) -> io::Result<bool> {
    let mut bytes = bytes_of(disk, alloc, path)?;
    unmark(bytes.as_mut_slice(), promise.place.mark);
    let Ok(outgoing) = outgoing_of(alloc, name, bytes.as_slice()) else {
        return Ok(false);
    };
    let Some(job) = job_at(&outgoing, promise.place.mark) else {
        return Ok(false);
    };
    let file = received_file(alloc, job)?;
    Ok(before.with(JobDigest::of(file.as_slice())) == Some(promise.receipt))
}

/// Whether the job of a promise is marked as sent in the file of this path, and so was counted. One of a deck isn't.
pub(crate) fn is_marked<D: FolderDisk>(
    disk: &D,
    alloc: Global,
    path: &str,
    promise: Promise,
) -> io::Result<bool> {
    let Some(place) = promise.place.mark else {
        return Ok(false);
    };
    let bytes = bytes_of(disk, alloc, path)?;
    match usize::try_from(place) {
        Ok(place) => Ok(bytes.get(place) == Some(&MARK)),
        Err(_) => Ok(false),
    }
}

/// All bytes of the file of this path.
fn bytes_of<D: FolderDisk>(disk: &D, alloc: Global, path: &str) -> io::Result<Vec<u8>> {
    let mut file = disk.open_to_read(path)?;
    match read_all(alloc, &mut file) {
        Ok(bytes) => Ok(bytes),
        Err(StoreFault::OutOfMemory) => Err(io::Error::from(ErrorKind::OutOfMemory)),
        Err(StoreFault::Failed(kind)) => Err(io::Error::from(kind)),
        // (no job file is so long, and no deck)
        Err(_) => Ok(Vec::new(alloc)),
    }
}

/// Takes the mark away that stands in a job file at this place, if one does.
fn unmark(bytes: &mut [u8], place: Option<u64>) {
    let Some(place) = place.and_then(|place| usize::try_from(place).ok()) else {
        return;
    };
    if bytes.get(place) == Some(&MARK) {
        bytes[place] = NO_MARK;
    }
}

/// The job that is marked at this place; of a deck, which has none, its one job.
fn job_at(outgoing: &Outgoing, place: Option<u64>) -> Option<&Job> {
    let number = match place {
        Some(place) => outgoing
            .places
            .iter()
            .position(|mark| *mark as u64 == place)?,
        None if outgoing.places.is_empty() => 0,
        None => return None,
    };
    outgoing.jobs.as_slice().get(number)
}

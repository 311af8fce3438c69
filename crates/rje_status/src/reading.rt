//! How the folder of a station is read. Nothing in it is changed.
ghost use Rattle.std.specs.Prelude.{◌≡◌, IfOk, true};
ghost use Rattle.std.specs.List.Sorted.{IsNonDecreasingBy};
ghost use Rattle.rje_status.specs.declared.queued_file.QueuedFile.{QueuedFile as Item};
ghost use Rattle.rje_status.specs.Status.{is_refused};

use crate::card_counting::count_cards;
use crate::folders::Folders;
use crate::lock_holder::is_locked;
use crate::log_reading::lines_that_ask;
use crate::queued_file::QueuedFile;
use crate::state_reading::noted_state;
use crate::station_status::StationStatus;
use crate::status_fault::StatusFault;
use rje_folder::{Folder, FolderDisk, is_left_alone};
use rje_store::FileKind;
use std::alloc::Global;
use std::fs::TryLockError;
use std::io::{self, ErrorKind};

/// Whether a station has the folder of this path, and what lies in it.
pub fn read_status<D: FolderDisk>(
    disk: &D,
    alloc: Global,
    station: &str,
) -> Result<StationStatus, StatusFault> {
    is_folder(disk, station).map_err(|error| StatusFault::of_folder(&error))?;
    let is_running = is_running(disk, alloc, station);
    let running = is_running.map_err(|error| StatusFault::of("/lock", &error))?;
    let hold = is_there(disk, alloc, station, "hold");
    let hold = hold.map_err(|error| StatusFault::of("/hold", &error))?;
    let drain = is_there(disk, alloc, station, "drain");
    let drain = drain.map_err(|error| StatusFault::of("/drain", &error))?;
    let line = match running {
        true => noted_state(disk, alloc, station),
        false => None,
    };
    let folders = folders_of(disk, alloc, station, running)?;
    let log = lines_that_ask(disk, alloc, station);
    let log = log.map_err(|error| StatusFault::of("/log", &error))?;
    Ok(StationStatus::new(running, hold, drain, line, folders, log))
}

/// What lies in the folders of a station.
fn folders_of<D: FolderDisk>(
    disk: &D,
    alloc: Global,
    station: &str,
    running: bool,
) -> Result<Folders, StatusFault> {
    let doubt = files_in(disk, alloc, station, Folder::Doubt)?;
    let out = counted_in(disk, alloc, station, Folder::Out)?;
    let alone = match running {
        true => in_doubt(disk, alloc, station, doubt, out.as_slice()),
        false => Ok(doubt),
    };
    let alone = alone.map_err(|error| StatusFault::of(part_of(Folder::Doubt), &error))?;
    Ok(Folders {
        out,
        doubt: counted(disk, alloc, station, Folder::Doubt, alone)?,
        refused: counted_in(disk, alloc, station, Folder::Refused)?,
        cut: counted_in(disk, alloc, station, Folder::Cut)?,
        came: counted_in(disk, alloc, station, Folder::In)?,
        print: files_in(disk, alloc, station, Folder::Print)?,
        punch: counted_in(disk, alloc, station, Folder::Punch)?,
    })
}

/// The files of a folder, as `files_in` has them, with the cards of the first ones.
fn counted_in<D: FolderDisk>(
    disk: &D,
    alloc: Global,
    station: &str,
    folder: Folder,
) -> Result<Vec<QueuedFile>, StatusFault> {
    let files = files_in(disk, alloc, station, folder)?;
    counted(disk, alloc, station, folder, files)
}

/// These files of a folder, with the cards of the first ones.
fn counted<D: FolderDisk>(
    disk: &D,
    alloc: Global,
    station: &str,
    folder: Folder,
    files: Vec<QueuedFile>,
) -> Result<Vec<QueuedFile>, StatusFault> {
    let mut files = files;
    match count_cards(disk, alloc, station, folder, files.as_mut_slice()) {
        Ok(()) => Ok(files),
        Err(error) => Err(StatusFault::of(part_of(folder), &error)),
    }
}

/// Not a directory where the name is of something else than a folder.
fn is_folder<D: FolderDisk>(disk: &D, station: &str) -> io::Result<()> {
    match disk.status(station)?.kind {
        FileKind::Folder => Ok(()),
        _ => Err(io::Error::from(ErrorKind::NotADirectory)),
    }
}

/// Whether a station has the folder: it has the lock.
fn is_running<D: FolderDisk>(disk: &D, alloc: Global, station: &str) -> io::Result<bool> {
    let path = format!(in alloc; "{station}/lock")?;
    let lock = match disk.open_to_read(path.as_str()) {
        Err(error) if error.kind() == ErrorKind::NotFound => return Ok(false),
        opened => opened?,
    };
    match disk.try_lock_to_read(&lock) {
        Ok(()) => Ok(false),
        Err(TryLockError::WouldBlock) => Ok(true),
        Err(TryLockError::Error(error)) => Err(error),
    }
}

/// Whether one of the files is there by which the operator orders something of the station.
fn is_there<D: FolderDisk>(disk: &D, alloc: Global, station: &str, name: &str) -> io::Result<bool> {
    let path = format!(in alloc; "{station}/{name}")?;
    match disk.status(path.as_str()) {
        Ok(_) => Ok(true),
        Err(error) if error.kind() == ErrorKind::NotFound => Ok(false),
        Err(error) => Err(error),
    }
}

/// The files of a folder, the oldest first and those of one time by their names: those that aren't left alone, and in refused/ no reasons. None where
/// there is no such folder.
pub fn files_in<D: FolderDisk>(
    disk: &D,
    alloc: Global,
    station: &str,
    folder: Folder,
) -> Result<Vec<QueuedFile>, StatusFault>
    ensures old { IfOk result (λ files. IsNonDecreasingBy
        (λ (file : Item). file.changed) files.items) }
{
    let listed = listed(disk, alloc, station, folder);
    let mut files = listed.map_err(|error| StatusFault::of(part_of(folder), &error))?;
    files.sort_by_key(|file| file.changed)?;
    Ok(files)
}

/// Those of the files of doubt/ of a station that runs which are in doubt: not in out/ too and locked, as one is while its last block is out; and that are
/// there still.
fn in_doubt<D: FolderDisk>(
    disk: &D,
    alloc: Global,
    station: &str,
    doubt: Vec<QueuedFile>,
    out: &[QueuedFile],
) -> io::Result<Vec<QueuedFile>> {
    let mut alone = Vec::new(alloc);
    for file in doubt {
        if out.iter().any(|other| other.is_of(&file)) && is_in_hand(disk, alloc, station, &file)? {
            continue;
        }
        let file = file_of(disk, alloc, station, Folder::Doubt, file.name)?;
        if let Some(file) = file {
            alone.push(file)?;
        }
    }
    Ok(alone)
}

/// Whether the last block of a job of a file of doubt/ is out: it is locked, as far as the system tells.
fn is_in_hand<D: FolderDisk>(
    disk: &D,
    alloc: Global,
    station: &str,
    file: &QueuedFile,
) -> io::Result<bool> {
    let path = format!(in alloc; "{station}/{}/{}", Folder::Doubt.as_str(), file.name)?;
    Ok(is_locked(disk, alloc, path.as_str()).unwrap_or(true))
}

/// The part of a station's folder that this one is.
fn part_of(folder: Folder) -> &'static str {
    match folder {
        Folder::Out => "/out",
        Folder::Sent => "/sent",
        Folder::Doubt => "/doubt",
        Folder::Refused => "/refused",
        Folder::In => "/in",
        Folder::Print => "/print",
        Folder::Punch => "/punch",
        Folder::Cut => "/cut",
    }
}

/// The same by their names.
fn listed<D: FolderDisk>(
    disk: &D,
    alloc: Global,
    station: &str,
    folder: Folder,
) -> io::Result<Vec<QueuedFile>> {
    let own = format!(in alloc; "{station}/{}", folder.as_str())?;
    let mut names = match disk.names_in(alloc, own.as_str()) {
        Err(error) if error.kind() == ErrorKind::NotFound => return Ok(Vec::new(alloc)),
        names => names?,
    };
    names.retain(|name| !is_left_alone(name.as_str()));
    names.sort()?;
    let mut files = Vec::new(alloc);
    for name in &names {
        if is_reason(folder, name.as_str(), names.as_slice()) {
            continue;
        }
        let name = String::from_str(alloc, name.as_str())?;
        if let Some(file) = file_of(disk, alloc, station, folder, name)? {
            files.push(file)?;
        }
    }
    Ok(files)
}

/// Whether a file of this name in a folder, which has these names, says why another one there was refused.
fn is_reason(folder: Folder, name: &str, names: &[String]) -> bool
    ensures { result ≡ true → is_refused folder ≡ true }
{
    folder == Folder::Refused
        && match name.strip_suffix(".why") {
            Some(refused) => names.iter().any(|other| other.as_str() == refused),
            None => false,
        }
}

/// The file of a name; none where it is gone by now.
fn file_of<D: FolderDisk>(
    disk: &D,
    alloc: Global,
    station: &str,
    folder: Folder,
    name: String,
) -> io::Result<Option<QueuedFile>> {
    let path = format!(in alloc; "{station}/{}/{name}", folder.as_str())?;
    match disk.identity(path.as_str()) {
        Ok(file) => Ok(Some(QueuedFile::new(name, file))),
        Err(error) if error.kind() == ErrorKind::NotFound => Ok(None),
        Err(error) => Err(error),
    }
}

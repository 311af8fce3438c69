//! How a station gets its folder, and what it sees there.
ghost use Rattle.std.specs.Prelude.{◌≡◌, true, IfOk, OnOk, string_bytes};
ghost use Rattle.rje_store.specs.Disk.{has_synced_name};
ghost use Rattle.rje_store.specs.Replacing.{Adds};
ghost use Rattle.rje_folder.specs.Folder.{path_of};
ghost use Rattle.rje_folder.specs.ReadyFile.{AreInOrder};
ghost use Rattle.rje_folder.specs.Promising.{MayClear, MayOpen, MayTidy, lock_path};

use crate::clearing::clear;
use crate::folder::Folder;
use crate::folder_disk::FolderDisk;
use crate::folder_fault::FolderFault;
use crate::kept_names::KeptNames;
use crate::linking::sync_names;
use crate::ready_file::{is_left_alone, ready_names};
use crate::tidying::{has_kept_name, names_of_file, tidy_doubt, tidy_ready};
use std::alloc::Global;
use std::fs::TryLockError;
use std::io::{self, ErrorKind};

/// Makes those of the folders that aren't there, and puts their names on disk.
pub(crate) fn make_folders<D: FolderDisk>(
    disk: &mut D,
    alloc: Global,
    station: &str,
) -> Result<(), FolderFault>
    ensures asks { D.discloses → Adds (MayOpen D.are_one station.now)
        (D.asked disk.old) (D.asked disk.new) }
    ensures on_disk { D.discloses → OnOk result
        (has_synced_name (path_of station.now Folder.Out) (D.asked disk.new) ≡ true) }
{
    for folder in Folder::ALL {
        let made = make_folder(disk, alloc, station, folder);
        made.map_err(|error| FolderFault::of(folder, &error))?;
    }
    let synced = sync_folders(disk, alloc, station);
    synced.map_err(|error| FolderFault::own(&error))
}

/// Puts the names of the folders on disk, which are in one folder.
fn sync_folders<D: FolderDisk>(disk: &mut D, alloc: Global, station: &str) -> io::Result<()>
    ensures asks { D.discloses → Adds (MayOpen D.are_one station.now)
        (D.asked disk.old) (D.asked disk.new) }
    ensures on_disk { D.discloses → OnOk result
        (has_synced_name (path_of station.now Folder.Out) (D.asked disk.new) ≡ true) }
{
    let first = Folder::Out.own_path(alloc, station)?;
    let folder = disk.open_folder(first.as_str())?;
    sync_names(disk, &folder)
}

fn make_folder<D: FolderDisk>(
    disk: &mut D,
    alloc: Global,
    station: &str,
    folder: Folder,
) -> io::Result<()>
    ensures { D.discloses → D.asked disk.new ≡ D.asked disk.old }
{
    let path = folder.own_path(alloc, station)?;
    disk.make_folder(path.as_str())
}

/// The file of the station's lock, locked. In use where another station has it.
pub(crate) fn locked<D: FolderDisk>(
    disk: &mut D,
    alloc: Global,
    station: &str,
) -> Result<D::File, FolderFault>
    ensures { D.discloses → Adds (MayOpen D.are_one station.now)
        (D.asked disk.old) (D.asked disk.new) }
{
    let opened = open_lock(disk, alloc, station);
    let file = opened.map_err(|error| FolderFault::own(&error))?;
    match disk.try_lock(&file) {
        Ok(()) => Ok(file),
        Err(TryLockError::WouldBlock) => Err(FolderFault::InUse),
        Err(TryLockError::Error(error)) => Err(FolderFault::own(&error)),
    }
}

fn open_lock<D: FolderDisk>(disk: &mut D, alloc: Global, station: &str) -> io::Result<D::File>
    ensures { D.discloses → Adds (MayOpen D.are_one station.now)
        (D.asked disk.old) (D.asked disk.new) }
{
    let path = lock_path(alloc, station)?;
    disk.open_or_create(path.as_str())
}

/// The path of the file that is locked.
fn lock_path(alloc: Global, station: &str) -> io::Result<String>
    ensures { IfOk result (λ path. string_bytes path ≡ lock_path station.now) }
{
    Ok(format!(in alloc; "{station}/lock")?)
}

/// Takes the files away that a killed station was writing.
pub(crate) fn clear_up<D: FolderDisk>(
    disk: &mut D,
    alloc: Global,
    station: &str,
) -> Result<(), FolderFault>
    ensures { D.discloses → Adds (MayClear station.now)
        (D.asked disk.old) (D.asked disk.new) }
{
    for folder in Folder::ALL {
        let cleared = clear(disk, alloc, station, folder);
        cleared.map_err(|error| FolderFault::of(folder, &error))?;
    }
    Ok(())
}

/// Brings to its end what was begun in the folder when a station was killed.
pub(crate) fn tidy_up<D: FolderDisk>(
    disk: &mut D,
    alloc: Global,
    station: &str,
) -> Result<(), FolderFault>
    ensures { D.discloses → Adds (MayTidy D.are_one station.now)
        (D.asked disk.old) (D.asked disk.new) }
{
    tidy_out(disk, alloc, station)?;
    tidy_doubts(disk, alloc, station)
}

/// The same of the names in out/.
fn tidy_out<D: FolderDisk>(disk: &mut D, alloc: Global, station: &str) -> Result<(), FolderFault>
    ensures { D.discloses → Adds (MayTidy D.are_one station.now)
        (D.asked disk.old) (D.asked disk.new) }
{
    let names = names_of(disk, alloc, station, Folder::Out)?;
    let kept = KeptNames::listed(disk, alloc, station);
    let kept = kept.map_err(|error| FolderFault::of(Folder::Sent, &error))?;
    for name in &names {
        match tidy_ready(disk, alloc, station, name.as_str(), &kept) {
            // (a name that another user keeps there, which doesn't lie ready all the same)
            Err(error) if error.kind() == ErrorKind::PermissionDenied => {}
            Err(error) => return Err(FolderFault::of(Folder::Out, &error)),
            Ok(()) => {}
        }
    }
    Ok(())
}

/// The same of the names in doubt/.
fn tidy_doubts<D: FolderDisk>(disk: &mut D, alloc: Global, station: &str) -> Result<(), FolderFault>
    ensures { D.discloses → Adds (MayTidy D.are_one station.now)
        (D.asked disk.old) (D.asked disk.new) }
{
    let names = names_of(disk, alloc, station, Folder::Doubt)?;
    let sent = names_of(disk, alloc, station, Folder::Sent)?;
    for name in &names {
        let tidied = tidy_doubt(disk, alloc, station, name.as_str(), sent.as_slice());
        tidied.map_err(|error| FolderFault::of(Folder::Doubt, &error))?;
    }
    Ok(())
}

/// The names in a folder of the station, in no order.
pub(crate) fn names_of<D: FolderDisk>(
    disk: &D,
    alloc: Global,
    station: &str,
    folder: Folder,
) -> Result<Vec<String>, FolderFault> {
    let path = format!(in alloc; "{station}/{}", folder.as_str())?;
    match disk.names_in(alloc, path.as_str()) {
        Ok(names) => Ok(names),
        Err(error) => Err(FolderFault::of(folder, &error)),
    }
}

/// The names in out/ of what lies ready, in the order of their bytes.
pub(crate) fn names_ready<D: FolderDisk>(
    disk: &D,
    alloc: Global,
    station: &str,
) -> io::Result<Vec<String>>
    ensures { IfOk result (λ names. AreInOrder names.items) }
{
    let path = Folder::Out.own_path(alloc, station)?;
    let mut ready = Vec::new(alloc);
    // Listed once a file has a second name.
    let mut kept = None;
    for name in disk.names_in(alloc, path.as_str())? {
        if !is_left_alone(name.as_str())
            && !is_passed_over(disk, alloc, station, name.as_str(), &mut kept)?
        {
            ready.push(name)?;
        }
    }
    Ok(ready_names(ready)?)
}

/// Whether a name in out/ is passed over: its file has one in sent/, doubt/ or refused/ too, is there no more, or can't be read. It fails for
/// want of memory alone.
fn is_passed_over<D: FolderDisk>(
    disk: &D,
    alloc: Global,
    station: &str,
    name: &str,
    kept: &mut Option<KeptNames>,
) -> io::Result<bool> {
    match has_other_name(disk, alloc, station, name, kept) {
        Err(error) if error.kind() != ErrorKind::OutOfMemory => Ok(true),
        looked => looked,
    }
}

/// Whether the file of a name in out/ has one in sent/, doubt/ or refused/ too, or is there no more. The names there are listed where they are asked for.
fn has_other_name<D: FolderDisk>(
    disk: &D,
    alloc: Global,
    station: &str,
    name: &str,
    kept: &mut Option<KeptNames>,
) -> io::Result<bool> {
    match names_of_file(disk, alloc, station, name)? {
        0 => return Ok(true),
        1 => return Ok(false),
        _ => {}
    }
    if kept.is_none() {
        *kept = Some(KeptNames::listed(disk, alloc, station)?);
    }
    match kept {
        Some(kept) => has_kept_name(disk, alloc, station, name, kept),
        None => Ok(false),
    }
}

/// How many names in out/ are no text.
pub(crate) fn unreadable_names<D: FolderDisk>(
    disk: &D,
    alloc: Global,
    station: &str,
) -> io::Result<usize> {
    let path = Folder::Out.own_path(alloc, station)?;
    disk.count_unreadable_names(path.as_str())
}

/// Whether one of the files is there by which the operator orders something of the station.
pub(crate) fn is_there<D: FolderDisk>(
    disk: &D,
    alloc: Global,
    station: &str,
    name: &str,
) -> Result<bool, FolderFault> {
    let path = format!(in alloc; "{station}/{name}")?;
    match disk.status(path.as_str()) {
        Ok(_) => Ok(true),
        Err(error) if error.kind() == ErrorKind::NotFound => Ok(false),
        Err(error) => Err(FolderFault::own(&error)),
    }
}

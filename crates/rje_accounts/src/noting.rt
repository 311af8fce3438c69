//! How a count is noted: an empty file, whose name says it.
ghost use Rattle.std.specs.Prelude.{◌≡◌, IsTrue, OnOk, true};
ghost use Rattle.rje_store.specs.Disk.{has_synced_name};
ghost use Rattle.rje_store.specs.Replacing.{Adds};
ghost use Rattle.rje_settle.specs.declared.settle_name.SettleName.{SettleName as Named};
ghost use Rattle.rje_accounts.specs.Inside.Calls.{IsRemovalBeside};
ghost use Rattle.rje_accounts.specs.Noting.{IsNoted, MayDropOlder, MayMake, MayNote, MayMakeAgain, is_older};
ghost use Rattle.rje_accounts.specs.Paths.{settle_path};

use crate::accounts_fault::AccountsFault;
use crate::naming::{settle_folder, settle_path};
use crate::syncing::sync_names;
use rje_folder::FolderDisk;
use rje_settle::{Receipt, SettleName};
use rje_store::{Disk, NewAccess};
use std::alloc::Global;
use std::io::{self, ErrorKind};

/// The other end is known to have kept this: on disk. The names of fewer jobs go away after that, where they can.
pub fn note_sent<D: FolderDisk>(
    disk: &mut D,
    alloc: Global,
    station: &str,
    known: Receipt,
) -> Result<(), AccountsFault>
    ensures asks { D.discloses → Adds (MayNote station.now (Named.Sent known))
        (D.asked disk.old) (D.asked disk.new) }
    ensures noted { D.discloses → OnOk result
        (IsNoted (settle_path station.now (Named.Sent known)) (D.asked disk.new)) }
{
    let noted = SettleName::Sent(known);
    let path = settle_path(alloc, station, noted)?;
    note(disk, path.as_str())?;
    let _ = drop_older(disk, alloc, station, noted, path.as_str());
    Ok(())
}

/// Makes an empty file of this path, on disk; it may be there already.
fn note<D: Disk>(disk: &mut D, path: &str) -> io::Result<()>
    ensures asks { D.discloses
        → Adds (MayMakeAgain path.now) (D.asked disk.old) (D.asked disk.new) }
    ensures noted { D.discloses → OnOk result (IsNoted path.now (D.asked disk.new)) }
{
    match note_new(disk, path) {
        Ok(()) => Ok(()),
        Err(error) if error.kind() == ErrorKind::AlreadyExists => note_again(disk, path),
        Err(error) => Err(error),
    }
}

/// Makes a new, empty file of this path, on disk.
pub(crate) fn note_new<D: Disk>(disk: &mut D, path: &str) -> io::Result<()>
    ensures asks { D.discloses → Adds (MayMake path.now) (D.asked disk.old) (D.asked disk.new) }
    ensures noted { D.discloses → OnOk result (IsNoted path.now (D.asked disk.new)) }
{
    let folder = disk.open_folder(path)?;
    disk.create(path, NewAccess::Private)?;
    sync_names(disk, &folder)
}

/// Puts the name of a file on disk that is there already.
fn note_again<D: Disk>(disk: &mut D, path: &str) -> io::Result<()>
    ensures asks { D.discloses
        → Adds (MayMakeAgain path.now) (D.asked disk.old) (D.asked disk.new) }
    ensures noted { D.discloses → OnOk result (IsNoted path.now (D.asked disk.new)) }
{
    let folder = disk.open_folder(path)?;
    disk.open_to_write(path)?;
    sync_names(disk, &folder)
}

/// Takes the names away that tell fewer jobs than this one, which is on disk under this path.
pub(crate) fn drop_older<D: FolderDisk>(
    disk: &mut D,
    alloc: Global,
    station: &str,
    noted: SettleName,
    path: &str,
) -> io::Result<()>
    requires path { path.now ≡ settle_path station.now noted }
    requires noted { D.discloses → IsNoted path.now (D.asked disk.old) }
    ensures asks { D.discloses → Adds (MayDropOlder station.now noted)
        (D.asked disk.old) (D.asked disk.new) }
    ensures noted { D.discloses → IsNoted path.now (D.asked disk.new) }
{
    let folder = settle_folder(alloc, station)?;
    for text in disk.names_in(alloc, folder.as_str())? {
        drop_if_older(disk, alloc, station, text.as_str(), noted, path)?;
    }
    Ok(())
}

/// Takes a name away that tells fewer jobs than this one, which is on disk under this path.
fn drop_if_older<D: Disk>(
    disk: &mut D,
    alloc: Global,
    station: &str,
    text: &str,
    noted: SettleName,
    path: &str,
) -> io::Result<()>
    requires path { path.now ≡ settle_path station.now noted }
    requires noted { D.discloses → IsNoted path.now (D.asked disk.old) }
    ensures asks { D.discloses → Adds (MayDropOlder station.now noted)
        (D.asked disk.old) (D.asked disk.new) }
    ensures noted { D.discloses → IsNoted path.now (D.asked disk.new) }
{
    match SettleName::read(text.as_bytes()) {
        Some(name) if is_older(name, noted) => drop_name(disk, alloc, station, name, path),
        _ => Ok(()),
    }
}

/// Takes a name away, unless it has this path.
fn drop_name<D: Disk>(
    disk: &mut D,
    alloc: Global,
    station: &str,
    name: SettleName,
    kept: &str,
) -> io::Result<()>
    ensures { D.discloses → IsRemovalBeside (settle_path station.now name) kept.now
        (D.asked disk.old) (D.asked disk.new) }
{
    let path = settle_path(alloc, station, name)?;
    if path.as_str() == kept {
        return Ok(());
    }
    disk.remove(path.as_str())
}

/// Whether a name tells fewer jobs than another one of its kind.
fn is_older(name: SettleName, noted: SettleName) -> bool
    ensures { result ≡ is_older name noted }
{
    match (name, noted) {
        (SettleName::Sent(older), SettleName::Sent(newer)) => older.kept < newer.kept,
        (SettleName::Kept(older), SettleName::Kept(newer)) => older.kept < newer.kept,
        _ => false,
    }
}

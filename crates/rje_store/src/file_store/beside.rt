//! Files beside a file, by way of which it is replaced whole or not at all.
ghost use Rattle.std.specs.Prelude.{◌≡◌, ◌∷◌, IfOk, OnOk, IsErrOf, ℕ, List, None, length, true, string_bytes, IfSome};
ghost use Rattle.rje_store.specs.Disk.{Asked, Call, SyncFolder, bytes_of, call_of, is_synced, has_synced_name};
ghost use Rattle.rje_store.specs.Replacing.{Adds, HasTried, IsBeside, IsNewBeside, IsOnDisk, IsPrivate, IsWhole, LeadsTo, MayReplace, MayTry};
ghost use Rattle.rje_store.specs.Inside.Filling.{AddsSync, Fills, IsSecond, KeepsNames, MayFill, MayGive, MayLink, new_access};

use super::locks::FileLock;
use crate::disk::{Disk, FileAccess, FileKind};
use crate::new_access::NewAccess;
use crate::store::StoreFault;
use std::alloc::Global;
use std::io::{self, ErrorKind};

/// How many names are tried for a file beside another.
const MAX_NAMES: u32 = 1000;

/// A file beside another: open and empty, under a name of its own.
#[derive(Drop)]
pub(super) struct Beside<F: Drop> {
    pub(super) file: F,
    pub(super) path: String,
}

/// The path of the file that a symbolic link leads to, where it leads to one; else the name itself. A link that the system doesn't follow, as one of
/// another user's in a folder that all may write to, is a failure.
pub(super) fn resolved<D: Disk>(disk: &D, alloc: Global, name: &str) -> io::Result<String>
    ensures { IfOk result (λ path. LeadsTo D.leads name.now (string_bytes path)) }
{
    if is_link_to_file(disk, name)? {
        disk.whole_path(alloc, name)
    } else {
        Ok(String::from_str(alloc, name)?)
    }
}

/// Whether this is a symbolic link, and not one to a device or a pipe.
fn is_link_to_file<D: Disk>(disk: &D, name: &str) -> io::Result<bool> {
    match disk.is_link(name) {
        Ok(true) => match disk.status(name) {
            Ok(found) => Ok(found.kind == FileKind::Regular),
            Err(error) if error.kind() == ErrorKind::NotFound => Ok(true),
            Err(error) => Err(error),
        },
        Ok(false) => Ok(false),
        Err(error) if error.kind() == ErrorKind::NotFound => Ok(false),
        Err(error) => Err(error),
    }
}

/// Whether both names lead to one file that is there, by links and dots or as two names of it.
pub(super) fn lead_to_one<D: Disk>(
    disk: &D,
    alloc: Global,
    one: &str,
    other: &str,
) -> io::Result<bool> {
    let Some(one) = whole_path(disk, alloc, one)? else {
        return Ok(false);
    };
    let Some(other) = whole_path(disk, alloc, other)? else {
        return Ok(false);
    };
    let found = disk.status(one.as_str())?;
    let also = disk.status(other.as_str())?;
    Ok(one.as_str() == other.as_str() || found.device == also.device && found.inode == also.inode)
}

/// The path of the file that a name leads to, without links and dots, where there is one.
fn whole_path<D: Disk>(disk: &D, alloc: Global, name: &str) -> io::Result<Option<String>> {
    match disk.whole_path(alloc, name) {
        Ok(path) => Ok(Some(path)),
        Err(error) if error.kind() == ErrorKind::NotFound => Ok(None),
        Err(error) => Err(error),
    }
}

/// Looks whether a file can be made beside this one, and leaves none.
pub(super) fn try_beside<D: Disk>(disk: &mut D, alloc: Global, path: &str) -> io::Result<()>
    ensures asks { D.discloses → Adds (MayTry path.now) (D.asked disk.old) (D.asked disk.new) }
    ensures tried { D.discloses → OnOk result (HasTried path.now (D.asked disk.new)) }
{
    disk.open_folder(path)?;
    let beside = create_beside(disk, alloc, path, NewAccess::Usual)?;
    disk.remove(beside.path.as_str())
}

/// Puts a file of these bytes in the place of this one, with this access, on disk: whole, or nothing changes. The new file, open; it is locked before it
/// has its place, if the one of this path is. Busy where another file has the path than the locked one. Unsynced where the new file is in its place and
/// only its name may not be on disk.
pub(super) fn replace<D: Disk>(
    disk: &mut D,
    alloc: Global,
    path: &str,
    lock: Option<&FileLock<D::File>>,
    access: Option<FileAccess>,
    bytes: &[u8],
) -> Result<D::File, StoreFault>
    ensures asks { D.discloses
        → Adds (MayReplace path.now bytes.now) (D.asked disk.old) (D.asked disk.new) }
    ensures on_disk { D.discloses → OnOk result (IsOnDisk path.now bytes.now (D.asked disk.new)) }
    ensures in_place { D.discloses → IsErrOf result StoreFault.Unsynced
        → IsWhole path.now bytes.now (D.asked disk.new) }
{
    // Opened before anything is written, since a name that was changed in a folder that can't be opened is not known to be on disk.
    let folder = disk.open_folder(path)?;
    let beside = create_beside(disk, alloc, path, access_until(access))?;
    match put_in_place(disk, &beside, path, lock, access, bytes) {
        Ok(()) => {
            sync_folder(disk, &folder)?;
            Ok(beside.file)
        }
        Err(error) => {
            let _ = disk.remove(beside.path.as_str());
            Err(StoreFault::from(error))
        }
    }
}

/// For whom a new file is made that is to get this access, or has the usual.
fn access_until(access: Option<FileAccess>) -> NewAccess
    ensures { result ≡ new_access access }
{
    match access {
        Some(_) => NewAccess::Private,
        None => NewAccess::Usual,
    }
}

/// Gives a path to a new file beside it, once that has these bytes and is on disk.
fn put_in_place<D: Disk>(
    disk: &mut D,
    beside: &Beside<D::File>,
    path: &str,
    lock: Option<&FileLock<D::File>>,
    access: Option<FileAccess>,
    bytes: &[u8],
) -> io::Result<()>
    requires { D.discloses → IsNewBeside (new_access access) path.now
        (D.opened beside.now.file) (string_bytes beside.now.path) (D.asked disk.old) }
    ensures asks { D.discloses
        → Adds (MayReplace path.now bytes.now) (D.asked disk.old) (D.asked disk.new) }
    ensures whole { D.discloses → OnOk result (IsWhole path.now bytes.now (D.asked disk.new)) }
{
    fill(disk, &beside.file, access, bytes)?;
    succeeds(disk, &beside.file, path, lock)?;
    disk.rename(beside.path.as_str(), path)
}

/// Locks a new file that is to have this path, if the one there is locked: so it is at no moment anybody else's. Busy where another file has the path than
/// the locked one, or where one has it that was nobody's when it was locked.
fn succeeds<D: Disk>(
    disk: &D,
    new: &D::File,
    path: &str,
    lock: Option<&FileLock<D::File>>,
) -> io::Result<()> {
    let Some(lock) = lock else {
        return Ok(());
    };
    // (where there are no locks the file beside keeps the other commands out)
    let _ = disk.try_lock(new);
    if lock.own().still_has(disk, path)? {
        Ok(())
    } else {
        Err(io::Error::from(ErrorKind::ResourceBusy))
    }
}

/// The name beside this one that has this number.
fn name_beside(alloc: Global, path: &str, number: u32) -> io::Result<String>
    ensures { IfOk result (λ name. IsBeside path.now (string_bytes name)) }
{
    Ok(format!(in alloc; "{path}.rje-{number}")?)
}

/// A new file beside this one, for those whom `access` says: where it gets the access of another file, nobody but its owner may read anything before.
pub(super) fn create_beside<D: Disk>(
    disk: &mut D,
    alloc: Global,
    path: &str,
    access: NewAccess,
) -> io::Result<Beside<D::File>>
    ensures asks { D.discloses → Adds (MayTry path.now) (D.asked disk.old) (D.asked disk.new) }
    ensures new { D.discloses → IfOk result (λ beside. IsNewBeside access path.now
        (D.opened beside.file) (string_bytes beside.path) (D.asked disk.new)) }
{
    for number in 0..MAX_NAMES {
        let beside = name_beside(alloc, path, number)?;
        match disk.create(beside.as_str(), access) {
            Ok(file) => return Ok(Beside { file, path: beside }),
            Err(error) if error.kind() == ErrorKind::AlreadyExists => {}
            Err(error) => return Err(error),
        }
    }
    Err(io::Error::from(ErrorKind::AlreadyExists))
}

/// A second name, beside the first, for the file that is there; not the one that is said to be taken, for which the system isn't asked.
pub(super) fn link_beside<D: Disk>(
    disk: &mut D,
    alloc: Global,
    path: &str,
    taken: &str,
) -> io::Result<String>
    ensures asks { D.discloses → Adds (MayLink path.now) (D.asked disk.old) (D.asked disk.new) }
    ensures keeps { D.discloses → KeepsNames (D.asked disk.old) (D.asked disk.new) }
    ensures second { D.discloses → IfOk result (λ second. IsSecond path.now
        (string_bytes second) (D.asked disk.old) (D.asked disk.new)) }
{
    for number in 0..MAX_NAMES {
        let beside = name_beside(alloc, path, number)?;
        let name = beside.as_str();
        if name != taken {
            match disk.link(path, name) {
                Ok(()) => return Ok(beside),
                Err(error) if error.kind() == ErrorKind::AlreadyExists => {}
                Err(error) => return Err(error),
            }
        }
    }
    Err(io::Error::from(ErrorKind::AlreadyExists))
}

/// Gives a new file its access, writes the bytes and has all on disk.
fn fill<D: Disk>(
    disk: &mut D,
    file: &D::File,
    access: Option<FileAccess>,
    bytes: &[u8],
) -> io::Result<()>
    ensures asks { D.discloses
        → IfSome access (λ _. IsPrivate (D.opened file.now) (D.asked disk.old))
        → Adds (MayFill (D.opened file.now)) (D.asked disk.old) (D.asked disk.new) }
    ensures filled { D.discloses → OnOk result
        (Fills (D.opened file.now).number bytes.now (D.asked disk.old) (D.asked disk.new)) }
{
    match access {
        Some(access) => {
            give_access(disk, file, access)?;
            fill_on_disk(disk, file, bytes)
        }
        None => fill_on_disk(disk, file, bytes),
    }
}

/// Gives a file its owner and its group, and then its mode. Where it can't have the group, nobody but its owner may read and write it.
pub(super) fn give_access<D: Disk>(
    disk: &mut D,
    file: &D::File,
    access: FileAccess,
) -> io::Result<()>
    ensures asks { D.discloses → IsPrivate (D.opened file.now) (D.asked disk.old)
        → Adds (MayGive (D.opened file.now)) (D.asked disk.old) (D.asked disk.new) }
    ensures same { D.discloses → (number : ℕ)
        → bytes_of number (D.asked disk.new) ≡ bytes_of number (D.asked disk.old) }
{
    let mode = match disk.set_owner(file, access.owner, access.group)? {
        true => access.mode & 0o777,
        false => access.mode & 0o700,
    };
    disk.set_mode(file, mode)
}

/// Writes the bytes and has them on disk.
fn fill_on_disk<D: Disk>(disk: &mut D, file: &D::File, bytes: &[u8]) -> io::Result<()>
    ensures asks { D.discloses
        → Adds (MayFill (D.opened file.now)) (D.asked disk.old) (D.asked disk.new) }
    ensures filled { D.discloses → OnOk result
        (Fills (D.opened file.now).number bytes.now (D.asked disk.old) (D.asked disk.new)) }
{
    disk.fill(file, bytes)?;
    disk.sync(file)
}

/// Puts the names in this folder on disk, one of which has just been given to another file.
pub(super) fn sync_folder<D: Disk>(disk: &mut D, folder: &D::Folder) -> Result<(), StoreFault>
    ensures asks { D.discloses
        → AddsSync (D.folder_of folder.now) (D.asked disk.old) (D.asked disk.new) }
    ensures synced { D.discloses
        → OnOk result (has_synced_name (D.folder_of folder.now) (D.asked disk.new) ≡ true) }
{
    match disk.sync_folder(folder) {
        Ok(()) => Ok(()),
        // Some file systems keep no names to be put on disk.
        Err(error) if error.kind() == ErrorKind::InvalidInput => Ok(()),
        Err(_) => Err(StoreFault::Unsynced),
    }
}

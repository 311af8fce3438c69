//! How this file of a name gets a second one, and no other file that takes its name meanwhile.
ghost use Rattle.std.specs.Prelude.{◌≡◌, true, IfOk, IfSome, OnOk, string_bytes};
ghost use Rattle.rje_store.specs.Replacing.{Adds};
ghost use Rattle.rje_folder.specs.FileNames.{IsNameOf};
ghost use Rattle.rje_folder.specs.Keeping.{IsTemporary};
ghost use Rattle.rje_folder.specs.Moving.{IsSecond, MayDrop};
ghost use Rattle.rje_folder.specs.Trying.{IsLockedAs, MayAddOf, MayNameTried, MayTry};
ghost use Rattle.rje_folder.specs.Inside.Calls.{HasLinked, HasNamed, HasSpared};

use crate::file_identity::FileIdentity;
use crate::file_names::FileNames;
use crate::folder_disk::FolderDisk;
use crate::linking::{SecondName, link_free, sync_names};
use crate::moving::{drop_name, is_this_file, remove_spare};
use std::alloc::Global;
use std::fs::TryLockError;
use std::io::{self, ErrorKind};

/// A second name that a file got, and the file, which is locked as long as it is open.
#[derive(Drop)]
pub(crate) struct AddedName<F: Drop> {
    pub(crate) path: String,
    pub(crate) lock: F,
}

/// Gives this file of a name a second one, on disk: the first of these that no file has. Whatever has the name is tried first, by a hidden name in this
/// folder, and gets the second one by that, once it is seen to be the file, and is locked. None if another file has the name, or this one was written to:
/// then it has no second name; busy if one that was written to can't lose it again, as where it has lost the first. It would block if a command has it
/// locked.
pub(crate) fn add_name_of<D: FolderDisk>(
    disk: &mut D,
    alloc: Global,
    folder: &str,
    name: &str,
    names: FileNames<'_>,
    file: FileIdentity,
) -> io::Result<Option<AddedName<D::File>>>
    ensures asks { D.discloses → Adds (MayAddOf D.is_file D.are_one
        (record { folder = folder.now; name = name.now; file = file }) (IsNameOf names.entry))
        (D.asked disk.old) (D.asked disk.new) }
    ensures second { D.discloses → (IsTemporary folder.now name.now → ⊥)
        → IfOk result (λ added. IfSome added (λ added.
        IsSecond name.now (string_bytes added.path) (D.asked disk.old) (D.asked disk.new))) }
    ensures file { IfOk result (λ added. IfSome added (λ added.
        D.is_file (D.asked disk.new) (string_bytes added.path) file)) }
    ensures named { IfOk result (λ added. IfSome added (λ added.
        IsNameOf names.entry (string_bytes added.path))) }
    ensures locked { D.discloses → IfOk result (λ added. IfSome added (λ added.
        IsLockedAs D.is_locked D.is_open added.lock file (D.asked disk.new))) }
{
    let Some(AddedName { path: tried, lock }) = try_name(disk, alloc, folder, name, file)? else {
        return Ok(None);
    };
    let second = name_tried(disk, alloc, tried.as_str(), names)?;
    let same = is_this_file(disk, second.as_str(), file);
    if let Ok(true) = same {
        return Ok(Some(AddedName { path: second, lock }));
    }
    let dropped = drop_name(disk, name, second.as_str());
    if let Ok(true) = dropped {
        same?;
        return Ok(None);
    }
    Err(io::Error::from(ErrorKind::ResourceBusy))
}

/// Gives whatever has a name a hidden one in a folder, if it is this file, and locks it. That name. If it isn't, or can't be locked, the hidden name is
/// taken away again, if it can be.
fn try_name<D: FolderDisk>(
    disk: &mut D,
    alloc: Global,
    folder: &str,
    name: &str,
    file: FileIdentity,
) -> io::Result<Option<AddedName<D::File>>>
    ensures asks { D.discloses → Adds (MayTry folder.now name.now)
        (D.asked disk.old) (D.asked disk.new) }
    ensures linked { D.discloses → IfOk result (λ tried. IfSome tried (λ tried.
        HasLinked name.now (string_bytes tried.path) (D.asked disk.old) (D.asked disk.new))) }
    ensures file { IfOk result (λ tried. IfSome tried (λ tried.
        D.is_file (D.asked disk.new) (string_bytes tried.path) file)) }
    ensures named { IfOk result (λ tried. IfSome tried (λ tried.
        IsTemporary folder.now (string_bytes tried.path))) }
    ensures locked { IfOk result (λ tried. IfSome tried (λ tried.
        D.is_locked tried.lock × D.is_open (D.asked disk.new) tried.lock file)) }
{
    let stem = format!(in alloc; "{folder}/.rje")?;
    let names = FileNames::Numbered {
        stem: stem.as_str(),
        ending: ".part",
        first: 0,
    };
    let tried = link_free(disk, alloc, name, names)?.path;
    let locked = lock_tried(disk, name, tried.as_str(), file);
    if let Ok(Some(lock)) = locked {
        return Ok(Some(AddedName { path: tried, lock }));
    }
    let _ = disk.remove(tried.as_str());
    locked?;
    Ok(None)
}

/// Locks the file that was tried by a hidden name, if it is this one. None if it isn't, or if another one has its name by then, as a command that had it
/// locked has put it there.
fn lock_tried<D: FolderDisk>(
    disk: &D,
    name: &str,
    tried: &str,
    file: FileIdentity,
) -> io::Result<Option<D::File>>
    ensures file { IfOk result (λ lock. IfSome lock (λ _.
        D.is_file (D.asked disk.now) tried.now file)) }
    ensures locked { IfOk result (λ lock. IfSome lock (λ lock.
        D.is_locked lock × D.is_open (D.asked disk.now) lock file)) }
{
    if !is_this_file(disk, tried, file)? {
        return Ok(None);
    }
    let lock = disk.open_to_read(tried)?;
    lock_to_read(disk, &lock)?;
    if disk.identity_of(&lock)? == file && is_this_file(disk, name, file)? {
        Ok(Some(lock))
    } else {
        Ok(None)
    }
}

/// Locks an open file against those who write it. It would block where one of them has it locked.
pub(crate) fn lock_to_read<D: FolderDisk>(disk: &D, file: &D::File) -> io::Result<()>
    ensures { OnOk result (D.is_locked file.now) }
{
    match disk.try_lock_to_read(file) {
        Ok(()) => Ok(()),
        Err(TryLockError::WouldBlock) => Err(io::Error::from(ErrorKind::WouldBlock)),
        Err(TryLockError::Error(error)) => Err(error),
    }
}

/// Gives the file that was tried another name, on disk: the first of these that no file has. The hidden name is taken away; where that fails, the new one
/// is, if it can be.
fn name_tried<D: FolderDisk>(
    disk: &mut D,
    alloc: Global,
    tried: &str,
    names: FileNames<'_>,
) -> io::Result<String>
    ensures asks { D.discloses → Adds (MayNameTried D.are_one tried.now (IsNameOf names.entry))
        (D.asked disk.old) (D.asked disk.new) }
    ensures has { D.discloses → IfOk result (λ second. HasNamed tried.now
        (string_bytes second) (D.asked disk.old) (D.asked disk.new)) }
    ensures named { IfOk result (λ second. IsNameOf names.entry (string_bytes second)) }
{
    let second = match link_free(disk, alloc, tried, names) {
        Ok(second) => second,
        Err(error) => {
            let _ = disk.remove(tried);
            return Err(error);
        }
    };
    let spared = spare_tried(disk, tried, &second);
    if let Ok(true) = spared {
        return Ok(second.path);
    }
    let _ = drop_name(disk, tried, second.path.as_str());
    let _ = disk.remove(tried);
    spared?;
    Err(io::Error::from(ErrorKind::ResourceBusy))
}

/// Puts a second name on disk, and takes the hidden one away by which the file was tried. `false` where the two aren't of one file.
fn spare_tried<D: FolderDisk>(
    disk: &mut D,
    tried: &str,
    second: &SecondName<D::Folder>,
) -> io::Result<bool>
    requires folder { D.discloses → D.folder_of second.now.folder ≡ string_bytes second.now.path }
    ensures asks { D.discloses → Adds (MayDrop D.are_one (string_bytes second.now.path) tried.now)
        (D.asked disk.old) (D.asked disk.new) }
    ensures spared { D.discloses → IfOk result (λ spared. spared ≡ true → HasSpared tried.now
        (string_bytes second.now.path) (D.asked disk.old) (D.asked disk.new)) }
{
    sync_names(disk, &second.folder)?;
    remove_spare(disk, second.path.as_str(), tried)
}

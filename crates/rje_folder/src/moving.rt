//! How a file is moved, and how a name is taken away from one that has another: at each moment the file has a name that is on disk.
ghost use Rattle.std.specs.Prelude.{◌≡◌, true, IfOk, string_bytes};
ghost use Rattle.rje_store.specs.Disk.{has_synced_name};
ghost use Rattle.rje_store.specs.Replacing.{Adds};
ghost use Rattle.rje_folder.specs.FileNames.{IsNameOf};
ghost use Rattle.rje_folder.specs.Moving.{IsGone, IsMoved, IsSecond, MayAdd, MayDrop, MayMove};
ghost use Rattle.rje_folder.specs.Inside.Calls.{HasRemoved, HasTaken, IsChanged};

use crate::file_identity::FileIdentity;
use crate::file_names::FileNames;
use crate::folder_disk::FolderDisk;
use crate::linking::{link_free, sync_names};
use std::alloc::Global;
use std::io::{self, ErrorKind};

/// Moves a file: it gets the first of these names that no file has, and loses the one that it had. The name that it has now. Where that fails,
/// it may have both. Busy where another file has taken the name that it had.
pub fn move_file<D: FolderDisk>(
    disk: &mut D,
    alloc: Global,
    from: &str,
    names: FileNames<'_>,
) -> io::Result<String>
    ensures asks { D.discloses
        → Adds (MayMove D.are_one from.now (IsNameOf names.entry))
        (D.asked disk.old) (D.asked disk.new) }
    ensures moved { D.discloses → IfOk result (λ to. IsMoved from.now (string_bytes to)
        (D.asked disk.old) (D.asked disk.new)) }
    ensures named { IfOk result (λ to. IsNameOf names.entry (string_bytes to)) }
{
    let old_folder = disk.open_folder(from)?;
    let path = change_name(disk, alloc, from, names)?;
    sync_names(disk, &old_folder)?;
    Ok(path)
}

/// Moves a file as `move_file` does, but that the name it had is gone is left to the next sync of its folder: where the power fails before that,
/// the file may have both.
pub(crate) fn change_name<D: FolderDisk>(
    disk: &mut D,
    alloc: Global,
    from: &str,
    names: FileNames<'_>,
) -> io::Result<String>
    ensures asks { D.discloses
        → Adds (MayMove D.are_one from.now (IsNameOf names.entry))
        (D.asked disk.old) (D.asked disk.new) }
    ensures changed { D.discloses → IfOk result (λ to. IsChanged from.now (string_bytes to)
        (D.asked disk.old) (D.asked disk.new)) }
    ensures named { IfOk result (λ to. IsNameOf names.entry (string_bytes to)) }
{
    let second = link_free(disk, alloc, from, names)?;
    sync_names(disk, &second.folder)?;
    if remove_spare(disk, second.path.as_str(), from)? {
        Ok(second.path)
    } else {
        Err(io::Error::from(ErrorKind::ResourceBusy))
    }
}

/// Gives a file a second name, on disk: the first of these that no file has. Where that fails, the second name is taken away again, if it can
/// be.
pub fn add_name<D: FolderDisk>(
    disk: &mut D,
    alloc: Global,
    name: &str,
    names: FileNames<'_>,
) -> io::Result<String>
    ensures asks { D.discloses
        → Adds (MayAdd D.are_one name.now (IsNameOf names.entry))
        (D.asked disk.old) (D.asked disk.new) }
    ensures second { D.discloses → IfOk result (λ second. IsSecond name.now
        (string_bytes second) (D.asked disk.old) (D.asked disk.new)) }
    ensures named { IfOk result (λ second. IsNameOf names.entry (string_bytes second)) }
{
    let second = link_free(disk, alloc, name, names)?;
    match sync_names(disk, &second.folder) {
        Ok(()) => Ok(second.path),
        Err(error) => {
            let _ = drop_name(disk, name, second.path.as_str());
            Err(error)
        }
    }
}

/// Takes a name away from a file that has another one, which is put on disk before that. `false`, and the name stays, where the two names are
/// not of one file.
pub fn drop_name<D: FolderDisk>(disk: &mut D, kept: &str, name: &str) -> io::Result<bool>
    ensures asks { D.discloses
        → Adds (MayDrop D.are_one kept.now name.now) (D.asked disk.old) (D.asked disk.new) }
    ensures dropped { D.discloses → IfOk result (λ dropped.
        dropped ≡ true → IsGone name.now (D.asked disk.new)) }
    ensures kept { D.discloses → IfOk result (λ dropped.
        dropped ≡ true → has_synced_name kept.now (D.asked disk.new) ≡ true) }
{
    let kept_folder = disk.open_folder(kept)?;
    let folder = disk.open_folder(name)?;
    sync_names(disk, &kept_folder)?;
    take_away(disk, kept, name, &folder)
}

/// Takes a name away, whose folder is open, where its file has this other one, which is on disk. `false` where it hasn't.
pub(crate) fn take_away<D: FolderDisk>(
    disk: &mut D,
    kept: &str,
    name: &str,
    folder: &D::Folder,
) -> io::Result<bool>
    requires kept { D.discloses → has_synced_name kept.now (D.asked disk.old) ≡ true }
    requires folder { D.discloses → D.folder_of folder.now ≡ name.now }
    ensures asks { D.discloses
        → Adds (MayDrop D.are_one kept.now name.now) (D.asked disk.old) (D.asked disk.new) }
    ensures taken { D.discloses → IfOk result (λ taken.
        taken ≡ true → HasTaken kept.now name.now (D.asked disk.old) (D.asked disk.new)) }
{
    if !remove_spare(disk, kept, name)? {
        return Ok(false);
    }
    sync_names(disk, folder)?;
    Ok(true)
}

/// Takes a name away where its file has this other one, which is on disk. `false` where it hasn't.
pub(crate) fn remove_spare<D: FolderDisk>(disk: &mut D, kept: &str, name: &str) -> io::Result<bool>
    requires kept { D.discloses → has_synced_name kept.now (D.asked disk.old) ≡ true }
    ensures asks { D.discloses
        → Adds (MayDrop D.are_one kept.now name.now) (D.asked disk.old) (D.asked disk.new) }
    ensures removed { D.discloses → IfOk result (λ removed.
        removed ≡ true → HasRemoved kept.now name.now (D.asked disk.old) (D.asked disk.new)) }
{
    if kept == name || !disk.is_one_file(kept, name)? {
        return Ok(false);
    }
    disk.remove(name)?;
    Ok(true)
}

/// Whether this file stands under a name.
pub(crate) fn is_this_file<D: FolderDisk>(
    disk: &D,
    name: &str,
    file: FileIdentity,
) -> io::Result<bool>
    ensures { IfOk result (λ is. is ≡ true → D.is_file (D.asked disk.now) name.now file) }
{
    Ok(disk.identity(name)? == file)
}

//! How the name in out/ is taken away from a file that has another one, so that another file which gets the name meanwhile keeps it.
ghost use Rattle.std.specs.Prelude.{◌≡◌, ◌≢◌, true, IfOk};
ghost use Rattle.rje_store.specs.Disk.{has_synced_name};
ghost use Rattle.rje_store.specs.Replacing.{Adds};
ghost use Rattle.rje_folder.specs.declared.folder.Folder.{Folder as Place};
ghost use Rattle.rje_folder.specs.Folder.{path_in};
ghost use Rattle.rje_folder.specs.Moving.{IsGone, MayMove};
ghost use Rattle.rje_folder.specs.TakingOut.{MayTakeBy, MayTakeOut};

use crate::folder::Folder;
use crate::folder_disk::FolderDisk;
use crate::linking::sync_names;
use crate::moving::{remove_spare, take_away};
use crate::taking_over::free_name;
use std::alloc::Global;
use std::io;

/// The most bytes of a name that always has a hidden one, of 255 bytes at most: `.NAME.taken-N`, where N has up to ten digits.
const LONGEST: usize = 237;

/// Takes a name in out/ away, by its open folder, from a file that has this other path, which is on disk. `false` if the name is another file's, which
/// keeps it; if that one can't have it back at once, it has a hidden name until it is given that back. A
/// name that is too long for a hidden one is taken away as it is found.
pub(crate) fn take_out<D: FolderDisk>(
    disk: &mut D,
    alloc: Global,
    station: &str,
    name: &str,
    kept: &str,
    folder: &D::Folder,
) -> io::Result<bool>
    requires kept { D.discloses → has_synced_name kept.now (D.asked disk.old) ≡ true }
    requires folder { D.discloses
        → D.folder_of folder.now ≡ path_in station.now Place.Out name.now }
    ensures asks { D.discloses → Adds (MayTakeOut D.are_one station.now name.now kept.now)
        (D.asked disk.old) (D.asked disk.new) }
    ensures taken { D.discloses → IfOk result (λ taken. taken ≡ true
        → IsGone (path_in station.now Place.Out name.now) (D.asked disk.new)) }
{
    let ready = Folder::Out.path(alloc, station, name)?;
    if name.len() > LONGEST {
        return take_away(disk, kept, ready.as_str(), folder);
    }
    let hidden = free_name(disk, alloc, station, name)?;
    let path = Folder::Out.path(alloc, station, hidden.as_str())?;
    take_by(disk, ready.as_str(), path.as_str(), kept, folder)
}

/// Takes a name in out/ away from a file that has this other path, which is put on disk before that. `false` if another file has the name.
pub(crate) fn take_from_out<D: FolderDisk>(
    disk: &mut D,
    alloc: Global,
    station: &str,
    name: &str,
    kept: &str,
) -> io::Result<bool>
    ensures asks { D.discloses → Adds (MayTakeOut D.are_one station.now name.now kept.now)
        (D.asked disk.old) (D.asked disk.new) }
    ensures taken { D.discloses → IfOk result (λ taken. taken ≡ true
        → IsGone (path_in station.now Place.Out name.now) (D.asked disk.new)) }
{
    let ready = Folder::Out.path(alloc, station, name)?;
    let folder = disk.open_folder(kept)?;
    let out = disk.open_folder(ready.as_str())?;
    sync_names(disk, &folder)?;
    take_out(disk, alloc, station, name, kept, &out)
}

/// The same of a path in out/, by way of this hidden one.
fn take_by<D: FolderDisk>(
    disk: &mut D,
    shown: &str,
    hidden: &str,
    kept: &str,
    folder: &D::Folder,
) -> io::Result<bool>
    requires kept { D.discloses → has_synced_name kept.now (D.asked disk.old) ≡ true }
    requires folder { D.discloses → D.folder_of folder.now ≡ shown.now }
    ensures asks { D.discloses → Adds (MayTakeBy D.are_one shown.now hidden.now kept.now)
        (D.asked disk.old) (D.asked disk.new) }
    ensures taken { D.discloses → IfOk result (λ taken. taken ≡ true
        → IsGone shown.now (D.asked disk.new)) }
{
    if kept == shown || kept == hidden || shown == hidden || !disk.is_one_file(kept, shown)? {
        return Ok(false);
    }
    disk.rename(shown, hidden)?;
    let taken = remove_spare(disk, kept, hidden);
    if let Ok(true) = taken {
        sync_names(disk, folder)?;
        return Ok(true);
    }
    match give_shown(disk, shown, hidden, folder) {
        Ok(()) => taken,
        // (it has the hidden name until it is given the shown one back)
        Err(_) => Ok(false),
    }
}

/// Gives what has a hidden name the shown one back, if no other file has that.
fn give_shown<D: FolderDisk>(
    disk: &mut D,
    shown: &str,
    hidden: &str,
    folder: &D::Folder,
) -> io::Result<()>
    requires folder { D.discloses → D.folder_of folder.now ≡ shown.now }
    ensures { D.discloses → Adds (MayMove D.are_one hidden.now (λ name. name ≡ shown.now))
        (D.asked disk.old) (D.asked disk.new) }
{
    disk.link(hidden, shown)?;
    sync_names(disk, folder)?;
    remove_spare(disk, shown, hidden)?;
    Ok(())
}

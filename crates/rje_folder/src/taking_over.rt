//! How a file of out/ is taken over, of which another user is the owner: a copy of it comes in its place.
ghost use Rattle.std.specs.Prelude.{◌≡◌, ℕ, List, true, IfOk, IfSome, string_bytes};
ghost use Rattle.rje_store.specs.Disk.{standing};
ghost use Rattle.rje_store.specs.Replacing.{Adds, IsWhole, IsOnDisk};
ghost use Rattle.rje_folder.specs.FileNames.{IsNumbered};
ghost use Rattle.rje_folder.specs.Folder.{path_in};
ghost use Rattle.rje_folder.specs.Moving.{IsMoved, MayMove};
ghost use Rattle.rje_folder.specs.TakenName.{IsTakenName};
ghost use Rattle.rje_folder.specs.TakingOver.{IsTakenOver, MayGiveBack, MayTakeOver};
ghost use Rattle.rje_folder.specs.Inside.Calls.{HasCopy, IsHidden, MayHide};

use crate::copying::{FileCopy, copied};
use crate::file_names::{FileNames, last_part};
use crate::folder::Folder;
use crate::folder_disk::FolderDisk;
use crate::folder_fault::FolderFault;
use crate::linking::sync_names;
use crate::moving::{is_this_file, move_file};
use crate::taken_name::taken_name;
use std::alloc::Global;
use std::io::{self, ErrorKind};

/// Takes a file of out/ over that is at rest at this time, so that it is one of the station's own. The path that it has then. Replaced if another file has its name meanwhile, which
/// lies ready; left hidden if that can't get a second name either, or if the file was written to.
pub(crate) fn take_over<D: FolderDisk>(
    disk: &mut D,
    alloc: Global,
    station: &str,
    name: &str,
    most: u64,
    now: Option<i64>,
) -> Result<String, FolderFault>
    ensures asks { D.discloses → Adds (MayTakeOver D.opened D.File.remaining D.is_open D.is_file
        D.are_one station.now name.now) (D.asked disk.old) (D.asked disk.new) }
    ensures taken { D.discloses → IfOk result (λ path. IsTakenOver D.opened D.File.remaining
        D.is_open (path_in station.now Folder.Out name.now) (string_bytes path)
        (D.asked disk.old) (D.asked disk.new)) }
    ensures named { IfOk result (λ path. IsNumbered
        (path_in station.now Folder.Out name.now) (string_bytes path)) }
{
    can_be_hidden(disk, alloc, station, name)?;
    let copy = copied(disk, alloc, station, name, most, now)?;
    match hide(disk, alloc, station, name) {
        Ok(hidden) => exchange(disk, alloc, station, name, hidden.as_str(), &copy),
        Err(error) => {
            let _ = disk.remove(copy.path.as_str());
            Err(FolderFault::no_second_name(&error))
        }
    }
}

/// A copy of a file comes in its place, which has this hidden name, and gets the name that the file had. The path that it has then. Replaced, and it
/// lies ready, if it is another one, or numbered, where it lies ready under a name with a number; if that one can't get a second name either, or was
/// written to, it is left under the hidden name.
fn exchange<D: FolderDisk>(
    disk: &mut D,
    alloc: Global,
    station: &str,
    name: &str,
    hidden: &str,
    copy: &FileCopy<D::File>,
) -> Result<String, FolderFault>
    requires named { IsTakenName name.now hidden.now }
    requires copy { D.discloses → HasCopy D.opened D.File.remaining D.is_open station.now
        (string_bytes copy.now.path) copy.now.read (D.asked disk.old) }
    ensures asks { D.discloses → Adds (MayGiveBack D.opened D.File.remaining D.is_open D.is_file
        D.are_one station.now name.now) (D.asked disk.old) (D.asked disk.new) }
    ensures put { D.discloses → IfOk result (λ path.
        IsOnDisk (string_bytes path) copy.now.read.bytes.items (D.asked disk.new)) }
    ensures stands { D.discloses → IfOk result (λ path. standing (string_bytes path)
        (D.asked disk.new) ≡ standing (string_bytes copy.now.path) (D.asked disk.old)) }
    ensures back { IfOk result (λ path. IsNumbered
        (path_in station.now Folder.Out name.now) (string_bytes path)) }
{
    match put_in(disk, alloc, station, name, hidden, copy)? {
        Some(path) => Ok(path),
        None => match move_back(disk, alloc, station, name, hidden) {
            Ok(path) if last_part(path.as_str()) == name => Err(FolderFault::Replaced),
            Ok(_) => Err(FolderFault::Numbered),
            Err(_) => Err(FolderFault::LeftHidden),
        },
    }
}

/// Gives whatever stands under a name in out/ a hidden one, that no file has. That name.
fn hide<D: FolderDisk>(disk: &mut D, alloc: Global, station: &str, name: &str) -> io::Result<String>
    ensures asks { D.discloses → Adds (MayHide station.now name.now)
        (D.asked disk.old) (D.asked disk.new) }
    ensures hidden { D.discloses → IfOk result (λ hidden. IsHidden station.now name.now
        (string_bytes hidden) (D.asked disk.old) (D.asked disk.new)) }
    ensures named { IfOk result (λ hidden. IsTakenName name.now (string_bytes hidden)) }
{
    let ready = Folder::Out.path(alloc, station, name)?;
    let hidden = free_name(disk, alloc, station, name)?;
    let path = Folder::Out.path(alloc, station, hidden.as_str())?;
    disk.rename(ready.as_str(), path.as_str())?;
    Ok(hidden)
}

/// Whether a file of this name can get a hidden one; without a second name if it can't, as where that is too long.
fn can_be_hidden<D: FolderDisk>(
    disk: &D,
    alloc: Global,
    station: &str,
    name: &str,
) -> Result<(), FolderFault> {
    match free_name(disk, alloc, station, name) {
        Ok(_) => Ok(()),
        Err(error) => Err(FolderFault::no_second_name(&error)),
    }
}

/// The first hidden name for a file of this name in out/, under which nothing stands.
pub(crate) fn free_name<D: FolderDisk>(
    disk: &D,
    alloc: Global,
    station: &str,
    name: &str,
) -> io::Result<String>
    ensures { IfOk result (λ hidden. IsTakenName name.now (string_bytes hidden)) }
{
    for number in 0..u32::MAX {
        let hidden = taken_name(alloc, name, number)?;
        let path = Folder::Out.path(alloc, station, hidden.as_str())?;
        match disk.identity(path.as_str()) {
            Ok(_) => {}
            Err(error) if error.kind() == ErrorKind::NotFound => return Ok(hidden),
            Err(error) => return Err(error),
        }
    }
    Err(io::Error::from(ErrorKind::AlreadyExists))
}

/// Gives a file of this hidden name the name back that it had, as a file of the station's own: one of another user is copied, if it is at rest at this
/// time. The path that it has then.
pub(crate) fn give_back<D: FolderDisk>(
    disk: &mut D,
    alloc: Global,
    station: &str,
    name: &str,
    hidden: &str,
    most: u64,
    now: Option<i64>,
) -> Result<String, FolderFault>
    requires named { IsTakenName name.now hidden.now }
    ensures { D.discloses → Adds (MayGiveBack D.opened D.File.remaining D.is_open D.is_file
        D.are_one station.now name.now) (D.asked disk.old) (D.asked disk.new) }
{
    match move_back(disk, alloc, station, name, hidden) {
        Ok(path) => Ok(path),
        Err(error) if error.kind() == ErrorKind::PermissionDenied => {
            copy_back(disk, alloc, station, name, hidden, most, now)
        }
        Err(error) => Err(FolderFault::of(Folder::Out, &error)),
    }
}

/// The same of a file of another user.
fn copy_back<D: FolderDisk>(
    disk: &mut D,
    alloc: Global,
    station: &str,
    name: &str,
    hidden: &str,
    most: u64,
    now: Option<i64>,
) -> Result<String, FolderFault>
    requires named { IsTakenName name.now hidden.now }
    ensures { D.discloses → Adds (MayGiveBack D.opened D.File.remaining D.is_open D.is_file
        D.are_one station.now name.now) (D.asked disk.old) (D.asked disk.new) }
{
    let copy = copied(disk, alloc, station, hidden, most, now)?;
    match put_in(disk, alloc, station, name, hidden, &copy)? {
        Some(path) => Ok(path),
        None => Err(FolderFault::Replaced),
    }
}

/// A copy of a file comes in its place, which has this hidden name, and gets the name that the file had. The path that it has then; `None`, and the
/// copy is taken away, where the file is another one.
fn put_in<D: FolderDisk>(
    disk: &mut D,
    alloc: Global,
    station: &str,
    name: &str,
    hidden: &str,
    copy: &FileCopy<D::File>,
) -> Result<Option<String>, FolderFault>
    requires named { IsTakenName name.now hidden.now }
    requires copy { D.discloses → HasCopy D.opened D.File.remaining D.is_open station.now
        (string_bytes copy.now.path) copy.now.read (D.asked disk.old) }
    ensures asks { D.discloses → Adds (MayGiveBack D.opened D.File.remaining D.is_open D.is_file
        D.are_one station.now name.now) (D.asked disk.old) (D.asked disk.new) }
    ensures put { D.discloses → IfOk result (λ put. IfSome put (λ path.
        IsOnDisk (string_bytes path) copy.now.read.bytes.items (D.asked disk.new))) }
    ensures stands { D.discloses → IfOk result (λ put. IfSome put (λ path.
        standing (string_bytes path) (D.asked disk.new)
        ≡ standing (string_bytes copy.now.path) (D.asked disk.old))) }
    ensures back { IfOk result (λ put. IfSome put (λ path. IsNumbered
        (path_in station.now Folder.Out name.now) (string_bytes path))) }
{
    match place(disk, alloc, station, hidden, copy) {
        Ok(true) => match move_back(disk, alloc, station, name, hidden) {
            Ok(path) => Ok(Some(path)),
            Err(error) => Err(FolderFault::of(Folder::Out, &error)),
        },
        Ok(false) => {
            let _ = disk.remove(copy.path.as_str());
            Ok(None)
        }
        Err(error) => {
            let _ = disk.remove(copy.path.as_str());
            Err(FolderFault::of(Folder::Out, &error))
        }
    }
}

/// Puts a copy of a file in its place, which has this hidden name: once that name is on disk, and so that the copy is there on disk too. `false`, and
/// nothing is changed, where the file is another one.
fn place<D: FolderDisk>(
    disk: &mut D,
    alloc: Global,
    station: &str,
    hidden: &str,
    copy: &FileCopy<D::File>,
) -> io::Result<bool>
    requires copy { D.discloses → HasCopy D.opened D.File.remaining D.is_open station.now
        (string_bytes copy.now.path) copy.now.read (D.asked disk.old) }
    ensures asks { D.discloses → (name : List ℕ) → IsTakenName name hidden.now
        → Adds (MayGiveBack D.opened D.File.remaining D.is_open D.is_file
        D.are_one station.now name) (D.asked disk.old) (D.asked disk.new) }
    ensures whole { D.discloses → IfOk result (λ placed. placed ≡ true
        → IsWhole (path_in station.now Folder.Out hidden.now)
        copy.now.read.bytes.items (D.asked disk.new)) }
    ensures stands { D.discloses → IfOk result (λ placed. placed ≡ true
        → standing (path_in station.now Folder.Out hidden.now) (D.asked disk.new)
        ≡ standing (string_bytes copy.now.path) (D.asked disk.old)) }
{
    let path = Folder::Out.path(alloc, station, hidden)?;
    let folder = disk.open_folder(path.as_str())?;
    sync_names(disk, &folder)?;
    if !is_this_file(disk, path.as_str(), copy.read.file)? {
        return Ok(false);
    }
    disk.rename(copy.path.as_str(), path.as_str())?;
    sync_names(disk, &folder)?;
    Ok(true)
}

/// Moves what has this hidden name to the name that it had, or that with a number. Its path.
fn move_back<D: FolderDisk>(
    disk: &mut D,
    alloc: Global,
    station: &str,
    name: &str,
    hidden: &str,
) -> io::Result<String>
    ensures asks { D.discloses → Adds (MayMove D.are_one
        (path_in station.now Folder.Out hidden.now)
        (IsNumbered (path_in station.now Folder.Out name.now)))
        (D.asked disk.old) (D.asked disk.new) }
    ensures moved { D.discloses → IfOk result (λ path. IsMoved
        (path_in station.now Folder.Out hidden.now) (string_bytes path)
        (D.asked disk.old) (D.asked disk.new)) }
    ensures named { IfOk result (λ path. IsNumbered
        (path_in station.now Folder.Out name.now) (string_bytes path)) }
{
    let path = Folder::Out.path(alloc, station, hidden)?;
    let ready = Folder::Out.path(alloc, station, name)?;
    move_file(disk, alloc, path.as_str(), FileNames::Of(ready.as_str()))
}

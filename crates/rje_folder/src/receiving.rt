//! How what came is kept, and what can't be sent is put aside.
ghost use Rattle.std.specs.Prelude.{◌≡◌, IfOk, IfSome, OnOk, string_bytes};
ghost use Rattle.rje_store.specs.Replacing.{Adds, IsOnDisk};
ghost use Rattle.rje_folder.specs.FileNames.{IsBetween, IsBetweenFrom, IsNumbered};
ghost use Rattle.rje_folder.specs.Folder.{path_in, path_of, why_path};
ghost use Rattle.rje_folder.specs.Keeping.{MayKeep, WasMade, WasNamed};
ghost use Rattle.rje_folder.specs.Moving.{IsMoved};
ghost use Rattle.rje_folder.specs.Promising.{MayDropCut, MayPutAside};

use crate::file_identity::FileIdentity;
use crate::file_names::FileNames;
use crate::folder::Folder;
use crate::folder_disk::FolderDisk;
use crate::folder_fault::FolderFault;
use crate::keeping::{Kept, keep};
use crate::moving::is_this_file;
use crate::taking_out::take_out;
use crate::trying::{AddedName, add_name_of};
use std::alloc::Global;
use std::io::{self, ErrorKind};

/// Puts this file of out/ into refused/. The path that it has there. Replaced where another file has its name, which stays; being written where a
/// command has it locked; left in refused/ where one has no other name.
pub(crate) fn refuse<D: FolderDisk>(
    disk: &mut D,
    alloc: Global,
    station: &str,
    name: &str,
    file: FileIdentity,
) -> Result<String, FolderFault>
    ensures asks { D.discloses → Adds (MayPutAside D.is_file D.are_one station.now
        (record { name = name.now; file = file }))
        (D.asked disk.old) (D.asked disk.new) }
    ensures moved { D.discloses → IfOk result (λ refused. IsMoved
        (path_in station.now Folder.Out name.now) (string_bytes refused)
        (D.asked disk.old) (D.asked disk.new)) }
    ensures file { OnOk result
        (D.is_file (D.asked disk.old) (path_in station.now Folder.Out name.now) file) }
{
    match move_to_refused(disk, alloc, station, name, file) {
        Ok(Some(refused)) => Ok(refused),
        Ok(None) => Err(FolderFault::Replaced),
        Err(error) => Err(FolderFault::left_in(Folder::Refused, &error)),
    }
}

/// Moves a file of out/ to refused/, where it is this one. The path that it has there.
fn move_to_refused<D: FolderDisk>(
    disk: &mut D,
    alloc: Global,
    station: &str,
    name: &str,
    file: FileIdentity,
) -> io::Result<Option<String>>
    ensures asks { D.discloses → Adds (MayPutAside D.is_file D.are_one station.now
        (record { name = name.now; file = file }))
        (D.asked disk.old) (D.asked disk.new) }
    ensures moved { D.discloses → IfOk result (λ moved. IfSome moved (λ refused. IsMoved
        (path_in station.now Folder.Out name.now) (string_bytes refused)
        (D.asked disk.old) (D.asked disk.new))) }
    ensures file { IfOk result (λ moved. IfSome moved (λ _.
        D.is_file (D.asked disk.old) (path_in station.now Folder.Out name.now) file)) }
{
    let ready = Folder::Out.path(alloc, station, name)?;
    let refused = Folder::Refused.path(alloc, station, name)?;
    if !is_this_file(disk, ready.as_str(), file)? {
        return Ok(None);
    }
    let out = disk.open_folder(ready.as_str())?;
    let names = FileNames::Of(refused.as_str());
    let own = Folder::Refused.own_path(alloc, station)?;
    let added = add_name_of(disk, alloc, own.as_str(), ready.as_str(), names, file)?;
    let Some(
        AddedName {
            path: second,
            lock: _lock,
        },
    ) = added
    else {
        return Ok(None);
    };
    if take_out(disk, alloc, station, name, second.as_str(), &out)? {
        Ok(Some(second))
    } else {
        Err(io::Error::from(ErrorKind::ResourceBusy))
    }
}

/// Makes these bytes a new file of a folder. Where it is.
pub(crate) fn keep_in<D: FolderDisk>(
    disk: &mut D,
    alloc: Global,
    station: &str,
    folder: Folder,
    stamp: &str,
    first: u32,
    ending: &str,
    bytes: &[u8],
) -> io::Result<Kept>
    ensures asks { D.discloses → Adds (MayKeep (path_of station.now folder)
        (IsBetween (path_in station.now folder stamp.now) ending.now) bytes.now)
        (D.asked disk.old) (D.asked disk.new) }
    ensures on_disk { D.discloses → IfOk result (λ kept.
        IsOnDisk (string_bytes kept.path) bytes.now (D.asked disk.new)) }
    ensures made { D.discloses → IfOk result (λ kept.
        WasMade (string_bytes kept.path) (D.asked disk.old) (D.asked disk.new)) }
    ensures named_new { D.discloses → IfOk result (λ kept.
        WasNamed (string_bytes kept.path) (D.asked disk.old) (D.asked disk.new)) }
    ensures named { IfOk result (λ kept. IsBetweenFrom
        (path_in station.now folder stamp.now) ending.now first kept.next
        (string_bytes kept.path)) }
{
    let own = folder.own_path(alloc, station)?;
    let stem = folder.path(alloc, station, stamp)?;
    let names = FileNames::Numbered {
        stem: stem.as_str(),
        ending,
        first,
    };
    keep(disk, alloc, own.as_str(), names, bytes)
}

/// Says beside a file of refused/ why it is there. The path of the file that says it.
pub(crate) fn explain<D: FolderDisk>(
    disk: &mut D,
    alloc: Global,
    station: &str,
    refused: &str,
    why: &str,
) -> io::Result<String>
    ensures asks { D.discloses → Adds (MayKeep (path_of station.now Folder.Refused)
        (IsNumbered (why_path refused.now)) why.now)
        (D.asked disk.old) (D.asked disk.new) }
    ensures on_disk { D.discloses → IfOk result (λ path.
        IsOnDisk (string_bytes path) why.now (D.asked disk.new)) }
    ensures named { IfOk result (λ path.
        IsNumbered (why_path refused.now) (string_bytes path)) }
{
    let own = Folder::Refused.own_path(alloc, station)?;
    let name = why_path(alloc, refused)?;
    let kept = keep(
        disk,
        alloc,
        own.as_str(),
        FileNames::Of(name.as_str()),
        why.as_bytes(),
    )?;
    Ok(kept.path)
}

/// The path of the file that says why another one is refused.
fn why_path(alloc: Global, refused: &str) -> io::Result<String>
    ensures { IfOk result (λ path. string_bytes path ≡ why_path refused.now) }
{
    Ok(format!(in alloc; "{refused}.why")?)
}

/// Takes this file under a path away. Whether it is this one; another one stays.
pub(crate) fn drop_cut<D: FolderDisk>(
    disk: &mut D,
    path: &str,
    file: FileIdentity,
) -> io::Result<bool>
    ensures { D.discloses → Adds (MayDropCut D.is_file path.now file)
        (D.asked disk.old) (D.asked disk.new) }
{
    if !is_this_file(disk, path, file)? {
        return Ok(false);
    }
    disk.remove(path)?;
    Ok(true)
}

//! How a file gets a second name.
ghost use Rattle.std.specs.Prelude.{◌≡◌, true, IfOk, OnOk, string_bytes};
ghost use Rattle.rje_store.specs.Disk.{has_synced_name};
ghost use Rattle.rje_store.specs.Replacing.{Adds};
ghost use Rattle.rje_store.specs.Inside.Filling.{AddsSync};
ghost use Rattle.rje_folder.specs.FileNames.{IsNameBefore, IsNameOf};
ghost use Rattle.rje_folder.specs.Moving.{MayLink};
ghost use Rattle.rje_folder.specs.Inside.Calls.{HasLinked};

use crate::file_names::FileNames;
use rje_store::Disk;
use std::alloc::Global;
use std::io::{self, ErrorKind};

/// A name that a file has got, whose folder is open.
#[derive(Drop)]
pub(crate) struct SecondName<F: Drop> {
    pub(crate) path: String,
    pub(crate) folder: F,
    /// The number that comes after the one that it has.
    pub(crate) next: u32,
}

/// Gives the file of a name another one: the first of these that no file has.
pub(crate) fn link_free<D: Disk>(
    disk: &mut D,
    alloc: Global,
    from: &str,
    names: FileNames<'_>,
) -> io::Result<SecondName<D::Folder>>
    ensures asks { D.discloses
        → Adds (MayLink from.now (IsNameOf names.entry)) (D.asked disk.old) (D.asked disk.new) }
    ensures linked { D.discloses → IfOk result (λ second. HasLinked from.now
        (string_bytes second.path) (D.asked disk.old) (D.asked disk.new)) }
    ensures folder { D.discloses → IfOk result (λ second.
        D.folder_of second.folder ≡ string_bytes second.path) }
    ensures named { IfOk result (λ second. IsNameOf names.entry (string_bytes second.path)) }
    ensures next { IfOk result (λ second.
        IsNameBefore names.entry second.next (string_bytes second.path)) }
{
    let first = names.first();
    for number in first..u32::MAX {
        let path = names.name(alloc, number)?;
        // Opened before the file gets the name, since one in a folder that can't be opened is not known to be on disk.
        let folder = disk.open_folder(path.as_str())?;
        match disk.link(from, path.as_str()) {
            Ok(()) => {
                return Ok(SecondName {
                    path,
                    folder,
                    next: number + 1,
                });
            }
            Err(error) if error.kind() == ErrorKind::AlreadyExists => {}
            Err(error) => return Err(error),
        }
    }
    Err(io::Error::from(ErrorKind::AlreadyExists))
}

/// Puts the names in a folder on disk.
pub(crate) fn sync_names<D: Disk>(disk: &mut D, folder: &D::Folder) -> io::Result<()>
    ensures asks { D.discloses
        → AddsSync (D.folder_of folder.now) (D.asked disk.old) (D.asked disk.new) }
    ensures synced { D.discloses
        → OnOk result (has_synced_name (D.folder_of folder.now) (D.asked disk.new) ≡ true) }
{
    match disk.sync_folder(folder) {
        // Some file systems keep no names to be put on disk.
        Err(error) if error.kind() == ErrorKind::InvalidInput => Ok(()),
        synced => synced,
    }
}

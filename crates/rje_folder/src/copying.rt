//! How a file of out/ is copied.
ghost use Rattle.std.specs.Prelude.{IfOk, string_bytes};
ghost use Rattle.rje_store.specs.Replacing.{Adds, IsWhole};
ghost use Rattle.rje_folder.specs.Folder.{path_in, path_of};
ghost use Rattle.rje_folder.specs.Keeping.{IsTemporary, WasMade};
ghost use Rattle.rje_folder.specs.Reading.{IsReadOf};
ghost use Rattle.rje_folder.specs.TakingOver.{IsAtRest, MayCopy};

use crate::folder::Folder;
use crate::folder_disk::FolderDisk;
use crate::folder_fault::FolderFault;
use crate::keeping::{create_new, fill_new};
use crate::reading::{FileRead, LockedFile, identity, read_named};
use std::alloc::Global;
use std::io;

/// A copy of a file of out/, which is in refused/ under a name that is left alone.
#[derive(Drop)]
pub(crate) struct FileCopy<F: Drop> {
    pub(crate) path: String,
    /// What was read of the file.
    pub(crate) read: FileRead,
    /// The file itself, which is locked as long as this is open.
    pub(crate) lock: F,
}

/// A copy of a file of out/, on disk. Too large if it has more than `most` bytes; being written if it was written to meanwhile, or isn't at rest at this
/// time.
pub(crate) fn copied<D: FolderDisk>(
    disk: &mut D,
    alloc: Global,
    station: &str,
    name: &str,
    most: u64,
    now: Option<i64>,
) -> Result<FileCopy<D::File>, FolderFault>
    ensures asks { D.discloses → Adds (MayCopy (path_of station.now Folder.Refused))
        (D.asked disk.old) (D.asked disk.new) }
    ensures read { D.discloses → IfOk result (λ copy. IsReadOf D.opened D.File.remaining
        (D.is_open (D.asked disk.old)) (path_in station.now Folder.Out name.now) copy.read) }
    ensures locked { IfOk result (λ copy. D.is_locked copy.lock) }
    ensures rests { IfOk result (λ copy. IsAtRest copy.read.file.changed.seconds now) }
    ensures whole { D.discloses → IfOk result (λ copy. IsWhole (string_bytes copy.path)
        copy.read.bytes.items (D.asked disk.new)) }
    ensures made { D.discloses → IfOk result (λ copy.
        WasMade (string_bytes copy.path) (D.asked disk.old) (D.asked disk.new)) }
    ensures named { D.discloses → IfOk result (λ copy.
        IsTemporary (path_of station.now Folder.Refused) (string_bytes copy.path)) }
{
    rests(disk, alloc, station, name, now)?;
    let LockedFile { read, lock } = read_named(disk, alloc, station, name, most)?;
    if !read.file.is_at_rest(now) {
        return Err(FolderFault::BeingWritten(Folder::Out));
    }
    match new_copy(disk, alloc, station, read.bytes.as_slice()) {
        Ok(path) => Ok(FileCopy { path, read, lock }),
        Err(error) => Err(FolderFault::of(Folder::Out, &error)),
    }
}

/// Before a file of out/ is read: being written if it isn't at rest at this time.
fn rests<D: FolderDisk>(
    disk: &D,
    alloc: Global,
    station: &str,
    name: &str,
    now: Option<i64>,
) -> Result<(), FolderFault> {
    match identity(disk, alloc, station, name) {
        Ok(file) if file.is_at_rest(now) => Ok(()),
        Ok(_) => Err(FolderFault::BeingWritten(Folder::Out)),
        Err(error) => Err(FolderFault::of(Folder::Out, &error)),
    }
}

/// A new file with these bytes, as a copy of a file of out/, on disk, that the station's user alone may read. Its path.
fn new_copy<D: FolderDisk>(
    disk: &mut D,
    alloc: Global,
    station: &str,
    bytes: &[u8],
) -> io::Result<String>
    ensures asks { D.discloses → Adds (MayCopy (path_of station.now Folder.Refused))
        (D.asked disk.old) (D.asked disk.new) }
    ensures whole { D.discloses → IfOk result (λ path.
        IsWhole (string_bytes path) bytes.now (D.asked disk.new)) }
    ensures made { D.discloses → IfOk result (λ path.
        WasMade (string_bytes path) (D.asked disk.old) (D.asked disk.new)) }
    ensures named { D.discloses → IfOk result (λ path.
        IsTemporary (path_of station.now Folder.Refused) (string_bytes path)) }
{
    let own = Folder::Refused.own_path(alloc, station)?;
    let new = create_new(disk, alloc, own.as_str())?;
    match fill_new(disk, &new.file, bytes) {
        Ok(()) => Ok(new.path),
        Err(error) => {
            let _ = disk.remove(new.path.as_str());
            Err(error)
        }
    }
}

//! How a byte of a file is marked.
ghost use Rattle.std.specs.Prelude.{◌≡◌, true, IfOk, IfSome};
ghost use Rattle.rje_store.specs.Replacing.{Adds};
ghost use Rattle.rje_folder.specs.Marking.{IsMarked, IsSaid, MayMark, WasSaid};

use crate::file_identity::FileIdentity;
use crate::folder_disk::FolderDisk;
use std::io::{self, ErrorKind};

/// Writes a byte at a place of this file under a path, on disk. Which file it is then, as it was written to; `None` where another file has the path, and
/// nothing was written, or where somebody else wrote to it until it was on disk. An invalid input where the file has no byte there.
pub fn set_mark<D: FolderDisk>(
    disk: &mut D,
    path: &str,
    place: u64,
    mark: u8,
    file: FileIdentity,
) -> io::Result<Option<FileIdentity>>
    ensures asks { D.discloses
        → Adds (MayMark path.now place mark) (D.asked disk.old) (D.asked disk.new) }
    ensures marked { D.discloses → IfOk result (λ marked. IfSome marked (λ _.
        IsMarked path.now place mark (D.asked disk.old) (D.asked disk.new))) }
    ensures same { D.discloses → IfOk result (λ marked. IfSome marked (λ _.
        WasSaid D.opened D.is_open path.now file (D.asked disk.new))) }
    ensures renewed { D.discloses → IfOk result (λ marked. IfSome marked
        (IsSaid D.opened (D.is_open (D.asked disk.new)) path.now)) }
{
    let opened = disk.open_to_write(path)?;
    let same = is_open_as(disk, &opened, file)?;
    if !same {
        return Ok(None);
    }
    let found = disk.status_of(&opened)?;
    if found.len <= place {
        return Err(io::Error::from(ErrorKind::InvalidInput));
    }
    disk.write_at(&opened, place, &[mark])?;
    let marked = disk.identity_of(&opened)?;
    disk.sync_bytes(&opened)?;
    if is_open_as(disk, &opened, marked)? {
        Ok(Some(marked))
    } else {
        Ok(None)
    }
}

/// Whether an open file is this one.
fn is_open_as<D: FolderDisk>(disk: &D, opened: &D::File, file: FileIdentity) -> io::Result<bool>
    ensures { IfOk result (λ is. is ≡ true → D.is_open (D.asked disk.now) opened.now file) }
{
    Ok(disk.identity_of(opened)? == file)
}

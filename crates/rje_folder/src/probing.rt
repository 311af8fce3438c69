//! Whether a new file can be kept.
ghost use Rattle.std.specs.Prelude.{◌≡◌, length, IfOk, OnOk};
ghost use Rattle.rje_store.specs.Replacing.{Adds};
ghost use Rattle.rje_folder.specs.Folder.{path_of};
ghost use Rattle.rje_folder.specs.Keeping.{HasTriedToKeep, LeavesNone, MayTryToKeep};

use crate::folder::Folder;
use crate::folder_disk::FolderDisk;
use crate::keeping::{create_new, fill_new};
use std::alloc::Global;
use std::io::{self, ErrorKind};

/// The most bytes of a file of which is tried whether it can be kept.
const MOST: u64 = 33_554_432;

/// Whether a new file of so many bytes can be kept in a folder: one is made under a name that is left alone, filled with zeros and put on disk, and
/// that name is taken away, whatever came of it. An invalid input where it is more than 32 MiB.
pub(crate) fn try_to_keep<D: FolderDisk>(
    disk: &mut D,
    alloc: Global,
    station: &str,
    folder: Folder,
    len: u64,
) -> io::Result<()>
    ensures asks { D.discloses → Adds (MayTryToKeep (path_of station.now folder))
        (D.asked disk.old) (D.asked disk.new) }
    ensures tried { D.discloses → OnOk result
        (HasTriedToKeep (path_of station.now folder) len (D.asked disk.new)) }
    ensures gone { D.discloses → LeavesNone (D.asked disk.old) (D.asked disk.new) }
{
    let own = folder.own_path(alloc, station)?;
    let zeros = zeros_of(alloc, len)?;
    let new = create_new(disk, alloc, own.as_str())?;
    let filled = fill_new(disk, &new.file, zeros.as_slice());
    let _ = disk.remove(new.path.as_str());
    filled
}

/// So many zeros.
fn zeros_of(alloc: Global, len: u64) -> io::Result<Vec<u8>>
    ensures { IfOk result (λ zeros. length zeros.items ≡ len) }
{
    if MOST < len {
        return Err(io::Error::from(ErrorKind::InvalidInput));
    }
    let mut zeros = Vec::new(alloc);
    zeros.resize(len as usize, 0)?;
    Ok(zeros)
}

//! How the names of a folder are put on disk.
ghost use Rattle.std.specs.Prelude.{◌≡◌, true, OnOk};
ghost use Rattle.rje_store.specs.Disk.{has_synced_name};
ghost use Rattle.rje_store.specs.Inside.Filling.{AddsSync};
ghost use Rattle.rje_accounts.specs.Reading.{IsSynced};

use rje_store::Disk;
use std::io::{self, ErrorKind};

/// Puts the names in a folder on disk.
pub(crate) fn sync_names<D: Disk>(disk: &mut D, folder: &D::Folder) -> io::Result<()>
    ensures asks { D.discloses
        → AddsSync (D.folder_of folder.now) (D.asked disk.old) (D.asked disk.new) }
    ensures synced { D.discloses
        → OnOk result (has_synced_name (D.folder_of folder.now) (D.asked disk.new) ≡ true) }
    ensures done { D.discloses → OnOk result
        (IsSynced (D.folder_of folder.now) (D.asked disk.old) (D.asked disk.new)) }
{
    match disk.sync_folder(folder) {
        // Some file systems keep no names to be put on disk.
        Err(error) if error.kind() == ErrorKind::InvalidInput => Ok(()),
        synced => synced,
    }
}

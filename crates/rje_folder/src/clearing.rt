//! How a file is taken away that a killed station was writing.
ghost use Rattle.std.specs.Prelude.{◌≡◌, ℕ, List, true};
ghost use Rattle.rje_store.specs.Replacing.{Adds};
ghost use Rattle.rje_folder.specs.Folder.{has_hidden_names, path_of};
ghost use Rattle.rje_folder.specs.Promising.{MayClear};

use crate::folder::Folder;
use crate::folder_disk::FolderDisk;
use crate::keeping::temporary_name;
use std::alloc::Global;
use std::io;

/// Takes the files of a folder away that a killed station was writing, where stations make new files there.
pub(crate) fn clear<D: FolderDisk>(
    disk: &mut D,
    alloc: Global,
    station: &str,
    folder: Folder,
) -> io::Result<()>
    ensures { D.discloses → Adds (MayClear station.now) (D.asked disk.old) (D.asked disk.new) }
{
    if !folder.has_hidden_names() {
        return Ok(());
    }
    let own = folder.own_path(alloc, station)?;
    let names = disk.names_in(alloc, own.as_str())?;
    for name in &names {
        clear_one(disk, alloc, own.as_str(), name.as_str())?;
    }
    Ok(())
}

/// Takes the file of this name in a folder away, where it is one under which a new file is made.
fn clear_one<D: FolderDisk>(disk: &mut D, alloc: Global, own: &str, name: &str) -> io::Result<()>
    ensures { D.discloses → (station : List ℕ) → (folder : Folder)
        → own.now ≡ path_of station folder → has_hidden_names folder ≡ true
        → Adds (MayClear station) (D.asked disk.old) (D.asked disk.new) }
{
    let Some(number) = temporary_number(name) else {
        return Ok(());
    };
    let path = temporary_name(alloc, own, number)?;
    if path.as_str().ends_with(name) {
        disk.remove(path.as_str())
    } else {
        Ok(())
    }
}

/// The number in a name under which a new file is made.
fn temporary_number(name: &str) -> Option<u32> {
    let number = name.strip_prefix(".rje-")?.strip_suffix(".part")?;
    number.parse::<u32>().ok()
}

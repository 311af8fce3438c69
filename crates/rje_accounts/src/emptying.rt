//! How a name is taken away, whatever it names.
ghost use Rattle.std.specs.Prelude.{OnOk};
ghost use Rattle.rje_store.specs.Replacing.{Adds};
ghost use Rattle.rje_folder.specs.Moving.{IsGone};
ghost use Rattle.rje_accounts.specs.Promising.{MayTakeAway};

use crate::syncing::sync_names;
use rje_store::Disk;
use std::io::{self, ErrorKind};

/// Takes a name away, which may not be there; that is on disk then.
pub(crate) fn take_away<D: Disk>(disk: &mut D, path: &str) -> io::Result<()>
    ensures asks { D.discloses → Adds (MayTakeAway path.now) (D.asked disk.old) (D.asked disk.new) }
    ensures gone { D.discloses → OnOk result (IsGone path.now (D.asked disk.new)) }
{
    let folder = disk.open_folder(path)?;
    match disk.remove(path) {
        Err(error) if error.kind() != ErrorKind::NotFound => Err(error),
        _ => sync_names(disk, &folder),
    }
}

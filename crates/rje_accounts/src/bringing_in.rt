//! How a job that was kept gets its name in in/.
ghost use Rattle.std.specs.Prelude.{◌≡◌, ◌≢◌, true, false, IfOk, IfSome, OnOk, string_bytes};
ghost use Rattle.rje_store.specs.Replacing.{Adds};
ghost use Rattle.rje_folder.specs.Moving.{IsGone, IsMoved, MayDrop};
ghost use Rattle.rje_settle.specs.declared.settle_name.SettleName.{SettleName as Named};
ghost use Rattle.rje_accounts.specs.BringingIn.{MayBringIn, MayRename};
ghost use Rattle.rje_accounts.specs.Inside.Calls.{IsInIn};
ghost use Rattle.rje_accounts.specs.Paths.{in_path, settle_path};

use crate::accounts_fault::AccountsFault;
use crate::naming::{in_path, path_in, path_of, settle_path};
use crate::syncing::sync_names;
use rje_folder::{Folder, FolderDisk, drop_name};
use rje_settle::SettleName;
use rje_store::Disk;
use std::alloc::Global;
use std::io::{self, ErrorKind};

/// Where a job is that was brought in.
#[derive(Debug, Drop)]
pub struct BroughtIn {
    /// Its path in in/.
    pub path: String,
    /// Whether it had that already, since a loss of power left both names.
    pub was_there: bool,
}

/// Gives the job of this number its name in in/: that of the stamp and the number. It exists already, and nothing is done, where a file has that name.
/// Where the job has a name in in/ already, the one in settle/ is taken away alone.
pub fn bring_in<D: FolderDisk>(
    disk: &mut D,
    alloc: Global,
    station: &str,
    number: u64,
    stamp: &str,
) -> Result<BroughtIn, AccountsFault>
    ensures asks { D.discloses → Adds (MayBringIn D.are_one station.now number stamp.now)
        (D.asked disk.old) (D.asked disk.new) }
    ensures moved { D.discloses → IfOk result (λ brought. brought.was_there ≡ false
        → IsMoved (settle_path station.now (Named.Come number)) (string_bytes brought.path)
        (D.asked disk.old) (D.asked disk.new)) }
    ensures named { IfOk result (λ brought. brought.was_there ≡ false
        → string_bytes brought.path ≡ in_path station.now stamp.now number) }
    ensures gone { D.discloses → OnOk result
        (IsGone (settle_path station.now (Named.Come number)) (D.asked disk.new)) }
{
    let come = settle_path(alloc, station, SettleName::Come(number))?;
    if let Some(path) = name_in_in(disk, alloc, station, come.as_str())? {
        return drop_second(disk, path, come.as_str());
    }
    let path = in_path(alloc, station, stamp, number)?;
    move_free(disk, come.as_str(), path.as_str())?;
    Ok(BroughtIn {
        path,
        was_there: false,
    })
}

/// The path in in/ of a file that has more names than this one, if it has one there.
fn name_in_in<D: FolderDisk>(
    disk: &D,
    alloc: Global,
    station: &str,
    come: &str,
) -> io::Result<Option<String>>
    ensures { IfOk result (λ found. IfSome found (IsInIn station.now)) }
{
    if disk.status_of_name(come)?.links < 2 {
        return Ok(None);
    }
    let folder = path_of(alloc, station, Folder::In)?;
    for name in disk.names_in(alloc, folder.as_str())? {
        let path = path_in(alloc, station, Folder::In, name.as_str())?;
        match disk.is_one_file(come, path.as_str()) {
            Ok(true) => return Ok(Some(path)),
            Err(error) if error.kind() != ErrorKind::NotFound => return Err(error),
            _ => {}
        }
    }
    Ok(None)
}

/// Takes the name in settle/ away from a job that has this path in in/ too.
fn drop_second<D: FolderDisk>(
    disk: &mut D,
    path: String,
    come: &str,
) -> Result<BroughtIn, AccountsFault>
    ensures asks { D.discloses → Adds (MayDrop D.are_one (string_bytes path) come.now)
        (D.asked disk.old) (D.asked disk.new) }
    ensures was_there { IfOk result (λ brought. brought.was_there ≡ true) }
    ensures gone { D.discloses → OnOk result (IsGone come.now (D.asked disk.new)) }
{
    if drop_name(disk, path.as_str(), come)? {
        Ok(BroughtIn {
            path,
            was_there: true,
        })
    } else {
        Err(AccountsFault::Failed(ErrorKind::ResourceBusy))
    }
}

/// Renames a file to a path that no file has, on disk.
fn move_free<D: Disk>(disk: &mut D, from: &str, to: &str) -> io::Result<()>
    requires { from.now ≢ to.now }
    ensures asks { D.discloses → Adds (MayRename from.now to.now)
        (D.asked disk.old) (D.asked disk.new) }
    ensures moved { D.discloses → OnOk result
        (IsMoved from.now to.now (D.asked disk.old) (D.asked disk.new)) }
{
    if !is_free(disk, to)? {
        return Err(io::Error::from(ErrorKind::AlreadyExists));
    }
    let from_folder = disk.open_folder(from)?;
    let to_folder = disk.open_folder(to)?;
    disk.rename(from, to)?;
    sync_names(disk, &to_folder)?;
    sync_names(disk, &from_folder)
}

/// Whether no file has a path.
pub(crate) fn is_free<D: Disk>(disk: &D, path: &str) -> io::Result<bool> {
    match disk.status_of_name(path) {
        Ok(_) => Ok(false),
        Err(error) if error.kind() == ErrorKind::NotFound => Ok(true),
        Err(error) => Err(error),
    }
}

//! What becomes of the file of a job while the job may have arrived, and after that.
ghost use Rattle.std.specs.Prelude.{◌≡◌, ◌≢◌, ◌⊎◌, Ok, true, IfOk, IfSome, string_bytes};
ghost use Rattle.rje_store.specs.Replacing.{Adds};
ghost use Rattle.rje_folder.specs.FileNames.{IsNumbered};
ghost use Rattle.rje_folder.specs.Folder.{path_in};
ghost use Rattle.rje_folder.specs.Moving.{IsGone, IsMoved, IsSecond, MayMove};
ghost use Rattle.rje_folder.specs.declared.settled.OutName.TheVariants.{TakenAway};
ghost use Rattle.rje_folder.specs.Promising.{IsSent, IsSettled, MayPromise, MaySettle};
ghost use Rattle.rje_folder.specs.Trying.{IsLockedAs};

use crate::file_identity::FileIdentity;
use crate::file_names::FileNames;
use crate::folder::Folder;
use crate::folder_disk::FolderDisk;
use crate::folder_fault::FolderFault;
use crate::moving::{change_name, drop_name, move_file};
use crate::settled::{OutName, Settled};
use crate::taking_out::{take_from_out, take_out};
use crate::trying::{AddedName, add_name_of};
use rje_day::Disposition;
use std::alloc::Global;
use std::io::{self, ErrorKind};

/// Before the last block of a job is said: its file gets a second name, in doubt/, on disk, and is locked. That name's path. Replaced where it isn't this
/// file, and then the second name is taken away again, if it can be; being written where a command has it locked.
pub(crate) fn promise<D: FolderDisk>(
    disk: &mut D,
    alloc: Global,
    station: &str,
    name: &str,
    file: FileIdentity,
) -> Result<AddedName<D::File>, FolderFault>
    ensures asks { D.discloses → Adds (MayPromise D.is_file D.are_one station.now
        (record { name = name.now; file = file }))
        (D.asked disk.old) (D.asked disk.new) }
    ensures second { D.discloses → IfOk result (λ doubt. IsSecond
        (path_in station.now Folder.Out name.now) (string_bytes doubt.path)
        (D.asked disk.old) (D.asked disk.new)) }
    ensures file { IfOk result (λ doubt.
        D.is_file (D.asked disk.new) (string_bytes doubt.path) file) }
    ensures named { IfOk result (λ doubt. IsNumbered
        (path_in station.now Folder.Doubt name.now) (string_bytes doubt.path)) }
    ensures locked { D.discloses → IfOk result (λ doubt.
        IsLockedAs D.is_locked D.is_open doubt.lock file (D.asked disk.new)) }
{
    match name_in_doubt(disk, alloc, station, name, file) {
        Ok(Some(doubt)) => Ok(doubt),
        Ok(None) => Err(FolderFault::Replaced),
        Err(error) => Err(FolderFault::left_in(Folder::Doubt, &error)),
    }
}

/// Gives a file in out/ a second name, in doubt/, on disk, and locks it. That name's path. Where it isn't this file the second name is taken away again, if
/// it can be, and there is none.
fn name_in_doubt<D: FolderDisk>(
    disk: &mut D,
    alloc: Global,
    station: &str,
    name: &str,
    file: FileIdentity,
) -> io::Result<Option<AddedName<D::File>>>
    ensures asks { D.discloses → Adds (MayPromise D.is_file D.are_one station.now
        (record { name = name.now; file = file }))
        (D.asked disk.old) (D.asked disk.new) }
    ensures second { D.discloses → IfOk result (λ doubt. IfSome doubt (λ doubt. IsSecond
        (path_in station.now Folder.Out name.now) (string_bytes doubt.path)
        (D.asked disk.old) (D.asked disk.new))) }
    ensures file { IfOk result (λ doubt. IfSome doubt (λ doubt.
        D.is_file (D.asked disk.new) (string_bytes doubt.path) file)) }
    ensures named { IfOk result (λ doubt. IfSome doubt (λ doubt. IsNumbered
        (path_in station.now Folder.Doubt name.now) (string_bytes doubt.path))) }
    ensures locked { D.discloses → IfOk result (λ doubt. IfSome doubt (λ doubt.
        IsLockedAs D.is_locked D.is_open doubt.lock file (D.asked disk.new))) }
{
    let ready = Folder::Out.path(alloc, station, name)?;
    let second = Folder::Doubt.path(alloc, station, name)?;
    let folder = Folder::Doubt.own_path(alloc, station)?;
    let names = FileNames::Of(second.as_str());
    add_name_of(disk, alloc, folder.as_str(), ready.as_str(), names, file)
}

/// Once it is known what becomes of a job that was promised: where it was counted, its file is moved from doubt/ to sent/, and the name in out/ is
/// taken away; where it is in doubt, that name alone is; where it lies ready still, the one in doubt/. Where the file stands then.
pub(crate) fn settle<D: FolderDisk>(
    disk: &mut D,
    alloc: Global,
    station: &str,
    name: &str,
    doubt: &str,
    disposition: Disposition,
) -> io::Result<Settled>
    ensures asks { D.discloses
        → Adds (MaySettle D.are_one station.now name.now doubt.now disposition)
        (D.asked disk.old) (D.asked disk.new) }
    ensures sent { D.discloses → disposition ≡ Disposition.Sent → IfOk result (λ settled.
        IsSent station.now name.now doubt.now (string_bytes settled.path)
        (D.asked disk.old) (D.asked disk.new)) }
    ensures ready { D.discloses → disposition ≡ Disposition.Ready → IfOk result (λ settled.
        (string_bytes settled.path ≡ doubt.now) ⊎ IsGone doubt.now (D.asked disk.new)) }
    ensures out { D.discloses → IfOk result (λ settled. settled.out ≡ TakenAway
        → IsGone (path_in station.now Folder.Out name.now) (D.asked disk.new)) }
    ensures settled { IfOk result (λ settled.
        IsSettled disposition station.now name.now doubt.now (string_bytes settled.path)) }
{
    match disposition {
        Disposition::Sent => put_in_sent(disk, alloc, station, name, doubt),
        Disposition::InDoubt => leave_in_doubt(disk, alloc, station, name, doubt),
        Disposition::Ready => take_back(disk, alloc, station, name, doubt),
    }
}

/// The job was counted: its file is moved from doubt/ to sent/, and the name in out/ is taken away. That the name in out/ is gone is on disk then; the
/// one in doubt/ may be there again after a power failure, and is taken away when the station is started.
fn put_in_sent<D: FolderDisk>(
    disk: &mut D,
    alloc: Global,
    station: &str,
    name: &str,
    doubt: &str,
) -> io::Result<Settled>
    ensures asks { D.discloses
        → Adds (MaySettle D.are_one station.now name.now doubt.now Disposition.Sent)
        (D.asked disk.old) (D.asked disk.new) }
    ensures sent { D.discloses → IfOk result (λ settled.
        IsSent station.now name.now doubt.now (string_bytes settled.path)
        (D.asked disk.old) (D.asked disk.new)) }
    ensures out { D.discloses → IfOk result (λ settled. settled.out ≡ TakenAway
        → IsGone (path_in station.now Folder.Out name.now) (D.asked disk.new)) }
    ensures settled { IfOk result (λ settled.
        IsSettled Disposition.Sent station.now name.now doubt.now (string_bytes settled.path)) }
{
    let ready = Folder::Out.path(alloc, station, name)?;
    let sent = Folder::Sent.path(alloc, station, name)?;
    let out = disk.open_folder(ready.as_str())?;
    make_sent(disk, alloc, station)?;
    let kept = change_name(disk, alloc, doubt, FileNames::Of(sent.as_str()))?;
    let taken = take_out(disk, alloc, station, name, kept.as_str(), &out);
    let out = out_name(disk, ready.as_str(), kept.as_str(), taken);
    Ok(Settled { path: kept, out })
}

/// Makes the folder of what was sent, where somebody took it away.
fn make_sent<D: FolderDisk>(disk: &mut D, alloc: Global, station: &str) -> io::Result<()>
    ensures { D.discloses → D.asked disk.new ≡ D.asked disk.old }
{
    let path = Folder::Sent.own_path(alloc, station)?;
    disk.make_folder(path.as_str())
}

/// The job may have arrived: the name in out/ is taken away. It fails for want of memory alone.
fn leave_in_doubt<D: FolderDisk>(
    disk: &mut D,
    alloc: Global,
    station: &str,
    name: &str,
    doubt: &str,
) -> io::Result<Settled>
    ensures asks { D.discloses
        → Adds (MaySettle D.are_one station.now name.now doubt.now Disposition.InDoubt)
        (D.asked disk.old) (D.asked disk.new) }
    ensures out { D.discloses → IfOk result (λ settled. settled.out ≡ TakenAway
        → IsGone (path_in station.now Folder.Out name.now) (D.asked disk.new)) }
    ensures settled { IfOk result (λ settled. string_bytes settled.path ≡ doubt.now) }
{
    let ready = Folder::Out.path(alloc, station, name)?;
    let kept = String::from_str(alloc, doubt)?;
    let taken = take_from_out(disk, alloc, station, name, doubt);
    let out = out_name(disk, ready.as_str(), doubt, taken);
    Ok(Settled { path: kept, out })
}

/// The job lies ready still: the name in doubt/ is taken away. The file is in out/, or in doubt/ still where its name in out/ is gone or of another
/// file.
fn take_back<D: FolderDisk>(
    disk: &mut D,
    alloc: Global,
    station: &str,
    name: &str,
    doubt: &str,
) -> io::Result<Settled>
    ensures asks { D.discloses → Adds
        (MaySettle D.are_one station.now name.now doubt.now Disposition.Ready)
        (D.asked disk.old) (D.asked disk.new) }
    ensures ready { D.discloses → IfOk result (λ settled.
        (string_bytes settled.path ≡ doubt.now) ⊎ IsGone doubt.now (D.asked disk.new)) }
    ensures out { IfOk result (λ settled. settled.out ≢ TakenAway) }
    ensures settled { IfOk result (λ settled.
        IsSettled Disposition.Ready station.now name.now doubt.now (string_bytes settled.path)) }
{
    let ready = Folder::Out.path(alloc, station, name)?;
    let kept = String::from_str(alloc, doubt)?;
    let (path, out) = match drop_name(disk, ready.as_str(), doubt) {
        Ok(true) => (ready, OutName::Stands),
        Ok(false) => (kept, OutName::OfAnother),
        Err(error) if error.kind() == ErrorKind::NotFound => (kept, OutName::Missing),
        Err(error) => return Err(error),
    };
    Ok(Settled { path, out })
}

/// What became of a name in out/ that was to be taken away from the file of this other path.
fn out_name<D: FolderDisk>(disk: &D, ready: &str, kept: &str, taken: io::Result<bool>) -> OutName
    ensures { result ≡ TakenAway → taken ≡ Ok true }
{
    match taken {
        Ok(true) => OutName::TakenAway,
        Ok(false) => OutName::OfAnother,
        Err(error) if error.kind() == ErrorKind::NotFound && is_gone(disk, ready) => {
            OutName::Missing
        }
        Err(_) if is_gone(disk, ready) || is_of_another(disk, kept, ready) => { OutName::OfAnother }
        Err(error) => OutName::Left(error.kind()),
    }
}

/// Whether nothing stands under a path.
fn is_gone<D: FolderDisk>(disk: &D, path: &str) -> bool {
    match disk.identity(path) {
        Err(error) => error.kind() == ErrorKind::NotFound,
        Ok(_) => false,
    }
}

/// Whether a path is of another file than this one.
fn is_of_another<D: FolderDisk>(disk: &D, kept: &str, path: &str) -> bool {
    matches!(disk.is_one_file(kept, path), Ok(false))
}

/// What was counted may not have arrived after all: the file of a path in sent/ is moved to doubt/. Its path there.
pub(crate) fn put_in_doubt<D: FolderDisk>(
    disk: &mut D,
    alloc: Global,
    station: &str,
    sent: &str,
    name: &str,
) -> io::Result<String>
    ensures asks { D.discloses → Adds (MayMove D.are_one sent.now
        (IsNumbered (path_in station.now Folder.Doubt name.now)))
        (D.asked disk.old) (D.asked disk.new) }
    ensures moved { D.discloses → IfOk result (λ doubt. IsMoved sent.now (string_bytes doubt)
        (D.asked disk.old) (D.asked disk.new)) }
    ensures named { IfOk result (λ doubt. IsNumbered
        (path_in station.now Folder.Doubt name.now) (string_bytes doubt)) }
{
    let first = Folder::Doubt.path(alloc, station, name)?;
    move_file(disk, alloc, sent, FileNames::Of(first.as_str()))
}

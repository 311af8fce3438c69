//! How a job is promised, and a promise taken away.
ghost use Rattle.std.specs.Prelude.{◌≡◌, ◌≢◌, ◌∷◌, ℕ, List, true, OnOk, IfOk};
ghost use Rattle.rje_store.specs.Disk.{Done, Link, Remove, standing};
ghost use Rattle.rje_store.specs.Replacing.{Adds};
ghost use Rattle.rje_folder.specs.Folder.{path_in};
ghost use Rattle.rje_folder.specs.Moving.{IsGone, IsSecond};
ghost use Rattle.rje_settle.specs.declared.settle_name.SettleName.{SettleName as Named};
ghost use Rattle.rje_accounts.specs.Inside.Calls.{IsNamed};
ghost use Rattle.rje_accounts.specs.Promising.{MayName, MayPromise, MayTakeAway, MayTry};
ghost use Rattle.rje_accounts.specs.Paths.{settle_path};

use crate::accounts_fault::AccountsFault;
use crate::bringing_in::is_free;
use crate::emptying::take_away;
use crate::naming::{path_in, settle_path, tried_path};
use crate::syncing::sync_names;
use rje_folder::{FileIdentity, Folder, FolderDisk};
use rje_settle::{Promise, SettleName};
use rje_store::Disk;
use std::alloc::Global;
use std::io::{self, ErrorKind};

/// Before the last block of a job is said: this file of out/ gets a second name with its number, on disk. Replaced if another file has the name in
/// out/: that one never gets the second name. Each file gets a name first by which it is tried, and is renamed once it is seen to be the right one.
pub fn promise<D: FolderDisk>(
    disk: &mut D,
    alloc: Global,
    station: &str,
    name: &str,
    file: FileIdentity,
    promise: Promise,
) -> Result<(), AccountsFault>
    ensures asks { D.discloses → Adds (MayPromise D.is_file station.now
        (record { name = name.now; file = file; promise = promise }))
        (D.asked disk.old) (D.asked disk.new) }
    ensures second { D.discloses → OnOk result (IsSecond
        (path_in station.now Folder.Out name.now) (settle_path station.now (Named.Out promise))
        (D.asked disk.old) (D.asked disk.new)) }
    ensures file { OnOk result
        (D.is_file (D.asked disk.new) (settle_path station.now (Named.Out promise)) file) }
{
    let ready = path_in(alloc, station, Folder::Out, name)?;
    let tried = tried_path(alloc, station)?;
    let path = settle_path(alloc, station, SettleName::Out(promise))?;
    clear_tried(disk, tried.as_str())?;
    if !try_name(disk, ready.as_str(), tried.as_str(), file)? {
        return Err(AccountsFault::Replaced);
    }
    if !name_tried(disk, tried.as_str(), path.as_str(), file)? {
        return Err(AccountsFault::Replaced);
    }
    Ok(())
}

/// Takes the name away by which a file was tried when a station was ended.
fn clear_tried<D: Disk>(disk: &mut D, tried: &str) -> io::Result<()>
    ensures asks { D.discloses
        → Adds (λ call before. call ≡ Remove tried.now) (D.asked disk.old) (D.asked disk.new) }
    ensures others { (name : List ℕ) → D.discloses → name ≢ tried.now
        → standing name (D.asked disk.new) ≡ standing name (D.asked disk.old) }
{
    match disk.remove(tried) {
        Err(error) if error.kind() != ErrorKind::NotFound => Err(error),
        _ => Ok(()),
    }
}

/// Gives the file of a name the one by which it is tried, if it is this file. If it isn't, or can't be seen, that name is taken away again, if it can be.
fn try_name<D: FolderDisk>(
    disk: &mut D,
    name: &str,
    tried: &str,
    file: FileIdentity,
) -> io::Result<bool>
    ensures asks { D.discloses → Adds (MayTry name.now tried.now)
        (D.asked disk.old) (D.asked disk.new) }
    ensures linked { D.discloses → IfOk result (λ same. same ≡ true
        → D.asked disk.new ≡ Done (Link name.now tried.now) ∷ D.asked disk.old) }
    ensures file { IfOk result (λ same. same ≡ true → D.is_file (D.asked disk.new) tried.now file) }
{
    disk.link(name, tried)?;
    let same = is_this_file(disk, tried, file);
    if let Ok(true) = same {
        return Ok(true);
    }
    let _ = disk.remove(tried);
    same
}

/// Renames the file that was tried, which is this one, to its second name, on disk. If it isn't there then, or that fails, the name is taken away again, if
/// it can be.
fn name_tried<D: FolderDisk>(
    disk: &mut D,
    tried: &str,
    second: &str,
    file: FileIdentity,
) -> io::Result<bool>
    requires is { D.is_file (D.asked disk.old) tried.now file }
    ensures asks { D.discloses → Adds (MayName D.is_file tried.now second.now file)
        (D.asked disk.old) (D.asked disk.new) }
    ensures named { D.discloses → IfOk result (λ same. same ≡ true
        → IsNamed tried.now second.now (D.asked disk.old) (D.asked disk.new)) }
    ensures file { IfOk result (λ same. same ≡ true → D.is_file (D.asked disk.new) second.now file) }
{
    let folder = disk.open_folder(second)?;
    if !is_free(disk, second)? {
        return Err(io::Error::from(ErrorKind::AlreadyExists));
    }
    disk.rename(tried, second)?;
    if let Err(error) = sync_names(disk, &folder) {
        let _ = disk.remove(second);
        return Err(error);
    }
    let same = is_this_file(disk, second, file);
    if let Ok(true) = same {
        return Ok(true);
    }
    let _ = disk.remove(second);
    same
}

/// Whether this file stands under a name.
fn is_this_file<D: FolderDisk>(disk: &D, name: &str, file: FileIdentity) -> io::Result<bool>
    ensures { IfOk result (λ is. is ≡ true → D.is_file (D.asked disk.now) name.now file) }
{
    Ok(disk.identity(name)? == file)
}

/// A promise is over: its name is taken away, and that is on disk. It is so where the name isn't there any more.
pub fn drop_promise<D: FolderDisk>(
    disk: &mut D,
    alloc: Global,
    station: &str,
    promise: Promise,
) -> Result<(), AccountsFault>
    ensures asks { D.discloses → Adds (MayTakeAway (settle_path station.now (Named.Out promise)))
        (D.asked disk.old) (D.asked disk.new) }
    ensures gone { D.discloses → OnOk result
        (IsGone (settle_path station.now (Named.Out promise)) (D.asked disk.new)) }
{
    let path = settle_path(alloc, station, SettleName::Out(promise))?;
    take_away(disk, path.as_str())?;
    Ok(())
}

//! How the accounts are read.
ghost use Rattle.std.specs.Prelude.{◌≡◌, ℕ, IfOk, OnOk, List, map, string_bytes, true};
ghost use Rattle.rje_store.specs.Disk.{has_synced_name};
ghost use Rattle.rje_store.specs.Replacing.{Adds};
ghost use Rattle.rje_settle.specs.declared.settle_name.SettleName.{SettleName as Named};
ghost use Rattle.rje_accounts.specs.Accounts.{AreAccountsOf};
ghost use Rattle.rje_accounts.specs.Names.{AreNamesOf, AreSorted};
ghost use Rattle.rje_accounts.specs.Paths.{settle_folder as folder_path};
ghost use Rattle.rje_accounts.specs.Reading.{AreSynced, MayRead};

use crate::accounts::Accounts;
use crate::accounts_fault::AccountsFault;
use crate::naming::{settle_folder, settle_path};
use crate::settle_names::SettleNames;
use crate::syncing::sync_names;
use rje_folder::FolderDisk;
use rje_settle::SettleName;
use rje_store::Disk;
use std::alloc::Global;
use std::io;

/// The accounts on disk. Their folder is made, for its owner alone, where there is none, and its names are put on disk before they are read: so what is
/// read stands whatever comes.
pub fn read_accounts<D: FolderDisk>(
    disk: &mut D,
    alloc: Global,
    station: &str,
) -> Result<Accounts, AccountsFault>
    ensures asks { D.discloses → Adds (MayRead station.now) (D.asked disk.old) (D.asked disk.new) }
    ensures folder { D.discloses → OnOk result
        (has_synced_name (folder_path station.now) (D.asked disk.new) ≡ true) }
    ensures synced { D.discloses → OnOk result (AreSynced station.now (D.asked disk.new)) }
    // They are those of the names that the disk says are there.
    ensures accounts { IfOk result (λ accounts. (texts : List (List ℕ))
        × D.has_names (D.asked disk.new) (folder_path station.now) texts
        × AreAccountsOf texts accounts) }
{
    make_folder(disk, alloc, station)?;
    sync_accounts(disk, alloc, station)?;
    let names = read_names(disk, alloc, station)?;
    Accounts::of_names(names)
}

/// Makes the folder of the accounts, for its owner alone, where there is none; its name is on disk then.
fn make_folder<D: FolderDisk>(disk: &mut D, alloc: Global, station: &str) -> io::Result<()>
    ensures asks { D.discloses → Adds (MayRead station.now) (D.asked disk.old) (D.asked disk.new) }
    ensures synced { D.discloses → OnOk result
        (has_synced_name (folder_path station.now) (D.asked disk.new) ≡ true) }
{
    let path = settle_folder(alloc, station)?;
    disk.make_folder(path.as_str())?;
    let folder = disk.open_folder(path.as_str())?;
    sync_names(disk, &folder)
}

/// Puts the names of the accounts on disk.
fn sync_accounts<D: Disk>(disk: &mut D, alloc: Global, station: &str) -> io::Result<()>
    ensures asks { D.discloses → Adds (MayRead station.now) (D.asked disk.old) (D.asked disk.new) }
    ensures synced { D.discloses → OnOk result (AreSynced station.now (D.asked disk.new)) }
    ensures keeps { (name : List ℕ) → D.discloses → has_synced_name name (D.asked disk.old) ≡ true
        → has_synced_name name (D.asked disk.new) ≡ true }
{
    let path = settle_path(alloc, station, SettleName::Come(0))?;
    let folder = disk.open_folder(path.as_str())?;
    sync_names(disk, &folder)
}

/// The names of the accounts, which are on disk.
fn read_names<D: FolderDisk>(
    disk: &D,
    alloc: Global,
    station: &str,
) -> Result<SettleNames, AccountsFault>
    requires { D.discloses → AreSynced station.now (D.asked disk.now) }
    ensures { IfOk result (λ names. (texts : List (List ℕ)) × (all : List Named)
        × D.has_names (D.asked disk.now) (folder_path station.now) texts
        × AreNamesOf texts all × AreSorted all names) }
{
    let folder = settle_folder(alloc, station)?;
    let texts = disk.names_in(alloc, folder.as_str())?;
    sorted(alloc, texts.as_slice())
}

/// Those of these texts that are names, each kind by itself.
fn sorted(alloc: Global, texts: &[String]) -> Result<SettleNames, AccountsFault>
    ensures { IfOk result (λ names. (all : List Named)
        × AreNamesOf (map string_bytes texts.now) all × AreSorted all names) }
{
    let mut names = SettleNames::new(alloc);
    for text in texts {
        names.push_text(text.as_str())?;
    }
    Ok(names)
}

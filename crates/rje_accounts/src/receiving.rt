//! How a job that came is kept.
ghost use Rattle.std.specs.Prelude.{◌≡◌, ◌+◌, Err, IfOk, OnOk};
ghost use Rattle.sha2.specs.Sha256.{sha256};
ghost use Rattle.rje_store.specs.Replacing.{Adds, IsOnDisk};
ghost use Rattle.rje_settle.specs.declared.settle_name.SettleName.{SettleName as Named};
ghost use Rattle.rje_settle.specs.Receipt.{counted_with};
ghost use Rattle.rje_accounts.specs.Noting.{IsNoted};
ghost use Rattle.rje_accounts.specs.Receiving.{MayKeepJob, MayReceive};
ghost use Rattle.rje_accounts.specs.Paths.{settle_path};

use crate::accounts_fault::AccountsFault;
use crate::naming::settle_path;
use crate::noting::{drop_older, note_new};
use crate::syncing::sync_names;
use rje_folder::FolderDisk;
use rje_settle::{JobDigest, Receipt, SettleName};
use rje_store::{Disk, NewAccess};
use std::alloc::Global;
use std::io;

/// Keeps the job of this job file: it is on disk, under the number after those that were kept so far, and then it is counted there. What is kept
/// from now on. No name of fewer jobs goes away before that. On any fault the job may be counted all the same, if it wasn't refused.
pub fn keep_job<D: FolderDisk>(
    disk: &mut D,
    alloc: Global,
    station: &str,
    kept: Receipt,
    bytes: &[u8],
) -> Result<Receipt, AccountsFault>
    ensures asks { D.discloses
        → Adds (MayKeepJob station.now (counted_with kept (sha256 bytes.now)) bytes.now)
        (D.asked disk.old) (D.asked disk.new) }
    ensures counted { IfOk result (λ now. now ≡ counted_with kept (sha256 bytes.now)) }
    ensures on_disk { D.discloses → OnOk result (IsOnDisk
        (settle_path station.now (Named.Come (kept.kept + 1))) bytes.now (D.asked disk.new)) }
    ensures noted { D.discloses → OnOk result (IsNoted
        (settle_path station.now (Named.Kept (counted_with kept (sha256 bytes.now))))
        (D.asked disk.new)) }
    ensures full { kept.kept ≡ u64.MAX → result ≡ Err AccountsFault.CountFull }
    ensures unasked { kept.kept ≡ u64.MAX → D.asked disk.new ≡ D.asked disk.old }
{
    let job = JobDigest::of(bytes);
    let Some(now) = kept.with(job) else {
        return Err(AccountsFault::CountFull);
    };
    keep_as(disk, alloc, station, now, bytes)?;
    Ok(now)
}

/// Keeps a job, with which so much is kept.
fn keep_as<D: FolderDisk>(
    disk: &mut D,
    alloc: Global,
    station: &str,
    now: Receipt,
    bytes: &[u8],
) -> io::Result<()>
    ensures asks { D.discloses → Adds (MayKeepJob station.now now bytes.now)
        (D.asked disk.old) (D.asked disk.new) }
    ensures on_disk { D.discloses → OnOk result (IsOnDisk
        (settle_path station.now (Named.Come now.kept)) bytes.now (D.asked disk.new)) }
    ensures noted { D.discloses → OnOk result
        (IsNoted (settle_path station.now (Named.Kept now)) (D.asked disk.new)) }
{
    let come = settle_path(alloc, station, SettleName::Come(now.kept))?;
    let noted = settle_path(alloc, station, SettleName::Kept(now))?;
    receive(disk, come.as_str(), bytes)?;
    note_new(disk, noted.as_str())?;
    let _ = drop_older(disk, alloc, station, SettleName::Kept(now), noted.as_str());
    Ok(())
}

/// Makes these bytes a new file of this path, on disk.
fn receive<D: Disk>(disk: &mut D, path: &str, bytes: &[u8]) -> io::Result<()>
    ensures asks { D.discloses → Adds (MayReceive path.now bytes.now)
        (D.asked disk.old) (D.asked disk.new) }
    ensures on_disk { D.discloses → OnOk result
        (IsOnDisk path.now bytes.now (D.asked disk.new)) }
{
    let folder = disk.open_folder(path)?;
    let file = disk.create(path, NewAccess::Private)?;
    disk.fill(&file, bytes)?;
    disk.sync(&file)?;
    sync_names(disk, &folder)
}

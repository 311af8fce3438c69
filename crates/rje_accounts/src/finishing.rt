//! What becomes of a job that came, when a station begins or after a fault.
ghost use Rattle.rje_store.specs.Replacing.{Adds};
ghost use Rattle.rje_accounts.specs.Finishing.{MayFinish};

use crate::accounts_fault::AccountsFault;
use crate::bringing_in::{BroughtIn, bring_in};
use crate::emptying::take_away;
use crate::naming::settle_path;
use rje_folder::FolderDisk;
use rje_settle::{Receipt, SettleName};
use std::alloc::Global;

/// Brings what was begun with the job of this number to its end, where so much is kept: one that was kept gets its name in in/, with this stamp, as
/// `bring_in` gives it, and one that never was is taken away. Where that fails it can be done again.
pub fn finish_job<D: FolderDisk>(
    disk: &mut D,
    alloc: Global,
    station: &str,
    stamp: &str,
    kept: Receipt,
    number: u64,
) -> Result<Option<BroughtIn>, AccountsFault>
    ensures { D.discloses → Adds (MayFinish D.are_one station.now stamp.now kept number)
        (D.asked disk.old) (D.asked disk.new) }
{
    if number <= kept.kept {
        let brought = bring_in(disk, alloc, station, number, stamp)?;
        return Ok(Some(brought));
    }
    let path = settle_path(alloc, station, SettleName::Come(number))?;
    take_away(disk, path.as_str())?;
    Ok(None)
}

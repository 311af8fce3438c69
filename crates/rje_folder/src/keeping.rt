//! How bytes become a new file, which is never in the place of another.
ghost use Rattle.std.specs.Prelude.{◌≡◌, ◌≤◌, ℕ, List, [], length, Some, IfOk, OnErr, OnOk, string_bytes};
ghost use Rattle.rje_store.specs.Disk.{bytes_of, standing};
ghost use Rattle.rje_store.specs.Replacing.{Adds, IsOnDisk};
ghost use Rattle.rje_store.specs.Inside.Filling.{Fills};
ghost use Rattle.rje_folder.specs.FileNames.{IsNameBefore, IsNameOf};
ghost use Rattle.rje_folder.specs.Keeping.{IsTemporary, LeavesNone, MayKeep, WasMade, WasNamed};
ghost use Rattle.rje_folder.specs.Inside.Calls.{IsKept, IsNewIn, LeavesOne, MayCreate, MayWrite};

use crate::file_names::FileNames;
use crate::linking::{link_free, sync_names};
use rje_store::{Disk, NewAccess};
use std::alloc::Global;
use std::io::{self, ErrorKind};

/// Where a new file is kept.
#[derive(Drop)]
pub struct Kept {
    /// Its path.
    pub path: String,
    /// The number that comes after the one in its name.
    pub next: u32,
}

/// A new file under a name that a reader of its folder leaves alone.
#[derive(Drop)]
pub(crate) struct NewFile<F: Drop> {
    pub(crate) file: F,
    pub(crate) path: String,
}

/// Makes these bytes a new file of a folder, under the first of these names that no file has: once it is on disk, and then its name is put there
/// too. Where it is. Where that fails, there is no such file, if it can be taken away again.
pub fn keep<D: Disk>(
    disk: &mut D,
    alloc: Global,
    folder: &str,
    names: FileNames<'_>,
    bytes: &[u8],
) -> io::Result<Kept>
    ensures asks { D.discloses → Adds (MayKeep folder.now (IsNameOf names.entry) bytes.now)
        (D.asked disk.old) (D.asked disk.new) }
    ensures on_disk { D.discloses → IfOk result (λ kept.
        IsOnDisk (string_bytes kept.path) bytes.now (D.asked disk.new)) }
    ensures made { D.discloses → IfOk result (λ kept.
        WasMade (string_bytes kept.path) (D.asked disk.old) (D.asked disk.new)) }
    ensures named_new { D.discloses → IfOk result (λ kept.
        WasNamed (string_bytes kept.path) (D.asked disk.old) (D.asked disk.new)) }
    ensures named { IfOk result (λ kept. IsNameOf names.entry (string_bytes kept.path)) }
    ensures next { IfOk result (λ kept.
        IsNameBefore names.entry kept.next (string_bytes kept.path)) }
{
    let new = create_new(disk, alloc, folder)?;
    let kept = keep_new(disk, alloc, &new, names, bytes);
    let _ = disk.remove(new.path.as_str());
    kept
}

/// A new file of a folder, empty, that the station's user alone may read.
pub(crate) fn create_new<D: Disk>(
    disk: &mut D,
    alloc: Global,
    folder: &str,
) -> io::Result<NewFile<D::File>>
    ensures asks { D.discloses
        → Adds (MayCreate folder.now) (D.asked disk.old) (D.asked disk.new) }
    ensures new { D.discloses → IfOk result (λ new. IsNewIn folder.now (D.opened new.file)
        (string_bytes new.path) (D.asked disk.new)) }
    ensures made { D.discloses → IfOk result (λ new.
        length (D.asked disk.old) ≤ (D.opened new.file).number) }
    ensures others { D.discloses → IfOk result (λ new.
        LeavesOne (string_bytes new.path) (D.asked disk.old) (D.asked disk.new)) }
    ensures none { D.discloses → OnErr result (LeavesNone (D.asked disk.old) (D.asked disk.new)) }
{
    for number in 0..u32::MAX {
        let path = temporary_name(alloc, folder, number)?;
        match disk.create(path.as_str(), NewAccess::Private) {
            Ok(file) => return Ok(NewFile { file, path }),
            Err(error) if error.kind() == ErrorKind::AlreadyExists => {}
            Err(error) => return Err(error),
        }
    }
    Err(io::Error::from(ErrorKind::AlreadyExists))
}

/// A name of a folder that its readers leave alone.
pub(crate) fn temporary_name(alloc: Global, folder: &str, number: u32) -> io::Result<String>
    ensures { IfOk result (λ name. IsTemporary folder.now (string_bytes name)) }
{
    Ok(format!(in alloc; "{folder}/.rje-{number}.part")?)
}

/// Writes the bytes into a new file, has it on disk, and gives it the first of these names that no file has, on disk too.
fn keep_new<D: Disk>(
    disk: &mut D,
    alloc: Global,
    new: &NewFile<D::File>,
    names: FileNames<'_>,
    bytes: &[u8],
) -> io::Result<Kept>
    ensures asks { D.discloses → (folder : List ℕ)
        → IsNewIn folder (D.opened new.now.file) (string_bytes new.now.path) (D.asked disk.old)
        → Adds (MayKeep folder (IsNameOf names.entry) bytes.now)
        (D.asked disk.old) (D.asked disk.new) }
    ensures kept { D.discloses → (folder : List ℕ)
        → IsNewIn folder (D.opened new.now.file) (string_bytes new.now.path) (D.asked disk.old)
        → IfOk result (λ kept. IsKept (string_bytes new.now.path) (string_bytes kept.path)
        bytes.now (D.asked disk.new)) }
    ensures stands { D.discloses → (folder : List ℕ)
        → IsNewIn folder (D.opened new.now.file) (string_bytes new.now.path) (D.asked disk.old)
        → IfOk result (λ kept. standing (string_bytes kept.path) (D.asked disk.new)
        ≡ Some (D.opened new.now.file).number) }
    ensures named_new { D.discloses → (folder : List ℕ)
        → IsNewIn folder (D.opened new.now.file) (string_bytes new.now.path) (D.asked disk.old)
        → IfOk result (λ kept.
        WasNamed (string_bytes kept.path) (D.asked disk.old) (D.asked disk.new)) }
    ensures named { IfOk result (λ kept. IsNameOf names.entry (string_bytes kept.path)) }
    ensures next { IfOk result (λ kept.
        IsNameBefore names.entry kept.next (string_bytes kept.path)) }
{
    fill_new(disk, &new.file, bytes)?;
    let kept = link_free(disk, alloc, new.path.as_str(), names)?;
    match sync_names(disk, &kept.folder) {
        Ok(()) => Ok(Kept {
            path: kept.path,
            next: kept.next,
        }),
        Err(error) => {
            let _ = disk.remove(kept.path.as_str());
            Err(error)
        }
    }
}

/// Writes the bytes into an empty file, and has it on disk.
pub(crate) fn fill_new<D: Disk>(disk: &mut D, file: &D::File, bytes: &[u8]) -> io::Result<()>
    ensures asks { D.discloses
        → bytes_of (D.opened file.now).number (D.asked disk.old) ≡ Some []
        → Adds (MayWrite (D.opened file.now)) (D.asked disk.old) (D.asked disk.new) }
    ensures filled { D.discloses → OnOk result
        (Fills (D.opened file.now).number bytes.now (D.asked disk.old) (D.asked disk.new)) }
{
    disk.fill(file, bytes)?;
    disk.sync(file)
}

//! How a file is read.
ghost use Rattle.std.specs.Prelude.{◌≡◌, ◌≢◌, ◌<◌, ◌≤◌, length, IfErr, IfOk, IfSome, IsErrOf, OnOk};
ghost use Rattle.std.specs.Io.KnownBytes.{IsAtEnd};
ghost use Rattle.rje_store.specs.Replacing.{Adds};
ghost use Rattle.rje_folder.specs.Folder.{path_in};
ghost use Rattle.rje_folder.specs.Reading.{IsLongerThan, IsReadOf, IsWholeRead, MayRead, OfSecond, WasLocked};
ghost use Rattle.rje_folder.specs.declared.folder_fault.FolderFault.TheVariants.{TooLarge};

use crate::file_identity::FileIdentity;
use crate::folder::Folder;
use crate::folder_disk::FolderDisk;
use crate::folder_fault::FolderFault;
use crate::ready_opening::{NamedFile, as_named, open_named, open_ready};
use crate::trying::lock_to_read;
use std::alloc::Global;
use std::io::{self, Read};

/// How many bytes are read at once.
const PIECE: usize = 65_536;

/// What was read of a file.
#[derive(Debug, Drop)]
pub struct FileRead {
    /// All its bytes.
    pub bytes: Vec<u8>,
    /// Which file it is.
    pub file: FileIdentity,
}

/// A file of out/ that was read, and which is locked as long as `lock` is open.
#[derive(Drop)]
pub(crate) struct LockedFile<F: Drop> {
    pub(crate) read: FileRead,
    pub(crate) lock: F,
}

/// What there is to be read of a file in out/, and which file it is: the one that stands under the name itself. Too large where it has more than `most`;
/// being written where it was written to, another one took the name, or a command had it locked, meanwhile; without a second name where it can't get one
/// in refused/.
pub(crate) fn read_ready<D: FolderDisk>(
    disk: &mut D,
    alloc: Global,
    station: &str,
    name: &str,
    most: u64,
) -> Result<FileRead, FolderFault>
    ensures asks { D.discloses → Adds (MayRead station.now name.now)
        (D.asked disk.old) (D.asked disk.new) }
    ensures all { D.discloses → IfOk result (λ read. OfSecond station.now name.now
        (D.asked disk.old) (D.asked disk.new) (λ second.
        IsReadOf D.opened D.File.remaining (D.is_open (D.asked disk.new)) second read)) }
    ensures named { IfOk result (λ read. D.is_file (D.asked disk.new)
        (path_in station.now Folder.Out name.now) read.file) }
    ensures free { IfOk result (WasLocked D.is_locked (D.is_open (D.asked disk.new))) }
    ensures limit { IfOk result (λ read. length read.bytes.items ≤ most) }
    ensures long { D.discloses → IsErrOf result (TooLarge Folder.Out)
        → OfSecond station.now name.now (D.asked disk.old) (D.asked disk.new)
        (λ second. IsLongerThan D.opened D.File.remaining second most) }
{
    let NamedFile { mut file, named } = open_ready(disk, alloc, station, name)?;
    let read = read_whole(disk, alloc, &mut file, named, most)?;
    Ok(lock_read(disk, alloc, station, name, read, file)?.read)
}

/// The same of a file that can't get a second name, which is opened by its own; and it is locked.
pub(crate) fn read_named<D: FolderDisk>(
    disk: &D,
    alloc: Global,
    station: &str,
    name: &str,
    most: u64,
) -> Result<LockedFile<D::File>, FolderFault>
    ensures all { D.discloses → IfOk result (λ locked. IsReadOf D.opened D.File.remaining
        (D.is_open (D.asked disk.now)) (path_in station.now Folder.Out name.now) locked.read) }
    ensures named { IfOk result (λ locked. D.is_file (D.asked disk.now)
        (path_in station.now Folder.Out name.now) locked.read.file) }
    ensures locked { IfOk result (λ locked. D.is_locked locked.lock
        × D.is_open (D.asked disk.now) locked.lock locked.read.file) }
    ensures limit { IfOk result (λ locked. length locked.read.bytes.items ≤ most) }
{
    let NamedFile { mut file, named } = open_named(disk, alloc, station, name)?;
    let read = read_whole(disk, alloc, &mut file, named, most)?;
    lock_read(disk, alloc, station, name, read, file)
}

/// Locks an open file of out/ that was read. Being written where a command has it locked, or has put another file in its place by now.
fn lock_read<D: FolderDisk>(
    disk: &D,
    alloc: Global,
    station: &str,
    name: &str,
    read: FileRead,
    file: D::File,
) -> Result<LockedFile<D::File>, FolderFault>
    ensures read { IfOk result (λ locked. locked.read ≡ read) }
    ensures locked { IfOk result (λ locked. D.is_locked locked.lock
        × D.is_open (D.asked disk.now) locked.lock locked.read.file) }
    ensures named { IfOk result (λ locked. D.is_file (D.asked disk.now)
        (path_in station.now Folder.Out name.now) locked.read.file) }
    ensures not_long { IfErr result (λ fault. (other : Folder) → fault ≢ TooLarge other) }
{
    if let Err(error) = lock_to_read(disk, &file) {
        return Err(FolderFault::unlocked(&error));
    }
    let NamedFile { file, named } = as_named(disk, alloc, station, name, file)?;
    if named == read.file {
        Ok(LockedFile { read, lock: file })
    } else {
        Err(FolderFault::BeingWritten(Folder::Out))
    }
}

/// What there is to be read of an open file of out/, which is this one before its first byte and behind its last.
fn read_whole<D: FolderDisk>(
    disk: &D,
    alloc: Global,
    file: &mut D::File,
    named: FileIdentity,
    most: u64,
) -> Result<FileRead, FolderFault>
    ensures all { D.is_open (D.asked disk.now) file.old named → IfOk result
        (IsWholeRead D.File.remaining (D.is_open (D.asked disk.now)) file.old) }
    ensures named { IfOk result (λ read. read.file ≡ named) }
    ensures limit { IfOk result (λ read. length read.bytes.items ≤ most) }
    ensures long { IsErrOf result (TooLarge Folder.Out) → IfSome (D.File.remaining file.old)
        (λ rest. most < length rest) }
{
    let bytes = read_all(alloc, Folder::Out, file, most)?;
    if identity_of(disk, file)? == named {
        Ok(FileRead { bytes, file: named })
    } else {
        Err(FolderFault::BeingWritten(Folder::Out))
    }
}

/// Which file an open one of out/ is.
fn identity_of<D: FolderDisk>(disk: &D, file: &D::File) -> Result<FileIdentity, FolderFault>
    ensures is { IfOk result (λ is. D.is_open (D.asked disk.now) file.now is) }
    ensures not_long { IfErr result (λ fault. (other : Folder) → fault ≢ TooLarge other) }
{
    match disk.identity_of(file) {
        Ok(is) => Ok(is),
        Err(error) => Err(FolderFault::of(Folder::Out, &error)),
    }
}

/// Which file has this name in out/.
pub(crate) fn identity<D: FolderDisk>(
    disk: &D,
    alloc: Global,
    station: &str,
    name: &str,
) -> io::Result<FileIdentity>
    ensures { IfOk result (D.is_file (D.asked disk.now) (path_in station.now Folder.Out name.now)) }
{
    let ready = Folder::Out.path(alloc, station, name)?;
    disk.identity(ready.as_str())
}

/// All bytes of an open file of a folder. Too large where it has more than `most`.
fn read_all<I: Read>(
    alloc: Global,
    folder: Folder,
    input: &mut I,
    most: u64,
) -> Result<Vec<u8>, FolderFault>
    ensures all { IfOk result (λ bytes.
        IfSome (I.remaining input.old) (λ rest. bytes.items ≡ rest)) }
    ensures ended { OnOk result (IsAtEnd (I.remaining input.new)) }
    ensures limit { IfOk result (λ bytes. length bytes.items ≤ most) }
    ensures long { IsErrOf result (TooLarge folder) → IfSome (I.remaining input.old)
        (λ rest. most < length rest) }
{
    let mut bytes = Vec::new(alloc);
    let mut piece = [0u8; PIECE];
    loop {
        let count = match input.read(&mut piece) {
            Ok(count) => count,
            Err(error) => return Err(FolderFault::of(folder, &error)),
        };
        if count == 0 {
            return Ok(bytes);
        }
        if most - (bytes.len() as u64) < count as u64 {
            return Err(FolderFault::TooLarge(folder));
        }
        bytes.extend_from_slice(&piece[..count])?;
    }
}

//! How a file of out/ is opened to be read. Others may write to out/, so what stands under a name there may be another thing a moment later.
ghost use Rattle.std.specs.Prelude.{◌≡◌, ◌≢◌, IfErr, IfOk, IfSome, string_bytes};
ghost use Rattle.rje_store.specs.Replacing.{Adds};
ghost use Rattle.rje_folder.specs.Folder.{path_in, path_of};
ghost use Rattle.rje_folder.specs.Keeping.{IsTemporary};
ghost use Rattle.rje_folder.specs.Moving.{MayLink};
ghost use Rattle.rje_folder.specs.Reading.{GotSecond, MayRead};
ghost use Rattle.rje_folder.specs.Inside.Calls.{HasLinked};
ghost use Rattle.rje_folder.specs.declared.folder_fault.FolderFault.TheVariants.{TooLarge};

use crate::file_identity::FileIdentity;
use crate::file_names::FileNames;
use crate::folder::Folder;
use crate::folder_disk::FolderDisk;
use crate::folder_fault::FolderFault;
use crate::linking::link_free;
use crate::ready_file::ReadyFile;
use rje_store::FileKind;
use std::alloc::Global;
use std::io::{self, ErrorKind};

/// How many names a file has at most that is read, with the one by which it is.
const MOST_NAMES: u64 = 10_000;

/// A file that is open to be read, and which file stands under its name.
#[derive(Drop)]
pub(crate) struct NamedFile<F: Drop> {
    pub(crate) file: F,
    pub(crate) named: FileIdentity,
}

/// A file in out/, open to be read, by a second name that it has for that moment: in refused/, where nobody else can put a pipe or a link in its place
/// between the look and the open. Being written where another file has its name in out/ then; without a second name where it is a job file that the
/// station may not write to.
pub(crate) fn open_ready<D: FolderDisk>(
    disk: &mut D,
    alloc: Global,
    station: &str,
    name: &str,
) -> Result<NamedFile<D::File>, FolderFault>
    ensures asks { D.discloses → Adds (MayRead station.now name.now)
        (D.asked disk.old) (D.asked disk.new) }
    ensures opened { D.discloses → IfOk result (λ ready. GotSecond station.now name.now
        (D.opened ready.file).name (D.asked disk.old) (D.asked disk.new)) }
    ensures is { IfOk result (λ ready. D.is_open (D.asked disk.new) ready.file ready.named) }
    ensures named { IfOk result (λ ready. D.is_file (D.asked disk.new)
        (path_in station.now Folder.Out name.now) ready.named) }
    ensures not_long { IfErr result (λ fault. (other : Folder) → fault ≢ TooLarge other) }
{
    let second = match second_path(disk, alloc, station, name) {
        Ok(second) => second,
        Err(error) => return Err(unnamed(&error)),
    };
    let opened = open_to_send(disk, name, second.as_str());
    // (a name that stays is taken away at the next begin)
    let _ = disk.remove(second.as_str());
    match opened {
        Ok(file) => as_named(disk, alloc, station, name, file),
        Err(error) => Err(unopened(&error)),
    }
}

/// A file of this name, which has this path, open to be read. A job file that the station may not write to, so that no job of it could be marked as sent,
/// is as one on a disk that can only be read.
fn open_to_send<D: FolderDisk>(disk: &D, name: &str, path: &str) -> io::Result<D::File>
    ensures { D.discloses → IfOk result (λ file. (D.opened file).name ≡ path.now) }
{
    let file = open_regular(disk, path)?;
    if is_sealed(disk, name, path) {
        Err(io::Error::from(ErrorKind::ReadOnlyFilesystem))
    } else {
        Ok(file)
    }
}

/// Why a file in out/ that has a second name isn't read: a job file that the station may not write to is as one that gets none.
fn unopened(error: &io::Error) -> FolderFault
    ensures { (other : Folder) → result ≢ TooLarge other }
{
    match error.kind() {
        ErrorKind::ReadOnlyFilesystem => FolderFault::NoSecondName(ErrorKind::PermissionDenied),
        _ => FolderFault::of(Folder::Out, error),
    }
}

/// Whether a file of this name, which has this path, is a job file that the station may not write to: its jobs couldn't be marked as sent.
fn is_sealed<D: FolderDisk>(disk: &D, name: &str, path: &str) -> bool {
    match ReadyFile::of_name(name) {
        Some(ReadyFile::JobFile) => match disk.try_to_write(path) {
            Err(error) => error.kind() == ErrorKind::PermissionDenied,
            Ok(()) => false,
        },
        _ => false,
    }
}

/// Why a file in out/ gets no second name. One that isn't there is not found.
fn unnamed(error: &io::Error) -> FolderFault
    ensures { (other : Folder) → result ≢ TooLarge other }
{
    match error.kind() {
        ErrorKind::NotFound => FolderFault::of(Folder::Out, error),
        _ => FolderFault::no_second_name(error),
    }
}

/// Gives whatever stands under a name in out/ a second one in refused/, which is made where it isn't there: the first that is left alone and that
/// nothing has. Its path.
fn second_path<D: FolderDisk>(
    disk: &mut D,
    alloc: Global,
    station: &str,
    name: &str,
) -> io::Result<String>
    ensures asks { D.discloses → Adds
        (MayLink (path_in station.now Folder.Out name.now)
        (IsTemporary (path_of station.now Folder.Refused))) (D.asked disk.old) (D.asked disk.new) }
    ensures linked { D.discloses → IfOk result (λ second. HasLinked
        (path_in station.now Folder.Out name.now) (string_bytes second)
        (D.asked disk.old) (D.asked disk.new)) }
    ensures temporary { IfOk result (λ second.
        IsTemporary (path_of station.now Folder.Refused) (string_bytes second)) }
{
    let ready = Folder::Out.path(alloc, station, name)?;
    let own = Folder::Refused.own_path(alloc, station)?;
    disk.make_folder(own.as_str())?;
    let stem = format!(in alloc; "{own}/.rje")?;
    let names = FileNames::Numbered {
        stem: stem.as_str(),
        ending: ".part",
        first: 0,
    };
    Ok(link_free(disk, alloc, ready.as_str(), names)?.path)
}

/// An open file of out/, and which file stands under its name: that one. Being written where it is another.
pub(crate) fn as_named<D: FolderDisk>(
    disk: &D,
    alloc: Global,
    station: &str,
    name: &str,
    file: D::File,
) -> Result<NamedFile<D::File>, FolderFault>
    ensures same { IfOk result (λ ready. ready.file ≡ file) }
    ensures opened { IfOk result (λ ready. D.opened ready.file ≡ D.opened file) }
    ensures is { IfOk result (λ ready. D.is_open (D.asked disk.now) ready.file ready.named) }
    ensures named { IfOk result (λ ready. D.is_file (D.asked disk.now)
        (path_in station.now Folder.Out name.now) ready.named) }
    ensures not_long { IfErr result (λ fault. (other : Folder) → fault ≢ TooLarge other) }
{
    match named_as(disk, alloc, station, name, &file) {
        Ok(Some(named)) => Ok(NamedFile { file, named }),
        Ok(None) => Err(FolderFault::BeingWritten(Folder::Out)),
        Err(error) => Err(FolderFault::of(Folder::Out, &error)),
    }
}

/// Which file stands under a name in out/, where it is this open one.
fn named_as<D: FolderDisk>(
    disk: &D,
    alloc: Global,
    station: &str,
    name: &str,
    file: &D::File,
) -> io::Result<Option<FileIdentity>>
    ensures is { IfOk result (λ named. IfSome named (D.is_open (D.asked disk.now) file.now)) }
    ensures named { IfOk result (λ named. IfSome named (D.is_file (D.asked disk.now)
        (path_in station.now Folder.Out name.now))) }
{
    let ready = Folder::Out.path(alloc, station, name)?;
    let named = disk.identity(ready.as_str())?;
    if disk.identity_of(file)? == named {
        Ok(Some(named))
    } else {
        Ok(None)
    }
}

/// A file in out/, open to be read by its own name, since it can't get a second one. A link that takes its name between the look and the open leads
/// nowhere; a pipe that does is waited for.
pub(crate) fn open_named<D: FolderDisk>(
    disk: &D,
    alloc: Global,
    station: &str,
    name: &str,
) -> Result<NamedFile<D::File>, FolderFault>
    ensures opened { D.discloses → IfOk result (λ ready.
        (D.opened ready.file).name ≡ path_in station.now Folder.Out name.now) }
    ensures is { IfOk result (λ ready. D.is_open (D.asked disk.now) ready.file ready.named) }
    ensures named { IfOk result (λ ready. D.is_file (D.asked disk.now)
        (path_in station.now Folder.Out name.now) ready.named) }
{
    match opened_by_name(disk, alloc, station, name) {
        Ok(file) => as_named(disk, alloc, station, name, file),
        Err(error) => Err(FolderFault::of(Folder::Out, &error)),
    }
}

fn opened_by_name<D: FolderDisk>(
    disk: &D,
    alloc: Global,
    station: &str,
    name: &str,
) -> io::Result<D::File>
    ensures { D.discloses → IfOk result (λ file.
        (D.opened file).name ≡ path_in station.now Folder.Out name.now) }
{
    let ready = Folder::Out.path(alloc, station, name)?;
    open_regular(disk, ready.as_str())
}

/// The file under a path, open to be read. A symbolic link is refused, since its names in other folders can't be told from others, and so are a folder,
/// a device, a pipe, which would be waited for, and a file with so many names that the system might refuse it the one in sent/.
fn open_regular<D: FolderDisk>(disk: &D, path: &str) -> io::Result<D::File>
    ensures { D.discloses → IfOk result (λ file. (D.opened file).name ≡ path.now) }
{
    if disk.is_link(path)? {
        return Err(io::Error::from(ErrorKind::Unsupported));
    }
    let found = disk.status(path)?;
    match found.kind {
        FileKind::Regular if found.links > MOST_NAMES => {
            Err(io::Error::from(ErrorKind::TooManyLinks))
        }
        FileKind::Regular => disk.open_to_read(path),
        FileKind::Folder => Err(io::Error::from(ErrorKind::IsADirectory)),
        FileKind::Device => Err(io::Error::from(ErrorKind::Unsupported)),
    }
}

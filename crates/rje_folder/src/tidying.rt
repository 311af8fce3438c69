//! How what was begun is brought to its end, where a station was killed.
ghost use Rattle.std.specs.Prelude.{◌≡◌, true, IfOk, IfSome, string_bytes};
ghost use Rattle.rje_store.specs.Replacing.{Adds};
ghost use Rattle.rje_folder.specs.FileNames.{IsNamedAfter};
ghost use Rattle.rje_folder.specs.Folder.{path_in};
ghost use Rattle.rje_folder.specs.Promising.{IsKeptElsewhere, MayTidy};

use crate::folder::Folder;
use crate::folder_disk::FolderDisk;
use crate::kept_names::KeptNames;
use crate::moving::drop_name;
use crate::naming::{is_named_after, may_be_named_after, names_before};
use crate::taking_out::take_from_out;
use std::alloc::Global;
use std::io::{self, ErrorKind};

/// Takes a name in out/ away, where its file has one in sent/, doubt/ or refused/ too, of those that are listed: so a file that was counted, that may
/// have arrived or that was refused doesn't lie ready. Another file that gets the name meanwhile keeps it.
pub(crate) fn tidy_ready<D: FolderDisk>(
    disk: &mut D,
    alloc: Global,
    station: &str,
    name: &str,
    listed: &KeptNames,
) -> io::Result<()>
    ensures { D.discloses → Adds (MayTidy D.are_one station.now)
        (D.asked disk.old) (D.asked disk.new) }
{
    let ready = Folder::Out.path(alloc, station, name)?;
    if has_one_name(disk, ready.as_str())? {
        return Ok(());
    }
    match kept_name(disk, alloc, station, name, ready.as_str(), listed)? {
        Some(kept) => {
            take_from_out(disk, alloc, station, name, kept.as_str())?;
            Ok(())
        }
        None => Ok(()),
    }
}

/// Takes a name in doubt/ away, where its file has one in sent/ too, of these: so a file that was counted isn't in doubt.
pub(crate) fn tidy_doubt<D: FolderDisk>(
    disk: &mut D,
    alloc: Global,
    station: &str,
    name: &str,
    sent: &[String],
) -> io::Result<()>
    ensures { D.discloses → Adds (MayTidy D.are_one station.now)
        (D.asked disk.old) (D.asked disk.new) }
{
    let doubt = Folder::Doubt.path(alloc, station, name)?;
    if has_one_name(disk, doubt.as_str())? {
        return Ok(());
    }
    let names = names_before(alloc, name)?;
    for base in &names {
        if tidy_counted(disk, alloc, station, base.as_str(), doubt.as_str(), sent)? {
            return Ok(());
        }
    }
    Ok(())
}

/// Takes a path in doubt/ away, where its file has one in sent/ too, both of this name, as it is or with a number. Whether it has.
fn tidy_counted<D: FolderDisk>(
    disk: &mut D,
    alloc: Global,
    station: &str,
    base: &str,
    doubt: &str,
    sent: &[String],
) -> io::Result<bool>
    ensures { D.discloses → Adds (MayTidy D.are_one station.now)
        (D.asked disk.old) (D.asked disk.new) }
{
    let first = Folder::Doubt.path(alloc, station, base)?;
    let named = is_named_after(alloc, first.as_str(), doubt)?;
    if !named {
        return Ok(false);
    }
    match second_in(disk, alloc, station, Folder::Sent, base, doubt, sent)? {
        Some(kept) => {
            drop_name(disk, kept.as_str(), doubt)?;
            Ok(true)
        }
        None => Ok(false),
    }
}

/// Whether the file of a path has no other name, or is there no more.
pub(crate) fn has_one_name<D: FolderDisk>(disk: &D, path: &str) -> io::Result<bool> {
    match disk.status_of_name(path) {
        Ok(found) => Ok(found.links < 2),
        Err(error) if error.kind() == ErrorKind::NotFound => Ok(true),
        Err(error) => Err(error),
    }
}

/// How many names the file of a name in out/ has: none where it is there no more.
pub(crate) fn names_of_file<D: FolderDisk>(
    disk: &D,
    alloc: Global,
    station: &str,
    name: &str,
) -> io::Result<u64> {
    let ready = Folder::Out.path(alloc, station, name)?;
    match disk.status_of_name(ready.as_str()) {
        Ok(found) => Ok(found.links),
        Err(error) if error.kind() == ErrorKind::NotFound => Ok(0),
        Err(error) => Err(error),
    }
}

/// Whether the file of a name in out/ has one in sent/, doubt/ or refused/ too, of those that are listed.
pub(crate) fn has_kept_name<D: FolderDisk>(
    disk: &D,
    alloc: Global,
    station: &str,
    name: &str,
    listed: &KeptNames,
) -> io::Result<bool> {
    let ready = Folder::Out.path(alloc, station, name)?;
    Ok(kept_name(disk, alloc, station, name, ready.as_str(), listed)?.is_some())
}

/// The path of the other name that the file of a name in out/ has.
pub(crate) fn kept_name<D: FolderDisk>(
    disk: &D,
    alloc: Global,
    station: &str,
    name: &str,
    ready: &str,
    listed: &KeptNames,
) -> io::Result<Option<String>>
    ensures { IfOk result (λ kept. IfSome kept (λ path.
        IsKeptElsewhere station.now name.now (string_bytes path))) }
{
    let sent = listed.sent();
    if let Some(path) = second_in(disk, alloc, station, Folder::Sent, name, ready, sent)? {
        return Ok(Some(path));
    }
    let doubt = listed.doubt();
    if let Some(path) = second_in(disk, alloc, station, Folder::Doubt, name, ready, doubt)? {
        return Ok(Some(path));
    }
    let refused = listed.refused();
    if let Some(path) = second_in(disk, alloc, station, Folder::Refused, name, ready, refused)? {
        return Ok(Some(path));
    }
    Ok(None)
}

/// That in one of the other folders, which has these names: the one of this file that is of this name, as it is or with a number.
pub(crate) fn second_in<D: FolderDisk>(
    disk: &D,
    alloc: Global,
    station: &str,
    folder: Folder,
    name: &str,
    file: &str,
    names: &[String],
) -> io::Result<Option<String>>
    ensures { IfOk result (λ second. IfSome second (λ path.
        IsNamedAfter (path_in station.now folder name.now) (string_bytes path))) }
{
    let first = folder.path(alloc, station, name)?;
    for other in names {
        if !may_be_named_after(name, other.as_str()) {
            continue;
        }
        let path = folder.path(alloc, station, other.as_str())?;
        if is_second(disk, alloc, first.as_str(), path.as_str(), file)? {
            return Ok(Some(path));
        }
    }
    Ok(None)
}

/// Whether a path is of this file, and of the name of another path, as it is or with a number.
fn is_second<D: FolderDisk>(
    disk: &D,
    alloc: Global,
    first: &str,
    path: &str,
    file: &str,
) -> io::Result<bool>
    ensures { IfOk result (λ is. is ≡ true → IsNamedAfter first.now path.now) }
{
    if !is_named_after(alloc, first, path)? {
        return Ok(false);
    }
    match disk.is_one_file(path, file) {
        Err(error) if error.kind() == ErrorKind::NotFound => Ok(false),
        asked => asked,
    }
}

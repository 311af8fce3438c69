//! What becomes of the file of a promised job, once a receipt settles the job.

use crate::comparing::{has_job, is_marked};
use crate::finding::{Standing, path_in, path_of};
use rje_accounts::settle_path;
use rje_files::MARK;
use rje_folder::{
    FileIdentity, FileNames, Folder, FolderDisk, add_name, drop_name, move_file, set_mark,
};
use rje_settle::{Promise, Receipt, SettleName};
use std::alloc::Global;
use std::io::{self, ErrorKind};

/// The byte of a job that isn't marked as sent.
const NO_MARK: u8 = 0;

/// The folders of the station's own in which the file of a promised job may stand. Others put files into out/, and replace them there.
const OWN_FOLDERS: [Folder; 2] = [Folder::Doubt, Folder::Sent];

/// The file of a promised job, where it stands once it was dealt with.
#[derive(Debug, Drop)]
pub(crate) struct FiledJob {
    /// Which file it is.
    pub(crate) file: FileIdentity,
    /// Its path; none, where somebody has taken it away.
    pub(crate) path: Option<String>,
    /// The name in out/ that it has besides, which is to be taken away.
    pub(crate) out: Option<String>,
    /// Whether it stood in sent/.
    pub(crate) was_sent: bool,
    /// Whether somebody has written to it since the job was promised: it has that no more.
    pub(crate) is_changed: bool,
}

/// The job of this promise came: it is marked as sent in its file, and that goes to sent/ if it has no further one, and else to out/. One that stands
/// in sent/ stays there, and one that somebody has written to where it is. A name that it has in out/ besides isn't taken away yet. If it is known, this
/// is what the other end had said before.
pub(crate) fn file_as_sent<D: FolderDisk>(
    disk: &mut D,
    alloc: Global,
    station: &str,
    promise: Promise,
    before: Option<Receipt>,
) -> io::Result<FiledJob> {
    let second = settle_path(alloc, station, SettleName::Out(promise))?;
    let second = second.as_str();
    let standing = Standing::of(disk, alloc, station, second)?;
    if standing.is_in(Folder::Sent) {
        return filed(disk, alloc, station, second, Folder::Sent, &standing);
    }
    if is_changed(disk, alloc, second, &standing, promise, before)? {
        return left(disk, alloc, station, second, &standing);
    }
    let to = if promise.place.is_last {
        Folder::Sent
    } else {
        Folder::Out
    };
    if standing.folder().is_some() {
        set_job_mark(disk, second, promise.place.mark, MARK)?;
    }
    filed(disk, alloc, station, second, to, &standing)
}

/// The job of this promise hasn't come, though it may have been counted: it isn't marked as sent in its file, unless somebody has written to that, and the
/// file goes to out/. If it is known, this is what the other end had said before.
pub(crate) fn file_as_ready<D: FolderDisk>(
    disk: &mut D,
    alloc: Global,
    station: &str,
    promise: Promise,
    before: Option<Receipt>,
) -> io::Result<FiledJob> {
    let second = settle_path(alloc, station, SettleName::Out(promise))?;
    let second = second.as_str();
    let standing = Standing::of(disk, alloc, station, second)?;
    let is_changed = is_changed(disk, alloc, second, &standing, promise, before)?;
    if !is_changed && is_marked(disk, alloc, second, promise)? {
        set_job_mark(disk, second, promise.place.mark, NO_MARK)?;
    }
    filed(disk, alloc, station, second, Folder::Out, &standing)
}

/// Whether the job of a promise is marked as sent in its file, and so was counted; not where that can't be read.
pub(crate) fn was_marked<D: FolderDisk>(
    disk: &D,
    alloc: Global,
    station: &str,
    promise: Promise,
) -> bool {
    match settle_path(alloc, station, SettleName::Out(promise)) {
        Ok(second) => is_marked(disk, alloc, second.as_str(), promise).unwrap_or(false),
        Err(_) => false,
    }
}

/// The path of the file of a promised job: in doubt/, out/ or sent/; none, where somebody has taken it away, or that can't be seen.
pub(crate) fn path_of_promised<D: FolderDisk>(
    disk: &D,
    alloc: Global,
    station: &str,
    promise: Promise,
) -> Option<String> {
    let second = settle_path(alloc, station, SettleName::Out(promise)).ok()?;
    let standing = Standing::of(disk, alloc, station, second.as_str()).ok()?;
    let folder = standing.folder()?;
    path_in(alloc, station, folder, standing.name_in(folder)?).ok()
}

/// Whether somebody has written to the file of a promise, which has this second name and these names: it has the promised job no more. It isn't known
/// where it isn't known what the other end had said before, nor of a file that somebody has taken away.
fn is_changed<D: FolderDisk>(
    disk: &D,
    alloc: Global,
    second: &str,
    standing: &Standing,
    promise: Promise,
    before: Option<Receipt>,
) -> io::Result<bool> {
    let (Some(before), Some(folder)) = (before, standing.folder()) else {
        return Ok(false);
    };
    let Some(name) = standing.name_in(folder) else {
        return Ok(false);
    };
    Ok(!has_job(disk, alloc, second, name, promise, before)?)
}

/// The file of a promised job, which has this second name and these names, stays where it is, since somebody has written to it.
fn left<D: FolderDisk>(
    disk: &D,
    alloc: Global,
    station: &str,
    second: &str,
    standing: &Standing,
) -> io::Result<FiledJob> {
    let path = match standing.folder() {
        Some(folder) => match standing.name_in(folder) {
            Some(name) => Some(path_in(alloc, station, folder, name)?),
            None => None,
        },
        None => None,
    };
    Ok(FiledJob {
        file: disk.identity(second)?,
        path,
        out: None,
        was_sent: false,
        is_changed: true,
    })
}

/// Writes this byte where a job is marked in its file, on disk; a deck has no such place.
fn set_job_mark<D: FolderDisk>(
    disk: &mut D,
    path: &str,
    place: Option<u64>,
    mark: u8,
) -> io::Result<()> {
    let Some(place) = place else {
        return Ok(());
    };
    let file = disk.identity(path)?;
    match set_mark(disk, path, place, mark, file)? {
        Some(_) => Ok(()),
        None => Err(io::Error::from(ErrorKind::ResourceBusy)),
    }
}

/// Puts the file of a promised job, which has this second name and these names, into this folder, and takes its others away, but not one in out/.
fn filed<D: FolderDisk>(
    disk: &mut D,
    alloc: Global,
    station: &str,
    second: &str,
    to: Folder,
    standing: &Standing,
) -> io::Result<FiledJob> {
    let path = put_into(disk, alloc, station, to, standing)?;
    Ok(FiledJob {
        file: disk.identity(second)?,
        path,
        out: out_name(alloc, to, standing)?,
        was_sent: standing.is_in(Folder::Sent),
        is_changed: false,
    })
}

/// The name in out/ of a file that has these names and goes to this folder, if that is another one.
fn out_name(alloc: Global, to: Folder, standing: &Standing) -> io::Result<Option<String>> {
    if to == Folder::Out {
        return Ok(None);
    }
    match standing.name_in(Folder::Out) {
        Some(name) => Ok(Some(String::from_str(alloc, name)?)),
        None => Ok(None),
    }
}

/// Puts a file that has these names into this folder, and takes its others away, but not one in out/. Its path there; none, where it has no name.
fn put_into<D: FolderDisk>(
    disk: &mut D,
    alloc: Global,
    station: &str,
    to: Folder,
    standing: &Standing,
) -> io::Result<Option<String>> {
    let Some(from) = standing.folder() else {
        return Ok(None);
    };
    let kept = match standing.name_in(to) {
        Some(name) => path_in(alloc, station, to, name)?,
        None => move_from(disk, alloc, station, from, to, standing)?,
    };
    for folder in OWN_FOLDERS {
        if folder != to {
            drop_from(disk, alloc, station, folder, standing, kept.as_str())?;
        }
    }
    Ok(Some(kept))
}

/// Moves a file that has these names from one folder to another one, in which it has none, under its name or a free one that is made of it. A name in
/// out/ stays. Its path there.
fn move_from<D: FolderDisk>(
    disk: &mut D,
    alloc: Global,
    station: &str,
    from: Folder,
    to: Folder,
    standing: &Standing,
) -> io::Result<String> {
    let Some(name) = standing.name_in(from) else {
        return Err(io::Error::from(ErrorKind::NotFound));
    };
    let folder = path_of(alloc, station, to)?;
    disk.make_folder(folder.as_str())?;
    let old = path_in(alloc, station, from, name)?;
    let new = path_in(alloc, station, to, name)?;
    let names = FileNames::Of(new.as_str());
    if from == Folder::Out {
        add_name(disk, alloc, old.as_str(), names)
    } else {
        move_file(disk, alloc, old.as_str(), names)
    }
}

/// Takes the name in a folder away from a file that has these names, and this path too, if it has one there still.
fn drop_from<D: FolderDisk>(
    disk: &mut D,
    alloc: Global,
    station: &str,
    folder: Folder,
    standing: &Standing,
    kept: &str,
) -> io::Result<()> {
    let Some(name) = standing.name_in(folder) else {
        return Ok(());
    };
    let path = path_in(alloc, station, folder, name)?;
    match drop_name(disk, kept, path.as_str()) {
        Err(error) if error.kind() != ErrorKind::NotFound => Err(error),
        _ => Ok(()),
    }
}

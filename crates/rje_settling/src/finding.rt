//! Where the file of a promised job stands.

use rje_folder::{Folder, FolderDisk, is_named_after};
use std::alloc::Global;
use std::io::{self, ErrorKind};

/// The names in a station's folders that the file of a promised job has.
#[derive(Debug, Drop)]
pub(crate) struct Standing {
    out: Option<String>,
    doubt: Option<String>,
    sent: Option<String>,
}

impl Standing {
    /// Those of the file of this path.
    pub(crate) fn of<D: FolderDisk>(
        disk: &D,
        alloc: Global,
        station: &str,
        file: &str,
    ) -> io::Result<Standing> {
        let doubt = name_in(disk, alloc, station, Folder::Doubt, file, None)?;
        let sent = name_in(disk, alloc, station, Folder::Sent, file, None)?;
        let own = doubt.as_deref().or(sent.as_deref());
        Ok(Standing {
            out: name_in(disk, alloc, station, Folder::Out, file, own)?,
            doubt,
            sent,
        })
    }

    /// Its name in this folder, which is out/, doubt/ or sent/, if it has one there.
    pub(crate) fn name_in(&self, folder: Folder) -> Option<&str> {
        match folder {
            Folder::Out => self.out.as_deref(),
            Folder::Doubt => self.doubt.as_deref(),
            Folder::Sent => self.sent.as_deref(),
            _ => None,
        }
    }

    /// Whether it has a name in this folder.
    pub(crate) fn is_in(&self, folder: Folder) -> bool {
        self.name_in(folder).is_some()
    }

    /// The folder from which it is moved: doubt/ before out/ and sent/.
    pub(crate) fn folder(&self) -> Option<Folder> {
        if self.is_in(Folder::Doubt) {
            Some(Folder::Doubt)
        } else if self.is_in(Folder::Out) {
            Some(Folder::Out)
        } else if self.is_in(Folder::Sent) {
            Some(Folder::Sent)
        } else {
            None
        }
    }
}

/// The path of a name in a folder of a station.
pub(crate) fn path_in(
    alloc: Global,
    station: &str,
    folder: Folder,
    name: &str,
) -> io::Result<String> {
    let folder = folder.as_str();
    Ok(format!(in alloc; "{station}/{folder}/{name}")?)
}

/// The path of a folder of a station.
pub(crate) fn path_of(alloc: Global, station: &str, folder: Folder) -> io::Result<String> {
    let folder = folder.as_str();
    Ok(format!(in alloc; "{station}/{folder}")?)
}

/// The name that a file has in a folder of the station, if it has one there: one after which this other one is named, if there is one. A folder that isn't
/// there has none.
fn name_in<D: FolderDisk>(
    disk: &D,
    alloc: Global,
    station: &str,
    folder: Folder,
    file: &str,
    named: Option<&str>,
) -> io::Result<Option<String>> {
    for name in names_in(disk, alloc, station, folder)? {
        let path = path_in(alloc, station, folder, name.as_str())?;
        if is_one_file(disk, file, path.as_str())? && may_be_of(alloc, name.as_str(), named)? {
            return Ok(Some(name));
        }
    }
    Ok(None)
}

/// Whether a name may be of the file that has this other one: it is that, or that is made of it by a number.
fn may_be_of(alloc: Global, name: &str, other: Option<&str>) -> io::Result<bool> {
    match other {
        Some(other) => is_named_after(alloc, name, other),
        None => Ok(true),
    }
}

/// The names in a folder of the station.
fn names_in<D: FolderDisk>(
    disk: &D,
    alloc: Global,
    station: &str,
    folder: Folder,
) -> io::Result<Vec<String>> {
    let path = path_of(alloc, station, folder)?;
    match disk.names_in(alloc, path.as_str()) {
        Err(error) if error.kind() == ErrorKind::NotFound => Ok(Vec::new(alloc)),
        names => names,
    }
}

/// Whether two paths are of one file; not where nothing stands under one of them.
fn is_one_file<D: FolderDisk>(disk: &D, one: &str, other: &str) -> io::Result<bool> {
    match disk.is_one_file(one, other) {
        Err(error) if error.kind() == ErrorKind::NotFound => Ok(false),
        asked => asked,
    }
}

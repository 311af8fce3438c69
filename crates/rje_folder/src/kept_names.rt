//! The names of the files that were sent, may have arrived or were refused.

use crate::folder::Folder;
use crate::folder_disk::FolderDisk;
use std::alloc::Global;
use std::io::{self, ErrorKind};

/// The names in the folders to which a file goes from out/, as they stood at one look.
#[derive(Drop)]
pub(crate) struct KeptNames {
    sent: Vec<String>,
    doubt: Vec<String>,
    refused: Vec<String>,
}

impl KeptNames {
    /// Those of a station.
    pub(crate) fn listed<D: FolderDisk>(
        disk: &D,
        alloc: Global,
        station: &str,
    ) -> io::Result<KeptNames> {
        Ok(KeptNames {
            sent: names_in(disk, alloc, station, Folder::Sent)?,
            doubt: names_in(disk, alloc, station, Folder::Doubt)?,
            refused: names_in(disk, alloc, station, Folder::Refused)?,
        })
    }

    /// Those in sent/.
    pub(crate) fn sent(&self) -> &[String] {
        self.sent.as_slice()
    }

    /// Those in doubt/.
    pub(crate) fn doubt(&self) -> &[String] {
        self.doubt.as_slice()
    }

    /// Those in refused/.
    pub(crate) fn refused(&self) -> &[String] {
        self.refused.as_slice()
    }
}

/// The names in a folder of the station: none where somebody took it away.
fn names_in<D: FolderDisk>(
    disk: &D,
    alloc: Global,
    station: &str,
    folder: Folder,
) -> io::Result<Vec<String>> {
    let path = folder.own_path(alloc, station)?;
    match disk.names_in(alloc, path.as_str()) {
        Err(error) if error.kind() == ErrorKind::NotFound => Ok(Vec::new(alloc)),
        names => names,
    }
}

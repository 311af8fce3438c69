//! The file in which a station notes what it is doing.

use rje_status::{LineState, STATE_FILE};
use rje_store::{Disk, NewAccess};
use std::alloc::Global;
use std::io::{self, ErrorKind};

/// The file in a station's folder in which it notes what it is doing, for `status`. Each time it is made anew and renamed into its place, so that nobody
/// reads half of it; it is never synced.
#[derive(Drop)]
pub(crate) struct StateFile<D> {
    disk: D,
    alloc: Global,
    path: String,
    beside: String,
}

impl<D: Disk + Drop> StateFile<D> {
    /// That of the station of this folder. What an earlier station noted is taken away.
    pub(crate) fn new(disk: D, alloc: Global, folder: &str) -> io::Result<StateFile<D>> {
        let mut file = StateFile {
            disk,
            alloc,
            path: format!(in alloc; "{folder}/{STATE_FILE}")?,
            beside: format!(in alloc; "{folder}/.{STATE_FILE}.new")?,
        };
        file.clear();
        Ok(file)
    }

    /// Notes this. Where it can't be written nothing is noted.
    pub(crate) fn note(&mut self, state: &LineState) {
        if self.replace(state).is_err() {
            self.clear();
        }
    }

    /// Takes away what was noted.
    pub(crate) fn clear(&mut self) {
        let _ = self.disk.remove(self.path.as_str());
        let _ = self.disk.remove(self.beside.as_str());
    }

    /// Writes this to a new file, which gets the name.
    fn replace(&mut self, state: &LineState) -> io::Result<()> {
        let Ok(text) = serde_json::to_string(self.alloc, state) else {
            return Err(io::Error::from(ErrorKind::OutOfMemory));
        };
        let file = self.disk.create(self.beside.as_str(), NewAccess::Private)?;
        self.disk.fill(&file, text.as_bytes())?;
        self.disk.rename(self.beside.as_str(), self.path.as_str())
    }
}

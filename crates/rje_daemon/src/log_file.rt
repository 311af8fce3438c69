//! The log of a station.

use std::alloc::Global;
use std::fs::{File, OpenOptions};
use std::io::{self, ErrorKind, Write};
use std::os::unix::fs::{MetadataExt, OpenOptionsExt};
use std::rt::Files;

/// The log of a station, to which lines are added. Where its file was renamed or removed a new one is made before the next line. If none can be made, or
/// what has the name is no file, the line goes to the file that was open.
#[derive(Drop)]
pub(crate) struct LogFile<R: Files<File = File> + Drop> {
    rt: R,
    path: String,
    file: File,
}

impl<R: Files<File = File> + Clone + Drop> LogFile<R> {
    /// The log of the station of this folder. Only its user may read a log that is made.
    pub(crate) fn open(rt: &R, alloc: Global, folder: &str) -> io::Result<LogFile<R>> {
        let path = format!(in alloc; "{folder}/log")?;
        let file = opened(rt, path.as_str())?;
        Ok(LogFile {
            rt: rt.clone()?,
            path,
            file,
        })
    }

    /// Whether another file is to be opened: the one that is open hasn't the path any more, and no link and no device has it.
    fn is_to_be_opened(&self) -> bool {
        let own = self.file.metadata();
        match (self.rt.symlink_metadata(self.path.as_str()), own) {
            (Ok(there), Ok(own)) if there.dev() == own.dev() && there.ino() == own.ino() => false,
            (Ok(there), _) => there.is_file(),
            (Err(error), _) => error.kind() == ErrorKind::NotFound,
        }
    }
}

impl<R: Files<File = File> + Clone + Drop> Write for LogFile<R> {
    fn write(&mut self, bytes: &[u8]) -> io::Result<usize> {
        if self.is_to_be_opened() {
            if let Ok(file) = opened(&self.rt, self.path.as_str()) {
                self.file = file;
            }
        }
        self.file.write(bytes)
    }

    fn flush(&mut self) -> io::Result<()> {
        self.file.flush()
    }
}

/// The file of this path, to which bytes are added; made where there is none.
fn opened<R: Files<File = File>>(rt: &R, path: &str) -> io::Result<File> {
    OpenOptions::new()
        .append(true)
        .create(true)
        .mode(0o600)
        .open(rt, path)
}

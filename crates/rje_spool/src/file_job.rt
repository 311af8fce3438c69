//! Which job of its file a job is.
use rje_files::{Entry, JobName, NO_NAME, State};
use std::alloc::{AllocError, Global};
use std::fmt::{self, Display, Formatter, Write};

/// Which job of a job file a job is, as `show` numbers them.
#[derive(Clone, Copy, Debug, PartialEq, Eq)]
pub struct FileJob {
    /// Its number, from 1.
    pub number: usize,
    /// How many jobs the file has.
    pub of: usize,
    /// Its name; blanks if it has none.
    pub name: JobName,
}

impl Display for FileJob {
    fn fmt<W: Write>(&self, f: &mut Formatter<W>) -> fmt::Result {
        write!(f, "job {} of {}", self.number, self.of)?;
        match str::from_utf8(&self.name) {
            Ok(name) if self.name != NO_NAME => write!(f, " {}", name.trim_end()),
            _ => Ok(()),
        }
    }
}

/// Which jobs of their file those of these entries are that weren't sent.
pub(crate) fn unsent_labels(alloc: Global, entries: &[Entry]) -> Result<Vec<FileJob>, AllocError> {
    let mut labels = Vec::new(alloc);
    for (place, entry) in entries.iter().enumerate() {
        if entry.state != State::Sent {
            labels.push(FileJob {
                number: place + 1,
                of: entries.len(),
                name: entry.name,
            })?;
        }
    }
    Ok(labels)
}

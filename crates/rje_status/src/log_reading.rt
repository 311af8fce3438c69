//! The lines of a station's log that ask for its operator.
use rje_folder::FolderDisk;
use rje_store::FileKind;
use std::alloc::Global;
use std::io::{self, BufRead, BufReader};

/// So many lines are kept, the last ones.
const MOST_LINES: usize = 5;

/// How long the time of day is in front of a line, with the blank behind it.
const TIME_LENGTH: usize = 20;

/// The last lines of the log of the station of this folder that ask for its operator, as far as it can be read.
pub(crate) fn lines_that_ask<D: FolderDisk>(
    disk: &D,
    alloc: Global,
    station: &str,
) -> io::Result<Vec<String>> {
    let mut asking = Vec::new(alloc);
    let path = format!(in alloc; "{station}/log")?;
    let Some(log) = opened(disk, path.as_str()) else {
        return Ok(asking);
    };
    for line in BufReader::new(alloc, log)?.lines(alloc) {
        let Ok(line) = line else {
            break;
        };
        if asks(line.as_str()) {
            if asking.len() == MOST_LINES {
                asking.remove(0);
            }
            asking.push(line)?;
        }
    }
    Ok(asking)
}

/// A file to be read; none where it is no file, or can't be opened.
fn opened<D: FolderDisk>(disk: &D, path: &str) -> Option<D::File> {
    match disk.status_of_name(path).ok()?.kind {
        FileKind::Regular => disk.open_to_read(path).ok(),
        _ => None,
    }
}

/// Whether a line asks for the operator: a file is in doubt or refused, or was written to since it was sent, nothing is sent or received any more, or the
/// two ends don't agree.
fn asks(line: &str) -> bool {
    let Some(text) = line.get(TIME_LENGTH..) else {
        return false;
    };
    text.starts_with("STOPPED ")
        || text.starts_with("CAN'T ")
        || text.starts_with("WRITTEN TO ")
        || text.starts_with("DOES NOT AGREE")
        || text.starts_with("refused ")
        || (text.starts_with("DOUBT ") && text.contains(" may have arrived: "))
}

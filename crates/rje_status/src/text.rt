//! What is printed of the folder of a station.
use crate::age::Age;
use crate::card_counting::MOST_COUNTED;
use crate::line_text::put_line;
use crate::queued_file::QueuedFile;
use crate::station_status::StationStatus;
use rje_names::PrintedName;
use std::io::{self, Write};

/// The most files of a folder that are printed: those whose cards are counted.
const MOST_FILES: usize = MOST_COUNTED;

/// Prints whether a station has the folder and what it is doing, whether `hold` and `drain` are there, for each folder how many files it has, and the
/// oldest of them with their ages at this time, in seconds since 1970; and the lines of the log.
pub(crate) fn put_status<O: Write>(
    status: &StationStatus,
    now: Option<u64>,
    out: &mut O,
) -> io::Result<()> {
    writeln!(
        out,
        "{}",
        if status.running {
            "running"
        } else {
            "not running"
        }
    )?;
    if let Some(line) = &status.line {
        put_line(line, now, out)?;
    }
    if status.hold {
        writeln!(out, "hold: nothing is sent")?;
    }
    if status.drain {
        writeln!(out, "drain: ends after the transmission in hand")?;
    }
    let folders = &status.folders;
    put_files("out", folders.out.as_slice(), now, out)?;
    put_files("doubt", folders.doubt.as_slice(), now, out)?;
    put_files("refused", folders.refused.as_slice(), now, out)?;
    put_files("cut", folders.cut.as_slice(), now, out)?;
    put_files("in", folders.came.as_slice(), now, out)?;
    put_files("print", folders.print.as_slice(), now, out)?;
    put_files("punch", folders.punch.as_slice(), now, out)?;
    put_log(status.log.as_slice(), out)
}

/// Prints lines of the log, if there are any.
fn put_log<O: Write>(lines: &[String], out: &mut O) -> io::Result<()> {
    if lines.is_empty() {
        return Ok(());
    }
    writeln!(out, "log: what asked for you last")?;
    for line in lines {
        writeln!(out, "  {}", PrintedName(line.as_str()))?;
    }
    Ok(())
}

/// Prints how many files a folder has, and the oldest of them.
fn put_files<O: Write>(
    folder: &str,
    files: &[QueuedFile],
    now: Option<u64>,
    out: &mut O,
) -> io::Result<()> {
    match files.len() {
        0 => return writeln!(out, "{folder}: none"),
        1 => writeln!(out, "{folder}: 1 file")?,
        count => writeln!(out, "{folder}: {count} files")?,
    }
    for file in files.iter().take(MOST_FILES) {
        put_file(file, now, out)?;
    }
    if MOST_FILES < files.len() {
        writeln!(out, "  and {} more", files.len() - MOST_FILES)?;
    }
    Ok(())
}

/// Prints the name of a file, its bytes, for how long they have been so, and its cards.
fn put_file<O: Write>(file: &QueuedFile, now: Option<u64>, out: &mut O) -> io::Result<()> {
    write!(
        out,
        "  {}  {} bytes",
        PrintedName(file.name.as_str()),
        file.bytes
    )?;
    if let Some(now) = now {
        write!(out, "  {}", Age(file.age(now)))?;
    }
    match file.cards {
        Some(1) => writeln!(out, "  1 card"),
        Some(cards) => writeln!(out, "  {cards} cards"),
        None => writeln!(out),
    }
}

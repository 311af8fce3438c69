//! What a station reports to its operator.
ghost use Rattle.std.specs.Prelude.{◌≡◌, length};

use crate::file_job::FileJob;
use crate::refused_file::RefusedFile;
use crate::settling_notice::SettlingNotice;
use rje_folder::FolderFault;
use rje_jobs::Job;
use rje_text::Select;
use std::fmt::{self, Display, Formatter, Write};
use std::io::ErrorKind;
use std::net::SocketAddr;

/// A job, as the operator knows it.
#[derive(Clone, Copy, Debug, PartialEq, Eq)]
pub struct JobLabel {
    /// Its device.
    pub select: Select,
    /// How many records it has.
    pub records: usize,
}

impl JobLabel {
    /// The label of a job.
    pub fn of(job: &Job) -> JobLabel
        ensures select { result.select ≡ job.now.select }
        ensures records { result.records ≡ length job.now.records }
    {
        JobLabel {
            select: job.select,
            records: job.records.len(),
        }
    }

    /// Its device in a word, as `show` has it.
    fn device(self) -> &'static str {
        match self.select {
            Select::Unset => "unset",
            Select::Printer => "printer",
            Select::Punch => "punch",
        }
    }
}

/// Something that a station reports to its operator, one line each.
#[derive(Clone, Copy, Debug)]
pub enum Notice<'a> {
    /// The station has its folder.
    Began(&'a str),
    /// Calls are awaited at this address.
    Listening(SocketAddr),
    /// The call of the other end at this address was taken.
    CalledBy(SocketAddr),
    /// A caller that isn't let in was hung up.
    HungUpOn(SocketAddr),
    /// The other end is called at this address.
    Calling(&'a str),
    /// It can't be called, and why.
    NotConnected(ErrorKind),
    /// It answered.
    Connected,
    /// The station bids.
    Bid,
    /// A job of this file is sent: which one of it, if it is a job file.
    Sending(&'a str, Option<FileJob>, JobLabel),
    /// It was counted: which one of it, if it is a job file, and the path in sent/ that the file has now, if it has one.
    Sent(&'a str, Option<FileJob>, Option<&'a str>),
    /// A job of this file may have arrived: the file is in doubt/, under this path.
    Doubt(&'a str, &'a str),
    /// The same, where the other end's next receipt tells whether it has.
    UntilReceipt(&'a str, &'a str),
    /// This file was taken out of out/ by others while its last block was out.
    TakenBack(&'a str),
    /// This file of out/ is one that had this other name while its last block was out: it isn't sent again.
    RenamedMeanwhile(&'a str, &'a str),
    /// The name of this file can't be taken out of out/, and why.
    Left(&'a str, ErrorKind),
    /// This file of out/ has another name there now, under this path, since another file has taken its own.
    Renamed(&'a str, &'a str),
    /// This hidden file of out/ can't be given the name back that it had, and why.
    StaysHidden(&'a str, FolderFault),
    /// So many files in a row are in doubt that the station stops sending.
    Stopped,
    /// A job couldn't be kept: nothing is received until one can be.
    ReceivesNot,
    /// A job can be kept again.
    Receives,
    /// This file can't be sent, and why.
    Refused(&'a str, RefusedFile),
    /// A job comes: its number in the transmission, from 1.
    Receiving(usize),
    /// It comes still: its number, and the records and blocks of the transmission so far.
    ReceivingStill {
        /// The number of the job.
        job: usize,
        /// The records.
        records: usize,
        /// The blocks.
        blocks: usize,
    },
    /// A job came to its end, and is kept under this path.
    Received(&'a str, JobLabel),
    /// A job was cut when its transmission ended, and is kept so.
    Cut(&'a str, JobLabel),
    /// The connection failed, and why.
    LineFailed(&'a str),
    /// Answers came out of step.
    OutOfStep,
    /// The station hung up, or the connection is over.
    HungUp,
    /// What is told where doubt is settled by receipts.
    Settling(SettlingNotice<'a>),
    /// Something of the station failed, and why.
    Failed(&'a str),
    /// The station ends.
    Ended,
}

impl Display for Notice<'_> {
    fn fmt<W: Write>(&self, f: &mut Formatter<W>) -> fmt::Result {
        match self {
            Notice::Began(folder) => write!(f, "station of {folder}"),
            Notice::Listening(address) => write!(f, "listening {address}"),
            Notice::CalledBy(address) => write!(f, "called by {address}"),
            Notice::HungUpOn(address) => write!(f, "hung up on {address}"),
            Notice::Calling(address) => write!(f, "calling {address}"),
            Notice::NotConnected(kind) => write!(f, "can't connect: {kind}"),
            Notice::Connected => f.write_str("connected"),
            Notice::Bid => f.write_str("bid"),
            Notice::Sending(name, which, label) => {
                write!(f, "sending {name} ")?;
                if let Some(which) = which {
                    write!(f, "{which} ")?;
                }
                write!(f, "{} {} cards", label.device(), label.records)
            }
            Notice::Sent(name, which, path) => {
                write!(f, "sent {name}")?;
                if let Some(which) = which {
                    write!(f, " {which}")?;
                }
                match path {
                    Some(path) if !is_named(path, name) => write!(f, ": {}", in_folder(path)),
                    _ => Ok(()),
                }
            }
            Notice::Doubt(name, path) => write!(
                f,
                "DOUBT {name} may have arrived: {}",
                in_folder(path)
            ),
            Notice::UntilReceipt(name, path) => write!(
                f,
                "DOUBT {name} until the other end's next receipt: {}",
                in_folder(path)
            ),
            Notice::TakenBack(name) => {
                write!(
                    f,
                    "{name} was taken out of out/ when its last block was out"
                )
            }
            Notice::RenamedMeanwhile(name, before) => write!(
                f,
                "out/{name} was {before} when its last block was out: it isn't sent again"
            ),
            Notice::Left(name, kind) => {
                write!(
                    f,
                    "out/{name} can't be taken away and isn't sent again: {kind}"
                )
            }
            Notice::Renamed(name, path) => {
                write!(
                    f,
                    "out/{name} is {} now: another file has its name",
                    in_folder(path)
                )
            }
            Notice::StaysHidden(name, why) => {
                write!(f, "out/{name}: not given its name back: {why}")
            }
            Notice::Stopped => f.write_str("STOPPED SENDING: three files in doubt in a row"),
            Notice::ReceivesNot => f.write_str("STOPPED RECEIVING: a job can't be kept"),
            Notice::Receives => f.write_str("receiving again: a job can be kept"),
            Notice::Refused(name, why) => write!(f, "refused {name}: {why}"),
            Notice::Receiving(job) => write!(f, "receiving job {job}"),
            Notice::ReceivingStill {
                job,
                records,
                blocks,
            } => { write!(f, "receiving job {job}: {records} records, {blocks} blocks") }
            Notice::Received(path, label) => {
                write!(
                    f,
                    "received {} {} whole {} records",
                    in_folder(path),
                    label.device(),
                    label.records
                )
            }
            Notice::Cut(path, label) => {
                write!(
                    f,
                    "received {} {} CUT {} records",
                    in_folder(path),
                    label.device(),
                    label.records
                )
            }
            Notice::LineFailed(cause) => write!(f, "line failed: {cause}"),
            Notice::OutOfStep => f.write_str("line failed: answers out of step"),
            Notice::HungUp => f.write_str("hung up"),
            Notice::Settling(notice) => write!(f, "{notice}"),
            Notice::Failed(why) => write!(f, "{why}"),
            Notice::Ended => f.write_str("ended"),
        }
    }
}

/// Whether a path is one of this name in its folder.
pub(crate) fn is_named(path: &str, name: &str) -> bool {
    match path.strip_suffix(name) {
        Some(folder) => folder.ends_with("/"),
        None => false,
    }
}

/// A path without the station's folder: its folder there, and its name.
pub(crate) fn in_folder(path: &str) -> &str {
    let Some((folder, _)) = path.rsplit_once('/') else {
        return path;
    };
    match folder.rsplit_once('/') {
        Some((station, _)) => path.get(station.len() + 1..).unwrap_or(path),
        None => path,
    }
}

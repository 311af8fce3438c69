//! What a station that settles doubt by receipts reports to its operator.

use crate::notice::in_folder;
use std::fmt::{self, Display, Formatter, Write};

/// Something that a station which settles doubt by receipts reports to its operator.
#[derive(Clone, Copy, Debug)]
pub enum SettlingNotice<'a> {
    /// The other end kept so many jobs: from now on its jobs are counted from there.
    Begins(u64),
    /// The other end kept so many jobs, and these are the ones that were sent.
    Agrees(u64),
    /// It can't be that it kept these jobs: nothing is sent.
    DoesNotAgree {
        /// How many the other end kept.
        kept: u64,
        /// How many were sent.
        sent: u64,
    },
    /// No receipt of the other end's came: nothing is sent.
    NoReceipt,
    /// The names of the jobs that were promised don't follow one another: nothing is sent.
    OutOfOrder,
    /// A job that may have arrived did: its file has this path.
    Came(&'a str),
    /// It did, and somebody has written to its file since, which has this path: what that has now wasn't sent.
    CameChanged(&'a str),
    /// It did, and its file, which has this path, can't be put where it belongs, and why.
    NotFiled(&'a str, &'a str),
    /// It hasn't: its file has this path.
    HasNotCome(&'a str),
    /// It hasn't, and its file, which has this path, can't be put where it is sent from, and why.
    NotReady(&'a str, &'a str),
    /// A job that was counted hasn't come: its file has this path.
    CountedInVain(&'a str),
    /// A job that was kept before the station was ended has this path in in/ now.
    BroughtIn(&'a str),
}

impl Display for SettlingNotice<'_> {
    fn fmt<W: Write>(&self, f: &mut Formatter<W>) -> fmt::Result {
        match self {
            SettlingNotice::Begins(kept) => write!(
                f,
                "settles from now on: the other end kept {kept} jobs"
            ),
            SettlingNotice::Agrees(kept) => write!(f, "agrees: the other end kept {kept} jobs"),
            SettlingNotice::DoesNotAgree { kept, sent } => write!(
                f,
                "DOES NOT AGREE: the other end kept {kept} jobs, {sent} were sent"
            ),
            SettlingNotice::NoReceipt => {
                f.write_str("the other end doesn't settle: nothing is sent")
            }
            SettlingNotice::OutOfOrder => {
                f.write_str("DOES NOT AGREE: promises in settle/ are out of order")
            }
            SettlingNotice::Came(path) => write!(f, "settled: it came: {}", in_folder(path)),
            SettlingNotice::CameChanged(path) => write!(
                f,
                "WRITTEN TO since it was sent, and came: {}",
                in_folder(path)
            ),
            SettlingNotice::NotFiled(path, why) => write!(
                f,
                "CAN'T BE FILED, and came: {}: {why}",
                in_folder(path)
            ),
            SettlingNotice::HasNotCome(path) => {
                write!(f, "settled: it hasn't come: {}", in_folder(path))
            }
            SettlingNotice::NotReady(path, why) => write!(
                f,
                "CAN'T BE SENT AGAIN, and hasn't come: {}: {why}",
                in_folder(path)
            ),
            SettlingNotice::CountedInVain(path) => write!(
                f,
                "COUNTED, AND HASN'T COME: sent again: {}",
                in_folder(path)
            ),
            SettlingNotice::BroughtIn(path) => write!(
                f,
                "kept before it was ended, and put into in/ now: {}",
                in_folder(path)
            ),
        }
    }
}

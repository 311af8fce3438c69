//! Why a station's folder can't be used.
ghost use Rattle.std.specs.Prelude.{◌≡◌, ◌≢◌};
ghost use Rattle.rje_folder.specs.declared.folder_fault.FolderFault.TheVariants.{OutOfMemory, TooLarge};

use crate::folder::Folder;
use std::alloc::AllocError;
use std::io::{self, ErrorKind};
use thiserror::Error;

/// Why a station's folder can't be used.
#[derive(Clone, Copy, Debug, PartialEq, Eq, Error)]
pub enum FolderFault {
    /// There is no memory for it.
    #[error("out of memory")]
    OutOfMemory,
    /// Another station has it.
    #[error("in use")]
    InUse,
    /// A folder of it, or the file in question there, can't be used, and why.
    #[error("{0}: {1}")]
    Failed(Folder, ErrorKind),
    /// A file there has more bytes than are read.
    #[error("{0}: too large")]
    TooLarge(Folder),
    /// A file there was written to while it was read.
    #[error("{0}: being written")]
    BeingWritten(Folder),
    /// Another file has the name of one that was read, or that one was written to.
    #[error("replaced while it was being sent")]
    Replaced,
    /// A file was written to when the last block of one of its jobs was out: it isn't what was sent.
    #[error("written to when its last block was out")]
    WrittenTo,
    /// A file that was being taken over was written to meanwhile: it keeps a hidden name for now.
    #[error("being written, and sent once it is left alone")]
    LeftHidden,
    /// Another file took the name of one that was being taken over, and one of the two has it with a number.
    #[error("replaced meanwhile, and one of its name has a number now")]
    Numbered,
    /// Another file took the name of one that was to have a name in this folder, and one of the two has that.
    #[error("replaced meanwhile, and one of its name is in {0}/ now")]
    LeftIn(Folder),
    /// A file with a hidden name has others, none of them named after the one that it had.
    #[error("it has other names")]
    OtherNames,
    /// A file of out/ can't be locked, and why.
    #[error("out: can't be locked: {0}")]
    NotLocked(ErrorKind),
    /// A file can't get a second name, and why.
    #[error("can't get a second name: {0}")]
    NoSecondName(ErrorKind),
    /// The station's own files can't be used, by which it is locked, held and drained, and why.
    #[error("{0}")]
    Own(ErrorKind),
}

impl FolderFault {
    /// Why a folder, or a file in it, can't be used.
    pub(crate) fn of(folder: Folder, error: &io::Error) -> FolderFault
        ensures { (other : Folder) → result ≢ TooLarge other }
    {
        match error.kind() {
            ErrorKind::OutOfMemory => FolderFault::OutOfMemory,
            kind => FolderFault::Failed(folder, kind),
        }
    }

    /// Why a file can't get a name in a folder: left there if that is busy, as another one took its name in out/ meanwhile; being written in out/ if a
    /// command has it locked.
    pub(crate) fn left_in(folder: Folder, error: &io::Error) -> FolderFault {
        match error.kind() {
            ErrorKind::ResourceBusy => FolderFault::LeftIn(folder),
            ErrorKind::WouldBlock => FolderFault::BeingWritten(Folder::Out),
            _ => FolderFault::of(folder, error),
        }
    }

    /// Why a file of out/ that was read can't be locked: being written if a command has it locked.
    pub(crate) fn unlocked(error: &io::Error) -> FolderFault
        ensures { (other : Folder) → result ≢ TooLarge other }
    {
        match error.kind() {
            ErrorKind::WouldBlock => FolderFault::BeingWritten(Folder::Out),
            ErrorKind::OutOfMemory => FolderFault::OutOfMemory,
            kind => FolderFault::NotLocked(kind),
        }
    }

    /// Why a file can't get a second name, nor be taken over.
    pub(crate) fn no_second_name(error: &io::Error) -> FolderFault
        ensures { (other : Folder) → result ≢ TooLarge other }
    {
        match error.kind() {
            ErrorKind::OutOfMemory => FolderFault::OutOfMemory,
            kind => FolderFault::NoSecondName(kind),
        }
    }

    /// Why the station's own files can't be used.
    pub(crate) fn own(error: &io::Error) -> FolderFault {
        match error.kind() {
            ErrorKind::OutOfMemory => FolderFault::OutOfMemory,
            kind => FolderFault::Own(kind),
        }
    }
}

impl From<AllocError> for FolderFault {
    ghost from_gives = { λ _ fault. fault ≡ OutOfMemory };

    fn from(_refused: AllocError) -> FolderFault {
        FolderFault::OutOfMemory
    }
}

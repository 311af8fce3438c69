//! Why a command fails.
ghost use Rattle.std.specs.Prelude.{◌≡◌};
ghost use Rattle.rje_commands.specs.declared.command_fault.CommandFault.TheVariants.{Deck, File, OutOfMemory};
ghost use Rattle.rje_commands.specs.CommandFault.{of_hex, of_script, of_station, of_text, of_world};

use crate::write_cause::WriteCause;
use line_world::WorldFault;
use rje_jobs::{DeckFault, FileFault};
use rje_monitor::HexFault;
use rje_names::PrintedName;
use rje_print::ScriptFault;
use rje_station::StationFault;
use rje_store::StoreFault;
use rje_text::TextFault;
use std::alloc::AllocError;
use std::io::{self, ErrorKind};
use thiserror::Error;

/// Why a command ends with another status than 0.
#[derive(Clone, Copy, Debug, PartialEq, Eq, Error)]
pub enum CommandFault<'a> {
    /// There is no memory for it.
    #[error("out of memory")]
    OutOfMemory,
    /// The deck makes no job.
    #[error("{0}")]
    Deck(DeckFault),
    /// The job file isn't read, or can't be made.
    #[error("{0}")]
    File(FileFault),
    /// The job of this number, from 1, can't be sent.
    #[error("job {0} can't be sent")]
    BadJob(usize),
    /// There is no job of this number, from 1, in the job file.
    #[error("there is no job {0}")]
    NoJob(u64),
    /// The line of this number, from 1, of a capture isn't bytes in hexadecimal digits.
    #[error("capture line {0} is not hexadecimal")]
    NotHex(usize),
    /// The line of this number, from 1, of a script isn't a turn.
    #[error("script line {0} is not a turn")]
    Script(usize),
    /// The turn of this number, from 1, has a fate whose bytes are no damage.
    #[error("turn {0} is not damage")]
    NotDamage(usize),
    /// The turn of this number, from 1, has a fate whose cuts don't fit.
    #[error("turn {0} has a bad cut")]
    BadCut(usize),
    /// The file of this name holds jobs, and the order keeps those.
    #[error("{} holds jobs", PrintedName(.0))]
    HoldsJobs(&'a str),
    /// The file of this name is no job file. Two lines.
    #[error("{}: no job file\nrje: not a job file", PrintedName(.0))]
    NoJobFile(&'a str),
    /// The words ask for a command that isn't served here: one over sockets, or one over files.
    #[error("no command")]
    NoCommand,
    /// A connection can't be had, or failed.
    #[error("line failed")]
    LineFailed,
    /// A block came whole whose text isn't read, and didn't come again so that it is.
    #[error("unreadable text: {0}")]
    Unreadable(TextFault),
    /// More than 8,192 bytes came in one hearing, and no frame; or more than 64 pieces before an answer.
    #[error("babble")]
    Babble,
    /// An answer came after EOT was said: it belongs to something said earlier, and so may those before it.
    #[error("answers out of step")]
    OutOfStep,
    /// The file of this name can't be read, and why. Two lines.
    #[error("{}: {}\nrje: can't read {}", PrintedName(.0), .1, PrintedName(.0))]
    CannotRead(&'a str, StoreFault),
    /// The file of this name can't be written, and why. Two lines.
    #[error("{}: {}\nrje: can't write {}", PrintedName(.0), .1, PrintedName(.0))]
    CannotWrite(&'a str, WriteCause),
    /// It can't be written since another process has it. Two lines.
    #[error("{} is in use\nrje: can't write {}", PrintedName(.0), PrintedName(.0))]
    InUse(&'a str),
    /// The file of this name is written, and its folder couldn't be put on disk.
    #[error("{} is written, but the disk may not have it", PrintedName(.0))]
    Unsynced(&'a str),
    /// Standard output can't be written, and why. Two lines.
    #[error("standard output: {0}\nrje: can't write standard output")]
    Output(ErrorKind),
    /// Standard output is a pipe that nobody reads any more.
    #[error("standard output is closed")]
    Closed,
}

impl CommandFault<'_> {
    ghost use Rattle.std.specs.Prelude.{true};
    ghost use Rattle.std.specs.IoError.{error_kind};
    ghost use Rattle.rje_commands.specs.CommandFault.{is_of_output, of_output, status_of};

    /// Why standard output isn't written.
    pub fn of_output(error: &io::Error) -> Self
        ensures kind { result ≡ of_output (error_kind error.now) }
        ensures output { is_of_output result ≡ true }
    {
        match error.kind() {
            ErrorKind::BrokenPipe => CommandFault::Closed,
            kind => CommandFault::Output(kind),
        }
    }

    /// The exit status: 1 for an input that is refused, 2 for words that ask for a command that isn't served here,
    /// 3 for a file, a line or an output that fails, 5 where memory ran out, 141 for an output that nobody reads any more.
    pub fn status(&self) -> u8
        ensures { result ≡ status_of self.now }
    {
        match self {
            CommandFault::OutOfMemory
            | CommandFault::Deck(DeckFault::OutOfMemory)
            | CommandFault::File(FileFault::OutOfMemory) => 5,
            CommandFault::Deck(_)
            | CommandFault::File(_)
            | CommandFault::BadJob(_)
            | CommandFault::NoJob(_)
            | CommandFault::NotHex(_)
            | CommandFault::Script(_)
            | CommandFault::NotDamage(_)
            | CommandFault::HoldsJobs(_)
            | CommandFault::NoJobFile(_)
            | CommandFault::BadCut(_) => 1,
            CommandFault::NoCommand => 2,
            CommandFault::LineFailed
            | CommandFault::Unreadable(_)
            | CommandFault::Babble
            | CommandFault::OutOfStep
            | CommandFault::CannotRead(_, _)
            | CommandFault::CannotWrite(_, _)
            | CommandFault::InUse(_)
            | CommandFault::Unsynced(_)
            | CommandFault::Output(_) => 3,
            CommandFault::Closed => 141,
        }
    }
}

impl From<AllocError> for CommandFault<'_> {
    ghost from_gives = { λ _ told. told ≡ OutOfMemory };

    fn from(_fault: AllocError) -> Self {
        CommandFault::OutOfMemory
    }
}

impl From<DeckFault> for CommandFault<'_> {
    ghost from_gives = { λ fault told. told ≡ Deck fault };

    fn from(fault: DeckFault) -> Self {
        CommandFault::Deck(fault)
    }
}

impl From<FileFault> for CommandFault<'_> {
    ghost from_gives = { λ fault told. told ≡ File fault };

    fn from(fault: FileFault) -> Self {
        CommandFault::File(fault)
    }
}

impl From<ScriptFault> for CommandFault<'_> {
    ghost from_gives = { λ fault told. told ≡ of_script fault };

    fn from(fault: ScriptFault) -> Self {
        match fault {
            ScriptFault::OutOfMemory => CommandFault::OutOfMemory,
            ScriptFault::NotATurn(line) => CommandFault::Script(line),
        }
    }
}

impl From<HexFault> for CommandFault<'_> {
    ghost from_gives = { λ fault told. told ≡ of_hex fault };

    fn from(fault: HexFault) -> Self {
        match fault {
            HexFault::OutOfMemory => CommandFault::OutOfMemory,
            HexFault::NotHex(line) => CommandFault::NotHex(line),
        }
    }
}

impl From<TextFault> for CommandFault<'_> {
    ghost from_gives = { λ fault told. told ≡ of_text fault };

    fn from(fault: TextFault) -> Self {
        match fault {
            TextFault::OutOfMemory => CommandFault::OutOfMemory,
            fault => CommandFault::Unreadable(fault),
        }
    }
}

impl From<StationFault> for CommandFault<'_> {
    ghost from_gives = { λ fault told. told ≡ of_station fault };

    fn from(fault: StationFault) -> Self {
        match fault {
            StationFault::OutOfMemory => CommandFault::OutOfMemory,
            StationFault::BadJob(number) => CommandFault::BadJob(number),
            StationFault::Babble => CommandFault::Babble,
            StationFault::Line(_) | StationFault::Over => CommandFault::LineFailed,
        }
    }
}

impl From<WorldFault> for CommandFault<'_> {
    ghost from_gives = { λ fault told. told ≡ of_world fault };

    fn from(fault: WorldFault) -> Self {
        match fault {
            WorldFault::OutOfMemory => CommandFault::OutOfMemory,
            WorldFault::BadJob(number) => CommandFault::BadJob(number),
            WorldFault::NotDamage(_, turn) => CommandFault::NotDamage(turn),
            WorldFault::BadCut(_, turn) => CommandFault::BadCut(turn),
        }
    }
}

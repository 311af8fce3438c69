//! Why the words ask for nothing that can be done.
ghost use Rattle.std.specs.Prelude.{◌≡◌};
ghost use Rattle.rje_cli.specs.WordsFault.{IsWantOfMemory};
ghost use Rattle.rje_cli.specs.declared.words_fault.WordsFault.TheVariants.{Refused};

use rje_names::PrintedName;
use std::alloc::AllocError;
use thiserror::Error;

/// Why the words ask for nothing that can be done.
#[derive(Debug, Drop, Error)]
pub enum WordsFault<'a> {
    /// clap's: no command of this form, out of memory, or help or the version that was asked for.
    #[error("{0}")]
    Refused(clap::Error),
    /// More than one device for a deck's job.
    #[error("choose one device")]
    TwoDevices,
    /// A name for a deck's job that isn't one to eight of A to Z and 0 to 9. Two lines.
    #[error("{}: not one to eight of A to Z and 0 to 9\nrje: bad name", PrintedName(.0))]
    BadName(&'a str),
    /// Not the numbers of jobs, each once. Two lines.
    #[error("{}: not numbers of jobs with commas between, each once\nrje: bad number", PrintedName(.0))]
    BadNumbers(&'a str),
    /// Both of the options for a mark, or none of them.
    #[error("choose --sent or --waiting")]
    NoMark,
    /// Not an address. Two lines.
    #[error("{}: not four numbers and a port\nrje: bad address", PrintedName(.0))]
    BadAddress(&'a str),
    /// Not where another end can be called. Two lines.
    #[error("{}: not a host and a port\nrje: bad address", PrintedName(.0))]
    BadHost(&'a str),
    /// Both of the options for an address, or none of them.
    #[error("choose --to or --listen")]
    NoMeeting,
    /// Callers are named, but it calls by itself.
    #[error("--from goes with --listen")]
    CallersCalled,
    /// Not the addresses of callers. Two lines.
    #[error("{}: not addresses of four numbers with commas between\nrje: bad address", PrintedName(.0))]
    BadCallers(&'a str),
    /// It is to wait for a call that brings something, but it calls by itself.
    #[error("--wait goes with --listen")]
    WaitCalled,
    /// It is to call at intervals, but it listens.
    #[error("--every goes with --to")]
    EveryListens,
    /// Doubt is to be settled by receipts, over a line adapter.
    #[error("--settle doesn't go with --adapter")]
    SettlesWithAdapter,
    /// Doubt is to be settled by receipts, but they are waited for for ever.
    #[error("--settle doesn't go with --patience 0")]
    SettlesForEver,
    /// Doubt is to be settled by receipts, but calls of more than one address are taken.
    #[error("--settle goes with one address of --from")]
    SettlesWithCallers,
    /// Both of the options for a rank.
    #[error("choose --primary or --secondary")]
    TwoRanks,
    /// Both of the options for the jobs that a file which is received into holds already.
    #[error("choose --new or --append")]
    NewAndAppend,
}

impl From<clap::Error> for WordsFault<'_> {
    ghost from_gives = { λ error fault. fault ≡ Refused error };

    fn from(error: clap::Error) -> Self {
        WordsFault::Refused(error)
    }
}

impl From<AllocError> for WordsFault<'_> {
    ghost from_gives = { λ _ fault. IsWantOfMemory fault };

    fn from(error: AllocError) -> Self {
        WordsFault::Refused(clap::Error::from(error))
    }
}

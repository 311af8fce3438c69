//! A job in a job file: with its name, and how far it is.
ghost use Rattle.std.specs.Prelude.{◌≡◌, if◌then◌else◌, map, IfOk};
ghost use Rattle.rje_files.specs.Entry.{entry_of, whole_of};

use crate::{JobName, NO_NAME};
use rje_jobs::{Job, Jobs};
use std::alloc::{AllocError, Global};

/// How far a job is.
#[derive(Clone, Copy, Debug, PartialEq, Eq)]
pub enum State {
    /// To be sent.
    Waiting,
    /// Counted as sent.
    Sent,
    /// Received to its end.
    Whole,
    /// Received, and cut off before its end.
    Cut,
}

/// A job in a job file, with its name and its state. The job is whole where the state isn't Cut.
#[derive(Debug, Drop)]
pub struct Entry {
    pub name: JobName,
    pub state: State,
    pub job: Job,
}

impl From<Job> for Entry {
    ghost from_gives = { λ job entry. entry ≡ entry_of job };

    /// The entry of a job that has no name, and no state but Whole or Cut.
    fn from(job: Job) -> Entry {
        Entry {
            name: NO_NAME,
            state: received_state(job.whole),
            job,
        }
    }
}

/// The state of a received job, which came to its end or didn't.
pub(crate) fn received_state(whole: bool) -> State
    ensures { result ≡ (if whole then State.Whole else State.Cut) }
{
    if whole { State::Whole } else { State::Cut }
}

/// Whether a job in this state is whole.
pub(crate) fn whole_in(state: State) -> bool
    ensures { result ≡ whole_of state }
{
    match state {
        State::Waiting => true,
        State::Sent => true,
        State::Whole => true,
        State::Cut => false,
    }
}

/// The entries of jobs that have no names, and no states but Whole or Cut.
pub fn entries_of(alloc: Global, jobs: Jobs) -> Result<Vec<Entry>, AllocError>
    ensures entries { IfOk result (λ entries. entries.items ≡ map entry_of jobs) }
{
    jobs.into_vec().into_iter().map(Entry::from).collect(alloc)
}

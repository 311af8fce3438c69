//! Words that ask for no command, and commands that fail, reported, and their exit status.
ghost use Rattle.std.specs.Prelude.{◌≡◌, ◌≢◌, ◌⊎◌};
ghost use Rattle.clap.specs.Words.{kind_of};
ghost use Rattle.rje_commands.specs.CommandFault.{status_of};
ghost use Rattle.rje_program.specs.Command.{IsHelp, IsHelpError, error_status, words_status};

use crate::printed_error::PrintedError;
use clap::Error;
use clap::error::ErrorKind;
use rje_cli::WordsFault;
use rje_commands::{CommandFault, tell};
use rje_jobs::FileFault;
use rje_names::PrintedName;
use std::io::Write;

/// Gives the help or the version that was asked for, or reports why the words ask for nothing that can be done. Returns the exit status.
pub fn tell_words<O: Write, E: Write>(fault: &WordsFault, out: &mut O, err: &mut E) -> u8
    ensures help { result ≡ 0 → IsHelp fault.now }
    ensures status { (result ≡ words_status fault.now)
        ⊎ (IsHelp fault.now × ((result ≡ 3) ⊎ (result ≡ 141))) }
    ensures silent { (IsHelp fault.now → ⊥) → out.new ≡ out.old }
    ensures quiet { (result ≡ 0) ⊎ (result ≡ 141) → err.new ≡ err.old }
{
    match fault {
        WordsFault::Refused(error) => tell_error(error, out, err),
        WordsFault::TwoDevices
        | WordsFault::BadName(_)
        | WordsFault::BadNumbers(_)
        | WordsFault::NoMark
        | WordsFault::BadAddress(_)
        | WordsFault::BadHost(_)
        | WordsFault::NoMeeting
        | WordsFault::CallersCalled
        | WordsFault::BadCallers(_)
        | WordsFault::WaitCalled
        | WordsFault::EveryListens
        | WordsFault::SettlesWithAdapter
        | WordsFault::SettlesForEver
        | WordsFault::SettlesWithCallers
        | WordsFault::TwoRanks
        | WordsFault::NewAndAppend => {
            let _ = writeln!(err, "rje: {fault}");
            2
        }
    }
}

/// Reports why a command fails whose job file has this name: in front that it is none, where that is why.
pub fn tell_of<E: Write>(fault: &CommandFault, jobs: Option<&str>, err: &mut E) -> u8
    ensures status { result ≡ status_of fault.now }
    ensures failed { result ≢ 0 }
    ensures quiet { result ≡ 141 → err.new ≡ err.old }
{
    if let (Some(jobs), CommandFault::File(FileFault::NotJobFile)) = (jobs, fault) {
        let _ = writeln!(err, "rje: {}: no job file", PrintedName(jobs));
    }
    tell(fault, err)
}

/// Gives help, or reports why the words aren't taken.
fn tell_error<O: Write, E: Write>(error: &Error, out: &mut O, err: &mut E) -> u8
    ensures help { result ≡ 0 → IsHelpError error.now }
    ensures status { (result ≡ error_status (kind_of error.now))
        ⊎ (IsHelpError error.now × ((result ≡ 3) ⊎ (result ≡ 141))) }
    ensures silent { (IsHelpError error.now → ⊥) → out.new ≡ out.old }
    ensures quiet { (result ≡ 0) ⊎ (result ≡ 141) → err.new ≡ err.old }
{
    if error.kind() == ErrorKind::OutOfMemory {
        return tell(&CommandFault::OutOfMemory, err);
    }
    if error.use_stderr() {
        let _ = write!(err, "{}", PrintedError(error));
        return 2;
    }
    match write!(out, "{error}") {
        Ok(()) => 0,
        Err(error) => tell(&CommandFault::of_output(&error), err),
    }
}

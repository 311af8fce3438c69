//! Why a command fails, reported on standard error, and its exit status.
ghost use Rattle.std.specs.Prelude.{◌≡◌, ◌≢◌};
ghost use Rattle.rje_commands.specs.CommandFault.{status_of};

use crate::command_fault::CommandFault;
use std::io::Write;

/// Reports why the command fails, and returns its status, also where `err` can't be written. Of an output that nobody reads any more it
/// reports nothing.
pub fn tell<E: Write>(fault: &CommandFault, err: &mut E) -> u8
    ensures status { result ≡ status_of fault.now }
    ensures failed { result ≢ 0 }
    ensures quiet { result ≡ 141 → err.new ≡ err.old }
{
    if !matches!(fault, CommandFault::Closed) {
        let _ = writeln!(err, "rje: {fault}");
    }
    fault.status()
}

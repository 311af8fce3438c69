//! Reports why a line failed.
ghost use Rattle.std.specs.Prelude.{◌≡◌};

use crate::socket_commands::Ending;
use rje_commands::CommandFault;
use rje_net::LineCause;
use std::io::Write;

/// Reports a cause to `err`, in one line: the fault that follows from it.
pub(crate) fn report_cause<'a, E: Write>(cause: LineCause, err: &mut E) -> CommandFault<'a>
    ensures { result ≡ CommandFault.LineFailed }
{
    let _ = writeln!(err, "rje: {cause}");
    CommandFault::LineFailed
}

/// Reports why the line failed, before the fault, if that is of the line.
pub(crate) fn report_failure<E: Write>(
    ending: &Result<Ending, CommandFault>,
    cause: Option<LineCause>,
    err: &mut E,
) {
    if let (Err(CommandFault::LineFailed), Some(cause)) = (ending, cause) {
        let _ = writeln!(err, "rje: {cause}");
    }
}

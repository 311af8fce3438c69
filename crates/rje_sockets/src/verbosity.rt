//! What is reported of a transmission while it goes on.
use rje_print::ERASED;
use std::io::Write;

/// What is reported of a transmission on standard error while it goes on.
#[derive(Clone, Copy, Debug, PartialEq, Eq)]
pub enum Verbosity {
    /// A line for each turn.
    Trace,
    /// How far it is, in one line of a terminal.
    Progress,
    /// Nothing.
    Nothing,
}

impl Verbosity {
    /// What these options ask for, where standard error is a terminal or isn't one.
    pub fn of(trace: bool, quiet: bool, is_terminal: bool) -> Verbosity {
        match (trace, quiet, is_terminal) {
            (true, _, _) => Verbosity::Trace,
            (false, false, true) => Verbosity::Progress,
            _ => Verbosity::Nothing,
        }
    }

    /// Takes the line away that is shown on a terminal, before another one is written there.
    pub fn erase<E: Write>(self, err: &mut E) {
        if self == Verbosity::Progress {
            let _ = err.write_all(ERASED);
        }
    }
}

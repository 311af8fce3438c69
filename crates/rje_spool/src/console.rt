//! Where a station's operator reads what happens.

use crate::notice::Notice;
use crate::stamps::Stamps;
use rje_names::PrintedName;
use rje_print::{ERASED, Progress, shown_progress};
use std::alloc::{AllocError, Global};
use std::io::{self, ErrorKind, Write};
use std::time::{Clock, Duration, Instant};

/// How many milliseconds a line of a terminal that is rewritten stays at least.
const REST: u64 = 100;

/// A station's console: each line goes to its operator and to its log, with the time in front. What can't be written is left out.
#[derive(Drop)]
pub struct Console<C, W, L> {
    stamps: Stamps<C>,
    alloc: Global,
    out: W,
    log: L,
    // Whether how far a transmission is is shown in a line that is rewritten, on a terminal.
    rewrites: bool,
    // When that line was written that stands.
    shown: Option<Instant>,
    // Whether the log had its last line.
    logged: bool,
}

impl<C: Clock, W: Write, L: Write> Console<C, W, L> {
    /// A console of this clock, whose lines go to `out` and to `log`. On a terminal it shows how far a transmission is in a line that it
    /// rewrites.
    pub fn new(clock: C, alloc: Global, out: W, log: L, rewrites: bool) -> Console<C, W, L> {
        Console {
            stamps: Stamps::new(clock, alloc),
            alloc,
            out,
            log,
            rewrites,
            shown: None,
            logged: true,
        }
    }

    /// Its times.
    pub fn stamps(&self) -> &Stamps<C> {
        &self.stamps
    }

    /// Tells this in a line, with a question mark for each control character of a name. That the log can't be written is told to the operator, once as
    /// long as it can't.
    pub fn tell(&mut self, notice: Notice) {
        self.erase();
        let Ok(line) = self.line_of(notice) else {
            return;
        };
        let _ = self.out.write_all(line.as_bytes());
        if let Err(error) = self.log_line(line.as_str()) {
            self.tell_unlogged(error.kind());
        }
    }

    /// Writes a line to the log: one that comes after one which it hasn't, or not whole, begins anew.
    fn log_line(&mut self, line: &str) -> io::Result<()> {
        if !self.logged {
            self.log.write_all(b"\n")?;
        }
        self.log.write_all(line.as_bytes())?;
        self.logged = true;
        Ok(())
    }

    /// The log hasn't the last line, for this reason.
    fn tell_unlogged(&mut self, why: ErrorKind) {
        let was_logged = self.logged;
        self.logged = false;
        if !was_logged {
            return;
        }
        let Ok(text) = format!(in self.alloc; "log: {why}") else {
            return;
        };
        if let Ok(line) = self.line_of(Notice::Failed(text.as_str())) {
            let _ = self.out.write_all(line.as_bytes());
        }
    }

    /// The line of a notice, with the time in front.
    fn line_of(&self, notice: Notice) -> Result<String, AllocError> {
        let text = format!(in self.alloc; "{notice}")?;
        let text = PrintedName(text.as_str());
        match self.stamps.time() {
            Some(time) => format!(in self.alloc; "{time} {text}\n"),
            None => format!(in self.alloc; "{text}\n"),
        }
    }

    /// Shows how far a transmission is, on a terminal, some ten times a second at most.
    pub fn show(&mut self, progress: &Progress) {
        if !self.rewrites || !self.is_due() {
            return;
        }
        if self
            .out
            .write_all(shown_progress(progress).as_slice())
            .is_ok()
        {
            self.shown = Instant::now(self.stamps.clock()).ok();
        }
    }

    /// Whether that line is to be written again.
    fn is_due(&self) -> bool {
        let Some(shown) = self.shown else {
            return true;
        };
        match shown.elapsed(self.stamps.clock()) {
            Ok(passed) => passed >= Duration::from_millis(REST),
            Err(_) => false,
        }
    }

    /// Takes that line away.
    fn erase(&mut self) {
        if self.shown.is_some() {
            self.shown = None;
            let _ = self.out.write_all(ERASED);
        }
    }
}

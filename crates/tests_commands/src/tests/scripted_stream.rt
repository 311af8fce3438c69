//! A stream of the tests' own that is given beforehand what its reads bring, and notes what it is asked for.
use std::cell::Cell;
use std::io::{self, ErrorKind, Read, Write};
use std::net::{OpenStream, Shutdown};
use std::time::Duration;

/// What a stream was asked for.
#[derive(Drop)]
pub(super) struct Notes {
    pub(super) reads: Cell<u32>,
    pub(super) writes: Cell<u32>,
    pub(super) read_time: Cell<Option<Duration>>,
    pub(super) write_time: Cell<Option<Duration>>,
    pub(super) is_undelayed: Cell<bool>,
    pub(super) has_shut_down: Cell<bool>,
}

impl Notes {
    /// Nothing yet.
    pub(super) fn new() -> Notes {
        Notes {
            reads: Cell::new(0),
            writes: Cell::new(0),
            read_time: Cell::new(None),
            write_time: Cell::new(None),
            is_undelayed: Cell::new(false),
            has_shut_down: Cell::new(false),
        }
    }
}

/// A stream on which one of these comes in each read; an empty one is a time-out, and after the last the other end has hung up. Its writes
/// time out where they are to.
#[derive(Drop)]
pub(super) struct ScriptedStream<'a> {
    notes: &'a Notes,
    coming: &'a [&'a [u8]],
    given: usize,
    writes_time_out: bool,
}

impl<'a> ScriptedStream<'a> {
    /// A stream on which this comes.
    pub(super) fn new(notes: &'a Notes, coming: &'a [&'a [u8]]) -> ScriptedStream<'a> {
        ScriptedStream {
            notes,
            coming,
            given: 0,
            writes_time_out: false,
        }
    }

    /// A stream on which no write comes to its end.
    pub(super) fn blocked(notes: &'a Notes) -> ScriptedStream<'a> {
        ScriptedStream {
            notes,
            coming: &[],
            given: 0,
            writes_time_out: true,
        }
    }
}

impl Read for ScriptedStream<'_> {
    fn read(&mut self, buf: &mut [u8]) -> io::Result<usize> {
        self.notes
            .reads
            .set(self.notes.reads.get().saturating_add(1));
        let Some(next) = self.coming.get(self.given) else {
            return Ok(0);
        };
        self.given = self.given.saturating_add(1);
        let count = next.len().min(buf.len());
        if count == 0 {
            return Err(io::Error::from(ErrorKind::WouldBlock));
        }
        buf[..count].copy_from_slice(&next[..count]);
        Ok(count)
    }
}

impl Write for ScriptedStream<'_> {
    fn write(&mut self, buf: &[u8]) -> io::Result<usize> {
        self.notes
            .writes
            .set(self.notes.writes.get().saturating_add(1));
        if self.writes_time_out {
            return Err(io::Error::from(ErrorKind::WouldBlock));
        }
        Ok(buf.len())
    }

    fn flush(&mut self) -> io::Result<()> {
        Ok(())
    }
}

impl OpenStream for ScriptedStream<'_> {
    fn shutdown(&self, how: Shutdown) -> io::Result<()> {
        self.notes.has_shut_down.set(how == Shutdown::Write);
        Ok(())
    }

    fn set_nodelay(&self, nodelay: bool) -> io::Result<()> {
        self.notes.is_undelayed.set(nodelay);
        Ok(())
    }

    fn set_read_timeout(&self, time: Option<Duration>) -> io::Result<()> {
        self.notes.read_time.set(time);
        Ok(())
    }

    fn set_write_timeout(&self, time: Option<Duration>) -> io::Result<()> {
        self.notes.write_time.set(time);
        Ok(())
    }
}

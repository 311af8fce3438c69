//! A stream that notes what its operator is shown of it.
ghost use Rattle.std.specs.Prelude.{◌≡◌};
ghost use Rattle.std.specs.Io.KnownBytes.{prepend_known};

use crate::first_bytes::FirstBytes;
use crate::handing::hand_out;
use arrayvec::ArrayVec;
use std::io::{self, ErrorKind, Read, Write};
use std::net::{OpenStream, Shutdown};
use std::time::{Clock, Duration, Instant};

/// The most that is read ahead.
pub(crate) const MAX_AHEAD: usize = 160;

/// A stream that notes how long the first answer took, where it has a clock, what came first, and how a call failed last.
#[derive(Drop)]
pub struct ObservedStream<C, S> {
    clock: Option<C>,
    stream: S,
    // When something was written first.
    spoke: Option<Instant>,
    // How long it took until something came then.
    waited: Option<Duration>,
    // What came first of all.
    first: FirstBytes,
    // How the last call failed that did.
    failure: Option<ErrorKind>,
    // What was read ahead, and isn't read yet.
    ahead: ArrayVec<u8, MAX_AHEAD>,
}

impl<C, S> ObservedStream<C, S> {
    /// The same stream, of which nothing was read and to which nothing was written.
    pub fn new(clock: Option<C>, stream: S) -> ObservedStream<C, S> {
        ObservedStream {
            clock,
            stream,
            spoke: None,
            waited: None,
            first: FirstBytes::new(),
            failure: None,
            ahead: ArrayVec::new(),
        }
    }

    /// The next reads bring this, which earlier ones brought already.
    pub(crate) fn read_ahead(&mut self, bytes: ArrayVec<u8, MAX_AHEAD>)
        ensures { self.new.ahead ≡ bytes }
    {
        self.ahead = bytes;
    }

    /// How long it took from the first thing that was written to what was read then, where something was.
    pub fn waited(&self) -> Option<Duration> {
        self.waited
    }

    /// The bytes that came first.
    pub fn first(&self) -> FirstBytes {
        self.first
    }

    /// How the last call failed that did.
    pub fn failure(&self) -> Option<ErrorKind> {
        self.failure
    }
}

impl<C: Clock, S: Read> Read for ObservedStream<C, S> {
    // What was read ahead, and then what the stream gives.
    ghost remaining = { λ s. prepend_known s.ahead.items (S.remaining s.stream) };

    fn read(&mut self, buf: &mut [u8]) -> io::Result<usize> {
        if !self.ahead.is_empty() {
            return Ok(hand_out(&mut self.ahead, buf));
        }
        match self.stream.read(buf) {
            Ok(count) => {
                if let (Some(clock), Some(spoke), None) = (&self.clock, self.spoke, self.waited) {
                    self.waited = spoke.elapsed(clock).ok();
                }
                self.first.note(&buf[..count]);
                Ok(count)
            }
            Err(error) => {
                self.failure = Some(error.kind());
                Err(error)
            }
        }
    }
}

impl<C: Clock, S: Write> Write for ObservedStream<C, S> {
    ghost contents = { λ s. S.contents s.stream };

    fn write(&mut self, buf: &[u8]) -> io::Result<usize> {
        match self.stream.write(buf) {
            Ok(count) => {
                if let (Some(clock), None) = (&self.clock, self.spoke) {
                    self.spoke = Instant::now(clock).ok();
                }
                Ok(count)
            }
            Err(error) => {
                self.failure = Some(error.kind());
                Err(error)
            }
        }
    }

    fn flush(&mut self) -> io::Result<()> {
        self.stream.flush()
    }
}

impl<C, S: OpenStream> OpenStream for ObservedStream<C, S> {
    fn shutdown(&self, how: Shutdown) -> io::Result<()> {
        self.stream.shutdown(how)
    }

    fn set_nodelay(&self, nodelay: bool) -> io::Result<()> {
        self.stream.set_nodelay(nodelay)
    }

    fn set_read_timeout(&self, time: Option<Duration>) -> io::Result<()> {
        self.stream.set_read_timeout(time)
    }

    fn set_write_timeout(&self, time: Option<Duration>) -> io::Result<()> {
        self.stream.set_write_timeout(time)
    }
}

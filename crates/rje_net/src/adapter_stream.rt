//! A stream to the other end of a line, or to its line adapter.
ghost use Rattle.std.specs.Prelude.{◌≡◌, ◌≢◌, ◌≤◌, List, ℕ, None, OnOk, length};
ghost use Rattle.std.specs.Io.{WritesAtMost};
ghost use Rattle.std.specs.Io.KnownBytes.{Appends, WriteAppends};
ghost use Rattle.bsc_frame.specs.declared.frame.Frame.{Frame};
ghost use Rattle.bsc_frame.specs.Written.{Written};
ghost use Rattle.bsc_adapter.specs.Form.{IsSaid};
ghost use Rattle.rje_net.specs.Streams.{unless_adapted};

use crate::handing::hand_out;
use arrayvec::ArrayVec;
use bsc_adapter::{FromAdapter, for_adapter};
use bsc_codes::PAD;
use std::io::{self, ErrorKind, Read, Write};
use std::net::{OpenStream, Shutdown};
use std::time::Duration;

/// The most bytes that are read of an adapter at once.
const MAX_TAKEN: usize = 160;

/// The most that is made of them.
const MAX_MADE: usize = 3 * MAX_TAKEN;

/// A stream to the other end of a line, on which transmissions are as they are; or to its line adapter, on which they are in the adapter's
/// form. What is written to it, in one piece for each transmission, is said in that form, and what is read from it are transmissions again.
#[derive(Drop)]
pub struct AdapterStream<S> {
    stream: S,
    // What makes transmissions of the adapter's bytes; None where there is no adapter.
    from: Option<FromAdapter>,
    // What was made and isn't read yet.
    made: ArrayVec<u8, MAX_MADE>,
}

impl<S> AdapterStream<S> {
    /// The same stream, which leads to a line adapter or doesn't.
    pub fn new(stream: S, adapter: bool) -> AdapterStream<S> {
        let from = match adapter {
            true => Some(FromAdapter::new()),
            false => None,
        };
        AdapterStream {
            stream,
            from,
            made: ArrayVec::new(),
        }
    }
}

/// Reads some bytes of an adapter, so many at most, and makes transmissions of them: as many pads, where else nothing were made. Answers how
/// many it read. A silence or a failure cuts what came before.
fn take_some<S: Read>(
    stream: &mut S,
    from: &mut FromAdapter,
    made: &mut ArrayVec<u8, MAX_MADE>,
    most: usize,
) -> io::Result<usize> {
    let mut piece = [0; MAX_TAKEN];
    let most = most.clamp(1, MAX_TAKEN);
    let count = match stream.read(&mut piece[..most]) {
        Ok(count) => count,
        Err(error) => {
            if error.kind() != ErrorKind::Interrupted {
                from.reset();
            }
            return Err(error);
        }
    };
    from.take_piece(&piece[..count], made);
    if made.is_empty() {
        put_pads(made, count);
    }
    Ok(count)
}

/// Puts so many pads into an empty piece, or as many as it holds.
fn put_pads(made: &mut ArrayVec<u8, MAX_MADE>, count: usize) {
    for _ in 0..count {
        if !made.is_full() {
            made.push(PAD);
        }
    }
}

impl<S: Read> Read for AdapterStream<S> {
    // Without an adapter, what the stream gives.
    ghost remaining = { λ s. unless_adapted s.from (S.remaining s.stream) };

    fn read(&mut self, buf: &mut [u8]) -> io::Result<usize> {
        let Some(from) = &mut self.from else {
            return self.stream.read(buf);
        };
        if self.made.is_empty() {
            take_some(&mut self.stream, from, &mut self.made, buf.len() / 3)?;
        }
        Ok(hand_out(&mut self.made, buf))
    }
}

impl<S: Write> Write for AdapterStream<S> {
    // Without an adapter, what the stream holds.
    ghost contents = { λ s. unless_adapted s.from (S.contents s.stream) };

    fn write(&mut self, buf: &[u8]) -> io::Result<usize>
        ensures bound { WritesAtMost result buf.now }
        ensures bytes { WriteAppends (unless_adapted self.old.from (S.contents self.old.stream))
            (unless_adapted self.new.from (S.contents self.new.stream)) result buf.now }
        ensures plain { self.old.from ≡ None
            → WriteAppends (S.contents self.old.stream) (S.contents self.new.stream) result buf.now }

        // To an adapter just its form of the transmission is said.
        ensures said { self.old.from ≢ None → OnOk result ((f : Frame) → Written f buf.now
            → (form : List ℕ) × IsSaid f form
            × Appends (S.contents self.old.stream) (S.contents self.new.stream) form) }
    {
        let Some(from) = &mut self.from else {
            return self.stream.write(buf);
        };
        from.reset();
        self.made.clear();
        self.stream.write_all(for_adapter(buf))?;
        Ok(buf.len())
    }

    fn flush(&mut self) -> io::Result<()> {
        self.stream.flush()
    }
}

impl<S: OpenStream> OpenStream for AdapterStream<S> {
    fn shutdown(&self, how: Shutdown) -> io::Result<()> {
        self.stream.shutdown(how)
    }

    fn set_nodelay(&self, nodelay: bool) -> io::Result<()> {
        self.stream.set_nodelay(nodelay)
    }

    fn set_read_timeout(&self, time: Option<Duration>) -> io::Result<()> {
        self.stream.set_read_timeout(time)
    }

    fn set_write_timeout(&self, time: Option<Duration>) -> io::Result<()> {
        self.stream.set_write_timeout(time)
    }
}

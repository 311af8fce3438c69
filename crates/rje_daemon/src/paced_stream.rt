//! A stream on which the hearings between transmissions are short.
ghost use Rattle.std.specs.Prelude.{◌≡◌, ◌≤◌, ◌↔◌, ◌*◌, IsTrue, None, OnOk, false, max, min, true};
ghost use Rattle.std.specs.Duration.{as_nanos, max_nanos};
ghost use Rattle.rje_daemon.specs.Pausing.{IsEnd, IsShort, after_nothing as next_after_nothing};
ghost use Rattle.rje_daemon.specs.declared.paced_stream.Wait.TheVariants.{Hearing, Idle, Pause};

use bsc_codes::{EOT, PAD, SYN};
use std::cell::Cell;
use std::io::{self, ErrorKind, Read, Write};
use std::net::{OpenStream, Shutdown};
use std::time::{Clock, Duration, Instant};

/// How long the pause after its own EOT is at least, in milliseconds.
const MIN_PAUSE: u64 = 20;

/// How long a station hears before it bids where EOT was the last that was said, in milliseconds: it is through before a pause is.
const TURN: u64 = 1;

/// How long a hearing is at most where no transmission is in hand, in milliseconds: so often a station looks at its folder then.
const MAX_IDLE: u64 = 3000;

/// For so many time-outs bytes may come in one hearing: then a read brings nothing, so that whoever sends a byte now and then doesn't keep a
/// station hearing.
const MAX_HEARINGS: u32 = 10;

/// How long a read waits.
#[derive(Clone, Copy, PartialEq, Eq)]
enum Wait {
    /// For a hearing, as long as was set.
    Hearing,
    /// For a hearing with no transmission in hand, as long as was set, but some seconds at most.
    Idle,
    /// After its own EOT: for a moment, in which the other end may bid.
    Pause,
    /// After the other end's EOT or a pause: just for what is there already.
    Turn,
}

/// A stream whose first read after EOT was written waits twice as long as the slowest answer of that transmission took; one that follows without a
/// word, and the first one after EOT was read, hardly wait; and each other read waits for as long as was set. So a station that has more to send
/// leaves the line to the other end for a moment, and not for a whole hearing, and the other end bids in that moment. The first answer on a
/// connection doesn't count, since the other end may first have had to take the call. Where no transmission is in hand no read waits for more than
/// three seconds. Bytes that come without an end are cut: after ten time-outs a read brings nothing, once.
#[derive(Drop)]
pub struct PacedStream<C, S> {
    clock: C,
    stream: S,
    // How long a hearing is.
    time: Cell<Option<Duration>>,
    // How long the stream waits now, and how long it is to at the next read.
    waits: Wait,
    next: Wait,
    // Whether anything came over the connection.
    heard: bool,
    // When something was written that wasn't answered yet, once something was heard.
    wrote: Option<Instant>,
    // How long the slowest answer took since the last pause.
    slowest: Duration,
    // Since when bytes come, with nothing written and no read without a byte in between.
    comes: Option<Instant>,
}

impl<C: Clock, S: OpenStream> PacedStream<C, S> {
    /// The same stream, to which nothing was written.
    pub fn new(clock: C, stream: S) -> PacedStream<C, S>
        ensures stream { result.stream ≡ stream }
        ensures idle { result.next ≡ Idle }
        ensures unheard { result.heard ≡ false }
    {
        PacedStream {
            clock,
            stream,
            time: Cell::new(None),
            waits: Wait::Hearing,
            next: Wait::Idle,
            heard: false,
            wrote: None,
            slowest: Duration::ZERO,
            comes: None,
        }
    }

    /// Whether bytes come for too long.
    fn is_endless(&self) -> bool
        ensures nothing { self.now.comes ≡ None → result ≡ false }
    {
        let (Some(comes), Some(time)) = (self.comes, self.time.get()) else {
            return false;
        };
        match comes.elapsed(&self.clock) {
            Ok(passed) => passed >= time.saturating_mul(MAX_HEARINGS),
            Err(_) => false,
        }
    }

    /// How long a read waits that waits so.
    fn time_of(&self, wait: Wait) -> Option<Duration>
        ensures short { IsShort wait (as_nanos self.now.slowest) result }
    {
        let short = match wait {
            Wait::Hearing => return self.time.get(),
            Wait::Idle => Duration::from_millis(MAX_IDLE),
            Wait::Pause => pause_after(self.slowest),
            Wait::Turn => Duration::from_millis(TURN),
        };
        match self.time.get() {
            Some(time) => Some(short.min(time)),
            None => Some(short),
        }
    }

    /// The next read waits as it is to. A pause begins anew to look for the slowest answer, and what was written before it needs none.
    fn set_wait(&mut self) -> io::Result<()>
        ensures waits { OnOk result (self.new.waits ≡ self.old.next) }
        ensures next { self.new.next ≡ self.old.next }
        ensures stream { self.new.stream ≡ self.old.stream }
    {
        if self.waits != self.next {
            let time = self.time_of(self.next);
            self.stream.set_read_timeout(time)?;
            self.waits = self.next;
        }
        if self.waits == Wait::Pause {
            self.wrote = None;
            self.slowest = Duration::ZERO;
        }
        Ok(())
    }

    /// These bytes are written: after its own EOT the next read waits as a pause does, after anything else as a hearing.
    fn note_written(&mut self, bytes: &[u8])
        ensures end { IsEnd bytes.now → self.new.next ≡ Pause }
        ensures other { (IsEnd bytes.now → ⊥) → self.new.next ≡ Hearing }
        ensures stream { self.new.stream ≡ self.old.stream }
    {
        self.next = wait_after(bytes, Wait::Pause);
        self.comes = None;
    }

    /// Something came: the answer to what was written, where that wasn't answered yet.
    fn note_answer(&mut self)
        ensures heard { self.new.heard ≡ true }
        ensures stream { self.new.stream ≡ self.old.stream }
        ensures answered { self.new.wrote ≡ None }
        ensures slowest { as_nanos self.old.slowest ≤ as_nanos self.new.slowest }
    {
        self.heard = true;
        if self.comes.is_none() {
            self.comes = Instant::now(&self.clock).ok();
        }
        if let Some(wrote) = self.wrote {
            if let Ok(took) = wrote.elapsed(&self.clock) {
                self.slowest = self.slowest.max(took);
            }
            self.wrote = None;
        }
    }
}

/// How long the pause is after its own EOT, where the slowest answer took so long: twice that, and 20 milliseconds at least.
fn pause_after(slowest: Duration) -> Duration
    ensures { as_nanos result ≡ max (min (as_nanos slowest * 2) max_nanos) 20000000 }
{
    slowest
        .saturating_mul(2)
        .max(Duration::from_millis(MIN_PAUSE))
}

/// Whether this is EOT, as it is on the line or as a line adapter takes it.
fn is_end(bytes: &[u8]) -> bool
    ensures { IsTrue result ↔ IsEnd bytes.now }
{
    bytes == [EOT].as_slice() || bytes == [SYN, SYN, EOT, PAD].as_slice()
}

/// How the next read waits where these bytes were written or read last: after its own EOT in one way, after the other end's in another.
fn wait_after(bytes: &[u8], end: Wait) -> Wait
    ensures end { IsEnd bytes.now → result ≡ end }
    ensures other { (IsEnd bytes.now → ⊥) → result ≡ Hearing }
{
    if is_end(bytes) { end } else { Wait::Hearing }
}

/// How the next read waits where one that waited so brought nothing.
fn after_nothing(waited: Wait) -> Wait
    ensures { result ≡ next_after_nothing waited }
{
    match waited {
        Wait::Hearing => Wait::Hearing,
        Wait::Pause => Wait::Turn,
        Wait::Turn | Wait::Idle => Wait::Idle,
    }
}

impl<C: Clock, S: OpenStream + Read> Read for PacedStream<C, S> {
    ghost remaining = { λ s. S.remaining s.stream };

    fn read(&mut self, buf: &mut [u8]) -> io::Result<usize> {
        if self.is_endless() {
            self.comes = None;
            return Err(io::Error::from(ErrorKind::TimedOut));
        }
        self.set_wait()?;
        let read = self.stream.read(buf);
        self.next = match &read {
            Ok(n) => wait_after(&buf[..(*n).min(buf.len())], Wait::Turn),
            Err(_) => after_nothing(self.waits),
        };
        match &read {
            Ok(_) => self.note_answer(),
            Err(_) => self.comes = None,
        }
        read
    }
}

impl<C: Clock, S: OpenStream + Write> Write for PacedStream<C, S> {
    ghost contents = { λ s. S.contents s.stream };

    fn write(&mut self, buf: &[u8]) -> io::Result<usize> {
        self.note_written(buf);
        let written = self.stream.write(buf);
        self.wrote = match self.heard {
            true => Instant::now(&self.clock).ok(),
            false => None,
        };
        written
    }

    fn flush(&mut self) -> io::Result<()> {
        self.stream.flush()
    }
}

impl<C, S: OpenStream> OpenStream for PacedStream<C, S> {
    fn shutdown(&self, how: Shutdown) -> io::Result<()> {
        self.stream.shutdown(how)
    }

    fn set_nodelay(&self, nodelay: bool) -> io::Result<()> {
        self.stream.set_nodelay(nodelay)
    }

    fn set_read_timeout(&self, time: Option<Duration>) -> io::Result<()> {
        self.time.set(time);
        self.stream.set_read_timeout(time)
    }

    fn set_write_timeout(&self, time: Option<Duration>) -> io::Result<()> {
        self.stream.set_write_timeout(time)
    }
}

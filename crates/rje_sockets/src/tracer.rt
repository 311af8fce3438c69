//! The watch that writes a line a turn.
ghost use Rattle.std.specs.Prelude.{◌≡◌, false, None};
ghost use Rattle.rje_sockets.specs.Tracing.{TracesLine, TracesTurn};
ghost use Rattle.rje_print.specs.TurnTexts.{peer_line, sender_line, receiver_line, both_line};

use crate::observer::Observer;
use crate::received_blocks::ReceivedBlocks;
use crate::sent_blocks::SentBlocks;
use bsc_link::{Reply, Say, Sound};
use line_world::Spoken;
use rje_print::{both_text, peer_text, receiver_text, sender_text};
use rje_station::{Arrival, ReceivingStation, SendingStation};
use std::io::Write;
use std::net::SocketAddr;
use std::time::{Clock, Duration, Instant};

/// Writes a line a turn, each with its time since the start. It goes quiet for good where a line can't be written or the clock can't be
/// read.
#[derive(Drop)]
pub struct Tracer<C, W> {
    clock: C,
    // When the transmission started; None where the tracer is quiet.
    start: Option<Instant>,
    sent: SentBlocks,
    received: ReceivedBlocks,
    out: W,
}

impl<C: Clock, W: Write> Tracer<C, W> {
    /// A tracer of a transmission that starts now. It is quiet where no trace is wanted.
    pub fn new(clock: C, is_wanted: bool, out: W) -> Tracer<C, W>
        ensures quiet { is_wanted ≡ false → result.start ≡ None }
        ensures out { result.out ≡ out }
    {
        let start = match is_wanted {
            true => Instant::now(&clock).ok(),
            false => None,
        };
        Tracer {
            clock,
            start,
            sent: SentBlocks::new(),
            received: ReceivedBlocks::new(),
            out,
        }
    }

    /// The peer at this address is connected.
    pub fn connected(&mut self, peer: SocketAddr)
        ensures told { TracesLine self.new.start (W.contents self.old.out) (W.contents self.new.out)
            (λ nanos. peer_line nanos peer) }
        ensures quiet { self.old.start ≡ None → self.new ≡ self.old }
    {
        match self.elapsed().map(|after| peer_text(after, peer)) {
            Some(Ok(line)) => self.write(line.as_slice()),
            _ => self.start = None,
        }
    }

    /// How long ago the transmission started; None where the tracer is quiet or has to be.
    fn elapsed(&self) -> Option<Duration>
        ensures { self.now.start ≡ None → result ≡ None }
    {
        self.start?.elapsed(&self.clock).ok()
    }

    /// Writes a line.
    fn write(&mut self, line: &[u8])
        ensures { TracesLine self.new.start (W.contents self.old.out) (W.contents self.new.out)
            (λ _. line.now) }
    {
        if self.out.write_all(line).is_err() {
            self.start = None;
        }
    }
}

impl<C: Clock, W: Write> Observer for Tracer<C, W> {
    ghost saw_sender = { λ old new said heard.
        TracesTurn new.start (W.contents old.out) (W.contents new.out)
        (λ nanos place. sender_line nanos said heard place) × (old.start ≡ None → new ≡ old) };

    ghost saw_receiver = { λ old new arrival reply.
        TracesTurn new.start (W.contents old.out) (W.contents new.out)
        (λ nanos place. receiver_line nanos arrival reply place) × (old.start ≡ None → new ≡ old) };

    ghost saw_both = { λ old new turn.
        TracesTurn new.start (W.contents old.out) (W.contents new.out)
        (λ nanos place. both_line nanos turn place) × (old.start ≡ None → new ≡ old) };

    ghost saw_end = { λ old new. new ≡ old };

    fn sender_took(&mut self, station: &SendingStation, said: Say, heard: Sound) {
        let Some(after) = self.elapsed() else {
            self.start = None;
            return;
        };
        let place = self.sent.said(said);
        self.sent.after(station);
        self.write(sender_text(after, said, heard, place).as_slice());
    }

    fn receiver_took(
        &mut self,
        station: &ReceivingStation,
        arrival: Arrival,
        reply: Option<Reply>,
    ) {
        let Some(after) = self.elapsed() else {
            self.start = None;
            return;
        };
        let place = self.received.came(station, arrival);
        self.write(receiver_text(after, arrival, reply, place).as_slice());
    }

    fn both_took(&mut self, sender: &SendingStation, turn: &Spoken) {
        let Some(after) = self.elapsed() else {
            self.start = None;
            return;
        };
        let place = self.sent.said(turn.said);
        self.sent.after(sender);
        self.write(both_text(after, turn, place).as_slice());
    }

    fn ended(&mut self) {}
}

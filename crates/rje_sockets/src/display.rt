//! The watch that shows on a terminal how far it is.
ghost use Rattle.std.specs.Prelude.{⊤};

use crate::observer::Observer;
use crate::received_amount::ReceivedAmount;
use crate::sent_amount::SentAmount;
use bsc_link::{Reply, Say, Sound};
use line_world::Spoken;
use rje_files::JobName;
use rje_print::{ERASED, PrintedLine, shown_peer, shown_progress};
use rje_station::{Arrival, ReceivingStation, SendingStation};
use std::io::Write;
use std::net::SocketAddr;
use std::time::{Clock, Duration, Instant};

/// How many milliseconds a line stays at least.
const REST: usize = 100;

/// Shows on a terminal how far it is, in one line that is written again and again, some ten times a second at most. It shows nothing more
/// where the line can't be written or the clock can't be read.
#[derive(Drop)]
pub struct Display<'a, C, W> {
    clock: C,
    // When the transmission started; None where nothing more is shown.
    start: Option<Instant>,
    // How long after that the line was written that stands; None where none does.
    shown: Option<Duration>,
    // The names of the jobs that are sent, where they are known.
    names: &'a [JobName],
    sent: SentAmount,
    received: ReceivedAmount,
    out: W,
}

impl<'a, C: Clock, W: Write> Display<'a, C, W> {
    /// Shows how far a transmission is that starts now, whose jobs that are sent have these names, where they are known.
    pub fn new(clock: C, names: &'a [JobName], out: W) -> Display<'a, C, W> {
        let start = Instant::now(&clock).ok();
        Display {
            clock,
            start,
            shown: None,
            names,
            sent: SentAmount::none(),
            received: ReceivedAmount::none(),
            out,
        }
    }

    /// The peer at this address is connected.
    pub fn connected(&mut self, peer: SocketAddr) {
        let Some(after) = self.due() else {
            return;
        };
        if let Ok(line) = shown_peer(peer) {
            self.show(after, &line);
        }
    }

    /// How long ago the transmission started, where the line is to be written again.
    fn due(&self) -> Option<Duration> {
        let after = self.start?.elapsed(&self.clock).ok()?;
        match self.shown {
            Some(shown) if millis(after.saturating_sub(shown)) < REST => None,
            _ => Some(after),
        }
    }

    /// Writes the line in place of the one before.
    fn show(&mut self, after: Duration, line: &PrintedLine) {
        match self.out.write_all(line.as_slice()) {
            Ok(()) => self.shown = Some(after),
            Err(_) => {
                self.start = None;
                self.shown = None;
            }
        }
    }

    /// Shows how far a sending station is.
    fn show_sent(&mut self, station: &SendingStation) {
        self.sent.after(station);
        if let Some(after) = self.due() {
            let progress = self.sent.progress(station, self.names, millis(after));
            self.show(after, &shown_progress(&progress));
        }
    }

    /// Takes the line away.
    fn erase(&mut self) {
        if self.shown.is_some() {
            self.shown = None;
            let _ = self.out.write_all(ERASED);
        }
    }
}

impl<C: Clock, W: Write> Observer for Display<'_, C, W> {
    ghost saw_sender = { λ _ _ _ _. ⊤ };

    ghost saw_receiver = { λ _ _ _ _. ⊤ };

    ghost saw_both = { λ _ _ _. ⊤ };

    ghost saw_end = { λ _ _. ⊤ };

    fn sender_took(&mut self, station: &SendingStation, _said: Say, _heard: Sound) {
        self.show_sent(station);
    }

    fn receiver_took(
        &mut self,
        station: &ReceivingStation,
        arrival: Arrival,
        _reply: Option<Reply>,
    ) {
        self.received.after(station, arrival);
        if !self.received.has_any() {
            return;
        }
        if let Some(after) = self.due() {
            let progress = self.received.progress(millis(after));
            self.show(after, &shown_progress(&progress));
        }
    }

    fn both_took(&mut self, sender: &SendingStation, _turn: &Spoken) {
        self.show_sent(sender);
    }

    fn ended(&mut self) {
        self.erase();
    }
}

/// How many milliseconds a time has.
fn millis(time: Duration) -> usize {
    let seconds = time.as_secs() as usize;
    seconds
        .saturating_mul(1000)
        .saturating_add(time.subsec_millis() as usize)
}

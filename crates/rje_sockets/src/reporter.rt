//! What watches a transmission that is reported.
ghost use Rattle.std.specs.Prelude.{◌≡◌, ⊤, None};
ghost use Rattle.rje_sockets.specs.Tracing.{TracesTurn};
ghost use Rattle.rje_sockets.specs.declared.reporter.Reporter.TheVariants as reporter;
ghost use Rattle.rje_print.specs.TurnTexts.{sender_line, receiver_line, both_line};

use crate::display::Display;
use crate::observer::Observer;
use crate::tracer::Tracer;
use crate::verbosity::Verbosity;
use bsc_link::{Reply, Say, Sound};
use line_world::Spoken;
use rje_files::JobName;
use rje_station::{Arrival, ReceivingStation, SendingStation};
use std::io::Write;
use std::net::SocketAddr;
use std::time::Clock;

/// Reports a transmission as it was asked for.
#[derive(Drop)]
pub enum Reporter<'a, C, W> {
    /// By a line for each turn, or not at all.
    Tracer(Tracer<C, W>),
    /// By one line on a terminal.
    Display(Display<'a, C, W>),
}

impl<'a, C: Clock, W: Write> Reporter<'a, C, W> {
    /// Reports a transmission that starts now, whose jobs that are sent have these names, where they are known.
    pub fn new(clock: C, report: Verbosity, names: &'a [JobName], out: W) -> Reporter<'a, C, W> {
        match report {
            Verbosity::Trace => Reporter::Tracer(Tracer::new(clock, true, out)),
            Verbosity::Progress => Reporter::Display(Display::new(clock, names, out)),
            Verbosity::Nothing => Reporter::Tracer(Tracer::new(clock, false, out)),
        }
    }

    /// The peer at this address is connected.
    pub fn connected(&mut self, peer: SocketAddr) {
        match self {
            Reporter::Tracer(tracer) => tracer.connected(peer),
            Reporter::Display(display) => display.connected(peer),
        }
    }
}

impl<C: Clock, W: Write> Observer for Reporter<'_, C, W> {
    ghost saw_sender = { λ old new said heard.
        (t : _) → old ≡ reporter.Tracer t → (u : _) × (new ≡ reporter.Tracer u)
        × TracesTurn u.start (W.contents t.out) (W.contents u.out)
        (λ nanos place. sender_line nanos said heard place) × (t.start ≡ None → u ≡ t) };

    ghost saw_receiver = { λ old new arrival reply.
        (t : _) → old ≡ reporter.Tracer t → (u : _) × (new ≡ reporter.Tracer u)
        × TracesTurn u.start (W.contents t.out) (W.contents u.out)
        (λ nanos place. receiver_line nanos arrival reply place) × (t.start ≡ None → u ≡ t) };

    ghost saw_both = { λ old new turn.
        (t : _) → old ≡ reporter.Tracer t → (u : _) × (new ≡ reporter.Tracer u)
        × TracesTurn u.start (W.contents t.out) (W.contents u.out)
        (λ nanos place. both_line nanos turn place) × (t.start ≡ None → u ≡ t) };

    ghost saw_end = { λ old new. (t : _) → old ≡ reporter.Tracer t → new ≡ old };

    fn sender_took(&mut self, station: &SendingStation, said: Say, heard: Sound) {
        match self {
            Reporter::Tracer(tracer) => tracer.sender_took(station, said, heard),
            Reporter::Display(display) => display.sender_took(station, said, heard),
        }
    }

    fn receiver_took(
        &mut self,
        station: &ReceivingStation,
        arrival: Arrival,
        reply: Option<Reply>,
    ) {
        match self {
            Reporter::Tracer(tracer) => tracer.receiver_took(station, arrival, reply),
            Reporter::Display(display) => display.receiver_took(station, arrival, reply),
        }
    }

    fn both_took(&mut self, sender: &SendingStation, turn: &Spoken) {
        match self {
            Reporter::Tracer(tracer) => tracer.both_took(sender, turn),
            Reporter::Display(display) => display.both_took(sender, turn),
        }
    }

    fn ended(&mut self) {
        match self {
            Reporter::Tracer(tracer) => tracer.ended(),
            Reporter::Display(display) => display.ended(),
        }
    }
}

//! What watches a transmission, turn by turn.
ghost use Rattle.std.specs.Prelude.{⊤};
ghost use Rattle.rje_sockets.specs.Watching.{SawSender, SawReceiver, SawBoth, SawEnd};

use bsc_link::{Reply, Say, Sound};
use line_world::Spoken;
use rje_station::{Arrival, ReceivingStation, SendingStation};

/// Is told each turn of a transmission as it happens, and changes nothing of it.
pub trait Observer {
    /// What was told of a sending station's turn, by what the watch was and is.
    ghost saw_sender: { SawSender Self };

    /// The same of a receiving station's turn.
    ghost saw_receiver: { SawReceiver Self };

    /// The same of a turn of both.
    ghost saw_both: { SawBoth Self };

    /// The same of the end of the turns.
    ghost saw_end: { SawEnd Self };

    /// A sending station said this, and heard that; it stands so now.
    fn sender_took(&mut self, station: &SendingStation, said: Say, heard: Sound)
        ensures saw { saw_sender self.old self.new said heard };

    /// To a receiving station this came, and it replied that; it stands so now.
    fn receiver_took(&mut self, station: &ReceivingStation, arrival: Arrival, reply: Option<Reply>)
        ensures saw { saw_receiver self.old self.new arrival reply };

    /// Both took this turn; the sender stands so now.
    fn both_took(&mut self, sender: &SendingStation, turn: &Spoken)
        ensures saw { saw_both self.old self.new turn.now };

    /// No turn follows, and what the command prints does.
    fn ended(&mut self)
        ensures saw { saw_end self.old self.new };
}

/// Watches nothing.
#[derive(Drop)]
pub struct Unwatched;

impl Observer for Unwatched {
    ghost saw_sender = { λ _ _ _ _. ⊤ };

    ghost saw_receiver = { λ _ _ _ _. ⊤ };

    ghost saw_both = { λ _ _ _. ⊤ };

    ghost saw_end = { λ _ _. ⊤ };

    fn sender_took(&mut self, _station: &SendingStation, _said: Say, _heard: Sound) {}

    fn receiver_took(
        &mut self,
        _station: &ReceivingStation,
        _arrival: Arrival,
        _reply: Option<Reply>,
    ) {}

    fn both_took(&mut self, _sender: &SendingStation, _turn: &Spoken) {}

    fn ended(&mut self) {}
}

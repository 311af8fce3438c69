//! Both ends of a line: two stations, each at its own line in memory.
ghost use Rattle.std.specs.Prelude.{◌≡◌, true, false, None, IfOk, OnOk, IfErr, OnErr};
ghost use Rattle.bsc_history.specs.Fate.{is_damage_of as is_damage, sound_of as up_sound};
ghost use Rattle.line_world.specs.declared.turn_fault.TurnFault.TheVariants as Fault;
ghost use Rattle.line_world.specs.Inside.Driving.{GoesUp, GoesDown, IsReplyFault, Takes, IsTurnFault};
ghost use Rattle.line_world.specs.Carrying.{MayDamage, IsDamaged, IsFateFault};

use crate::carrying::carry;
use crate::turn_fault::TurnFault;
use crate::unfailing::{hear_down, hear_up, speak_down};
use crate::{Driven, Fate, MemoryLine, Spoken, Turn};
use bsc_history::{is_damage_of, sound_of, sound_of_reply};
use bsc_link::{Reply, Say, Sound};
use rje_station::{Arrival, ReceivingStation, SendingStation, StationFault};
use std::alloc::Global;

/// Both ends of a line.
#[derive(Drop)]
pub(crate) struct Ends<'a> {
    sender: SendingStation<'a>,
    receiver: ReceivingStation,
    sending_line: MemoryLine,
    receiving_line: MemoryLine,
    ghost sending_calm: { sending_line.until_failure ≡ 0 },
    ghost receiving_calm: { receiving_line.until_failure ≡ 0 },
}

impl<'a> Ends<'a> {
    /// Two stations, and lines on which nothing comes.
    pub(crate) fn new(
        alloc: Global,
        sender: SendingStation<'a>,
        receiver: ReceivingStation,
    ) -> Ends<'a>
        ensures sender { result.sender ≡ sender.entry }
        ensures receiver { result.receiver ≡ receiver }
    {
        Ends {
            sender,
            receiver,
            sending_line: MemoryLine::new(alloc),
            receiving_line: MemoryLine::new(alloc),
        }
    }

    /// The stations, and what was spoken.
    pub(crate) fn driven(self, turns: Vec<Spoken>) -> Driven<'a>
        ensures turns { result.turns.items ≡ turns.items }
        ensures sender { result.sender ≡ self.entry.sender }
        ensures receiver { result.receiver ≡ self.entry.receiver }
    {
        let Ends {
            sender,
            receiver,
            sending_line: _,
            receiving_line: _,
        } = self;
        Driven {
            turns,
            sender,
            receiver,
        }
    }

    /// One turn; None where the sender has nothing to say any more.
    pub(crate) fn take_turn(
        &mut self,
        alloc: Global,
        turn: &Turn,
    ) -> Result<Option<Spoken>, TurnFault>
        requires live { self.old.sender.over ≡ false → self.old.receiver.over ≡ false }
        ensures taken { IfOk result (λ spoken.
            Takes spoken turn.now self.old.sender self.new.sender self.old.receiver
            self.new.receiver) }
        ensures fault { IfErr result (IsTurnFault turn.now self.old.sender self.old.receiver) }
    {
        let said = match self.sender.speak(&mut self.sending_line) {
            Ok(said) => said,
            Err(StationFault::Over) => return Ok(None),
            Err(_) => unreachable!(),
        };
        let (arrival, reply) = self.go_up(alloc, said, turn)?;
        let heard = match said {
            Say::End => Sound::Quiet,
            _ => self.go_down(alloc, turn)?,
        };
        Ok(Some(Spoken {
            said,
            arrived: arrival.sound,
            refused: arrival.refused,
            reply,
            heard,
        }))
    }

    /// What the sender sent comes to the receiver, which takes one step.
    fn go_up(
        &mut self,
        alloc: Global,
        said: Say,
        turn: &Turn,
    ) -> Result<(Arrival, Option<Reply>), TurnFault>
        requires live { self.old.receiver.over ≡ false }
        ensures sending { OnOk result (self.new.sending_line ≡ self.old.sending_line) }
        ensures owes { OnOk result (self.new.receiver.over ≡ true → self.new.receiver.due ≡ None) }
        ensures up { IfOk result (λ a. GoesUp turn.now
            (up_sound said) self.old.sending_line.sent self.old.receiver self.new.receiver a.0.sound
            a.0.refused a.1) }
        ensures sender { OnOk result (self.new.sender ≡ self.old.sender) }
        ensures fault { IfErr result (IsFateFault turn.now.up
            (up_sound said) self.old.sending_line.sent) }
    {
        carry(
            alloc,
            &turn.up,
            &self.sending_line,
            &mut self.receiving_line,
        )?;
        let (arrival, reply) = hear_up(&mut self.receiver, &mut self.receiving_line, turn.wish);
        check_damage(&turn.up, sound_of(said), arrival.sound)?;
        Ok((arrival, reply))
    }

    /// The reply that is due comes to the sender, which takes one step.
    fn go_down(&mut self, alloc: Global, turn: &Turn) -> Result<Sound, TurnFault>
        requires live { self.old.sender.over ≡ false }
        requires owes { self.old.receiver.over ≡ true → self.old.receiver.due ≡ None }
        ensures down { IfOk result (λ heard.
            GoesDown turn.now self.old.sender self.new.sender self.old.receiver
            self.new.receiver heard) }
        ensures fault { IfErr result (IsReplyFault turn.now.down self.old.receiver.due) }
    {
        let Some(reply) = speak_down(&mut self.receiver, &mut self.receiving_line) else {
            self.sending_line.put(Vec::new(alloc));
            return Ok(hear_down(&mut self.sender, &mut self.sending_line, turn.pause));
        };
        carry(
            alloc,
            &turn.down,
            &self.receiving_line,
            &mut self.sending_line,
        )?;
        let heard = hear_down(&mut self.sender, &mut self.sending_line, turn.pause);
        check_damage(&turn.down, sound_of_reply(Some(reply)), heard)?;
        Ok(heard)
    }
}

/// Refuses bytes that are heard as damage of what was said may not be.
pub fn check_damage(fate: &Fate, said: Sound, heard: Sound) -> Result<(), TurnFault>
    ensures may { OnOk result (MayDamage fate.now said heard) }
    ensures fault { IfErr result (λ fault. fault ≡ Fault.NotDamage) }
    ensures wrong { OnErr result (IsDamaged fate.now × (is_damage said heard ≡ false)) }
{
    match fate {
        Fate::Damaged { bytes: _ } if !is_damage_of(said, heard) => Err(TurnFault::NotDamage),
        _ => Ok(()),
    }
}

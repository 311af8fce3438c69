//! One of two stations that both have jobs, at a line in memory of which no call fails.
ghost use Rattle.std.specs.Prelude.{◌≡◌, ◌≢◌, ◌≤◌, true, false, None, Some, length};
ghost use Rattle.std.specs.List.{flat_map};
ghost use Rattle.bsc_link.specs.declared.say.Say.TheVariants as said;
ghost use Rattle.rje_station.specs.Hearing.{Hearing, HearsSound};
ghost use Rattle.rje_station.specs.Receiving.{Replied};
ghost use Rattle.rje_station.specs.Station.{due_at, is_deaf, after_own_speaking, SpokeDue, after_answer, HeardOther, after_own_reply};
ghost use Rattle.line_world.specs.MemoryLine.{talk_of};
ghost use Rattle.pair_world.specs.Inside.PairDriving.{SpeaksInVain, after_end_of};

use bsc_link::{Reply, Say, Sound, Wish};
use line_world::{MemoryLine, Spoken};
use rje_station::{Arrival, Station, StationFault};
use std::alloc::Global;

/// A station at its own line: what is sent on it is short enough, and no call is named to fail.
#[derive(Drop)]
pub(crate) struct PairEnd<'a> {
    pub(crate) station: Station<'a>,
    pub(crate) line: MemoryLine,
    ghost calm: { line.until_failure ≡ 0 },
}

impl<'a> PairEnd<'a> {
    /// A station at a line on which nothing comes.
    pub(crate) fn new(alloc: Global, station: Station<'a>) -> PairEnd<'a>
        ensures { result.station ≡ station.entry }
    {
        PairEnd {
            station,
            line: MemoryLine::new(alloc),
        }
    }

    /// The station, given away.
    pub(crate) fn into_station(self) -> Station<'a>
        ensures { result ≡ self.entry.station }
    {
        let PairEnd { station, line: _ } = self;
        station
    }

    /// A station at which something is due sends it.
    pub(crate) fn say(&mut self) -> Say
        requires due { due_at self.old.station ≢ said.Nothing }
        ensures said { result ≡ due_at self.old.station }
        ensures sent { SpokeDue (due_at self.old.station) self.old.station.sender.rest
            (talk_of self.old.line) (talk_of self.new.line) }
        ensures state { self.new.station ≡ after_own_speaking self.old.station }
    {
        let Ok(say) = self.station.speak(&mut self.line) else {
            unreachable!()
        };
        say
    }

    /// A station at which something is due hears the answer.
    pub(crate) fn hear_answer(&mut self, pause: bool) -> Sound
        requires short { length (flat_map (λ p. p) self.old.line.waiting) ≤ 8192 }
        requires due { due_at self.old.station ≢ said.Nothing }
        ensures heard { HearsSound (talk_of self.old.line) (talk_of self.new.line) result }
        ensures state { self.new.station ≡ after_answer self.old.station result pause }
    {
        let Ok(sound) = self.station.hear_answer(&mut self.line, pause) else {
            unreachable!()
        };
        sound
    }

    /// A station hears the other one: what came, and the reply that is due.
    pub(crate) fn hear_other(&mut self, wish: Wish) -> (Arrival, Option<Reply>)
        requires short { length (flat_map (λ p. p) self.old.line.waiting) ≤ 8192 }
        requires hears { is_deaf self.old.station ≡ false }
        ensures heard { HeardOther self.old.station self.new.station wish result.1
            (λ what. Hearing (talk_of self.old.line) (talk_of self.new.line) what) }
        ensures arrival { self.new.station.receiver.arrival ≡ Some result.0 }
        ensures live { self.new.station.failed ≡ false }
        ensures owes { self.new.station.receiver.over ≡ true
            → self.new.station.receiver.due ≡ None }
    {
        let Ok(reply) = self.station.hear_other(&mut self.line, wish) else {
            unreachable!()
        };
        let Some(arrival) = self.station.receiver().arrival() else {
            unreachable!()
        };
        (arrival, reply)
    }

    /// A station sends the reply that is due; it owes none where the other one's transmission is over.
    pub(crate) fn reply(&mut self) -> Option<Reply>
        requires live { self.old.station.failed ≡ false }
        requires owes { self.old.station.receiver.over ≡ true
            → self.old.station.receiver.due ≡ None }
        ensures reply { result ≡ self.old.station.receiver.due }
        ensures sent { Replied self.old.station.receiver.due (talk_of self.old.line)
            (talk_of self.new.line) }
        ensures state { self.new.station ≡ after_own_reply self.old.station }
    {
        match self.station.reply(&mut self.line) {
            Ok(reply) => reply,
            Err(StationFault::Over) => None,
            Err(_) => unreachable!(),
        }
    }

    /// A station speaks, and hears nothing.
    pub(crate) fn speak_in_vain(&mut self, alloc: Global, pause: bool) -> Spoken
        requires due { due_at self.old.station ≢ said.Nothing }
        ensures vain { SpeaksInVain pause self.old.station self.new.station result }
    {
        let said = self.say();
        let heard = match said {
            Say::End => Sound::Quiet,
            _ => {
                self.line.put(Vec::new(alloc));
                self.hear_answer(pause)
            }
        };
        Spoken {
            said,
            arrived: Sound::Quiet,
            refused: false,
            reply: None,
            heard,
        }
    }

    /// Tells a station that the other one's transmission ended, where it did.
    pub(crate) fn end_of(&mut self, said: Say)
        ensures { self.new.station ≡ after_end_of said self.old.station }
    {
        if let Say::End = said {
            self.station.other_ended();
        }
    }
}

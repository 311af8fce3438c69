//! Both ends of a line on which both stations have jobs.
ghost use Rattle.std.specs.Prelude.{◌≡◌, ◌≢◌, true, false, None, IfOk, OnOk, IfErr};
ghost use Rattle.bsc_link.specs.declared.say.Say.TheVariants as said;
ghost use Rattle.bsc_history.specs.Fate.{sound_of as up_sound};
ghost use Rattle.line_world.specs.Inside.Driving.{IsReplyFault};
ghost use Rattle.line_world.specs.Carrying.{IsFateFault};
ghost use Rattle.rje_station.specs.Station.{due_at, is_deaf};
ghost use Rattle.pair_world.specs.Inside.PairDriving.{GoesAcross, ComesBack, SpeaksAlone, IsAloneFault, Collides, TakesPair, IsPairTurnFault};

use crate::pair_end::PairEnd;
use crate::speaking::speaks;
use crate::{PairSpoken, PairTurn, Paired};
use bsc_history::{sound_of, sound_of_reply};
use bsc_link::{Reply, Say, Sound};
use line_world::{Spoken, Turn, TurnFault, carry, check_damage};
use rje_station::{Arrival, Station};
use std::alloc::Global;

/// Both ends of a line.
#[derive(Drop)]
pub(crate) struct PairEnds<'a> {
    primary: PairEnd<'a>,
    secondary: PairEnd<'a>,
}

impl<'a> PairEnds<'a> {
    /// Two stations, and lines on which nothing comes.
    pub(crate) fn new(alloc: Global, primary: Station<'a>, secondary: Station<'a>) -> PairEnds<'a>
        ensures primary { result.primary.station ≡ primary.entry }
        ensures secondary { result.secondary.station ≡ secondary.entry }
    {
        PairEnds {
            primary: PairEnd::new(alloc, primary),
            secondary: PairEnd::new(alloc, secondary),
        }
    }

    /// The stations, and what was spoken.
    pub(crate) fn paired(self, turns: Vec<PairSpoken>) -> Paired<'a>
        ensures turns { result.turns.items ≡ turns.items }
        ensures primary { result.primary ≡ self.entry.primary.station }
        ensures secondary { result.secondary ≡ self.entry.secondary.station }
    {
        let PairEnds { primary, secondary } = self;
        Paired {
            turns,
            primary: primary.into_station(),
            secondary: secondary.into_station(),
        }
    }

    /// One turn; None where nothing is due at either.
    pub(crate) fn take_turn(
        &mut self,
        alloc: Global,
        turn: &PairTurn,
    ) -> Result<Option<PairSpoken>, TurnFault>
        requires primary_hears { due_at self.old.secondary.station ≢ said.Nothing
            → is_deaf self.old.primary.station ≡ false }
        requires secondary_hears { due_at self.old.primary.station ≢ said.Nothing
            → is_deaf self.old.secondary.station ≡ false }
        ensures taken { IfOk result (λ spoken.
            TakesPair spoken turn.now self.old.primary.station self.new.primary.station
            self.old.secondary.station self.new.secondary.station) }
        ensures fault { IfErr result (IsPairTurnFault turn.now self.old.primary.station
            self.old.secondary.station) }
    {
        let up = self.primary.station.due();
        let down = self.secondary.station.due();
        let primary_speaks = speaks(up, down, turn.bids.lets_primary());
        let secondary_speaks = speaks(down, up, turn.bids.lets_secondary());
        match (primary_speaks, secondary_speaks) {
            (true, true) => Ok(Some(self.collide(alloc, turn.turn.pause))),
            (true, false) => {
                let spoken = speak_alone(
                    alloc,
                    &turn.turn,
                    &mut self.primary,
                    &mut self.secondary,
                )?;
                Ok(Some(PairSpoken {
                    primary: Some(spoken),
                    secondary: None,
                }))
            }
            (false, true) => {
                let spoken = speak_alone(
                    alloc,
                    &turn.turn,
                    &mut self.secondary,
                    &mut self.primary,
                )?;
                Ok(Some(PairSpoken {
                    primary: None,
                    secondary: Some(spoken),
                }))
            }
            (false, false) => Ok(None),
        }
    }

    /// Both speak, and neither is heard.
    fn collide(&mut self, alloc: Global, pause: bool) -> PairSpoken
        requires primary { due_at self.old.primary.station ≢ said.Nothing }
        requires secondary { due_at self.old.secondary.station ≢ said.Nothing }
        ensures collide { Collides pause self.old.primary.station self.new.primary.station
            self.old.secondary.station self.new.secondary.station result }
    {
        let first = self.primary.speak_in_vain(alloc, pause);
        let second = self.secondary.speak_in_vain(alloc, pause);
        self.primary.end_of(second.said);
        self.secondary.end_of(first.said);
        PairSpoken {
            primary: Some(first),
            secondary: Some(second),
        }
    }
}

/// One station speaks, and the other hears it.
fn speak_alone<'a>(
    alloc: Global,
    turn: &Turn,
    speaker: &mut PairEnd<'a>,
    listener: &mut PairEnd<'a>,
) -> Result<Spoken, TurnFault>
    requires due { due_at speaker.old.station ≢ said.Nothing }
    requires hears { is_deaf listener.old.station ≡ false }
    ensures spoke { IfOk result (λ spoken.
        SpeaksAlone turn.now speaker.old.station speaker.new.station listener.old.station
        listener.new.station spoken) }
    ensures fault { IfErr result (IsAloneFault turn.now speaker.old.station
        listener.old.station) }
{
    let said = speaker.say();
    let (arrival, reply) = go_across(alloc, turn, said, speaker, listener)?;
    let heard = match said {
        Say::End => Sound::Quiet,
        _ => come_back(alloc, turn, speaker, listener)?,
    };
    listener.end_of(said);
    Ok(Spoken {
        said,
        arrived: arrival.sound,
        refused: arrival.refused,
        reply,
        heard,
    })
}

/// What one station sent comes to the other, which takes one step.
fn go_across(
    alloc: Global,
    turn: &Turn,
    said: Say,
    speaker: &PairEnd<'_>,
    listener: &mut PairEnd<'_>,
) -> Result<(Arrival, Option<Reply>), TurnFault>
    requires hears { is_deaf listener.old.station ≡ false }
    ensures live { OnOk result (listener.new.station.failed ≡ false) }
    ensures owes { OnOk result (listener.new.station.receiver.over ≡ true
        → listener.new.station.receiver.due ≡ None) }
    ensures across { IfOk result (λ a.
        GoesAcross turn.now (up_sound said) speaker.now.line.sent listener.old.station
        listener.new.station a.0.sound a.0.refused a.1) }
    ensures fault { IfErr result (IsFateFault turn.now.up (up_sound said)
        speaker.now.line.sent) }
{
    carry(alloc, &turn.up, &speaker.line, &mut listener.line)?;
    let (arrival, reply) = listener.hear_other(turn.wish);
    check_damage(&turn.up, sound_of(said), arrival.sound)?;
    Ok((arrival, reply))
}

/// The reply that is due comes to the station that spoke, which takes one step.
fn come_back(
    alloc: Global,
    turn: &Turn,
    speaker: &mut PairEnd<'_>,
    listener: &mut PairEnd<'_>,
) -> Result<Sound, TurnFault>
    requires due { due_at speaker.old.station ≢ said.Nothing }
    requires live { listener.old.station.failed ≡ false }
    requires owes { listener.old.station.receiver.over ≡ true
        → listener.old.station.receiver.due ≡ None }
    ensures back { IfOk result (λ heard.
        ComesBack turn.now speaker.old.station speaker.new.station listener.old.station
        listener.new.station heard) }
    ensures fault { IfErr result (IsReplyFault turn.now.down listener.old.station.receiver.due) }
{
    let Some(reply) = listener.reply() else {
        speaker.line.put(Vec::new(alloc));
        return Ok(speaker.hear_answer(turn.pause));
    };
    carry(alloc, &turn.down, &listener.line, &mut speaker.line)?;
    let heard = speaker.hear_answer(turn.pause);
    check_damage(&turn.down, sound_of_reply(Some(reply)), heard)?;
    Ok(heard)
}

//! A station's turns: its own, and the other's.
ghost use Rattle.std.specs.Prelude.{◌≡◌, ◌≢◌, ◌+◌, ◌-◌, ◌^◌, ◌<◌, ◌⊎◌, if◌then◌else◌, true, false, IfErr, IfOk, OnOk};
ghost use Rattle.bsc_link.specs.declared.say.Say.TheVariants as say;
ghost use Rattle.rje_station.specs.Station.{due_at, after_other_refusal};
ghost use Rattle.rje_session.specs.Stations.{AnswersOther, FailsInOwn, HearsOther, IsOfRun, SpokeAndHeard, TakesOwn};

use bsc_link::{Reply, Say, Sound, Wish};
use rje_station::{Arrival, Line, Station, StationFault};

/// Whether the station speaks next. One that has to listen before it bids does so as long as there is something to hear.
pub fn is_own_turn<'a>(station: &Station<'a>, has_listened: bool) -> bool
    ensures speaks { result ≡ true → due_at station.now ≢ say.Nothing }
    ensures bids { result ≡ true → due_at station.now ≡ say.Bid
        → (has_listened ≡ true) ⊎ (station.now.receiver.over ≡ true) }
    ensures listens { result ≡ false → (due_at station.now ≡ say.Nothing)
        ⊎ ((due_at station.now ≡ say.Bid) × (has_listened ≡ false)) }
{
    match station.due() {
        Say::Nothing => false,
        Say::Bid => has_listened || station.receiver().is_over(),
        _ => true,
    }
}

/// A station's own turn: it says what is due, and listens unless that is EOT. What was said, and what was heard; quiet after EOT.
pub fn take_own_turn<'a, L: Line>(
    station: &mut Station<'a>,
    line: &mut L,
) -> Result<(Say, Sound), StationFault>
    requires due { due_at station.old ≢ say.Nothing }
    ensures takes { IfOk result (λ turn. TakesOwn station.old station.new turn.0 turn.1
        × SpokeAndHeard station.old.sender.rest (L.talk line.old, L.transmissions line.old)
        (L.talk line.new, L.transmissions line.new) turn.0 turn.1) }

    // The line failed.
    ensures fault { IfErr result (FailsInOwn station.old station.new) }
    ensures cause { IfErr result IsOfRun }
{
    let said = station.speak(line)?;
    let heard = match said {
        Say::End => Sound::Quiet,
        _ => station.hear_answer(line, false)?,
    };
    Ok((said, heard))
}

/// The other's turn begins: the station listens. What came, and the reply that is due.
pub fn hear_other<'a, L: Line>(
    station: &mut Station<'a>,
    line: &mut L,
) -> Result<(Arrival, Option<Reply>), StationFault>
    ensures heard { IfOk result (λ came. HearsOther station.old station.new came.0 came.1
        (L.talk line.old) (L.talk line.new)) }
    ensures none { L.transmissions line.new ≡ L.transmissions line.old }

    // The line failed, or there is nothing to hear.
    ensures fault { IfErr result (λ fault.
        station.new ≡ after_other_refusal fault station.old) }
    ensures cause { IfErr result IsOfRun }
{
    let reply = station.hear_other(line, Wish::Go)?;
    let Some(arrival) = station.receiver().arrival() else {
        unreachable!()
    };
    Ok((arrival, reply))
}

/// The other's turn ends: the station replies where a reply is due. Where what came ended the other's transmission, it leaves its receiving side.
pub fn answer_other<'a, L: Line>(
    station: &mut Station<'a>,
    line: &mut L,
) -> Result<(), StationFault>
    ensures answers { OnOk result (AnswersOther station.old station.new
        (L.talk line.old, L.transmissions line.old) (L.talk line.new, L.transmissions line.new)) }

    // The line failed.
    ensures fault { IfErr result (λ fault.
        station.new ≡ after_other_refusal fault station.old) }
    ensures cause { IfErr result IsOfRun }
{
    if station.receiver().is_over() {
        station.other_ended();
        return Ok(());
    }
    station.reply(line)?;
    Ok(())
}

/// How many turns of the other's in a row were quiet, with the last one.
pub fn quiet_after(quiet: u32, is_quiet: bool) -> u32
    requires few { quiet < 2 ^ 32 - 1 }
    ensures { result ≡ (if is_quiet then quiet + 1 else 0) }
{
    if is_quiet { quiet + 1 } else { 0 }
}

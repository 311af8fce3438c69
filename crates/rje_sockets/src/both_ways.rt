//! A station that sends and receives, over one line, until both transmissions are over.
ghost use Rattle.std.specs.Prelude.{◌≡◌, ◌≢◌, ◌<◌, ◌⊎◌, [], Option, Some, true, false, IfOk, IfErr, OnErr, OnOk};
ghost use Rattle.bsc_link.specs.declared.reply.Reply.{Reply as Answer};
ghost use Rattle.bsc_link.specs.declared.say.Say.{Say as Word};
ghost use Rattle.bsc_link.specs.declared.say.Say.TheVariants as say;
ghost use Rattle.bsc_link.specs.declared.sound.Sound.{Sound as Tone};
ghost use Rattle.rje_station.specs.declared.arrival.Arrival.{Arrival as Coming};
ghost use Rattle.rje_station.specs.declared.line_fault.LineFault.TheVariants.{Closed};
ghost use Rattle.rje_station.specs.declared.station_fault.StationFault.TheVariants as fault;
ghost use Rattle.rje_station.specs.Station.{due_at, after_other_refusal};
ghost use Rattle.rje_commands.specs.CommandFault.{IsFailing, of_station, status_of};
ghost use Rattle.rje_session.specs.Stations.{FailsInOwn, HeardAndReplied, SpokeAndHeard, TakesOthers, TakesOwn};
ghost use Rattle.rje_sockets.specs.BothWays.{has_listened, AreOver, FailsInOthers, TakesTurnsTo, Waits};
ghost use Rattle.rje_sockets.specs.Inside.Marking.{GoesOnMarking};
ghost use Rattle.rje_sockets.specs.Inside.Keeping.{GoesOnKeeping};
ghost use Rattle.rje_sockets.specs.Inside.BreakingOff.{of_broken_off};
ghost use Rattle.rje_sockets.specs.Inside.BothFiles.{BreaksBoth, GoesOnHolding, kept_of, progress_of, HasCounted};
ghost use Rattle.rje_sockets.specs.NamedFiles.{NamesWritten};

use crate::job_writer::JobWriter;
use crate::observer::Observer;
use crate::one_way::{MAX_HEARINGS, was_quiet};
use crate::receive_end::ReceiveEnd;
use crate::sent_marker::SentMarker;
use crate::transfer_error::TransferError;
use bsc_link::{Rank, Say};
use rje_session::turns;
use rje_station::{Line, LineFault, Station, StationFault};
use rje_store::Store;

/// Sends what the station has and receives what the other one has, until both transmissions are over, the other has hung up or has been
/// quiet for so many of its turns in a row. Each job that it sends is marked as soon as it is counted, and each that comes is kept before
/// its last block is answered; where it can't be, the station leaves. A primary bids as soon as something is due; a secondary listens
/// first, and after each bid that isn't granted.
pub fn exchange_all<'a, 'b, L: Line, S: Store, W: Observer>(
    station: &mut Station<'a>,
    line: &mut L,
    patience: u32,
    marker: &mut SentMarker<'b>,
    keeper: &mut JobWriter<'b>,
    store: &mut S,
    watch: &mut W,
) -> Result<ReceiveEnd, TransferError<'b>>
    requires patient { 0 < patience }
    ensures left { IfOk result (λ left. TakesTurnsTo patience W.saw_sender W.saw_receiver left
        (station.old, (L.talk line.old, L.transmissions line.old), watch.old)
        (station.new, (L.talk line.new, L.transmissions line.new), watch.new)) }
    ensures holds { OnOk result (GoesOnHolding
        (marker.old, keeper.old, S.files store.old) (marker.new, keeper.new, S.files store.new)
        (progress_of station.old) (progress_of station.new)) }
    ensures broken { IfErr result (BreaksBoth station.old station.new
        (marker.old, keeper.old, S.files store.old)
        (marker.new, keeper.new, S.files store.new)) }
    ensures status { IfErr result (λ broken. IsFailing (status_of (of_broken_off broken))) }
    ensures names { IfErr result (λ broken.
        NamesWritten keeper.old.file.into.jobs.now (of_broken_off broken)) }
    ensures count { (marker.new.marked ≡ marker.old.marked)
        ⊎ HasCounted station.old marker.new.marked }
{
    let at_once = may_bid_at_once(station);
    let mut has_listened = at_once;
    let mut quiet = 0;
    for _ in 0..MAX_HEARINGS {
        if is_over(station) {
            return Ok(ReceiveEnd::Ended);
        }
        if turns::is_own_turn(station, has_listened) {
            take_own_turn(station, line, marker, store, watch)?;
            has_listened = at_once;
            quiet = 0;
            continue;
        }
        if !take_others_turn(station, line, keeper, store, watch)? {
            return Ok(ReceiveEnd::Ended);
        }
        has_listened = true;
        quiet = turns::quiet_after(quiet, was_quiet(station.receiver()));
        if quiet == patience {
            station.other_ended();
            return Ok(ReceiveEnd::Abandoned);
        }
    }
    Ok(ReceiveEnd::Abandoned)
}

/// Whether a station may bid before it has listened: a primary may.
fn may_bid_at_once<'a>(station: &Station<'a>) -> bool
    ensures { result ≡ has_listened station.now.contender.rank [] }
{
    station.rank() == Rank::Primary
}

/// Whether both transmissions are over.
fn is_over<'a>(station: &Station<'a>) -> bool
    ensures over { result ≡ true → AreOver station.now }
    ensures all { AreOver station.now → result ≡ true }
{
    station.due() == Say::Nothing && station.receiver().is_over()
}

/// A station's own turn: it says what is due, and listens unless that is EOT. Then as many jobs are marked as it has counted.
fn take_own_turn<'a, 'b, L: Line, S: Store, W: Observer>(
    station: &mut Station<'a>,
    line: &mut L,
    marker: &mut SentMarker<'b>,
    store: &mut S,
    watch: &mut W,
) -> Result<(), StationFault>
    requires due { due_at station.old ≢ say.Nothing }
    ensures takes { OnOk result ((said : Word) × (heard : Tone)
        × TakesOwn station.old station.new said heard
        × SpokeAndHeard station.old.sender.rest (L.talk line.old, L.transmissions line.old)
        (L.talk line.new, L.transmissions line.new) said heard
        × W.saw_sender watch.old watch.new said heard) }
    ensures fault { IfErr result (FailsInOwn station.old station.new) }
    ensures status { IfErr result (λ fault. IsFailing (status_of (of_station fault))) }
    ensures marked { OnOk result (GoesOnMarking marker.old marker.new station.old.sender.counted
        station.new.sender.counted (S.files store.old) (S.files store.new)) }
    ensures count { (marker.new.marked ≡ marker.old.marked)
        ⊎ (marker.new.marked ≡ station.new.sender.counted) }
    ensures unmarked { OnErr result ((marker.new ≡ marker.old) × (store.new ≡ store.old)) }
{
    let (said, heard) = turns::take_own_turn(station, line)?;
    let sender = station.sender();
    watch.sender_took(sender, said, heard);
    marker.mark(station.sender().counted(), store);
    Ok(())
}

/// The other's turn, and whether there is one: the station listens, keeps the job that has come to its end, and replies where a reply is
/// due. Where the job can't be kept, it leaves and doesn't reply. There is none where the other hangs up and the station waits for it.
fn take_others_turn<'a, 'b, L: Line, S: Store, W: Observer>(
    station: &mut Station<'a>,
    line: &mut L,
    keeper: &mut JobWriter<'b>,
    store: &mut S,
    watch: &mut W,
) -> Result<bool, TransferError<'b>>
    ensures takes { IfOk result (λ is_turn. is_turn ≡ true → (arrival : Coming)
        × (reply : Option Answer)
        × (takes : TakesOthers station.old station.new arrival reply)
        × HeardAndReplied takes.what (L.talk line.old, L.transmissions line.old)
        (L.talk line.new, L.transmissions line.new) reply
        × W.saw_receiver watch.old watch.new arrival reply
        × (station.new.receiver.arrival ≡ Some arrival)) }
    ensures hung_up { IfOk result (λ is_turn. is_turn ≡ false → Waits station.old
        × (station.new ≡ after_other_refusal (fault.Line Closed) station.old)
        × (watch.new ≡ watch.old)) }
    ensures fault { IfErr result (FailsInOthers station.old station.new) }
    ensures status { IfErr result (λ broken. IsFailing (status_of (of_broken_off broken))) }
    ensures names { IfErr result (λ broken.
        NamesWritten keeper.old.file.into.jobs.now (of_broken_off broken)) }
    ensures kept { OnOk result (GoesOnKeeping keeper.old keeper.new station.old.receiver.jobs
        station.new.receiver.jobs (S.files store.old) (S.files store.new)) }
    ensures broken { IfErr result (λ broken. GoesOnKeeping keeper.old keeper.new
        station.old.receiver.jobs (kept_of station.old station.new broken)
        (S.files store.old) (S.files store.new)) }
{
    let waits = station.due() == Say::Nothing && !station.is_receiving();
    let (arrival, reply) = match turns::hear_other(station, line) {
        Ok(came) => came,
        Err(StationFault::Line(LineFault::Closed)) if waits => return Ok(false),
        Err(fault) => return Err(TransferError::Line(fault)),
    };
    let receiver = station.receiver();
    if let Err(fault) = keeper.keep(receiver.jobs(), receiver.refusal(), store) {
        station.other_ended();
        let receiver = station.receiver();
        watch.receiver_took(receiver, arrival, None);
        return Err(TransferError::File(fault));
    }
    turns::answer_other(station, line)?;
    let receiver = station.receiver();
    watch.receiver_took(receiver, arrival, reply);
    Ok(true)
}

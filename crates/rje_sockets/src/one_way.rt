//! Stations that take turns over a line, until the transmission ends.
ghost use Rattle.std.specs.Prelude.{◌≡◌, ◌⊎◌, ◌<◌, ℕ, true, false, IfOk, OnOk, IfErr, OnErr};
ghost use Rattle.bsc_history.specs.declared.spoken_turn.SpokenTurn.{SpokenTurn};
ghost use Rattle.rje_commands.specs.CommandFault.{IsFailing, of_station, status_of};
ghost use Rattle.rje_sockets.specs.Inside.Marking.{GoesOnMarking, WereCounted};
ghost use Rattle.rje_sockets.specs.Inside.Keeping.{GoesOnKeeping};
ghost use Rattle.rje_sockets.specs.Inside.BreakingOff.{BreaksOff, BreaksOffNow, of_broken_off};
ghost use Rattle.rje_sockets.specs.NamedFiles.{NamesWritten};
ghost use Rattle.rje_sockets.specs.OverLine.{BothTook, ReceiverTurn, Sends, SenderTurn};
ghost use Rattle.rje_sockets.specs.Patience.{HearsOut, Leaves, most_quiet, was_quiet};
ghost use Rattle.line_world.specs.AnyLines.{SenderFails, SendsToFault, BothTake, BothFail, BothToFault};

use crate::job_writer::JobWriter;
use crate::observer::Observer;
use crate::receive_end::ReceiveEnd;
use crate::sent_marker::SentMarker;
use crate::transfer_error::TransferError;
use bsc_link::{Say, Sound, Wish};
use line_world::Spoken;
use rje_session::turns;
use rje_station::{Arrival, Line, ReceivingStation, SendingStation, StationFault};
use rje_store::Store;

/// After so many quiet hearings in a row a receiving station leaves that was told nothing else.
pub const USUAL_PATIENCE: u32 = 40;

/// After so many hearings in all it leaves too.
pub const MAX_HEARINGS: u32 = 1_000_000_000;

/// Sends what the station has, to the end of its transmission. Each job is marked in its file as soon as it is counted; where that fails, no
/// more are, and the transmission goes on.
pub fn send_all<'a, L: Line, S: Store, W: Observer>(
    station: &mut SendingStation,
    line: &mut L,
    marker: &mut SentMarker<'a>,
    store: &mut S,
    watch: &mut W,
) -> Result<(), StationFault>
    ensures took { OnOk result (Sends W.saw_sender
        (station.old, (L.talk line.old, L.transmissions line.old), watch.old)
        (station.new, (L.talk line.new, L.transmissions line.new), watch.new)) }
    ensures fault { IfErr result (SendsToFault station.old station.new) }
    ensures status { IfErr result (λ fault. IsFailing (status_of (of_station fault))) }
    ensures marked { OnOk result (GoesOnMarking marker.old marker.new station.old.counted
        station.new.counted (S.files store.old) (S.files store.new)) }
    ensures broken { OnErr result ((n : ℕ) × GoesOnMarking marker.old marker.new
        station.old.counted n (S.files store.old) (S.files store.new)) }
    ensures count { (marker.new.marked ≡ marker.old.marked)
        ⊎ WereCounted station.old marker.new.marked }
{
    for _ in 0..u64::MAX {
        if !speak_hear_and_mark(station, line, marker, store, watch)? {
            return Ok(());
        }
    }
    Ok(())
}

/// One turn of a sending station, and whether there is one; then as many jobs are marked as it has counted.
fn speak_hear_and_mark<'a, L: Line, S: Store, W: Observer>(
    station: &mut SendingStation,
    line: &mut L,
    marker: &mut SentMarker<'a>,
    store: &mut S,
    watch: &mut W,
) -> Result<bool, StationFault>
    ensures none { IfOk result (λ is_turn. is_turn ≡ false → (station.old.over ≡ true)
        × (station.new ≡ station.old) × (line.new ≡ line.old) × (watch.new ≡ watch.old)) }
    ensures turn { IfOk result (λ is_turn. is_turn ≡ true → (t : SpokenTurn)
        × SenderTurn W.saw_sender
        (station.old, (L.talk line.old, L.transmissions line.old), watch.old)
        (station.new, (L.talk line.new, L.transmissions line.new), watch.new) t) }
    ensures fault { IfErr result (SenderFails station.old station.new) }
    ensures status { IfErr result (λ fault. IsFailing (status_of (of_station fault))) }
    ensures marked { OnOk result (GoesOnMarking marker.old marker.new station.old.counted
        station.new.counted (S.files store.old) (S.files store.new)) }
    ensures count { (marker.new.marked ≡ marker.old.marked)
        ⊎ (marker.new.marked ≡ station.new.counted) }
    ensures unmarked { OnErr result ((marker.new ≡ marker.old) × (store.new ≡ store.old)) }
{
    let is_turn = speak_and_hear(station, line, watch)?;
    marker.mark(station.counted(), store);
    Ok(is_turn)
}

/// One turn of a sending station, and whether there is one: it says what is due, and listens unless that is EOT.
fn speak_and_hear<L: Line, W: Observer>(
    station: &mut SendingStation,
    line: &mut L,
    watch: &mut W,
) -> Result<bool, StationFault>
    ensures none { IfOk result (λ is_turn. is_turn ≡ false → (station.old.over ≡ true)
        × (station.new ≡ station.old) × (line.new ≡ line.old) × (watch.new ≡ watch.old)) }
    ensures turn { IfOk result (λ is_turn. is_turn ≡ true → (t : SpokenTurn)
        × SenderTurn W.saw_sender
        (station.old, (L.talk line.old, L.transmissions line.old), watch.old)
        (station.new, (L.talk line.new, L.transmissions line.new), watch.new) t) }
    ensures fault { IfErr result (SenderFails station.old station.new) }
    ensures status { IfErr result (λ fault. IsFailing (status_of (of_station fault))) }
{
    match station.speak(line) {
        Ok(Say::End) => {
            watch.sender_took(station, Say::End, Sound::Quiet);
            Ok(true)
        }
        Ok(said) => {
            let heard = station.hear(line, false)?;
            watch.sender_took(station, said, heard);
            Ok(true)
        }
        Err(StationFault::Over) => Ok(false),
        Err(fault) => Err(fault),
    }
}

/// How many quiet hearings in a row a station bears that is to bear so many; with 0 it bears all.
pub fn most_quiet(patience: u32) -> u32
    ensures most { result ≡ most_quiet patience }
    ensures some { 0 < result }
{
    match patience {
        0 => MAX_HEARINGS,
        most => most,
    }
}

/// Receives what comes, until the sender ends the transmission or stays quiet for so many hearings in a row. Each job is kept before its last
/// block is answered; where it can't be, the station leaves.
pub fn receive_all<'a, L: Line, S: Store, W: Observer>(
    station: &mut ReceivingStation,
    line: &mut L,
    patience: u32,
    keeper: &mut JobWriter<'a>,
    store: &mut S,
    watch: &mut W,
) -> Result<ReceiveEnd, TransferError<'a>>
    requires patient { 0 < patience }
    ensures left { IfOk result (λ left. Leaves patience W.saw_receiver left
        (station.old, (L.talk line.old, L.transmissions line.old), watch.old)
        (station.new, (L.talk line.new, L.transmissions line.new), watch.new)) }
    ensures broken { IfErr result (BreaksOff station.old station.new
        (keeper.old, L.transmissions line.old, S.files store.old)
        (keeper.new, L.transmissions line.new, S.files store.new)) }
    ensures status { IfErr result (λ broken. IsFailing (status_of (of_broken_off broken))) }
    ensures names { IfErr result (λ broken.
        NamesWritten keeper.old.file.into.jobs.now (of_broken_off broken)) }
    ensures kept { OnOk result (GoesOnKeeping keeper.old keeper.new station.old.jobs
        station.new.jobs (S.files store.old) (S.files store.new)) }
{
    let left = hear_out(station, line, patience, keeper, store, watch)?;
    if left == ReceiveEnd::Abandoned {
        station.abandon();
    }
    Ok(left)
}

/// Receives until the sender ends the transmission, or there is no more hope of it.
fn hear_out<'a, L: Line, S: Store, W: Observer>(
    station: &mut ReceivingStation,
    line: &mut L,
    patience: u32,
    keeper: &mut JobWriter<'a>,
    store: &mut S,
    watch: &mut W,
) -> Result<ReceiveEnd, TransferError<'a>>
    requires patient { 0 < patience }
    ensures heard { IfOk result (λ left. HearsOut patience W.saw_receiver left
        (station.old, (L.talk line.old, L.transmissions line.old), watch.old)
        (station.new, (L.talk line.new, L.transmissions line.new), watch.new)) }
    ensures broken { IfErr result (BreaksOff station.old station.new
        (keeper.old, L.transmissions line.old, S.files store.old)
        (keeper.new, L.transmissions line.new, S.files store.new)) }
    ensures status { IfErr result (λ broken. IsFailing (status_of (of_broken_off broken))) }
    ensures names { IfErr result (λ broken.
        NamesWritten keeper.old.file.into.jobs.now (of_broken_off broken)) }
    ensures kept { OnOk result (GoesOnKeeping keeper.old keeper.new station.old.jobs
        station.new.jobs (S.files store.old) (S.files store.new)) }
{
    let mut quiet = 0;
    for _ in 0..MAX_HEARINGS {
        if !hear_keep_and_speak(station, line, keeper, store, watch)? {
            return Ok(ReceiveEnd::Ended);
        }
        quiet = turns::quiet_after(quiet, was_quiet(station));
        if quiet == patience {
            return Ok(ReceiveEnd::Abandoned);
        }
    }
    Ok(ReceiveEnd::Abandoned)
}

/// Whether the last hearing brought nothing.
pub fn was_quiet(station: &ReceivingStation) -> bool
    ensures { result ≡ was_quiet station.now.arrival }
{
    match station.arrival() {
        Some(arrival) => matches!(arrival.sound, Sound::Quiet),
        None => false,
    }
}

/// One turn of a receiving station: it listens, it keeps the job that has come to its end, and it replies where the transmission isn't
/// over, which is answered. Where the job can't be kept, it leaves and doesn't reply.
fn hear_keep_and_speak<'a, L: Line, S: Store, W: Observer>(
    station: &mut ReceivingStation,
    line: &mut L,
    keeper: &mut JobWriter<'a>,
    store: &mut S,
    watch: &mut W,
) -> Result<bool, TransferError<'a>>
    ensures turn { OnOk result ((t : SpokenTurn) × ReceiverTurn W.saw_receiver
        (station.old, (L.talk line.old, L.transmissions line.old), watch.old)
        (station.new, (L.talk line.new, L.transmissions line.new), watch.new) t) }
    ensures over { IfOk result (λ goes_on. goes_on ≡ false → station.new.over ≡ true) }
    ensures broken { IfErr result (BreaksOffNow station.old station.new
        (keeper.old, L.transmissions line.old, S.files store.old)
        (keeper.new, L.transmissions line.new, S.files store.new)) }
    ensures status { IfErr result (λ broken. IsFailing (status_of (of_broken_off broken))) }
    ensures names { IfErr result (λ broken.
        NamesWritten keeper.old.file.into.jobs.now (of_broken_off broken)) }
    ensures kept { OnOk result (GoesOnKeeping keeper.old keeper.new station.old.jobs
        station.new.jobs (S.files store.old) (S.files store.new)) }
{
    let reply = station.hear(line, Wish::Go)?;
    let Some(arrival) = station.arrival() else {
        unreachable!()
    };
    if let Err(fault) = keeper.keep(station.jobs(), station.refusal(), store) {
        station.abandon();
        watch.receiver_took(station, arrival, None);
        return Err(TransferError::File(fault));
    }
    match station.speak(line) {
        Ok(_) => {
            watch.receiver_took(station, arrival, reply);
            Ok(true)
        }
        Err(StationFault::Over) => {
            watch.receiver_took(station, arrival, reply);
            Ok(false)
        }
        Err(fault) => Err(TransferError::Line(fault)),
    }
}

/// Lets a sender and a receiver take turns, each at its end of a line, to the end of the transmission.
pub fn take_turns<N: Line, F: Line, W: Observer>(
    sender: &mut SendingStation,
    near: &mut N,
    receiver: &mut ReceivingStation,
    far: &mut F,
    watch: &mut W,
) -> Result<(), StationFault>
    ensures took { OnOk result (BothTook W.saw_both
        (sender.old, receiver.old, watch.old) (sender.new, receiver.new, watch.new)) }
    ensures fault { IfErr result (BothToFault sender.old sender.new receiver.old receiver.new) }
    ensures status { IfErr result (λ fault. IsFailing (status_of (of_station fault))) }
{
    for _ in 0..u64::MAX {
        let Some(turn) = take_turn(sender, near, receiver, far)? else {
            return Ok(());
        };
        watch.both_took(sender, &turn);
    }
    Ok(())
}

/// One turn of a sender and a receiver; None where the sender has nothing to say any more.
fn take_turn<N: Line, F: Line>(
    sender: &mut SendingStation,
    near: &mut N,
    receiver: &mut ReceivingStation,
    far: &mut F,
) -> Result<Option<Spoken>, StationFault>
    ensures takes { IfOk result (λ spoken.
        BothTake spoken sender.old sender.new receiver.old receiver.new) }
    ensures fault { IfErr result (BothFail sender.old sender.new receiver.old receiver.new) }
    ensures status { IfErr result (λ fault. IsFailing (status_of (of_station fault))) }
{
    let said = match sender.speak(near) {
        Ok(said) => said,
        Err(StationFault::Over) => return Ok(None),
        Err(fault) => return Err(fault),
    };
    let reply = receiver.hear(far, Wish::Go)?;
    let Some(Arrival { sound, refused }) = receiver.arrival() else {
        unreachable!()
    };
    let heard = match said {
        Say::End => Sound::Quiet,
        _ => {
            receiver.speak(far)?;
            sender.hear(near, false)?
        }
    };
    Ok(Some(Spoken {
        said,
        arrived: sound,
        refused,
        reply,
        heard,
    }))
}

//! Transmission after transmission on one connection.
ghost use Rattle.std.specs.Prelude.{◌≡◌, ◌≢◌, ◌⊎◌, if◌then◌else◌, true, false, IfOk, OnOk};
ghost use Rattle.rje_day.specs.declared.day_place.DayPlace.TheVariants.{Free};
ghost use Rattle.rje_day.specs.declared.next_action.NextAction.TheVariants as duty;
ghost use Rattle.rje_day.specs.Day.{duty_of, is_in_hand};
ghost use Rattle.rje_station.specs.Station.{is_receiving};
ghost use Rattle.rje_day.specs.declared.day_event.DayEvent.TheVariants.{Disconnected, Heard, OtherBegan, Quiet};
ghost use Rattle.rje_session.specs.Account.{ComesOf, IsAccounted, IsInStep, IsSettled};
ghost use Rattle.rje_session.specs.Breaking.{is_word as says_word};
ghost use Rattle.rje_session.specs.Staying.{AreInDoubt, AreSettled, GoesOnAsDay, is_babble, is_of_connection as of_connection, place_in_hand};
ghost use Rattle.rje_session.specs.declared.connection_end.ConnectionEnd.TheVariants.{Failed, HungUp};

use crate::breaking::is_word;
use crate::leaving::Leaving;
use crate::{ConnectionEnd, InHand, InStep, Spool, StayFault, Terms};
use bsc_link::Sound;
use rje_day::{Day, DayEvent, Disposition, Ended, Inputs, NextAction};
use rje_station::{Line, StationFault};
use std::alloc::Global;

/// After so many transmissions and hearings between them it leaves the line.
pub const MAX_TRANSMISSIONS: u32 = 1_000_000_000;

/// Stays on a connection: takes one transmission after another, each with new stations, as the day says what is next, until the connection is
/// over. A transmission that broke is the last. Where an answer came after this end said EOT, all jobs of its last transmission are in doubt but
/// those that lie ready, as they didn't go out, and the connection is left. How it came to its end.
pub fn stay<L: InStep, S: Spool>(
    alloc: Global,
    terms: Terms,
    day: &mut Day,
    line: &mut L,
    spool: &mut S,
) -> Result<ConnectionEnd, StayFault<S::Fault>>
    ensures day { GoesOnAsDay day.old day.new }
{
    let (mut given, mut ended) = (0, Ended::Done);
    let mut parting = ConnectionEnd::HungUp;
    for _ in 0..MAX_TRANSMISSIONS {
        let seen = spool.seen();
        let duty = day.next(seen);
        if !line.is_in_step() {
            if is_of_connection(duty) {
                day.note(DayEvent::Disconnected);
            }
            doubt(given, ended, spool)?;
            return Ok(parting);
        }
        if !is_of_connection(duty) {
            return Ok(parting);
        }
        match duty {
            NextAction::Bid => {
                (given, ended, parting) = bid(alloc, terms, day, seen, line, spool)?;
            }
            NextAction::Hear => parting = hear(alloc, terms, day, seen, line, spool)?,
            _ => day.note(DayEvent::Disconnected),
        }
    }
    Ok(parting)
}

/// Whether there is a connection where this is next.
fn is_of_connection(duty: NextAction) -> bool
    ensures { result ≡ of_connection duty }
{
    matches!(
        duty,
        NextAction::Bid | NextAction::Hear | NextAction::GoOn | NextAction::HangUp
    )
}

/// Takes a transmission of its own, of the jobs that the spool gives, and of the other end's where it yields. How many jobs were given, how its
/// own ended, and how the connection came to its end, where it did.
fn bid<L: Line, S: Spool>(
    alloc: Global,
    terms: Terms,
    day: &mut Day,
    seen: Inputs,
    line: &mut L,
    spool: &mut S,
) -> Result<(usize, Ended, ConnectionEnd), StayFault<S::Fault>>
    requires next { duty_of day.old seen ≡ duty.Bid }
    requires free { day.old.place ≡ Free }
    ensures day { GoesOnAsDay day.old day.new }
    ensures settled { S.discloses → IfOk result (λ (given, ended, _).
        AreSettled given ended (S.ledger spool.new)) }
{
    let jobs = match spool.next(alloc) {
        Ok(jobs) => jobs,
        Err(fault) => {
            day.note(DayEvent::Disconnected);
            return Err(StayFault::Spool(fault));
        }
    };
    match InHand::new(alloc, terms.rank, jobs.as_slice()) {
        Ok(mut held) => {
            day.note(DayEvent::OwnBegan);
            carry(&mut held, terms, day, seen, line, spool)?;
            Ok((jobs.len(), held.ended(), held.parting()))
        }
        Err(fault) => {
            day.note(DayEvent::Disconnected);
            Err(StayFault::Station(fault))
        }
    }
}

/// Hears once, and takes the transmission of the other end's that begins then, if one does. How the connection came to its end, where it did.
fn hear<L: Line, S: Spool>(
    alloc: Global,
    terms: Terms,
    day: &mut Day,
    seen: Inputs,
    line: &mut L,
    spool: &mut S,
) -> Result<ConnectionEnd, StayFault<S::Fault>>
    requires next { duty_of day.old seen ≡ duty.Hear }
    requires free { day.old.place ≡ Free }
    ensures day { GoesOnAsDay day.old day.new }
{
    let mut held = match InHand::new(alloc, terms.rank, &[]) {
        Ok(held) => held,
        Err(fault) => {
            day.note(DayEvent::Disconnected);
            return Err(StayFault::Station(fault));
        }
    };
    match held.take_others_turn(line, spool) {
        Ok(_) if held.station().is_receiving() => {
            day.note(DayEvent::OtherBegan);
            carry(&mut held, terms, day, seen, line, spool)?;
            Ok(held.parting())
        }
        Ok(arrival) => {
            day.note(heard(arrival.sound));
            Ok(ConnectionEnd::HungUp)
        }
        Err(Leaving::Line(fault)) => {
            day.note(DayEvent::Disconnected);
            Ok(parting_of(fault))
        }
        Err(Leaving::TooMuch) => {
            day.note(DayEvent::Disconnected);
            Ok(ConnectionEnd::HungUp)
        }
        Err(Leaving::Spool(fault)) => {
            day.note(DayEvent::Disconnected);
            Err(StayFault::Spool(fault))
        }
    }
}

/// Goes on with a transmission in hand to its end, and with the other end's where its own yields.
fn carry<'a, L: Line, S: Spool>(
    held: &mut InHand<'a>,
    terms: Terms,
    day: &mut Day,
    seen: Inputs,
    line: &mut L,
    spool: &mut S,
) -> Result<(), StayFault<S::Fault>>
    requires in_hand { day.old.place ≡ place_in_hand (is_receiving held.old.station.contender.place) }
    ensures day { GoesOnAsDay day.old day.new }
    ensures settled { S.discloses → IsInStep held.old (S.ledger spool.old)
        → OnOk result (IsSettled held.new (S.ledger spool.new)) }
    ensures jobs { OnOk result (held.new.station.sender.jobs ≡ held.old.station.sender.jobs) }
{
    if go_on(held, terms, day, seen, line, spool)? == DayEvent::OtherBegan {
        go_on(held, terms, day, seen, line, spool)?;
    }
    Ok(())
}

/// Goes on with a transmission in hand, and notes what came of it.
fn go_on<'a, L: Line, S: Spool>(
    held: &mut InHand<'a>,
    terms: Terms,
    day: &mut Day,
    seen: Inputs,
    line: &mut L,
    spool: &mut S,
) -> Result<DayEvent, StayFault<S::Fault>>
    requires in_hand { day.old.place ≡ place_in_hand (is_receiving held.old.station.contender.place) }
    ensures day { GoesOnAsDay day.old day.new }
    ensures in_hand { IfOk result (λ event. event ≡ OtherBegan
        → day.new.place ≡ place_in_hand (is_receiving held.new.station.contender.place)) }
    ensures accounted { S.discloses → IsInStep held.old (S.ledger spool.old)
        → IfOk result (λ event. IsAccounted event held.new (S.ledger spool.new)) }
    ensures comes { IfOk result (ComesOf held.old held.new) }
    ensures jobs { OnOk result (held.new.station.sender.jobs ≡ held.old.station.sender.jobs) }
{
    match held.go_on(line, terms, spool) {
        Ok(event) => {
            note_word(held, event, day);
            day.note(event);
            Ok(event)
        }
        Err(fault) => {
            note_word(held, DayEvent::Disconnected, day);
            day.note(DayEvent::Disconnected);
            Err(StayFault::Spool(fault))
        }
    }
}

/// Notes that the other end said a word, where it answered in a transmission that came to its end with the connection.
fn note_word<'a>(held: &InHand<'a>, event: DayEvent, day: &mut Day)
    requires in_hand { is_in_hand day.old.place ≡ true }
    ensures day { GoesOnAsDay day.old day.new }
    ensures place { day.new.place ≡ day.old.place }
    ensures word { event ≡ Disconnected → held.now.answered ≡ true → day.new.has_spoken ≡ true }
    ensures still { (event ≢ Disconnected) ⊎ (held.now.answered ≡ false) → day.new ≡ day.old }
{
    if event == DayEvent::Disconnected && held.was_answered() {
        day.note(DayEvent::Heard);
    }
}

/// How a connection came to its end where the line failed so, with no transmission in hand.
fn parting_of(fault: StationFault) -> ConnectionEnd
    ensures { result ≡ (if is_babble fault then Failed fault else HungUp) }
{
    match fault {
        StationFault::Babble => ConnectionEnd::Failed(fault),
        _ => ConnectionEnd::HungUp,
    }
}

/// What the day is told of a hearing between transmissions.
fn heard(sound: Sound) -> DayEvent
    ensures { result ≡ (if says_word sound then Heard else Quiet) }
{
    if is_word(sound) {
        DayEvent::Heard
    } else {
        DayEvent::Quiet
    }
}

/// All jobs of its last transmission, which was given so many and ended so, are in doubt but those that lie ready.
fn doubt<S: Spool>(given: usize, ended: Ended, spool: &mut S) -> Result<(), StayFault<S::Fault>>
    ensures doubt { S.discloses → AreSettled given ended (S.ledger spool.old)
        → OnOk result (AreInDoubt given ended (S.ledger spool.new)) }
{
    for job in 0..given {
        if ended.disposition(job) == Disposition::Ready {
            continue;
        }
        if let Err(fault) = spool.settle(job, Disposition::InDoubt) {
            return Err(StayFault::Spool(fault));
        }
    }
    Ok(())
}

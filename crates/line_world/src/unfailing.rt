//! Stations at lines in memory of which no call fails: what is sent is short enough, and no call is named to fail.
ghost use Rattle.std.specs.Prelude.{◌≡◌, ◌≤◌, true, false, None, Some, length};
ghost use Rattle.std.specs.List.{flat_map};
ghost use Rattle.rje_station.specs.Hearing.{Hearing, HearsSound};
ghost use Rattle.rje_station.specs.Receiving.{Received, Replied, after_replying};
ghost use Rattle.rje_station.specs.Sending.{after_hearing};
ghost use Rattle.line_world.specs.MemoryLine.{talk_of};

use crate::MemoryLine;
use bsc_link::{Reply, Sound, Wish};
use rje_station::{Arrival, ReceivingStation, SendingStation, StationFault};

/// The receiving station hears what comes: what that was, and the reply that is due.
pub(crate) fn hear_up(
    receiver: &mut ReceivingStation,
    line: &mut MemoryLine,
    wish: Wish,
) -> (Arrival, Option<Reply>)
    requires calm { line.old.until_failure ≡ 0 }
    requires short { length (flat_map (λ p. p) line.old.waiting) ≤ 8192 }
    requires live { receiver.old.over ≡ false }
    ensures heard { Received receiver.old receiver.new wish result.1
        (λ what. Hearing (talk_of line.old) (talk_of line.new) what) }
    ensures arrival { receiver.new.arrival ≡ Some result.0 }
    ensures owes { receiver.new.over ≡ true → receiver.new.due ≡ None }
    ensures calm { line.new.until_failure ≡ 0 }
{
    let Ok(reply) = receiver.hear(line, wish) else {
        unreachable!()
    };
    let Some(arrival) = receiver.arrival() else {
        unreachable!()
    };
    (arrival, reply)
}

/// The receiving station sends the reply that is due; it owes none where it is over.
pub(crate) fn speak_down(receiver: &mut ReceivingStation, line: &mut MemoryLine) -> Option<Reply>
    requires calm { line.old.until_failure ≡ 0 }
    requires owes { receiver.old.over ≡ true → receiver.old.due ≡ None }
    ensures reply { result ≡ receiver.old.due }
    ensures sent { Replied receiver.old.due (talk_of line.old) (talk_of line.new) }
    ensures state { receiver.new ≡ after_replying receiver.old }
    ensures calm { line.new.until_failure ≡ 0 }
{
    match receiver.speak(line) {
        Ok(reply) => reply,
        Err(StationFault::Over) => None,
        Err(_) => unreachable!(),
    }
}

/// The sending station hears what comes.
pub(crate) fn hear_down(
    sender: &mut SendingStation<'_>,
    line: &mut MemoryLine,
    pause: bool,
) -> Sound
    requires calm { line.old.until_failure ≡ 0 }
    requires short { length (flat_map (λ p. p) line.old.waiting) ≤ 8192 }
    requires live { sender.old.over ≡ false }
    ensures heard { HearsSound (talk_of line.old) (talk_of line.new) result }
    ensures state { sender.new ≡ after_hearing sender.old result pause }
    ensures calm { line.new.until_failure ≡ 0 }
{
    let Ok(sound) = sender.hear(line, pause) else {
        unreachable!()
    };
    sound
}

//! The lines that tell of a transmission.
ghost use Rattle.std.specs.Prelude.{◌≡◌, ◌≤◌, [], Option, length};
ghost use Rattle.rje_print.specs.ReportTexts.{say_name, sound_name, arrived_name, reply_name, turn_line, counted_line, handed_line, outcome_line, outcome_name, whole_jobs};

use crate::printed_line::{PrintedLine, push, push_number};
use bsc_link::{Outcome, Reply, Say, Sound};
use line_world::Spoken;
use rje_jobs::Job;

/// Puts the line of a turn into an empty line.
#[tactic(auto, unfolding(crate::specs::ReportTexts::turn_line))]
pub(crate) fn push_turn(line: &mut PrintedLine, number: usize, turn: &Spoken)
    requires { line.old.items ≡ [] }
    ensures { line.new.items ≡ turn_line number turn.now }
{
    push_number(line, number);
    push(line, b" ");
    push(line, say_text(turn.said));
    push(line, b" ");
    push(line, arrived_text(turn.arrived, turn.refused));
    push(line, b" ");
    push(line, reply_text(turn.reply));
    push(line, b" ");
    push(line, sound_text(turn.heard));
    push(line, b"\n");
}

/// The line that says how many jobs of how many are counted.
pub fn counted_text(counted: usize, given: usize) -> PrintedLine
    ensures { result.items ≡ counted_line counted given }
{
    let mut line = PrintedLine::new();
    push(&mut line, b"counted ");
    push_number(&mut line, counted);
    push(&mut line, b" of ");
    push_number(&mut line, given);
    push(&mut line, b" jobs\n");
    line
}

/// The line that says how many jobs were delivered, and how many of them whole.
pub fn handed_text(jobs: &[Job]) -> PrintedLine
    ensures { result.items ≡ handed_line (length jobs.now) (whole_jobs jobs.now) }
{
    let mut line = PrintedLine::new();
    push(&mut line, b"handed ");
    push_number(&mut line, jobs.len());
    push(&mut line, b" jobs, ");
    push_number(&mut line, whole_jobs(jobs));
    push(&mut line, b" whole\n");
    line
}

/// How many of these jobs are whole.
fn whole_jobs(jobs: &[Job]) -> usize
    ensures { result ≡ whole_jobs jobs.now }
{
    let mut count = 0;
    for job in jobs {
        if job.whole {
            count += 1;
        }
    }
    count
}

/// The line that says how a transmission ended.
pub fn outcome_text(outcome: Option<Outcome>) -> PrintedLine
    ensures { result.items ≡ outcome_line outcome }
{
    let mut line = PrintedLine::new();
    push(&mut line, b"outcome ");
    push(&mut line, name_of(outcome));
    push(&mut line, b"\n");
    line
}

fn name_of(outcome: Option<Outcome>) -> &'static [u8]
    ensures name { result.now ≡ outcome_name outcome }
    ensures short { length result.now ≤ 7 }
{
    match outcome {
        Some(Outcome::Done) => b"done",
        Some(Outcome::Turned) => b"turned",
        Some(Outcome::GaveUp) => b"gave up",
        Some(Outcome::Ended) => b"ended",
        None => b"open",
    }
}

pub(crate) fn say_text(said: Say) -> &'static [u8]
    ensures name { result.now ≡ say_name said }
    ensures short { length result.now ≤ 6 }
{
    match said {
        Say::Bid => b"bid",
        Say::Block => b"block",
        Say::Again => b"again",
        Say::Delay => b"delay",
        Say::Ask => b"ask",
        Say::End => b"end",
        Say::Nothing => b"-",
    }
}

pub(crate) fn arrived_text(arrived: Sound, refused: bool) -> &'static [u8]
    ensures name { result.now ≡ arrived_name arrived refused }
    ensures short { length result.now ≤ 6 }
{
    if refused {
        b"block!"
    } else {
        sound_text(arrived)
    }
}

pub(crate) fn reply_text(reply: Option<Reply>) -> &'static [u8]
    ensures name { result.now ≡ reply_name reply }
    ensures short { length result.now ≤ 6 }
{
    match reply {
        Some(Reply::Ack0) => b"ack0",
        Some(Reply::Ack1) => b"ack1",
        Some(Reply::Nak) => b"nak",
        Some(Reply::Wack) => b"wack",
        Some(Reply::Rvi) => b"rvi",
        None => b"-",
    }
}

pub(crate) fn sound_text(sound: Sound) -> &'static [u8]
    ensures name { result.now ≡ sound_name sound }
    ensures short { length result.now ≤ 6 }
{
    match sound {
        Sound::Enq => b"enq",
        Sound::Ack0 => b"ack0",
        Sound::Ack1 => b"ack1",
        Sound::Nak => b"nak",
        Sound::Wack => b"wack",
        Sound::Rvi => b"rvi",
        Sound::Ttd => b"ttd",
        Sound::Abort => b"abort",
        Sound::Eot => b"eot",
        Sound::Block => b"block",
        Sound::Bad => b"bad",
        Sound::Noise => b"noise",
        Sound::Quiet => b"quiet",
    }
}

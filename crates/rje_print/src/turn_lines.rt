//! The lines that tell of a transmission as it happens: where calls are awaited, who is connected, and each turn.
ghost use Rattle.std.specs.Prelude.{◌≡◌, ◌<◌, ◌≤◌, ◌+◌, ◌++◌, Option, length, IfOk};
ghost use Rattle.std.specs.Duration.{as_nanos};
ghost use Rattle.rje_print.specs.TurnTexts.{seconds_text, three_digits, word_text, place_text, listening_line, peer_line, sender_line, receiver_line, both_line};

use crate::block_place::BlockPlace;
use crate::printed_line::{MAX_LINE, PrintedLine, push, push_number};
use crate::report_lines::{arrived_text, reply_text, say_text, sound_text};
use bsc_link::{Reply, Say, Sound};
use line_world::Spoken;
use rje_station::Arrival;
use std::io::{self, Write};
use std::net::SocketAddr;
use std::time::Duration;

/// The line that says at which address calls are awaited. The time since the start is none yet. Fails where the line has no room, which it
/// has for every address.
pub fn listening_text(address: SocketAddr) -> io::Result<PrintedLine>
    ensures { IfOk result (λ line. line.items ≡ listening_line address) }
{
    let mut line = seconds(Duration::ZERO);
    writeln!(line, " listening {address}")?;
    Ok(line)
}

/// The line that says who is connected, this long after the start. Fails where the line has no room, which it has for every address.
pub fn peer_text(after: Duration, peer: SocketAddr) -> io::Result<PrintedLine>
    ensures { IfOk result (λ line. line.items ≡ peer_line (as_nanos after) peer) }
{
    let mut line = seconds(after);
    writeln!(line, " connected {peer}")?;
    Ok(line)
}

/// The line of a turn of a sending station, this long after the start: what it said, and what it heard, and which block that was.
pub fn sender_text(
    after: Duration,
    said: Say,
    heard: Sound,
    place: Option<BlockPlace>,
) -> PrintedLine
    ensures { result.items ≡ sender_line (as_nanos after) said heard place }
{
    let mut line = seconds(after);
    push_word(&mut line, say_text(said));
    push_word(&mut line, sound_text(heard));
    push_place(&mut line, place);
    push(&mut line, b"\n");
    line
}

/// The line of a turn of a receiving station, this long after the start: what arrived, what it replied, and which block that was.
pub fn receiver_text(
    after: Duration,
    arrival: Arrival,
    reply: Option<Reply>,
    place: Option<BlockPlace>,
) -> PrintedLine
    ensures { result.items ≡ receiver_line (as_nanos after) arrival reply place }
{
    let mut line = seconds(after);
    push_word(&mut line, arrived_text(arrival.sound, arrival.refused));
    push_word(&mut line, reply_text(reply));
    push_place(&mut line, place);
    push(&mut line, b"\n");
    line
}

/// The line of a turn of both, this long after the start: what was said, what arrived, what was replied, what was heard, and which block that
/// was.
pub fn both_text(after: Duration, turn: &Spoken, place: Option<BlockPlace>) -> PrintedLine
    ensures { result.items ≡ both_line (as_nanos after) turn.now place }
{
    let mut line = seconds(after);
    push_word(&mut line, say_text(turn.said));
    push_word(&mut line, arrived_text(turn.arrived, turn.refused));
    push_word(&mut line, reply_text(turn.reply));
    push_word(&mut line, sound_text(turn.heard));
    push_place(&mut line, place);
    push(&mut line, b"\n");
    line
}

/// A line that begins with a time, in seconds with three decimals.
fn seconds(time: Duration) -> PrintedLine
    ensures text { result.items ≡ seconds_text (as_nanos time) }
    ensures short { length result.items ≤ 24 }
{
    let mut line = PrintedLine::new();
    push_number(&mut line, time.as_secs() as usize);
    push(&mut line, b".");
    push(&mut line, &digits(time.subsec_millis()));
    line
}

/// A number below 1000 in three digits.
fn digits(number: u32) -> [u8; 3]
    requires { number < 1000 }
    ensures { result ≡ three_digits number }
{
    [
        b'0' + (number / 100) as u8,
        b'0' + (number / 10 % 10) as u8,
        b'0' + (number % 10) as u8,
    ]
}

/// Puts a blank and a word after the bytes of a line.
fn push_word(line: &mut PrintedLine, word: &[u8])
    requires { length line.old.items + 1 + length word.now ≤ MAX_LINE }
    ensures { line.new.items ≡ line.old.items ++ word_text word.now }
{
    push(line, b" ");
    push(line, word);
}

/// Puts a block's place after the words of a line, where there is one.
fn push_place(line: &mut PrintedLine, place: Option<BlockPlace>)
    requires { length line.old.items + 100 ≤ MAX_LINE }
    ensures text { line.new.items ≡ line.old.items ++ place_text place }
    ensures few { length line.new.items ≤ length line.old.items + 79 }
{
    if let Some(BlockPlace { job, block, length }) = place {
        push(line, b" job ");
        push_number(line, job);
        push(line, b" block ");
        push_number(line, block);
        push(line, b" ");
        push_number(line, length);
        push(line, b" bytes");
    }
}
